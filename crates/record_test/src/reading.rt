// A vector of the reader and of the viewer's calls. Its first words: length, record's bytes, places lent, the answer's four numbers, the
// header's seven, subdivisions, blank, samples filled, points asked. Then come the record, the samples filled and the points: a word of
// these that is not there counts as 0, and what follows them is not looked at.
use crate::vectors::{number, numbers, rest_from, word};
use model::{Header, Numbers, PlaceKind, Refusal};
use record::reader::read_record;
use viewer::{blank, read_point, sample, subdivisions};
use words::floats::bits_of;

// The places lent at most, the bytes of a record and the points.
const ROOM: usize = 8192;

const MOST_BYTES: usize = 65536;

const MOST_POINTS: usize = 1024;

const UNTOUCHED: f32 = -1234.5;

// The bytes of the first words, and of a point.
const HEAD: usize = 72;

const POINT: usize = 28;

#[derive(Clone, Copy)]
struct Trial<'a> {
    head: &'a [u8],
    record: &'a [u8],
    samples: &'a [u8],
    points: &'a [u8],
}

impl<'a> Trial<'a> {
    // None where the record is not wholly there, or the vector tells more than is looked at.
    fn new(vector: &'a [u8]) -> Option<Trial<'a>> {
        let (head, rest) = vector.split_at_checked(HEAD)?;
        let bytes = number(head, 1);
        let filled = number(head, 16);
        if MOST_BYTES < bytes || ROOM < filled || MOST_POINTS < number(head, 17) {
            return None;
        }
        let record = rest.get(..bytes)?;
        let samples = rest_from(rest, bytes + (4 - bytes % 4) % 4);
        Some(Trial {
            head,
            record,
            samples,
            points: rest_from(samples, 4 * filled),
        })
    }
}

// The coordinate that a number stands for.
fn coordinate(code: u32) -> i32 {
    match code {
        0 => i32::MIN,
        1..=23 => code as i32 - 4,
        _ => i32::MAX,
    }
}

// By bits, of -0 too, which `==` takes for 0.
fn header_agrees(head: &[u8], header: Header) -> bool {
    let block = header.block;
    let base = block.base;
    block.subdivisions == number(head, 7)
        && u32::from(header.mask) == word(head, 8)
        && bits_of(header.threshold) == word(head, 9)
        && bits_of(base.x) == word(head, 10)
        && bits_of(base.y) == word(head, 11)
        && bits_of(base.z) == word(head, 12)
        && bits_of(block.size) == word(head, 13)
}

fn answer_agrees(head: &[u8], answer: Result<Header, Refusal>) -> bool {
    match answer {
        Ok(header) => word(head, 3) == 0 && header_agrees(head, header),
        Err(refusal) => Numbers::from(refusal) == numbers(head, 3),
    }
}

// The first places hold the vector's samples, and all beyond is untouched.
fn samples_agree(trial: &Trial<'_>, samples: &[f32]) -> bool {
    let Some((filled, beyond)) = samples.split_at_checked(number(trial.head, 16)) else {
        return false;
    };
    filled
        .iter()
        .enumerate()
        .all(|(k, sample)| bits_of(*sample) == word(trial.samples, k))
        && beyond.iter().all(|sample| *sample == UNTOUCHED)
}

fn read_agrees(trial: &Trial<'_>) -> bool {
    let mut samples = [UNTOUCHED; ROOM];
    let Some(lent) = samples.get_mut(..number(trial.head, 2)) else {
        return false;
    };
    let answer = read_record(trial.record, lent);
    answer_agrees(trial.head, answer) && samples_agree(trial, &samples)
}

// A face's kind is its number, and in-block 6: the vector files have them so.
fn kind_number(kind: PlaceKind) -> usize {
    match kind {
        PlaceKind::InBlock => 6,
        PlaceKind::Face(face) => face,
    }
}

fn read_point_agrees(point: &[u8], read: Result<(f32, PlaceKind), Refusal>) -> bool {
    let (kind, first) = match read {
        Ok((_, kind)) => (kind_number(kind), 0),
        Err(refusal) => (0, Numbers::from(refusal).first),
    };
    kind == number(point, 5) && first == number(point, 6)
}

fn point_agrees(point: &[u8], src: &[u8]) -> bool {
    let x = coordinate(word(point, 0));
    let y = coordinate(word(point, 1));
    let z = coordinate(word(point, 2));
    let found = sample(src, x, y, z);
    found % 4294967296 == u64::from(word(point, 3))
        && found / 4294967296 == u64::from(word(point, 4))
        && read_point_agrees(point, read_point(src, x, y, z))
}

fn points_agree(trial: &Trial<'_>) -> bool {
    for k in 0..number(trial.head, 17) {
        if !point_agrees(rest_from(trial.points, POINT * k), trial.record) {
            return false;
        }
    }
    true
}

fn calls_agree(trial: &Trial<'_>) -> bool {
    subdivisions(trial.record) == u64::from(word(trial.head, 14))
        && blank(trial.record) == u64::from(word(trial.head, 15))
}

pub fn agrees(vector: &[u8]) -> bool {
    match Trial::new(vector) {
        Some(trial) => read_agrees(&trial) && calls_agree(&trial) && points_agree(&trial),
        None => false,
    }
}
