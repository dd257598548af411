// A vector of the writer. Its first words: length, n, mask, threshold, base x, y, z, size, the centre's samples, the neighbours' samples,
// bytes lent, the answer's four numbers. Then come the samples and the bytes written: a byte of these that is not there counts as 0.
use crate::vectors::{number, numbers, word, words};
use model::{Block, Header, Lent, Numbers, Refusal, Vector};
use record::writer::write_record;
use words::floats::float_of;

// The samples lent at most, of the centre and of the neighbours each, and the bytes.
const ROOM: usize = 8192;

const BYTES: usize = 32768;

const UNTOUCHED: u8 = 165;

// The bytes of the first words.
const HEAD: usize = 60;

fn header_of(head: &[u8]) -> Header {
    let base = Vector {
        x: float_of(word(head, 4)),
        y: float_of(word(head, 5)),
        z: float_of(word(head, 6)),
    };
    let block = Block {
        base,
        size: float_of(word(head, 7)),
        subdivisions: number(head, 1),
    };
    Header {
        block,
        mask: (word(head, 2) % 256) as u8,
        threshold: float_of(word(head, 3)),
    }
}

// The samples, as many as there is room for.
fn fill(samples: &mut [f32], told: &[u8]) {
    for (sample, word) in samples.iter_mut().zip(words(told)) {
        *sample = float_of(u32::from_le_bytes(*word));
    }
}

// What is written is told by its length.
fn answer_agrees(head: &[u8], answer: Result<usize, Refusal>) -> bool {
    match answer {
        Ok(written) => word(head, 11) == 0 && written == number(head, 12),
        Err(refusal) => Numbers::from(refusal) == numbers(head, 11),
    }
}

// The first bytes are those that the vector says are written, and all beyond is untouched.
fn bytes_agree(head: &[u8], told: &[u8], bytes: &[u8]) -> bool {
    let length = if word(head, 11) == 0 {
        number(head, 12)
    } else {
        0
    };
    let Some((written, beyond)) = bytes.split_at_checked(length) else {
        return false;
    };
    written
        .iter()
        .enumerate()
        .all(|(k, byte)| *byte == told.get(k).map_or(0, |told| *told))
        && beyond.iter().all(|byte| *byte == UNTOUCHED)
}

// Of a block with so many samples of its own, then its neighbours', and the bytes written.
fn write_agrees(head: &[u8], samples: &[f32], told: &[u8]) -> bool {
    let Some((centre, neighbours)) = samples.split_at_checked(number(head, 8)) else {
        return false;
    };
    let lent = Lent {
        header: header_of(head),
        centre,
        neighbours,
    };
    let mut bytes = [UNTOUCHED; BYTES];
    let Some(room) = bytes.get_mut(..number(head, 10)) else {
        return false;
    };
    let answer = write_record(&lent, room);
    answer_agrees(head, answer) && bytes_agree(head, told, &bytes)
}

// None where the vector is too short for what it tells, or tells too many samples.
fn trial(vector: &[u8]) -> Option<bool> {
    let (head, rest) = vector.split_at_checked(HEAD)?;
    if ROOM < number(head, 8) || ROOM < number(head, 9) {
        return None;
    }
    let count = number(head, 8) + number(head, 9);
    let (told, rest) = rest.split_at_checked(4 * count)?;
    let mut samples = [0f32; 2 * ROOM];
    fill(&mut samples, told);
    Some(write_agrees(head, samples.get(..count)?, rest))
}

pub fn agrees(vector: &[u8]) -> bool {
    trial(vector).unwrap_or(false)
}
