// The point read around every border of a block, for n = 1, 2 and 16. A point's number has its coordinates, each two up, as digits in
// base 32, x first. Each sample is laid down as its point's number, in the order in which document 01 lists the samples; each point is
// then read by its coordinates, and gives its own number back, from the part that it was laid in, or was never sampled, with as many
// coordinates outside as there are.
ghost use Rattle.std.specs.Prelude.{◌<◌, ◌≤◌};
ghost use Rattle.model.specs.Limits.{most_subdivisions};

use crate::cases::{compare, note, refused};
use filling::tally::Tally;
use judge::point_read::read_point;
use model::{Numbers, PlaceKind, Refusal};
use std::io;

// x runs from -2 to 18, y and z from -2 to 29.
const NUMBERS: usize = 21504;

// In the order in which their samples are listed: x = -1, x = n + 1, y = -1 and so on after the block.
const PARTS: [PlaceKind; 7] = [
    PlaceKind::InBlock,
    PlaceKind::Face(0),
    PlaceKind::Face(1),
    PlaceKind::Face(2),
    PlaceKind::Face(3),
    PlaceKind::Face(4),
    PlaceKind::Face(5),
];

// A coordinate beside 0..n.
#[derive(Clone, Copy, PartialEq)]
enum Reach {
    Inside,
    StepBelow,
    StepAbove,
    Farther,
}

// Of a coordinate that is told two up.
fn reach_of(n: usize, digit: usize) -> Reach
    requires { n ≤ most_subdivisions }
{
    if digit == 1 {
        Reach::StepBelow
    } else if digit == n + 3 {
        Reach::StepAbove
    } else if (2 <= digit) & (digit <= n + 2) {
        Reach::Inside
    } else {
        Reach::Farther
    }
}

// Of x, y and z.
fn reaches(n: usize, number: usize) -> [Reach; 3]
    requires { n ≤ most_subdivisions }
{
    [
        reach_of(n, number / 1024),
        reach_of(n, number / 32 % 32),
        reach_of(n, number % 32),
    ]
}

// Where a point's sample stands, if it has one.
fn part_of(n: usize, number: usize) -> Option<PlaceKind>
    requires { n ≤ most_subdivisions }
{
    match reaches(n, number) {
        [Reach::Inside, Reach::Inside, Reach::Inside] => Some(PlaceKind::InBlock),
        [Reach::StepBelow, Reach::Inside, Reach::Inside] => Some(PlaceKind::Face(0)),
        [Reach::StepAbove, Reach::Inside, Reach::Inside] => Some(PlaceKind::Face(1)),
        [Reach::Inside, Reach::StepBelow, Reach::Inside] => Some(PlaceKind::Face(2)),
        [Reach::Inside, Reach::StepAbove, Reach::Inside] => Some(PlaceKind::Face(3)),
        [Reach::Inside, Reach::Inside, Reach::StepBelow] => Some(PlaceKind::Face(4)),
        [Reach::Inside, Reach::Inside, Reach::StepAbove] => Some(PlaceKind::Face(5)),
        _ => None,
    }
}

// How many coordinates are outside 0..n.
fn outside_count(n: usize, number: usize) -> usize
    requires { n ≤ most_subdivisions }
{
    reaches(n, number)
        .iter()
        .filter(|&reach| *reach != Reach::Inside)
        .count()
}

fn mark(number: usize) -> f32
    requires { number < 21504 }
{
    number as u16 as f32
}

// The samples of one part, from a place on. Answers the place after them.
fn lay(n: usize, part: PlaceKind, samples: &mut [f32], from: usize) -> usize
    requires { n ≤ most_subdivisions }
{
    let mut at = from;
    for number in 0..NUMBERS {
        if part_of(n, number) == Some(part) && at < samples.len() {
            samples[at] = mark(number);
            at += 1;
        }
    }
    at
}

// The block's samples, then its six faces.
fn lay_all(n: usize, samples: &mut [f32])
    requires { n ≤ most_subdivisions }
{
    let mut at = 0;
    for part in PARTS {
        at = lay(n, part, samples, at);
    }
}

fn signed(digit: usize) -> i32
    requires { digit < 32 }
{
    digit as i32 - 2
}

fn reads_back(n: usize, samples: &[f32], number: usize) -> bool
    requires { (n ≤ most_subdivisions) × (number < 21504) }
{
    let x = signed(number / 1024);
    let y = signed(number / 32 % 32);
    let z = signed(number % 32);
    let wanted = match part_of(n, number) {
        Some(part) => Ok((mark(number), part)),
        None => refused(15, outside_count(n, number), 0, 0),
    };
    read_point(n, samples, x, y, z).map_err(Numbers::from) == wanted
}

fn read_all(rt: &impl Print, tally: &mut Tally, n: usize, samples: &[f32]) -> io::Result<()>
    requires { n ≤ most_subdivisions }
{
    for number in 0..NUMBERS {
        note(rt, tally, reads_back(n, samples, number))?;
    }
    Ok(())
}

// 1 and 4 are judged before 15, and coordinates may be as far out as they go.
fn refusals(rt: &impl Print, tally: &mut Tally) -> io::Result<()> {
    let samples = [0f32; 82];
    let short = &samples[..80];
    let two = &samples[..81];
    let cases = [
        (read_point(0, two, -5, 0, 0), refused(1, 0, 0, 0)),
        (read_point(65, two, 0, 0, 0), refused(1, 65, 0, 0)),
        (read_point(64, two, 0, 0, 0), refused(4, 299975, 0, 0)),
        (read_point(2, short, -5, 0, 0), refused(4, 81, 0, 0)),
        (read_point(2, &samples, 0, 0, 0), refused(4, 81, 0, 0)),
        (read_point(2, two, -1, -1, 0), refused(15, 2, 0, 0)),
        (read_point(2, two, i32::MAX, 0, 0), refused(15, 1, 0, 0)),
        (read_point(2, two, 0, 0, i32::MIN), refused(15, 1, 0, 0)),
    ];
    compare(rt, tally, &cases)
}

// Of n subdivisions, whose samples are so many.
fn around<const LENGTH: usize>(rt: &impl Print, tally: &mut Tally, n: usize) -> io::Result<()>
    requires { (n ≤ most_subdivisions) × (LENGTH ≤ 6647) }
{
    let mut samples = [0f32; LENGTH];
    lay_all(n, &mut samples);
    read_all(rt, tally, n, &samples)
}

pub fn run(rt: &impl Print, tally: &mut Tally) -> io::Result<()> {
    refusals(rt, tally)?;
    around::<32>(rt, tally, 1)?;
    around::<81>(rt, tally, 2)?;
    around::<6647>(rt, tally, 16)
}
