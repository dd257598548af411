// Refusals 1 to 3: subdivisions, mask, and the first bad one of base, size and threshold, at the limit and beyond it.
ghost use Rattle.std.specs.Prelude.{◌<◌};

use crate::cases::{PASSES, compare, refused};
use crate::given::{header, judged_alone};
use filling::tally::Tally;
use model::{Block, Header, Refusal, Vector};
use std::io;

const LIMIT: f32 = 1048576.0;

const BEYOND: f32 = 1048576.125;

const LEAST_SIZE: f32 = 0.0009765625;

const BELOW_LEAST: f32 = 0.00097656244;

// Base, size and threshold, in the order in which they are judged.
const FITTING: [f32; 5] = [0.0, 0.0, 0.0, 1.0, 0.5];

const SIZE: usize = 3;

fn kinds(rt: &impl Print, tally: &mut Tally) -> io::Result<()> {
    let cases = [
        (judged_alone(header(0, 0, 0.5)), refused(1, 0, 0, 0)),
        (judged_alone(header(65, 0, 0.5)), refused(1, 65, 0, 0)),
        (judged_alone(header(65, 64, 0.5)), refused(1, 65, 0, 0)),
        (judged_alone(header(17, 0, 0.5)), refused(4, 7776, 0, 0)),
        (judged_alone(header(64, 0, 0.5)), refused(4, 299975, 0, 0)),
        (judged_alone(header(2, 64, 0.5)), refused(2, 64, 0, 0)),
        (
            judged_alone(header(2, 255, f32::NAN)),
            refused(2, 255, 0, 0),
        ),
        (judged_alone(header(2, 0, 0.5)), PASSES),
    ];
    compare(rt, tally, &cases)
}

fn with_measures(measures: [f32; 5]) -> Result<(), Refusal> {
    let [x, y, z, size, threshold] = measures;
    let block = Block {
        base: Vector { x, y, z },
        size,
        subdivisions: 2,
    };
    judged_alone(Header {
        block,
        mask: 0,
        threshold,
    })
}

// This one, with the others as they should be.
fn with_measure(which: usize, x: f32) -> Result<(), Refusal>
    requires { which < 5 }
{
    let mut measures = FITTING;
    measures[which] = x;
    with_measures(measures)
}

// A NaN, the infinities, and the first number beyond the limit.
fn bad_measures(rt: &impl Print, tally: &mut Tally) -> io::Result<()> {
    for which in 0..5 {
        let wanted = refused(3, which, 0, 0);
        let cases = [
            (with_measure(which, f32::NAN), wanted),
            (with_measure(which, f32::INFINITY), wanted),
            (with_measure(which, f32::NEG_INFINITY), wanted),
            (with_measure(which, BEYOND), wanted),
            (with_measure(which, -BEYOND), wanted),
        ];
        compare(rt, tally, &cases)?;
    }
    Ok(())
}

// The limit itself; for all but the size, below 0 too.
fn signed_measures(rt: &impl Print, tally: &mut Tally) -> io::Result<()> {
    for which in 0..5 {
        if which != SIZE {
            let cases = [
                (with_measure(which, LIMIT), PASSES),
                (with_measure(which, -LIMIT), PASSES),
                (with_measure(which, -0.0), PASSES),
            ];
            compare(rt, tally, &cases)?;
        }
    }
    Ok(())
}

fn sizes(rt: &impl Print, tally: &mut Tally) -> io::Result<()> {
    let cases = [
        (with_measure(SIZE, LIMIT), PASSES),
        (with_measure(SIZE, LEAST_SIZE), PASSES),
        (with_measure(SIZE, BELOW_LEAST), refused(3, 3, 0, 0)),
        (with_measure(SIZE, 0.0), refused(3, 3, 0, 0)),
        (with_measure(SIZE, -1.0), refused(3, 3, 0, 0)),
    ];
    compare(rt, tally, &cases)
}

// Of several the first is told.
fn first_measure(rt: &impl Print, tally: &mut Tally) -> io::Result<()> {
    let nan = f32::NAN;
    let cases = [
        (
            with_measures([0.0, nan, nan, 0.0, nan]),
            refused(3, 1, 0, 0),
        ),
        (
            with_measures([0.0, 0.0, 0.0, 0.0, nan]),
            refused(3, 3, 0, 0),
        ),
    ];
    compare(rt, tally, &cases)
}

pub fn run(rt: &impl Print, tally: &mut Tally) -> io::Result<()> {
    kinds(rt, tally)?;
    bad_measures(rt, tally)?;
    signed_measures(rt, tally)?;
    sizes(rt, tally)?;
    first_measure(rt, tally)
}
