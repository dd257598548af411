// Refusal 7 at n = 2 with one neighbour: places 0 to 80 are the centre's, and its neighbour's 275 are counted on from 81.
use crate::cases::{PASSES, compare, refused};
use crate::given::{header, judged, put};
use filling::tally::Tally;
use model::Refusal;
use std::io;

// The samples are 0 but for one of each list, or for one alone where the other place is past its list.
fn spoiled(in_centre: usize, in_neighbour: usize, x: f32) -> Result<(), Refusal> {
    let mut centre = [0f32; 81];
    let mut neighbour = [0f32; 275];
    put(&mut centre, in_centre, x);
    put(&mut neighbour, in_neighbour, x);
    judged(header(2, 1, 0.5), &centre, &neighbour)
}

fn in_centre(rt: &impl Print, tally: &mut Tally) -> io::Result<()> {
    let cases = [
        (spoiled(0, 275, f32::NAN), refused(7, 0, 0, 0)),
        (spoiled(80, 275, f32::INFINITY), refused(7, 80, 0, 0)),
        (spoiled(13, 275, f32::NEG_INFINITY), refused(7, 13, 0, 0)),
        (spoiled(13, 275, 1048576.125), refused(7, 13, 0, 0)),
        (spoiled(13, 275, -1048576.125), refused(7, 13, 0, 0)),
        (spoiled(13, 275, 1048576.0), PASSES),
    ];
    compare(rt, tally, &cases)
}

fn in_neighbour(rt: &impl Print, tally: &mut Tally) -> io::Result<()> {
    let cases = [
        (spoiled(81, 0, f32::NAN), refused(7, 81, 0, 0)),
        (spoiled(81, 3, 1048576.125), refused(7, 84, 0, 0)),
        (spoiled(81, 274, -1048576.125), refused(7, 355, 0, 0)),
        (spoiled(80, 0, f32::INFINITY), refused(7, 80, 0, 0)),
        (spoiled(81, 3, 1048576.0), PASSES),
        (spoiled(81, 3, -1048576.0), PASSES),
    ];
    compare(rt, tally, &cases)
}

pub fn run(rt: &impl Print, tally: &mut Tally) -> io::Result<()> {
    in_centre(rt, tally)?;
    in_neighbour(rt, tally)
}
