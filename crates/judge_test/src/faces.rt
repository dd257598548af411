// Refusal 8 at n = 2 with the sides LowX (0) and HighZ (5) named. By document 01's rotations a face point (u, v) is (0, v, 2 - u) on LowX
// and (2 - u, v, 2) on HighZ; the neighbour's coinciding point is (4, 2v, 4 - 2u) and (4 - 2u, 2v, 0). In the centre (x, y, z) is at
// 9x + 3y + z; in a neighbour at 25x + 5y + z, and HighZ's samples follow LowX's 275.
use crate::cases::{PASSES, compare, refused};
use crate::given::{header, judged, put};
use filling::tally::Tally;
use model::Refusal;
use std::io;

// Every sample is outside the threshold but one of each list, or one alone where the other place is past its list.
fn marked(in_centre: usize, in_neighbours: usize) -> Result<(), Refusal> {
    let mut centre = [0f32; 81];
    let mut neighbours = [0f32; 550];
    put(&mut centre, in_centre, 1.0);
    put(&mut neighbours, in_neighbours, 1.0);
    judged(header(2, 33, 0.5), &centre, &neighbours)
}

fn one(rt: &impl Print, tally: &mut Tally) -> io::Result<()> {
    let cases = [
        (marked(81, 550), PASSES),
        (marked(4, 550), refused(8, 0, 1, 1)),
        (marked(2, 550), refused(8, 0, 0, 0)),
        (marked(23, 550), refused(8, 5, 0, 1)),
        (marked(81, 100), refused(8, 0, 2, 0)),
        (marked(81, 345), refused(8, 5, 1, 2)),
    ];
    compare(rt, tally, &cases)
}

// The first of two in the order side, u, v; a pair that agrees; a fine point that coincides with none; a point of no named side.
fn two(rt: &impl Print, tally: &mut Tally) -> io::Result<()> {
    let cases = [
        (marked(4, 100), refused(8, 0, 1, 1)),
        (marked(23, 100), refused(8, 0, 2, 0)),
        (marked(6, 120), PASSES),
        (marked(81, 105), PASSES),
        (marked(9, 550), PASSES),
    ];
    compare(rt, tally, &cases)
}

// One sample of the centre's LowX face beside zeros, at threshold 0.
fn at_zero(x: f32) -> Result<(), Refusal> {
    let mut centre = [0f32; 81];
    centre[4] = x;
    judged(header(2, 1, 0.0), &centre, &[0.0; 275])
}

fn inside(rt: &impl Print, tally: &mut Tally) -> io::Result<()> {
    let cases = [
        (at_zero(-0.0), PASSES),
        (at_zero(1.0), PASSES),
        (at_zero(-1.0), refused(8, 0, 1, 1)),
    ];
    compare(rt, tally, &cases)
}

pub fn run(rt: &impl Print, tally: &mut Tally) -> io::Result<()> {
    one(rt, tally)?;
    two(rt, tally)?;
    inside(rt, tally)
}
