// Refusals 4 to 6 at n = 2, where a centre has 81 samples and a neighbour 275, and 9, 10 and 14: the places wanted.
ghost use Rattle.std.specs.Prelude.{◌≤◌};

use crate::cases::{PASSES, compare, refused};
use crate::given::{header, judged};
use filling::tally::Tally;
use judge::{judge_buffer, judge_room, judge_store};
use model::{Counts, Refusal};
use std::io;

// The sides 0, 2 and 5 are named.
fn lent(centre: usize, neighbours: usize) -> Result<(), Refusal>
    requires { (centre ≤ 82) × (neighbours ≤ 826) }
{
    let samples = [0f32; 82];
    let finer = [0f32; 826];
    judged(header(2, 37, 0.5), &samples[..centre], &finer[..neighbours])
}

fn centres(rt: &impl Print, tally: &mut Tally) -> io::Result<()> {
    let cases = [
        (lent(81, 825), PASSES),
        (lent(80, 825), refused(4, 81, 0, 0)),
        (lent(82, 825), refused(4, 81, 0, 0)),
        (lent(0, 0), refused(4, 81, 0, 0)),
    ];
    compare(rt, tally, &cases)
}

fn neighbours(rt: &impl Print, tally: &mut Tally) -> io::Result<()> {
    let cases = [
        (lent(81, 0), refused(5, 0, 0, 0)),
        (lent(81, 274), refused(5, 0, 0, 0)),
        (lent(81, 275), refused(5, 2, 0, 0)),
        (lent(81, 549), refused(5, 2, 0, 0)),
        (lent(81, 550), refused(5, 5, 0, 0)),
        (lent(81, 824), refused(5, 5, 0, 0)),
        (lent(81, 826), refused(6, 825, 0, 0)),
    ];
    compare(rt, tally, &cases)
}

// No side is named, and a neighbour is lent; a bad threshold is told before a bad length.
fn unnamed(rt: &impl Print, tally: &mut Tally) -> io::Result<()> {
    let samples = [0f32; 81];
    let finer = [0f32; 275];
    let unnamed = judged(header(2, 0, 0.5), &samples, &finer);
    let bad = judged(header(2, 1, f32::NAN), &finer, &samples);
    let cases = [(unnamed, refused(6, 0, 0, 0)), (bad, refused(3, 4, 0, 0))];
    compare(rt, tally, &cases)
}

// 4n^3 + 60n^2 places of the store; six numbers a vertex and three a triangle; a buffer.
fn places(rt: &impl Print, tally: &mut Tally) -> io::Result<()> {
    let cases = [
        (judge_store(2, 271), refused(9, 272, 0, 0)),
        (judge_store(2, 272), PASSES),
        (judge_store(16, 31743), refused(9, 31744, 0, 0)),
        (judge_store(16, 31744), PASSES),
        (judge_store(64, 1294335), refused(9, 1294336, 0, 0)),
        (judge_store(64, 1294336), PASSES),
    ];
    compare(rt, tally, &cases)
}

fn rooms(rt: &impl Print, tally: &mut Tally) -> io::Result<()> {
    let wanted = Counts {
        vertices: 3,
        triangles: 1,
    };
    let cases = [
        (judge_room(wanted, 17, 3), refused(10, 3, 1, 0)),
        (judge_room(wanted, 18, 2), refused(10, 3, 1, 0)),
        (judge_room(wanted, 18, 3), PASSES),
        (judge_buffer(27, 26), refused(14, 27, 0, 0)),
        (judge_buffer(27, 27), PASSES),
    ];
    compare(rt, tally, &cases)
}

pub fn run(rt: &impl Print, tally: &mut Tally) -> io::Result<()> {
    centres(rt, tally)?;
    neighbours(rt, tally)?;
    unnamed(rt, tally)?;
    places(rt, tally)?;
    rooms(rt, tally)
}
