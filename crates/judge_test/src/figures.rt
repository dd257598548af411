// Document 01, 'Figures to agree with', those with no star that concern positions: with only LowX named, at n = 2 the point (0, 1, 1) moves
// and (0, 0, 1) does not; at n = 1 nothing moves.
ghost use Rattle.std.specs.Prelude.{◌≤◌};
ghost use Rattle.model.specs.Limits.{most_subdivisions};

use crate::cases::note;
use crate::given::header;
use filling::tally::Tally;
use model::{Vector, Xyz};
use points::block::regular_position;
use points::fractions::fractions_of;
use std::io;

const LOW_X: u8 = 1;

fn position(n: usize, x: usize, y: usize, z: usize) -> Vector
    requires { ((1 ≤ n) × (n ≤ most_subdivisions)) × (x ≤ n) × (y ≤ n) × (z ≤ n) }
{
    let header = header(n, LOW_X, 0.5);
    let fractions = fractions_of(header.block.subdivisions);
    regular_position(header, &fractions, Xyz { x, y, z })
}

// By 0.15 * (1 * (1/2)), toward the inside.
fn at_two(rt: &impl Print, tally: &mut Tally) -> io::Result<()> {
    let moved = Vector {
        x: 0.075,
        y: 0.5,
        z: 0.5,
    };
    let unmoved = Vector {
        x: 0.0,
        y: 0.0,
        z: 0.5,
    };
    note(rt, tally, position(2, 0, 1, 1) == moved)?;
    note(rt, tally, position(2, 0, 0, 1) == unmoved)
}

fn stays(x: usize, y: usize, z: usize) -> bool
    requires { (x ≤ 1) × (y ≤ 1) × (z ≤ 1) }
{
    let grid_point = Vector {
        x: x as u16 as f32,
        y: y as u16 as f32,
        z: z as u16 as f32,
    };
    position(1, x, y, z) == grid_point
}

fn at_one(rt: &impl Print, tally: &mut Tally) -> io::Result<()> {
    for corner in 0..8 {
        note(rt, tally, stays(corner / 4, corner / 2 % 2, corner % 2))?;
    }
    Ok(())
}

pub fn run(rt: &impl Print, tally: &mut Tally) -> io::Result<()> {
    at_two(rt, tally)?;
    at_one(rt, tally)
}
