// Document 01, 'Regular cells' and 'Transition cells': where a grid point lies, and where shrinking moves it.
ghost use Rattle.std.specs.Prelude.{◌≡◌, ◌+◌, ◌*◌, ◌<◌, ◌≤◌, ◌&&◌, not, eqb, get_or};
ghost use Rattle.std.specs.Float.{nan};
ghost use Rattle.model.specs.Limits.{most_subdivisions, most_fine, side_count};
ghost use Rattle.model.specs.Sides.{named};
ghost use Rattle.model.specs.Formulas as Formulas;
ghost use Rattle.grid.specs.Places.{Within};
ghost use Rattle.points.specs.Fractions.{Fractions};
ghost use Rattle.points.specs.Positions.{coordinate_at, fine_coordinate_at, original_position};

use crate::fractions::FRACTIONS;
use grid::transition_sides::is_named;
use model::{Block, Header, Vector, Xyz};

fn regular_coordinate(base: f32, size: f32, fractions: &[f32; FRACTIONS], index: usize) -> f32
    requires { index ≤ most_subdivisions }
    ensures { result ≡ coordinate_at base size (get_or fractions.now index nan) }
{
    base + size * fractions[index]
}

pub(crate) fn original_position(block: Block, fractions: &[f32; FRACTIONS], p: Xyz) -> Vector
    requires { Fractions block.subdivisions fractions.now × Within block.subdivisions p }
    ensures { result ≡ original_position block p }
{
    Vector {
        x: regular_coordinate(block.base.x, block.size, fractions, p.x),
        y: regular_coordinate(block.base.y, block.size, fractions, p.y),
        z: regular_coordinate(block.base.z, block.size, fractions, p.z),
    }
}

fn shrink_amount(block: Block, fractions: &[f32; FRACTIONS]) -> f32
    requires { Fractions block.subdivisions fractions.now }
    ensures { result ≡ Formulas.shrink_amount block.size block.subdivisions }
{
    0.15 * (block.size * fractions[1])
}

// Whether the coordinate touches this block face, and the side there is not named.
fn touches(mask: u8, side: usize, index: usize, face: usize) -> bool
    requires { side < side_count }
    ensures { result ≡ (eqb index face && not (named mask side)) }
{
    index == face && !is_named(mask, side)
}

// low is the axis's Low side, and low + 1 its High side.
fn held_by(n: usize, mask: u8, low: usize, index: usize) -> bool
    requires { low + 1 < side_count }
    ensures { result ≡ Formulas.held_by n mask low index }
{
    touches(mask, low, index, 0) || touches(mask, low + 1, index, n)
}

fn held(n: usize, mask: u8, p: Xyz) -> bool
    ensures { result ≡ Formulas.held n mask p }
{
    held_by(n, mask, 0, p.x) || held_by(n, mask, 2, p.y) || held_by(n, mask, 4, p.z)
}

fn moved(n: usize, amount: f32, index: usize, at: f32) -> f32
    ensures { result ≡ Formulas.moved n amount index at }
{
    if index == 0 {
        return at + amount;
    }
    if index == n {
        return at - amount;
    }
    at
}

pub fn regular_position(header: Header, fractions: &[f32; FRACTIONS], p: Xyz) -> Vector
    requires { Fractions header.block.subdivisions fractions.now × Within header.block.subdivisions p }
    ensures { result ≡ Formulas.regular_position header.block header.mask p }
{
    let at = original_position(header.block, fractions, p);
    // With no named side, a point that touches a face is held, and shrinking moves no other one.
    if header.mask == 0 {
        return at;
    }
    let n = header.block.subdivisions;
    if held(n, header.mask, p) {
        return at;
    }
    let amount = shrink_amount(header.block, fractions);
    Vector {
        x: moved(n, amount, p.x, at.x),
        y: moved(n, amount, p.y, at.y),
        z: moved(n, amount, p.z, at.z),
    }
}

fn fine_coordinate(base: f32, size: f32, nth: f32, k: usize) -> f32
    requires { k ≤ most_fine }
    ensures { result ≡ fine_coordinate_at base size nth k }
{
    base + size * ((0.5 * k as u16 as f32) * nth)
}

// k counts half steps of the block's grid.
pub fn fine_position(block: Block, fractions: &[f32; FRACTIONS], k: Xyz) -> Vector
    requires { Fractions block.subdivisions fractions.now × Within (2 * block.subdivisions) k }
    ensures { result ≡ Formulas.fine_position block k }
{
    let nth = fractions[1];
    Vector {
        x: fine_coordinate(block.base.x, block.size, nth, k.x),
        y: fine_coordinate(block.base.y, block.size, nth, k.y),
        z: fine_coordinate(block.base.z, block.size, nth, k.z),
    }
}
