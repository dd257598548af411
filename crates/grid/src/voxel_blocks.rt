// A block's samples: m^3 in the block and six extension faces of m^2, with m = n + 1 (document 01, 'The block and its samples').
// Where a neighbour block is read, 2n stands for n, so n is at most MOST_FINE here. A coordinate that may be outside 0..n is kept one up.
ghost use Rattle.std.specs.Prelude.{◌≡◌, true, ◌+◌, ◌≤◌, ◌<◌, length};
ghost use Rattle.model.specs.Limits.{most_fine, side_count};
ghost use Rattle.model.specs.Samples.{sample_length, in_block, on_face, place_of, outside, sampled, kind_across, kind_of, is_outside, outside_count, sample_of, reading_at, one_up};
ghost use Rattle.model.specs.Formulas as Formulas;
ghost use Rattle.grid.specs.Places.{Within, Inner, across_of};

use crate::nesting::nest;
use crate::readings::{reading_at, value_in_block};
use model::{PlaceKind, Xyz};

pub const MOST_SUBDIVISIONS: usize = 64;

pub fn inside(threshold: f32, sample: f32) -> bool
    ensures { result ≡ Formulas.inside threshold sample }
{
    sample >= threshold
}

pub fn sample_length(n: usize) -> usize
    requires { n ≤ most_fine }
    ensures { result ≡ sample_length n }
{
    let m = n + 1;
    let square = m * m;
    square * m + 6 * square
}

pub fn in_block(n: usize, x: usize, y: usize, z: usize) -> usize
    requires { (n ≤ most_fine) × ((x ≤ n) × ((y ≤ n) × (z ≤ n))) }
    ensures { (result ≡ in_block n x y z) × (result < sample_length n) }
{
    nest(n + 1, x, y, z)
}

// The point (i, j) of an extension face: its two other coordinates.
pub fn on_face(n: usize, face: usize, i: usize, j: usize) -> usize
    requires { (n ≤ most_fine) × ((face < side_count) × ((i ≤ n) × (j ≤ n))) }
    ensures { (result ≡ on_face n face i j) × (result < sample_length n) }
{
    let m = n + 1;
    nest(m, m + face, i, j)
}

pub fn sample(n: usize, samples: &[f32], p: Xyz) -> f32
    requires { (n ≤ most_fine) × ((length samples.now ≡ sample_length n) × Within n p) }
    ensures { result ≡ sample_of n samples.now p }
{
    value_in_block(samples, in_block(n, p.x, p.y, p.z))
}

// How far a coordinate is outside 0..n: not, by one step, or by more. A number, as the model has it: is_sampled adds three of them.
pub fn outside_by(n: usize, c: usize) -> usize
    requires { n ≤ most_fine }
    ensures { (result ≡ outside n c) × (result ≤ 2) }
{
    if c == 0 {
        return 1;
    }
    if c <= n + 1 {
        return 0;
    }
    if c == n + 2 { 1 } else { 2 }
}

// The place of a point outside across the axis of c: low is the number of the lower of the two faces, i and j are the other coordinates, each
// kept one up.
fn across(n: usize, low: usize, c: usize, i: usize, j: usize) -> usize
    requires { (n ≤ most_fine) × ((low + 1 < side_count) × (Inner n i × Inner n j)) }
    ensures { (result ≡ across_of n low c i j) × (result < sample_length n) }
{
    if c == 0 {
        on_face(n, low, i - 1, j - 1)
    } else {
        on_face(n, low + 1, i - 1, j - 1)
    }
}

// The place of a point at most one step outside, its coordinates kept one up.
pub fn place(n: usize, x: usize, y: usize, z: usize) -> usize
    requires { (n ≤ most_fine) × (sampled n x y z ≡ true) }
    ensures { (result ≡ place_of n x y z) × (result < sample_length n) }
{
    if outside_by(n, x) != 0 {
        return across(n, 0, x, y, z);
    }
    if outside_by(n, y) != 0 {
        return across(n, 2, y, x, z);
    }
    if outside_by(n, z) != 0 {
        return across(n, 4, z, x, y);
    }
    in_block(n, x - 1, y - 1, z - 1)
}

// Across the axis of c: one of its two faces where the point is outside by one step, and what the other axes say where it is not outside.
fn kind_across(n: usize, low: usize, high: usize, c: usize, others: PlaceKind) -> PlaceKind
    requires { n ≤ most_fine }
    ensures { result ≡ kind_across n low high c others }
{
    if c == 0 {
        return PlaceKind::Face(low);
    }
    if c == n + 2 {
        return PlaceKind::Face(high);
    }
    others
}

// Where the sample of a point at most one step outside is stored, its coordinates kept one up.
pub fn kind(n: usize, x: usize, y: usize, z: usize) -> PlaceKind
    requires { n ≤ most_fine }
    ensures { result ≡ kind_of n x y z }
{
    let across_z = kind_across(n, 4, 5, z, PlaceKind::InBlock);
    let across_y = kind_across(n, 2, 3, y, across_z);
    kind_across(n, 0, 1, x, across_y)
}

// One for a coordinate outside 0..n, however far.
fn is_outside(n: usize, c: usize) -> usize
    requires { n ≤ most_fine }
    ensures { (result ≡ is_outside n c) × (result ≤ 1) }
{
    usize::from(outside_by(n, c) != 0)
}

// How many coordinates are outside 0..n.
pub fn outside_count(n: usize, x: usize, y: usize, z: usize) -> usize
    requires { n ≤ most_fine }
    ensures { result ≡ outside_count n x y z }
{
    is_outside(n, x) + is_outside(n, y) + is_outside(n, z)
}

// At most one coordinate is outside, by one step.
pub fn is_sampled(n: usize, x: usize, y: usize, z: usize) -> bool
    requires { n ≤ most_fine }
    ensures { result ≡ sampled n x y z }
{
    outside_by(n, x) + outside_by(n, y) + outside_by(n, z) <= 1
}

// The value of a point and where it is stored, or how many coordinates of one that was never sampled are outside.
pub fn reading(
    n: usize,
    samples: &[f32],
    x: usize,
    y: usize,
    z: usize,
) -> Result<(f32, PlaceKind), usize>
    requires { (n ≤ most_fine) × (length samples.now ≡ sample_length n) }
    ensures { result ≡ reading_at n samples.now x y z }
{
    if is_sampled(n, x, y, z) {
        return reading_at(samples, place(n, x, y, z), kind(n, x, y, z));
    }
    Err(outside_count(n, x, y, z))
}

// A signed coordinate, kept one up: the one function that reads a signed number.
pub fn one_up(n: usize, c: i32) -> usize
    requires { n ≤ most_fine }
    ensures { result ≡ one_up n c }
{
    if c < -1 {
        return n + 3;
    }
    if c < 0 {
        return 0;
    }
    c as u32 as usize + 1
}
