// The sides of a block, as bits of a mask, and the part of the neighbour list that belongs to a side (document 01, 'The block and its
// samples'): LowX 0, HighX 1, LowY 2, HighY 3, LowZ 4, HighZ 5.
ghost use Rattle.std.specs.Prelude.{◌≡◌, ◌≤◌, ◌<◌, length};
ghost use Rattle.std.specs.Int.Count.{ones, count_trailing_zeros};
ghost use Rattle.model.specs.Limits.{most_subdivisions, side_count, most_mask};
ghost use Rattle.model.specs.Sides.{named, named_below, neighbour_length, sample_count, neighbour_of};
ghost use Rattle.grid.specs.SideLaws.{NextSide, NeighbourThere};
ghost use Rattle.grid.specs.Counts.{most_samples};

use crate::voxel_blocks::sample_length;

pub const SIDES: usize = 6;

pub fn is_named(mask: u8, side: usize) -> bool
    requires { side < side_count }
    ensures { result ≡ named mask side }
{
    (mask >> side) % 2 == 1
}

pub fn count(mask: u8) -> usize
    ensures { result ≡ ones mask }
{
    u8::count_ones(mask) as usize
}

// The place of the lowest bit that is set, or 8, as Rust's own trailing_zeros has it: next_side adds it up with no test.
fn lowest_bit(bits: u8) -> usize
    ensures { (result ≡ count_trailing_zeros 8 bits) × (result ≤ 8) }
{
    u8::trailing_zeros(bits) as usize
}

// The first named side at or after from, or 6: bit 6, which is no side's, ends the search with no test. NextSide, of which theorems of judge
// speak, says 6 for none; NamedSides makes an Option of it.
pub fn next_side(mask: u8, from: usize) -> usize
    requires { (mask ≤ most_mask) × (from ≤ side_count) }
    ensures { NextSide mask from result }
{
    from + lowest_bit((mask + 64) >> from)
}

// How many sides below this one the mask names.
pub fn count_below(mask: u8, side: usize) -> usize
    requires { side < side_count }
    ensures { result ≡ named_below mask side }
{
    count(mask % (1u8 << side))
}

// The samples of a block and of its neighbours.
pub fn sample_count(n: usize, mask: u8) -> usize
    requires { (n ≤ most_subdivisions) × (mask ≤ most_mask) }
    ensures { (result ≡ sample_count n mask) × (result ≤ most_samples) }
{
    sample_length(n) + count(mask) * sample_length(2 * n)
}

// The samples of the neighbour at a named side.
pub fn neighbour(n: usize, mask: u8, neighbours: &[f32], side: usize) -> &[f32]
    requires { NeighbourThere n mask neighbours.now side }
    ensures { (result.now ≡ neighbour_of n mask neighbours.now side) × (length result.now ≡ neighbour_length n) }
{
    let length = sample_length(2 * n);
    let start = count_below(mask, side) * length;
    let end = start + length;
    &neighbours[start..end]
}
