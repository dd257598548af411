// Refusals 4 to 6: the lengths of the lists that are lent, of a block whose subdivisions and mask have passed.
ghost use Rattle.std.specs.Prelude.{◌≡◌, ◌≤◌};
ghost use Rattle.model.specs.Limits.{most_subdivisions, most_mask};
ghost use Rattle.model.specs.Judging.{judge_centre, judge_missing, judge_too_long};
ghost use Rattle.judge.specs.Parts.{judge_lengths};

use crate::unless;
use grid::named_sides::named_sides;
use grid::transition_sides::{count, count_below};
use grid::voxel_blocks::sample_length;
use model::Refusal;

pub fn judge_centre(n: usize, held: usize) -> Result<(), Refusal>
    requires { n ≤ most_subdivisions }
    ensures { result ≡ judge_centre n held }
{
    let wanted = sample_length(n);
    unless(held == wanted, Refusal::CentreLength(wanted))
}

// The parts of the named sides lie one after another: the first that ends beyond what is held is not wholly there.
fn judge_missing(n: usize, mask: u8, held: usize) -> Result<(), Refusal>
    requires { (n ≤ most_subdivisions) × (mask ≤ most_mask) }
    ensures { result ≡ judge_missing n mask held }
{
    let length = sample_length(2 * n);
    for side in named_sides(mask) {
        let end = (count_below(mask, side) + 1) * length;
        if held < end {
            return Err(Refusal::MissingNeighbour(side));
        }
    }
    Ok(())
}

fn judge_too_long(n: usize, mask: u8, held: usize) -> Result<(), Refusal>
    requires { (n ≤ most_subdivisions) × (mask ≤ most_mask) }
    ensures { result ≡ judge_too_long n mask held }
{
    let wanted = count(mask) * sample_length(2 * n);
    unless(held <= wanted, Refusal::NeighboursTooLong(wanted))
}

pub fn judge_lengths(n: usize, mask: u8, centre: usize, neighbours: usize) -> Result<(), Refusal>
    requires { (n ≤ most_subdivisions) × (mask ≤ most_mask) }
    ensures { result ≡ judge_lengths n mask centre neighbours }
{
    judge_centre(n, centre)?;
    judge_missing(n, mask, neighbours)?;
    judge_too_long(n, mask, neighbours)
}
