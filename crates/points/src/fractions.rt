// Document 01, 'Regular cells': what index/n gives for each index of a block. It is worked out once and lent to all that makes positions,
// so that no position divides.
ghost use Rattle.std.specs.Prelude.{◌≡◌, ◌≤◌, length};
ghost use Rattle.model.specs.Limits.{most_subdivisions};
ghost use Rattle.model.specs.Samples.{sample_length};
ghost use Rattle.points.specs.Fractions.{Fractions};
ghost use Rattle.points.specs.CellPoints.{Centred};

use grid::voxel_blocks::MOST_SUBDIVISIONS;
use model::Lent;

pub const FRACTIONS: usize = MOST_SUBDIVISIONS + 1;

// A block as it is lent, with the fractions of its grid.
#[derive(Drop)]
pub struct Grid<'a> {
    pub lent: Lent<'a>,
    pub fractions: [f32; FRACTIONS],
    pub ghost centred: { Centred lent.header.block.subdivisions fractions lent.centre.now },
}

impl Grid<'_> {
    pub fn new(lent: Lent<'_>) -> Grid<'_>
        requires subdivisions { (1 ≤ lent.header.block.subdivisions) × (lent.header.block.subdivisions ≤ most_subdivisions) }
        requires centre { length lent.centre.now ≡ sample_length lent.header.block.subdivisions }
        ensures { result.lent ≡ lent.entry }
    {
        Grid {
            lent,
            fractions: fractions_of(lent.header.block.subdivisions),
        }
    }
}

pub fn fractions_of(n: usize) -> [f32; FRACTIONS]
    requires { (1 ≤ n) × (n ≤ most_subdivisions) }
    ensures { Fractions n result }
{
    let mut fractions = [0f32; FRACTIONS];
    let whole = n as u16 as f32;
    for (index, fraction) in fractions[..n + 1].iter_mut().enumerate() {
        *fraction = index as u16 as f32 / whole;
    }
    fractions
}
