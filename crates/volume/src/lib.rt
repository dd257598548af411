// Cutting blocks from a raw volume (document 02, [8]): the samples of a block, extension faces included, taken from one flat volume of f32.
// specs/Definition says what is taken and what is refused.
#![tactic(auto)]

ghost use Rattle.std.specs.Prelude.{◌≡◌};
ghost use Rattle.volume.specs.Definition.{cut_block};

mod filling;
mod judging;
mod places;

use grid::voxel_blocks::sample_length;
use model::{Refusal, Xyz};
use places::Cutout;

// The block of n subdivisions whose (0, 0, 0) is the volume's point `first`, in the first places of a lent list.
pub fn cut_block(
    bytes: &[u8],
    sizes: Xyz,
    n: usize,
    first: Xyz,
    samples: &mut [f32],
) -> Result<usize, Refusal>
    ensures { record { answer = result; samples = samples.new } ≡ cut_block bytes.now sizes n first samples.old }
{
    let cutout = Cutout { sizes, n, first };
    cutout.judge(bytes, samples.len())?;
    cutout.fill(bytes, samples);
    Ok(sample_length(n))
}
