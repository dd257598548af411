// Making: the summary of a block's samples as the first places of a lent list.
ghost use Rattle.std.specs.Prelude.{◌≡◌};
ghost use Rattle.layers.specs.Definition.{judge_making, make_summary};

use crate::extents::summary_length;
use crate::putting::{judge_own, put_layers};
use judge::judge_buffer;
use model::Refusal;

// 1, 4, 7, 14.
fn judge_making(n: usize, samples: &[f32], room: usize) -> Result<(), Refusal>
    ensures { result ≡ judge_making n samples.now room }
{
    judge_own(n, samples)?;
    judge_buffer(summary_length(n), room)
}

pub fn make_summary(n: usize, samples: &[f32], summary: &mut [f32]) -> Result<(), Refusal>
    ensures { record { answer = result; summary = summary.new } ≡ make_summary n samples.now summary.old }
{
    judge_making(n, samples, summary.len())?;
    put_layers(n, samples, 0, n, summary);
    Ok(())
}
