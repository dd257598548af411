// Layers made afresh in their places of a lent summary, and what is judged before that of the block's own samples.
ghost use Rattle.std.specs.Prelude.{◌≡◌, ◌*◌, ◌≤◌, ◌<◌, length};
ghost use Rattle.std.proofs.lemmas.List.Edits.{sets};
ghost use Rattle.model.specs.Layers.{summary_length};
ghost use Rattle.layers.specs.Held.{Held};
ghost use Rattle.layers.specs.Definition.{layer_floats, layers_made, judge_own};

use crate::extents::layer_extent;
use judge::point_read::judge_block;
use judge::samples::judge_list;
use model::Refusal;

// 1, 4, 7.
pub fn judge_own(n: usize, samples: &[f32]) -> Result<(), Refusal>
    ensures { result ≡ judge_own n samples.now }
{
    judge_block(n, samples.len())?;
    judge_list(samples)
}

fn put_layer(n: usize, samples: &[f32], x: usize, summary: &mut [f32])
    requires { Held n samples.now × ((x < n) × (summary_length n ≤ length summary.old)) }
    ensures { summary.new ≡ sets summary.old (2 * x) (layer_floats n samples.now x) }
{
    let extent = layer_extent(n, samples, x);
    let at = 2 * x;
    summary[at] = extent.least;
    summary[at + 1] = extent.greatest;
}

pub fn put_layers(n: usize, samples: &[f32], from: usize, to: usize, summary: &mut [f32])
    requires { Held n samples.now × ((from ≤ to) × ((to ≤ n) × (summary_length n ≤ length summary.old))) }
    ensures { summary.new ≡ layers_made n samples.now from to summary.old }
{
    for x in from..to {
        put_layer(n, samples, x, summary);
    }
}
