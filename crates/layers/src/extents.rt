// The least and the greatest sample of a layer, whose samples stand one after another; and the places of a summary.
ghost use Rattle.std.specs.Prelude.{◌≡◌, ◌+◌, ◌≤◌, ◌<◌, length};
ghost use Rattle.model.specs.Limits.{most_subdivisions};
ghost use Rattle.model.specs.Layers.{layer_count, better, less, more, extent_of, layer_extent, summary_length};
ghost use Rattle.layers.specs.Held.{Held, samples_from};

use grid::readings::value_in_block;
use grid::voxel_blocks::in_block;
use model::Extent;

// Of +0 and -0 the first is kept, which f32::min and f32::max do not promise. One generic function, lent the test, would be no shorter than the two.
fn lesser(best: f32, next: f32) -> f32
    ensures { result ≡ better less best next }
{
    if next < best { next } else { best }
}

fn greater(best: f32, next: f32) -> f32
    ensures { result ≡ better more best next }
{
    if best < next { next } else { best }
}

// Of so many samples from a place on, each read by its place: grid::readings alone reads samples ([4]).
fn extent_from(samples: &[f32], from: usize, count: usize) -> Extent
    requires { (from < length samples.now) × (from + count ≤ length samples.now) }
    ensures { result ≡ extent_of (samples_from samples.now from) count }
{
    let first = value_in_block(samples, from);
    let mut least = first;
    let mut greatest = first;
    for k in 0..count {
        let next = value_in_block(samples, from + k);
        least = lesser(least, next);
        greatest = greater(greatest, next);
    }
    Extent { least, greatest }
}

// The samples of a layer's two planes.
pub fn layer_count(n: usize) -> usize
    requires { n ≤ most_subdivisions }
    ensures { result ≡ layer_count n }
{
    let m = n + 1;
    2 * (m * m)
}

pub fn layer_extent(n: usize, samples: &[f32], x: usize) -> Extent
    requires { Held n samples.now × (x < n) }
    ensures { result ≡ layer_extent n samples.now x }
{
    extent_from(samples, in_block(n, x, 0, 0), layer_count(n))
}

pub fn summary_length(n: usize) -> usize
    requires { n ≤ most_subdivisions }
    ensures { result ≡ summary_length n }
{
    2 * n
}
