// Refusals 14 and 26 of a summary that extraction is lent, and which layers it passes over. A layer's numbers are not worked out again: of all its samples,
// many at a time, it is asked whether none is less than the one that the summary tells, none more than the other, and each equals one.
ghost use Rattle.std.specs.Prelude.{◌≡◌, ◌+◌, ◌≤◌, ◌<◌, length, get_or, true};
ghost use Rattle.std.specs.Float.{nan};
ghost use Rattle.model.specs.Limits.{most_subdivisions};
ghost use Rattle.model.specs.Layers.{extent_of, entry_of, marked, agree, layer_stands, judge_layers, passed_over};
ghost use Rattle.layers.specs.Held.{Held, AllNumbers, samples_from};
ghost use Rattle.layers.specs.Over.{summary_judged, NextLayer};

use crate::extents::{layer_count, summary_length};
use grid::readings::value_in_block;
use grid::voxel_blocks::{in_block, inside};
use judge::judge_buffer;
use model::{Extent, Refusal};

// Beyond its last place a summary tells nothing.
fn told_at(summary: &[f32], at: usize) -> f32
    ensures { result ≡ get_or summary.now at nan }
{
    match summary.get(at) {
        Some(told) => *told,
        None => f32::NAN,
    }
}

// What a summary tells of a layer.
fn entry(summary: &[f32], x: usize) -> Extent
    requires { x < most_subdivisions }
    ensures { result ≡ entry_of summary.now x }
{
    let at = 2 * x;
    Extent {
        least: told_at(summary, at),
        greatest: told_at(summary, at + 1),
    }
}

fn is_marked(told: Extent) -> bool
    ensures { result ≡ marked told }
{
    told.least.is_nan() | told.greatest.is_nan()
}

// Whether these are in value the least and the greatest of so many samples from a place on, each read by its place: grid::readings alone
// reads samples ([4]). No branch, so that many samples are asked at a time.
fn is_extent(samples: &[f32], from: usize, count: usize, told: Extent) -> bool
    requires { AllNumbers samples.now × ((0 < count) × (from + count ≤ length samples.now)) }
    ensures { result ≡ agree told (extent_of (samples_from samples.now from) count) }
{
    let mut none_less = true;
    let mut none_more = true;
    let mut least_apart = true;
    let mut greatest_apart = true;
    for k in 0..count {
        let s = value_in_block(samples, from + k);
        none_less = none_less & (told.least <= s);
        none_more = none_more & (s <= told.greatest);
        least_apart = least_apart & (told.least != s);
        greatest_apart = greatest_apart & (told.greatest != s);
    }
    (none_less & !least_apart) & (none_more & !greatest_apart)
}

// It is marked, or equal in value to one made afresh.
fn layer_stands(n: usize, samples: &[f32], summary: &[f32], x: usize) -> bool
    requires { Held n samples.now × (AllNumbers samples.now × (x < n)) }
    ensures { result ≡ layer_stands n samples.now summary.now x }
{
    let told = entry(summary, x);
    if is_marked(told) {
        return true;
    }
    is_extent(samples, in_block(n, x, 0, 0), layer_count(n), told)
}

// 26 alone, of a summary of any length.
pub fn judge_layers(n: usize, samples: &[f32], summary: &[f32]) -> Result<(), Refusal>
    requires { Held n samples.now × AllNumbers samples.now }
    ensures { result ≡ judge_layers n samples.now summary.now }
{
    for x in 0..n {
        if !layer_stands(n, samples, summary, x) {
            return Err(Refusal::LayerDiffers(x));
        }
    }
    Ok(())
}

// 14, 26.
pub fn judge_summary(n: usize, samples: &[f32], summary: &[f32]) -> Result<(), Refusal>
    requires { Held n samples.now × AllNumbers samples.now }
    ensures { result ≡ summary_judged true n samples.now summary.now }
{
    judge_buffer(summary_length(n), summary.len())?;
    judge_layers(n, samples, summary)
}

// An unmarked layer that lies wholly on one side of the threshold.
fn is_passed_over(threshold: f32, summary: &[f32], x: usize) -> bool
    requires { x < most_subdivisions }
    ensures { result ≡ passed_over threshold summary.now x }
{
    let told = entry(summary, x);
    if is_marked(told) {
        return false;
    }
    inside(threshold, told.least) | (told.greatest < threshold)
}

// The first layer from one on that is not passed over, or n, which NextLayer says for none; LayersLeft makes an Option of it.
pub fn next_layer(n: usize, threshold: f32, summary: &[f32], from: usize) -> usize
    requires { (from ≤ n) × (n ≤ most_subdivisions) }
    ensures { NextLayer n threshold summary.now from result }
{
    (from..n)
        .find(|x| !is_passed_over(threshold, summary, *x))
        .unwrap_or(n)
}
