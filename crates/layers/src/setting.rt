// Setting: one sample, with the layers that hold its point made afresh. Coordinates that may be outside 0..n are kept one up.
ghost use Rattle.std.specs.Prelude.{◌≡◌, true, ◌-◌, ◌≤◌, length, set};
ghost use Rattle.model.specs.Limits.{most_subdivisions};
ghost use Rattle.model.specs.Samples.{sampled, kind_of};
ghost use Rattle.model.specs.Layers.{summary_length};
ghost use Rattle.layers.specs.Held.{Held};
ghost use Rattle.layers.specs.Definition.{point_up, place_up, judge_change, first_holding, end_holding, renewed, set_sample};

use crate::extents::summary_length;
use crate::putting::{judge_own, put_layers};
use grid::voxel_blocks::{is_sampled, kind, one_up, outside_count, place};
use judge::{is_usable, judge_buffer};
use model::{PlaceKind, Refusal, Xyz};

fn point_up(n: usize, x: i32, y: i32, z: i32) -> Xyz
    requires { n ≤ most_subdivisions }
    ensures { result ≡ point_up n x y z }
{
    Xyz {
        x: one_up(n, x),
        y: one_up(n, y),
        z: one_up(n, z),
    }
}

// 15, 7 of the new value, 14.
fn judge_change(n: usize, p: Xyz, value: f32, room: usize) -> Result<(), Refusal>
    requires { n ≤ most_subdivisions }
    ensures { result ≡ judge_change n p value room }
{
    if !is_sampled(n, p.x, p.y, p.z) {
        return Err(Refusal::PointNeverSampled(outside_count(n, p.x, p.y, p.z)));
    }
    if !is_usable(value) {
        return Err(Refusal::BadSample(place(n, p.x, p.y, p.z)));
    }
    judge_buffer(summary_length(n), room)
}

fn first_holding(x: usize) -> usize
    ensures { result ≡ first_holding x }
{
    x.saturating_sub(1)
}

fn end_holding(n: usize, x: usize) -> usize
    ensures { result ≡ end_holding n x }
{
    // As plain as `min`, which would need a sum that saturates.
    if x < n { x + 1 } else { n }
}

fn put_sample(n: usize, samples: &mut [f32], p: Xyz, value: f32)
    requires { Held n samples.old × (sampled n p.x p.y p.z ≡ true) }
    ensures { samples.new ≡ set samples.old (place_up n p) value }
{
    samples[place(n, p.x, p.y, p.z)] = value;
}

// The layers that hold the point: none where it is on an extension face.
fn renew(n: usize, samples: &[f32], p: Xyz, summary: &mut [f32])
    requires { Held n samples.now × ((sampled n p.x p.y p.z ≡ true) × (summary_length n ≤ length summary.old)) }
    ensures { summary.new ≡ renewed (kind_of n p.x p.y p.z) n samples.now (p.x - 1) summary.old }
{
    let stored = kind(n, p.x, p.y, p.z);
    if let PlaceKind::Face(_) = stored {
        return;
    }
    let x = p.x - 1;
    put_layers(n, samples, first_holding(x), end_holding(n, x), summary);
}

pub fn set_sample(
    n: usize,
    samples: &mut [f32],
    x: i32,
    y: i32,
    z: i32,
    value: f32,
    summary: &mut [f32],
) -> Result<(), Refusal>
    ensures { record { answer = result; samples = samples.new; summary = summary.new } ≡ set_sample n samples.old x y z value summary.old }
{
    judge_own(n, samples)?;
    let p = point_up(n, x, y, z);
    judge_change(n, p, value, summary.len())?;
    put_sample(n, samples, p, value);
    renew(n, samples, p, summary);
    Ok(())
}
