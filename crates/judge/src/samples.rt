// Refusal 7: the first sample that is not finite or beyond the limit, neighbours counted on after the centre.
ghost use Rattle.std.specs.Prelude.{◌≡◌, ◌++◌, ◌+◌, ◌≤◌, ◌<◌, ◌^◌, length};
ghost use Rattle.model.specs.Judging.{judge_samples};
ghost use Rattle.judge.specs.Counted.{all_usable, judge_from};

use crate::is_usable;
use model::Refusal;

// Whether the samples of two halves can be used. It looks at them all, which the compiler does many at a time, and at both halves side by side,
// since two streams come faster from memory than one.
fn halves_usable(samples: &[f32], half: usize) -> bool
    requires { half + half ≤ length samples.now }
    ensures { result ≡ all_usable samples.now (half + half) }
{
    let mut usable = true;
    for place in 0..half {
        usable = usable & (is_usable(samples[place]) & is_usable(samples[half + place]));
    }
    usable
}

// Whether every sample can be used: those of two halves, and one more where their number is odd.
fn all_usable(samples: &[f32]) -> bool
    ensures { result ≡ all_usable samples.now (length samples.now) }
{
    let half = samples.len() / 2;
    let usable = halves_usable(samples, half);
    if samples.len() % 2 == 0 {
        return usable;
    }
    usable & is_usable(samples[half + half])
}

// The first bad one of these samples, their places counted on from another.
fn first_bad(samples: &[f32], from: usize) -> Result<(), Refusal>
    requires { from + length samples.now < 2 ^ 64 }
    ensures { result ≡ judge_from from samples.now }
{
    for (place, sample) in samples.iter().enumerate() {
        if !is_usable(*sample) {
            return Err(Refusal::BadSample(from + place));
        }
    }
    Ok(())
}

// 7 of one list.
pub fn judge_list(samples: &[f32]) -> Result<(), Refusal>
    ensures { result ≡ judge_samples samples.now }
{
    if all_usable(samples) {
        return Ok(());
    }
    first_bad(samples, 0)
}

pub(crate) fn judge_samples(centre: &[f32], neighbours: &[f32]) -> Result<(), Refusal>
    ensures { result ≡ judge_samples (centre.now ++ neighbours.now) }
{
    if all_usable(centre) & all_usable(neighbours) {
        return Ok(());
    }
    first_bad(centre, 0)?;
    first_bad(neighbours, centre.len())
}
