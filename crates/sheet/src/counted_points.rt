// Samples that are inside, and grid edges that cross, among lists of samples.
ghost use Rattle.std.specs.Prelude.{◌≡◌, ◌+◌, ◌^◌, ◌≤◌, ◌<◌, length, get_or};
ghost use Rattle.std.specs.Float.{nan};
ghost use Rattle.laws.specs.Steps.{total};
ghost use Rattle.model.specs.Formulas.{inside_bit};
ghost use Rattle.sheet.specs.Planes.{crossing_bit, crossing_sum};

use grid::voxel_blocks::inside;

fn inside_bit(threshold: f32, sample: f32) -> u32
    ensures { (result ≡ inside_bit threshold sample) × (result ≤ 1) }
{
    u32::from(inside(threshold, sample))
}

// 1 if just one of two samples is inside.
fn crossing_bit(threshold: f32, a: f32, b: f32) -> u32
    ensures { (result ≡ crossing_bit threshold a b) × (result ≤ 1) }
{
    u32::from(inside(threshold, a) != inside(threshold, b))
}

// So many samples. Here a sum over a map was tried, and the proof that the sum fits did not close; `count` counts in usize, wider than a sample.
pub fn insides(threshold: f32, samples: &[f32]) -> u32
    requires { length samples.now < 2 ^ 32 }
    ensures { (result ≡ total (λ k. inside_bit threshold (get_or samples.now k nan)) (length samples.now)) × (result ≤ length samples.now) }
{
    let mut found = 0;
    for sample in samples {
        found += inside_bit(threshold, *sample);
    }
    found
}

// Of the edges from each sample of a list to the one as far on in another, so many.
pub fn crossings(threshold: f32, a: &[f32], b: &[f32]) -> u32
    requires { (length a.now ≡ length b.now) × (length a.now < 2 ^ 32) }
    ensures { (result ≡ crossing_sum threshold a.now 0 b.now 0 (length a.now)) × (result ≤ length a.now) }
{
    let mut found = 0;
    for (from, to) in a.iter().zip(b) {
        found += crossing_bit(threshold, *from, *to);
    }
    found
}
