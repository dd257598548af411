// The sheet of a layer of regular cells for the counting pass, in which a sample is read once. A place holds a pair: whether its point of one
// layer is inside, and twice the same of the layer after it. The case numbers come from pairs alone.
#![tactic(auto)]

ghost use Rattle.std.specs.Prelude.{◌≡◌, List, [], ℕ, ◌+◌, ◌-◌, ◌*◌, ◌/◌, ◌≤◌, ◌<◌, Float, length, get_or};
ghost use Rattle.std.specs.Float.{nan};
ghost use Rattle.model.specs.Limits.{most_subdivisions};
ghost use Rattle.model.specs.Samples.{sample_length};
ghost use Rattle.model.specs.Formulas.{inside_bit};
ghost use Rattle.model.specs.Star.{star};
ghost use Rattle.model.specs.Points.{regular_case};
ghost use Rattle.cases.specs.Sheets.{sheet_places, Sheet, RowPut};
ghost use Rattle.cases.specs.Pairs.{paired_with, point_bit, Upper, Pairs, of_pairs, Small};
ghost use Rattle.cases.specs.Marks.{all_regular, mark_of};

use cases::marks::mark_layer;
use cases::sixteens::renew;
use cases::{SHEET, plane, weighed};
use model::Header;

// The pair that the next layer's sample makes of one.
fn paired(threshold: f32, samples: &[f32], i: usize, pair: u8) -> u8
    requires { i < length samples.now }
    ensures { result ≡ pair / 2 + 2 * inside_bit threshold (get_or samples.now i nan) }
{
    (u32::from(pair) / 2 + weighed(threshold, samples, i, 2)) as u8
}

// Each pair of as many as there are samples.
fn pair_with(threshold: f32, samples: &[f32], pairs: &mut [u8; SHEET])
    requires { length samples.now ≤ sheet_places }
    ensures { RowPut (paired_with threshold samples.now pairs.old) 0 (length samples.now) pairs.old pairs.new }
{
    renew(
        &mut pairs[..samples.len()],
        |i, pair| paired(threshold, samples, i, pair),
    );
}

// The points at x become the second of each pair.
pub fn pair_layer(header: Header, centre: &[f32], x: usize, pairs: &mut [u8; SHEET])
    requires subdivisions_le_most_subdivisions { (header.block.subdivisions ≤ most_subdivisions) × (length centre.now ≡ sample_length header.block.subdivisions) }
    requires x_le_subdivisions { x ≤ header.block.subdivisions }
    ensures { (low : ℕ → ℕ → ℕ) → Upper header.block.subdivisions low pairs.old → Pairs header.block.subdivisions low (point_bit (star header centre.now []) x) pairs.new }
{
    let samples = plane(header.block.subdivisions, centre, x);
    pair_with(header.threshold, samples, pairs);
}

fn of_pairs(m: usize, pairs: &[u8], i: usize) -> u8
    requires { (i + m + 1 < length pairs.now) × Small (i + m + 2) pairs.now }
    ensures { result ≡ of_pairs m pairs.now i }
{
    (u32::from(pairs[i])
        + 4 * u32::from(pairs[i + m])
        + 16 * u32::from(pairs[i + 1])
        + 64 * u32::from(pairs[i + m + 1])) as u8
}

// The case numbers of the cells between the two layers.
fn pair_cases(n: usize, pairs: &[u8; SHEET], cases: &mut [u8; SHEET])
    requires n_le_most_subdivisions { n ≤ most_subdivisions }
    requires small { Small ((n + 1) * (n + 1)) pairs.now }
    ensures { RowPut (of_pairs (n + 1) pairs.now) 0 (n * (n + 1) - 1) cases.old cases.new }
{
    let m = n + 1;
    let places = (n * m).saturating_sub(1);
    for (i, case) in cases[..places].iter_mut().enumerate() {
        *case = of_pairs(m, pairs, i);
    }
}

// The case numbers of the cells at x, and their marks, from pairs that have the points at x as their second; they get those at x + 1.
pub fn layer_cases(
    header: Header,
    centre: &[f32],
    x: usize,
    pairs: &mut [u8; SHEET],
    cases: &mut [u8; SHEET],
    marks: &mut [u8; SHEET],
)
    requires subdivisions_le_most_subdivisions { (header.block.subdivisions ≤ most_subdivisions) × (length centre.now ≡ sample_length header.block.subdivisions) }
    requires x_lt_subdivisions { x < header.block.subdivisions }
    requires upper { Upper header.block.subdivisions (point_bit (star header centre.now []) x) pairs.old }
    ensures pairs { Upper header.block.subdivisions (point_bit (star header centre.now []) (x + 1)) pairs.new }
    ensures cases { (ns : List Float) → Sheet (regular_case (star header centre.now ns) x) header.block.subdivisions header.block.subdivisions cases.new }
    ensures marks { (ns : List Float) → Sheet (λ y z. mark_of all_regular (regular_case (star header centre.now ns) x y z)) header.block.subdivisions header.block.subdivisions marks.new }
{
    let n = header.block.subdivisions;
    pair_layer(header, centre, x + 1, pairs);
    pair_cases(n, pairs, cases);
    mark_layer(n, cases, marks);
}
