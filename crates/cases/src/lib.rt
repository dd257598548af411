// The case numbers. A sheet holds those of a layer of regular cells, or of a side's transition cells, row by row; beside it stand marks,
// which tell the cells that are cut. The writing pass has each cell read its own samples (crates/regular, transition); the counting pass
// reads a regular sample once (crates/pairs).
#![tactic(auto)]

ghost use Rattle.std.specs.Prelude.{◌≡◌, ◌+◌, ◌*◌, ◌≤◌, ◌<◌, length, get_or};
ghost use Rattle.std.specs.Float.{nan};
ghost use Rattle.model.specs.Limits.{most_subdivisions};
ghost use Rattle.model.specs.Samples.{sample_length};
ghost use Rattle.model.specs.Formulas.{inside_bit};
ghost use Rattle.model.specs.Star.{Star, subdivisions};
ghost use Rattle.cases.specs.Sheets.{Plane};

pub mod cut_cells;
pub mod marks;
pub mod sixteens;
pub mod transition;

use grid::readings::value_in_block;
use grid::voxel_blocks::{MOST_SUBDIVISIONS, in_block, inside};

const MOST_POINTS: usize = MOST_SUBDIVISIONS + 1;

// The places of a sheet: a layer of the largest block's points, and eight more, so that a word can be read at each.
pub const SHEET: usize = MOST_POINTS * MOST_POINTS + 8;

// The samples that the case number of a transition cell reads. The writing pass counts its reads by them.
const TRANSITION_READS: u64 = 9;

// What the sample at an in-block place adds if it is inside.
pub fn weighed(threshold: f32, samples: &[f32], at: usize, w: u32) -> u32
    requires { at < length samples.now }
    ensures { (result ≡ w * inside_bit threshold (get_or samples.now at nan)) × (result ≤ w) }
{
    if inside(threshold, value_in_block(samples, at)) {
        w
    } else {
        0
    }
}

// The samples of a block at x, line by line.
pub fn plane(n: usize, centre: &[f32], x: usize) -> &[f32]
    requires { (n ≤ most_subdivisions) × ((x ≤ n) × (length centre.now ≡ sample_length n)) }
    ensures result_len { length result.now ≡ (n + 1) * (n + 1) }
    ensures plane { (s : Star) → subdivisions s ≡ n → s.centre ≡ centre.now → Plane s x result.now }
{
    let start = in_block(n, x, 0, 0);
    let end = start + (n + 1) * (n + 1);
    &centre[start..end]
}
