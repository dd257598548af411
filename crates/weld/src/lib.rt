// The weld (document 02, [10]): of the regular vertices made on one grid edge only the first is kept, the kept close up in their order, and the
// triangles are renumbered, all in the lists that are lent. specs/Definition says what is left and what is refused.
#![tactic(auto)]

ghost use Rattle.std.specs.Prelude.{◌≡◌};
ghost use Rattle.weld.specs.Definition.{judge_weld, weld};

mod closing;
mod corners;
mod memory;
mod pass;
mod places;
mod seen;

use judge::{judge_buffer, judge_edges};
use model::{Counts, Refusal};
use naming::judge_named;
use pass::pass;

// 14 of the vertices, 14 of the triangles, 23, 17.
fn judge_weld(
    v: u32,
    t: u32,
    vertices: &[f32],
    triangles: &[u32],
    edges: &[u32],
) -> Result<(), Refusal>
    ensures { result ≡ judge_weld v t vertices.now triangles.now edges.now }
{
    let count = v as usize;
    let places = 3 * (t as usize);
    judge_buffer(6 * count, vertices.len())?;
    judge_buffer(places, triangles.len())?;
    judge_edges(count, edges.len())?;
    judge_named(count, &triangles[..places])
}

// Of so many vertices and triangles. The counts are 32-bit numbers, as the corners are, so that what 14 wants always fits.
pub fn weld(
    v: u32,
    t: u32,
    vertices: &mut [f32],
    triangles: &mut [u32],
    edges: &mut [u32],
) -> Result<Counts, Refusal>
    ensures { record { answer = result; vertices = vertices.new; triangles = triangles.new; edges = edges.new }
        ≡ weld v t vertices.old triangles.old edges.old }
{
    judge_weld(v, t, vertices, triangles, edges)?;
    let places = 3 * (t as usize);
    let kept = pass(v as usize, vertices, &mut triangles[..places], edges);
    Ok(Counts {
        vertices: kept,
        triangles: t as usize,
    })
}
