// Refusal 17: the first triangle one of whose corners names no vertex, judged by whatever takes a list of triangles.
#![tactic(auto)]

ghost use Rattle.std.specs.Prelude.{◌≡◌, ◌*◌};
ghost use Rattle.model.specs.Corners.{triangle_count, judge_named};
ghost use Rattle.naming.specs.Corners.{all_named};

use model::Refusal;

// Whether every corner names one of so many vertices. It looks at them all, which the compiler does many at a time.
fn all_named(held: u32, triangles: &[u32]) -> bool
    ensures { result ≡ all_named held triangles.now (3 * triangle_count triangles.now) }
{
    let corners = &triangles[..3 * (triangles.len() / 3)];
    corners
        .iter()
        .fold(true, |named, corner| named & (*corner < held))
}

fn first_unnamed(held: usize, triangles: &[u32]) -> Result<(), Refusal>
    ensures { result ≡ judge_named held triangles.now }
{
    for (t, triangle) in triangles.chunks_exact(3).enumerate() {
        if !triangle.iter().all(|corner| (*corner as usize) < held) {
            return Err(Refusal::NoVertex(t));
        }
    }
    Ok(())
}

pub fn judge_named(held: usize, triangles: &[u32]) -> Result<(), Refusal>
    ensures { result ≡ judge_named held triangles.now }
{
    if let Ok(held) = u32::try_from(held) {
        if all_named(held, triangles) {
            return Ok(());
        }
    }
    first_unnamed(held, triangles)
}
