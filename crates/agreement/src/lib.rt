// Refusal 8: the first point of a named side's face at which the centre and the neighbour lie on two sides of the threshold.
#![tactic(auto)]

ghost use Rattle.std.specs.Prelude.{◌≡◌, ◌<◌, length, get_or};
ghost use Rattle.std.specs.Bool.{beq};
ghost use Rattle.std.specs.Float.{nan};
ghost use Rattle.model.specs.Star.{lent_star};
ghost use Rattle.model.specs.Formulas as Formulas;
ghost use Rattle.model.specs.Judging.{judge_faces};
ghost use Rattle.grid.specs.Shape.{Shaped};

use grid::face_walk::{along, face_walk};
use grid::named_sides::named_sides;
use grid::readings::value_in_block;
use grid::transition_sides::neighbour;
use grid::voxel_blocks::inside;
use model::{FacePoint, Lent, Refusal};

// The centre's sample and the neighbour's, each at its place, lie on the same side of the threshold.
fn samples_agree(threshold: f32, centre: &[f32], here: usize, fine: &[f32], there: usize) -> bool
    requires { (here < length centre.now) × (there < length fine.now) }
    ensures { result ≡ beq (Formulas.inside threshold (get_or centre.now here nan)) (Formulas.inside threshold (get_or fine.now there nan)) }
{
    inside(threshold, value_in_block(centre, here))
        == inside(threshold, value_in_block(fine, there))
}

// Each of the centre's points coincides with every second one of the neighbour's, along u and along v. The search is left by a label, the form
// that document 01 asks for.
pub fn judge_faces(lent: &Lent<'_>) -> Result<(), Refusal>
    requires { Shaped (lent_star lent.now) }
    ensures { result ≡ judge_faces (lent_star lent.now) }
{
    let header = lent.header;
    let n = header.block.subdivisions;
    let mut found = Ok(());
    'search: for side in named_sides(header.mask) {
        let fine = neighbour(n, header.mask, lent.neighbours, side);
        let coarse_walk = face_walk(n, side, 0);
        let fine_walk = face_walk(2 * n, side, 2 * n);
        for u in 0..n + 1 {
            let coarse_row = along(coarse_walk.first, coarse_walk.u, u);
            let fine_row = along(fine_walk.first, fine_walk.u, 2 * u);
            for v in 0..n + 1 {
                let coarse_at = along(coarse_row, coarse_walk.v, v);
                let fine_at = along(fine_row, fine_walk.v, 2 * v);
                if !samples_agree(header.threshold, lent.centre, coarse_at, fine, fine_at) {
                    found = Err(Refusal::FaceMismatch(FacePoint { side, u, v }));
                    break 'search;
                }
            }
        }
    }
    found
}
