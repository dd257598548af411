// Refusal 8 of a record that passed, from its bytes: the first point of a named side's face at which the centre and the neighbour lie on two sides of
// the threshold.
ghost use Rattle.std.specs.Prelude.{◌≡◌, ◌+◌, ◌*◌, ◌≤◌};
ghost use Rattle.model.specs.Limits.{most_subdivisions};
ghost use Rattle.model.specs.Judging.{face_row, face_side, judge_faces};
ghost use Rattle.model.specs.Record.{count_of, samples_of, star_of};
ghost use Rattle.lines.specs.Lines.{OnLine, NamedSide};
ghost use Rattle.sheet.specs.Faces.{agree_on};

use grid::named_sides::named_sides;
use grid::voxel_blocks::inside;
use lines::{Line, coarse_line, fine_line, sample_on};
use model::{FacePoint, Refusal};
use record::passed::Record;

// Each of the centre's points coincides with every second one of the neighbour's.
fn spot_agrees(src: &Record<'_>, coarse: Line, fine: Line, v: usize) -> bool
    requires few { v ≤ most_subdivisions }
    requires on_line { OnLine (count_of src.now.bytes.now) coarse v × OnLine (count_of src.now.bytes.now) fine (2 * v) }
    ensures { result ≡ agree_on src.now.header.threshold (samples_of src.now.bytes.now) coarse fine v }
{
    let threshold = src.header.threshold;
    inside(threshold, sample_on(src, coarse, v)) == inside(threshold, sample_on(src, fine, 2 * v))
}

fn judge_row(src: &Record<'_>, side: usize, u: usize) -> Result<(), Refusal>
    requires { NamedSide src.now.header side × (u ≤ src.now.header.block.subdivisions) }
    ensures { result ≡ face_row (star_of src.now.bytes.now) side u (src.now.header.block.subdivisions + 1) }
{
    let coarse = coarse_line(src.header, side, u);
    let fine = fine_line(src.header, side, 2 * u);
    for v in 0..coarse.points {
        if !spot_agrees(src, coarse, fine, v) {
            return Err(Refusal::FaceMismatch(FacePoint { side, u, v }));
        }
    }
    Ok(())
}

fn judge_side(src: &Record<'_>, side: usize) -> Result<(), Refusal>
    requires { NamedSide src.now.header side }
    ensures { result ≡ face_side (star_of src.now.bytes.now) side (src.now.header.block.subdivisions + 1) }
{
    for u in 0..src.header.block.subdivisions + 1 {
        judge_row(src, side, u)?;
    }
    Ok(())
}

pub fn judge_faces(src: &Record<'_>) -> Result<(), Refusal>
    ensures { result ≡ judge_faces (star_of src.now.bytes.now) }
{
    for side in named_sides(src.header.mask) {
        judge_side(src, side)?;
    }
    Ok(())
}
