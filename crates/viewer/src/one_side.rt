// Whether a record that passed is blank (document 02, [3]), from its bytes: the block's own samples, and then those in the fine face of each named
// side, must lie on one side of the threshold. Each is read once, and the first that lies on the other ends it.
ghost use Rattle.std.specs.Prelude.{◌≡◌, true, ℕ, ◌<◌, get_or};
ghost use Rattle.std.specs.Float.{nan};
ghost use Rattle.model.specs.Limits.{side_count};
ghost use Rattle.model.specs.Sides.{named};
ghost use Rattle.model.specs.Blank.{lies_as, side_as, sides_as, is_blank};
ghost use Rattle.model.specs.Record.{count_of, samples_of, star_of};
ghost use Rattle.lines.specs.Lines.{place_on, OnLine};
ghost use Rattle.viewer.specs.Lines.{line_as};

use grid::named_sides::named_sides;
use grid::voxel_blocks::inside;
use lines::{Line, NEXT, fine_line, sample_on};
use record::passed::Record;

// The k-th sample of a line is inside or is not, as wanted.
fn lies_as(src: &Record<'_>, wanted: bool, line: Line, k: usize) -> bool
    requires { OnLine (count_of src.now.bytes.now) line k }
    ensures { result ≡ lies_as wanted src.now.header.threshold (get_or (samples_of src.now.bytes.now) (place_on line k) nan) }
{
    inside(src.header.threshold, sample_on(src, line, k)) == wanted
}

fn line_lies(src: &Record<'_>, wanted: bool, line: Line) -> bool
    requires { (k : ℕ) → k < line.points → OnLine (count_of src.now.bytes.now) line k }
    ensures { result ≡ line_as wanted src.now.header.threshold (samples_of src.now.bytes.now) line }
{
    // Not by `all`, which takes a twelfth longer.
    for k in 0..line.points {
        if !lies_as(src, wanted, line, k) {
            return false;
        }
    }
    true
}

// The samples in the fine face of a named side.
fn side_lies(src: &Record<'_>, wanted: bool, side: usize) -> bool
    requires { (side < side_count) × (named src.now.header.mask side ≡ true) }
    ensures { result ≡ side_as wanted (star_of src.now.bytes.now) side }
{
    let points = 2 * src.header.block.subdivisions + 1;
    for u2 in 0..points {
        let line = fine_line(src.header, side, u2);
        if !line_lies(src, wanted, line) {
            return false;
        }
    }
    true
}

// Not by `all`: in one try the proof that its closure may be called at each turn did not close. In side_lies it was not tried.
fn sides_lie(src: &Record<'_>, wanted: bool) -> bool
    ensures { result ≡ sides_as wanted (star_of src.now.bytes.now) }
{
    for side in named_sides(src.header.mask) {
        if !side_lies(src, wanted, side) {
            return false;
        }
    }
    true
}

// On the side of the first sample.
pub fn is_blank(src: &Record<'_>) -> bool
    ensures { result ≡ is_blank (star_of src.now.bytes.now) }
{
    let m = src.header.block.subdivisions + 1;
    let wanted = inside(src.header.threshold, src.sample(0));
    let own = Line {
        start: 0,
        first: 0,
        step: NEXT,
        points: m * m * m,
    };
    line_lies(src, wanted, own) && sides_lie(src, wanted)
}
