// Lines of samples among those of a record, a step apart, and read from its bytes. The points of a side's face lie on such lines, one for each step
// along the side's U: the centre's own points, and the fine ones of its neighbour there.
#![tactic(auto)]

ghost use Rattle.std.specs.Prelude.{◌≡◌, ◌*◌, ◌≤◌, get_or};
ghost use Rattle.std.specs.Float.{nan};
ghost use Rattle.model.specs.Record.{count_of, samples_of};
ghost use Rattle.grid.specs.RotationLaws.{OnSide};
ghost use Rattle.lines.specs.Lines.{place_on, OnLine, face_line, NamedSide, coarse_line, fine_line};

use grid::face_walk::{Stride, along, face_walk};
use grid::transition_sides::count_below;
use grid::voxel_blocks::sample_length;
use model::Header;
use record::passed::Record;

// So many samples: the first stands at `first` among those that begin at `start`.
#[derive(Clone, Copy)]
pub struct Line {
    pub start: usize,
    pub first: usize,
    pub step: Stride,
    pub points: usize,
}

// One place after another.
pub const NEXT: Stride = Stride { up: 1, down: 0 };

pub fn sample_on(src: &Record<'_>, line: Line, k: usize) -> f32
    requires { OnLine (count_of src.now.bytes.now) line k }
    ensures { result ≡ get_or (samples_of src.now.bytes.now) (place_on line k) nan }
{
    src.sample(line.start + along(line.first, line.step, k))
}

// The points at the step u along U of a side's face, in a block of m subdivisions whose samples begin at a place.
fn face_line(start: usize, m: usize, side: usize, w: usize, u: usize) -> Line
    requires { (1 ≤ m) × OnSide side m u 0 w }
    ensures { result ≡ face_line start m side w u }
{
    let walk = face_walk(m, side, w);
    let first = along(walk.first, walk.u, u);
    let step = walk.v;
    let points = m + 1;
    Line {
        start,
        first,
        step,
        points,
    }
}

// The centre's own.
pub fn coarse_line(header: Header, side: usize, u: usize) -> Line
    requires { NamedSide header side × (u ≤ header.block.subdivisions) }
    ensures { result ≡ coarse_line header side u }
{
    face_line(0, header.block.subdivisions, side, 0, u)
}

// The neighbour's: its samples come after the centre's and those of the sides named below it.
pub fn fine_line(header: Header, side: usize, u2: usize) -> Line
    requires { NamedSide header side × (u2 ≤ 2 * header.block.subdivisions) }
    ensures { result ≡ fine_line header side u2 }
{
    let n = header.block.subdivisions;
    let fine = 2 * n;
    let start = sample_length(n) + count_below(header.mask, side) * sample_length(fine);
    face_line(start, fine, side, fine, u2)
}
