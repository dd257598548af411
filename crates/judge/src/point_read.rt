// The point read (document 01, 'Answers by number', and document 02, [4]): it judges 1, 4 and 15, in that order.
ghost use Rattle.std.specs.Prelude.{◌≡◌};
ghost use Rattle.model.specs.Refusals.{or_else};
ghost use Rattle.model.specs.Judging.{judge_subdivisions, judge_centre};
ghost use Rattle.model.specs.Extraction.{point_answer, read_point};

use crate::judge_subdivisions;
use crate::lengths::judge_centre;
use grid::voxel_blocks::{one_up, reading};
use model::{PlaceKind, Refusal};

// 1 and 4, of a block with so many samples.
pub fn judge_block(n: usize, held: usize) -> Result<(), Refusal>
    ensures { result ≡ or_else (judge_subdivisions n) (judge_centre n held) }
{
    judge_subdivisions(n)?;
    judge_centre(n, held)
}

// What is answered where nothing before 15 is met.
pub fn answered(read: Result<(f32, PlaceKind), usize>) -> Result<(f32, PlaceKind), Refusal>
    ensures { result ≡ point_answer (Ok tt) read }
{
    read.map_err(Refusal::PointNeverSampled)
}

pub fn read_point(
    n: usize,
    samples: &[f32],
    x: i32,
    y: i32,
    z: i32,
) -> Result<(f32, PlaceKind), Refusal>
    ensures { result ≡ read_point n samples.now x y z }
{
    judge_block(n, samples.len())?;
    answered(reading(n, samples, one_up(n, x), one_up(n, y), one_up(n, z)))
}
