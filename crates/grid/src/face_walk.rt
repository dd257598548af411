// The points of a side's face among a block's samples, at fixed steps: where the first one stands, and how far one step along the side's U
// and one along its V leads. With m = n and w = 0 they are the centre's own, with m = 2n and w = 2n those of its neighbour there.
ghost use Rattle.std.specs.Prelude.{◌≡◌, ◌≤◌};
ghost use Rattle.model.specs.Limits.{most_fine};
ghost use Rattle.grid.specs.RotationLaws.{OnSide, UnitVector};
ghost use Rattle.grid.specs.Walks.{stride_of, walk_of, Leads, along_by};

use crate::rotation::{rotation_for_side, side_point};
use crate::voxel_blocks::in_block;
use model::Direction;

// How far a step leads up, and how far down: one of the two is 0.
#[derive(Clone, Copy)]
pub struct Stride {
    pub up: usize,
    pub down: usize,
}

#[derive(Clone, Copy)]
pub struct FaceWalk {
    pub first: usize,
    pub u: Stride,
    pub v: Stride,
}

fn stride_along(m: usize, d: Direction) -> Stride
    requires { ((1 ≤ m) × (m ≤ most_fine)) × UnitVector d }
    ensures { result ≡ stride_of m d }
{
    Stride {
        up: in_block(m, d.up.x, d.up.y, d.up.z),
        down: in_block(m, d.down.x, d.down.y, d.down.z),
    }
}

pub fn face_walk(m: usize, side: usize, w: usize) -> FaceWalk
    requires { (1 ≤ m) × OnSide side m 0 0 w }
    ensures { result ≡ walk_of m side w }
{
    let p = side_point(side, m, 0, 0, w);
    let r = rotation_for_side(side);
    FaceWalk {
        first: in_block(m, p.x, p.y, p.z),
        u: stride_along(m, r.u),
        v: stride_along(m, r.v),
    }
}

// The place that k steps lead to.
pub fn along(at: usize, stride: Stride, k: usize) -> usize
    requires { Leads at stride k }
    ensures { result ≡ along_by at stride k }
{
    at + k * stride.up - k * stride.down
}
