// The six rotations, by value, and the points that they give (document 01, 'Transition cells').
ghost use Rattle.std.specs.Prelude.{◌≡◌, ◌*◌, ◌<◌};
ghost use Rattle.model.specs.Limits.{side_count};
ghost use Rattle.model.specs.Rotations.{rotation_of, point_from, face_point, fine_point, neighbour_point};
ghost use Rattle.grid.specs.Places.{Within};
ghost use Rattle.grid.specs.RotationLaws.{OnFace, OnFineFace, OnSide, UnitVector, UnitVectors, Step, Move, Moves, stepped_by, moved_by};

use model::{Direction, Rotation, Xyz};

const NONE: Xyz = Xyz { x: 0, y: 0, z: 0 };

const X: Xyz = Xyz { x: 1, y: 0, z: 0 };

const Y: Xyz = Xyz { x: 0, y: 1, z: 0 };

const Z: Xyz = Xyz { x: 0, y: 0, z: 1 };

const X_AND_Z: Xyz = Xyz { x: 1, y: 0, z: 1 };

const PLUS_X: Direction = Direction { up: X, down: NONE };

const PLUS_Y: Direction = Direction { up: Y, down: NONE };

const PLUS_Z: Direction = Direction { up: Z, down: NONE };

const MINUS_X: Direction = Direction { up: NONE, down: X };

const MINUS_Y: Direction = Direction { up: NONE, down: Y };

const MINUS_Z: Direction = Direction { up: NONE, down: Z };

fn rotation(origin: Xyz, u: Direction, v: Direction, w: Direction) -> Rotation
    ensures { result ≡ record { origin = origin; u = u; v = v; w = w } }
{
    Rotation { origin, u, v, w }
}

pub fn rotation_for_side(side: usize) -> Rotation
    requires { side < side_count }
    ensures { result ≡ rotation_of side }
{
    match side {
        0 => rotation(Z, MINUS_Z, PLUS_Y, PLUS_X),
        1 => rotation(X, PLUS_Z, PLUS_Y, MINUS_X),
        2 => rotation(Z, PLUS_X, MINUS_Z, PLUS_Y),
        3 => rotation(Y, PLUS_X, PLUS_Z, MINUS_Y),
        4 => rotation(NONE, PLUS_X, PLUS_Y, PLUS_Z),
        _ => rotation(X_AND_Z, MINUS_X, PLUS_Y, MINUS_Z),
    }
}

// One coordinate, k steps along a unit vector.
fn stepped(at: usize, k: usize, up: usize, down: usize) -> usize
    requires { Step at k up down }
    ensures { result ≡ stepped_by at k up down }
{
    at + k * up - k * down
}

fn moved(p: Xyz, k: usize, d: Direction) -> Xyz
    requires { UnitVector d × Move p k d }
    ensures { result ≡ moved_by p k d }
{
    Xyz {
        x: stepped(p.x, k, d.up.x, d.down.x),
        y: stepped(p.y, k, d.up.y, d.down.y),
        z: stepped(p.z, k, d.up.z, d.down.z),
    }
}

// m * origin + u * U + v * V + w * W.
fn point_from(r: Rotation, m: usize, u: usize, v: usize, w: usize) -> Xyz
    requires { UnitVectors r × Moves r m u v w }
    ensures { result ≡ point_from r m u v w }
{
    let origin = Xyz {
        x: m * r.origin.x,
        y: m * r.origin.y,
        z: m * r.origin.z,
    };
    moved(moved(moved(origin, u, r.u), v, r.v), w, r.w)
}

pub fn side_point(side: usize, m: usize, u: usize, v: usize, w: usize) -> Xyz
    requires { OnSide side m u v w }
    ensures { (result ≡ point_from (rotation_of side) m u v w) × Within m result }
{
    point_from(rotation_for_side(side), m, u, v, w)
}

// The centre's grid point (u, v) of a face.
pub fn face_point(n: usize, side: usize, u: usize, v: usize) -> Xyz
    requires { OnFace n side u v }
    ensures { (result ≡ face_point n side u v) × Within n result }
{
    side_point(side, n, u, v, 0)
}

// A fine point of a face: here counted in half steps of the centre, there the same point in the neighbour.
#[derive(Clone, Copy)]
pub struct FinePoints {
    pub here: Xyz,
    pub there: Xyz,
}

// The neighbour's point is 2n further along W.
pub fn fine_points(n: usize, side: usize, u2: usize, v2: usize) -> FinePoints
    requires { OnFineFace n side u2 v2 }
    ensures { ((result.here ≡ fine_point n side u2 v2) × Within (2 * n) result.here) × ((result.there ≡ neighbour_point n side u2 v2) × Within (2 * n) result.there) }
{
    let r = rotation_for_side(side);
    let here = point_from(r, 2 * n, u2, v2, 0);
    let there = moved(here, 2 * n, r.w);
    FinePoints { here, there }
}
