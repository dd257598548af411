// The fields of a vertex code, as the Rust's `tables_wrapper` reads them. A transition code has the same fields: `reuse_dx` is its step back
// in u, `reuse_dy` that in v, and `new_vertex` says 'new and stored'.
ghost use Rattle.std.specs.Prelude.{◌≡◌, ◌<◌, ◌≤◌, eqb};
ghost use Rattle.tables.specs.Codes.{point_a, point_b, step_x, step_y, step_z, is_new, reuse_index};

pub fn voxel_a_index(code: u16) -> usize
    ensures { (result ≡ point_a code) × (result < 16) }
{
    usize::from(code / 16 % 16)
}

pub fn voxel_b_index(code: u16) -> usize
    ensures { (result ≡ point_b code) × (result < 16) }
{
    usize::from(code % 16)
}

// How far back in x the stored vertex lies: 0 or 1.
pub fn reuse_dx(code: u16) -> usize
    ensures { (result ≡ step_x code) × (result ≤ 1) }
{
    usize::from(code / 0x1000 % 2)
}

pub fn reuse_dy(code: u16) -> usize
    ensures { (result ≡ step_y code) × (result ≤ 1) }
{
    usize::from(code / 0x2000 % 2)
}

pub fn reuse_dz(code: u16) -> usize
    ensures { (result ≡ step_z code) × (result ≤ 1) }
{
    usize::from(code / 0x4000 % 2)
}

pub fn new_vertex(code: u16) -> bool
    ensures { result ≡ eqb (is_new code) 1 }
{
    code / 0x8000 % 2 == 1
}

pub fn reuse_index(code: u16) -> usize
    ensures { (result ≡ reuse_index code) × (result < 16) }
{
    usize::from(code / 256 % 16)
}
