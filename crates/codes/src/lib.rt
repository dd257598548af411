// What a vertex code comes to in its cell: whether it makes a vertex, the cell that it steps back to, and how many vertices a row of codes makes.
#![tactic(auto)]

ghost use Rattle.std.specs.Prelude.{◌≡◌, false, cond, ◌≤◌, ◌<◌, length, get_or};
ghost use Rattle.tables.specs.RulesSlots.{crossed_at_top};
ghost use Rattle.laws.specs.Steps.{total};
ghost use Rattle.model.specs.Mesh.{regular_leaves, transition_leaves};
ghost use Rattle.codes.specs.Kinds.{makes_at, regular_back, transition_back, back_from};

use model::{FacePoint, Xyz};
use tables::tables_wrapper::{new_vertex, reuse_dx, reuse_dy, reuse_dz};

// Where a cell lies: a regular cell in the block, a transition cell on a side.
#[derive(Clone, Copy)]
pub enum CellIndex {
    Regular(Xyz),
    Transition(FacePoint),
}

// A cell that is made: where it lies, its case's row of codes, its class's row of cell data, and whether its triangles' corners go out 3, 2, 1.
#[derive(Clone, Copy)]
pub struct CellRows<'a> {
    pub at: CellIndex,
    pub codes: &'a [u16],
    pub row: &'a [u8],
    pub turned: bool,
}

// Whether a step asked for leaves the block.
fn regular_leaves(at: Xyz, code: u16) -> bool
    ensures { result ≡ regular_leaves at.x at.y at.z code }
{
    (at.x < reuse_dx(code)) | ((at.y < reuse_dy(code)) | (at.z < reuse_dz(code)))
}

// Whether no step back in u or v is asked for, or it leaves the face.
fn transition_leaves(at: FacePoint, code: u16) -> bool
    ensures { result ≡ transition_leaves at.u at.v code }
{
    let du = reuse_dx(code);
    let dv = reuse_dy(code);
    ((du == 0) & (dv == 0)) | ((at.u < du) | (at.v < dv))
}

pub fn makes(at: CellIndex, code: u16) -> bool
    ensures { result ≡ makes_at at code }
{
    match at {
        CellIndex::Regular(cell) => new_vertex(code) | regular_leaves(cell, code),
        CellIndex::Transition(cell) => new_vertex(code) | transition_leaves(cell, code),
    }
}

pub fn regular_back(at: Xyz, code: u16) -> Xyz
    requires { regular_leaves at.x at.y at.z code ≡ false }
    ensures { result ≡ regular_back at code }
{
    Xyz {
        x: at.x - reuse_dx(code),
        y: at.y - reuse_dy(code),
        z: at.z - reuse_dz(code),
    }
}

fn transition_back(at: FacePoint, code: u16) -> FacePoint
    requires { transition_leaves at.u at.v code ≡ false }
    ensures { result ≡ transition_back at code }
{
    FacePoint {
        side: at.side,
        u: at.u - reuse_dx(code),
        v: at.v - reuse_dy(code),
    }
}

// The cell whose stored index a code takes.
pub fn back(at: CellIndex, code: u16) -> CellIndex
    requires { makes_at at code ≡ false }
    ensures { result ≡ back_from at code }
{
    match at {
        CellIndex::Regular(cell) => CellIndex::Regular(regular_back(cell, code)),
        CellIndex::Transition(cell) => CellIndex::Transition(transition_back(cell, code)),
    }
}

// How many of a cell's vertices are made: it depends on the codes and on where the cell lies alone.
pub fn count_made(at: CellIndex, codes: &[u16], count: usize) -> usize
    requires { count ≤ length codes.now }
    ensures { (result ≡ total (λ i. cond (makes_at at (get_or codes.now i 0)) 1 0) count) × (result ≤ count) }
{
    codes[..count]
        .iter()
        .filter(|&&code| makes(at, code))
        .count()
}

// The same of a regular cell that touches no low face of the block: one vertex on each crossed edge at its corner 7, since the others are in
// the store.
pub fn count_made_inside(case: usize) -> usize
    requires { case < 256 }
    ensures { (result ≡ crossed_at_top case) × (result ≤ 3) }
{
    let top = case / 128;
    (top + case / 8) % 2 + (top + case / 32) % 2 + (top + case / 64) % 2
}
