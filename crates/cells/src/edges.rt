// The grid edges of a cell's vertices, told by numbers in a further lent list (document 02, [10]). What has no place in the list is left
// out: a list that is not asked for has none.
ghost use Rattle.std.specs.Prelude.{◌≡◌, Bool, List, ℕ, ◌+◌, ◌-◌, ◌/◌, ◌≤◌, ◌<◌, ◌^◌};
ghost use Rattle.tables.specs.Cases.{vertices_of};
ghost use Rattle.model.specs.Limits.{most_subdivisions};
ghost use Rattle.model.specs.Star.{Star, subdivisions};
ghost use Rattle.model.specs.Mesh.{regular_edge, fill_to};
ghost use Rattle.vertices.specs.Buffers.{lay_edges};
ghost use Rattle.codes.specs.Kinds.{use_at, InBlock, Placed, cell_of, RowCoded};
ghost use Rattle.cells.specs.Edges.{EdgePut};

use codes::{CellIndex, CellRows, makes};
use grid::voxel_blocks::in_block;
use model::{NO_EDGE, Xyz};
use tables::tables_wrapper::{voxel_a_index, voxel_b_index};
use vertices::{corner_point, vertex_count};

// 0, 1, 2 for x, y, z, from the two corners of an edge.
fn axis(a: usize, b: usize) -> usize
    ensures { (result ≡ (b - a) / 2) × (result ≤ b) }
{
    b.saturating_sub(a) / 2
}

fn regular_edge(n: usize, at: Xyz, code: u16) -> u32
    requires { (n ≤ most_subdivisions) × InBlock n at.x at.y at.z }
    ensures { result ≡ regular_edge n at.x at.y at.z code }
{
    let a = voxel_a_index(code);
    let low = corner_point(at, a);
    let place = in_block(n, low.x, low.y, low.z);
    (3 * place + axis(a, voxel_b_index(code))) as u32
}

fn edge_number(n: usize, at: CellIndex, code: u16) -> u32
    requires { (n ≤ most_subdivisions) × Placed n at }
    ensures { (s : Star) → subdivisions s ≡ n → result ≡ (use_at s at code).made.edge }
{
    match at {
        CellIndex::Regular(cell) => regular_edge(n, cell, code),
        CellIndex::Transition(_) => NO_EDGE,
    }
}

// The edge of one vertex, if the code makes one. Answers the index of the next one that is made. The place is tested and then written: with
// get_mut the proof did not close, since it knows no element that is written so.
fn put_edge(n: usize, at: CellIndex, code: u16, edges: &mut [u32], next: usize) -> usize
    requires { (n ≤ most_subdivisions) × (Placed n at × (next < 2 ^ 33)) }
    ensures { (result ≤ next + 1) × ((s : Star) → subdivisions s ≡ n → EdgePut (use_at s at code) next edges.old result edges.new) }
{
    if !makes(at, code) {
        return next;
    }
    if next < edges.len() {
        edges[next] = edge_number(n, at, code);
    }
    next + 1
}

// The edges of a cell's vertices, after base others.
pub fn put_edges(n: usize, cell: &CellRows<'_>, edges: &mut [u32], base: usize)
    requires n_le_most_subdivisions { (n ≤ most_subdivisions) × (Placed n cell.now.at × (base < 2 ^ 32)) }
    requires row_coded { RowCoded cell.now.at cell.now.codes.now cell.now.row.now }
    ensures { (s : Star) (turned : Bool) (store : List ℕ) → subdivisions s ≡ n → edges.new ≡ lay_edges edges.old base (fill_to (cell_of s cell.now.at cell.now.codes.now cell.now.row.now turned) base store (vertices_of cell.now.row.now)).made }
{
    if edges.len() <= base {
        return;
    }
    let count = vertex_count(cell.row);
    let codes = &cell.codes[..count];
    let mut next = base;
    for &code in codes {
        next = put_edge(n, cell.at, code, edges, next);
    }
}
