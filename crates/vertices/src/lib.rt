// A cell's vertices: each is made and put into the buffer, or taken from the index store.
#![tactic(auto)]

ghost use Rattle.std.specs.Prelude.{◌≡◌, cond, List, [], ◌∷◌, ℕ, ◌+◌, ◌*◌, ◌≤◌, ◌<◌, Float, eqb, length};
ghost use Rattle.tables.specs.Codes.{is_new};
ghost use Rattle.tables.specs.Cases.{vertices_of};
ghost use Rattle.model.specs.Limits.{most_subdivisions};
ghost use Rattle.model.specs.Points.{corner_point};
ghost use Rattle.model.specs.Mesh.{store_length, made_by, fill_to, regular_vertex, transition_vertex};
ghost use Rattle.points.specs.Grids.{subdivisions_of, star_of, star_with};
ghost use Rattle.codes.specs.Kinds.{use_at, place_at, InBlock, Placed, slots, Ready, Usable, RowCoded};
ghost use Rattle.codes.specs.Rows.{rows_cell};
ghost use Rattle.vertices.specs.Buffers.{lay_vertices};
ghost use Rattle.vertices.specs.Inner.{between, inner_at, regular_at, Inner};
ghost use Rattle.vertices.specs.Puts.{Room, CodePut, FillPut};

use codes::{CellIndex, CellRows, back, makes, regular_back};
use grid::shared_vertex_indices::{regular_place, transition_place};
use grid::transition_sides::neighbour;
use model::{CellVertices, FacePoint, Vertex, Xyz};
use points::formulas::vertex_between;
use points::fractions::Grid;
use points::grid_point::{regular_vertex_between, transition_point, vertex_inside};
use tables::aux_tables::cell_point;
use tables::tables_wrapper::{new_vertex, reuse_index, voxel_a_index, voxel_b_index};

// The samples that a vertex reads when it is made: its two ends, and six for the gradient at each.
const VERTEX_READS: u64 = 14;

// A cell's vertex, the index of the next one that is made, and the samples read.
#[derive(Clone, Copy)]
struct Indexed {
    index: u32,
    next: usize,
    reads: u64,
}

// The index of the next vertex that is made, once a cell's are, and the samples read.
#[derive(Clone, Copy)]
pub struct Filled {
    pub next: usize,
    pub reads: u64,
}

// How many vertices a class's row of cell data tells.
pub fn vertex_count(row: &[u8]) -> usize
    requires { 0 < length row.now }
    ensures { result ≡ vertices_of row.now }
{
    usize::from(row[0]) / 16
}

// One vertex into its place of a lent buffer. The numbers of its grid edge are not written. An array copied over goes by the stack, and takes
// longer; so with a triangle.
fn put_vertex(vertices: &mut [f32], at: usize, vertex: Vertex)
    requires { 6 * (at + 1) ≤ length vertices.old }
    ensures { (edge : ℕ) → vertices.new ≡ lay_vertices vertices.old at (record { vertex = vertex; edge = edge } ∷ []) }
{
    let i = 6 * at;
    vertices[i] = vertex.position.x;
    vertices[i + 1] = vertex.position.y;
    vertices[i + 2] = vertex.position.z;
    vertices[i + 3] = vertex.gradient.x;
    vertices[i + 4] = vertex.gradient.y;
    vertices[i + 5] = vertex.gradient.z;
}

// The place of the index store for a reuse index.
fn place(n: usize, at: CellIndex, r: usize) -> usize
    requires { (n ≤ most_subdivisions) × (Placed n at × (r < slots at)) }
    ensures { (result ≡ place_at n at r) × (result < store_length n) }
{
    match at {
        CellIndex::Regular(cell) => regular_place(n, cell.x, cell.y, cell.z, r),
        CellIndex::Transition(cell) => transition_place(n, cell.side, cell.u, cell.v, r),
    }
}

pub fn corner_point(at: Xyz, k: usize) -> Xyz
    requires { InBlock most_subdivisions at.x at.y at.z }
    ensures { result ≡ corner_point at.x at.y at.z k }
{
    Xyz {
        x: at.x + k % 2,
        y: at.y + k / 2 % 2,
        z: at.z + k / 4 % 2,
    }
}

fn regular_vertex(grid: &Grid<'_>, at: Xyz, code: u16) -> Vertex
    requires in_block { InBlock (subdivisions_of grid.now) at.x at.y at.z }
    ensures { (ns : List Float) → result ≡ regular_vertex (star_with grid.now ns) at.x at.y at.z code }
{
    let a = corner_point(at, voxel_a_index(code));
    let b = corner_point(at, voxel_b_index(code));
    regular_vertex_between(grid, a, b)
}

fn transition_vertex(grid: &Grid<'_>, at: FacePoint, code: u16) -> Vertex
    requires ready { Ready (star_of grid.now) grid.now.fractions (CellIndex.Transition at) }
    requires usable { Usable (CellIndex.Transition at) code }
    ensures { result ≡ transition_vertex (star_of grid.now) at.side at.u at.v code }
{
    let lent = grid.lent;
    let header = lent.header;
    let fine = neighbour(
        header.block.subdivisions,
        header.mask,
        lent.neighbours,
        at.side,
    );
    let a = cell_point(voxel_a_index(code));
    let b = cell_point(voxel_b_index(code));
    vertex_between(
        header.threshold,
        transition_point(grid, fine, at, a),
        transition_point(grid, fine, at, b),
    )
}

fn vertex(grid: &Grid<'_>, at: CellIndex, code: u16) -> Vertex
    requires ready { Ready (star_of grid.now) grid.now.fractions at }
    requires usable { Usable at code }
    ensures { result ≡ (use_at (star_of grid.now) at code).made.vertex }
{
    match at {
        CellIndex::Regular(cell) => regular_vertex(grid, cell, code),
        CellIndex::Transition(cell) => transition_vertex(grid, cell, code),
    }
}

// New: make and store. Otherwise, if the steps asked for stay inside, take the stored index of that cell; if one does not, make a new
// vertex that is not stored. The two ways out with a vertex made are apart for speed: joined, a noisy block takes some three in a
// hundred longer.
#[inline(always)]
fn put_any(
    grid: &Grid<'_>,
    at: CellIndex,
    code: u16,
    store: &mut [u32],
    vertices: &mut [f32],
    next: usize,
) -> Indexed
    requires ready { Ready (star_of grid.now) grid.now.fractions at }
    requires usable { Usable at code }
    requires store_len { length store.old ≡ store_length (subdivisions_of grid.now) }
    requires room { Room 6 (next + length (made_by (use_at (star_of grid.now) at code))) vertices.old }
    ensures { CodePut (use_at (star_of grid.now) at code) next vertices.old store.old result.index result.next result.reads vertices.new store.new }
{
    let n = grid.lent.header.block.subdivisions;
    let r = reuse_index(code);
    let new = new_vertex(code);
    let made = makes(at, code);
    if made {
        put_vertex(vertices, next, vertex(grid, at, code));
        let index = next as u32;
        let after = next + 1;
        if new {
            let own = place(n, at, r);
            store[own] = index;
            return Indexed {
                index,
                next: after,
                reads: VERTEX_READS,
            };
        }
        return Indexed {
            index,
            next: after,
            reads: VERTEX_READS,
        };
    }
    let shared = place(n, back(at, code), r);
    let taken = store[shared];
    Indexed {
        index: taken,
        next,
        reads: 0,
    }
}

// The same shape as regular_vertex: the quick path for points that no block face touches.
fn inner_vertex(grid: &Grid<'_>, at: Xyz, code: u16) -> Vertex
    requires inner { Inner (subdivisions_of grid.now) at × Usable (CellIndex.Regular at) code }
    ensures { (ns : List Float) → result ≡ regular_vertex (star_with grid.now ns) at.x at.y at.z code }
{
    let a = corner_point(at, voxel_a_index(code));
    let b = corner_point(at, voxel_b_index(code));
    vertex_inside(grid, a, b)
}

// The same in a cell that touches no block face, where no step leaves the block.
#[inline(always)]
fn put_inner(
    grid: &Grid<'_>,
    at: Xyz,
    code: u16,
    store: &mut [u32],
    vertices: &mut [f32],
    next: usize,
) -> Indexed
    requires inner { Inner (subdivisions_of grid.now) at × Usable (CellIndex.Regular at) code }
    requires store_len { length store.old ≡ store_length (subdivisions_of grid.now) }
    requires room { Room 6 (next + cond (eqb (is_new code) 1) 1 0) vertices.old }
    ensures { (ns : List Float) → CodePut (use_at (star_with grid.now ns) (CellIndex.Regular at) code) next vertices.old store.old result.index result.next result.reads vertices.new store.new }
{
    let n = grid.lent.header.block.subdivisions;
    let r = reuse_index(code);
    if new_vertex(code) {
        put_vertex(vertices, next, inner_vertex(grid, at, code));
        let index = next as u32;
        let own = regular_place(n, at.x, at.y, at.z, r);
        store[own] = index;
        return Indexed {
            index,
            next: next + 1,
            reads: VERTEX_READS,
        };
    }
    let from = regular_back(at, code);
    let shared = regular_place(n, from.x, from.y, from.z, r);
    let taken = store[shared];
    Indexed {
        index: taken,
        next,
        reads: 0,
    }
}

// A regular cell that touches no block face.
fn inner_cell(n: usize, at: CellIndex) -> Option<Xyz>
    requires { (n ≤ most_subdivisions) × Placed n at }
    ensures { result ≡ cond (inner_at n at) (Some (regular_at at)) None }
{
    match at {
        CellIndex::Regular(cell) => {
            if is_between(n, cell.x) & (is_between(n, cell.y) & is_between(n, cell.z)) {
                Some(cell)
            } else {
                None
            }
        }
        CellIndex::Transition(_) => None,
    }
}

fn is_between(n: usize, c: usize) -> bool
    requires { c < most_subdivisions }
    ensures { result ≡ between n c }
{
    (0 < c) & (c + 1 < n)
}

// One vertex of a cell. Most cells touch no block face; what tells that is the same for all of a cell's codes, and is found once, before them.
#[inline(always)]
fn put_code(
    grid: &Grid<'_>,
    at: CellIndex,
    inner: Option<Xyz>,
    code: u16,
    store: &mut [u32],
    vertices: &mut [f32],
    next: usize,
) -> Indexed
    requires ready { Ready (star_of grid.now) grid.now.fractions at }
    requires inner { inner ≡ cond (inner_at (subdivisions_of grid.now) at) (Some (regular_at at)) None }
    requires usable { Usable at code }
    requires store_len { length store.old ≡ store_length (subdivisions_of grid.now) }
    requires room { Room 6 (next + length (made_by (use_at (star_of grid.now) at code))) vertices.old }
    ensures { CodePut (use_at (star_of grid.now) at code) next vertices.old store.old result.index result.next result.reads vertices.new store.new }
{
    match inner {
        Some(cell) => put_inner(grid, cell, code, store, vertices, next),
        None => put_any(grid, at, code, store, vertices, next),
    }
}

// The vertices of a cell, after base others. Their indices go into a lent struct: one that is returned is copied, and the copy waits for what
// was just stored.
#[inline(always)]
pub fn fill_cell(
    grid: &Grid<'_>,
    cell: &CellRows<'_>,
    made: &mut CellVertices,
    store: &mut [u32],
    vertices: &mut [f32],
    base: usize,
) -> Filled
    requires ready { Ready (star_of grid.now) grid.now.fractions cell.now.at }
    requires row_coded { RowCoded cell.now.at cell.now.codes.now cell.now.row.now }
    requires store_len { length store.old ≡ store_length (subdivisions_of grid.now) }
    requires room { Room 6 (base + length (fill_to (rows_cell (star_of grid.now) cell.now) base store.old (vertices_of cell.now.row.now)).made) vertices.old }
    ensures { FillPut (fill_to (rows_cell (star_of grid.now) cell.now) base store.old (vertices_of cell.now.row.now)) base vertices.old made.new.index made.new.count result.next result.reads vertices.new store.new }
{
    let count = vertex_count(cell.row);
    let codes = &cell.codes[..count];
    let inner = inner_cell(grid.lent.header.block.subdivisions, cell.at);
    let mut next = base;
    let mut reads: u64 = 0;
    made.index = [0; 12];
    made.count = 0;
    for (k, &code) in codes.iter().enumerate() {
        let put = put_code(grid, cell.at, inner, code, store, vertices, next);
        made.index[k] = put.index;
        made.count = k + 1;
        next = put.next;
        reads += put.reads;
    }
    Filled { next, reads }
}
