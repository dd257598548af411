// A cell's triangles, from its class's row of cell data and the indices of its vertices. Both kinds of cell have such a row.
ghost use Rattle.std.specs.Prelude.{◌≡◌, [], ◌∷◌, ◌+◌, ◌*◌, ◌≤◌, ◌<◌, length, get_or};
ghost use Rattle.tables.specs.Cases.{triangles_of, corner_of};
ghost use Rattle.laws.specs.Steps.{listed};
ghost use Rattle.vertices.specs.Buffers.{lay_triangles};
ghost use Rattle.vertices.specs.Puts.{Room};
ghost use Rattle.cells.specs.Rows.{Followed, row_triangle};

use codes::CellRows;
use model::{CellVertices, Triangle};

pub fn triangle_count(row: &[u8]) -> usize
    requires { 0 < length row.now }
    ensures { result ≡ triangles_of row.now }
{
    usize::from(row[0]) % 16
}

// The index of the vertex that stands at corner j.
fn corner_index(row: &[u8], vertices: &CellVertices, j: usize) -> u32
    requires followed { Followed row.now }
    requires j_bound { j < 3 * triangles_of row.now }
    ensures { result ≡ get_or vertices.now.index (corner_of row.now j) 0 }
{
    vertices.index[usize::from(row[j + 1])]
}

fn triangle(row: &[u8], turned: bool, vertices: &CellVertices, t: usize) -> Triangle
    requires followed { Followed row.now }
    requires t_bound { t < triangles_of row.now }
    ensures { result ≡ row_triangle row.now turned vertices.now.index t }
{
    let a = corner_index(row, vertices, 3 * t);
    let b = corner_index(row, vertices, 3 * t + 1);
    let c = corner_index(row, vertices, 3 * t + 2);
    if turned {
        return Triangle { a: c, b: b, c: a };
    }
    Triangle { a: a, b: b, c: c }
}

// One triangle into its place of a lent buffer: three stores, since an array copied over goes by the stack, and takes longer.
fn put_triangle(triangles: &mut [u32], at: usize, triangle: Triangle)
    requires { 3 * (at + 1) ≤ length triangles.old }
    ensures { triangles.new ≡ lay_triangles triangles.old at (triangle ∷ []) }
{
    let i = 3 * at;
    triangles[i] = triangle.a;
    triangles[i + 1] = triangle.b;
    triangles[i + 2] = triangle.c;
}

// By number: the row's threes begin at 1 and the buffer's at base, and both lists go on past the last one, so two walks by threes that are
// cut to size are no plainer.
pub fn put_triangles(
    cell: &CellRows<'_>,
    vertices: &CellVertices,
    triangles: &mut [u32],
    base: usize,
) -> usize
    requires followed { Followed cell.now.row.now }
    requires room { Room 3 (base + triangles_of cell.now.row.now) triangles.old }
    ensures value { result ≡ base + triangles_of cell.now.row.now }
    ensures triangles_after { triangles.new ≡ lay_triangles triangles.old base (listed (row_triangle cell.now.row.now cell.now.turned vertices.now.index) (triangles_of cell.now.row.now)) }
{
    let count = triangle_count(cell.row);
    for t in 0..count {
        let made = triangle(cell.row, cell.turned, vertices, t);
        put_triangle(triangles, base + t, made);
    }
    base + count
}
