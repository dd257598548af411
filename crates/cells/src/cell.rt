// A cell of either kind, written or counted, from where it lies and its rows.
ghost use Rattle.std.specs.Prelude.{◌≡◌, Bool, ◌+◌, length};
ghost use Rattle.tables.specs.Cases.{vertices_of, triangles_of};
ghost use Rattle.model.specs.Star.{Star};
ghost use Rattle.model.specs.Mesh.{store_length, fill_to};
ghost use Rattle.model.specs.Lists.{SameLists};
ghost use Rattle.points.specs.Grids.{subdivisions_of, star_of};
ghost use Rattle.vertices.specs.Buffers.{lay_edges};
ghost use Rattle.vertices.specs.Puts.{Room};
ghost use Rattle.cells.specs.Puts.{ReadSoFar, CellPut, Adds, Few};
ghost use Rattle.cells.specs.Rows.{Followed};
ghost use Rattle.codes.specs.Kinds.{Ready, Coded, cell_of};
ghost use Rattle.codes.specs.Rows.{rows_cell};

use crate::Progress;
use crate::edges::put_edges;
use crate::triangles::{put_triangles, triangle_count};
use codes::{CellRows, count_made};
use model::{Buffers, CellVertices, Counts};
use points::fractions::Grid;
use vertices::{fill_cell, vertex_count};

#[inline(always)]
pub fn write_cell(
    grid: &Grid<'_>,
    cell: &CellRows<'_>,
    counts: Progress,
    out: &mut Buffers<'_>,
) -> Progress
    requires ready { Ready (star_of grid.now) grid.now.fractions cell.now.at }
    requires coded { Coded cell.now.at cell.now.codes.now (vertices_of cell.now.row.now) × Followed cell.now.row.now }
    requires store_len { length out.old.store.now ≡ store_length (subdivisions_of grid.now) }
    requires room { Room 6 (counts.vertices + length (fill_to (rows_cell (star_of grid.now) cell.now) counts.vertices out.old.store.now (vertices_of cell.now.row.now)).made) out.old.vertices.now }
    requires room_2 { Room 3 (counts.triangles + triangles_of cell.now.row.now) out.old.triangles.now × ReadSoFar counts }
    ensures cell_put { CellPut (rows_cell (star_of grid.now) cell.now) counts.vertices counts.triangles out.old.vertices.now out.old.triangles.now out.old.store.now result.vertices result.triangles result.reads out.new.vertices.now out.new.triangles.now out.new.store.now }
    ensures edges { out.new.edges.now ≡ lay_edges out.old.edges.now counts.vertices (fill_to (rows_cell (star_of grid.now) cell.now) counts.vertices out.old.store.now (vertices_of cell.now.row.now)).made }
    ensures same { SameLists out.old out.new }
{
    let base = counts.vertices;
    let mut made = CellVertices {
        index: [0; 12],
        count: 0,
    };
    let filled = fill_cell(grid, cell, &mut made, out.store, out.vertices, base);
    put_edges(grid.lent.header.block.subdivisions, cell, out.edges, base);
    let triangles = put_triangles(cell, &made, out.triangles, counts.triangles);
    Progress {
        vertices: filled.next,
        triangles,
        reads: counts.reads + filled.reads,
    }
}

pub fn count_cell(cell: &CellRows<'_>) -> Counts
    requires { Coded cell.now.at cell.now.codes.now (vertices_of cell.now.row.now) × Followed cell.now.row.now }
    ensures few { Few 1 result }
    ensures adds { (s : Star) (turned : Bool) → Adds (cell_of s cell.now.at cell.now.codes.now cell.now.row.now turned) result.vertices result.triangles }
{
    let count = vertex_count(cell.row);
    Counts {
        vertices: count_made(cell.at, cell.codes, count),
        triangles: triangle_count(cell.row),
    }
}
