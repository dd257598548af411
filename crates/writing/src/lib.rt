// The writing pass: the mesh into the lent buffers, cell by cell in document 01's order. Each kind of cell has a loop over its
// sheets; that over a sheet's cells that are cut serves both.
#![tactic(auto)]

ghost use Rattle.std.specs.Prelude.{◌≡◌, ◌+◌, ◌*◌, ◌≤◌, ◌<◌, length, replicate};
ghost use Rattle.laws.specs.Steps.{total};
ghost use Rattle.model.specs.Limits.{most_subdivisions, side_count};
ghost use Rattle.model.specs.Star.{lent_star};
ghost use Rattle.model.specs.Lists.{SameLists};
ghost use Rattle.model.specs.Mesh.{store_length, regular_mesh, mesh_of};
ghost use Rattle.model.specs.Reads.{side_reads};
ghost use Rattle.model.specs.Layered.{layered_mesh};
ghost use Rattle.model.specs.LayeredReads.{layer_reads};
ghost use Rattle.grid.specs.Shape.{Shaped};
ghost use Rattle.points.specs.Grids.{subdivisions_of, star_of};
ghost use Rattle.cells.specs.LentSheets.{HasTables};
ghost use Rattle.cases.specs.Sheets.{most_sheet_reads};
ghost use Rattle.layers.specs.Over.{Trusted};
ghost use Rattle.walk.specs.Order.{LentSheeted, LentHeld, SheetIn, row_before, sheet_before, sheet_after};
ghost use Rattle.writing.specs.Writing.{FitsIn, HoldsIn, KeptLengths, ReadTo, most_sheets, Exact, Written, Numbered};

use cases::SHEET;
use cases::cut_cells::cut_cells;
use cases::transition::face_cases;
use cells::sheet_cells::{CaseNumbers, LentSheet, LentTables, number_at, write_sheet_cell};
use cells::{Progress, SheetIndex};
use grid::named_sides::named_sides;
use layers::layers_left::layers_left;
use model::{Buffers, Lent};
use points::fractions::Grid;
use regular::layer_cases;
use tables::{
    regular_cell_class, regular_cell_data, regular_vertex_data, transition_cell_class,
    transition_cell_data, transition_vertex_data,
};

const NOTHING: Progress = Progress {
    vertices: 0,
    triangles: 0,
    reads: 0,
};

// What is written, and the samples that case numbers have read beside those of the vertices.
#[derive(Clone, Copy)]
struct Pass {
    counts: Progress,
    reads: u64,
}

// The cells of a row of a sheet.
#[inline(always)]
fn write_row(
    grid: &Grid<'_>,
    sheet: &LentSheet<'_>,
    u: usize,
    mut counts: Progress,
    out: &mut Buffers<'_>,
) -> Progress
    requires tables { HasTables sheet.now }
    requires shaped { Shaped (star_of grid.now) }
    requires sheeted { LentSheeted (subdivisions_of grid.now) sheet.now × LentHeld (star_of grid.now) (subdivisions_of grid.now) sheet.now }
    requires sheet_in { SheetIn (star_of grid.now) sheet.now.index }
    requires fits { FitsIn (star_of grid.now) out.old }
    requires u_lt_subdivisions { (u < subdivisions_of grid.now) × HoldsIn (row_before (star_of grid.now) sheet.now.index u) counts out.old }
    ensures holds { HoldsIn (row_before (star_of grid.now) sheet.now.index (u + 1)) result out.new }
    ensures kept { KeptLengths out.old out.new }
    ensures same { SameLists out.old out.new }
{
    let n = grid.lent.header.block.subdivisions;
    let start = (n + 1) * u;
    for v in cut_cells(n, sheet.marks, start) {
        counts = write_sheet_cell(grid, sheet, number_at(sheet, start + v), u, v, counts, out);
    }
    counts
}

// The cells of a sheet. It, and what it calls down to the vertex of a code, are laid into their callers, where the kind of the cells is known:
// lent a sheet as a struct, the compiler does not part the two kinds by itself.
#[inline(always)]
fn write_sheet(
    grid: &Grid<'_>,
    sheet: &LentSheet<'_>,
    mut counts: Progress,
    out: &mut Buffers<'_>,
) -> Progress
    requires tables { HasTables sheet.now }
    requires shaped { Shaped (star_of grid.now) }
    requires sheeted { LentSheeted (subdivisions_of grid.now) sheet.now × LentHeld (star_of grid.now) (subdivisions_of grid.now) sheet.now }
    requires sheet_in { SheetIn (star_of grid.now) sheet.now.index }
    requires fits { FitsIn (star_of grid.now) out.old }
    requires holds { HoldsIn (sheet_before (star_of grid.now) sheet.now.index) counts out.old }
    ensures holds { HoldsIn (sheet_after (star_of grid.now) sheet.now.index) result out.new }
    ensures kept { KeptLengths out.old out.new }
    ensures same { SameLists out.old out.new }
{
    for u in 0..grid.lent.header.block.subdivisions {
        counts = write_row(grid, sheet, u, counts, out);
    }
    counts
}

fn write_regular_cells(grid: &Grid<'_>, summary: &[f32], out: &mut Buffers<'_>) -> Pass
    requires shaped { Shaped (star_of grid.now) }
    requires trusted { Trusted (subdivisions_of grid.now) grid.now.lent.centre.now summary.now }
    requires fits { FitsIn (star_of grid.now) out.old }
    requires store_value { out.old.store.now ≡ replicate (store_length (subdivisions_of grid.now)) 0 }
    ensures holds { HoldsIn (regular_mesh (star_of grid.now)) result.counts out.new }
    ensures reads { ReadTo (total (layer_reads (star_of grid.now) summary.now) (subdivisions_of grid.now)) most_subdivisions result.reads }
    ensures kept { KeptLengths out.old out.new }
    ensures same { SameLists out.old out.new }
{
    let header = grid.lent.header;
    let n = header.block.subdivisions;
    let classes = regular_cell_class();
    let cells = regular_cell_data();
    let codes = regular_vertex_data();
    let tables = LentTables {
        classes: &classes,
        cells: &cells,
        codes: &codes,
    };
    let mut cases = [0u8; SHEET];
    let mut marks = [0u8; SHEET];
    let mut counts = NOTHING;
    let mut reads: u64 = 0;
    for x in layers_left(n, header.threshold, summary) {
        reads += layer_cases(header, grid.lent.centre, x, &mut cases, &mut marks);
        let sheet = LentSheet {
            index: SheetIndex::Layer(x),
            tables,
            numbers: CaseNumbers::Bytes(&cases),
            marks: &marks,
        };
        counts = write_sheet(grid, &sheet, counts, out);
    }
    Pass { counts, reads }
}

fn write_named_sides(grid: &Grid<'_>, before: Pass, out: &mut Buffers<'_>) -> Pass
    requires shaped { Shaped (star_of grid.now) }
    requires fits { FitsIn (star_of grid.now) out.old }
    requires holds { HoldsIn (regular_mesh (star_of grid.now)) before.counts out.old }
    requires reads_bound { before.reads ≤ most_sheet_reads * most_subdivisions }
    ensures holds_2 { HoldsIn (mesh_of (star_of grid.now)) result.counts out.new }
    ensures reads { ReadTo (before.reads + total (side_reads (star_of grid.now)) side_count) most_sheets result.reads }
    ensures kept { KeptLengths out.old out.new }
    ensures same { SameLists out.old out.new }
{
    let lent = grid.lent;
    let classes = transition_cell_class();
    let cells = transition_cell_data();
    let codes = transition_vertex_data();
    let tables = LentTables {
        classes: &classes,
        cells: &cells,
        codes: &codes,
    };
    let mut cases = [0u16; SHEET];
    let mut marks = [0u8; SHEET];
    let Pass {
        mut counts,
        mut reads,
    } = before;
    for side in named_sides(lent.header.mask) {
        reads += face_cases(lent.header, lent.neighbours, side, &mut cases, &mut marks);
        let sheet = LentSheet {
            index: SheetIndex::Side(side),
            tables,
            numbers: CaseNumbers::Words(&cases),
            marks: &marks,
        };
        counts = write_sheet(grid, &sheet, counts, out);
    }
    Pass { counts, reads }
}

// The transition tables are fetched only where there is a finer neighbour.
fn write_transition_cells(grid: &Grid<'_>, before: Pass, out: &mut Buffers<'_>) -> Pass
    requires shaped { Shaped (star_of grid.now) }
    requires fits { FitsIn (star_of grid.now) out.old }
    requires holds { HoldsIn (regular_mesh (star_of grid.now)) before.counts out.old }
    requires reads_bound { before.reads ≤ most_sheet_reads * most_subdivisions }
    ensures holds_2 { HoldsIn (mesh_of (star_of grid.now)) result.counts out.new }
    ensures reads { ReadTo (before.reads + total (side_reads (star_of grid.now)) side_count) most_sheets result.reads }
    ensures kept { KeptLengths out.old out.new }
    ensures same { SameLists out.old out.new }
{
    if grid.lent.header.mask == 0 {
        return before;
    }
    write_named_sides(grid, before, out)
}

// Buffers of just the right lengths are filled. Answers the samples read.
pub fn write_mesh(lent: &Lent<'_>, summary: &[f32], out: &mut Buffers<'_>) -> u64
    requires shaped { Shaped (lent_star lent.now) }
    requires trusted { Trusted lent.now.header.block.subdivisions lent.now.centre.now summary.now }
    requires exact { Exact (lent_star lent.now) out.old.vertices.now out.old.triangles.now out.old.store.now }
    ensures written { Written (mesh_of (lent_star lent.now)) out.new.vertices.now out.new.triangles.now out.new.store.now }
    ensures reads { result ≡ (layered_mesh (lent_star lent.now) summary.now).reads }
    ensures edges { Numbered (mesh_of (lent_star lent.now)) out.new.edges.now }
    ensures kept { KeptLengths out.old out.new }
    ensures same { SameLists out.old out.new }
{
    out.store.fill(0);
    let grid = Grid::new(*lent);
    let regular = write_regular_cells(&grid, summary, out);
    let all = write_transition_cells(&grid, regular, out);
    all.reads + all.counts.reads
}
