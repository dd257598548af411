// A sheet's cells by their case numbers, written or counted. What the tables and a cell's place are for each kind stands here alone.
ghost use Rattle.std.specs.Prelude.{◌≡◌, ◌+◌, ◌≤◌, ◌<◌, length, get_or};
ghost use Rattle.model.specs.Star.{Star};
ghost use Rattle.model.specs.Mesh.{store_length, fill_to};
ghost use Rattle.model.specs.Lists.{SameLists};
ghost use Rattle.points.specs.Grids.{subdivisions_of, star_of};
ghost use Rattle.codes.specs.Kinds.{Ready};
ghost use Rattle.vertices.specs.Buffers.{lay_edges};
ghost use Rattle.vertices.specs.Puts.{Room};
ghost use Rattle.cells.specs.Puts.{ReadSoFar, CellPut, Adds, Few};
ghost use Rattle.cells.specs.SheetCells.{cell_at, all_of, case_at, sheet_cell, away_from_low};
ghost use Rattle.cells.specs.LentSheets.{numbers_of, HasTables, RowsOf};

use crate::cell::{count_cell, write_cell};
use crate::triangles::triangle_count;
use crate::{Progress, SheetIndex};
use codes::{CellIndex, CellRows, count_made_inside};
use model::{Buffers, Counts, FacePoint, Xyz};
use points::fractions::Grid;
use tables::{
    regular_case_cell, regular_case_codes, transition_case_cell, transition_case_codes,
    transition_turned,
};

// The tables of one kind of cell: each case's class, each class's cell data, and each case's vertex codes.
#[derive(Clone, Copy)]
pub struct LentTables<'a> {
    pub classes: &'a [u8],
    pub cells: &'a [u8],
    pub codes: &'a [u16],
}

// A sheet's case numbers: a layer has them in a byte, a side in two.
#[derive(Clone, Copy)]
pub enum CaseNumbers<'a> {
    Bytes(&'a [u8]),
    Words(&'a [u16]),
}

// A sheet as it is lent: its kind's tables, its cells' case numbers, and the marks of those that are cut.
#[derive(Clone, Copy)]
pub struct LentSheet<'a> {
    pub index: SheetIndex,
    pub tables: LentTables<'a>,
    pub numbers: CaseNumbers<'a>,
    pub marks: &'a [u8],
}

// Apart from its one call: of a slice that an enum holds no proof knows that twice an index fits.
fn word_at(words: &[u16], i: usize) -> usize
    requires { i < length words.now }
    ensures { result ≡ get_or words.now i 0 }
{
    usize::from(words[i])
}

pub fn number_at(sheet: &LentSheet<'_>, i: usize) -> usize
    requires { i < length (numbers_of sheet.now) }
    ensures { result ≡ get_or (numbers_of sheet.now) i 0 }
{
    match sheet.numbers {
        CaseNumbers::Bytes(numbers) => usize::from(numbers[i]),
        CaseNumbers::Words(numbers) => word_at(numbers, i),
    }
}

// The cell in row u, at v, by its case.
fn sheet_rows<'a>(sheet: &LentSheet<'a>, case: usize, u: usize, v: usize) -> CellRows<'a>
    requires tables { HasTables sheet.now }
    requires case_bound { case ≤ all_of sheet.now.index }
    ensures { RowsOf sheet.now.index case u v result }
{
    let tables = sheet.tables;
    match sheet.index {
        SheetIndex::Layer(x) => CellRows {
            at: CellIndex::Regular(Xyz { x, y: u, z: v }),
            codes: regular_case_codes(tables.codes, case),
            row: regular_case_cell(tables.classes, tables.cells, case),
            turned: false,
        },
        SheetIndex::Side(side) => CellRows {
            at: CellIndex::Transition(FacePoint { side, u, v }),
            codes: transition_case_codes(tables.codes, case),
            row: transition_case_cell(tables.classes, tables.cells, case),
            turned: transition_turned(tables.classes, case),
        },
    }
}

// The cell in row u, at v, after so many vertices and triangles.
#[inline(always)]
pub fn write_sheet_cell(
    grid: &Grid<'_>,
    sheet: &LentSheet<'_>,
    case: usize,
    u: usize,
    v: usize,
    counts: Progress,
    out: &mut Buffers<'_>,
) -> Progress
    requires tables { HasTables sheet.now }
    requires ready { Ready (star_of grid.now) grid.now.fractions (cell_at sheet.now.index u v) }
    requires case_value { case ≡ case_at (star_of grid.now) sheet.now.index u v }
    requires store_len { length out.old.store.now ≡ store_length (subdivisions_of grid.now) }
    requires room { Room 6 (counts.vertices + length (fill_to (sheet_cell (star_of grid.now) sheet.now.index u v) counts.vertices out.old.store.now (sheet_cell (star_of grid.now) sheet.now.index u v).vertices).made) out.old.vertices.now }
    requires room_2 { Room 3 (counts.triangles + (sheet_cell (star_of grid.now) sheet.now.index u v).triangles) out.old.triangles.now × ReadSoFar counts }
    ensures cell_put { CellPut (sheet_cell (star_of grid.now) sheet.now.index u v) counts.vertices counts.triangles out.old.vertices.now out.old.triangles.now out.old.store.now result.vertices result.triangles result.reads out.new.vertices.now out.new.triangles.now out.new.store.now }
    ensures edges { out.new.edges.now ≡ lay_edges out.old.edges.now counts.vertices (fill_to (sheet_cell (star_of grid.now) sheet.now.index u v) counts.vertices out.old.store.now (sheet_cell (star_of grid.now) sheet.now.index u v).vertices).made }
    ensures same { SameLists out.old out.new }
{
    write_cell(grid, &sheet_rows(sheet, case, u, v), counts, out)
}

// Whether it is a regular cell that touches no low face of the block.
fn is_away_from_low(at: CellIndex) -> bool
    ensures { result ≡ away_from_low at }
{
    match at {
        CellIndex::Regular(cell) => (0 < cell.x) & ((0 < cell.y) & (0 < cell.z)),
        CellIndex::Transition(_) => false,
    }
}

// What the cell in row u, at v, adds.
pub fn count_sheet_cell(sheet: &LentSheet<'_>, case: usize, u: usize, v: usize) -> Counts
    requires tables { HasTables sheet.now }
    requires case_bound { case ≤ all_of sheet.now.index }
    ensures few { Few 1 result }
    ensures adds { (s : Star) → case ≡ case_at s sheet.now.index u v → Adds (sheet_cell s sheet.now.index u v) result.vertices result.triangles }
{
    let rows = sheet_rows(sheet, case, u, v);
    if is_away_from_low(rows.at) {
        return Counts {
            vertices: count_made_inside(case),
            triangles: triangle_count(rows.row),
        };
    }
    count_cell(&rows)
}
