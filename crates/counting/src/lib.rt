// The counting pass: how many vertices and triangles the cells make. It writes nothing that was lent, so that 10 is answered before
// anything is touched. Each kind of cell has a loop over its sheets; that over a sheet's cells that are cut serves both.
#![tactic(auto)]

ghost use Rattle.std.specs.Prelude.{◌≡◌, List, [], ◌+◌, ◌*◌, ◌<◌, ◌≤◌, Float, length};
ghost use Rattle.laws.specs.Steps.{iterate};
ghost use Rattle.model.specs.Limits.{most_subdivisions, side_count};
ghost use Rattle.model.specs.Samples.{sample_length};
ghost use Rattle.model.specs.Star.{Star, star, lent_star, subdivisions};
ghost use Rattle.model.specs.Mesh.{regular_layer, transition_side, mesh_of};
ghost use Rattle.grid.specs.Shape.{Shaped};
ghost use Rattle.cases.specs.Sheets.{sheet_places};
ghost use Rattle.cases.specs.Pairs.{point_bit, Upper};
ghost use Rattle.cells.specs.Puts.{Few};
ghost use Rattle.cells.specs.SheetCells.{sheet_cell};
ghost use Rattle.cells.specs.LentSheets.{HasTables};
ghost use Rattle.layers.specs.Over.{Trusted};
ghost use Rattle.walk.specs.Order.{LentSheeted, LentHeld, SheetIn, row_to, whole_sheet};
ghost use Rattle.counting.specs.Counting.{most_cells, paired_bits, SidesThere, Grows, Counted};

use cases::SHEET;
use cases::cut_cells::cut_cells;
use cases::transition::face_cases;
use cells::SheetIndex;
use cells::sheet_cells::{CaseNumbers, LentSheet, LentTables, count_sheet_cell, number_at};
use grid::named_sides::named_sides;
use layers::layers_left::layers_left;
use model::{Counts, Header, Lent, NO_COUNTS};
use pairs::{layer_cases, pair_layer};
use tables::{
    regular_cell_class, regular_cell_data, regular_vertex_data, transition_cell_class,
    transition_cell_data, transition_vertex_data,
};

// The cells of a row of a sheet.
#[inline(always)]
fn count_row(n: usize, sheet: &LentSheet<'_>, u: usize) -> Counts
    requires tables { HasTables sheet.now }
    requires u_lt_n { (u < n) × LentSheeted n sheet.now }
    ensures few { Few n result }
    ensures grows { (s : Star) → LentHeld s n sheet.now → Grows (row_to (sheet_cell s sheet.now.index u) n) result }
{
    let start = (n + 1) * u;
    let mut counts = NO_COUNTS;
    for v in cut_cells(n, sheet.marks, start) {
        let more = count_sheet_cell(sheet, number_at(sheet, start + v), u, v);
        counts = counts + more;
    }
    counts
}

// The cells of a sheet. It and the row's are laid into their callers, where the kind of the cells is known.
#[inline(always)]
pub fn count_sheet(n: usize, sheet: &LentSheet<'_>) -> Counts
    requires tables { HasTables sheet.now }
    requires sheeted { LentSheeted n sheet.now }
    ensures few { Few sheet_places result }
    ensures grows { (s : Star) → subdivisions s ≡ n → SheetIn s sheet.now.index → LentHeld s n sheet.now → Grows (whole_sheet s sheet.now.index) result }
{
    let mut counts = NO_COUNTS;
    for u in 0..n {
        counts = counts + count_row(n, sheet, u);
    }
    counts
}

// The points at x as the second of each pair, where those of another plane, or none yet, may be that.
fn pair_at(header: Header, centre: &[f32], paired: Option<usize>, x: usize, pairs: &mut [u8; SHEET])
    requires subdivisions_le_most_subdivisions { (header.block.subdivisions ≤ most_subdivisions) × (length centre.now ≡ sample_length header.block.subdivisions) }
    requires x_le_subdivisions { x ≤ header.block.subdivisions }
    requires upper { Upper header.block.subdivisions (paired_bits (star header centre.now []) paired) pairs.old }
    ensures { Upper header.block.subdivisions (point_bit (star header centre.now []) x) pairs.new }
{
    if paired == Some(x) {
        return;
    }
    pair_layer(header, centre, x, pairs);
}

fn count_regular_cells(header: Header, centre: &[f32], summary: &[f32]) -> Counts
    requires subdivisions_le_most_subdivisions { (header.block.subdivisions ≤ most_subdivisions) × (length centre.now ≡ sample_length header.block.subdivisions) }
    requires trusted { Trusted header.block.subdivisions centre.now summary.now }
    ensures few { Few (sheet_places * most_subdivisions) result }
    ensures grows { (ns : List Float) → Grows (iterate (regular_layer (star header centre.now ns)) header.block.subdivisions) result }
{
    let n = header.block.subdivisions;
    // The tables must live where they are lent: a function that fetched them could not give them out as LentTables.
    let classes = regular_cell_class();
    let cells = regular_cell_data();
    let codes = regular_vertex_data();
    let tables = LentTables {
        classes: &classes,
        cells: &cells,
        codes: &codes,
    };
    let mut pairs = [0u8; SHEET];
    let mut cases = [0u8; SHEET];
    let mut marks = [0u8; SHEET];
    let mut counts = NO_COUNTS;
    let mut paired = None;
    for x in layers_left(n, header.threshold, summary) {
        pair_at(header, centre, paired, x, &mut pairs);
        layer_cases(header, centre, x, &mut pairs, &mut cases, &mut marks);
        let sheet = LentSheet {
            index: SheetIndex::Layer(x),
            tables,
            numbers: CaseNumbers::Bytes(&cases),
            marks: &marks,
        };
        let more = count_sheet(n, &sheet);
        counts = counts + more;
        paired = Some(x + 1);
    }
    counts
}

fn count_named_sides(header: Header, neighbours: &[f32]) -> Counts
    requires { SidesThere header neighbours.now }
    ensures few { Few (sheet_places * side_count) result }
    ensures grows { (centre : List Float) → Grows (iterate (transition_side (star header centre neighbours.now)) side_count) result }
{
    let n = header.block.subdivisions;
    let classes = transition_cell_class();
    let cells = transition_cell_data();
    let codes = transition_vertex_data();
    let tables = LentTables {
        classes: &classes,
        cells: &cells,
        codes: &codes,
    };
    let mut cases = [0u16; SHEET];
    let mut marks = [0u8; SHEET];
    let mut counts = NO_COUNTS;
    for side in named_sides(header.mask) {
        face_cases(header, neighbours, side, &mut cases, &mut marks);
        let sheet = LentSheet {
            index: SheetIndex::Side(side),
            tables,
            numbers: CaseNumbers::Words(&cases),
            marks: &marks,
        };
        let more = count_sheet(n, &sheet);
        counts = counts + more;
    }
    counts
}

// The transition tables are fetched only where there is a finer neighbour.
fn count_transition_cells(header: Header, neighbours: &[f32]) -> Counts
    requires { SidesThere header neighbours.now }
    ensures few { Few (sheet_places * side_count) result }
    ensures grows { (centre : List Float) → Grows (iterate (transition_side (star header centre neighbours.now)) side_count) result }
{
    if header.mask == 0 {
        return NO_COUNTS;
    }
    count_named_sides(header, neighbours)
}

pub fn count_mesh(lent: &Lent<'_>, summary: &[f32]) -> Counts
    requires shaped { Shaped (lent_star lent.now) }
    requires trusted { Trusted lent.now.header.block.subdivisions lent.now.centre.now summary.now }
    ensures { Few most_cells result × Counted (mesh_of (lent_star lent.now)) result }
{
    let regular = count_regular_cells(lent.header, lent.centre, summary);
    let transition = count_transition_cells(lent.header, lent.neighbours);
    regular + transition
}
