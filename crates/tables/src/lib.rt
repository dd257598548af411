// The Transvoxel tables of tools/tables: set down from knowledge of the published ones, and not yet compared with that file
// (docs/DIFFERENCES.md). One function hands out each array, to be called once, high up, and lent down from there; a row of a lent
// array, by case number, is lent on. Rules T1 to T6 over the tables stand in specs/ and proofs/.
#![tactic(auto)]

ghost use Rattle.std.specs.Prelude.{◌≡◌, ◌+◌, ◌*◌, ◌%◌, ◌<◌, ◌≤◌, length, take, drop};
ghost use Rattle.tables.specs.Arrays.{regular_cell_class, regular_cell_data, regular_vertex_data};
ghost use Rattle.tables.specs.Arrays.{transition_cell_class, transition_cell_data, transition_vertex_data};
ghost use Rattle.tables.specs.Cases.{regular_class, regular_codes, regular_cell};
ghost use Rattle.tables.specs.Cases.{transition_class, transition_codes, transition_cell, transition_turned};

pub mod aux_tables;
mod regular_cells;
mod regular_classes;
mod regular_codes;
pub mod tables_wrapper;
mod transition_cells;
mod transition_classes;
mod transition_codes;

use regular_cells::REGULAR_CELL_DATA;
use regular_classes::REGULAR_CELL_CLASS;
use regular_codes::REGULAR_VERTEX_DATA;
use transition_cells::TRANSITION_CELL_DATA;
use transition_classes::TRANSITION_CELL_CLASS;
use transition_codes::TRANSITION_VERTEX_DATA;

// How long the rows are: of a case's vertex codes, and of a class's cell data of each kind.
const CODES: usize = 12;

const REGULAR_CELL: usize = 16;

const TRANSITION_CELL: usize = 37;

pub fn regular_cell_class() -> [u8; 256]
    ensures { result ≡ regular_cell_class }
{
    REGULAR_CELL_CLASS
}

pub fn regular_cell_data() -> [u8; 256]
    ensures { result ≡ regular_cell_data }
{
    REGULAR_CELL_DATA
}

pub fn regular_vertex_data() -> [u16; 3072]
    ensures { result ≡ regular_vertex_data }
{
    REGULAR_VERTEX_DATA
}

pub fn transition_cell_class() -> [u8; 512]
    ensures { result ≡ transition_cell_class }
{
    TRANSITION_CELL_CLASS
}

pub fn transition_cell_data() -> [u8; 2072]
    ensures { result ≡ transition_cell_data }
{
    TRANSITION_CELL_DATA
}

pub fn transition_vertex_data() -> [u16; 6144]
    ensures { result ≡ transition_vertex_data }
{
    TRANSITION_VERTEX_DATA
}

// A row of an array whose rows lie end to end.
fn row_of<T>(rows: &[T], row: usize, width: usize) -> &[T]
    requires { row * width + width ≤ length rows.now }
    ensures { result.now ≡ take width (drop (row * width) rows.now) }
{
    let from = row * width;
    &rows[from..from + width]
}

// ---- regular cells: rows of the lent arrays

// The case's row of vertex codes.
pub fn regular_case_codes(codes: &[u16], case: usize) -> &[u16]
    requires { (codes.now ≡ regular_vertex_data) × (case < 256) }
    ensures { result.now ≡ regular_codes case }
{
    row_of(codes, case, CODES)
}

fn regular_class(classes: &[u8], case: usize) -> usize
    requires { (classes.now ≡ regular_cell_class) × (case < 256) }
    ensures { (result ≡ regular_class case) × (result < 16) }
{
    usize::from(classes[case])
}

// The row of cell data that the case's class picks.
pub fn regular_case_cell<'a>(classes: &[u8], cells: &'a [u8], case: usize) -> &'a [u8]
    requires { (classes.now ≡ regular_cell_class) × (cells.now ≡ regular_cell_data) × (case < 256) }
    ensures { result.now ≡ regular_cell case }
{
    let row = regular_class(classes, case);
    row_of(cells, row, REGULAR_CELL)
}

// ---- transition cells: rows of the lent arrays. What they share with the regular ones is row_of: each clause names the tables of its kind.

// The case's row of vertex codes.
pub fn transition_case_codes(codes: &[u16], case: usize) -> &[u16]
    requires { (codes.now ≡ transition_vertex_data) × (case < 512) }
    ensures { result.now ≡ transition_codes case }
{
    row_of(codes, case, CODES)
}

// The class without the bit for the winding.
fn transition_class(classes: &[u8], case: usize) -> usize
    requires { (classes.now ≡ transition_cell_class) × (case < 512) }
    ensures { (result ≡ transition_class case % 128) × (result < 56) }
{
    usize::from(classes[case] % 128)
}

// The row of cell data that the case's class picks.
pub fn transition_case_cell<'a>(classes: &[u8], cells: &'a [u8], case: usize) -> &'a [u8]
    requires { (classes.now ≡ transition_cell_class) × (cells.now ≡ transition_cell_data) × (case < 512) }
    ensures { result.now ≡ transition_cell case }
{
    let row = transition_class(classes, case);
    row_of(cells, row, TRANSITION_CELL)
}

// Whether a triangle's corners go out 3, 2, 1.
pub fn transition_turned(classes: &[u8], case: usize) -> bool
    requires { (classes.now ≡ transition_cell_class) × (case < 512) }
    ensures { result ≡ transition_turned case }
{
    0x80 <= classes[case]
}
