// The transition cells of a record, from its bytes: the three fine lines that a row of cells lies on are decoded at a time.
ghost use Rattle.std.specs.Prelude.{◌≡◌, [], ℕ, ◌+◌, ◌*◌, ◌≤◌, ◌<◌, length, get_or};
ghost use Rattle.std.specs.Float.{nan};
ghost use Rattle.laws.specs.Steps.{listed};
ghost use Rattle.model.specs.Limits.{side_count};
ghost use Rattle.model.specs.Record.{count_of, samples_of, star_of};
ghost use Rattle.lines.specs.Lines.{place_on, OnLine, NamedSide};
ghost use Rattle.cases.specs.Sheets.{sheet_places};
ghost use Rattle.cells.specs.Puts.{Few};
ghost use Rattle.cells.specs.declared.SheetIndex.TheVariants.{Side};
ghost use Rattle.walk.specs.Order.{Held};
ghost use Rattle.sheet.specs.Fine.{three_lines, FineLines, SideCounts};

use cases::SHEET;
use cases::transition::rows_on;
use cells::SheetIndex;
use cells::sheet_cells::{CaseNumbers, LentSheet, LentTables};
use counting::count_sheet;
use grid::face_walk::{FaceWalk, Stride};
use grid::named_sides::named_sides;
use grid::voxel_blocks::MOST_SUBDIVISIONS;
use lines::{Line, NEXT, fine_line, sample_on};
use model::{Counts, NO_COUNTS};
use record::passed::Record;
use tables::{transition_cell_class, transition_cell_data, transition_vertex_data};

const THREE_LINES: usize = 3 * (2 * MOST_SUBDIVISIONS + 1);

// A line's samples.
fn fill_line(src: &Record<'_>, line: Line, samples: &mut [f32])
    requires on_line { (k : ℕ) → k < line.points → OnLine (count_of src.now.bytes.now) line k }
    requires points { length samples.old ≡ line.points }
    ensures { samples.new ≡ listed (λ k. get_or (samples_of src.now.bytes.now) (place_on line k) nan) line.points }
{
    for (k, sample) in samples.iter_mut().enumerate() {
        *sample = sample_on(src, line, k);
    }
}

// The fine lines that the cells in row u lie on, one after another.
fn fill_lines(src: &Record<'_>, side: usize, u: usize, samples: &mut [f32])
    requires named { NamedSide src.now.header side }
    requires u_lt_subdivisions { (u < src.now.header.block.subdivisions) × (length samples.old ≡ three_lines) }
    ensures { FineLines (star_of src.now.bytes.now) side u samples.new }
{
    let width = 2 * src.header.block.subdivisions + 1;
    for i in 0..3 {
        let line = fine_line(src.header, side, 2 * u + i);
        fill_line(src, line, &mut samples[width * i..width * i + width]);
    }
}

// The case numbers of the cells of a named side, and their marks.
fn face_cases(src: &Record<'_>, side: usize, cases: &mut [u16], marks: &mut [u8])
    requires named { NamedSide src.now.header side }
    requires cases_len { (length cases.old ≡ sheet_places) × (length marks.old ≡ sheet_places) }
    ensures { Held (star_of src.now.bytes.now) (Side side) src.now.header.block.subdivisions [] cases.new marks.new }
{
    let n = src.header.block.subdivisions;
    let walk = FaceWalk {
        first: 0,
        u: Stride {
            up: 2 * n + 1,
            down: 0,
        },
        v: NEXT,
    };
    let mut samples = [0.0f32; THREE_LINES];
    for u in 0..n {
        fill_lines(src, side, u, &mut samples);
        rows_on(n, src.header.threshold, &samples, walk, 1, cases, marks, u);
    }
}

// As crates/counting's, but for how a side's sheet is filled. One function for both would take that as a closure, and say of every block what the
// closure's writes must be for it: more than the loop that it saves.
fn count_named_sides(src: &Record<'_>) -> Counts
    ensures { Few (sheet_places * side_count) result × SideCounts (star_of src.now.bytes.now) side_count result }
{
    let n = src.header.block.subdivisions;
    let classes = transition_cell_class();
    let cells = transition_cell_data();
    let codes = transition_vertex_data();
    let tables = LentTables {
        classes: &classes,
        cells: &cells,
        codes: &codes,
    };
    let mut cases = [0u16; SHEET];
    let mut marks = [0u8; SHEET];
    let mut counts = NO_COUNTS;
    for side in named_sides(src.header.mask) {
        face_cases(src, side, &mut cases, &mut marks);
        let sheet = LentSheet {
            index: SheetIndex::Side(side),
            tables,
            numbers: CaseNumbers::Words(&cases),
            marks: &marks,
        };
        let more = count_sheet(n, &sheet);
        counts = counts + more;
    }
    counts
}

// The transition tables are fetched only where there is a finer neighbour.
pub fn count_sides(src: &Record<'_>) -> Counts
    ensures { Few (sheet_places * side_count) result × SideCounts (star_of src.now.bytes.now) side_count result }
{
    if src.header.mask == 0 {
        return NO_COUNTS;
    }
    count_named_sides(src)
}
