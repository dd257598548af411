// The sheet of a side's transition cells: each cell reads its own nine fine samples, from three lines along v. The side's first place and
// its steps along u and v are found once.
ghost use Rattle.std.specs.Prelude.{◌≡◌, List, ℕ, ◌+◌, ◌*◌, ◌^◌, ◌≤◌, ◌<◌, Float, length, get_or};
ghost use Rattle.model.specs.Limits.{most_subdivisions};
ghost use Rattle.model.specs.Star.{star};
ghost use Rattle.model.specs.Points.{transition_case};
ghost use Rattle.model.specs.Mesh.{transition_reads};
ghost use Rattle.grid.specs.SideLaws.{NeighbourThere};
ghost use Rattle.grid.specs.Walks.{Leads};
ghost use Rattle.cases.specs.Sheets.{sheet_places, most_sheet_reads, Sheet, RowPut};
ghost use Rattle.cases.specs.Marks.{all_transition, mark_of};
ghost use Rattle.cases.specs.Faces.{Spot, Lined, weighed_at, three_inside, nine_inside, lines_at, Walked, OnWalk};

use crate::{TRANSITION_READS, weighed};
use grid::face_walk::{FaceWalk, Stride, along, face_walk};
use grid::transition_sides::neighbour;
use model::Header;

// What marks a cell: whether it is cut.
fn side_mark(case: u16) -> u8
    ensures { result ≡ mark_of all_transition case }
{
    u8::from((case != 0) & (case != 511))
}

// The first places of the three lines that a row of cells lies on, and their step.
#[derive(Clone, Copy)]
struct Lines {
    a: usize,
    b: usize,
    c: usize,
    step: Stride,
}

// What the point v2 steps along a line adds.
fn weighed_at(threshold: f32, fine: &[f32], first: usize, step: Stride, v2: usize, w: u32) -> u32
    requires { Spot (length fine.now) first step v2 }
    ensures { (result ≡ weighed_at threshold fine.now first step v2 w) × (result ≤ w) }
{
    weighed(threshold, fine, along(first, step, v2), w)
}

impl Lines {
    // The three points at one v2.
    fn three(self, threshold: f32, fine: &[f32], v2: usize, weights: [u32; 3]) -> u32
        requires there { Lined (length fine.now) self v2 }
        requires small { get_or weights 0 0 + get_or weights 1 0 + get_or weights 2 0 < 2 ^ 32 }
        ensures { (result ≡ three_inside threshold fine.now self v2 (get_or weights 0 0) (get_or weights 1 0) (get_or weights 2 0)) × (result ≤ get_or weights 0 0 + get_or weights 1 0 + get_or weights 2 0) }
    {
        let [wa, wb, wc] = weights;
        weighed_at(threshold, fine, self.a, self.step, v2, wa)
            + weighed_at(threshold, fine, self.b, self.step, v2, wb)
            + weighed_at(threshold, fine, self.c, self.step, v2, wc)
    }

    // What each of the nine fine points adds if it is inside: the Rust's TRANSITION_HIGH_RES_FACE_CASE_CONTRIBUTIONS.
    fn nine(self, threshold: f32, fine: &[f32], v: usize) -> u16
        requires { (v < most_subdivisions) × (Lined (length fine.now) self (2 * v) × (Lined (length fine.now) self (2 * v + 1) × Lined (length fine.now) self (2 * v + 2))) }
        ensures { result ≡ nine_inside threshold fine.now self v }
    {
        let v2 = 2 * v;
        let low = self.three(threshold, fine, v2, [0x01, 0x02, 0x04]);
        let middle = self.three(threshold, fine, v2 + 1, [0x80, 0x100, 0x08]);
        let high = self.three(threshold, fine, v2 + 2, [0x40, 0x20, 0x10]);
        (low + middle + high) as u16
    }
}

// The cells on three lines, their numbers and marks from start on.
fn row_on(
    n: usize,
    threshold: f32,
    fine: &[f32],
    lines: Lines,
    cases: &mut [u16],
    marks: &mut [u8],
    start: usize,
)
    requires n_le_most_subdivisions { (n ≤ most_subdivisions) × ((start + n ≤ length cases.old) × (start + n ≤ length marks.old)) }
    requires by_index { (v2 : ℕ) → v2 ≤ 2 * n → Lined (length fine.now) lines v2 }
    ensures cases { RowPut (nine_inside threshold fine.now lines) start n cases.old cases.new }
    ensures marks { RowPut (λ v. mark_of all_transition (nine_inside threshold fine.now lines v)) start n marks.old marks.new }
{
    for v in 0..n {
        let number = lines.nine(threshold, fine, v);
        cases[start + v] = number;
        marks[start + v] = side_mark(number);
    }
}

fn lines_at(walk: FaceWalk, u: usize) -> Lines
    requires { (u < most_subdivisions) × (Leads walk.first walk.u (2 * u) × (Leads walk.first walk.u (2 * u + 1) × Leads walk.first walk.u (2 * u + 2))) }
    ensures { result ≡ lines_at walk u }
{
    let u2 = 2 * u;
    Lines {
        a: along(walk.first, walk.u, u2),
        b: along(walk.first, walk.u, u2 + 1),
        c: along(walk.first, walk.u, u2 + 2),
        step: walk.v,
    }
}

// The cells in the first rows of a walk, their numbers and marks from a row of the sheet on. Answers the samples read.
pub fn rows_on(
    n: usize,
    threshold: f32,
    fine: &[f32],
    walk: FaceWalk,
    rows: usize,
    cases: &mut [u16],
    marks: &mut [u8],
    at: usize,
) -> u64
    requires n_le_most_subdivisions { (n ≤ most_subdivisions) × ((at + rows ≤ n) × ((length cases.old ≡ sheet_places) × (length marks.old ≡ sheet_places))) }
    requires walked { Walked (length fine.now) n walk rows }
    ensures cases { (case : ℕ → ℕ → ℕ) → OnWalk case threshold fine.now n walk rows at → Sheet case n at cases.old → Sheet case n (at + rows) cases.new }
    ensures marks { (case : ℕ → ℕ → ℕ) → OnWalk case threshold fine.now n walk rows at → Sheet (λ u v. mark_of all_transition (case u v)) n at marks.old → Sheet (λ u v. mark_of all_transition (case u v)) n (at + rows) marks.new }
    ensures reads { (result ≡ transition_reads * n * rows) × (result ≤ most_sheet_reads) }
{
    for u in 0..rows {
        let lines = lines_at(walk, u);
        let start = (n + 1) * (at + u);
        row_on(n, threshold, fine, lines, cases, marks, start);
    }
    TRANSITION_READS * (n * rows) as u64
}

// The case numbers of the cells of a named side, and their marks. Answers the samples read.
pub fn face_cases(
    header: Header,
    neighbours: &[f32],
    side: usize,
    cases: &mut [u16],
    marks: &mut [u8],
) -> u64
    requires neighbour_there { NeighbourThere header.block.subdivisions header.mask neighbours.now side }
    requires le_subdivisions { (1 ≤ header.block.subdivisions) × ((length cases.old ≡ sheet_places) × (length marks.old ≡ sheet_places)) }
    ensures cases { (centre : List Float) → Sheet (transition_case (star header centre neighbours.now) side) header.block.subdivisions header.block.subdivisions cases.new }
    ensures marks { (centre : List Float) → Sheet (λ u v. mark_of all_transition (transition_case (star header centre neighbours.now) side u v)) header.block.subdivisions header.block.subdivisions marks.new }
    ensures reads { (result ≡ transition_reads * header.block.subdivisions * header.block.subdivisions) × (result ≤ most_sheet_reads) }
{
    let n = header.block.subdivisions;
    let fine = neighbour(n, header.mask, neighbours, side);
    let walk = face_walk(2 * n, side, 2 * n);
    rows_on(n, header.threshold, fine, walk, n, cases, marks, 0)
}
