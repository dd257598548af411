// The sheet of a layer of regular cells, between two planes of samples: each cell reads its own eight, from four lines along z.
#![tactic(auto)]

ghost use Rattle.std.specs.Prelude.{◌≡◌, List, ℕ, ◌+◌, ◌*◌, ◌^◌, ◌≤◌, ◌<◌, Float, length};
ghost use Rattle.model.specs.Limits.{most_subdivisions};
ghost use Rattle.model.specs.Samples.{sample_length};
ghost use Rattle.model.specs.Star.{Star, star, subdivisions};
ghost use Rattle.model.specs.Points.{regular_case};
ghost use Rattle.model.specs.Mesh.{regular_reads};
ghost use Rattle.cases.specs.Marks.{all_regular, mark_of};
ghost use Rattle.cases.specs.Sheets.{row_start, sheet_places, most_sheet_reads, Sheet, RowPut, Measured, Plane, Line, four_inside, line_case};

use cases::marks::mark_layer;
use cases::sixteens::renew;
use cases::{plane, weighed};
use model::Header;

// The samples that the case number of a regular cell reads. The writing pass counts its reads by them.
const REGULAR_READS: u64 = 8;

// A row of cells: the four lines of samples along z that it lies between, as the Rust numbers a cell's corners.
#[derive(Clone, Copy)]
struct Row<'a> {
    threshold: f32,
    a: &'a [f32],
    b: &'a [f32],
    c: &'a [f32],
    d: &'a [f32],
}

impl Row<'_> {
    // The four corners at one z, the first adding w.
    fn four(self, z: usize, w: u32) -> u32
        requires there { (z < length self.a.now) × ((z < length self.b.now) × ((z < length self.c.now) × (z < length self.d.now))) }
        requires small { 15 * w < 2 ^ 32 }
        ensures { (result ≡ four_inside self.entry.threshold self.entry.a.now self.entry.b.now self.entry.c.now self.entry.d.now z w) × (result ≤ 15 * w) }
    {
        weighed(self.threshold, self.a, z, w)
            + weighed(self.threshold, self.b, z, 2 * w)
            + weighed(self.threshold, self.c, z, 4 * w)
            + weighed(self.threshold, self.d, z, 8 * w)
    }

    // The number of the cell at z.
    fn case(self, z: usize) -> u8
        requires { (z + 1 < length self.a.now) × ((z + 1 < length self.b.now) × ((z + 1 < length self.c.now) × (z + 1 < length self.d.now))) }
        ensures { result ≡ line_case self.entry.threshold self.entry.a.now self.entry.b.now self.entry.c.now self.entry.d.now z }
    {
        let low = self.four(z, 1);
        let sum = low + self.four(z + 1, 16);
        sum as u8
    }
}

// The cells of a row, their numbers from start on.
fn put_row(n: usize, row: Row, cases: &mut [u8], start: usize)
    requires n_le_most_subdivisions { (n ≤ most_subdivisions) × (start + n ≤ length cases.old) }
    requires long { (length row.a.now ≡ n + 1) × ((length row.b.now ≡ n + 1) × ((length row.c.now ≡ n + 1) × (length row.d.now ≡ n + 1))) }
    ensures { RowPut (line_case row.entry.threshold row.entry.a.now row.entry.b.now row.entry.c.now row.entry.d.now) start n cases.old cases.new }
{
    renew(&mut cases[start..start + n], |z, _| row.case(z));
}

// The samples at y of a plane.
fn line(n: usize, plane: &[f32], y: usize) -> &[f32]
    requires { (n ≤ most_subdivisions) × ((y ≤ n) × ((n + 1) * (n + 1) ≤ length plane.now)) }
    ensures result_len { length result.now ≡ n + 1 }
    ensures line { (s : Star) (x : ℕ) → subdivisions s ≡ n → Plane s x plane.now → Line n s.centre x y result.now }
{
    let start = (n + 1) * y;
    let end = start + n + 1;
    &plane[start..end]
}

// A layer of cells between a plane of samples and the next.
#[derive(Clone, Copy)]
struct Layer<'a> {
    n: usize,
    threshold: f32,
    low: &'a [f32],
    high: &'a [f32],
}

impl Layer<'_> {
    fn put_row(self, y: usize, cases: &mut [u8])
        requires n_le_most_subdivisions { (self.n ≤ most_subdivisions) × ((y < self.n) × (length cases.old ≡ sheet_places)) }
        requires n_in_bounds { ((self.n + 1) * (self.n + 1) ≤ length self.low.now) × ((self.n + 1) * (self.n + 1) ≤ length self.high.now) }
        ensures { (s : Star) (x : ℕ) → Measured s self.entry.n self.entry.threshold → Plane s x self.entry.low.now → Plane s (x + 1) self.entry.high.now → RowPut (regular_case s x y) (row_start self.entry.n y) self.entry.n cases.old cases.new }
    {
        let n = self.n;
        let row = Row {
            threshold: self.threshold,
            a: line(n, self.low, y),
            b: line(n, self.high, y),
            c: line(n, self.low, y + 1),
            d: line(n, self.high, y + 1),
        };
        put_row(n, row, cases, (n + 1) * y);
    }

    fn put_rows(self, cases: &mut [u8])
        requires n_le_most_subdivisions { (self.n ≤ most_subdivisions) × (length cases.old ≡ sheet_places) }
        requires n_in_bounds { ((self.n + 1) * (self.n + 1) ≤ length self.low.now) × ((self.n + 1) * (self.n + 1) ≤ length self.high.now) }
        ensures { (s : Star) (x : ℕ) → Measured s self.entry.n self.entry.threshold → Plane s x self.entry.low.now → Plane s (x + 1) self.entry.high.now → Sheet (regular_case s x) self.entry.n self.entry.n cases.new }
    {
        for y in 0..self.n {
            self.put_row(y, cases);
        }
    }
}

// The case numbers of the cells between a plane of samples and the next, and their marks. Answers the samples read.
pub fn cases_between(
    n: usize,
    threshold: f32,
    low: &[f32],
    high: &[f32],
    cases: &mut [u8],
    marks: &mut [u8],
) -> u64
    requires n_le_most_subdivisions { (n ≤ most_subdivisions) × ((length cases.old ≡ sheet_places) × (length marks.old ≡ sheet_places)) }
    requires n_in_bounds { ((n + 1) * (n + 1) ≤ length low.now) × ((n + 1) * (n + 1) ≤ length high.now) }
    ensures cases { (s : Star) (x : ℕ) → Measured s n threshold → Plane s x low.now → Plane s (x + 1) high.now → Sheet (regular_case s x) n n cases.new }
    ensures marks { (s : Star) (x : ℕ) → Measured s n threshold → Plane s x low.now → Plane s (x + 1) high.now → Sheet (λ y z. mark_of all_regular (regular_case s x y z)) n n marks.new }
    ensures reads { (result ≡ regular_reads * n * n) × (result ≤ most_sheet_reads) }
{
    let layer = Layer {
        n,
        threshold,
        low,
        high,
    };
    layer.put_rows(cases);
    mark_layer(n, cases, marks);
    REGULAR_READS * (n * n) as u64
}

// The same of the cells at x of a block.
pub fn layer_cases(
    header: Header,
    centre: &[f32],
    x: usize,
    cases: &mut [u8],
    marks: &mut [u8],
) -> u64
    requires subdivisions_le_most_subdivisions { (header.block.subdivisions ≤ most_subdivisions) × (length centre.now ≡ sample_length header.block.subdivisions) }
    requires x_lt_subdivisions { (x < header.block.subdivisions) × ((length cases.old ≡ sheet_places) × (length marks.old ≡ sheet_places)) }
    ensures cases { (ns : List Float) → Sheet (regular_case (star header centre.now ns) x) header.block.subdivisions header.block.subdivisions cases.new }
    ensures marks { (ns : List Float) → Sheet (λ y z. mark_of all_regular (regular_case (star header centre.now ns) x y z)) header.block.subdivisions header.block.subdivisions marks.new }
    ensures reads { (result ≡ regular_reads * header.block.subdivisions * header.block.subdivisions) × (result ≤ most_sheet_reads) }
{
    let n = header.block.subdivisions;
    let low = plane(n, centre, x);
    let high = plane(n, centre, x + 1);
    cases_between(n, header.threshold, low, high, cases, marks)
}
