// Totals over a day's blocks (document 02, [2]): the sheet of a run of records, a line a record and a total, worked out from the samples in
// the records' bytes. specs/Definition says what each figure is, which records are refused and where the sheet ends.
#![tactic(auto)]

ghost use Rattle.std.specs.Prelude.{◌≡◌, ◌+◌, ◌≤◌, ◌<◌, length, drop};
ghost use Rattle.model.specs.Record.{star_of};
ghost use Rattle.sheet.specs.Definition as Definition;
ghost use Rattle.sheet.specs.Definition.{figures_of, line_of, adds, most_run, row_of, sheet_line, sheet_total};
ghost use Rattle.sheet.specs.Sizes.{most_layers, Small, SmallLine, Fits, EdgesFit};

mod counted_points;
mod faces;
mod planes;
mod sides;

use faces::judge_faces;
use model::Refusal;
use planes::count_layers;
use record::passed::Record;
use sides::count_sides;
use std::ops::Add;
use words::orders::{Big, ByteOrder};

// Grid edges, by the axis that they lie along.
#[repr(C)]
#[derive(Clone, Copy)]
pub struct Edges {
    pub x: u64,
    pub y: u64,
    pub z: u64,
}

// The figures of a record, or of several added up.
#[repr(C)]
#[derive(Clone, Copy)]
pub struct Figures {
    pub inside: u64,
    pub edges: Edges,
    pub vertices: u64,
    pub triangles: u64,
}

// A line, and where the next record begins: at the run's end there is none. Both are told by the C interface.
#[derive(Clone, Copy)]
pub struct LineAt {
    pub line: Result<Figures, Refusal>,
    pub next: usize,
}

// A longer run is refused.
const MOST_RUN: usize = 1073741824;

pub const NO_FIGURES: Figures = Figures {
    inside: 0,
    edges: Edges { x: 0, y: 0, z: 0 },
    vertices: 0,
    triangles: 0,
};

impl Add for Edges {
    type Output = Edges;

    ghost can_add = { λ a b. EdgesFit (Definition.plus_edges a b) };

    ghost add_gives = { λ a b c. c ≡ Definition.plus_edges a b };

    fn add(self, rhs: Edges) -> Edges {
        Edges {
            x: self.x + rhs.x,
            y: self.y + rhs.y,
            z: self.z + rhs.z,
        }
    }
}

impl Add for Figures {
    type Output = Figures;

    ghost can_add = { λ a b. Fits (Definition.plus a b) };

    ghost add_gives = { λ a b c. c ≡ Definition.plus a b };

    fn add(self, rhs: Figures) -> Figures {
        Figures {
            inside: self.inside + rhs.inside,
            edges: self.edges + rhs.edges,
            vertices: self.vertices + rhs.vertices,
            triangles: self.triangles + rhs.triangles,
        }
    }
}

fn figures_of(src: &Record<'_>) -> Figures
    ensures { Small most_layers result × (result ≡ figures_of (star_of src.now.bytes.now)) }
{
    let regular = count_layers(src);
    let transition = count_sides(src);
    Figures {
        vertices: regular.vertices + transition.vertices as u64,
        triangles: regular.triangles + transition.triangles as u64,
        ..regular
    }
}

// The line of a record: the reader's judges, then 8.
fn line_of(src: &[u8]) -> Result<Figures, Refusal>
    ensures { SmallLine result × (result ≡ line_of src.now) }
{
    let whole = Record::new(src)?;
    judge_faces(&whole)?;
    Ok(figures_of(&whole))
}

// The line of the record that begins at a place of a run, and where the next one begins. A cut one has all that is left.
fn line_at(run: &[u8], at: usize) -> LineAt
    requires { (at < length run.now) × (length run.now ≤ most_run) }
    ensures { SmallLine result.line × ((result.line ≡ (row_of (drop at run.now)).line) × (result.next ≡ at + length (row_of (drop at run.now)).bytes)) }
{
    let rest = &run[at..];
    let cut = LineAt {
        line: Err(Refusal::RecordLength),
        next: run.len(),
    };
    if rest.len() < 4 {
        return cut;
    }
    let size = 4 + Big::word_at(rest, 0) as usize;
    if rest.len() < size {
        return cut;
    }
    LineAt {
        line: line_of(&rest[..size]),
        next: at + size,
    }
}

pub fn sheet_line(run: &[u8], at: usize) -> Result<Option<LineAt>, Refusal>
    ensures { result ≡ sheet_line run.now at }
{
    if run.len() > MOST_RUN {
        return Err(Refusal::RecordLength);
    }
    if at >= run.len() {
        return Ok(None);
    }
    Ok(Some(line_at(run, at)))
}

// A refused record adds nothing.
fn with_line(sum: Figures, line: Result<Figures, Refusal>) -> Figures
    requires { Fits (Definition.plus sum (adds line)) }
    ensures { result ≡ Definition.plus sum (adds line) }
{
    match line {
        Ok(figures) => sum + figures,
        Err(_) => sum,
    }
}

pub fn sheet_total(run: &[u8]) -> Result<Figures, Refusal>
    ensures { result ≡ sheet_total run.now }
{
    if run.len() > MOST_RUN {
        return Err(Refusal::RecordLength);
    }
    let mut sum = NO_FIGURES;
    let mut at = 0;
    // Each line tells where the next begins.
    while at < run.len() {
        let found = line_at(run, at);
        sum = with_line(sum, found.line);
        at = found.next;
    }
    Ok(sum)
}
