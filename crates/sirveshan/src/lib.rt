// The C face: every call that code in C or Rust makes of this project. Each requires nothing, answers by value, and writes to no lent
// buffer but those that the definition it cites fills.
#![tactic(auto)]

ghost use Rattle.std.specs.Prelude.{◌≡◌};
ghost use Rattle.model.specs.Star.{star};
ghost use Rattle.model.specs.Extraction.{extract};
ghost use Rattle.model.specs.Edges.{extract_whole};
ghost use Rattle.model.specs.Layered.{extract_layered};
ghost use Rattle.model.specs.Record.{read_record, write_record};
ghost use Rattle.model.specs.Viewer.{subdivisions_answer, blank_answer, sample_answer, record_point};
ghost use Rattle.stl.specs.Definition.{write_stl, read_stl};
ghost use Rattle.repair.specs.Definition.{delivery, repair};
ghost use Rattle.volume.specs.Definition.{cut_block};
ghost use Rattle.sheet.specs.Definition.{sheet_line, sheet_total};
ghost use Rattle.weld.specs.Definition.{weld};
ghost use Rattle.layers.specs.Definition.{make_summary, set_sample};
ghost use Rattle.sirveshan.specs.Calls.{as_extracted, as_header_read, as_written, as_triangles_read, as_mended, as_samples_cut, kind_number, as_sampled, as_welded_counts};
ghost use Rattle.sirveshan.specs.Calls.{extract_call, extract_whole_call, read_call, write_call, write_stl_call, read_stl_call, repair_call, cut_call, weld_call};
ghost use Rattle.sirveshan.specs.Calls.{line_told, as_line_told, as_total_told};
ghost use Rattle.sirveshan.specs.Calls.{told, as_judged, make_call, set_call};

use grid::transition_sides::SIDES;
use layers::making::make_summary;
use layers::setting::set_sample;
use model::{
    Block, Counts, Header, Lent, NO_COUNTS, Numbers, PlaceKind, Refusal, Report, Vector, Xyz,
};
use record::reader::read_record;
use record::writer::write_record;
use sheet::{Figures, LineAt, NO_FIGURES};
use stl::reader::read_stl;
use stl::writer::write_stl;
use volume::cut_block;

// In each answer the refusal's number is 0 where nothing is refused, and what stands beside it is 0 where something is, but for a line's next.
#[repr(C)]
#[derive(Clone, Copy)]
pub struct Extracted {
    pub refused: Numbers,
    pub counts: Counts,
    pub reads: u64,
}

#[repr(C)]
#[derive(Clone, Copy)]
pub struct HeaderRead {
    pub refused: Numbers,
    pub header: Header,
}

// This and the next three are of one shape: the C interface names each number for what it counts.
#[repr(C)]
#[derive(Clone, Copy)]
pub struct Written {
    pub refused: Numbers,
    pub length: usize,
}

#[repr(C)]
#[derive(Clone, Copy)]
pub struct TrianglesRead {
    pub refused: Numbers,
    pub triangles: usize,
}

#[repr(C)]
#[derive(Clone, Copy)]
pub struct Mended {
    pub refused: Numbers,
    pub changes: usize,
}

#[repr(C)]
#[derive(Clone, Copy)]
pub struct SamplesCut {
    pub refused: Numbers,
    pub samples: usize,
}

#[repr(C)]
#[derive(Clone, Copy)]
pub struct Sampled {
    pub refused: Numbers,
    pub value: f32,
    pub kind: usize,
}

#[repr(C)]
#[derive(Clone, Copy)]
pub struct WeldedCounts {
    pub refused: Numbers,
    pub counts: Counts,
}

// The number of the kind in-block; a face has its own.
const IN_BLOCK: usize = SIDES;

// The next record begins at next, also where this one's line is refused; 0 where there is no line.
#[repr(C)]
#[derive(Clone, Copy)]
pub struct LineTold {
    pub refused: Numbers,
    pub figures: Figures,
    pub next: usize,
}

#[repr(C)]
#[derive(Clone, Copy)]
pub struct TotalTold {
    pub refused: Numbers,
    pub figures: Figures,
}

const NOT_REFUSED: Numbers = Numbers {
    number: 0,
    first: 0,
    second: 0,
    third: 0,
};

const NO_HEADER: Header = Header {
    block: Block {
        base: Vector {
            x: 0.0,
            y: 0.0,
            z: 0.0,
        },
        size: 0.0,
        subdivisions: 0,
    },
    mask: 0,
    threshold: 0.0,
};

// What an answer is taken apart into: the numbers of its refusal, and its value, or what stands for one where there is a refusal.
fn told<T: Drop>(answer: Result<T, Refusal>, none: T) -> (Numbers, T)
    ensures { result ≡ told answer none }
{
    match answer {
        Ok(value) => (NOT_REFUSED, value),
        Err(refusal) => (Numbers::from(refusal), none),
    }
}

impl From<Report> for Extracted {
    ghost from_gives = { λ report told. told ≡ as_extracted report.answer report.reads };

    fn from(report: Report) -> Extracted {
        let (refused, counts) = told(report.answer, NO_COUNTS);
        Extracted {
            refused,
            counts,
            reads: report.reads,
        }
    }
}

impl From<Result<Header, Refusal>> for HeaderRead {
    ghost from_gives = { λ answer told. told ≡ as_header_read answer };

    fn from(answer: Result<Header, Refusal>) -> HeaderRead {
        let (refused, header) = told(answer, NO_HEADER);
        HeaderRead { refused, header }
    }
}

// Of a record and of an STL file.
impl From<Result<usize, Refusal>> for Written {
    ghost from_gives = { λ answer told. told ≡ as_written answer };

    fn from(answer: Result<usize, Refusal>) -> Written {
        let (refused, length) = told(answer, 0);
        Written { refused, length }
    }
}

impl From<Result<usize, Refusal>> for TrianglesRead {
    ghost from_gives = { λ answer told. told ≡ as_triangles_read answer };

    fn from(answer: Result<usize, Refusal>) -> TrianglesRead {
        let (refused, triangles) = told(answer, 0);
        TrianglesRead { refused, triangles }
    }
}

impl From<Result<usize, Refusal>> for Mended {
    ghost from_gives = { λ answer told. told ≡ as_mended answer };

    fn from(answer: Result<usize, Refusal>) -> Mended {
        let (refused, changes) = told(answer, 0);
        Mended { refused, changes }
    }
}

impl From<Result<usize, Refusal>> for SamplesCut {
    ghost from_gives = { λ answer told. told ≡ as_samples_cut answer };

    fn from(answer: Result<usize, Refusal>) -> SamplesCut {
        let (refused, samples) = told(answer, 0);
        SamplesCut { refused, samples }
    }
}

// The C interface has a kind as a number.
fn kind_number(kind: PlaceKind) -> usize
    ensures { result ≡ kind_number kind }
{
    match kind {
        PlaceKind::InBlock => IN_BLOCK,
        PlaceKind::Face(face) => face,
    }
}

impl From<Result<(f32, PlaceKind), Refusal>> for Sampled {
    ghost from_gives = { λ answer told. told ≡ as_sampled answer };

    fn from(answer: Result<(f32, PlaceKind), Refusal>) -> Sampled {
        match answer {
            Ok((value, kind)) => Sampled {
                refused: NOT_REFUSED,
                value,
                kind: kind_number(kind),
            },
            Err(refusal) => Sampled {
                refused: Numbers::from(refusal),
                value: 0.0,
                kind: 0,
            },
        }
    }
}

fn line_told(line: Result<Figures, Refusal>, next: usize) -> LineTold
    ensures { result ≡ line_told line next }
{
    let (refused, figures) = told(line, NO_FIGURES);
    LineTold {
        refused,
        figures,
        next,
    }
}

impl From<Result<Option<LineAt>, Refusal>> for LineTold {
    ghost from_gives = { λ answer told. told ≡ as_line_told answer };

    fn from(answer: Result<Option<LineAt>, Refusal>) -> LineTold {
        match answer {
            Ok(Some(found)) => line_told(found.line, found.next),
            Ok(None) => line_told(Ok(NO_FIGURES), 0),
            Err(refusal) => line_told(Err(refusal), 0),
        }
    }
}

impl From<Result<Figures, Refusal>> for TotalTold {
    ghost from_gives = { λ answer told. told ≡ as_total_told answer };

    fn from(answer: Result<Figures, Refusal>) -> TotalTold {
        let (refused, figures) = told(answer, NO_FIGURES);
        TotalTold { refused, figures }
    }
}

impl From<Result<Counts, Refusal>> for WeldedCounts {
    ghost from_gives = { λ answer told. told ≡ as_welded_counts answer };

    fn from(answer: Result<Counts, Refusal>) -> WeldedCounts {
        let (refused, counts) = told(answer, NO_COUNTS);
        WeldedCounts { refused, counts }
    }
}

// Of a call that has nothing to tell but its refusal.
fn as_judged(verdict: Result<(), Refusal>) -> Numbers
    ensures { result ≡ as_judged verdict }
{
    told(verdict, ()).0
}

// The mesh of a block and its finer neighbours.
#[unsafe(no_mangle)]
pub extern "C" fn sirveshan_extract(
    header: Header,
    centre: &[f32],
    neighbours: &[f32],
    store: &mut [u32],
    vertices: &mut [f32],
    triangles: &mut [u32],
) -> Extracted
    ensures { record { answer = result; store = store.new; vertices = vertices.new; triangles = triangles.new }
        ≡ extract_call (extract (star header centre.now neighbours.now) store.old vertices.old triangles.old) }
{
    Extracted::from(algorithm::extract(header, centre, neighbours, store, vertices, triangles))
}

// The same, and the number of each vertex's grid edge in a further list.
#[unsafe(no_mangle)]
pub extern "C" fn sirveshan_extract_whole(
    header: Header,
    centre: &[f32],
    neighbours: &[f32],
    store: &mut [u32],
    vertices: &mut [f32],
    triangles: &mut [u32],
    edges: &mut [u32],
) -> Extracted
    ensures { record { answer = result; store = store.new; vertices = vertices.new; triangles = triangles.new; edges = edges.new }
        ≡ extract_whole_call (extract_whole (star header centre.now neighbours.now) store.old vertices.old triangles.old edges.old) }
{
    Extracted::from(algorithm::extract_whole(
        header, centre, neighbours, store, vertices, triangles, edges,
    ))
}

// The same with a summary by layer, whose layers on one side of the threshold are passed over.
#[unsafe(no_mangle)]
pub extern "C" fn sirveshan_extract_layered(
    header: Header,
    centre: &[f32],
    neighbours: &[f32],
    summary: &[f32],
    store: &mut [u32],
    vertices: &mut [f32],
    triangles: &mut [u32],
    edges: &mut [u32],
) -> Extracted
    ensures { record { answer = result; store = store.new; vertices = vertices.new; triangles = triangles.new; edges = edges.new }
        ≡ extract_whole_call (extract_layered (star header centre.now neighbours.now) summary.now store.old vertices.old triangles.old edges.old) }
{
    Extracted::from(algorithm::extract_layered(
        header, centre, neighbours, summary, store, vertices, triangles, edges,
    ))
}

// The block that a record tells, and its samples, the centre's and then the neighbours', in the first places of a lent list.
#[unsafe(no_mangle)]
pub extern "C" fn sirveshan_read(src: &[u8], samples: &mut [f32]) -> HeaderRead
    ensures { record { answer = result; samples = samples.new } ≡ read_call (read_record src.now samples.old) }
{
    HeaderRead::from(read_record(src, samples))
}

// A block and its samples as a record, in the first places of a lent buffer.
#[unsafe(no_mangle)]
pub extern "C" fn sirveshan_write(
    header: Header,
    centre: &[f32],
    neighbours: &[f32],
    bytes: &mut [u8],
) -> Written
    ensures { record { answer = result; bytes = bytes.new } ≡ write_call (write_record header centre.now neighbours.now bytes.old) }
{
    let lent = Lent {
        header,
        centre,
        neighbours,
    };
    Written::from(write_record(&lent, bytes))
}

// A mesh as a binary STL file, in the first places of a lent buffer.
#[unsafe(no_mangle)]
pub extern "C" fn sirveshan_write_stl(
    vertices: &[f32],
    triangles: &[u32],
    bytes: &mut [u8],
) -> Written
    ensures { record { answer = result; bytes = bytes.new } ≡ write_stl_call (write_stl vertices.now triangles.now bytes.old) }
{
    Written::from(write_stl(vertices, triangles, bytes))
}

// The corners of a binary STL file's triangles, nine numbers a triangle, in the first places of a lent list.
#[unsafe(no_mangle)]
pub extern "C" fn sirveshan_read_stl(src: &[u8], positions: &mut [f32]) -> TrianglesRead
    ensures { record { answer = result; positions = positions.new } ≡ read_stl_call (read_stl src.now positions.old) }
{
    TrianglesRead::from(read_stl(src, positions))
}

// A block's samples and its neighbours', by their bits, repaired in place: bad ones become the filler, fine ones that disagree take the
// centre's bits, and each change is listed as four words in the first places of a lent list.
#[unsafe(no_mangle)]
pub extern "C" fn sirveshan_repair(
    header: Header,
    centre: &mut [u32],
    neighbours: &mut [u32],
    filler: f32,
    changes: &mut [u32],
) -> Mended
    ensures { record { answer = result; centre = centre.new; neighbours = neighbours.new; changes = changes.new }
        ≡ repair_call (repair header (delivery centre.old neighbours.old) filler changes.old) }
{
    Mended::from(repair::repair(header, centre, neighbours, filler, changes))
}

// The block of n subdivisions whose (0, 0, 0) is the point `first` of a raw volume, in the first places of a lent list.
#[unsafe(no_mangle)]
pub extern "C" fn sirveshan_cut(
    src: &[u8],
    sizes: Xyz,
    n: usize,
    first: Xyz,
    samples: &mut [f32],
) -> SamplesCut
    ensures { record { answer = result; samples = samples.new } ≡ cut_call (cut_block src.now sizes n first samples.old) }
{
    SamplesCut::from(cut_block(src, sizes, n, first, samples))
}

// A mesh's lists once the vertices made on one grid edge are welded.
#[unsafe(no_mangle)]
pub extern "C" fn sirveshan_weld(
    v: u32,
    t: u32,
    vertices: &mut [f32],
    triangles: &mut [u32],
    edges: &mut [u32],
) -> WeldedCounts
    ensures { record { answer = result; vertices = vertices.new; triangles = triangles.new; edges = edges.new }
        ≡ weld_call (weld v t vertices.old triangles.old edges.old) }
{
    WeldedCounts::from(weld::weld(v, t, vertices, triangles, edges))
}

// The summary by layer of a block's samples, two numbers a layer, in the first places of a lent list.
#[unsafe(no_mangle)]
pub extern "C" fn sirveshan_make_summary(n: usize, samples: &[f32], summary: &mut [f32]) -> Numbers
    ensures { record { answer = result; summary = summary.new } ≡ make_call (make_summary n samples.now summary.old) }
{
    as_judged(make_summary(n, samples, summary))
}

// One sample of a block set, and the layers of its summary that hold the point brought up to date.
#[unsafe(no_mangle)]
pub extern "C" fn sirveshan_set_sample(
    n: usize,
    samples: &mut [f32],
    x: i32,
    y: i32,
    z: i32,
    value: f32,
    summary: &mut [f32],
) -> Numbers
    ensures { record { answer = result; samples = samples.new; summary = summary.new }
        ≡ set_call (set_sample n samples.old x y z value summary.old) }
{
    as_judged(set_sample(n, samples, x, y, z, value, summary))
}

// The viewer's calls.
#[unsafe(no_mangle)]
pub extern "C" fn sirveshan_subdivisions(src: &[u8]) -> u64
    ensures { result ≡ subdivisions_answer src.now }
{
    viewer::subdivisions(src)
}

#[unsafe(no_mangle)]
pub extern "C" fn sirveshan_blank(src: &[u8]) -> u64
    ensures { result ≡ blank_answer src.now }
{
    viewer::blank(src)
}

#[unsafe(no_mangle)]
pub extern "C" fn sirveshan_sample(src: &[u8], x: i32, y: i32, z: i32) -> u64
    ensures { result ≡ sample_answer src.now x y z }
{
    viewer::sample(src, x, y, z)
}

// The same sample, with where it is stored.
#[unsafe(no_mangle)]
pub extern "C" fn sirveshan_sample_kind(src: &[u8], x: i32, y: i32, z: i32) -> Sampled
    ensures { result ≡ as_sampled (record_point src.now x y z) }
{
    Sampled::from(viewer::read_point(src, x, y, z))
}

// The line of the record that begins at a place of a run of records.
#[unsafe(no_mangle)]
pub extern "C" fn sirveshan_sheet_line(src: &[u8], at: usize) -> LineTold
    ensures { result ≡ as_line_told (sheet_line src.now at) }
{
    LineTold::from(sheet::sheet_line(src, at))
}

// The figures of all records of a run that are not refused, added up.
#[unsafe(no_mangle)]
pub extern "C" fn sirveshan_sheet_total(src: &[u8]) -> TotalTold
    ensures { result ≡ as_total_told (sheet_total src.now) }
{
    TotalTold::from(sheet::sheet_total(src))
}
