// What a reader must believe: the plain types here, and in specs/ the definition of everything that the other crates
// are proved against, in document 01's words. Those marked repr(C) pass between this code and its callers in C and Rust.

#![tactic(auto)]

ghost use Rattle.std.specs.Prelude.{◌≡◌, ◌+◌, ◌<◌, ◌^◌};
ghost use Rattle.model.specs.Refusals.{numbers, numbers_of};

use std::ops::Add;

// What stands in the place of a grid edge's number for a transition vertex, which is given none, also where it lies on one.
pub const NO_EDGE: u32 = 4294967295;

// Three whole numbers, one for each axis: a grid point, a cell, an origin, the sizes of a volume.
#[repr(C)]
#[derive(Clone, Copy)]
pub struct Xyz {
    pub x: usize,
    pub y: usize,
    pub z: usize,
}

// A position or a gradient.
#[repr(C)]
#[derive(Clone, Copy, PartialEq)]
pub struct Vector {
    pub x: f32,
    pub y: f32,
    pub z: f32,
}

#[repr(C)]
#[derive(Clone, Copy)]
pub struct Block {
    pub base: Vector,
    pub size: f32,
    pub subdivisions: usize,
}

#[derive(Clone, Copy)]
pub struct GridPoint {
    pub position: Vector,
    pub gradient: Vector,
    pub sample: f32,
}

#[derive(Clone, Copy)]
pub struct Vertex {
    pub position: Vector,
    pub gradient: Vector,
}

// Three vertex indices, in the order in which they are sent out.
#[derive(Clone, Copy)]
pub struct Triangle {
    pub a: u32,
    pub b: u32,
    pub c: u32,
}

// A unit vector: what it adds on each axis, and what it takes away.
#[derive(Clone, Copy)]
pub struct Direction {
    pub up: Xyz,
    pub down: Xyz,
}

#[derive(Clone, Copy)]
pub struct Rotation {
    pub origin: Xyz,
    pub u: Direction,
    pub v: Direction,
    pub w: Direction,
}

// Where a sample is stored: in the block, or on one of the six extension faces, by its number.
#[derive(Clone, Copy, PartialEq)]
pub enum PlaceKind {
    InBlock,
    Face(usize),
}

// The least and the greatest sample of a layer of cells.
#[derive(Clone, Copy)]
pub struct Extent {
    pub least: f32,
    pub greatest: f32,
}

#[derive(Clone, Copy)]
pub struct FacePoint {
    pub side: usize,
    pub u: usize,
    pub v: usize,
}

#[repr(C)]
#[derive(Clone, Copy)]
pub struct Counts {
    pub vertices: usize,
    pub triangles: usize,
}

pub const NO_COUNTS: Counts = Counts {
    vertices: 0,
    triangles: 0,
};

impl Add for Counts {
    type Output = Counts;

    ghost can_add = { λ a b. (a.vertices + b.vertices < 2 ^ 64) × (a.triangles + b.triangles < 2 ^ 64) };

    ghost add_gives = { λ a b c. c ≡ record { vertices = a.vertices + b.vertices; triangles = a.triangles + b.triangles } };

    fn add(self, rhs: Counts) -> Counts {
        Counts {
            vertices: self.vertices + rhs.vertices,
            triangles: self.triangles + rhs.triangles,
        }
    }
}

// A cell's vertex indices, at most twelve, kept together with their count.
#[derive(Clone, Copy)]
pub struct CellVertices {
    pub index: [u32; 12],
    pub count: usize,
}

// The refusals, in the order of their numbers. An STL of too many triangles to write wants no length: 0.
#[derive(Clone, Copy)]
pub enum Refusal {
    Subdivisions(usize),
    Mask(usize),
    Measure(usize),
    CentreLength(usize),
    MissingNeighbour(usize),
    NeighboursTooLong(usize),
    BadSample(usize),
    FaceMismatch(FacePoint),
    IndexStoreTooShort(usize),
    NoRoom(Counts),
    RecordLength,
    Version(usize),
    SampleCount(usize),
    BufferTooShort(usize),
    PointNeverSampled(usize),
    StlLength(usize),
    NoVertex(usize),
    BadFiller,
    ChangesTooShort(usize),
    VolumeSize,
    VolumeLength,
    FirstPoint,
    EdgesTooShort(usize),
    LayerDiffers(usize),
}

// A refusal as document 01 gives it out.
#[repr(C)]
#[derive(Clone, Copy, PartialEq)]
pub struct Numbers {
    pub number: usize,
    pub first: usize,
    pub second: usize,
    pub third: usize,
}

// A block as it is lent: its header, its own samples and those of its finer neighbours.
#[derive(Clone, Copy)]
pub struct Lent<'a> {
    pub header: Header,
    pub centre: &'a [f32],
    pub neighbours: &'a [f32],
}

// The buffers that a mesh is written into.
#[derive(Drop)]
pub struct Buffers<'a> {
    pub store: &'a mut [u32],
    pub vertices: &'a mut [f32],
    pub triangles: &'a mut [u32],
    pub edges: &'a mut [u32],
}

// What extraction reports: its answer, and the sample reads that it has made once every check has passed.
#[derive(Clone, Copy)]
pub struct Report {
    pub answer: Result<Counts, Refusal>,
    pub reads: u64,
}

// What a block record tells beside its samples.
#[repr(C)]
#[derive(Clone, Copy)]
pub struct Header {
    pub block: Block,
    pub mask: u8,
    pub threshold: f32,
}

impl Numbers {
    fn new(number: usize, first: usize, second: usize, third: usize) -> Numbers
        ensures { result ≡ numbers number first second third }
    {
        Numbers {
            number,
            first,
            second,
            third,
        }
    }
}

// The number of a refusal, and its three numbers.
impl From<Refusal> for Numbers {
    ghost from_gives = { λ refusal told. told ≡ numbers_of refusal };

    fn from(refusal: Refusal) -> Numbers {
        match refusal {
            Refusal::Subdivisions(n) => Numbers::new(1, n, 0, 0),
            Refusal::Mask(mask) => Numbers::new(2, mask, 0, 0),
            Refusal::Measure(which) => Numbers::new(3, which, 0, 0),
            Refusal::CentreLength(wanted) => Numbers::new(4, wanted, 0, 0),
            Refusal::MissingNeighbour(side) => Numbers::new(5, side, 0, 0),
            Refusal::NeighboursTooLong(wanted) => Numbers::new(6, wanted, 0, 0),
            Refusal::BadSample(place) => Numbers::new(7, place, 0, 0),
            Refusal::FaceMismatch(at) => Numbers::new(8, at.side, at.u, at.v),
            Refusal::IndexStoreTooShort(wanted) => Numbers::new(9, wanted, 0, 0),
            Refusal::NoRoom(wanted) => Numbers::new(10, wanted.vertices, wanted.triangles, 0),
            Refusal::RecordLength => Numbers::new(11, 0, 0, 0),
            Refusal::Version(byte) => Numbers::new(12, byte, 0, 0),
            Refusal::SampleCount(wanted) => Numbers::new(13, wanted, 0, 0),
            Refusal::BufferTooShort(wanted) => Numbers::new(14, wanted, 0, 0),
            Refusal::PointNeverSampled(count) => Numbers::new(15, count, 0, 0),
            Refusal::StlLength(wanted) => Numbers::new(16, wanted, 0, 0),
            Refusal::NoVertex(triangle) => Numbers::new(17, triangle, 0, 0),
            Refusal::BadFiller => Numbers::new(18, 0, 0, 0),
            Refusal::ChangesTooShort(wanted) => Numbers::new(19, wanted, 0, 0),
            Refusal::VolumeSize => Numbers::new(20, 0, 0, 0),
            Refusal::VolumeLength => Numbers::new(21, 0, 0, 0),
            Refusal::FirstPoint => Numbers::new(22, 0, 0, 0),
            Refusal::EdgesTooShort(wanted) => Numbers::new(23, wanted, 0, 0),
            Refusal::LayerDiffers(layer) => Numbers::new(26, layer, 0, 0),
        }
    }
}
