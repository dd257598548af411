// The cells of both kinds: a cell's vertices and triangles. One set of functions serves both kinds: to them a
// cell is where it lies, its case's row of codes, its class's row of cell data and its winding.
#![tactic(auto)]

mod cell;
mod edges;
pub mod sheet_cells;
mod triangles;

// What the writing pass has made so far, and the samples that its vertices have read.
#[derive(Clone, Copy)]
pub struct Progress {
    pub vertices: usize,
    pub triangles: usize,
    pub reads: u64,
}

// The cells whose case numbers a sheet holds: the layer of regular cells at x, or the transition cells of a side.
#[derive(Clone, Copy)]
pub enum SheetIndex {
    Layer(usize),
    Side(usize),
}
