// The points of a transition cell, as the Rust's `aux_tables` has them: where each of the thirteen lies.
ghost use Rattle.std.specs.Prelude.{◌≡◌, ◌<◌};
ghost use Rattle.tables.specs.Points as Points;
ghost use Rattle.tables.specs.Points.{cell_point};

// A point of the fine face, in fine steps from the cell's corner. Document 01 prescribes this enum of two structs.
#[derive(Clone, Copy)]
pub struct Offset {
    pub u: usize,
    pub v: usize,
}

// A point of the coarse face, in steps of the block's own grid.
#[derive(Clone, Copy)]
pub struct Corner {
    pub u: usize,
    pub v: usize,
}

#[derive(Clone, Copy)]
pub enum CellPoint {
    Fine(Offset),
    Coarse(Corner),
}

fn fine(u: usize, v: usize) -> CellPoint
    ensures { result ≡ Points.fine u v }
{
    CellPoint::Fine(Offset { u, v })
}

fn coarse(u: usize, v: usize) -> CellPoint
    ensures { result ≡ Points.coarse u v }
{
    CellPoint::Coarse(Corner { u, v })
}

// The table is a match: a constant one is copied at each look-up.
pub fn cell_point(i: usize) -> CellPoint
    requires { i < 13 }
    ensures { result ≡ cell_point i }
{
    match i {
        0 => fine(0, 0),
        1 => fine(1, 0),
        2 => fine(2, 0),
        3 => fine(0, 1),
        4 => fine(1, 1),
        5 => fine(2, 1),
        6 => fine(0, 2),
        7 => fine(1, 2),
        8 => fine(2, 2),
        9 => coarse(0, 0),
        10 => coarse(1, 0),
        11 => coarse(0, 1),
        _ => coarse(1, 1),
    }
}
