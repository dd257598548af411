// Document 01, 'Regular cells' and 'Transition cells': a grid point with its position, gradient and sample, and the vertex between two of the
// block's own. Where a neighbour is read, 2n stands for n, so that n is at most twice a block's there; fine is the neighbour's part of the
// samples at the point's side.
ghost use Rattle.std.specs.Prelude.{◌≡◌, ◌+◌, ◌*◌, ◌≤◌, ◌<◌, List, Float, length};
ghost use Rattle.model.specs.Limits.{most_fine};
ghost use Rattle.model.specs.Samples.{sample_length};
ghost use Rattle.model.specs.Formulas.{gradient_at, vertex_between};
ghost use Rattle.model.specs.Rotations.{neighbour_point};
ghost use Rattle.model.specs.Sides.{neighbour_of};
ghost use Rattle.model.specs.Points.{regular_point, fine_grid_point, transition_point};
ghost use Rattle.grid.specs.Places.{Within};
ghost use Rattle.grid.specs.RotationLaws.{OnFineFace};
ghost use Rattle.points.specs.CellPoints.{Bordered, InCell, fine_gradient};
ghost use Rattle.points.specs.Grids.{subdivisions_of, star_with};
ghost use Rattle.points.specs.Steps.{Reach, up_reading, down_reading, difference_at, Inside, difference_inside};

use crate::block::{fine_position, original_position, regular_position};
use crate::formulas::{between_vectors, weight};
use crate::fractions::Grid;
use grid::readings::{reading_at, value_in_block, value_of};
use grid::rotation::{face_point, fine_points};
use grid::voxel_blocks::{in_block, on_face, sample};
use model::{FacePoint, GridPoint, Lent, PlaceKind, Vector, Vertex, Xyz};
use tables::aux_tables::CellPoint;

// One step along an axis from an in-block point: the point's place, how many places the step leads on, the axis's extension face on the low
// side, the point's coordinate along the axis and its two others. n and the samples stay beside it: as fields they would be named again for
// each of a gradient's three axes.
#[derive(Clone, Copy)]
struct AxisStep {
    at: usize,
    stride: usize,
    low: usize,
    along: usize,
    i: usize,
    j: usize,
}

// What the point one step up reads as: one stride on, or where the point is the axis's last one on the extension face low + 1.
fn reading_above(samples: &[f32], n: usize, step: AxisStep) -> Result<(f32, PlaceKind), usize>
    requires { (length samples.now ≡ sample_length n) × Reach n step.at step.stride step.low step.along step.i step.j }
    ensures { result ≡ up_reading samples.now n step.at step.stride step.low step.along step.i step.j }
{
    if step.along < n {
        return reading_at(samples, step.at + step.stride, PlaceKind::InBlock);
    }
    let high = step.low + 1;
    reading_at(
        samples,
        on_face(n, high, step.i, step.j),
        PlaceKind::Face(high),
    )
}

// The same one step down, with the extension face low.
fn reading_below(samples: &[f32], n: usize, step: AxisStep) -> Result<(f32, PlaceKind), usize>
    requires { (length samples.now ≡ sample_length n) × Reach n step.at step.stride step.low step.along step.i step.j }
    ensures { result ≡ down_reading samples.now n step.at step.stride step.low step.along step.i step.j }
{
    if 0 < step.along {
        return reading_at(samples, step.at - step.stride, PlaceKind::InBlock);
    }
    reading_at(
        samples,
        on_face(n, step.low, step.i, step.j),
        PlaceKind::Face(step.low),
    )
}

// The sample one step up minus the one a step down.
fn difference(samples: &[f32], n: usize, step: AxisStep) -> f32
    requires { (length samples.now ≡ sample_length n) × Reach n step.at step.stride step.low step.along step.i step.j }
    ensures { result ≡ difference_at samples.now n step.at step.stride step.low step.along step.i step.j }
{
    value_of(reading_above(samples, n, step)) - value_of(reading_below(samples, n, step))
}

// Steps along x, y and z lead m * m, m and 1 places on; the faces are 0 and 1, 2 and 3, 4 and 5.
fn gradient(n: usize, samples: &[f32], p: Xyz) -> Vector
    requires n_le_most_fine { (n ≤ most_fine) × (length samples.now ≡ sample_length n) }
    requires within { Within n p }
    ensures { result ≡ gradient_at n samples.now p }
{
    let m = n + 1;
    let at = in_block(n, p.x, p.y, p.z);
    let x = AxisStep {
        at,
        stride: m * m,
        low: 0,
        along: p.x,
        i: p.y,
        j: p.z,
    };
    let y = AxisStep {
        at,
        stride: m,
        low: 2,
        along: p.y,
        i: p.x,
        j: p.z,
    };
    let z = AxisStep {
        at,
        stride: 1,
        low: 4,
        along: p.z,
        i: p.x,
        j: p.y,
    };
    Vector {
        x: difference(samples, n, x),
        y: difference(samples, n, y),
        z: difference(samples, n, z),
    }
}

// The same at a point that no block face touches: both steps stay in the block.
fn difference_inside(samples: &[f32], at: usize, stride: usize) -> f32
    requires { (at + stride < length samples.now) × (stride ≤ at) }
    ensures { result ≡ difference_inside samples.now at stride }
{
    value_in_block(samples, at + stride) - value_in_block(samples, at - stride)
}

fn gradient_inside(n: usize, samples: &[f32], p: Xyz) -> Vector
    requires n_le_most_fine { (n ≤ most_fine) × (length samples.now ≡ sample_length n) }
    requires inside { Inside n p }
    ensures { result ≡ gradient_at n samples.now p }
{
    let m = n + 1;
    let at = in_block(n, p.x, p.y, p.z);
    Vector {
        x: difference_inside(samples, at, m * m),
        y: difference_inside(samples, at, m),
        z: difference_inside(samples, at, 1),
    }
}

fn regular_point(grid: &Grid<'_>, p: Xyz) -> GridPoint
    requires { Within (subdivisions_of grid.now) p }
    ensures { (ns : List Float) → result ≡ regular_point (star_with grid.now ns) p }
{
    let Lent { header, centre, .. } = grid.lent;
    let n = header.block.subdivisions;
    let position = regular_position(header, &grid.fractions, p);
    let slope = gradient(n, centre, p);
    let value = sample(n, centre, p);
    GridPoint {
        position,
        gradient: slope,
        sample: value,
    }
}

// The vertex between two of the block's grid points. It makes no GridPoint: one returned through memory costs a stall.
pub fn regular_vertex_between(grid: &Grid<'_>, a: Xyz, b: Xyz) -> Vertex
    requires { Within (subdivisions_of grid.now) a × Within (subdivisions_of grid.now) b }
    ensures { (ns : List Float) → result ≡ vertex_between grid.now.lent.header.threshold (regular_point (star_with grid.now ns) a) (regular_point (star_with grid.now ns) b) }
{
    let Lent { header, centre, .. } = grid.lent;
    let n = header.block.subdivisions;
    let w = weight(sample(n, centre, a), sample(n, centre, b), header.threshold);
    let position = between_vectors(
        w,
        regular_position(header, &grid.fractions, a),
        regular_position(header, &grid.fractions, b),
    );
    let slope = between_vectors(w, gradient(n, centre, a), gradient(n, centre, b));
    Vertex {
        position,
        gradient: slope,
    }
}

// The same between two points that no block face touches: shrinking moves neither, and both gradients are read in the block.
pub fn vertex_inside(grid: &Grid<'_>, a: Xyz, b: Xyz) -> Vertex
    requires { Inside (subdivisions_of grid.now) a × Inside (subdivisions_of grid.now) b }
    ensures { (ns : List Float) → result ≡ vertex_between grid.now.lent.header.threshold (regular_point (star_with grid.now ns) a) (regular_point (star_with grid.now ns) b) }
{
    let Lent { header, centre, .. } = grid.lent;
    let n = header.block.subdivisions;
    let w = weight(sample(n, centre, a), sample(n, centre, b), header.threshold);
    let position = between_vectors(
        w,
        original_position(header.block, &grid.fractions, a),
        original_position(header.block, &grid.fractions, b),
    );
    let slope = between_vectors(
        w,
        gradient_inside(n, centre, a),
        gradient_inside(n, centre, b),
    );
    Vertex {
        position,
        gradient: slope,
    }
}

// Of the fine point (u, v) of a side, counted in half steps; there is the same point in the neighbour.
fn fine_gradient(n: usize, centre: &[f32], fine: &[f32], at: FacePoint, there: Xyz) -> Vector
    requires centre_len { length centre.now ≡ sample_length n }
    requires fine_len { length fine.now ≡ sample_length (2 * n) }
    requires on_fine_face { OnFineFace n at.side at.u at.v }
    requires there_value { (there ≡ neighbour_point n at.side at.u at.v) × Within (2 * n) there }
    ensures { result ≡ fine_gradient n centre.now fine.now at.side at.u at.v }
{
    if (at.u % 2 == 0) & (at.v % 2 == 0) {
        return gradient(n, centre, face_point(n, at.side, at.u / 2, at.v / 2));
    }
    gradient(2 * n, fine, there)
}

fn fine_grid_point(grid: &Grid<'_>, fine: &[f32], at: FacePoint) -> GridPoint
    requires fine_len { length fine.now ≡ sample_length (2 * subdivisions_of grid.now) }
    requires on_fine_face { OnFineFace (subdivisions_of grid.now) at.side at.u at.v }
    ensures { (ns : List Float) → fine.now ≡ neighbour_of (subdivisions_of grid.now) grid.now.lent.header.mask ns at.side → result ≡ fine_grid_point (star_with grid.now ns) at.side at.u at.v }
{
    let Lent { header, centre, .. } = grid.lent;
    let n = header.block.subdivisions;
    let k = fine_points(n, at.side, at.u, at.v);
    let position = fine_position(header.block, &grid.fractions, k.here);
    let slope = fine_gradient(n, centre, fine, at, k.there);
    let value = sample(2 * n, fine, k.there);
    GridPoint {
        position,
        gradient: slope,
        sample: value,
    }
}

// A point of a transition cell.
pub fn transition_point(grid: &Grid<'_>, fine: &[f32], cell: FacePoint, p: CellPoint) -> GridPoint
    requires bordered { Bordered (subdivisions_of grid.now) fine.now cell }
    requires in_cell { InCell p }
    ensures { (ns : List Float) → fine.now ≡ neighbour_of (subdivisions_of grid.now) grid.now.lent.header.mask ns cell.side → result ≡ transition_point (star_with grid.now ns) cell.side cell.u cell.v p }
{
    let side = cell.side;
    match p {
        CellPoint::Fine(offset) => {
            let u = 2 * cell.u + offset.u;
            let v = 2 * cell.v + offset.v;
            fine_grid_point(grid, fine, FacePoint { side, u, v })
        }
        CellPoint::Coarse(corner) => {
            let at = face_point(
                grid.lent.header.block.subdivisions,
                side,
                cell.u + corner.u,
                cell.v + corner.v,
            );
            regular_point(grid, at)
        }
    }
}
