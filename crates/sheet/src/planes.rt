// The regular cells of a record, from its bytes: a plane of samples is decoded once, and two planes at a time have all that a layer of cells and the
// grid edges between them are told by.
ghost use Rattle.std.specs.Prelude.{◌≡◌, ℕ, ◌+◌, ◌*◌, ◌≤◌, ◌<◌, length, get_or};
ghost use Rattle.std.specs.Float.{nan};
ghost use Rattle.model.specs.Limits.{most_subdivisions};
ghost use Rattle.model.specs.Star.{Star};
ghost use Rattle.model.specs.Record.{star_of};
ghost use Rattle.cases.specs.Sheets.{sheet_places, Measured, Plane};
ghost use Rattle.sheet.specs.Planes.{plane_places, plane_figures, step_figures, planes_to, LayerCounts};
ghost use Rattle.sheet.specs.Sizes.{most_planes, Small};
ghost use Rattle.cells.specs.Puts.{Few};

use crate::counted_points::{crossings, insides};
use crate::{Edges, Figures, NO_FIGURES};
use cases::SHEET;
use cells::SheetIndex;
use cells::sheet_cells::{CaseNumbers, LentSheet, LentTables};
use counting::count_sheet;
use grid::voxel_blocks::{MOST_SUBDIVISIONS, in_block};
use model::Counts;
use record::passed::Record;
use regular::cases_between;
use tables::{regular_cell_class, regular_cell_data, regular_vertex_data};

const PLANE: usize = (MOST_SUBDIVISIONS + 1) * (MOST_SUBDIVISIONS + 1);

// The samples at x, from the first place on.
fn fill_plane(src: &Record<'_>, x: usize, plane: &mut [f32])
    requires x_in { x ≤ src.now.header.block.subdivisions }
    requires plane_len { length plane.old ≡ plane_places }
    ensures { Plane (star_of src.now.bytes.now) x plane.new }
{
    let n = src.header.block.subdivisions;
    let first = in_block(n, x, 0, 0);
    let count = (n + 1) * (n + 1);
    for (k, sample) in plane[..count].iter_mut().enumerate() {
        *sample = src.sample(first + k);
    }
}

// So many samples of the upper plane become the lower one's.
fn move_down(count: usize, high: &[f32], low: &mut [f32])
    requires { (count ≤ length high.now) × (count ≤ length low.old) }
    ensures { (k : ℕ) → k < count → get_or low.new k nan ≡ get_or high.now k nan }
{
    low[..count].copy_from_slice(&high[..count]);
}

// The crossing edges along z in a plane, line by line.
fn crossings_along(n: usize, threshold: f32, plane: &[f32]) -> u32
    requires { (n ≤ most_subdivisions) × (length plane.now ≡ plane_places) }
    ensures { (result ≤ plane_places) × ((s : Star) (x : ℕ) → Measured s n threshold → Plane s x plane.now → result ≡ (plane_figures s x).edges.z) }
{
    let m = n + 1;
    let mut found = 0;
    for y in 0..m {
        let start = m * y;
        found += crossings(
            threshold,
            &plane[start..start + n],
            &plane[start + 1..start + m],
        );
    }
    found
}

// What a plane has by itself.
fn plane_figures(n: usize, threshold: f32, plane: &[f32]) -> Figures
    requires { (n ≤ most_subdivisions) × (length plane.now ≡ plane_places) }
    ensures { Small 1 result × ((s : Star) (x : ℕ) → Measured s n threshold → Plane s x plane.now → result ≡ plane_figures s x) }
{
    let m = n + 1;
    let y = crossings(threshold, &plane[..m * n], &plane[m..m * m]);
    let z = crossings_along(n, threshold, plane);
    Figures {
        inside: u64::from(insides(threshold, &plane[..m * m])),
        edges: Edges {
            x: 0,
            y: u64::from(y),
            z: u64::from(z),
        },
        ..NO_FIGURES
    }
}

// What a layer's cells, the edges along it and the plane above it add.
fn step_figures(n: usize, threshold: f32, low: &[f32], high: &[f32], counts: Counts) -> Figures
    requires n_le_most_subdivisions { n ≤ most_subdivisions }
    requires low_len { (length low.now ≡ plane_places) × (length high.now ≡ plane_places) }
    requires few { Few sheet_places counts }
    ensures { Small 1 result × ((s : Star) (x : ℕ) → Measured s n threshold → Plane s x low.now → Plane s (x + 1) high.now → LayerCounts s x counts → result ≡ step_figures s x) }
{
    let count = (n + 1) * (n + 1);
    let plane = plane_figures(n, threshold, high);
    let x = crossings(threshold, &low[..count], &high[..count]);
    Figures {
        edges: Edges {
            x: u64::from(x),
            ..plane.edges
        },
        vertices: counts.vertices as u64,
        triangles: counts.triangles as u64,
        ..plane
    }
}

// All planes and layers.
pub fn count_layers(src: &Record<'_>) -> Figures
    ensures { Small most_planes result × (result ≡ planes_to (star_of src.now.bytes.now) src.now.header.block.subdivisions) }
{
    let n = src.header.block.subdivisions;
    let threshold = src.header.threshold;
    let classes = regular_cell_class();
    let cells = regular_cell_data();
    let codes = regular_vertex_data();
    let tables = LentTables {
        classes: &classes,
        cells: &cells,
        codes: &codes,
    };
    let mut cases = [0u8; SHEET];
    let mut marks = [0u8; SHEET];
    let mut low = [0.0f32; PLANE];
    let mut high = [0.0f32; PLANE];
    fill_plane(src, 0, &mut high);
    let mut figures = plane_figures(n, threshold, &high);
    for x in 0..n {
        move_down((n + 1) * (n + 1), &high, &mut low);
        fill_plane(src, x + 1, &mut high);
        cases_between(n, threshold, &low, &high, &mut cases, &mut marks);
        let sheet = LentSheet {
            index: SheetIndex::Layer(x),
            tables,
            numbers: CaseNumbers::Bytes(&cases),
            marks: &marks,
        };
        let counts = count_sheet(n, &sheet);
        let more = step_figures(n, threshold, &low, &high, counts);
        figures = figures + more;
    }
    figures
}
