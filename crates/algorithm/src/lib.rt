// Extraction: the mesh of a block and its finer neighbours. The block is judged, the mesh is counted, and then it is written into the lent
// buffers, cell by cell.
#![tactic(auto)]

ghost use Rattle.std.specs.Prelude.{◌≡◌, cond, ◌≤◌, length, is_some};
ghost use Rattle.model.specs.Star.{star, lent_star};
ghost use Rattle.model.specs.Mesh.{mesh_of, store_length};
ghost use Rattle.model.specs.Judging.{judge_star};
ghost use Rattle.model.specs.Extraction.{extract, outcome};
ghost use Rattle.model.specs.Edges.{extract_whole};
ghost use Rattle.model.specs.Layered.{layered_mesh, extract_layered};
ghost use Rattle.layers.specs.Over.{Trusted, summary_judged};
ghost use Rattle.layers.specs.Layered.{spared};
ghost use Rattle.grid.specs.Shape.{Shaped};
ghost use Rattle.writing.specs.Writing.{Exact, Numbered, Written};
ghost use Rattle.algorithm.specs.Verdicts.{told_of, judged, room_judged, numbers_left, all_judged, reported, Leaves};

use agreement::judge_faces;
use counting::count_mesh;
use grid::shared_vertex_indices::store_length;
use judge::{judge_edges, judge_room, judge_star, judge_store};
use layers::judging::judge_summary;
use model::{Buffers, Header, Lent, Refusal, Report};
use writing::write_mesh;

// In the place of a summary where there is none.
const NO_SUMMARY: [f32; 0] = [];

// 14 and 26, of the summary where there is one.
fn judge_told(lent: &Lent<'_>, summary: Option<&[f32]>) -> Result<(), Refusal>
    requires { judge_star (lent_star lent.now) ≡ Ok tt }
    ensures { result ≡ summary_judged (is_some summary.entry) lent.now.header.block.subdivisions lent.now.centre.now (told_of summary.entry) }
{
    match summary {
        Some(summary) => judge_summary(lent.header.block.subdivisions, lent.centre, summary),
        None => Ok(()),
    }
}

// 1 to 8, 14 and 26 of the summary, and 9, in that order.
fn judge(lent: &Lent<'_>, summary: Option<&[f32]>, held: usize) -> Result<(), Refusal>
    ensures { result ≡ judged (is_some summary.entry) (lent_star lent.now) (told_of summary.entry) held }
{
    judge_star(lent)?;
    judge_faces(lent)?;
    judge_told(lent, summary)?;
    judge_store(lent.header.block.subdivisions, held)
}

// The places of the further list that are written.
fn numbers_asked(numbered: bool, vertices: usize) -> usize
    ensures { result ≡ cond numbered vertices 0 }
{
    if numbered { vertices } else { 0 }
}

// Into the parts of the lists that are just as long as what is written. They come one by one: of a part of a list that stands in a struct no
// proof of a caller knows what is left there.
fn write_parts(
    lent: &Lent<'_>,
    summary: &[f32],
    store: &mut [u32],
    vertices: &mut [f32],
    triangles: &mut [u32],
    edges: &mut [u32],
) -> u64
    requires shaped { Shaped (lent_star lent.now) }
    requires trusted { Trusted lent.now.header.block.subdivisions lent.now.centre.now summary.now }
    requires exact { Exact (lent_star lent.now) vertices.old triangles.old store.old }
    ensures written { Written (mesh_of (lent_star lent.now)) vertices.new triangles.new store.new }
    ensures reads { result ≡ (layered_mesh (lent_star lent.now) summary.now).reads }
    ensures edges { Numbered (mesh_of (lent_star lent.now)) edges.new }
{
    let mut out = Buffers {
        store,
        vertices,
        triangles,
        edges,
    };
    write_mesh(lent, summary, &mut out)
}

// The mesh of a block that has passed 1 to 9, or 23 or 10. A flag tells whether the further list is asked for, and no Option does: of a list in
// an Option that is lent to be written no clause can plainly say what is left there.
fn fill(
    lent: &Lent<'_>,
    summary: &[f32],
    numbered: bool,
    store: &mut [u32],
    vertices: &mut [f32],
    triangles: &mut [u32],
    edges: &mut [u32],
) -> Result<Report, Refusal>
    requires shaped { Shaped (lent_star lent.now) }
    requires trusted { Trusted lent.now.header.block.subdivisions lent.now.centre.now summary.now }
    requires stored { store_length lent.now.header.block.subdivisions ≤ length store.old }
    ensures leaves { Leaves (outcome (spared (lent_star lent.now) summary.now) store.old vertices.old triangles.old (room_judged numbered (lent_star lent.now) (length vertices.old) (length triangles.old) (length edges.old))) (reported result) store.new vertices.new triangles.new }
    ensures edges { edges.new ≡ numbers_left numbered (lent_star lent.now) edges.old (room_judged numbered (lent_star lent.now) (length vertices.old) (length triangles.old) (length edges.old)) }
{
    let counts = count_mesh(lent, summary);
    let numbers = numbers_asked(numbered, counts.vertices);
    judge_edges(numbers, edges.len())?;
    judge_room(counts, vertices.len(), triangles.len())?;
    let places = store_length(lent.header.block.subdivisions);
    let reads = write_parts(
        lent,
        summary,
        &mut store[..places],
        &mut vertices[..6 * counts.vertices],
        &mut triangles[..3 * counts.triangles],
        &mut edges[..numbers],
    );
    Ok(Report {
        answer: Ok(counts),
        reads,
    })
}

// One core for all calls. Its flag is fill's.
fn mesh(
    lent: &Lent<'_>,
    summary: Option<&[f32]>,
    numbered: bool,
    store: &mut [u32],
    vertices: &mut [f32],
    triangles: &mut [u32],
    edges: &mut [u32],
) -> Result<Report, Refusal>
    ensures leaves { Leaves (outcome (spared (lent_star lent.now) (told_of summary.entry)) store.old vertices.old triangles.old (all_judged (is_some summary.entry) numbered (lent_star lent.now) (told_of summary.entry) (length store.old) (length vertices.old) (length triangles.old) (length edges.old))) (reported result) store.new vertices.new triangles.new }
    ensures edges { edges.new ≡ numbers_left numbered (lent_star lent.now) edges.old (all_judged (is_some summary.entry) numbered (lent_star lent.now) (told_of summary.entry) (length store.old) (length vertices.old) (length triangles.old) (length edges.old)) }
{
    judge(lent, summary, store.len())?;
    let summary = summary.unwrap_or(&NO_SUMMARY);
    fill(lent, summary, numbered, store, vertices, triangles, edges)
}

// A refusal reports no reads.
fn report(answer: Result<Report, Refusal>) -> Report
    ensures { result ≡ reported answer }
{
    match answer {
        Ok(report) => report,
        Err(refusal) => Report {
            answer: Err(refusal),
            reads: 0,
        },
    }
}

pub fn extract(
    header: Header,
    centre: &[f32],
    neighbours: &[f32],
    store: &mut [u32],
    vertices: &mut [f32],
    triangles: &mut [u32],
) -> Report
    ensures answer { result.answer ≡ (extract (star header centre.now neighbours.now) store.old vertices.old triangles.old).answer }
    ensures store { store.new ≡ (extract (star header centre.now neighbours.now) store.old vertices.old triangles.old).store }
    ensures vertices { vertices.new ≡ (extract (star header centre.now neighbours.now) store.old vertices.old triangles.old).vertices }
    ensures triangles { triangles.new ≡ (extract (star header centre.now neighbours.now) store.old vertices.old triangles.old).triangles }
    ensures reads { result.reads ≡ (extract (star header centre.now neighbours.now) store.old vertices.old triangles.old).reads }
{
    let lent = Lent {
        header,
        centre,
        neighbours,
    };
    let mut none = [0u32; 0];
    report(mesh(&lent, None, false, store, vertices, triangles, &mut none))
}

// The same, and the number of each vertex's grid edge in a further list (document 02, [10]).
pub fn extract_whole(
    header: Header,
    centre: &[f32],
    neighbours: &[f32],
    store: &mut [u32],
    vertices: &mut [f32],
    triangles: &mut [u32],
    edges: &mut [u32],
) -> Report
    ensures answer { result.answer ≡ (extract_whole (star header centre.now neighbours.now) store.old vertices.old triangles.old edges.old).mesh.answer }
    ensures store { store.new ≡ (extract_whole (star header centre.now neighbours.now) store.old vertices.old triangles.old edges.old).mesh.store }
    ensures vertices { vertices.new ≡ (extract_whole (star header centre.now neighbours.now) store.old vertices.old triangles.old edges.old).mesh.vertices }
    ensures triangles { triangles.new ≡ (extract_whole (star header centre.now neighbours.now) store.old vertices.old triangles.old edges.old).mesh.triangles }
    ensures reads { result.reads ≡ (extract_whole (star header centre.now neighbours.now) store.old vertices.old triangles.old edges.old).mesh.reads }
    ensures edges { edges.new ≡ (extract_whole (star header centre.now neighbours.now) store.old vertices.old triangles.old edges.old).edges }
{
    let lent = Lent {
        header,
        centre,
        neighbours,
    };
    report(mesh(&lent, None, true, store, vertices, triangles, edges))
}

// The same with a summary by layer, whose layers on one side of the threshold are passed over (document 02, [12]).
pub fn extract_layered(
    header: Header,
    centre: &[f32],
    neighbours: &[f32],
    summary: &[f32],
    store: &mut [u32],
    vertices: &mut [f32],
    triangles: &mut [u32],
    edges: &mut [u32],
) -> Report
    ensures answer { result.answer ≡ (extract_layered (star header centre.now neighbours.now) summary.now store.old vertices.old triangles.old edges.old).mesh.answer }
    ensures store { store.new ≡ (extract_layered (star header centre.now neighbours.now) summary.now store.old vertices.old triangles.old edges.old).mesh.store }
    ensures vertices { vertices.new ≡ (extract_layered (star header centre.now neighbours.now) summary.now store.old vertices.old triangles.old edges.old).mesh.vertices }
    ensures triangles { triangles.new ≡ (extract_layered (star header centre.now neighbours.now) summary.now store.old vertices.old triangles.old edges.old).mesh.triangles }
    ensures reads { result.reads ≡ (extract_layered (star header centre.now neighbours.now) summary.now store.old vertices.old triangles.old edges.old).mesh.reads }
    ensures edges { edges.new ≡ (extract_layered (star header centre.now neighbours.now) summary.now store.old vertices.old triangles.old edges.old).edges }
{
    let lent = Lent {
        header,
        centre,
        neighbours,
    };
    report(mesh(
        &lent,
        Some(summary),
        true,
        store,
        vertices,
        triangles,
        edges,
    ))
}
