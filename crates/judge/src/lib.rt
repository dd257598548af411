// The refusals of document 01, each judged as its model says: what extraction, the reader and the writer share.
#![tactic(auto)]

ghost use Rattle.std.specs.Prelude.{◌≡◌, ◌≤◌};
ghost use Rattle.model.specs.Limits.{most_subdivisions};
ghost use Rattle.model.specs.Refusals.{unless};
ghost use Rattle.model.specs.Judging.{usable, usable_size, judge_subdivisions, judge_mask, judge_measures, judge_buffer, judge_room, judge_store, judge_lent, judge_star};
ghost use Rattle.model.specs.Edges.{judge_edges};
ghost use Rattle.model.specs.Star.{lent_star};
ghost use Rattle.judge.specs.Parts.{judge_base};

mod lengths;
pub mod point_read;
pub mod samples;

use grid::shared_vertex_indices::store_length;
use grid::voxel_blocks::MOST_SUBDIVISIONS;
use lengths::judge_lengths;
use model::{Counts, Header, Lent, Refusal, Vector};
use samples::judge_samples;

const MOST_MASK: u8 = 63;

const LIMIT: f32 = 1048576.0;

const LEAST_SIZE: f32 = 0.0009765625;

// The refusal, unless the test holds.
pub fn unless(holds: bool, refusal: Refusal) -> Result<(), Refusal>
    ensures { result ≡ unless holds refusal }
{
    if holds { Ok(()) } else { Err(refusal) }
}

pub fn judge_subdivisions(n: usize) -> Result<(), Refusal>
    ensures { result ≡ judge_subdivisions n }
{
    unless(
        (1 <= n) & (n <= MOST_SUBDIVISIONS),
        Refusal::Subdivisions(n),
    )
}

pub fn judge_mask(mask: u8) -> Result<(), Refusal>
    ensures { result ≡ judge_mask mask }
{
    unless(mask <= MOST_MASK, Refusal::Mask(usize::from(mask)))
}

// Finite, and at most 1,048,576 in size: both comparisons are false at a NaN.
pub fn is_usable(x: f32) -> bool
    ensures { result ≡ usable x }
{
    (-LIMIT <= x) & (x <= LIMIT)
}

fn is_usable_size(x: f32) -> bool
    ensures { result ≡ usable_size x }
{
    (LEAST_SIZE <= x) & (x <= LIMIT)
}

fn judge_base(base: Vector) -> Result<(), Refusal>
    ensures { result ≡ judge_base base }
{
    unless(is_usable(base.x), Refusal::Measure(0))?;
    unless(is_usable(base.y), Refusal::Measure(1))?;
    unless(is_usable(base.z), Refusal::Measure(2))
}

fn judge_measures(header: Header) -> Result<(), Refusal>
    ensures { result ≡ judge_measures header.block header.threshold }
{
    judge_base(header.block.base)?;
    unless(is_usable_size(header.block.size), Refusal::Measure(3))?;
    unless(is_usable(header.threshold), Refusal::Measure(4))
}

pub fn judge_buffer(wanted: usize, held: usize) -> Result<(), Refusal>
    ensures { result ≡ judge_buffer wanted held }
{
    unless(wanted <= held, Refusal::BufferTooShort(wanted))
}

// 23, of extraction's further list and of the weld.
pub fn judge_edges(wanted: usize, held: usize) -> Result<(), Refusal>
    ensures { result ≡ judge_edges wanted held }
{
    unless(wanted <= held, Refusal::EdgesTooShort(wanted))
}

pub fn judge_room(wanted: Counts, vertices: usize, triangles: usize) -> Result<(), Refusal>
    ensures { result ≡ judge_room wanted.vertices wanted.triangles vertices triangles }
{
    let fits = (wanted.vertices <= vertices / 6) & (wanted.triangles <= triangles / 3);
    unless(fits, Refusal::NoRoom(wanted))
}

pub fn judge_store(n: usize, held: usize) -> Result<(), Refusal>
    requires { n ≤ most_subdivisions }
    ensures { result ≡ judge_store n held }
{
    let wanted = store_length(n);
    unless(wanted <= held, Refusal::IndexStoreTooShort(wanted))
}

// 1 to 6, of a block and the lengths of the lists that are lent with it.
pub fn judge_lent(header: Header, centre: usize, neighbours: usize) -> Result<(), Refusal>
    ensures { result ≡ judge_lent header.block header.mask header.threshold centre neighbours }
{
    let n = header.block.subdivisions;
    judge_subdivisions(n)?;
    judge_mask(header.mask)?;
    let measures = judge_measures(header);
    let lengths = judge_lengths(n, header.mask, centre, neighbours);
    measures.and(lengths)
}

// 1 to 7, of a block and its neighbours.
pub fn judge_star(lent: &Lent<'_>) -> Result<(), Refusal>
    ensures { result ≡ judge_star (lent_star lent.now) }
{
    judge_lent(lent.header, lent.centre.len(), lent.neighbours.len())?;
    judge_samples(lent.centre, lent.neighbours)
}
