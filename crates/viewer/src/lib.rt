// What the viewer asks of a record's bytes (document 01, 'Block record'): its subdivisions, whether it is blank, a sample. Each judges the
// record first and answers one number; the point read (document 02, [4]) tells the sample with its place kind. The calls of crate sirveshan
// hand them on to C.
#![tactic(auto)]

ghost use Rattle.std.specs.Prelude.{◌≡◌, ◌+◌, ◌^◌, ◌≤◌};
ghost use Rattle.model.specs.Samples.{reading_at};
ghost use Rattle.model.specs.Refusals.{numbers_of};
ghost use Rattle.model.specs.Record.{samples_of};
ghost use Rattle.model.specs.Viewer.{subdivisions_answer, blank_answer, record_point, point_bits, sample_answer};
ghost use Rattle.viewer.specs.Points.{point_reading};

mod one_side;

use grid::voxel_blocks::{is_sampled, kind, one_up, outside_count, place};
use judge::point_read::answered;
use model::{Numbers, PlaceKind, Refusal};
use one_side::is_blank;
use record::passed::Record;
use words::floats::bits_of;

// What is added to a refusal's number, by the calls for subdivisions and blank, and by the one for a sample.
const REFUSED: u64 = 100;

const SAMPLE_REFUSED: u64 = 4294967296;

fn packed_refusal(base: u64, refusal: Refusal) -> u64
    requires { base ≤ 2 ^ 32 }
    ensures { result ≡ base + (numbers_of refusal).number }
{
    base + Numbers::from(refusal).number as u64
}

pub fn subdivisions(src: &[u8]) -> u64
    ensures { result ≡ subdivisions_answer src.now }
{
    match Record::new(src) {
        Ok(whole) => whole.header.block.subdivisions as u64,
        Err(refusal) => packed_refusal(REFUSED, refusal),
    }
}

pub fn blank(src: &[u8]) -> u64
    ensures { result ≡ blank_answer src.now }
{
    match Record::new(src) {
        Ok(whole) => u64::from(is_blank(&whole)),
        Err(refusal) => packed_refusal(REFUSED, refusal),
    }
}

// A point of a record, its coordinates kept one up.
fn reading(src: &Record<'_>, x: usize, y: usize, z: usize) -> Result<(f32, PlaceKind), usize>
    ensures { result ≡ reading_at src.now.header.block.subdivisions (samples_of src.now.bytes.now) x y z }
{
    let n = src.header.block.subdivisions;
    if is_sampled(n, x, y, z) {
        Ok((src.sample(place(n, x, y, z)), kind(n, x, y, z)))
    } else {
        Err(outside_count(n, x, y, z))
    }
}

// The same by signed coordinates.
fn point_reading(src: &Record<'_>, x: i32, y: i32, z: i32) -> Result<(f32, PlaceKind), usize>
    ensures { result ≡ point_reading src.now.bytes.now x y z }
{
    let n = src.header.block.subdivisions;
    reading(src, one_up(n, x), one_up(n, y), one_up(n, z))
}

pub fn read_point(src: &[u8], x: i32, y: i32, z: i32) -> Result<(f32, PlaceKind), Refusal>
    ensures { result ≡ record_point src.now x y z }
{
    let whole = Record::new(src)?;
    answered(point_reading(&whole, x, y, z))
}

// A point read as one number.
fn point_bits(read: Result<(f32, PlaceKind), Refusal>) -> u64
    ensures { result ≡ point_bits read }
{
    match read {
        Ok((value, _)) => u64::from(bits_of(value)),
        Err(refusal) => packed_refusal(SAMPLE_REFUSED, refusal),
    }
}

// Not by `read_point`: a refusal goes straight into the number, and inlined the kind is gone.
pub fn sample(src: &[u8], x: i32, y: i32, z: i32) -> u64
    ensures { result ≡ sample_answer src.now x y z }
{
    match Record::new(src) {
        Ok(whole) => point_bits(answered(point_reading(&whole, x, y, z))),
        Err(refusal) => packed_refusal(SAMPLE_REFUSED, refusal),
    }
}
