// Document 01's listing of a block record: its mesh, or its refusal, on standard output.
#![tactic(auto)]

ghost use Rattle.std.specs.Prelude.{length};
ghost use Rattle.record.specs.Reading.{Held};

use grid::transition_sides::sample_count;
use grid::voxel_blocks::sample_length;
use model::{Counts, Header, Numbers, Refusal};
use record::reader::read_record;
use std::{fmt, io};

// What document 01 gives the program: the longest record, and the places of its buffers.
pub const MOST_BYTES: usize = 65536;

const SAMPLES: usize = 16377;

const STORE: usize = 15552;

const VERTICES: usize = 12000;

const TRIANGLES: usize = 12000;

// A float as its bits. No vertex of an accepted block holds a NaN, which has no bits of its own here.
#[derive(Clone, Copy)]
struct Bits(f32);

impl fmt::Display for Bits {
    fn fmt<W: fmt::Write>(&self, f: &mut fmt::Formatter<W>) -> fmt::Result {
        let x = self.0;
        if x.is_nan() {
            return write!(f, "nan");
        }
        let bits = x.to_bits();
        write!(f, "{bits:08x}")
    }
}

fn print_refusal(rt: &impl Print, refusal: Refusal) -> io::Result<()> {
    let Numbers {
        number,
        first,
        second,
        third,
    } = Numbers::from(refusal);
    println!(rt; "refused {number} {first} {second} {third}")
}

fn print_vertices(rt: &impl Print, vertices: &[f32], count: usize) -> io::Result<()> {
    let (vertices, _) = vertices.as_chunks::<6>();
    for vertex in vertices.iter().take(count) {
        let [x, y, z, gx, gy, gz] = vertex.map(Bits);
        println!(rt; "v {x} {y} {z} {gx} {gy} {gz}")?;
    }
    Ok(())
}

fn print_triangles(rt: &impl Print, triangles: &[u32], count: usize) -> io::Result<()> {
    let (triangles, _) = triangles.as_chunks::<3>();
    for [a, b, c] in triangles.iter().take(count) {
        println!(rt; "t {a} {b} {c}")?;
    }
    Ok(())
}

fn print_mesh(
    rt: &impl Print,
    counts: Counts,
    vertices: &[f32],
    triangles: &[u32],
) -> io::Result<()> {
    println!(rt; "mesh {} {}", counts.vertices, counts.triangles)?;
    print_vertices(rt, vertices, counts.vertices)?;
    print_triangles(rt, triangles, counts.triangles)
}

// A block whose samples stand in the first places of a list, the centre's first.
fn print_block(rt: &impl Print, header: Header, samples: &[f32]) -> io::Result<()>
    requires { Held header (length samples.now) }
{
    let own = sample_length(header.block.subdivisions);
    let all = sample_count(header.block.subdivisions, header.mask);
    let mut store = [0u32; STORE];
    let mut vertices = [0f32; VERTICES];
    let mut triangles = [0u32; TRIANGLES];
    let report = algorithm::extract(
        header,
        &samples[..own],
        &samples[own..all],
        &mut store,
        &mut vertices,
        &mut triangles,
    );
    match report.answer {
        Ok(counts) => print_mesh(rt, counts, &vertices, &triangles),
        Err(refusal) => print_refusal(rt, refusal),
    }
}

pub fn print_listing(rt: &impl Print, bytes: &[u8]) -> io::Result<()> {
    if bytes.len() > MOST_BYTES {
        return print_refusal(rt, Refusal::RecordLength);
    }
    let mut samples = [0f32; SAMPLES];
    match read_record(bytes, &mut samples) {
        Ok(header) => print_block(rt, header, &samples),
        Err(refusal) => print_refusal(rt, refusal),
    }
}
