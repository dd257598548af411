// Writing: a mesh as the first bytes of a lent buffer.
ghost use Rattle.std.specs.Prelude.{◌≡◌, ◌++◌, ◌+◌, ◌*◌, ◌≤◌, ◌<◌, length};
ghost use Rattle.std.proofs.lemmas.List.Edits.{sets};
ghost use Rattle.laws.specs.Counting.{gather};
ghost use Rattle.model.specs.Words.{little_bytes};
ghost use Rattle.model.specs.Corners.{triangle_count};
ghost use Rattle.stl.specs.Definition.{corners_of, header_length, start_length, corner_length, corners_length, triangle_length, zeros, triangle_bytes, file_length, most_triangles, judge_writing, write_stl};
ghost use Rattle.stl.specs.Named.{Names, AllName};
ghost use Rattle.stl.specs.Parts.{patterns_of, corner_bytes, corners_bytes, facet_bytes};

use crate::layout::{ATTRIBUTE, CORNER, HEADER, NORMAL, file_length};
use judge::{judge_buffer, unless};
use model::Refusal;
use naming::judge_named;
use words::floats::bits_of;
use words::orders::{ByteOrder, Little};

const MOST_TRIANGLES: usize = 4294967295;

// The bit patterns of a position.
#[derive(Clone, Copy)]
struct Corner {
    x: u32,
    y: u32,
    z: u32,
}

// Those of a triangle's corners.
#[derive(Clone, Copy)]
struct Facet {
    a: Corner,
    b: Corner,
    c: Corner,
}

fn put_zeros(bytes: &mut [u8], at: usize, count: usize)
    requires { at + count ≤ length bytes.old }
    ensures { bytes.new ≡ sets bytes.old at (zeros count) }
{
    bytes[at..at + count].fill(0);
}

// The patterns of a vertex's position, the first three of its six f32.
fn corner_of(vertices: &[f32], v: usize) -> Corner
    requires { 6 * v + 3 ≤ length vertices.now }
    ensures { result ≡ patterns_of vertices.now v }
{
    let from = 6 * v;
    Corner {
        x: bits_of(vertices[from]),
        y: bits_of(vertices[from + 1]),
        z: bits_of(vertices[from + 2]),
    }
}

fn put_corner(bytes: &mut [u8], at: usize, corner: Corner)
    requires { at + corner_length ≤ length bytes.old }
    ensures { bytes.new ≡ sets bytes.old at (corner_bytes corner) }
{
    Little::put_word(bytes, at, corner.x);
    Little::put_word(bytes, at + 4, corner.y);
    Little::put_word(bytes, at + 8, corner.z);
}

fn put_corners(bytes: &mut [u8], at: usize, facet: Facet)
    requires { at + corners_length ≤ length bytes.old }
    ensures { bytes.new ≡ sets bytes.old at (corners_bytes facet.a facet.b facet.c) }
{
    put_corner(bytes, at, facet.a);
    put_corner(bytes, at + CORNER, facet.b);
    put_corner(bytes, at + 2 * CORNER, facet.c);
}

fn put_facet(bytes: &mut [u8], at: usize, facet: Facet)
    requires { at + triangle_length ≤ length bytes.old }
    ensures { bytes.new ≡ sets bytes.old at (facet_bytes facet.a facet.b facet.c) }
{
    put_zeros(bytes, at, NORMAL);
    put_corners(bytes, at + NORMAL, facet);
    put_zeros(bytes, at + NORMAL + 3 * CORNER, ATTRIBUTE);
}

// All nine f32 are read before a byte is written: the compiler then keeps them in registers.
fn put_triangle(bytes: &mut [u8], at: usize, vertices: &[f32], triangles: &[u32], t: usize)
    requires { (at + triangle_length ≤ length bytes.old) × ((t < triangle_count triangles.now) × Names vertices.now triangles.now t) }
    ensures { bytes.new ≡ sets bytes.old at (triangle_bytes (corners_of vertices.now triangles.now t)) }
{
    let first = 3 * t;
    let a = corner_of(vertices, triangles[first] as usize);
    let b = corner_of(vertices, triangles[first + 1] as usize);
    let c = corner_of(vertices, triangles[first + 2] as usize);
    put_facet(bytes, at, Facet { a, b, c });
}

fn put_triangles(bytes: &mut [u8], vertices: &[f32], triangles: &[u32])
    requires { (file_length (triangle_count triangles.now) ≤ length bytes.old) × AllName vertices.now triangles.now }
    ensures { bytes.new ≡ sets bytes.old start_length (gather (λ t. triangle_bytes (corners_of vertices.now triangles.now t)) (triangle_count triangles.now)) }
{
    // By number and not by chunks: the place in the file goes by it too.
    for t in 0..triangles.len() / 3 {
        put_triangle(bytes, file_length(t), vertices, triangles, t);
    }
}

// The header and the count.
fn put_start(bytes: &mut [u8], count: usize)
    requires { (start_length ≤ length bytes.old) × (count ≤ most_triangles) }
    ensures { bytes.new ≡ sets bytes.old 0 (zeros header_length ++ little_bytes count) }
{
    put_zeros(bytes, 0, HEADER);
    Little::put_word(bytes, HEADER, count as u32);
}

// 16, 17, 14.
fn judge_writing(held: usize, triangles: &[u32], room: usize) -> Result<(), Refusal>
    ensures { result ≡ judge_writing held triangles.now room }
{
    let count = triangles.len() / 3;
    unless(count <= MOST_TRIANGLES, Refusal::StlLength(0))?;
    judge_named(held, triangles)?;
    judge_buffer(file_length(count), room)
}

pub fn write_stl(vertices: &[f32], triangles: &[u32], bytes: &mut [u8]) -> Result<usize, Refusal>
    ensures { record { answer = result; bytes = bytes.new } ≡ write_stl vertices.now triangles.now bytes.old }
{
    judge_writing(vertices.len() / 6, triangles, bytes.len())?;
    let count = triangles.len() / 3;
    put_start(bytes, count);
    put_triangles(bytes, vertices, triangles);
    Ok(file_length(count))
}
