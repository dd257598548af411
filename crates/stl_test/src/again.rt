// A file read and written again: three vertices a triangle, with indices 0, 1, 2 and so on.
use model::Refusal;
use stl::reader::read_stl;
use stl::writer::write_stl;

const TRIANGLES: usize = 600;

// The positions of three vertices a triangle as the first three of six numbers each.
fn spread(positions: &[f32], vertices: &mut [f32]) {
    let (positions, _) = positions.as_chunks::<3>();
    let (vertices, _) = vertices.as_chunks_mut::<6>();
    for (vertex, position) in vertices.iter_mut().zip(positions) {
        vertex[..3].copy_from_slice(position);
    }
}

fn number(triangles: &mut [u32]) {
    for (corner, vertex) in triangles.iter_mut().zip(0..u32::MAX) {
        *corner = vertex;
    }
}

// The length of the file; 0 where it has more triangles than there is room for.
pub fn write_again(stored: &[u8], bytes: &mut [u8]) -> Result<usize, Refusal> {
    let mut positions = [0f32; 9 * TRIANGLES];
    let count = read_stl(stored, &mut positions)?;
    if count > TRIANGLES {
        return Ok(0);
    }
    let mut vertices = [0f32; 18 * TRIANGLES];
    let mut triangles = [0u32; 3 * TRIANGLES];
    spread(&positions, &mut vertices);
    number(&mut triangles);
    write_stl(&vertices[..18 * count], &triangles[..3 * count], bytes)
}
