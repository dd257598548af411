// The STL file of a record's mesh.
ghost use Rattle.std.specs.Prelude.{length};
ghost use Rattle.record.specs.Reading.{Held};

use grid::transition_sides::sample_count;
use grid::voxel_blocks::sample_length;
use model::{Counts, Header, Refusal};
use record::reader::read_record;
use stl::writer::write_stl;

const SAMPLES: usize = 8192;

const STORE: usize = 4096;

const VERTICES: usize = 6000;

const TRIANGLES: usize = 3000;

// The length of the file; 0 where the lists do not hold what was counted.
fn write_counted(
    counts: Counts,
    vertices: &[f32],
    triangles: &[u32],
    bytes: &mut [u8],
) -> Result<usize, Refusal> {
    if counts.vertices > vertices.len() / 6 || counts.triangles > triangles.len() / 3 {
        return Ok(0);
    }
    let vertices = &vertices[..6 * counts.vertices];
    let triangles = &triangles[..3 * counts.triangles];
    write_stl(vertices, triangles, bytes)
}

// A block whose samples stand in the first places of a list, the centre's first.
fn write_block(header: Header, samples: &[f32], bytes: &mut [u8]) -> Result<usize, Refusal>
    requires { Held header (length samples.now) }
{
    let n = header.block.subdivisions;
    let own = sample_length(n);
    let all = sample_count(n, header.mask);
    let mut store = [0u32; STORE];
    let mut vertices = [0f32; VERTICES];
    let mut triangles = [0u32; TRIANGLES];
    let report = algorithm::extract(
        header,
        &samples[..own],
        &samples[own..all],
        &mut store,
        &mut vertices,
        &mut triangles,
    );
    write_counted(report.answer?, &vertices, &triangles, bytes)
}

pub fn write_mesh(record: &[u8], bytes: &mut [u8]) -> Result<usize, Refusal> {
    let mut samples = [0f32; SAMPLES];
    let header = read_record(record, &mut samples)?;
    write_block(header, &samples, bytes)
}
