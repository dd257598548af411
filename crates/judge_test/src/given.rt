// The blocks that are judged: 1 to 8 of a block and its neighbours.
ghost use Rattle.std.specs.Prelude.{◌≡◌};

use agreement::judge_faces;
use judge::judge_star;
use model::{Block, Header, Lent, Refusal, Vector};

// Of a block at the origin, of size 1.
pub fn header(n: usize, mask: u8, threshold: f32) -> Header
    ensures { result.block.subdivisions ≡ n }
{
    let base = Vector {
        x: 0.0,
        y: 0.0,
        z: 0.0,
    };
    let block = Block {
        base,
        size: 1.0,
        subdivisions: n,
    };
    Header {
        block,
        mask,
        threshold,
    }
}

pub fn judged(header: Header, centre: &[f32], neighbours: &[f32]) -> Result<(), Refusal> {
    let lent = Lent {
        header,
        centre,
        neighbours,
    };
    judge_star(&lent)?;
    judge_faces(&lent)
}

// With no neighbour lent, and every sample of the centre 0.
pub fn judged_alone(header: Header) -> Result<(), Refusal> {
    judged(header, &[0.0; 81], &[])
}

// A sample is set; at a place past the list nothing is.
pub fn put(samples: &mut [f32], place: usize, x: f32) {
    if let Some(sample) = samples.get_mut(place) {
        *sample = x;
    }
}
