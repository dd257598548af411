// A vector is a call and the answer that it must get. It has six parts:
//   0  the call: 0 for a record or 1 for a block; the places lent of the index store, the vertices and the triangles; the length of the
//      centre; and of a record the places lent to the reader, of a block n, mask, and the bits of threshold, base x, y, z and size
//   1  the record, or the block's samples as runs: how many, and their bits
//   2  the answer: its number and three numbers (for a mesh 0, its vertices, triangles and sample reads), and how many places of the index store are
//      cleared
//   3  the bits of the vertices' numbers
//   4  the triangles' indices
//   5  the index store's places that are not 0, each with its index
use crate::parts::{Parts, number, word};
use model::{Block, Header, Numbers, Vector};
use words::floats::float_of;

#[derive(Clone, Copy)]
pub struct Trial<'a> {
    pub call: &'a [u8],
    pub input: &'a [u8],
    pub answer: &'a [u8],
    pub vertices: &'a [u8],
    pub triangles: &'a [u8],
    pub store: &'a [u8],
}

// A part that is not there has no bytes.
fn next_of<'a>(parts: &mut Parts<'a>) -> &'a [u8] {
    parts.next().unwrap_or(&[])
}

impl<'a> Trial<'a> {
    pub fn new(vector: &'a [u8]) -> Trial<'a> {
        let mut parts = Parts(vector);
        Trial {
            call: next_of(&mut parts),
            input: next_of(&mut parts),
            answer: next_of(&mut parts),
            vertices: next_of(&mut parts),
            triangles: next_of(&mut parts),
            store: next_of(&mut parts),
        }
    }

    pub fn is_record(&self) -> bool {
        number(self.call, 0) == 0
    }

    // Of a block.
    pub fn header(&self) -> Header {
        let base = Vector {
            x: float_of(word(self.call, 8)),
            y: float_of(word(self.call, 9)),
            z: float_of(word(self.call, 10)),
        };
        let block = Block {
            base,
            size: float_of(word(self.call, 11)),
            subdivisions: number(self.call, 5),
        };
        Header {
            block,
            mask: (word(self.call, 6) % 256) as u8,
            threshold: float_of(word(self.call, 7)),
        }
    }

    pub fn numbers(&self) -> Numbers {
        Numbers {
            number: number(self.answer, 0),
            first: number(self.answer, 1),
            second: number(self.answer, 2),
            third: number(self.answer, 3),
        }
    }
}
