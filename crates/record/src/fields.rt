// Where the fields of a record stand, as the model names the places, and what stands there in a record that passed.
ghost use Rattle.std.specs.Prelude.{◌≡◌, ◌^◌, ◌≤◌, ◌<◌, length};
ghost use Rattle.model.specs.Record.{header_length, sample_from, header_of};
ghost use Rattle.record.specs.Accepted.{Accepted};

use model::{Block, Header, Vector};
use words::orders::{Big, ByteOrder};

pub const VERSION_AT: usize = 4;

pub const SUBDIVISIONS_AT: usize = 5;

pub const MASK_AT: usize = 6;

pub const THRESHOLD_AT: usize = 7;

// Of x; y and z follow.
pub const BASE_AT: usize = 11;

pub const SIZE_AT: usize = 23;

pub const HEADER_LENGTH: usize = 27;

// Where the bytes of a sample begin.
pub fn sample_from(k: usize) -> usize
    requires { sample_from k < 2 ^ 64 }
    ensures { result ≡ sample_from k }
{
    HEADER_LENGTH + 4 * k
}

pub fn subdivisions_of(bytes: &[u8]) -> usize
    requires { header_length ≤ length bytes.now }
    ensures { result ≡ (header_of bytes.now).block.subdivisions }
{
    usize::from(bytes[SUBDIVISIONS_AT])
}

pub fn mask_of(bytes: &[u8]) -> u8
    requires { header_length ≤ length bytes.now }
    ensures { result ≡ (header_of bytes.now).mask }
{
    bytes[MASK_AT]
}

pub fn header_of(bytes: &[u8]) -> Header
    requires { Accepted bytes.now }
    ensures { result ≡ header_of bytes.now }
{
    let base = Vector {
        x: Big::float_at(bytes, BASE_AT),
        y: Big::float_at(bytes, BASE_AT + 4),
        z: Big::float_at(bytes, BASE_AT + 8),
    };
    let block = Block {
        base,
        size: Big::float_at(bytes, SIZE_AT),
        subdivisions: subdivisions_of(bytes),
    };
    Header {
        block,
        mask: mask_of(bytes),
        threshold: Big::float_at(bytes, THRESHOLD_AT),
    }
}
