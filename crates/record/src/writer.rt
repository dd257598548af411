// Writing a record: a block and its samples as the first bytes of a lent buffer.
ghost use Rattle.std.specs.Prelude.{◌≡◌, ◌++◌, ◌+◌, ◌*◌, ◌≤◌, ◌<◌, length};
ghost use Rattle.std.proofs.lemmas.List.Edits.{sets};
ghost use Rattle.laws.specs.Steps.{each};
ghost use Rattle.model.specs.Refusals.{or_else};
ghost use Rattle.grid.specs.Counts.{most_samples};
ghost use Rattle.model.specs.Star.{lent_star};
ghost use Rattle.model.specs.Judging.{judge_buffer, judge_star};
ghost use Rattle.model.specs.Words.{float_bytes};
ghost use Rattle.model.specs.Record.{header_length, sample_from, write_record};
ghost use Rattle.words.specs.Floats.{Numbers};
ghost use Rattle.record.specs.Bytes.{measures_of, start_of};

use crate::fields::{
    HEADER_LENGTH, MASK_AT, SUBDIVISIONS_AT, THRESHOLD_AT, VERSION_AT, sample_from,
};
use judge::{judge_buffer, judge_star};
use model::{Header, Lent, Refusal};
use words::orders::{Big, ByteOrder};

// The floats from a place on, one after another.
fn put_floats(bytes: &mut [u8], at: usize, floats: &[f32])
    requires { (at + 4 * length floats.now ≤ length bytes.old) × Numbers floats.now }
    ensures { bytes.new ≡ sets bytes.old at (each float_bytes floats.now) }
{
    for (k, x) in floats.iter().enumerate() {
        Big::put_word(bytes, at + 4 * k, x.to_bits());
    }
}

// Length, version, n and mask.
fn put_start(bytes: &mut [u8], header: Header, count: usize)
    requires { (header_length ≤ length bytes.old) × ((header.block.subdivisions < 256) × (count ≤ most_samples)) }
    ensures { bytes.new ≡ sets bytes.old 0 (start_of header count) }
{
    let n = header.block.subdivisions as u8;
    Big::put_word(bytes, 0, (HEADER_LENGTH - 4 + 4 * count) as u32);
    bytes[VERSION_AT] = 1;
    bytes[SUBDIVISIONS_AT] = n;
    bytes[MASK_AT] = header.mask;
}

fn put_header(bytes: &mut [u8], header: Header, count: usize)
    requires { (header_length ≤ length bytes.old) × ((header.block.subdivisions < 256) × ((count ≤ most_samples) × Numbers (measures_of header))) }
    ensures { bytes.new ≡ sets bytes.old 0 (start_of header count ++ each float_bytes (measures_of header)) }
{
    put_start(bytes, header, count);
    let block = header.block;
    let base = block.base;
    let measures = [header.threshold, base.x, base.y, base.z, block.size];
    put_floats(bytes, THRESHOLD_AT, &measures);
}

// 1 to 7, and 14.
fn judge_writing(lent: &Lent<'_>, held: usize) -> Result<(), Refusal>
    ensures { result ≡ or_else (judge_star (lent_star lent.now))
        (judge_buffer (sample_from (length (lent.now.centre.now ++ lent.now.neighbours.now))) held) }
{
    judge_star(lent)?;
    judge_buffer(sample_from(lent.centre.len() + lent.neighbours.len()), held)
}

pub fn write_record(lent: &Lent<'_>, bytes: &mut [u8]) -> Result<usize, Refusal>
    ensures { record { answer = result; bytes = bytes.new } ≡ write_record lent.now.header lent.now.centre.now lent.now.neighbours.now bytes.old }
{
    judge_writing(lent, bytes.len())?;
    let count = lent.centre.len() + lent.neighbours.len();
    put_header(bytes, lent.header, count);
    put_floats(bytes, sample_from(0), lent.centre);
    put_floats(bytes, sample_from(lent.centre.len()), lent.neighbours);
    Ok(sample_from(count))
}
