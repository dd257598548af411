// Reading: the corners of a file's triangles as the first places of a lent list, nine f32 a triangle.
ghost use Rattle.std.specs.Prelude.{◌≡◌, ◌+◌, ◌*◌, ◌^◌, ◌≤◌, ◌<◌, length};
ghost use Rattle.std.proofs.lemmas.List.Edits.{sets};
ghost use Rattle.laws.specs.Steps.{listed, laid};
ghost use Rattle.model.specs.Words.{little_float_at};
ghost use Rattle.stl.specs.Definition.{start_length, corners_length, file_length, count_in, float_count, positions_in, judge_file, judge_reading, read_stl};
ghost use Rattle.stl.specs.Numbers.{all_numbers};

use crate::layout::{FLOATS, HEADER, NORMAL, START, file_length};
use judge::{judge_buffer, unless};
use model::Refusal;
use words::floats::{float_known, is_number};
use words::orders::{ByteOrder, Little};

fn count_in(bytes: &[u8]) -> usize
    requires { start_length ≤ length bytes.now }
    ensures { (result ≡ count_in bytes.now) × (result < 2 ^ 32) }
{
    Little::word_at(bytes, HEADER) as usize
}

// Whether no word of a triangle's corners is a pattern of a NaN. Looked at once here, they are then copied with no further look: with one at each
// word, reading took 1.6 times as long.
fn all_numbers(bytes: &[u8], from: usize) -> bool
    requires { from + corners_length ≤ length bytes.now }
    ensures { result ≡ all_numbers bytes.now from float_count }
{
    let mut numbers = true;
    for k in 0..FLOATS {
        numbers = numbers & is_number(Little::word_at(bytes, from + 4 * k));
    }
    numbers
}

// By number, and no part lent on: the other forms that were tried, over a part that was lent, took 1.6 times as long or more.
fn fill_corners(bytes: &[u8], from: usize, positions: &mut [f32], at: usize, numbers: bool)
    requires { (from + corners_length ≤ length bytes.now) × ((at + float_count ≤ length positions.old) × (numbers ≡ all_numbers bytes.now from float_count)) }
    ensures { positions.new ≡ sets positions.old at (listed (λ k. little_float_at bytes.now (from + 4 * k)) float_count) }
{
    for k in 0..FLOATS {
        positions[at + k] = float_known(Little::word_at(bytes, from + 4 * k), numbers);
    }
}

fn fill_positions(bytes: &[u8], positions: &mut [f32], count: usize)
    requires { (count ≡ count_in bytes.now) × ((length bytes.now ≡ file_length count) × (float_count * count ≤ length positions.old)) }
    ensures { positions.new ≡ laid (positions_in bytes.now) positions.old }
{
    for t in 0..count {
        let from = file_length(t) + NORMAL;
        let numbers = all_numbers(bytes, from);
        fill_corners(bytes, from, positions, FLOATS * t, numbers);
    }
}

fn judge_file(bytes: &[u8]) -> Result<(), Refusal>
    ensures { result ≡ judge_file bytes.now }
{
    if bytes.len() < START {
        return Err(Refusal::StlLength(START));
    }
    let wanted = file_length(count_in(bytes));
    unless(bytes.len() == wanted, Refusal::StlLength(wanted))
}

// 16, 14.
fn judge_reading(bytes: &[u8], room: usize) -> Result<(), Refusal>
    ensures { result ≡ judge_reading bytes.now room }
{
    judge_file(bytes)?;
    judge_buffer(FLOATS * count_in(bytes), room)
}

pub fn read_stl(bytes: &[u8], positions: &mut [f32]) -> Result<usize, Refusal>
    ensures { record { answer = result; positions = positions.new } ≡ read_stl bytes.now positions.old }
{
    judge_reading(bytes, positions.len())?;
    let count = count_in(bytes);
    fill_positions(bytes, positions, count);
    Ok(count)
}
