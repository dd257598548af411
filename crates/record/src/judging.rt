// The judges of a record's bytes, in the reader's order: 11, 12, 1, 2, 3, 13, 7.
ghost use Rattle.std.specs.Prelude.{◌≡◌, ◌+◌, ◌*◌, ◌≤◌, ◌<◌, length};
ghost use Rattle.std.specs.Float.{binary32};
ghost use Rattle.std.specs.Float.Ieee.{of_bits};
ghost use Rattle.laws.specs.Below.{all_below};
ghost use Rattle.model.specs.Refusals.{first};
ghost use Rattle.model.specs.Judging.{usable, usable_size, measure_usable, judge_measures};
ghost use Rattle.model.specs.Words.{float_at};
ghost use Rattle.model.specs.Record.{header_length, sample_from, header_of, judge_length, judge_record};
ghost use Rattle.record.specs.ReadingOrder.{HeadPassed, sample_usable_at, judge_head, judge_body};
ghost use Rattle.record.specs.Together.{bare_at_most, usable_at};

use crate::fields::{
    BASE_AT, HEADER_LENGTH, SIZE_AT, THRESHOLD_AT, VERSION_AT, mask_of, sample_from,
    subdivisions_of,
};
use grid::transition_sides::sample_count;
use judge::{judge_mask, judge_subdivisions, unless};
use model::Refusal;
use words::orders::{Big, ByteOrder};

// The bit patterns of 1,048,576, of the last number below its half and of 1/1024, and the weight of the sign in a pattern.
const LIMIT: u32 = 0x4980_0000;

const SMALL: u32 = 0x48FF_FFFF;

const LEAST_SIZE: u32 = 0x3A80_0000;

const SIGN: u32 = 0x8000_0000;

// The pattern without its sign is at most that of 1,048,576.
pub fn is_usable(bits: u32) -> bool
    ensures { result ≡ usable (of_bits binary32 bits) }
{
    bits % SIGN <= LIMIT
}

fn is_usable_at(bytes: &[u8], at: usize) -> bool
    requires { at + 4 ≤ length bytes.now }
    ensures { result ≡ usable (float_at bytes.now at) }
{
    is_usable(Big::word_at(bytes, at))
}

// The pattern is that of 1/1024, that of 1,048,576 or one between.
fn is_usable_size_at(bytes: &[u8], at: usize) -> bool
    requires { at + 4 ≤ length bytes.now }
    ensures { result ≡ usable_size (float_at bytes.now at) }
{
    let size = Big::word_at(bytes, at);
    (LEAST_SIZE <= size) & (size <= LIMIT)
}

fn judge_length(bytes: &[u8]) -> Result<(), Refusal>
    ensures { result ≡ judge_length bytes.now }
{
    if bytes.len() < HEADER_LENGTH {
        return Err(Refusal::RecordLength);
    }
    unless(
        Big::word_at(bytes, 0) as usize == bytes.len() - 4,
        Refusal::RecordLength,
    )
}

// Base x, y and z are 0 to 2, size is 3 and threshold 4.
fn is_measure_usable(bytes: &[u8], which: usize) -> bool
    requires { (header_length ≤ length bytes.now) × (which < 5) }
    ensures { result ≡ measure_usable (header_of bytes.now).block (header_of bytes.now).threshold which }
{
    match which {
        3 => is_usable_size_at(bytes, SIZE_AT),
        4 => is_usable_at(bytes, THRESHOLD_AT),
        _ => is_usable_at(bytes, BASE_AT + 4 * which),
    }
}

fn judge_measures(bytes: &[u8]) -> Result<(), Refusal>
    requires { header_length ≤ length bytes.now }
    ensures { result ≡ judge_measures (header_of bytes.now).block (header_of bytes.now).threshold }
{
    for which in 0..5 {
        if !is_measure_usable(bytes, which) {
            return Err(Refusal::Measure(which));
        }
    }
    Ok(())
}

// 12, 1, 2 and 3.
fn judge_head(bytes: &[u8]) -> Result<(), Refusal>
    requires { header_length ≤ length bytes.now }
    ensures { result ≡ judge_head bytes.now }
{
    let version = usize::from(bytes[VERSION_AT]);
    unless(version == 1, Refusal::Version(version))?;
    judge_subdivisions(subdivisions_of(bytes))?;
    judge_mask(mask_of(bytes))?;
    judge_measures(bytes)
}

fn is_at_most(bytes: &[u8], k: usize, most: u32) -> bool
    requires { sample_from (k + 1) ≤ length bytes.now }
    ensures { result ≡ bare_at_most bytes.now most k }
{
    Big::word_at(bytes, sample_from(k)) % SIGN <= most
}

// Whether the patterns of all samples, without their signs, are at most this one. It looks at them all, which the compiler does many at a time.
fn all_at_most(bytes: &[u8], count: usize, most: u32) -> bool
    requires { length bytes.now ≡ sample_from count }
    ensures { result ≡ all_below (bare_at_most bytes.now most) count }
{
    (0..count).fold(true, |all, k| all & is_at_most(bytes, k, most))
}

// Whether all samples can be used. Those of most records are small, which the first byte of each tells: that is asked first.
fn all_usable(bytes: &[u8], count: usize) -> bool
    requires { length bytes.now ≡ sample_from count }
    ensures { result ≡ all_below (usable_at bytes.now) count }
{
    all_at_most(bytes, count, SMALL) || all_at_most(bytes, count, LIMIT)
}

// By index: Big reads a word at a place of the bytes, and 7 names the index.
fn first_bad(bytes: &[u8], count: usize) -> Result<(), Refusal>
    requires { length bytes.now ≡ sample_from count }
    ensures { result ≡ first (sample_usable_at bytes.now) count }
{
    for k in 0..count {
        if !is_usable_at(bytes, sample_from(k)) {
            return Err(Refusal::BadSample(k));
        }
    }
    Ok(())
}

fn judge_samples(bytes: &[u8], count: usize) -> Result<(), Refusal>
    requires { length bytes.now ≡ sample_from count }
    ensures { result ≡ first (sample_usable_at bytes.now) count }
{
    if all_usable(bytes, count) {
        return Ok(());
    }
    first_bad(bytes, count)
}

// 13 and 7.
fn judge_body(bytes: &[u8]) -> Result<(), Refusal>
    requires { HeadPassed bytes.now }
    ensures { result ≡ judge_body bytes.now }
{
    let count = sample_count(subdivisions_of(bytes), mask_of(bytes));
    if bytes.len() - HEADER_LENGTH != 4 * count {
        return Err(Refusal::SampleCount(count));
    }
    judge_samples(bytes, count)
}

pub fn judge_record(bytes: &[u8]) -> Result<(), Refusal>
    ensures { result ≡ judge_record bytes.now }
{
    judge_length(bytes)?;
    judge_head(bytes)?;
    judge_body(bytes)
}
