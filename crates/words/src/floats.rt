// Floats and their bit patterns, a NaN among them: every NaN is written as one pattern, and each pattern of a NaN is read as one. The library's
// functions, under the names that the pinned statements have; and the look at a pattern by itself, for who looks at many at once.
ghost use Rattle.std.specs.Prelude.{◌≡◌, true, false, not};
ghost use Rattle.std.specs.Float.{binary32};
ghost use Rattle.std.specs.Float.Ieee.{nan_bits, of_bits, to_bits};

use std::num::{f32_from_bits_with_nan, f32_to_bits_with_nan};

// The pattern of infinity, and the weight of the sign.
const INFINITY: u32 = 0x7f80_0000;

const SIGN: u32 = 0x8000_0000;

pub fn bits_of(x: f32) -> u32
    ensures { result ≡ to_bits binary32 x }
{
    f32_to_bits_with_nan(x)
}

pub fn float_of(bits: u32) -> f32
    ensures { result ≡ of_bits binary32 bits }
{
    f32_from_bits_with_nan(bits)
}

// Whether a pattern is not a NaN's.
pub fn is_number(bits: u32) -> bool
    ensures { result ≡ not (nan_bits binary32 bits) }
{
    bits % SIGN <= INFINITY
}

// The same as float_of, of a pattern that was looked at before: `number` tells that it is not a NaN's.
pub fn float_known(bits: u32, number: bool) -> f32
    requires { number ≡ true → nan_bits binary32 bits ≡ false }
    ensures { result ≡ of_bits binary32 bits }
{
    if number {
        return f32::from_bits(bits);
    }
    float_of(bits)
}
