// The two orders of a word's bytes.
ghost use Rattle.std.specs.Prelude.{◌≡◌, not, ◌+◌, ◌≤◌, T, length};
ghost use Rattle.std.specs.Float.Ieee.{is_nan};
ghost use Rattle.std.proofs.lemmas.List.Edits.{sets};
ghost use Rattle.words.specs.Orders.{Order, big, little};
ghost use Rattle.words.specs.Floats.{float_in};

pub trait ByteOrder {
    // Its words and bytes, with their laws.
    ghost order: { Order };

    fn word_at(bytes: &[u8], at: usize) -> u32
        requires { at + 4 ≤ length bytes.now }
        ensures { result ≡ order.at bytes.now at };

    fn put_word(bytes: &mut [u8], at: usize, word: u32)
        requires { at + 4 ≤ length bytes.old }
        ensures { bytes.new ≡ sets bytes.old at (order.bytes word) };

    // Of a word that is no pattern of a NaN.
    fn float_at(bytes: &[u8], at: usize) -> f32
        requires room { at + 4 ≤ length bytes.now }
        requires number { T (not (is_nan (float_in order bytes.now at))) }
        ensures { result ≡ float_in order bytes.now at }
    {
        f32::from_bits(Self::word_at(bytes, at))
    }
}

// The highest byte first, as in a block record.
pub struct Big;

// The lowest byte first, as in an STL file.
pub struct Little;

impl ByteOrder for Big {
    ghost order = { big };

    // Read in the processor's order and turned round: so the compiler reads the four bytes at once, and many words at a time.
    fn word_at(bytes: &[u8], at: usize) -> u32 {
        Little::word_at(bytes, at).swap_bytes()
    }

    fn put_word(bytes: &mut [u8], at: usize, word: u32) {
        bytes[at..at + 4].copy_from_slice(&word.to_be_bytes());
    }
}

impl ByteOrder for Little {
    ghost order = { little };

    fn word_at(bytes: &[u8], at: usize) -> u32 {
        u32::from_le_bytes([bytes[at], bytes[at + 1], bytes[at + 2], bytes[at + 3]])
    }

    fn put_word(bytes: &mut [u8], at: usize, word: u32) {
        bytes[at..at + 4].copy_from_slice(&word.to_le_bytes());
    }
}
