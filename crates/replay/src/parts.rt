// What a file of vectors is made of: words of 32 bits, big-endian; parts, each a word with its length in bytes and then the bytes.
ghost use Rattle.std.specs.Prelude.{length};
ghost use Rattle.std.specs.Iterator.{at_most};

// The parts of some bytes. Of one that is not wholly there, what is left of the bytes.
#[derive(Drop)]
pub struct Parts<'a>(pub &'a [u8]);

impl<'a> Iterator for Parts<'a> {
    type Item = &'a [u8];

    ghost remaining = { λ s. at_most (length s.0.now) };

    fn next(&mut self) -> Option<&'a [u8]> {
        if self.0.is_empty() {
            return None;
        }
        let Some((length, rest)) = self.0.split_first_chunk::<4>() else {
            self.0 = &[];
            return Some(&[]);
        };
        let length = u32::from_be_bytes(*length) as usize;
        let (part, rest) = rest.split_at(length.min(rest.len()));
        self.0 = rest;
        Some(part)
    }
}

// The k-th word, 0 where there is none.
pub fn word(bytes: &[u8], k: usize) -> u32 {
    let (words, _) = bytes.as_chunks::<4>();
    words.get(k).map_or(0, |word| u32::from_be_bytes(*word))
}

pub fn number(bytes: &[u8], k: usize) -> usize {
    word(bytes, k) as usize
}

// Whether a float has these bits, which are no NaN's.
pub fn has_bits(x: f32, bits: u32) -> bool {
    !x.is_nan() && x.to_bits() == bits
}
