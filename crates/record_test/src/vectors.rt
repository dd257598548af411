// What a file is made of: vectors, one after another. What a vector is made of: words of four bytes, the lowest first; the first is its length.
ghost use Rattle.std.specs.Prelude.{◌<◌, ◌^◌, length};
ghost use Rattle.std.specs.Iterator.{at_most};

use model::Numbers;

// The vectors of some bytes. They end where none stands whole.
#[derive(Drop)]
pub struct Vectors<'a>(pub &'a [u8]);

impl<'a> Iterator for Vectors<'a> {
    type Item = &'a [u8];

    ghost remaining = { λ s. at_most (length s.0.now) };

    fn next(&mut self) -> Option<&'a [u8]> {
        let length = number(self.0, 0);
        if length < 4 {
            return None;
        }
        let (vector, rest) = self.0.split_at_checked(length)?;
        self.0 = rest;
        Some(vector)
    }
}

// What stands from a place on: nothing where the bytes end before it.
pub fn rest_from(bytes: &[u8], at: usize) -> &[u8] {
    bytes.get(at..).unwrap_or(&[])
}

pub fn words(bytes: &[u8]) -> &[[u8; 4]] {
    let (words, _) = bytes.as_chunks::<4>();
    words
}

// The k-th word, 0 where there is none.
pub fn word(vector: &[u8], k: usize) -> u32 {
    words(vector)
        .get(k)
        .map_or(0, |word| u32::from_le_bytes(*word))
}

pub fn number(vector: &[u8], k: usize) -> usize
    ensures { result < 2 ^ 32 }
{
    word(vector, k) as usize
}

// The four numbers of an answer from the k-th word on.
pub fn numbers(vector: &[u8], k: usize) -> Numbers
    requires { k < 16 }
{
    Numbers {
        number: number(vector, k),
        first: number(vector, k + 1),
        second: number(vector, k + 2),
        third: number(vector, k + 3),
    }
}
