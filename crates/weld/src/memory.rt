// What the pass keeps in mind, on the stack.

ghost use Rattle.std.specs.Prelude.{◌≡◌, replicate};

// The numbers met so far, as bits; for each number a place to look at first; and the new indices of a window of vertices.
#[derive(Drop)]
pub struct Memory<const WORDS: usize, const HINTS: usize, const PLACES: usize> {
    pub seen: [u64; WORDS],
    pub hints: [u32; HINTS],
    pub table: [u32; PLACES],
}

impl<const WORDS: usize, const HINTS: usize, const PLACES: usize> Memory<WORDS, HINTS, PLACES> {
    pub fn new() -> Self
        ensures seen { result.seen ≡ replicate WORDS 0 }
        ensures hints { result.hints ≡ replicate HINTS 0 }
        ensures table { result.table ≡ replicate PLACES 0 }
    {
        Memory {
            seen: [0; WORDS],
            hints: [0; HINTS],
            table: [0; PLACES],
        }
    }
}
