// The numbers met so far, as bits of a table of words. A number whose bit is clear is new for certain. Several numbers may share a bit, so
// that one whose bit is set may be new all the same.
ghost use Rattle.std.specs.Prelude.{◌≡◌, true, ◌<◌, length};
ghost use Rattle.weld.specs.Leaves.{slot_of, bit_of, Marked};

// A place among so many. A power of two spreads the numbers evenly; any other is right too.
pub fn slot(places: usize, x: usize) -> usize
    requires { 0 < places }
    ensures { (result ≡ slot_of places x) × (result < places) }
{
    x & (places - 1)
}

pub fn is_new(seen: &[u64], number: u32) -> bool
    requires { 0 < length seen.now }
    ensures { result ≡ true → bit_of seen.now number ≡ 0 }
{
    let at = number as usize;
    let word = slot(seen.len(), at / 64);
    (seen[word] >> (at % 64)) % 2 == 0
}

pub fn note(seen: &mut [u64], number: u32)
    requires { 0 < length seen.old }
    ensures { Marked number seen.old seen.new }
{
    let at = number as usize;
    let word = slot(seen.len(), at / 64);
    seen[word] |= 1u64 << (at % 64);
}
