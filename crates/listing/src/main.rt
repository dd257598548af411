// Document 01's listing program: one block record from standard input; its mesh, or its refusal, on standard output.
#![tactic(auto)]

use filling::read_full;
use printing::{MOST_BYTES, print_listing};
use std::io;

fn main(rt: HostRuntime) -> io::Result<()> {
    // A byte more than the longest record has.
    let mut input = [0u8; MOST_BYTES + 1];
    let n = read_full(&mut rt.reader(), &mut input)?;
    print_listing(&rt, &input[..n])
}
