// What the programs share: how they read, how the files of data/ are named, and how they count what agreed.
#![tactic(auto)]

ghost use Rattle.std.specs.Prelude.{◌≤◌, length, IfOk};

pub mod names;
pub mod tally;

use std::io;
use std::io::Read;

// Reads until the buffer is full or the input ends, and answers how many bytes stand at its start. A loop of our own: std's `read_to_end` wants
// the heap, and its `read_exact` refuses an input that is shorter.
pub fn read_full(input: &mut impl Read, bytes: &mut [u8]) -> io::Result<usize>
    ensures { IfOk result (λ n. n ≤ length bytes.new) }
{
    let mut n = 0;
    while n < bytes.len() {
        let more = input.read(&mut bytes[n..])?;
        if more == 0 {
            return Ok(n);
        }
        n += more;
    }
    Ok(n)
}
