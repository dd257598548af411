// Meshes the records of data/, writes each mesh as an STL file and holds it to the stored one; reads the stored one and writes it again from
// what was read. tools/stl_vectors.py makes the records and the files, with no code of ours, and the lines that must be printed.
#![tactic(auto)]

ghost use Rattle.std.specs.Prelude.{◌≤◌, length, IfOk};

mod again;
mod meshed;

use again::write_again;
use filling::read_full;
use meshed::write_mesh;
use std::rt::Files;
use std::{fs, io};

// The bytes of a record or a file at most.
const BYTES: usize = 32768;

// A file that is not there has no bytes.
fn load(rt: &impl Files, name: &str, bytes: &mut [u8]) -> io::Result<usize>
    ensures { IfOk result (λ n. n ≤ length bytes.new) }
{
    if !fs::exists(rt, name)? {
        return Ok(0);
    }
    let mut file = fs::open(rt, name)?;
    read_full(&mut file, bytes)
}

// Whether the first so many bytes are the stored ones.
fn sameness(bytes: &[u8], length: usize, stored: &[u8]) -> &'static str {
    match bytes.get(..length) {
        Some(written) if written == stored => "as stored",
        _ => "NOT as stored",
    }
}

// Of what is refused the length is 0.
fn run_both(rt: &impl Print, name: &str, record: &[u8], stored: &[u8]) -> io::Result<()> {
    let mut bytes = [165u8; BYTES];
    let length = write_mesh(record, &mut bytes).unwrap_or(0);
    let same = sameness(&bytes, length, stored);
    print!(rt; "{name}: {length} bytes, {same}; ")?;
    let mut back = [165u8; BYTES];
    let length = write_again(stored, &mut back).unwrap_or(0);
    let same = sameness(&back, length, stored);
    println!(rt; "read and written again: {length} bytes, {same}")
}

fn run(
    rt: &(impl Files + Print),
    name: &str,
    record_name: &str,
    stored_name: &str,
) -> io::Result<()> {
    let mut record = [0u8; BYTES];
    let mut stored = [0u8; BYTES];
    let m = load(rt, record_name, &mut record)?;
    let n = load(rt, stored_name, &mut stored)?;
    run_both(rt, name, &record[..m], &stored[..n])
}

fn main(rt: HostRuntime) -> io::Result<()> {
    run(&rt, "case-a", "case-a.record", "case-a.stl")?;
    run(&rt, "finer", "finer.record", "finer.stl")?;
    run(&rt, "six-finer", "six-finer.record", "six-finer.stl")?;
    run(&rt, "empty", "empty.record", "empty.stl")
}
