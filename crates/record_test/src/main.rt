// Runs the vectors of data/, which tools/record_vectors.py makes and describes: the reader, the writer and the viewer's calls on
// records and blocks, answers and lent buffers held against what the vectors say. Writes how many of each file agreed.
#![tactic(auto)]

mod reading;
mod vectors;
mod writing;

use filling::read_full;
use filling::tally::Tally;
use std::rt::Files;
use std::{fs, io};
use vectors::Vectors;

fn run<F: Fn(&[u8]) -> bool>(rt: &impl Print, name: &str, file: &[u8], agrees: F) -> io::Result<()>
    requires { F.IsAlwaysCallable agrees }
{
    let mut vectors = Vectors(file);
    let mut tally = Tally::default();
    for vector in vectors.by_ref() {
        tally.note(agrees(vector));
    }
    println!(rt; "{name}: {tally}")?;
    if !vectors.0.is_empty() {
        println!(rt; "the file does not end with a vector")?;
    }
    Ok(())
}

// A file that is not there is passed over; one of more than 131,071 bytes is refused.
fn run_file<F: Fn(&[u8]) -> bool>(
    rt: &(impl Files + Print),
    name: &str,
    agrees: F,
) -> io::Result<()>
    requires { F.IsAlwaysCallable agrees }
{
    if !fs::exists(rt, name)? {
        return Ok(());
    }
    let mut input = fs::open(rt, name)?;
    let mut file = [0u8; 131072];
    let n = read_full(&mut input, &mut file)?;
    if n == file.len() {
        return println!(rt; "{name}: too long");
    }
    run(rt, name, &file[..n], agrees)
}

fn main(rt: HostRuntime) -> io::Result<()> {
    for name in [
        "read0", "read1", "read2", "read3", "read4", "read5", "read6", "faces0", "faces1",
    ] {
        run_file(&rt, name, reading::agrees)?;
    }
    for name in ["write0", "write1", "write2"] {
        run_file(&rt, name, writing::agrees)?;
    }
    Ok(())
}
