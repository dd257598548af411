// The oracle's answers, replayed: each vector of data/ is a call and the answer that it must get, made by tools/replay.py. A mesh is
// the Rust mesher's; a refusal is by document 01's table. What is compared: the answer's number and its three numbers; every vertex bit,
// every triangle index and every place of the index store; and that each place beyond, on a refusal each place, is as it was.
// The files are v00, v01 and so on, vectors laid end to end; vector.rt says what a vector is.
#![tactic(auto)]

mod agreeing;
mod calls;
mod parts;
mod vector;

use filling::names::Name;
use filling::read_full;
use filling::tally::Tally;
use parts::Parts;
use std::io::Read;
use std::rt::Files;
use std::{fs, io};

// Lines on failures.
const MOST_LINES: u64 = 10;

fn print_failure(rt: &impl Print, name: &str, place: usize) -> io::Result<()> {
    println!(rt; "{name}: the vector at byte {place} failed")
}

fn run_vectors(rt: &impl Print, tally: &mut Tally, name: &str, vectors: &[u8]) -> io::Result<()> {
    let mut place = 0usize;
    for vector in Parts(vectors) {
        let passes = calls::passes(vector);
        if !passes && tally.failed < MOST_LINES {
            print_failure(rt, name, place)?;
        }
        tally.note(passes);
        place = place.saturating_add(4).saturating_add(vector.len());
    }
    Ok(())
}

fn run_open_file(
    rt: &impl Print,
    tally: &mut Tally,
    name: &str,
    file: &mut impl Read,
) -> io::Result<()> {
    let mut vectors = [0u8; 64000];
    let n = read_full(file, &mut vectors)?;
    run_vectors(rt, tally, name, &vectors[..n])
}

// A file that is not there has no vectors; of one that is longer than the array the last one fails.
fn run_file(rt: &(impl Files + Print), tally: &mut Tally, name: &str) -> io::Result<()> {
    if !fs::exists(rt, name)? {
        return Ok(());
    }
    let mut file = fs::open(rt, name)?;
    run_open_file(rt, tally, name, &mut file)
}

fn main(rt: HostRuntime) -> io::Result<()> {
    let mut tally = Tally::default();
    for k in 0u8..100 {
        let name = Name::new(b'v', k);
        run_file(&rt, &mut tally, name.as_str())?;
    }
    println!(rt; "{tally}")
}
