// The listing of each record of data/, in the order of the files' names: meshes with and without finer sides, each refusal that a record
// can come to, and the longest record that is read. tools/listing_vectors.py makes the records, and the lines that must be printed.
#![tactic(auto)]

use filling::names::Name;
use filling::read_full;
use printing::{MOST_BYTES, print_listing};
use std::io::Read;
use std::rt::Files;
use std::{fs, io};

fn print_file(rt: &impl Print, name: &str, file: &mut impl Read) -> io::Result<()> {
    let mut input = [0u8; MOST_BYTES + 1];
    let n = read_full(file, &mut input)?;
    println!(rt; "{name}")?;
    print_listing(rt, &input[..n])
}

// A file that is not there is passed over.
fn open_and_print(rt: &(impl Files + Print), name: &str) -> io::Result<()> {
    if !fs::exists(rt, name)? {
        return Ok(());
    }
    let mut file = fs::open(rt, name)?;
    print_file(rt, name, &mut file)
}

fn main(rt: HostRuntime) -> io::Result<()> {
    for k in 0u8..100 {
        let name = Name::new(b'r', k);
        open_and_print(&rt, name.as_str())?;
    }
    Ok(())
}
