// Runs the judges, the point read and the position of a moved point on small blocks, and holds each answer against what document 01
// says of it.
#![tactic(auto)]

mod cases;
mod faces;
mod figures;
mod given;
mod lengths;
mod ranges;
mod reads;
mod samples;

use filling::tally::Tally;
use std::io;

fn main(rt: HostRuntime) -> io::Result<()> {
    let mut tally = Tally::default();
    ranges::run(&rt, &mut tally)?;
    lengths::run(&rt, &mut tally)?;
    samples::run(&rt, &mut tally)?;
    faces::run(&rt, &mut tally)?;
    reads::run(&rt, &mut tally)?;
    figures::run(&rt, &mut tally)?;
    println!(rt; "{tally}")
}
