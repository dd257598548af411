// Prints the sheet of the run of records on standard input as the command does with --csv: a line a record, and the total. The run, which
// tools/sheet_vectors.py makes and describes, has every kind of line; stdout has what tools/reference.py says of it.
#![tactic(auto)]

use filling::read_full;
use model::{Numbers, Refusal};
use sheet::{Figures, sheet_line, sheet_total};
use std::{fmt, io};

// The bytes of the run at most, and its lines.
const BYTES: usize = 65536;

const LINES: usize = 64;

#[derive(Clone, Copy)]
struct Columns(Figures);

impl fmt::Display for Columns {
    fn fmt<W: fmt::Write>(&self, f: &mut fmt::Formatter<W>) -> fmt::Result {
        let Figures {
            inside,
            edges,
            vertices,
            triangles,
        } = self.0;
        let (x, y, z) = (edges.x, edges.y, edges.z);
        write!(f, "{inside},{x},{y},{z},{vertices},{triangles}")
    }
}

// A refusal's four columns, and six that are empty.
#[derive(Clone, Copy)]
struct Refused(Refusal);

impl fmt::Display for Refused {
    fn fmt<W: fmt::Write>(&self, f: &mut fmt::Formatter<W>) -> fmt::Result {
        let Numbers {
            number,
            first,
            second,
            third,
        } = Numbers::from(self.0);
        write!(f, "{number},{first},{second},{third},,,,,,")
    }
}

fn print_line(rt: &impl Print, number: usize, line: Result<Figures, Refusal>) -> io::Result<()> {
    match line {
        Ok(figures) => println!(rt; "{number},0,0,0,0,{}", Columns(figures)),
        Err(refusal) => println!(rt; "{number},{}", Refused(refusal)),
    }
}

fn print_lines(rt: &impl Print, run: &[u8]) -> io::Result<()> {
    let mut at = 0;
    for number in 0..LINES {
        match sheet_line(run, at) {
            Ok(Some(found)) => {
                print_line(rt, number, found.line)?;
                at = found.next;
            }
            Ok(None) => return Ok(()),
            Err(refusal) => return println!(rt; ",{}", Refused(refusal)),
        }
    }
    Ok(())
}

fn print_total(rt: &impl Print, run: &[u8]) -> io::Result<()> {
    match sheet_total(run) {
        Ok(figures) => println!(rt; "total,,,,,{}", Columns(figures)),
        Err(refusal) => println!(rt; "total,{}", Refused(refusal)),
    }
}

fn main(rt: HostRuntime) -> io::Result<()> {
    let mut run = [0u8; BYTES];
    let n = read_full(&mut rt.reader(), &mut run)?;
    let run = &run[..n];
    println!(rt;
        "record,refusal,first,second,third,inside,x_edges,y_edges,z_edges,vertices,triangles"
    )?;
    print_lines(&rt, run)?;
    print_total(&rt, run)
}
