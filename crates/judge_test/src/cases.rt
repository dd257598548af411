// An answer that differs is named by its number, counted from 0.
use filling::tally::Tally;
use model::{Numbers, Refusal};
use std::io;

// An answer, and the one that is wanted.
pub type Case<T> = (Result<T, Refusal>, Result<T, Numbers>);

pub const PASSES: Result<(), Numbers> = Ok(());

// What is wanted where a refusal with this number and these three is.
pub fn refused<T>(number: usize, first: usize, second: usize, third: usize) -> Result<T, Numbers> {
    Err(Numbers {
        number,
        first,
        second,
        third,
    })
}

pub fn note(rt: &impl Print, tally: &mut Tally, agrees: bool) -> io::Result<()> {
    if !agrees {
        let number = tally.passed.wrapping_add(tally.failed);
        println!(rt; "answer {number} differs")?;
    }
    tally.note(agrees);
    Ok(())
}

pub fn compare<T: Copy + PartialEq>(
    rt: &impl Print,
    tally: &mut Tally,
    cases: &[Case<T>],
) -> io::Result<()> {
    for (answer, wanted) in cases {
        note(rt, tally, answer.map_err(Numbers::from) == *wanted)?;
    }
    Ok(())
}
