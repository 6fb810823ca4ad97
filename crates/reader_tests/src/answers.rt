// What is said of a book: how many candidates there are, or the number of the first check that says no.
use reports::tally;
use reports::tally::Tally;
use std::io;

pub type Answer = Result<u64, u8>;

// An answer by a number, which is 0 where no check says no, and the candidates.
pub fn answered(number: u8, candidates: u64) -> Answer {
    if number == 0 {
        Ok(candidates)
    } else {
        Err(number)
    }
}

// One case more. The first of a group that differs is told.
pub fn judge(rt: &impl Print, t: Tally, expected: Answer, given: Answer) -> io::Result<Tally> {
    let right = expected == given;
    if !right && t.differ == 0 {
        println!(rt; "expected {expected:?}, reader {given:?}")?;
    }
    Ok(tally::judge(t, right))
}
