// What a call says: the number of the first check that says no, or 0 and two numbers: outcome and survivors, a sheet's length, a grade.
use decisions::Decision;
use refusals::Refusal;

#[derive(Clone, Copy, PartialEq, Eq)]
pub struct Answer {
    pub number: usize,
    pub first: usize,
    pub second: usize,
}

pub fn answered(number: usize, first: usize, second: usize) -> Answer {
    Answer {
        number,
        first,
        second,
    }
}

pub fn refused(r: Refusal) -> Answer {
    answered(usize::from(r.number()), 0, 0)
}

pub fn of_decision(a: Result<Decision, Refusal>) -> Answer {
    match a {
        Ok(d) => answered(0, usize::from(d.outcome.number()), d.survivors),
        Err(r) => refused(r),
    }
}

pub fn of_length(a: Result<usize, Refusal>) -> Answer {
    match a {
        Ok(length) => answered(0, length, 0),
        Err(r) => refused(r),
    }
}

pub fn of_grade(a: Result<u8, Refusal>) -> Answer {
    match a {
        Ok(g) => answered(0, usize::from(g), 0),
        Err(r) => refused(r),
    }
}
