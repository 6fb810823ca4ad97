// What a call says: the number of the first check that says no, or 0 and the verdict or grade.
use refusals::Refusal;
use reports::tally;
use reports::tally::Tally;
use working::Verdict;

// With number 0, kind 0 is "meets", 1 a rule with its element, 2 a membership claim, 3 a link claim, 4 a grade, 5 a pair with its two elements.
#[derive(Clone, Copy, PartialEq, Eq, Default)]
pub struct Answer {
    pub number: u8,
    pub kind: u8,
    pub at: usize,
    pub element: usize,
    pub second: usize,
}

pub fn refused(number: u8) -> Answer {
    Answer {
        number,
        ..Answer::default()
    }
}

pub fn said(kind: u8, at: usize, element: usize, second: usize) -> Answer {
    Answer {
        number: 0,
        kind,
        at,
        element,
        second,
    }
}

fn of_verdict(v: Verdict) -> Answer {
    match v {
        Verdict::Meets => said(0, 0, 0, 0),
        Verdict::BreaksRule { rule, element } => said(1, rule, element, 0),
        Verdict::BreaksPair { pair, from, to } => said(5, pair, from, to),
        Verdict::BreaksMembership(i) => said(2, i, 0, 0),
        Verdict::BreaksLink(i) => said(3, i, 0, 0),
    }
}

pub fn of_worked(a: Result<Verdict, Refusal>) -> Answer {
    match a {
        Ok(v) => of_verdict(v),
        Err(r) => refused(r.number()),
    }
}

pub fn of_grade(a: Result<u8, Refusal>) -> Answer {
    match a {
        Ok(g) => said(4, usize::from(g), 0, 0),
        Err(r) => refused(r.number()),
    }
}

// One case more; `kept` says that the buffer is as it should be.
pub fn judge(t: Tally, expected: Answer, given: Answer, kept: bool) -> Tally {
    tally::judge(t, kept && expected == given)
}
