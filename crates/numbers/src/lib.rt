// The answers as numbers, for callers in C: each a struct of numbers, by value.

#![tactic(auto)]

ghost use Rattle.std.specs.Prelude.{◌≡◌};
ghost use Rattle.numbers.specs.Numbers.{checked_number, counted_numbers, decided_numbers, implied_numbers, written_numbers, verdict_numbers, worked_numbers, graded_numbers};

use decisions::Decision;
use layout::Sections;
use refusals::Refusal;
use working::Verdict;

// In each struct the refusal is 0 if the call is answered, and else the other fields are 0.

#[repr(C)]
#[derive(Clone, Copy)]
pub struct CountedNumbers {
    pub refusal: u8,
    pub candidates: u64,
}

#[repr(C)]
#[derive(Clone, Copy)]
pub struct DecidedNumbers {
    pub refusal: u8,
    pub outcome: u8,
    pub survivors: usize,
}

#[repr(C)]
#[derive(Clone, Copy)]
pub struct ImpliedNumbers {
    pub refusal: u8,
    pub survivors: usize,
}

#[repr(C)]
#[derive(Clone, Copy)]
pub struct WrittenNumbers {
    pub refusal: u8,
    pub length: usize,
}

// The verdict is 0 for "meets", 1 for a rule broken, 2 for a membership claim, 3 for a link claim, 4 for a pair; then the number of that one, for a
// rule the lowest element, and for a pair the lowest first and then second element.
#[repr(C)]
#[derive(Clone, Copy)]
pub struct WorkedNumbers {
    pub refusal: u8,
    pub verdict: u8,
    pub number: usize,
    pub element: usize,
    pub second: usize,
}

#[repr(C)]
#[derive(Clone, Copy)]
pub struct GradedNumbers {
    pub refusal: u8,
    pub grade: u8,
}

// ---- answers as numbers

pub fn checked_number(a: Result<Sections, Refusal>) -> u8
    ensures { result ≡ checked_number a }
{
    match a {
        Ok(_) => 0,
        Err(r) => r.number(),
    }
}

impl From<Result<u64, Refusal>> for CountedNumbers {
    ghost from_gives = { λ a n. n ≡ counted_numbers a };

    fn from(a: Result<u64, Refusal>) -> Self {
        match a {
            Ok(candidates) => CountedNumbers {
                refusal: 0,
                candidates,
            },
            Err(r) => CountedNumbers {
                refusal: r.number(),
                candidates: 0,
            },
        }
    }
}

impl From<Result<Decision, Refusal>> for DecidedNumbers {
    ghost from_gives = { λ a n. n ≡ decided_numbers a };

    fn from(a: Result<Decision, Refusal>) -> Self {
        match a {
            Ok(d) => DecidedNumbers {
                refusal: 0,
                outcome: d.outcome.number(),
                survivors: d.survivors,
            },
            Err(r) => DecidedNumbers {
                refusal: r.number(),
                outcome: 0,
                survivors: 0,
            },
        }
    }
}

impl From<Result<usize, Refusal>> for ImpliedNumbers {
    ghost from_gives = { λ a n. n ≡ implied_numbers a };

    fn from(a: Result<usize, Refusal>) -> Self {
        match a {
            Ok(survivors) => ImpliedNumbers {
                refusal: 0,
                survivors,
            },
            Err(r) => ImpliedNumbers {
                refusal: r.number(),
                survivors: 0,
            },
        }
    }
}

impl From<Result<usize, Refusal>> for WrittenNumbers {
    ghost from_gives = { λ a n. n ≡ written_numbers a };

    fn from(a: Result<usize, Refusal>) -> Self {
        match a {
            Ok(length) => WrittenNumbers { refusal: 0, length },
            Err(r) => WrittenNumbers {
                refusal: r.number(),
                length: 0,
            },
        }
    }
}

impl From<Verdict> for WorkedNumbers {
    ghost from_gives = { λ v n. n ≡ verdict_numbers v };

    fn from(v: Verdict) -> Self {
        match v {
            Verdict::Meets => WorkedNumbers {
                refusal: 0,
                verdict: 0,
                number: 0,
                element: 0,
                second: 0,
            },
            Verdict::BreaksRule { rule, element } => WorkedNumbers {
                refusal: 0,
                verdict: 1,
                number: rule,
                element,
                second: 0,
            },
            Verdict::BreaksPair { pair, from, to } => WorkedNumbers {
                refusal: 0,
                verdict: 4,
                number: pair,
                element: from,
                second: to,
            },
            Verdict::BreaksMembership(number) => WorkedNumbers {
                refusal: 0,
                verdict: 2,
                number,
                element: 0,
                second: 0,
            },
            Verdict::BreaksLink(number) => WorkedNumbers {
                refusal: 0,
                verdict: 3,
                number,
                element: 0,
                second: 0,
            },
        }
    }
}

impl From<Result<Verdict, Refusal>> for WorkedNumbers {
    ghost from_gives = { λ a n. n ≡ worked_numbers a };

    fn from(a: Result<Verdict, Refusal>) -> Self {
        match a {
            Ok(v) => WorkedNumbers::from(v),
            Err(r) => WorkedNumbers {
                refusal: r.number(),
                verdict: 0,
                number: 0,
                element: 0,
                second: 0,
            },
        }
    }
}

impl From<Result<u8, Refusal>> for GradedNumbers {
    ghost from_gives = { λ a n. n ≡ graded_numbers a };

    fn from(a: Result<u8, Refusal>) -> Self {
        match a {
            Ok(grade) => GradedNumbers { refusal: 0, grade },
            Err(r) => GradedNumbers {
                refusal: r.number(),
                grade: 0,
            },
        }
    }
}
