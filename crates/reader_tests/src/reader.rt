// The reader under test, asked by both of its calls.
ghost use Rattle.std.specs.Prelude.{◌<◌};

use crate::answers::{Answer, judge};
use layout::Sections;
use refusals::Refusal;
use reports::tally::Tally;
use reports::text::byte;
use std::io;

// Stands for two calls that contradict each other, or for sections that are not those of the book.
const APART: u8 = 99;

// Two bytes, the high one first.
fn two(b: &[u8], at: usize) -> usize
    requires { at < 1000 }
{
    usize::from(byte(b, at)) * 256 + usize::from(byte(b, at + 1))
}

// The pairs of edition 2 are the stretch that the fifth entry names; edition 1 has none, at the end.
fn pairs_named(b: &[u8], s: Sections) -> bool {
    if byte(b, 0) == 2 {
        s.pairs == two(b, 18)
    } else {
        s.pairs == s.end
    }
}

// Are the sections the stretches that the entries name, up to the end of the book?
fn named(b: &[u8], s: Sections) -> bool {
    s.terms == two(b, 2)
        && s.rules == two(b, 6)
        && s.memberships == two(b, 10)
        && s.links == two(b, 14)
        && pairs_named(b, s)
        && s.end == b.len()
}

fn is_read(b: &[u8], s: Sections) -> bool {
    named(b, s) && 1 < b.len() && s.steps == b[1]
}

fn after_refusal(b: &[u8], r: Refusal) -> Answer {
    if r != Refusal::Candidates && counter::count(b) == Err(r) {
        Err(r.number())
    } else {
        Err(APART)
    }
}

fn after_opening(b: &[u8], s: Sections) -> Answer {
    if !is_read(b, s) {
        return Err(APART);
    }
    match counter::count(b) {
        Ok(candidates) => Ok(candidates),
        Err(Refusal::Candidates) => Err(10),
        Err(_) => Err(APART),
    }
}

fn answer(b: &[u8]) -> Answer {
    match book::open(b) {
        Err(r) => after_refusal(b, r),
        Ok(book) => after_opening(b, book.sections),
    }
}

// A case. The book is the first bytes of `b`; one that does not fit differs from any.
pub fn expect(
    rt: &impl Print,
    t: Tally,
    b: &[u8],
    length: usize,
    expected: Answer,
) -> io::Result<Tally> {
    if b.len() < length {
        return judge(rt, t, expected, Err(0));
    }
    judge(rt, t, expected, answer(&b[0..length]))
}
