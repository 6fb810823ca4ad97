// Makes a book out of a row of numbers; the recipe says what they are.
ghost use Rattle.std.specs.Prelude.{◌≤◌};

use crate::answers::Answer;
use crate::books::blank;
use crate::reader::expect;
use crate::{books, faults};
use reports::tally::Tally;
use reports::text;
use reports::text::{Row, set};
use std::io;

// The answer that is expected of a row with too few or too many numbers: none.
const NO_ANSWER: u8 = 98;

#[derive(Clone, Copy)]
pub enum Recipe {
    Sized,
    Empty,
    Sample,
    Term,
    Rule,
    Membership,
    Link,
    Places,
    Faults,
    RankedSized,
    RankedEmpty,
    RankedSample,
    Pairs,
    RankedFaults,
    Set,
    RankedSet,
    AfterName,
    Repeated,
    RankedRepeated,
}

// How many numbers of a row say what the book is. The expected answer follows: a number, and for 0 the candidates.
fn columns(recipe: Recipe) -> usize
    ensures { result ≤ 6 }
{
    match recipe {
        Recipe::Sized => 5,
        Recipe::Empty => 3,
        Recipe::Sample => 3,
        Recipe::Term => 4,
        Recipe::Rule => 3,
        Recipe::Membership => 6,
        Recipe::Link => 5,
        Recipe::Places => 4,
        Recipe::Faults => 2,
        Recipe::RankedSized => 6,
        Recipe::RankedEmpty => 3,
        Recipe::RankedSample => 3,
        Recipe::Pairs => 4,
        Recipe::RankedFaults => 2,
        Recipe::Set => 6,
        Recipe::RankedSet => 6,
        Recipe::AfterName => 4,
        Recipe::Repeated => 4,
        Recipe::RankedRepeated => 4,
    }
}

// So many tops, rules and claims, the rules and claims of zeros. N is 1.
fn sized(b: &mut [u8], terms: u8, rules: u8, memberships: u8, links: u8, length: usize) -> usize {
    let at = books::head(b, 1, terms, rules, memberships, links);
    books::terms(b, at, terms, 6, 0, 0);
    length
}

// No records, one byte of the head changed. N is 1.
fn empty(b: &mut [u8], at: u8, x: u8, length: usize) -> usize {
    books::head(b, 1, 0, 0, 0, 0);
    set(b, usize::from(at), x);
    length
}

// A book of 37 bytes, one of them changed. N is 2; terms: name 0, not 0, name 5; a rule; a membership claim; a link claim.
fn sample(b: &mut [u8], at: u8, x: u8, length: usize) -> usize {
    text::write(
        b,
        b"
        01 02  00 12 00 03  00 1B 00 01  00 1D 00 01  00 21 00 01
        00 00 00 01 00 00 00 05 00  00 01  00 00 00 01  00 00 01 01
        ",
    );
    set(b, usize::from(at), x);
    length
}

// So many tops, and a term after them. N is 1.
fn term(b: &mut [u8], before: u8, kind: u8, x: u8, y: u8) -> usize {
    let mut at = books::head(b, 1, before.wrapping_add(1), 0, 0, 0);
    at = books::terms(b, at, before, 6, 0, 0);
    books::term(b, at, kind, x, y)
}

// So many tops, the rule 0 0 and another. N is 1.
fn rule(b: &mut [u8], terms: u8, left: u8, right: u8) -> usize {
    let mut at = books::head(b, 1, terms, 2, 0, 0);
    at = books::terms(b, at, terms, 6, 0, 0);
    at = books::pair(b, at, 0, 0);
    books::pair(b, at, left, right)
}

// So many tops, the membership claim 0 0 0 0 and another.
fn membership(
    b: &mut [u8],
    steps: u8,
    terms: u8,
    individual: u8,
    term: u8,
    sense: u8,
    grade: u8,
) -> usize {
    let mut at = books::head(b, steps, terms, 0, 2, 0);
    at = books::terms(b, at, terms, 6, 0, 0);
    at = books::claim(b, at, 0, 0, 0, 0);
    books::claim(b, at, individual, term, sense, grade)
}

// No terms, the link claim 0 0 0 0 and another.
fn link(b: &mut [u8], steps: u8, role: u8, from: u8, to: u8, grade: u8) -> usize {
    let mut at = books::head(b, steps, 0, 0, 0, 2);
    at = books::claim(b, at, 0, 0, 0, 0);
    books::claim(b, at, role, from, to, grade)
}

// A top, so many names, and so many terms "some" and "all" over the top.
fn places(b: &mut [u8], steps: u8, names: u8, some: u8, all: u8) -> usize {
    let quantified = some.wrapping_add(all);
    let mut at = books::head(
        b,
        steps,
        names.wrapping_add(quantified).wrapping_add(1),
        0,
        0,
        0,
    );
    at = books::term(b, at, 6, 0, 0);
    at = books::names(b, at, names);
    at = books::terms(b, at, some, 4, 0, 0);
    books::terms(b, at, all, 5, 7, 0)
}

// Edition 2: as `sized`, and so many pairs, of zeros too.
fn ranked_sized(
    b: &mut [u8],
    terms: u8,
    rules: u8,
    memberships: u8,
    links: u8,
    pairs: u8,
    length: usize,
) -> usize {
    let at = books::ranked_head(b, 1, terms, rules, memberships, links, pairs);
    books::terms(b, at, terms, 6, 0, 0);
    length
}

// Edition 2: no records, one byte of the head changed. N is 1.
fn ranked_empty(b: &mut [u8], at: u8, x: u8, length: usize) -> usize {
    books::ranked_head(b, 1, 0, 0, 0, 0, 0);
    set(b, usize::from(at), x);
    length
}

// Edition 2: the sample with the pairs 0 under 1 and 1 under 2, 45 bytes, one of them changed.
fn ranked_sample(b: &mut [u8], at: u8, x: u8, length: usize) -> usize {
    text::write(
        b,
        b"
        02 02  00 16 00 03  00 1F 00 01  00 21 00 01  00 25 00 01  00 29 00 02
        00 00 00 01 00 00 00 05 00  00 01  00 00 00 01  00 00 01 01  00 01 01 02
        ",
    );
    set(b, usize::from(at), x);
    length
}

// Edition 2: no terms, two pairs, each lower and upper. N is 1.
fn pairs(b: &mut [u8], lower: u8, upper: u8, next_lower: u8, next_upper: u8) -> usize {
    let mut at = books::ranked_head(b, 1, 0, 0, 0, 0, 2);
    at = books::pair(b, at, lower, upper);
    books::pair(b, at, next_lower, next_upper)
}

// Two tops, a rule from 0, a membership claim, the membership claim 0 0 0 0, a link claim of a role. N is 2.
fn set_claim(
    b: &mut [u8],
    right: u8,
    members: u8,
    term: u8,
    sense: u8,
    grade: u8,
    role: u8,
) -> usize {
    let mut at = books::head(b, 2, 2, 1, 2, 1);
    at = books::terms(b, at, 2, 6, 0, 0);
    at = books::pair(b, at, 0, right);
    at = books::claim(b, at, members, term, sense, grade);
    at = books::claim(b, at, 0, 0, 0, 0);
    books::claim(b, at, role, 0, 0, 0)
}

// Edition 2: two tops, a membership claim, a link claim of a role, a pair with 0 below. N is 2.
fn ranked_set_claim(
    b: &mut [u8],
    members: u8,
    term: u8,
    sense: u8,
    grade: u8,
    role: u8,
    upper: u8,
) -> usize {
    let mut at = books::ranked_head(b, 2, 2, 0, 1, 1, 1);
    at = books::terms(b, at, 2, 6, 0, 0);
    at = books::claim(b, at, members, term, sense, grade);
    at = books::claim(b, at, role, 0, 0, 0);
    books::pair(b, at, 0, upper)
}

// A name, "some r0" of it, and a term after them. N is 1.
fn after_name(b: &mut [u8], name: u8, kind: u8, x: u8, y: u8) -> usize {
    let mut at = books::head(b, 1, 3, 0, 0, 0);
    at = books::term(b, at, 0, name, 0);
    at = books::term(b, at, 4, 0, 0);
    books::term(b, at, kind, x, y)
}

// So many names, so many terms "some r0" of the first, and the names again, so many times.
fn names_around(b: &mut [u8], at: usize, names: u8, some: u8, again: u8) -> usize {
    let mut next = books::names(b, at, names);
    next = books::terms(b, next, some, 4, 0, 0);
    books::names_in_turn(b, next, names, again)
}

// How many terms stand from `start` to `end`.
fn terms_within(start: usize, end: usize) -> u8 {
    (end.wrapping_sub(start) / 3 % 256) as u8
}

// Names that recur: N, names, terms "some" after them, and how often the names come again.
fn repeated(b: &mut [u8], steps: u8, names: u8, some: u8, again: u8) -> usize {
    let end = names_around(b, 18, names, some, again);
    books::head(b, steps, terms_within(18, end), 0, 0, 0);
    end
}

// Edition 2: the same.
fn ranked_repeated(b: &mut [u8], steps: u8, names: u8, some: u8, again: u8) -> usize {
    let end = names_around(b, 22, names, some, again);
    books::ranked_head(b, steps, terms_within(22, end), 0, 0, 0, 0);
    end
}

// Writes the book and answers its length.
fn make(b: &mut [u8], recipe: Recipe, r: Row) -> usize {
    let v = r.small(0);
    let w = r.small(1);
    let x = r.small(2);
    let y = r.small(3);
    let z = r.small(4);
    match recipe {
        Recipe::Sized => sized(b, v, w, x, y, r.cell(4)),
        Recipe::Empty => empty(b, v, w, r.cell(2)),
        Recipe::Sample => sample(b, v, w, r.cell(2)),
        Recipe::Term => term(b, v, w, x, y),
        Recipe::Rule => rule(b, v, w, x),
        Recipe::Membership => membership(b, v, w, x, y, z, r.small(5)),
        Recipe::Link => link(b, v, w, x, y, z),
        Recipe::Places => places(b, v, w, x, y),
        Recipe::Faults => faults::make(b, v, w),
        Recipe::RankedSized => ranked_sized(b, v, w, x, y, z, r.cell(5)),
        Recipe::RankedEmpty => ranked_empty(b, v, w, r.cell(2)),
        Recipe::RankedSample => ranked_sample(b, v, w, r.cell(2)),
        Recipe::Pairs => pairs(b, v, w, x, y),
        Recipe::RankedFaults => faults::make_ranked(b, v, w),
        Recipe::Set => set_claim(b, v, w, x, y, z, r.small(5)),
        Recipe::RankedSet => ranked_set_claim(b, v, w, x, y, z, r.small(5)),
        Recipe::AfterName => after_name(b, v, w, x, y),
        Recipe::Repeated => repeated(b, v, w, x, y),
        Recipe::RankedRepeated => ranked_repeated(b, v, w, x, y),
    }
}

fn expected(r: Row, from: usize) -> Answer
    requires { from ≤ 6 }
{
    let number = r.small(from);
    if r.count == from + 1 && number != 0 {
        return Err(number);
    }
    if r.count == from + 2 && number == 0 {
        return Ok(r.cell(from + 1) as u64);
    }
    Err(NO_ANSWER)
}

// The case of one row; without numbers it is none.
fn case(rt: &impl Print, t: Tally, recipe: Recipe, r: Row) -> io::Result<Tally> {
    if r.count == 0 {
        return Ok(t);
    }
    let mut b = blank();
    let length = make(&mut b, recipe, r);
    expect(rt, t, &b, length, expected(r, columns(recipe)))
}

// The cases of a table; each ends with a semicolon or the line.
pub fn run(rt: &impl Print, mut t: Tally, recipe: Recipe, table: &[u8]) -> io::Result<Tally> {
    let mut r = Row::default();
    for c in table {
        r.read(*c);
        if *c == b';' || *c == b'\n' {
            t = case(rt, t, recipe, r)?;
            r = Row::default();
        }
    }
    Ok(t)
}
