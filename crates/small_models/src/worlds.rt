// Tries every interpretation of one, two and, where they are few, three elements.
use crate::shape::{Shape, cell};
use crate::{meets, term_grades, term_types};
use decisions::Outcome;
use reports::text::{byte, set};

// More interpretations of one size than this are not tried; up to it `times` counts them exactly.
const MOST: usize = 65535;

// How many interpretations were tried, how many met the pairs, how many of these the rules, and how many of these the claims with some seating of
// the individuals; `right` says that the decider agreed with each.
#[derive(Clone, Copy)]
pub struct Seen {
    pub tried: u64,
    pub ranked: u64,
    pub models: u64,
    pub met: u64,
    pub right: bool,
}

pub fn none() -> Seen {
    Seen {
        tried: 0,
        ranked: 0,
        models: 0,
        met: 0,
        right: true,
    }
}

// The next of the digits 0 to `top`; tells whether it came round to 0.
fn turn(w: &mut [u8], i: usize, top: u8) -> bool {
    let x = byte(w, i);
    if x < top {
        set(w, i, x + 1);
        return false;
    }
    set(w, i, 0);
    true
}

// The next interpretation: the digits count up, the first one fastest.
fn advance(w: &mut [u8], digits: usize, top: u8) {
    for i in 0..digits {
        if !turn(w, i, top) {
            return;
        }
    }
}

// One digit more, unless there are too many interpretations already.
fn grown(count: usize, levels: usize) -> usize {
    if MOST < count {
        count
    } else {
        count.wrapping_mul(levels)
    }
}

fn power(levels: usize, digits: usize) -> usize {
    let mut count = 1;
    for _ in 0..digits {
        count = grown(count, levels);
    }
    count
}

// Is the type of every element marked?
fn all_marked(b: &[u8], s: Shape, n: usize, grid: &[u8], marks: &[u8]) -> bool {
    for e in 0..n {
        if byte(marks, term_types::shown(b, s, grid, e)) != 1 {
            return false;
        }
    }
    true
}

// A model of the pairs and rules: its types are listed, the outcome is not 3, and it is 1 if the claims are met too.
fn model(mut seen: Seen, outcome: Outcome, marked: bool, met: bool) -> Seen {
    seen.models = seen.models.wrapping_add(1);
    let mut right = marked && outcome != Outcome::NoModel;
    if met {
        seen.met = seen.met.wrapping_add(1);
        right = marked && outcome == Outcome::HoldsTogether;
    }
    if !right {
        seen.right = false;
    }
    seen
}

fn world(
    mut seen: Seen,
    b: &[u8],
    s: Shape,
    outcome: Outcome,
    marks: &[u8],
    n: usize,
    w: &[u8],
) -> Seen {
    seen.tried = seen.tried.wrapping_add(1);
    if !meets::pairs_met(b, s, n, w) {
        return seen;
    }
    seen.ranked = seen.ranked.wrapping_add(1);
    let mut grid = [0u8; 32];
    term_grades::fill(b, s, n, w, &mut grid);
    if !meets::rules_met(b, s, n, &grid) {
        return seen;
    }
    let marked = all_marked(b, s, n, &grid, marks);
    let met = meets::first_seating(b, s, n, w, &grid) < meets::seatings(s, n);
    model(seen, outcome, marked, met)
}

// How many grades an interpretation of `n` elements has: names, and links of each role.
fn digits(s: Shape, n: usize) -> usize {
    cell(n, s.names, s.roles.wrapping_mul(n.wrapping_mul(n)))
}

fn worlds(
    mut seen: Seen,
    b: &[u8],
    s: Shape,
    outcome: Outcome,
    marks: &[u8],
    n: usize,
    count: usize,
) -> Seen {
    let mut w = [0u8; 32];
    let digits = digits(s, n);
    for _ in 0..count {
        seen = world(seen, b, s, outcome, marks, n, &w);
        advance(&mut w, digits, s.steps);
    }
    seen
}

// Every interpretation of `n` elements, if they are few.
fn sized(seen: Seen, b: &[u8], s: Shape, outcome: Outcome, marks: &[u8], n: usize) -> Seen {
    let count = power(term_types::levels(s), digits(s, n));
    if MOST < count {
        return seen;
    }
    worlds(seen, b, s, outcome, marks, n, count)
}

pub fn all(mut seen: Seen, b: &[u8], s: Shape, outcome: Outcome, marks: &[u8]) -> Seen {
    seen = sized(seen, b, s, outcome, marks, 1);
    seen = sized(seen, b, s, outcome, marks, 2);
    sized(seen, b, s, outcome, marks, 3)
}
