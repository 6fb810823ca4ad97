// Compares the proved powers with a second way, which divides and does not multiply: all chains of 1 to 255 steps and 0 to 64 places, and beyond.

#![tactic(auto)]

use reports::tally;
use reports::tally::{Tally, close};
use std::io;

// The most places that can be asked for: a loop that went through them all would not end.
const ANY_PLACES: usize = usize::MAX;

// How often the power goes into a number: divided by the number of grades, once for each place.
fn quotient(x: u64, steps: u8, places: usize) -> u64 {
    let grades = u64::from(steps) + 1;
    let mut left = x;
    for _ in 0..places {
        left /= grades;
    }
    left
}

// Is a number the power: this goes into it once, and not into the number before?
fn is_power(x: u64, steps: u8, places: usize) -> bool {
    x != 0 && quotient(x, steps, places) == 1 && quotient(x - 1, steps, places) == 0
}

// Is an answer right: the power itself where it goes into 16384, and "more" where it does not?
fn right(answer: Option<u64>, steps: u8, places: usize) -> bool {
    let within = quotient(16384, steps, places) != 0;
    match answer {
        Some(p) => within && is_power(p, steps, places),
        None => !within,
    }
}

// The cases of one number of places, and how many answers are exact.
#[derive(Clone, Copy)]
struct Row {
    cases: Tally,
    exact: u64,
}

// One chain more.
fn with_chain(mut row: Row, steps: u8, places: usize) -> Row {
    let answer = powers::bounded_power(steps, places);
    let cases = row.cases;
    row.cases = tally::judge(cases, right(answer, steps, places));
    if answer.is_some() {
        row.exact = row.exact.wrapping_add(1);
    }
    row
}

// All chains, the longest first.
fn row_of(places: usize) -> Row {
    let mut row = Row {
        cases: tally::begin(),
        exact: 0,
    };
    for steps in (1..=255).rev() {
        row = with_chain(row, steps, places);
    }
    row
}

// Prints one number of places, with how many powers are exact, and adds its cases.
fn with_row(rt: &impl Print, total: Tally, places: usize) -> io::Result<Tally> {
    let row = row_of(places);
    print!(rt; "{places} places: {} exact,", row.exact)?;
    close(rt, total, b"", row.cases)
}

fn rows(rt: &impl Print, mut total: Tally) -> io::Result<Tally> {
    for places in 0..65 {
        total = with_row(rt, total, places)?;
    }
    Ok(total)
}

// A chain without steps has one grade, and so one candidate whatever the places.
fn no_steps() -> Tally {
    let mut t = tally::begin();
    t = tally::judge(t, powers::bounded_power(0, 0) == Some(1));
    t = tally::judge(t, powers::bounded_power(0, 1) == Some(1));
    t = tally::judge(t, powers::bounded_power(0, 64) == Some(1));
    t = tally::judge(t, powers::bounded_power(0, ANY_PLACES) == Some(1));
    t
}

// More places than a book has terms.
fn more_places() -> Tally {
    let mut t = tally::begin();
    t = tally::judge(t, powers::bounded_power(1, 65).is_none());
    t = tally::judge(t, powers::bounded_power(255, 65).is_none());
    t = tally::judge(t, powers::bounded_power(1, ANY_PLACES).is_none());
    t = tally::judge(t, powers::bounded_power(255, ANY_PLACES).is_none());
    t
}

fn main(rt: HostRuntime) -> io::Result<()> {
    let mut total = rows(&rt, tally::begin())?;
    total = close(&rt, total, b"no steps", no_steps())?;
    total = close(&rt, total, b"more places", more_places())?;
    tally::print(&rt, b"total", total)
}
