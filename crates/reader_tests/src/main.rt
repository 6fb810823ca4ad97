// Runs right and damaged books through the proved reader, and compares its answers with those written by hand.

#![tactic(auto)]

mod answers;
mod books;
mod cases;
mod faults;
mod reader;
mod recipes;

use reports::tally;
use reports::tally::{Tally, close};
use std::io;

// Cases of the head and of the layout.
fn heads(rt: &impl Print, mut total: Tally) -> io::Result<Tally> {
    total = close(rt, total, b"readings", cases::readings(rt)?)?;
    total = close(rt, total, b"length", cases::lengths(rt)?)?;
    total = close(rt, total, b"edition", cases::editions(rt)?)?;
    total = close(rt, total, b"steps", cases::steps(rt)?)?;
    total = close(rt, total, b"counts", cases::counts(rt)?)?;
    total = close(rt, total, b"layout", cases::layout(rt)?)?;
    Ok(total)
}

// Cases of the records and of the order of checks.
fn bodies(rt: &impl Print, mut total: Tally) -> io::Result<Tally> {
    total = close(rt, total, b"terms", cases::terms(rt)?)?;
    total = close(rt, total, b"rules", cases::rules(rt)?)?;
    total = close(rt, total, b"memberships", cases::memberships(rt)?)?;
    total = close(rt, total, b"sets", cases::sets(rt)?)?;
    total = close(rt, total, b"links", cases::links(rt)?)?;
    total = close(rt, total, b"pairs", cases::pairs(rt)?)?;
    total = close(rt, total, b"candidates", cases::candidates(rt)?)?;
    total = close(rt, total, b"order", cases::order(rt)?)?;
    Ok(total)
}

fn main(rt: HostRuntime) -> io::Result<()> {
    let mut total = heads(&rt, tally::begin())?;
    total = bodies(&rt, total)?;
    tally::print(&rt, b"total", total)
}
