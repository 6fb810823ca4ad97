// Runs sheets, grades and links through the proved entry points, and compares the answers and grids with those written by hand.

#![tactic(auto)]

mod answers;
mod cases;
mod recurring;
mod runs;

use reports::tally;
use reports::tally::close;
use std::io;

fn main(rt: HostRuntime) -> io::Result<()> {
    let mut total = tally::begin();
    total = close(&rt, total, b"heads", cases::heads())?;
    total = close(&rt, total, b"layout", cases::layout())?;
    total = close(&rt, total, b"bodies", cases::bodies())?;
    total = close(&rt, total, b"order", cases::order())?;
    total = close(&rt, total, b"grids", cases::grids())?;
    total = close(&rt, total, b"verdicts", cases::verdicts())?;
    total = close(&rt, total, b"pairs", cases::pairs())?;
    total = close(&rt, total, b"sets", cases::sets())?;
    total = close(&rt, total, b"grades", cases::grades())?;
    total = close(&rt, total, b"links", cases::links())?;
    total = close(&rt, total, b"links under pairs", cases::links_under_pairs())?;
    total = close(&rt, total, b"names that recur", recurring::cases())?;
    tally::print(&rt, b"total", total)
}
