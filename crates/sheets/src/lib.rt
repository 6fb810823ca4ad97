// The checks of a sheet, in order, and that of its entries.

#![tactic(auto)]

ghost use Rattle.std.specs.Prelude.{◌≡◌, ℕ, ◌≤◌, ◌<◌, length, get_or};
ghost use Rattle.chain.specs.Decisions.{Tells};
ghost use Rattle.shapes.specs.Layout.{end_at, EntriesRight};
ghost use Rattle.sheets.specs.Opening.{sheet_opened};

use book::Counts;
use refusals::Refusal;
use shapes::{Shape, end_at, head_right, individuals_at, links_at, shape_of, sheet_laid_out};

// ---- the bodies (check 15)

fn all_below(s: &[u8], limit: usize) -> bool
    ensures { Tells result ((i : ℕ) → i < length s.now → get_or s.now i 0 < limit) }
{
    s.iter().all(|x| usize::from(*x) < limit)
}

// No turn leaves the loop, so that the compiler compares many bytes at once.
fn block_at_most(s: &[u8], limit: u8) -> bool
    ensures { Tells result ((i : ℕ) → i < length s.now → get_or s.now i 0 ≤ limit) }
{
    let mut right = true;
    for g in s {
        right &= *g <= limit;
    }
    right
}

// By blocks, so that a wrong byte still ends the test early.
fn all_at_most(s: &[u8], limit: u8) -> bool
    ensures { Tells result ((i : ℕ) → i < length s.now → get_or s.now i 0 ≤ limit) }
{
    for block in 0..s.len().div_ceil(64) {
        let from = 64 * block;
        if !block_at_most(&s[from..s.len().min(from + 64)], limit) {
            return false;
        }
    }
    true
}

// Each body goes to its test as the stretch that it takes.
fn entries_right(b: &[u8], p: Shape, steps: u8) -> bool
    requires { end_at p ≤ length b.now }
    ensures { Tells result (EntriesRight b.now p steps) }
{
    let links = links_at(p);
    let individuals = individuals_at(p);
    let end = end_at(p);
    all_at_most(&b[12..links], steps)
        && all_at_most(&b[links..individuals], steps)
        && all_below(&b[individuals..end], p.elements)
}

// ---- the checks in order

// Checks a sheet against a book's steps and counts, 13 to 15: its shape, or the first check that says no.
pub fn open_sheet(b: &[u8], steps: u8, counts: Counts) -> Result<Shape, Refusal>
    ensures { result ≡ sheet_opened b.now steps counts.names counts.roles counts.individuals }
{
    if !head_right(b, steps, counts) {
        return Err(Refusal::SheetHead);
    }
    let p = shape_of(b);
    if !sheet_laid_out(b, p) {
        return Err(Refusal::SheetLayout);
    }
    if !entries_right(b, p, steps) {
        return Err(Refusal::SheetEntries);
    }
    Ok(p)
}
