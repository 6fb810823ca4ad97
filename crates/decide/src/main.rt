// The program `decide`: reads a book from standard input, decides it and prints the decision. The text of every line is proved in `printout`;
// here the lines are written, in order.

#![tactic(auto)]

ghost use Rattle.std.specs.Prelude.{◌*◌, ◌<◌, ◌≤◌, length};
ghost use Rattle.sections.specs.Terms.{term_count, TermsRight};

use book::Book;
use decisions::{Decision, Outcome};
use gradings::Logic;
use printout::Text;
use refusals::Refusal;
use std::io;

fn print_refusal(rt: &impl Print, r: Refusal) -> io::Result<()> {
    let mut out = [0u8; 192];
    let mut text = Text::new(&mut out);
    text.refused_line(r.number());
    rt.write_all(text.bytes())
}

fn print_outcome(rt: &impl Print, d: Decision) -> io::Result<()> {
    let mut out = [0u8; 192];
    let mut text = Text::new(&mut out);
    text.outcome_line(d.outcome.number(), d.survivors);
    rt.write_all(text.bytes())
}

// A line for each candidate that is marked, in ascending order; the lines of 256 candidates fit in the buffer.
fn print_types(rt: &impl Print, terms: &[u8], logic: Logic, marks: &[u8]) -> io::Result<()>
    requires terms_right { TermsRight terms.now }
    requires terms_bound { (term_count terms.now ≤ 64) × (logic.steps < 10) × (length marks.now ≤ 16384) }
{
    let mut out = [0u8; 65536];
    for block in 0..marks.len().div_ceil(256) {
        let first = 256 * block;
        let count = (marks.len() - first).min(256);
        let mut text = Text::new(&mut out);
        text.type_lines(terms, logic, marks, first, count);
        rt.write_all(text.bytes())?;
    }
    Ok(())
}

// The survivors' lines.
fn print_survivors(rt: &impl Print, book: Book<'_>, marks: &[u8]) -> io::Result<()>
    requires { length marks.now ≤ 16384 }
{
    print_types(rt, book.terms(), book.logic(), marks)
}

// A line for each individual, of which there are at most 8.
fn print_individuals(rt: &impl Print, placement: &[u8], count: usize) -> io::Result<()>
    requires { (count ≤ 8) × (2 * count ≤ length placement.now) }
{
    let mut out = [0u8; 1536];
    let mut text = Text::new(&mut out);
    text.individual_lines(placement, count);
    rt.write_all(text.bytes())
}

// The individuals' lines.
fn print_placement(rt: &impl Print, book: Book<'_>, placement: &[u8]) -> io::Result<()>
    requires { 16 ≤ length placement.now }
{
    let counts = book.counts();
    print_individuals(rt, placement, counts.individuals)
}

// Decides a book that was opened, and prints the decision. One mark byte for each candidate that a book may have.
fn print_decision(rt: &impl Print, book: Book<'_>) -> io::Result<()> {
    let mut marks = [0u8; 16384];
    let mut placement = [0u8; 16];
    match decider::decide_in(book, &mut marks, &mut placement) {
        Err(r) => print_refusal(rt, r),
        Ok(d) => {
            print_outcome(rt, d)?;
            print_survivors(rt, book, &marks)?;
            if d.outcome == Outcome::HoldsTogether {
                print_placement(rt, book, &placement)?;
            }
            Ok(())
        }
    }
}

fn main(rt: HostRuntime) -> io::Result<()> {
    let mut bytes = [0u8; 983];
    let n = reading::read_full(&mut rt.stdin(), &mut bytes)?;
    match book::open(&bytes[..n]) {
        Err(r) => print_refusal(&rt, r),
        Ok(book) => print_decision(&rt, book),
    }
}
