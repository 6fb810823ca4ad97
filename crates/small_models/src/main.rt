// A second decider. It tries the small interpretations of small books, and holds the decider to them; it works out the interpretation of the types
// that the decider lists; and it has the book decided again with its sets written out and with its recurring names shared. It is written from
// documents 01 and 02 alone.

#![tactic(auto)]

ghost use Rattle.std.specs.Prelude.{◌≡◌, length};

mod listed;
mod meets;
mod random;
mod shape;
mod shared;
mod singles;
mod term_grades;
mod term_types;
mod worlds;

use decisions::Outcome;
use reports::tally::Tally;
use reports::{tally, text};
use shape::Shape;
use std::io;
use worlds::Seen;

// How many books are drawn from a template, and how many from one whose books have many interpretations.
const BOOKS: u64 = 100;

const FEW: u64 = 12;

// The state of the generator, what was seen, how many books had each outcome, and how many were tried and differ.
#[derive(Clone, Copy)]
struct Sums {
    state: u64,
    seen: Seen,
    ones: u64,
    twos: u64,
    threes: u64,
    books: Tally,
}

fn begin(state: u64) -> Sums {
    Sums {
        state,
        seen: worlds::none(),
        ones: 0,
        twos: 0,
        threes: 0,
        books: tally::begin(),
    }
}

// One book more.
fn judged(mut sums: Sums, right: bool) -> Sums {
    let books = sums.books;
    sums.books = tally::judge(books, right);
    sums
}

fn count(mut sums: Sums, outcome: Outcome) -> Sums {
    match outcome {
        Outcome::HoldsTogether => sums.ones = sums.ones.wrapping_add(1),
        Outcome::ClaimsFail => sums.twos = sums.twos.wrapping_add(1),
        Outcome::NoModel => sums.threes = sums.threes.wrapping_add(1),
    }
    sums
}

// Is the same decided of a book that is the first bytes of `b`?
fn same_decision(
    b: &[u8],
    length: usize,
    outcome: Outcome,
    survivors: usize,
    marks: &[u8],
    placement: &[u8],
) -> bool {
    let mut own_marks = [0xA5u8; 96];
    let mut own_placement = [0xA5u8; 16];
    if b.len() < length {
        return false;
    }
    match decider::decide(&b[..length], &mut own_marks, &mut own_placement) {
        Err(_) => false,
        Ok(d) => {
            d.outcome == outcome
                && d.survivors == survivors
                && own_marks.as_slice() == marks
                && own_placement.as_slice() == placement
        }
    }
}

// Is the same decided of the book with its sets written out?
fn same_written_out(
    book: &[u8],
    b: &[u8],
    s: Shape,
    outcome: Outcome,
    survivors: usize,
    marks: &[u8],
    placement: &[u8],
) -> bool {
    let mut out = [0u8; 96];
    let length = singles::write_out(book, b, s, &mut out);
    same_decision(&out, length, outcome, survivors, marks, placement)
}

// Is the same decided of the book with its recurring names shared? A book without any stays as it is.
fn same_shared(
    book: &[u8],
    b: &[u8],
    s: Shape,
    outcome: Outcome,
    survivors: usize,
    marks: &[u8],
    placement: &[u8],
) -> bool {
    let mut out = [0u8; 96];
    let length = shared::write(book, b, s, &mut out);
    length == book.len() || same_decision(&out, length, outcome, survivors, marks, placement)
}

fn decided(
    mut sums: Sums,
    book: &[u8],
    outcome: Outcome,
    survivors: usize,
    marks: &[u8],
    placement: &[u8],
) -> Sums {
    let from = shape::head(book);
    if book.len() < from {
        return judged(sums, false);
    }
    let b = &book[from..];
    let s = shape::shape_of(book, b);
    let mut seen = sums.seen;
    seen.right = true;
    seen = worlds::all(seen, b, s, outcome, marks);
    sums.seen = seen;
    let right = listed::right(b, s, outcome, survivors, marks, placement)
        && same_written_out(book, b, s, outcome, survivors, marks, placement)
        && same_shared(book, b, s, outcome, survivors, marks, placement);
    judged(count(sums, outcome), right && seen.right)
}

// A book that is refused differs: all of them are right.
fn book(sums: Sums, b: &[u8]) -> Sums {
    let mut marks = [0xA5u8; 96];
    let mut placement = [0xA5u8; 16];
    match decider::decide(b, &mut marks, &mut placement) {
        Err(_) => judged(sums, false),
        Ok(d) => decided(sums, b, d.outcome, d.survivors, &marks, &placement),
    }
}

fn first(sums: Sums, b: &[u8], length: usize) -> Sums {
    if b.len() < length {
        return judged(sums, false);
    }
    book(sums, &b[..length])
}

fn written_book(sums: Sums, line: &[u8]) -> Sums {
    let mut b = [0u8; 64];
    let length = text::write(&mut b, line);
    first(sums, &b, length)
}

fn drawn_book(mut sums: Sums, template: &[u8]) -> Sums {
    let mut b = [0u8; 64];
    let length = text::write(&mut b, template);
    sums.state = random::draw(&mut b, sums.state);
    first(sums, &b, length)
}

fn drawn_books(mut sums: Sums, template: &[u8], count: u64) -> Sums {
    for _ in 0..count {
        sums = drawn_book(sums, template);
    }
    sums
}

// What was counted is told, and counting begins anew, with the books drawn from where they were.
fn next_part(rt: &impl Print, sums: Sums) -> io::Result<Sums> {
    report(rt, sums)?;
    Ok(begin(sums.state))
}

// A line of the input: a remark after a `#`, a template after the word `draw` or `few`, the end of a part after a `=`, or a book; books and templates
// are in hexadecimal.
fn line(rt: &impl Print, sums: Sums, line: &[u8]) -> io::Result<Sums> {
    let sort = text::byte(line, 0);
    match sort {
        b'#' => Ok(sums),
        b'=' => next_part(rt, sums),
        b'd' => Ok(drawn_books(sums, line, BOOKS)),
        b'f' => Ok(drawn_books(sums, line, FEW)),
        _ => Ok(written_book(sums, line)),
    }
}

fn lines(rt: &impl Print, mut sums: Sums, input: &[u8]) -> io::Result<Sums> {
    let mut at = 0;
    // A while: it leaps from line to line.
    while at < input.len() {
        let end = text::line_end(input, at);
        sums = line(rt, sums, &input[at..end])?;
        at = end + 1;
    }
    Ok(sums)
}

fn report(rt: &impl Print, sums: Sums) -> io::Result<()> {
    let books = sums.books;
    let seen = sums.seen;
    tally::close(rt, tally::begin(), b"books", books)?;
    let Sums {
        ones,
        twos,
        threes,
        ..
    } = sums;
    println!(rt; "outcome 1: {ones}, 2: {twos}, 3: {threes}")?;
    print!(rt;
        "interpretations {}, that meet the pairs {}",
        seen.tried, seen.ranked
    )?;
    println!(rt;
        ", models of the rules {}, of the claims too {}",
        seen.models, seen.met
    )
}

// Room for the input.
fn input_room() -> [u8; 65536]
    ensures { 65536 ≡ length result }
{
    [0; 65536]
}

fn main(rt: HostRuntime) -> io::Result<()> {
    let mut input = input_room();
    let length = reading::read_full(&mut rt.stdin(), &mut input)?;
    println!(&rt; "seed {}", random::SEED)?;
    report(&rt, lines(&rt, begin(random::SEED), &input[..length])?)
}
