// Runs the books of its input through the deciding entry points, and compares answers and buffers with what the input expects. A line of the
// input starts with its sort: `=` the title of a group, `book` a book in hexadecimal, `decide`, `sheet` and `link` a case on the book before.
// Any other line is a remark.

#![tactic(auto)]

mod answers;
mod buffers;
mod runs;

ghost use Rattle.std.specs.Prelude.{◌≤◌, length};

use reports::tally::Tally;
use reports::{tally, text};
use std::io;

// The book's length, where the title of the group stands, and the cases of the group and of all.
#[derive(Clone, Copy, Default)]
struct State {
    book: usize,
    from: usize,
    to: usize,
    group: Tally,
    total: Tally,
}

// Prints the group that ends, if it has a case.
fn close_group(rt: &impl Print, mut s: State, input: &[u8]) -> io::Result<State> {
    let from = s.from;
    let to = s.to;
    let group = s.group;
    let total = s.total;
    if group.cases != 0 && from <= to && to <= input.len() {
        s.total = tally::close(rt, total, &input[from..to], group)?;
    }
    s.group = tally::begin();
    Ok(s)
}

// The title stands after the sign and a space.
fn titled(mut s: State, from: usize, to: usize) -> State {
    s.from = from;
    s.to = to;
    s
}

fn case(mut s: State, book: &[u8], sort: u8, line: &[u8]) -> State {
    let size = s.book;
    let group = s.group;
    if book.len() < size {
        s.group = tally::judge(group, false);
    } else {
        s.group = tally::judge(group, runs::right(&book[..size], sort, line));
    }
    s
}

fn line(mut s: State, book: &mut [u8], line: &[u8]) -> State {
    let sort = text::byte(line, 0);
    match sort {
        b'b' => {
            s.book = text::write(book, line);
            s
        }
        b'd' | b's' | b'l' => case(s, book, sort, line),
        _ => s,
    }
}

// The line from `at` to `end`.
fn step(
    rt: &impl Print,
    mut s: State,
    book: &mut [u8],
    input: &[u8],
    at: usize,
    end: usize,
) -> io::Result<State>
    requires { (at ≤ end) × (end ≤ length input.now) }
{
    if text::byte(input, at) == b'=' && end - at >= 2 {
        s = close_group(rt, s, input)?;
        return Ok(titled(s, at + 2, end));
    }
    Ok(line(s, book, &input[at..end]))
}

fn run(rt: &impl Print, book: &mut [u8], input: &[u8]) -> io::Result<State> {
    let mut s = State::default();
    let mut at = 0;
    // A while: it leaps from line to line.
    while at < input.len() {
        let end = text::line_end(input, at);
        s = step(rt, s, book, input, at, end)?;
        at = end + 1;
    }
    close_group(rt, s, input)
}

fn main(rt: HostRuntime) -> io::Result<()> {
    let mut input = buffers::input();
    let mut book = buffers::book();
    let length = reading::read_full(&mut rt.stdin(), &mut input)?;
    let s = run(&rt, &mut book, &input[..length])?;
    let total = s.total;
    tally::print(&rt, b"total", total)
}
