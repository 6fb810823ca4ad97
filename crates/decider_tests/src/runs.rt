// Runs one case. Its line has a row of numbers, and after a `|` each what the buffers are to hold: the first marks, the placement, the first
// bytes of the sheet. Everything else is to be as before.
ghost use Rattle.std.specs.Prelude.{◌≤◌, length};

use crate::answers::{Answer, answered, of_decision, of_grade, of_length};
use crate::buffers;
use crate::buffers::{begins, is_said, kept, marked};
use decisions::Decision;
use refusals::Refusal;
use reports::text;
use reports::text::Row;
use working::Verdict;

// The number of no check: the case asks for longer buffers than there are.
const NO_CALL: usize = 98;

// Where the part of the line ends that begins at `from`.
fn part_end(line: &[u8], from: usize) -> usize
    requires { from ≤ length line.now }
    ensures { (from ≤ result) × (result ≤ length line.now) }
{
    if from < line.len() {
        return text::until(line, from + 1, b'|');
    }
    from
}

// Of an opened book, or of its bytes.
fn decide_by(
    opened: bool,
    b: &[u8],
    marks: &mut [u8],
    placement: &mut [u8],
) -> Result<Decision, Refusal> {
    if opened {
        let book = book::open(b)?;
        opened::decide(b, book.sections, marks, placement)
    } else {
        decider::decide(b, marks, placement)
    }
}

fn decide(opened: bool, book: &[u8], r: Row, marks: &mut [u8], placement: &mut [u8]) -> Answer {
    let m = r.cell(0);
    let p = r.cell(1);
    if marks.len() < m || placement.len() < p {
        return answered(NO_CALL, 0, 0);
    }
    of_decision(decide_by(opened, book, &mut marks[..m], &mut placement[..p]))
}

fn decided_right(
    opened: bool,
    book: &[u8],
    r: Row,
    said_marks: &[u8],
    said_placement: &[u8],
) -> bool {
    let mut marks = buffers::marks();
    let mut placement = buffers::placement();
    let a = decide(opened, book, r, &mut marks, &mut placement);
    a == answered(r.cell(2), r.cell(3), r.cell(4))
        && marked(&marks, r.cell(4), r.cell(5))
        && begins(&marks, said_marks)
        && is_said(&placement, said_placement)
}

// Marks' room, placement's room -> number, outcome, survivors, candidates.
fn decide_right(book: &[u8], r: Row, said_marks: &[u8], said_placement: &[u8]) -> bool {
    decided_right(false, book, r, said_marks, said_placement)
        && decided_right(true, book, r, said_marks, said_placement)
}

fn write(book: &[u8], r: Row, marks: &mut [u8], placement: &mut [u8], sheet: &mut [u8]) -> Answer {
    let m = r.cell(0);
    let p = r.cell(1);
    let s = r.cell(2);
    if marks.len() < m || placement.len() < p || sheet.len() < s {
        return answered(NO_CALL, 0, 0);
    }
    of_length(writer::write_sheet(book, &mut marks[..m], &mut placement[..p], &mut sheet[..s]))
}

// Does working out the sheet say "meets"? There is none if the call was refused.
fn meets(book: &[u8], sheet: &[u8], number: usize, size: usize) -> bool {
    if number != 0 {
        return true;
    }
    if sheet.len() < size {
        return false;
    }
    let mut grid = buffers::grid();
    matches!(
        checker::work_out(book, &sheet[..size], &mut grid),
        Ok(Verdict::Meets)
    )
}

fn sheet_said(book: &[u8], sheet: &[u8], r: Row, said: &[u8]) -> bool {
    kept(sheet, r.cell(4)) && begins(sheet, said) && meets(book, sheet, r.cell(3), r.cell(4))
}

// Marks' room, placement's room, sheet's room -> number, length, survivors, candidates.
fn sheet_right(book: &[u8], r: Row, said_marks: &[u8], said_placement: &[u8], said: &[u8]) -> bool {
    let mut marks = buffers::marks();
    let mut placement = buffers::placement();
    let mut sheet = buffers::sheet();
    let a = write(book, r, &mut marks, &mut placement, &mut sheet);
    a == answered(r.cell(3), r.cell(4), 0)
        && marked(&marks, r.cell(5), r.cell(6))
        && begins(&marks, said_marks)
        && is_said(&placement, said_placement)
        && sheet_said(book, &sheet, r, said)
}

// Role, from, to -> number, grade.
fn link_right(book: &[u8], r: Row) -> bool {
    let a = of_grade(asking::link(book, r.small(0), r.cell(1), r.cell(2)));
    a == answered(r.cell(3), r.cell(4), 0)
}

// How many numbers the row of a case has.
fn columns(sort: u8) -> usize {
    match sort {
        b'd' => 6,
        b's' => 7,
        _ => 5,
    }
}

pub fn right(book: &[u8], sort: u8, line: &[u8]) -> bool {
    let one = text::until(line, 0, b'|');
    let two = part_end(line, one);
    let three = part_end(line, two);
    let r = text::row_of(&line[..one]);
    if r.count != columns(sort) {
        return false;
    }
    if sort == b'l' {
        return link_right(book, r);
    }
    if sort == b'd' {
        return decide_right(book, r, &line[one..two], &line[two..three]);
    }
    let four = part_end(line, three);
    sheet_right(
        book,
        r,
        &line[one..two],
        &line[two..three],
        &line[three..four],
    )
}
