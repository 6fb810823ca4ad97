// Runs the cases of a table on a book and a sheet, written in hexadecimal; the recipe says what the numbers of a row are.
use crate::answers::{Answer, judge, of_grade, of_worked, refused, said};
use reports::tally::Tally;
use reports::text;
use reports::text::{Row, set};

// The number of no check.
const NO_CALL: u8 = 98;

#[derive(Clone, Copy)]
pub enum Recipe {
    Change,
    Entries,
    Ranked,
    Members,
    Grade,
    Link,
}

// How many numbers a row has; a grade stands after a 0 alone.
fn columns(recipe: Recipe, r: Row) -> usize {
    match recipe {
        Recipe::Change => 5,
        Recipe::Entries => 13,
        Recipe::Ranked => 16,
        Recipe::Members => 14,
        Recipe::Grade => if r.cell(2) == 0 { 4 } else { 3 },
        Recipe::Link => if r.cell(3) == 0 { 5 } else { 4 },
    }
}

// The first numbers of a row, from a place on.
fn set_all(b: &mut [u8], at: usize, r: Row, count: usize) {
    for i in 0..count {
        set(b, at.wrapping_add(i), r.small(i));
    }
}

// A case that cannot be made.
fn unfit(t: Tally) -> Tally {
    judge(t, refused(0), refused(0), false)
}

// The call gets the first `room` bytes of the buffer.
fn answer(book: &[u8], sheet: &[u8], room: usize, buffer: &mut [u8]) -> Answer {
    if buffer.len() < room {
        return refused(NO_CALL);
    }
    of_worked(checker::work_out(book, sheet, &mut buffer[..room]))
}

// The buffer is of A5; after the call, the whole of it is to be as wanted.
fn work(t: Tally, book: &[u8], sheet: &[u8], room: usize, a: Answer, wanted: &[u8]) -> Tally {
    let mut grid = [0xA5u8; 64];
    let given = answer(book, sheet, room, &mut grid);
    judge(t, a, given, grid.as_slice() == wanted)
}

// The grid is written only if the call is not refused.
fn want(b: &mut [u8], number: u8, grid: &[u8]) {
    if number == 0 {
        text::write(b, grid);
    }
}

// Book, sheet and grid in hexadecimal. After the grid, and on a refusal everywhere, A5 is to stay.
fn worked(t: Tally, book: &[u8], sheet: &[u8], room: usize, number: u8, grid: &[u8]) -> Tally {
    let mut wanted = [0xA5u8; 64];
    want(&mut wanted, number, grid);
    work(t, book, sheet, room, refused(number), &wanted)
}

fn on_sheet(t: Tally, book: &[u8], sheet: &[u8], room: usize, number: u8, grid: &[u8]) -> Tally {
    let mut s = [0u8; 64];
    let length = text::write(&mut s, sheet);
    if length <= 64 {
        return worked(t, book, &s[..length], room, number, grid);
    }
    unfit(t)
}

// A case without a row: book, sheet, room in the grid, number, grid.
pub fn written(t: Tally, book: &[u8], sheet: &[u8], room: usize, number: u8, grid: &[u8]) -> Tally {
    let mut b = [0u8; 64];
    let size = text::write(&mut b, book);
    if size <= 64 {
        return on_sheet(t, &b[..size], sheet, room, number, grid);
    }
    unfit(t)
}

// Byte of the sheet, its value, the sheet's length, room in the grid -> number; 0 is "meets", with the grid.
fn change(t: Tally, book: &[u8], sheet: &[u8], grid: &[u8], r: Row) -> Tally {
    let mut s = [0u8; 64];
    text::write(&mut s, sheet);
    set(&mut s, r.cell(0), r.small(1));
    let length = r.cell(2);
    if length <= 64 {
        return worked(t, book, &s[..length], r.cell(3), r.small(4), grid);
    }
    unfit(t)
}

// Four grades of names, four of links, two elements -> what is broken, which, at which element. The book's terms are its names.
fn entries(t: Tally, book: &[u8], sheet: &[u8], r: Row) -> Tally {
    let mut s = [0u8; 64];
    let mut wanted = [0xA5u8; 64];
    text::write(&mut s, sheet);
    set_all(&mut s, 12, r, 10);
    set_all(&mut wanted, 0, r, 4);
    let expected = said(r.small(10), r.cell(11), r.cell(12), 0);
    work(t, book, &s[..22], 64, expected, &wanted)
}

// Four grades of names, four links of role 0, four of role 1 -> what is broken, which, at which element, at which second one. The individual sits
// at element 0.
fn ranked(t: Tally, book: &[u8], sheet: &[u8], r: Row) -> Tally {
    let mut s = [0u8; 64];
    let mut wanted = [0xA5u8; 64];
    text::write(&mut s, sheet);
    set_all(&mut s, 12, r, 12);
    set_all(&mut wanted, 0, r, 4);
    let expected = said(r.small(12), r.cell(13), r.cell(14), r.cell(15));
    work(t, book, &s[0..25], 64, expected, &wanted)
}

// Four grades of names, the elements of eight individuals -> what is broken, which. There are no roles.
fn members(t: Tally, book: &[u8], sheet: &[u8], r: Row) -> Tally {
    let mut s = [0u8; 64];
    let mut wanted = [0xA5u8; 64];
    text::write(&mut s, sheet);
    set_all(&mut s, 12, r, 12);
    set_all(&mut wanted, 0, r, 4);
    let expected = said(r.small(12), r.cell(13), 0, 0);
    work(t, book, &s[..24], 64, expected, &wanted)
}

// A grade when the number is 0.
fn graded(number: u8, grade: usize) -> Answer {
    if number == 0 {
        said(4, grade, 0, 0)
    } else {
        refused(number)
    }
}

// The case of one row; without numbers it is none, and with too few or too many it differs.
fn case(t: Tally, recipe: Recipe, book: &[u8], sheet: &[u8], grid: &[u8], r: Row) -> Tally {
    if r.count == 0 {
        return t;
    }
    if r.count != columns(recipe, r) {
        return unfit(t);
    }
    let c = r.cell(0);
    let d = r.cell(1);
    let e = r.cell(2);
    match recipe {
        Recipe::Change => change(t, book, sheet, grid, r),
        Recipe::Entries => entries(t, book, sheet, r),
        Recipe::Ranked => ranked(t, book, sheet, r),
        Recipe::Members => members(t, book, sheet, r),
        // candidate, term -> number, grade
        Recipe::Grade => {
            let a = of_grade(asking::grade(book, c, d));
            judge(t, graded(r.small(2), r.cell(3)), a, true)
        }
        // role, from, to -> number, grade
        Recipe::Link => {
            let a = of_grade(asking::link(book, r.small(0), d, e));
            judge(t, graded(r.small(3), r.cell(4)), a, true)
        }
    }
}

// The cases of a table; each ends with a semicolon or the line.
fn rows(
    mut t: Tally,
    recipe: Recipe,
    book: &[u8],
    sheet: &[u8],
    grid: &[u8],
    table: &[u8],
) -> Tally {
    let mut r = Row::default();
    for c in table {
        r.read(*c);
        if *c == b';' || *c == b'\n' {
            t = case(t, recipe, book, sheet, grid, r);
            r = Row::default();
        }
    }
    t
}

pub fn run(
    t: Tally,
    recipe: Recipe,
    book: &[u8],
    sheet: &[u8],
    grid: &[u8],
    table: &[u8],
) -> Tally {
    let mut b = [0u8; 64];
    let size = text::write(&mut b, book);
    if size <= 64 {
        return rows(t, recipe, &b[..size], sheet, grid, table);
    }
    unfit(t)
}
