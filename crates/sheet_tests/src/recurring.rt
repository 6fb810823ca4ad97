// Cases of names that recur, written by hand from P5 of document 02: a name is one place, at its first term, and all terms with it have its grade.
use crate::runs::{Recipe, run, written};
use reports::tally::{Tally, begin};

fn grades_of(t: Tally, book: &[u8], table: &[u8]) -> Tally {
    run(t, Recipe::Grade, book, b"", b"", table)
}

fn links_of(t: Tally, book: &[u8], table: &[u8]) -> Tally {
    run(t, Recipe::Link, book, b"", b"", table)
}

// N 4: name 0, "all r0" of it, name 0, not of that, name 1, name 0. The places are name 0, "all r0" and name 1, so there are 125 candidates. In 38, which
// is 3 + 5 * 2 + 25 * 1, name 0 is graded 3, "all r0" 2, not 1 and name 1 1. The same of edition 2, with r0 under r1.
fn grades_around(mut t: Tally) -> Tally {
    let table = b"
        38 0 -> 0 3;  38 1 -> 0 2;  38 2 -> 0 3;  38 3 -> 0 1;  38 4 -> 0 1;  38 5 -> 0 3
        5 0 -> 0 0;  5 1 -> 0 1;  5 2 -> 0 0;  5 3 -> 0 4;  5 5 -> 0 0;  25 1 -> 0 0;  25 2 -> 0 0;  25 4 -> 0 1;  25 5 -> 0 0
        124 0 -> 0 4;  124 1 -> 0 4;  124 2 -> 0 4;  124 3 -> 0 0;  124 4 -> 0 4;  124 5 -> 0 4
        125 0 -> 20;  124 6 -> 21;  125 6 -> 20;  624 0 -> 20;  0 6 -> 21
        ";
    t = grades_of(
        t,
        b"
        01 04  00 12 00 06  00 24 00 00  00 24 00 00  00 24 00 00
        00 00 00  05 00 00  00 00 00  01 02 00  00 01 00  00 00 00
        ",
        table,
    );
    grades_of(
        t,
        b"
        02 04  00 16 00 06  00 28 00 00  00 28 00 00  00 28 00 00  00 28 00 01
        00 00 00  05 00 00  00 00 00  01 02 00  00 01 00  00 00 00  00 01
        ",
        table,
    )
}

// N 2: a top, "some r1" of it, name 7 twice, "some r1" of the top again: the name is the second of three places, and the terms "some" are two. In 14,
// which is 2 + 3 * 1 + 9 * 1, they are graded 2, 1 and 1. Then N 8: the names 3, 0, 1, 2, in turn and backwards: 6561 candidates, of which 3178 is
// 1 + 9 * 2 + 81 * 3 + 729 * 4. With name 4 last: refused 10.
fn grades_apart(mut t: Tally) -> Tally {
    t = grades_of(
        t,
        b"
        01 02  00 12 00 05  00 21 00 00  00 21 00 00  00 21 00 00
        06 00 00  04 01 00  00 07 00  00 07 00  04 01 00
        ",
        b"
        14 0 -> 0 2;  14 1 -> 0 2;  14 2 -> 0 1;  14 3 -> 0 1;  14 4 -> 0 1;  26 4 -> 0 2;  26 5 -> 21;  27 0 -> 20
        ",
    );
    t = grades_of(
        t,
        b"
        01 08  00 12 00 08  00 2A 00 00  00 2A 00 00  00 2A 00 00
        00 03 00  00 00 00  00 01 00  00 02 00  00 02 00  00 01 00  00 00 00  00 03 00
        ",
        b"
        3178 0 -> 0 1;  3178 1 -> 0 2;  3178 2 -> 0 3;  3178 3 -> 0 4;  3178 4 -> 0 4;  3178 5 -> 0 3;  3178 6 -> 0 2;  3178 7 -> 0 1
        6560 7 -> 0 8;  6561 7 -> 20;  6560 8 -> 21;  6561 8 -> 20
        ",
    );
    grades_of(
        t,
        b"
        01 08  00 12 00 08  00 2A 00 00  00 2A 00 00  00 2A 00 00
        00 03 00  00 00 00  00 01 00  00 02 00  00 02 00  00 01 00  00 00 00  00 04 00
        ",
        b"
        0 0 -> 10;  6561 8 -> 10
        ",
    )
}

// One name fifteen times, N 8; then b is 1 in the last of two: refused 6.
fn grades_of_one(mut t: Tally) -> Tally {
    t = grades_of(
        t,
        b"
        01 08  00 12 00 0F  00 3F 00 00  00 3F 00 00  00 3F 00 00
        00 0F 00 00 0F 00 00 0F 00 00 0F 00 00 0F 00 00 0F 00 00 0F 00 00 0F 00
        00 0F 00 00 0F 00 00 0F 00 00 0F 00 00 0F 00 00 0F 00 00 0F 00
        ",
        b"
        0 14 -> 0 0;  5 0 -> 0 5;  5 7 -> 0 5;  5 14 -> 0 5;  8 14 -> 0 8;  8 15 -> 21;  9 0 -> 20;  9 15 -> 20
        ",
    );
    grades_of(
        t,
        b"01 08  00 12 00 02  00 18 00 00  00 18 00 00  00 18 00 00  00 00 00  00 00 01",
        b"
        0 0 -> 6;  9 0 -> 6
        ",
    )
}

// N 4. Name 0 twice, "all r0" of the second: a candidate is the name's grade and five times the other's, and a link is as with one term of the name.
// Then name 0, "some r0" of it, name 0, "all r0" of that: a candidate is the name's grade, 5 times that of "some" and 25 times that of "all". Graded 1,
// "some" bounds the link to a name graded 3 by 1; graded 3, "all" bounds that to a name graded 1 by 1, and graded 2 by 2.
fn bounds(mut t: Tally) -> Tally {
    t = links_of(
        t,
        b"01 04  00 12 00 03  00 1B 00 00  00 1B 00 00  00 1B 00 00  00 00 00  00 00 00  05 00 01",
        b"
        0 15 1 -> 0 1;  0 15 3 -> 0 4;  0 24 24 -> 0 4;  0 24 23 -> 0 0;  7 24 23 -> 0 4
        0 25 0 -> 20;  0 0 25 -> 20;  8 24 24 -> 21;  8 25 0 -> 20
        ",
    );
    links_of(
        t,
        b"01 04  00 12 00 04  00 1E 00 00  00 1E 00 00  00 1E 00 00  00 00 00  04 00 00  00 00 00  05 00 02",
        b"
        0 80 3 -> 0 1;  0 90 1 -> 0 1;  0 90 3 -> 0 4;  0 70 1 -> 0 2;  0 80 1 -> 0 1;  0 0 4 -> 0 0;  0 0 0 -> 0 4;  1 0 4 -> 0 4
        0 124 124 -> 0 4;  0 124 123 -> 0 0;  0 125 0 -> 20;  0 0 125 -> 20;  8 124 0 -> 21
        ",
    )
}

// Edition 2, N 4, r0 under r1: name 0, "all r0" of it, name 0, "all r1" of that. As with one term of the name, from 80 to 0 r0 is bounded by 3 and r1,
// and so r0, by 1.
fn bounds_under_pairs(t: Tally) -> Tally {
    links_of(
        t,
        b"
        02 04  00 16 00 04  00 22 00 00  00 22 00 00  00 22 00 00  00 22 00 01
        00 00 00  05 00 00  00 00 00  05 01 02  00 01
        ",
        b"
        0 80 0 -> 0 1;  1 80 0 -> 0 1;  0 40 0 -> 0 1;  1 40 0 -> 0 3;  0 80 2 -> 0 1;  2 80 0 -> 0 4;  0 125 0 -> 20;  8 0 0 -> 21
        ",
    )
}

// N 4, on two elements: name 1, "some r0" of it, name 1, not of that, name 1 and not, "all r0" of the second, name 1. Name 0 is not used. With name 1
// graded 1 and 3, links 2 and 3 from the first, 0 and 4 from the second, "some" is 3 and 3 and "all" 2 and 3. All columns of the name are equal.
fn grids(t: Tally) -> Tally {
    written(
        t,
        b"
        01 04  00 12 00 07  00 27 00 00  00 27 00 00  00 27 00 00
        00 01 00  04 00 00  00 01 00  01 02 00  02 00 03  05 00 02  00 01 00
        ",
        b"01 04  02 02 01 00  00 0C 00 10 00 14  04 01  00 03  02 03 00 04",
        14,
        0,
        b"01 03 01 03 01 02 01  03 03 03 01 01 03 03",
    )
}

// N 2, on one element: name 1 twice. A is 2, whatever the number of terms, and the grid has a grade for each term.
fn heads(t: Tally) -> Tally {
    run(
        t,
        Recipe::Change,
        b"01 02  00 12 00 02  00 18 00 00  00 18 00 00  00 18 00 00  00 01 00  00 01 00",
        b"01 02  01 02 00 00  00 0C 00 0E 00 0E  00 01",
        b"01 01",
        b"
        0 1 14 2 -> 0;  0 1 14 4 -> 0;  0 1 14 1 -> 16;  0 1 14 0 -> 16;  3 1 14 2 -> 13;  3 3 14 2 -> 13;  12 2 14 2 -> 0;  13 3 14 2 -> 15
        ",
    )
}

// N 4: name 1 twice, not greater than each other; by the first individual 0 is at least 2, by the second individual 1 at most 3; the link of 0 to 1 is
// at least 2. Name 0, which is not used, is graded as name 1 is.
fn verdicts(t: Tally) -> Tally {
    run(
        t,
        Recipe::Entries,
        b"
        01 04  00 12 00 02  00 18 00 02  00 1C 00 02  00 24 00 01
        00 01 00  00 01 00  00 01  01 00  00 00 00 02  01 01 01 03  00 00 01 02
        ",
        b"01 04  02 02 01 02  00 0C 00 10 00 14",
        b"",
        b"
        2 2 3 3  0 2 0 0  0 1 -> 0 0 0;  4 4 0 0  0 2 0 0  0 1 -> 0 0 0;  3 3 0 0  2 0 0 0  0 0 -> 0 0 0
        1 1 3 3  0 2 0 0  0 1 -> 2 0 0;  2 2 4 4  0 2 0 0  0 1 -> 2 1 0;  1 1 4 4  0 2 0 0  0 1 -> 2 0 0;  4 4 0 0  4 0 0 0  0 0 -> 2 1 0
        2 2 3 3  0 1 0 0  0 1 -> 3 0 0;  1 1 3 3  0 2 2 0  1 0 -> 0 0 0
        ",
    )
}

pub fn cases() -> Tally {
    let t = grades_of_one(grades_apart(grades_around(begin())));
    verdicts(heads(grids(bounds_under_pairs(bounds(t)))))
}
