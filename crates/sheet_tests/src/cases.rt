// Cases written by hand from documents 01 and 02.
use crate::runs::{Recipe, run, written};
use reports::tally::{Tally, begin};

// A book of N 2: name 0, "some r0" of it, and the claim of individual 0 that it is at least 0. On a sheet of two elements.
fn changes(t: Tally, table: &[u8]) -> Tally {
    run(
        t,
        Recipe::Change,
        b"01 02  00 12 00 02  00 18 00 00  00 18 00 01  00 1C 00 00  00 00 00  04 00 00  00 00 00 00",
        b"01 02  02 01 01 01  00 0C 00 0E 00 12  01 02  01 02 00 00  01",
        b"01 02  02 00",
        table,
    )
}

// Check 13: length, byte 0, N, n, names, roles, individuals. Another n that is in range does not fit the layout.
pub fn heads() -> Tally {
    changes(
        begin(),
        b"
        0 1 19 4 -> 0;  0 1 0 4 -> 13;  0 1 11 4 -> 13;  0 1 12 4 -> 14
        0 0 19 4 -> 13;  0 2 19 4 -> 13;  0 255 19 4 -> 13
        1 1 19 4 -> 13;  1 2 19 4 -> 0;  1 3 19 4 -> 13
        2 0 19 4 -> 13;  2 1 19 4 -> 14;  2 2 19 4 -> 0;  2 64 19 4 -> 14;  2 65 19 4 -> 13;  2 255 19 4 -> 13
        3 0 19 4 -> 13;  3 1 19 4 -> 0;  3 2 19 4 -> 13
        4 0 19 4 -> 13;  4 1 19 4 -> 0;  4 2 19 4 -> 13
        5 0 19 4 -> 13;  5 1 19 4 -> 0;  5 2 19 4 -> 13
        ",
    )
}

// Check 14: each offset and the length one off.
pub fn layout() -> Tally {
    changes(
        begin(),
        b"
        7 11 19 4 -> 14;  7 12 19 4 -> 0;  7 13 19 4 -> 14;  6 1 19 4 -> 14
        9 13 19 4 -> 14;  9 14 19 4 -> 0;  9 15 19 4 -> 14;  8 1 19 4 -> 14
        11 17 19 4 -> 14;  11 18 19 4 -> 0;  11 19 19 4 -> 14;  10 1 19 4 -> 14
        0 1 18 4 -> 14;  0 1 20 4 -> 14
        ",
    )
}

// Checks 15 and 16: the first and the last of each body, the room.
pub fn bodies() -> Tally {
    changes(
        begin(),
        b"
        12 1 19 4 -> 0;  12 3 19 4 -> 15;  13 2 19 4 -> 0;  13 3 19 4 -> 15;  13 255 19 4 -> 15
        14 1 19 4 -> 0;  14 3 19 4 -> 15;  15 2 19 4 -> 0;  15 3 19 4 -> 15;  17 3 19 4 -> 15
        18 0 19 4 -> 0;  18 1 19 4 -> 0;  18 2 19 4 -> 15;  18 255 19 4 -> 15
        0 1 19 0 -> 16;  0 1 19 3 -> 16;  0 1 19 4 -> 0;  0 1 19 5 -> 0;  0 1 19 64 -> 0
        ",
    )
}

// Two faults: the first check that says no gives the number. Then faults of the book itself.
pub fn order() -> Tally {
    let mut t = changes(
        begin(),
        b"
        0 2 18 4 -> 13;  0 2 19 3 -> 13;  12 3 18 4 -> 14;  0 1 18 3 -> 14;  12 3 19 3 -> 15
        ",
    );
    // 13 and 15
    t = written(
        t,
        b"01 02  00 12 00 01  00 15 00 00  00 15 00 00  00 15 00 00  00 00 00",
        b"01 01  01 01 00 00  00 0C 00 0D 00 0D  03",
        1,
        13,
        b"",
    );
    // 2 and 13
    t = written(
        t,
        b"03 02  00 12 00 01  00 15 00 00  00 15 00 00  00 15 00 00  00 00 00",
        b"00 02",
        0,
        2,
        b"",
    );
    t = ranked_order(t);
    // 6 and 13
    written(
        t,
        b"01 02  00 12 00 01  00 15 00 00  00 15 00 00  00 15 00 00  08 00 00",
        b"00 02",
        0,
        6,
        b"",
    )
}

// Faults of a book of edition 2, with 13.
fn ranked_order(mut t: Tally) -> Tally {
    // 1: edition 1 called 2, so that it has a byte too few
    t = written(
        t,
        b"02 02  00 12 00 01  00 15 00 00  00 15 00 00  00 15 00 00  00 00 00",
        b"00 02",
        0,
        1,
        b"",
    );
    // 22: the upper role of the second pair is 8
    t = written(
        t,
        b"02 02  00 16 00 00  00 16 00 00  00 16 00 00  00 16 00 01  00 1A 00 02  00 00 00 01  00 01 07 08",
        b"00 02",
        0,
        22,
        b"",
    );
    // 9 and 22: the link claim's role is 8 too
    written(
        t,
        b"02 02  00 16 00 00  00 16 00 00  00 16 00 00  00 16 00 01  00 1A 00 02  08 00 00 01  00 01 07 08",
        b"00 02",
        0,
        9,
        b"",
    )
}

// One element; no terms, and so no grid; terms of every kind.
pub fn grids() -> Tally {
    let mut t = written(
        begin(),
        b"01 02  00 12 00 01  00 15 00 00  00 15 00 00  00 15 00 00  00 00 00",
        b"01 02  01 01 00 00  00 0C 00 0D 00 0D  02",
        1,
        0,
        b"02",
    );
    t = written(
        t,
        b"01 01  00 12 00 00  00 12 00 00  00 12 00 00  00 12 00 00",
        b"01 01  40 00 00 00  00 0C 00 0C 00 0C",
        0,
        0,
        b"",
    );
    // N 4: name 1, not, and, or, "some r1" and "all r1" of name 1, top, bottom; name 0 and role 0 are not used
    written(
        t,
        b"
        01 04  00 12 00 08  00 2A 00 00  00 2A 00 00  00 2A 00 00
        00 01 00  01 00 00  02 00 01  03 00 01  04 01 00  05 01 00  06 00 00  07 00 00
        ",
        b"
        01 04  02 02 02 00  00 0C 00 10 00 18
        04 01  00 03  04 04 04 04  02 03 00 04
        ",
        20,
        0,
        b"01 03 01 03 03 02 04 00  03 01 01 03 03 03 04 00",
    )
}

// A book of N 4: names 0 and 1, not greater than each other; individual 0 is at least 2, individual 1 at most 3 in name 0;
// the link of 0 to 1 is at least 2, of 1 to 0 at least 1.
pub fn verdicts() -> Tally {
    run(
        begin(),
        Recipe::Entries,
        b"
        01 04  00 12 00 02  00 18 00 02  00 1C 00 02  00 24 00 02
        00 00 00  00 01 00  00 01  01 00  00 00 00 02  01 00 01 03  00 00 01 02  00 01 00 01
        ",
        b"01 04  02 02 01 02  00 0C 00 10 00 14",
        b"",
        b"
        2 2 3 3  0 2 1 0  0 1 -> 0 0 0;  4 4 0 0  4 4 4 4  0 1 -> 0 0 0
        1 0 1 0  0 2 1 0  0 1 -> 1 0 0;  0 1 1 0  0 2 1 0  0 1 -> 1 0 1
        0 1 0 1  0 2 1 0  0 1 -> 1 1 0;  2 2 3 4  0 2 1 0  0 1 -> 1 1 1
        1 1 3 3  0 2 1 0  0 1 -> 2 0 0;  2 2 4 4  0 2 1 0  0 1 -> 2 1 0
        1 1 4 4  0 0 0 0  0 1 -> 2 0 0;  1 1 4 3  0 0 0 0  0 1 -> 1 0 1
        2 2 3 3  0 1 1 0  0 1 -> 3 0 0;  2 2 3 3  0 2 0 0  0 1 -> 3 1 0
        2 2 3 3  0 1 0 0  0 1 -> 3 0 0;  2 2 4 4  0 1 0 0  0 1 -> 2 1 0
        2 2 4 4  2 0 0 0  0 0 -> 0 0 0;  2 2 4 4  1 4 4 4  0 0 -> 3 0 0
        3 3 2 2  0 1 2 0  1 0 -> 0 0 0;  3 3 2 2  0 2 1 0  1 0 -> 3 0 0
        4 4 2 2  0 1 2 0  1 0 -> 2 1 0;  3 3 1 1  0 1 2 0  1 0 -> 2 0 0
        ",
    )
}

// A book of edition 2, N 2: name 0 not greater than name 1; individual 0 is at least 1 in name 0, and linked to itself by r0 at least 1. No claim
// or term uses r1.
fn ranked_verdicts(mut t: Tally) -> Tally {
    // r0 under r1: the upper link as great or greater; the lower greater at one place alone, at two (the lowest first element, then the lowest
    // second one), everywhere; and where something else is broken too: a rule comes first, claims come later
    t = run(
        t,
        Recipe::Ranked,
        b"
        02 02  00 16 00 02  00 1C 00 01  00 1E 00 01  00 22 00 01  00 26 00 01
        00 00 00 00 01 00  00 01  00 00 00 01  00 00 00 01  00 01
        ",
        b"01 02  02 02 02 01  00 0C 00 10 00 18",
        b"",
        b"
        1 1 0 0  1 0 2 0  1 0 2 0 -> 0 0 0 0;  1 1 0 0  1 0 0 0  2 2 2 2 -> 0 0 0 0;  1 1 0 0  2 2 2 2  2 2 2 2 -> 0 0 0 0
        1 1 0 0  1 0 0 0  0 2 2 2 -> 5 0 0 0;  1 1 0 0  1 1 0 0  1 0 2 2 -> 5 0 0 1
        1 1 0 0  1 0 2 0  1 2 1 2 -> 5 0 1 0;  1 1 0 0  1 0 0 2  1 2 2 1 -> 5 0 1 1
        1 1 0 0  1 1 1 0  1 0 0 0 -> 5 0 0 1;  1 1 0 0  1 0 1 1  1 0 0 0 -> 5 0 1 0;  1 1 0 0  2 2 2 2  1 1 1 1 -> 5 0 0 0
        1 1 1 0  1 0 0 0  0 0 0 0 -> 1 0 1 0;  1 0 0 0  1 0 0 1  1 0 0 0 -> 1 0 0 0;  1 1 1 0  1 0 0 0  1 0 0 0 -> 1 0 1 0
        0 0 0 0  1 0 1 0  1 0 0 0 -> 5 0 1 0;  0 0 0 0  1 0 1 0  1 0 1 0 -> 2 0 0 0
        1 1 0 0  0 0 0 1  0 0 0 0 -> 5 0 1 1;  1 1 0 0  0 0 0 1  0 0 0 1 -> 3 0 0 0;  1 1 0 0  0 0 0 0  2 2 2 2 -> 3 0 0 0
        0 0 1 0  0 0 0 1  0 0 0 0 -> 1 0 1 0;  0 0 0 0  0 0 0 1  0 0 0 0 -> 5 0 1 1;  0 0 0 0  0 0 0 0  0 0 0 0 -> 2 0 0 0
        ",
    );
    // r1 under itself, which nothing breaks; r0 under r1, r1 under r0, so that their links are equal; r0 under r1 again, which is never the first.
    // Where two pairs are broken, the first is named, at whatever elements
    run(
        t,
        Recipe::Ranked,
        b"
        02 02  00 16 00 02  00 1C 00 01  00 1E 00 01  00 22 00 01  00 26 00 04
        00 00 00 00 01 00  00 01  00 00 00 01  00 00 00 01  01 01 00 01 01 00 00 01
        ",
        b"01 02  02 02 02 01  00 0C 00 10 00 18",
        b"",
        b"
        1 1 0 0  1 0 2 0  1 0 2 0 -> 0 0 0 0;  1 1 0 0  1 0 0 1  1 0 0 0 -> 5 1 1 1;  1 1 0 0  1 0 0 0  1 1 0 0 -> 5 2 0 1
        1 1 0 0  1 0 0 1  2 0 0 0 -> 5 1 1 1;  1 1 0 0  2 0 0 0  1 0 0 2 -> 5 1 0 0;  1 1 0 0  1 0 1 1  1 2 2 2 -> 5 2 0 1
        ",
    )
}

// Sheets of one element for a book of edition 2 without terms, claims or rules, whose one pair is r0 under r5, then r5 under r0: R is 6 either way,
// and a sheet with fewer or more roles is refused 13, as is one whose byte 0 is 2. Without pairs R is 0.
fn counted_roles(mut t: Tally) -> Tally {
    let up = b"02 02  00 16 00 00  00 16 00 00  00 16 00 00  00 16 00 00  00 16 00 01  00 05";
    let down = b"02 02  00 16 00 00  00 16 00 00  00 16 00 00  00 16 00 00  00 16 00 01  05 00";
    let none = b"02 02  00 16 00 00  00 16 00 00  00 16 00 00  00 16 00 00  00 16 00 00";
    let six = b"01 02  01 00 06 00  00 0C 00 0C 00 12  01 01 01 01 01 01";
    let five = b"01 02  01 00 05 00  00 0C 00 0C 00 11  01 01 01 01 01";
    let seven = b"01 02  01 00 07 00  00 0C 00 0C 00 13  01 01 01 01 01 01 01";
    let zero = b"01 02  01 00 00 00  00 0C 00 0C 00 0C";
    let second = b"02 02  01 00 06 00  00 0C 00 0C 00 12  01 01 01 01 01 01";
    t = written(t, up, six, 0, 0, b"");
    t = written(t, up, five, 0, 13, b"");
    t = written(t, up, seven, 0, 13, b"");
    t = written(t, up, zero, 0, 13, b"");
    t = written(t, up, second, 0, 13, b"");
    t = written(t, down, six, 0, 0, b"");
    t = written(t, down, five, 0, 13, b"");
    t = written(t, down, zero, 0, 13, b"");
    t = written(t, none, six, 0, 13, b"");
    written(t, none, zero, 0, 0, b"")
}

pub fn pairs() -> Tally {
    counted_roles(ranked_verdicts(begin()))
}

// A book of N 4 with names 0 and 1 and six claims: name 0 at least 2 for 0, 3 and 7; name 1 at most 3 for 1 and 6; name 0 at least 4 for none; of
// individual 2, name 0 at most 3; name 1 at most 0 for none; name 1 at least 1 for all eight. Element 0 breaks none of them.
fn broken_sets(t: Tally) -> Tally {
    run(
        t,
        Recipe::Members,
        b"
        01 04  00 12 00 02  00 18 00 00  00 18 00 06  00 30 00 00
        00 00 00 00 01 00  89 00 02 02  42 01 03 03  00 00 02 04  02 00 01 03  00 01 03 00  FF 01 02 01
        ",
        b"01 04  02 02 00 08  00 0C 00 10 00 10",
        b"",
        b"
        2 1 0 0  0 0 0 0 0 0 0 0 -> 0 0;  3 3 0 0  0 0 0 0 0 0 0 0 -> 0 0;  0 0 3 3  1 1 1 1 1 1 1 1 -> 0 0
        2 1 1 1  1 0 0 0 0 0 0 0 -> 2 0;  2 1 1 1  0 0 0 1 0 0 0 0 -> 2 0;  2 1 1 1  0 0 0 0 0 0 0 1 -> 2 0
        2 1 1 1  1 0 0 1 0 0 0 1 -> 2 0;  2 1 1 1  0 1 1 0 1 1 1 0 -> 0 0
        2 1 2 4  0 1 0 0 0 0 0 0 -> 2 1;  2 1 2 4  0 0 0 0 0 0 1 0 -> 2 1;  2 1 2 4  0 1 0 0 0 0 1 0 -> 2 1;  2 1 2 4  1 0 1 1 1 1 0 1 -> 0 0
        2 1 4 1  0 0 1 0 0 0 0 0 -> 2 3;  2 1 4 1  1 1 0 1 1 1 1 1 -> 0 0
        2 1 2 0  1 0 0 0 0 0 0 0 -> 2 5;  2 1 2 0  0 0 0 0 1 0 0 0 -> 2 5;  2 1 2 0  0 0 0 0 0 0 0 1 -> 2 5;  2 1 2 0  1 1 1 1 1 1 1 1 -> 2 5
        2 1 1 4  0 1 0 0 0 0 0 1 -> 2 0;  2 1 1 4  0 1 0 0 1 1 0 0 -> 2 1;  2 1 4 0  0 0 1 0 0 0 0 0 -> 2 3;  2 1 4 0  0 0 0 0 0 1 0 0 -> 2 5
        2 1 0 0  0 0 0 0 0 0 0 1 -> 2 0;  2 1 0 0  0 0 1 0 0 0 0 0 -> 2 5;  0 0 0 0  0 0 0 0 0 0 0 0 -> 2 0
        ",
    )
}

// Sets beside what else can be broken. A book of N 4: name 0 not greater than name 1; name 0 at least 2 for 0 and 1, name 1 at most 3 for 1; the
// link of 0 to 1 at least 2. Then one of edition 2, N 2, with the same rule, and r0 under r1: name 0 at least 2 for none, at least 1 for 0, which r0
// links to itself at least 1.
fn sets_in_order(mut t: Tally) -> Tally {
    t = run(
        t,
        Recipe::Entries,
        b"
        01 04  00 12 00 02  00 18 00 01  00 1A 00 02  00 22 00 01
        00 00 00 00 01 00  00 01  03 00 02 02  02 01 03 03  00 00 01 02
        ",
        b"01 04  02 02 01 02  00 0C 00 10 00 14",
        b"",
        b"
        2 2 3 3  0 2 0 0  0 1 -> 0 0 0;  2 4 3 3  0 2 0 0  0 1 -> 0 0 0;  2 4 3 3  0 0 0 2  1 1 -> 0 0 0
        1 3 2 3  0 2 0 0  0 1 -> 2 0 0;  2 3 1 3  0 2 0 0  0 1 -> 2 0 0;  1 3 1 3  0 2 0 0  0 1 -> 2 0 0;  2 3 1 3  0 0 0 0  0 0 -> 3 0 0
        2 3 2 4  0 2 0 0  0 1 -> 2 1 0;  2 3 2 4  0 0 2 0  1 0 -> 0 0 0;  2 3 1 4  0 2 0 0  0 1 -> 2 0 0
        1 0 2 3  0 2 0 0  0 1 -> 1 0 0;  2 3 1 0  0 2 0 0  0 1 -> 1 0 1;  2 3 1 4  0 0 0 0  0 1 -> 2 0 0
        2 3 2 4  0 0 0 0  0 1 -> 2 1 0;  2 3 2 3  0 1 0 0  0 1 -> 3 0 0
        ",
    );
    run(
        t,
        Recipe::Ranked,
        b"
        02 02  00 16 00 02  00 1C 00 01  00 1E 00 02  00 26 00 01  00 2A 00 01
        00 00 00 00 01 00  00 01  00 00 02 02  01 00 02 01  00 00 00 01  00 01
        ",
        b"01 02  02 02 02 01  00 0C 00 10 00 18",
        b"",
        b"
        1 1 0 0  1 0 2 0  1 0 2 0 -> 0 0 0 0;  0 0 1 1  1 0 2 0  1 0 2 0 -> 2 1 0 0;  0 0 1 1  0 0 2 0  1 0 2 0 -> 2 1 0 0
        0 0 1 1  1 0 2 0  1 0 1 0 -> 5 0 1 0;  0 0 1 0  1 0 2 0  1 0 1 0 -> 1 0 1 0;  0 0 1 0  1 0 2 0  1 0 2 0 -> 1 0 1 0
        1 1 0 0  0 0 2 0  1 0 2 0 -> 3 0 0 0
        ",
    )
}

// Books of N 2 with one name, on a sheet of one element where it is graded 1. Byte 5 of the sheet is I; its length is 13 more.
fn counts_of(t: Tally, book: &[u8], table: &[u8]) -> Tally {
    run(
        t,
        Recipe::Change,
        book,
        b"01 02  01 01 00 00  00 0C 00 0D 00 0D  01",
        b"01",
        table,
    )
}

// One claim, for a set: of 7 in either sense, of 0, of 0 and 1, of all, of none.
fn counted_members(mut t: Tally) -> Tally {
    let eight = b"
        5 8 21 4 -> 0;  5 7 20 4 -> 13;  5 9 22 4 -> 13;  5 1 14 4 -> 13;  5 0 13 4 -> 13
        ";
    t = counts_of(
        t,
        b"01 02  00 12 00 01  00 15 00 00  00 15 00 01  00 19 00 00  00 00 00  80 00 02 01",
        eight,
    );
    t = counts_of(
        t,
        b"01 02  00 12 00 01  00 15 00 00  00 15 00 01  00 19 00 00  00 00 00  80 00 03 01",
        eight,
    );
    t = counts_of(
        t,
        b"01 02  00 12 00 01  00 15 00 00  00 15 00 01  00 19 00 00  00 00 00  FF 00 02 01",
        eight,
    );
    t = counts_of(
        t,
        b"01 02  00 12 00 01  00 15 00 00  00 15 00 01  00 19 00 00  00 00 00  01 00 02 01",
        b"
        5 1 14 4 -> 0;  5 0 13 4 -> 13;  5 2 15 4 -> 13
        ",
    );
    t = counts_of(
        t,
        b"01 02  00 12 00 01  00 15 00 00  00 15 00 01  00 19 00 00  00 00 00  03 00 03 01",
        b"
        5 2 15 4 -> 0;  5 1 14 4 -> 13;  5 3 16 4 -> 13;  5 4 17 4 -> 13
        ",
    );
    // at least 2, which the name is not
    counts_of(
        t,
        b"01 02  00 12 00 01  00 15 00 00  00 15 00 01  00 19 00 00  00 00 00  00 00 02 02",
        b"
        5 0 13 4 -> 0;  5 1 14 4 -> 13;  5 8 21 4 -> 13
        ",
    )
}

// Several claims: for 1, then of individual 4; of individual 1, then for 0 and 5; for 2, for 5 and for none. Edition 2: for 0 and 2, for none.
fn counted_sets(mut t: Tally) -> Tally {
    t = counts_of(
        t,
        b"01 02  00 12 00 01  00 15 00 00  00 15 00 02  00 1D 00 00  00 00 00  02 00 02 01  04 00 01 01",
        b"
        5 5 18 4 -> 0;  5 2 15 4 -> 13;  5 3 16 4 -> 13;  5 4 17 4 -> 13;  5 6 19 4 -> 13
        ",
    );
    let six = b"
        5 6 19 4 -> 0;  5 5 18 4 -> 13;  5 7 20 4 -> 13;  5 8 21 4 -> 13
        ";
    t = counts_of(
        t,
        b"01 02  00 12 00 01  00 15 00 00  00 15 00 02  00 1D 00 00  00 00 00  01 00 00 01  21 00 02 01",
        six,
    );
    t = counts_of(
        t,
        b"01 02  00 12 00 01  00 15 00 00  00 15 00 03  00 21 00 00  00 00 00  04 00 02 01  20 00 03 01  00 00 02 02",
        six,
    );
    counts_of(
        t,
        b"02 02  00 16 00 01  00 19 00 00  00 19 00 02  00 21 00 00  00 21 00 00  00 00 00  05 00 02 01  00 00 03 00",
        b"
        5 3 16 4 -> 0;  5 2 15 4 -> 13;  5 4 17 4 -> 13
        ",
    )
}

// With a link claim: from 2, beside a claim for none; then to 2, beside claims for 0 and 3 and of individual 1. The sheet has a role, so its length
// is 14 and I.
fn counted_beside_links(mut t: Tally) -> Tally {
    let sheet = b"01 02  01 01 01 00  00 0C 00 0D 00 0E  01  02";
    t = run(
        t,
        Recipe::Change,
        b"01 02  00 12 00 01  00 15 00 00  00 15 00 01  00 19 00 01  00 00 00  00 00 03 00  00 02 00 02",
        sheet,
        b"01",
        b"
        5 3 17 4 -> 0;  5 0 14 4 -> 13;  5 1 15 4 -> 13;  5 2 16 4 -> 13;  5 4 18 4 -> 13
        ",
    );
    run(
        t,
        Recipe::Change,
        b"01 02  00 12 00 01  00 15 00 00  00 15 00 02  00 1D 00 01  00 00 00  09 00 02 01  01 00 00 01  00 00 02 02",
        sheet,
        b"01",
        b"
        5 4 18 4 -> 0;  5 3 17 4 -> 13;  5 5 19 4 -> 13;  5 8 22 4 -> 13
        ",
    )
}

pub fn sets() -> Tally {
    let t = sets_in_order(broken_sets(begin()));
    counted_beside_links(counted_sets(counted_members(t)))
}

// N 4: name 0, "all r0" of it; then name 0, not, and, or, top, bottom; then five names of N 8, and a fault of the book.
pub fn grades() -> Tally {
    let mut t = run(
        begin(),
        Recipe::Grade,
        b"01 04  00 12 00 02  00 18 00 00  00 18 00 00  00 18 00 00  00 00 00  05 00 00",
        b"",
        b"",
        b"
        0 0 -> 0 0;  0 1 -> 0 0;  15 0 -> 0 0;  15 1 -> 0 3;  23 0 -> 0 3;  24 0 -> 0 4;  24 1 -> 0 4
        25 0 -> 20;  99999 0 -> 20;  24 2 -> 21;  0 99999 -> 21;  25 2 -> 20
        ",
    );
    t = run(
        t,
        Recipe::Grade,
        b"
        01 04  00 12 00 06  00 24 00 00  00 24 00 00  00 24 00 00
        00 00 00  01 00 00  02 00 01  03 00 01  06 00 00  07 00 00
        ",
        b"",
        b"",
        b"
        1 0 -> 0 1;  1 1 -> 0 3;  1 2 -> 0 1;  1 3 -> 0 3;  1 4 -> 0 4;  1 5 -> 0 0
        4 5 -> 0 0;  5 5 -> 20;  4 6 -> 21;  5 6 -> 20
        ",
    );
    t = run(
        t,
        Recipe::Grade,
        b"
        01 08  00 12 00 05  00 21 00 00  00 21 00 00  00 21 00 00
        00 00 00  00 01 00  00 02 00  00 03 00  00 04 00
        ",
        b"",
        b"",
        b"
        0 0 -> 10;  99999 5 -> 10
        ",
    );
    run(
        t,
        Recipe::Grade,
        b"01 09  00 12 00 00  00 12 00 00  00 12 00 00  00 12 00 00",
        b"",
        b"",
        b"
        0 0 -> 3;  1 0 -> 3
        ",
    )
}

// A book of edition 2, N 4: name 0, "all r0", "all r1" of it, and pairs. A candidate is the name's grade, 5 times that of "all r0" and 25 times
// that of "all r1". Where the second has the name graded 0, "all" graded g bounds its role by 4 - g. So from 80 to 0 r0 is bounded by 3 and r1 by 1,
// from 40 to 0 r0 by 1 and r1 by 3. Where the name is graded 2, 80 leaves r0 alone and bounds r1 by 1.
fn ranked_links(mut t: Tally) -> Tally {
    // no pairs; r0 under itself, twice
    let unranked = b"
        0 80 0 -> 0 3;  1 80 0 -> 0 1;  2 80 0 -> 0 4;  0 40 0 -> 0 1;  1 40 0 -> 0 3;  0 80 2 -> 0 4;  1 80 2 -> 0 1
        ";
    t = links_of(
        t,
        b"02 04  00 16 00 03  00 1F 00 00  00 1F 00 00  00 1F 00 00  00 1F 00 00  00 00 00 05 00 00 05 01 00",
        unranked,
    );
    t = links_of(
        t,
        b"02 04  00 16 00 03  00 1F 00 00  00 1F 00 00  00 1F 00 00  00 1F 00 02  00 00 00 05 00 00 05 01 00  00 00 00 00",
        unranked,
    );
    // r0 under r1: r0 has the bound of r1 too, and r1 not that of r0; the numbers that are refused stay so
    t = links_of(
        t,
        b"02 04  00 16 00 03  00 1F 00 00  00 1F 00 00  00 1F 00 00  00 1F 00 01  00 00 00 05 00 00 05 01 00  00 01",
        b"
        0 80 0 -> 0 1;  1 80 0 -> 0 1;  2 80 0 -> 0 4;  0 40 0 -> 0 1;  1 40 0 -> 0 3;  0 80 2 -> 0 1;  1 80 2 -> 0 1
        0 125 0 -> 20;  0 0 125 -> 20;  8 124 124 -> 21;  8 125 0 -> 20
        ",
    );
    // r0 under r1 under r2 under r0: all have the least bound of the three; r3 has none
    t = links_of(
        t,
        b"02 04  00 16 00 03  00 1F 00 00  00 1F 00 00  00 1F 00 00  00 1F 00 03  00 00 00 05 00 00 05 01 00  00 01 01 02 02 00",
        b"
        0 80 0 -> 0 1;  1 80 0 -> 0 1;  2 80 0 -> 0 1;  3 80 0 -> 0 4;  0 40 0 -> 0 1;  1 40 0 -> 0 1;  2 40 0 -> 0 1;  1 80 2 -> 0 1;  2 80 2 -> 0 1
        ",
    );
    // r5 under r1, r0 under r5: r0 has the bound of r1 through r5, which no term uses
    t = links_of(
        t,
        b"02 04  00 16 00 03  00 1F 00 00  00 1F 00 00  00 1F 00 00  00 1F 00 02  00 00 00 05 00 00 05 01 00  05 01 00 05",
        b"
        0 80 0 -> 0 1;  1 80 0 -> 0 1;  5 80 0 -> 0 1;  2 80 0 -> 0 4;  0 40 0 -> 0 1;  1 40 0 -> 0 3;  5 40 0 -> 0 3;  0 80 2 -> 0 1
        ",
    );
    // r2 under r0 and under r1: the least of two bounds above; r0 and r1 have their own
    links_of(
        t,
        b"02 04  00 16 00 03  00 1F 00 00  00 1F 00 00  00 1F 00 00  00 1F 00 02  00 00 00 05 00 00 05 01 00  02 00 02 01",
        b"
        2 80 0 -> 0 1;  0 80 0 -> 0 3;  1 80 0 -> 0 1;  2 40 0 -> 0 1;  0 40 0 -> 0 1;  1 40 0 -> 0 3
        ",
    )
}

fn links_of(t: Tally, book: &[u8], table: &[u8]) -> Tally {
    run(t, Recipe::Link, book, b"", b"", table)
}

// N 4: name 0, "all r0" of it: graded 3 with the name graded 1 in the second, its link is 1. All eight roles in a row, each under the one below its
// number, so that all have that bound; in either order of the pairs. Then the row upside down: r0 is under all others, which have no bound.
// Last "some r1": graded 1 with the name graded 3 it bounds r1 by 1, and r0 under r1; and not r0 above r1.
fn long_links(mut t: Tally) -> Tally {
    let bounded = b"
        0 15 1 -> 0 1;  1 15 1 -> 0 1;  2 15 1 -> 0 1;  3 15 1 -> 0 1;  4 15 1 -> 0 1;  5 15 1 -> 0 1;  6 15 1 -> 0 1;  7 15 1 -> 0 1
        7 15 3 -> 0 4;  7 20 3 -> 0 0
        ";
    t = links_of(
        t,
        b"
        02 04  00 16 00 02  00 1C 00 00  00 1C 00 00  00 1C 00 00  00 1C 00 07
        00 00 00 05 00 00  01 00 02 01 03 02 04 03 05 04 06 05 07 06
        ",
        bounded,
    );
    t = links_of(
        t,
        b"
        02 04  00 16 00 02  00 1C 00 00  00 1C 00 00  00 1C 00 00  00 1C 00 07
        00 00 00 05 00 00  07 06 06 05 05 04 04 03 03 02 02 01 01 00
        ",
        bounded,
    );
    t = links_of(
        t,
        b"
        02 04  00 16 00 02  00 1C 00 00  00 1C 00 00  00 1C 00 00  00 1C 00 07
        00 00 00 05 00 00  00 01 01 02 02 03 03 04 04 05 05 06 06 07
        ",
        b"
        0 15 1 -> 0 1;  1 15 1 -> 0 4;  7 15 1 -> 0 4
        ",
    );
    t = links_of(
        t,
        b"02 04  00 16 00 02  00 1C 00 00  00 1C 00 00  00 1C 00 00  00 1C 00 01  00 00 00 04 01 00  00 01",
        b"
        0 5 3 -> 0 1;  1 5 3 -> 0 1;  2 5 3 -> 0 4;  0 10 2 -> 0 4
        ",
    );
    t = links_of(
        t,
        b"02 04  00 16 00 02  00 1C 00 00  00 1C 00 00  00 1C 00 00  00 1C 00 01  00 00 00 04 01 00  01 00",
        b"
        0 5 3 -> 0 4;  1 5 3 -> 0 1
        ",
    );
    refused_pairs(t)
}

// A pair names role 8: refused 22 before the questions of a link or a grade. With five names of N 8 too: 22 comes before 10.
fn refused_pairs(mut t: Tally) -> Tally {
    t = links_of(
        t,
        b"02 04  00 16 00 01  00 19 00 00  00 19 00 00  00 19 00 00  00 19 00 01  00 00 00  08 01",
        b"
        0 0 0 -> 22;  8 99 99 -> 22
        ",
    );
    run(
        t,
        Recipe::Grade,
        b"
        02 08  00 16 00 05  00 25 00 00  00 25 00 00  00 25 00 00  00 25 00 01
        00 00 00  00 01 00  00 02 00  00 03 00  00 04 00  01 08
        ",
        b"",
        b"",
        b"
        0 0 -> 22;  99999 5 -> 22
        ",
    )
}

// N 4: name 0, then "all r0" or "some r0" of it. A candidate is the name's grade and five times the other's.
pub fn links() -> Tally {
    let t = run(
        begin(),
        Recipe::Link,
        b"01 04  00 12 00 02  00 18 00 00  00 18 00 00  00 18 00 00  00 00 00  05 00 00",
        b"",
        b"",
        b"
        0 15 1 -> 0 1;  0 15 3 -> 0 4;  0 24 24 -> 0 4;  0 24 23 -> 0 0;  7 24 23 -> 0 4
        0 25 0 -> 20;  0 0 25 -> 20;  8 24 24 -> 21;  255 0 0 -> 21;  8 25 0 -> 20;  8 0 25 -> 20
        ",
    );
    run(
        t,
        Recipe::Link,
        b"01 04  00 12 00 02  00 18 00 00  00 18 00 00  00 18 00 00  00 00 00  04 00 00",
        b"",
        b"",
        b"
        0 5 3 -> 0 1;  0 10 2 -> 0 4;  0 0 1 -> 0 0;  1 0 1 -> 0 4
        ",
    )
}

pub fn links_under_pairs() -> Tally {
    long_links(ranked_links(begin()))
}
