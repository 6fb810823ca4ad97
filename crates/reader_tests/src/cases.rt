// Cases written by hand from documents 01 and 02: what the book is made of and, after the arrow, the number of the first check that says no, or 0 and
// the number of candidates.
use crate::answers::answered;
use crate::books::blank;
use crate::reader::expect;
use crate::recipes::{Recipe, run};
use reports::tally::{Tally, begin};
use reports::text;
use std::io;

// A book in hexadecimal.
fn written(
    rt: &impl Print,
    t: Tally,
    book: &[u8],
    number: u8,
    candidates: u64,
) -> io::Result<Tally> {
    let mut b = blank();
    let length = text::write(&mut b, book);
    expect(rt, t, &b, length, answered(number, candidates))
}

// Readings on file: the printed book, the same with N 1, no terms or claims.
fn plain_readings(rt: &impl Print, mut t: Tally) -> io::Result<Tally> {
    t = written(
        rt,
        t,
        b"01 02 00 12 00 02 00 18 00 02 00 1C 00 01 00 20 00 00 00 00 00 01 00 00 00 01 01 00 00 00 00 01",
        0,
        3,
    )?;
    t = written(
        rt,
        t,
        b"01 01 00 12 00 02 00 18 00 02 00 1C 00 01 00 20 00 00 00 00 00 01 00 00 00 01 01 00 00 00 00 01",
        0,
        2,
    )?;
    written(
        rt,
        t,
        b"01 01 00 12 00 00 00 12 00 00 00 12 00 00 00 12 00 00",
        0,
        1,
    )
}

// The printed book in edition 2, without pairs, then with role 0 under 7 and 3 under itself: pairs do not change the candidates.
fn ranked_readings(rt: &impl Print, mut t: Tally) -> io::Result<Tally> {
    t = written(
        rt,
        t,
        b"
        02 02  00 16 00 02  00 1C 00 02  00 20 00 01  00 24 00 00  00 24 00 00
        00 00 00 01 00 00  00 01 01 00  00 00 00 01
        ",
        0,
        3,
    )?;
    written(
        rt,
        t,
        b"
        02 02  00 16 00 02  00 1C 00 02  00 20 00 01  00 24 00 00  00 24 00 02
        00 00 00 01 00 00  00 01 01 00  00 00 00 01  00 07 03 03
        ",
        0,
        3,
    )
}

pub fn readings(rt: &impl Print) -> io::Result<Tally> {
    let mut t = ranked_readings(rt, plain_readings(rt, begin())?)?;
    // A not greater than "some r0 A", claim A at least 1
    t = written(
        rt,
        t,
        b"01 01 00 12 00 02 00 18 00 01 00 1A 00 01 00 1E 00 00 00 00 00 04 00 00 00 01 00 00 00 01",
        0,
        4,
    )?;
    // "some r0 bottom" at least 1
    t = written(
        rt,
        t,
        b"01 01 00 12 00 02 00 18 00 00 00 18 00 01 00 1C 00 00 07 00 00 04 00 00 00 01 00 01",
        0,
        2,
    )?;
    // N 2, link of 0 to itself at least 2, "all r0 A" at least 2, A at most 1
    written(
        rt,
        t,
        b"01 02 00 12 00 02 00 18 00 00 00 18 00 02 00 20 00 01 00 00 00 05 00 00 00 01 00 02 00 00 01 01 00 00 00 02",
        0,
        9,
    )
}

// Check 1. Terms, rules, membership claims, link claims, length.
pub fn lengths(rt: &impl Print) -> io::Result<Tally> {
    let t = run(
        rt,
        begin(),
        Recipe::Sized,
        b"
        0 0 0 0 0 -> 1;  0 0 0 0 1 -> 1
        0 0 0 0 17 -> 1;  0 0 0 0 18 -> 0 1
        1 1 1 1 17 -> 1;  1 1 1 1 31 -> 0 1
        64 64 64 64 849 -> 5;  64 64 64 64 850 -> 0 1;  64 64 64 64 851 -> 1
        ",
    )?;
    ranked_lengths(rt, t)
}

// Edition 2: the same with pairs before the length. Then byte, its value, length: byte 0 says which lengths are right, 22 to 982 where it is 2 and
// 18 to 850 where it is not. The head is that of edition 2 without records, so a length that is right is refused 2 or 5.
fn ranked_lengths(rt: &impl Print, mut t: Tally) -> io::Result<Tally> {
    t = run(
        rt,
        t,
        Recipe::RankedSized,
        b"
        0 0 0 0 0 0 -> 1;  0 0 0 0 0 1 -> 1
        0 0 0 0 0 18 -> 1;  0 0 0 0 0 21 -> 1;  0 0 0 0 0 22 -> 0 1
        1 1 1 1 1 21 -> 1;  1 1 1 1 1 37 -> 0 1
        64 64 64 64 0 854 -> 0 1;  64 64 64 64 64 850 -> 5;  64 64 64 64 64 851 -> 5
        64 64 64 64 64 981 -> 5;  64 64 64 64 64 982 -> 0 1;  64 64 64 64 64 983 -> 1
        ",
    )?;
    run(
        rt,
        t,
        Recipe::RankedEmpty,
        b"
        0 1 17 -> 1;  0 1 18 -> 5;  0 1 21 -> 5;  0 1 850 -> 5;  0 1 851 -> 1;  0 1 982 -> 1;  0 1 983 -> 1
        0 2 17 -> 1;  0 2 18 -> 1;  0 2 21 -> 1;  0 2 850 -> 5;  0 2 851 -> 5;  0 2 982 -> 5;  0 2 983 -> 1
        0 3 17 -> 1;  0 3 18 -> 2;  0 3 21 -> 2;  0 3 850 -> 2;  0 3 851 -> 1;  0 3 982 -> 1;  0 3 983 -> 1
        0 0 17 -> 1;  0 0 18 -> 2;  0 0 21 -> 2;  0 0 850 -> 2;  0 0 851 -> 1;  0 0 982 -> 1;  0 0 983 -> 1
        ",
    )
}

// Check 2. Byte, its value, length. Edition 1 called 2 is too short or has bodies at the wrong place, and so has edition 2 called 1.
pub fn editions(rt: &impl Print) -> io::Result<Tally> {
    let mut t = run(
        rt,
        begin(),
        Recipe::Empty,
        b"
        0 0 18 -> 2;  0 1 18 -> 0 1;  0 2 18 -> 1;  0 3 18 -> 2;  0 255 18 -> 2
        ",
    )?;
    t = run(
        rt,
        t,
        Recipe::Sample,
        b"
        0 0 37 -> 2;  0 1 37 -> 0 9;  0 2 37 -> 5;  0 3 37 -> 2
        ",
    )?;
    t = run(
        rt,
        t,
        Recipe::RankedEmpty,
        b"
        0 0 22 -> 2;  0 1 22 -> 5;  0 2 22 -> 0 1;  0 3 22 -> 2;  0 255 22 -> 2
        ",
    )?;
    run(
        rt,
        t,
        Recipe::RankedSample,
        b"
        0 0 45 -> 2;  0 1 45 -> 5;  0 2 45 -> 0 9;  0 3 45 -> 2;  0 255 45 -> 2
        ",
    )
}

// Check 3. Byte, its value, length.
pub fn steps(rt: &impl Print) -> io::Result<Tally> {
    let mut t = run(
        rt,
        begin(),
        Recipe::Empty,
        b"
        1 0 18 -> 3;  1 1 18 -> 0 1
        1 8 18 -> 0 1;  1 9 18 -> 3;  1 255 18 -> 3
        ",
    )?;
    t = run(
        rt,
        t,
        Recipe::Sample,
        b"
        1 0 37 -> 3;  1 1 37 -> 0 4
        1 8 37 -> 0 81;  1 9 37 -> 3
        ",
    )?;
    run(
        rt,
        t,
        Recipe::RankedSample,
        b"
        1 0 45 -> 3;  1 1 45 -> 0 4
        1 8 45 -> 0 81;  1 9 45 -> 3
        ",
    )
}

// Check 4. Terms, rules, membership claims, link claims, length; then byte, its value, length: the low and the high byte of each count.
pub fn counts(rt: &impl Print) -> io::Result<Tally> {
    let mut t = run(
        rt,
        begin(),
        Recipe::Sized,
        b"
        64 0 0 0 210 -> 0 1;  65 0 0 0 213 -> 4
        1 64 0 0 149 -> 0 1;  1 65 0 0 151 -> 4
        1 0 64 0 277 -> 0 1;  1 0 65 0 281 -> 4
        0 0 0 64 274 -> 0 1;  0 0 0 65 278 -> 4
        ",
    )?;
    t = run(
        rt,
        t,
        Recipe::Sample,
        b"
        5 65 37 -> 4;  5 255 37 -> 4;  4 1 37 -> 4
        9 65 37 -> 4;  9 255 37 -> 4;  8 1 37 -> 4
        13 65 37 -> 4;  13 255 37 -> 4;  12 1 37 -> 4
        17 65 37 -> 4;  17 255 37 -> 4;  16 1 37 -> 4
        ",
    )?;
    ranked_counts(rt, t)
}

// Edition 2: the same with pairs.
fn ranked_counts(rt: &impl Print, mut t: Tally) -> io::Result<Tally> {
    t = run(
        rt,
        t,
        Recipe::RankedSized,
        b"
        64 0 0 0 0 214 -> 0 1;  65 0 0 0 0 217 -> 4
        1 64 0 0 0 153 -> 0 1;  1 65 0 0 0 155 -> 4
        1 0 64 0 0 281 -> 0 1;  1 0 65 0 0 285 -> 4
        0 0 0 64 0 278 -> 0 1;  0 0 0 65 0 282 -> 4
        0 0 0 0 1 24 -> 0 1;  0 0 0 0 64 150 -> 0 1;  0 0 0 0 65 152 -> 4
        ",
    )?;
    run(
        rt,
        t,
        Recipe::RankedSample,
        b"
        5 65 45 -> 4;  9 65 45 -> 4;  13 65 45 -> 4;  17 65 45 -> 4
        21 64 45 -> 5;  21 65 45 -> 4;  21 255 45 -> 4;  20 1 45 -> 4
        ",
    )
}

// Check 5. Byte, its value, length: each offset, each count and the length one off; offsets of empty sections; bodies from byte 19 on.
pub fn layout(rt: &impl Print) -> io::Result<Tally> {
    let mut t = run(
        rt,
        begin(),
        Recipe::Sample,
        b"
        3 17 37 -> 5;  3 18 37 -> 0 9;  3 19 37 -> 5;  2 1 37 -> 5
        7 26 37 -> 5;  7 28 37 -> 5;  6 1 37 -> 5
        11 28 37 -> 5;  11 30 37 -> 5;  10 1 37 -> 5
        15 32 37 -> 5;  15 34 37 -> 5;  14 1 37 -> 5
        5 2 37 -> 5;  5 4 37 -> 5
        9 0 37 -> 5;  9 2 37 -> 5
        13 0 37 -> 5;  13 2 37 -> 5
        17 0 37 -> 5;  17 2 37 -> 5
        0 1 36 -> 5;  0 1 38 -> 5
        ",
    )?;
    t = run(
        rt,
        t,
        Recipe::Empty,
        b"
        0 1 19 -> 5
        15 18 18 -> 0 1;  15 0 18 -> 5
        7 17 18 -> 5;  11 19 18 -> 5
        ",
    )?;
    t = ranked_layout(rt, t)?;
    written(
        rt,
        t,
        b"
        01 02  00 13 00 03  00 1C 00 01  00 1E 00 01  00 22 00 01
        00  00 00 00 01 00 00 00 05 00  00 01  00 00 00 01  00 00 01 01
        ",
        5,
        0,
    )
}

// Edition 2: bodies from byte 22 on, the pairs where the link claims end, the length where the pairs end.
fn ranked_layout(rt: &impl Print, mut t: Tally) -> io::Result<Tally> {
    t = run(
        rt,
        t,
        Recipe::RankedSample,
        b"
        3 18 45 -> 5;  3 21 45 -> 5;  3 22 45 -> 0 9;  3 23 45 -> 5;  2 1 45 -> 5
        7 30 45 -> 5;  7 32 45 -> 5;  11 32 45 -> 5;  11 34 45 -> 5;  15 36 45 -> 5;  15 38 45 -> 5
        19 40 45 -> 5;  19 41 45 -> 0 9;  19 42 45 -> 5;  19 0 45 -> 5;  18 1 45 -> 5
        5 2 45 -> 5;  9 2 45 -> 5;  13 0 45 -> 5;  17 0 45 -> 5;  17 2 45 -> 5
        21 0 45 -> 5;  21 1 45 -> 5;  21 3 45 -> 5
        0 2 41 -> 5;  0 2 43 -> 5;  0 2 44 -> 5;  0 2 46 -> 5
        ",
    )?;
    run(
        rt,
        t,
        Recipe::RankedEmpty,
        b"
        0 2 23 -> 5;  0 2 24 -> 5
        19 22 22 -> 0 1;  19 0 22 -> 5;  19 18 22 -> 5;  19 21 22 -> 5;  19 23 22 -> 5
        ",
    )
}

// Check 6. Terms before it, kind, a, b.
fn kinds(rt: &impl Print) -> io::Result<Tally> {
    run(
        rt,
        begin(),
        Recipe::Term,
        b"
        0 0 0 0 -> 0 2;  0 0 0 1 -> 6
        0 0 15 0 -> 0 2;  0 0 16 0 -> 6;  0 0 255 0 -> 6
        63 0 15 0 -> 0 2;  63 0 16 0 -> 6
        0 1 0 0 -> 6;  1 1 0 0 -> 0 1;  1 1 1 0 -> 6;  1 1 2 0 -> 6;  1 1 0 1 -> 6
        63 1 62 0 -> 0 1;  63 1 63 0 -> 6
        0 2 0 0 -> 6;  1 2 0 0 -> 0 1;  1 2 1 0 -> 6;  1 2 0 1 -> 6
        63 2 62 62 -> 0 1;  63 2 63 62 -> 6;  63 2 62 63 -> 6
        0 3 0 0 -> 6;  1 3 0 0 -> 0 1;  1 3 1 0 -> 6;  1 3 0 1 -> 6
        63 3 62 62 -> 0 1;  63 3 63 62 -> 6;  63 3 62 63 -> 6
        0 4 0 0 -> 6;  1 4 0 0 -> 0 2;  1 4 0 1 -> 6;  1 4 7 0 -> 0 2;  1 4 8 0 -> 6
        63 4 7 62 -> 0 2;  63 4 8 62 -> 6;  63 4 7 63 -> 6
        0 5 0 0 -> 6;  1 5 0 0 -> 0 2;  1 5 0 1 -> 6;  1 5 7 0 -> 0 2;  1 5 8 0 -> 6
        63 5 7 62 -> 0 2;  63 5 8 62 -> 6;  63 5 7 63 -> 6
        0 6 0 0 -> 0 1;  0 6 1 0 -> 6;  0 6 0 1 -> 6
        63 6 0 0 -> 0 1;  63 6 1 0 -> 6;  63 6 0 1 -> 6
        0 7 0 0 -> 0 1;  0 7 1 0 -> 6;  0 7 0 1 -> 6
        63 7 0 0 -> 0 1;  63 7 1 0 -> 6;  63 7 0 1 -> 6
        0 8 0 0 -> 6;  1 8 0 0 -> 6;  63 8 0 0 -> 6;  0 255 0 0 -> 6
        ",
    )
}

// A term after a name and "some r0" of it: name, kind, a, b. The same name is right and adds no place to these two, another name adds one; so does a
// quantified term, also an equal one. What else check 6 asks it asks of a name that recurs too.
fn after_names(rt: &impl Print, t: Tally) -> io::Result<Tally> {
    run(
        rt,
        t,
        Recipe::AfterName,
        b"
        0 0 0 0 -> 0 4;  0 0 1 0 -> 0 8;  0 0 15 0 -> 0 8;  15 0 15 0 -> 0 4;  15 0 14 0 -> 0 8;  15 0 0 0 -> 0 8
        0 0 0 1 -> 6;  0 0 0 255 -> 6;  15 0 15 1 -> 6;  0 0 16 0 -> 6;  16 0 0 0 -> 6;  16 0 16 0 -> 6;  3 8 3 0 -> 6
        3 1 0 0 -> 0 4;  3 2 0 0 -> 0 4;  3 3 0 1 -> 0 4;  3 4 0 0 -> 0 8;  3 5 0 0 -> 0 8;  3 4 0 1 -> 0 8;  3 6 0 0 -> 0 4;  3 7 0 0 -> 0 4
        ",
    )
}

// In the sample, of either edition, byte, its value, length: the last term's name is 0, 4, 15, 16, and its b 1; the first's is 5, which the last has; the
// second term is name 0. One name is one place wherever it stands: 3 candidates of one name, 9 of two.
pub fn terms(rt: &impl Print) -> io::Result<Tally> {
    let t = run(
        rt,
        after_names(rt, kinds(rt)?)?,
        Recipe::Sample,
        b"
        25 4 37 -> 0 9;  25 0 37 -> 0 3;  19 5 37 -> 0 3;  21 0 37 -> 0 9
        25 15 37 -> 0 9;  25 16 37 -> 6;  26 1 37 -> 6
        ",
    )?;
    run(
        rt,
        t,
        Recipe::RankedSample,
        b"
        29 4 45 -> 0 9;  29 0 45 -> 0 3;  23 5 45 -> 0 3;  25 0 45 -> 0 9
        29 15 45 -> 0 9;  29 16 45 -> 6;  30 1 45 -> 6
        ",
    )
}

// Check 7. Terms, left, right.
pub fn rules(rt: &impl Print) -> io::Result<Tally> {
    run(
        rt,
        begin(),
        Recipe::Rule,
        b"
        0 0 0 -> 7;  1 0 0 -> 0 1;  1 1 0 -> 7;  1 0 1 -> 7
        2 1 1 -> 0 1;  2 2 0 -> 7;  2 0 2 -> 7
        64 63 63 -> 0 1;  64 64 63 -> 7;  64 63 64 -> 7
        64 255 0 -> 7;  64 0 255 -> 7
        ",
    )
}

// Check 8. N, terms, individual, term, sense, grade.
pub fn memberships(rt: &impl Print) -> io::Result<Tally> {
    run(
        rt,
        begin(),
        Recipe::Membership,
        b"
        2 0 0 0 0 0 -> 8;  2 1 0 0 0 0 -> 0 1
        2 1 7 0 0 2 -> 0 1;  2 1 8 0 0 2 -> 8;  2 1 255 0 0 2 -> 8
        2 1 7 1 0 2 -> 8;  2 64 7 63 0 2 -> 0 1;  2 64 7 64 0 2 -> 8
        2 1 7 0 1 2 -> 0 1;  2 1 7 0 4 2 -> 8;  2 1 7 0 255 2 -> 8
        2 1 7 0 0 3 -> 8;  2 1 7 0 1 3 -> 8
        1 1 7 0 0 1 -> 0 1;  1 1 7 0 0 2 -> 8
        8 1 7 0 0 8 -> 0 1;  8 1 7 0 0 9 -> 8;  8 1 7 0 0 255 -> 8
        ",
    )
}

// Check 8 of claims for sets, senses 2 and 3. N, terms, set, term, sense, grade: every set is right, also the empty one, whose term and grade are
// checked all the same. In senses 0 and 1 the first byte is an individual.
fn set_ranges(rt: &impl Print, t: Tally) -> io::Result<Tally> {
    run(
        rt,
        t,
        Recipe::Membership,
        b"
        2 1 0 0 2 2 -> 0 1;  2 1 1 0 2 2 -> 0 1;  2 1 7 0 2 2 -> 0 1;  2 1 8 0 2 2 -> 0 1;  2 1 128 0 2 2 -> 0 1;  2 1 255 0 2 2 -> 0 1
        2 1 0 0 3 2 -> 0 1;  2 1 1 0 3 2 -> 0 1;  2 1 7 0 3 2 -> 0 1;  2 1 8 0 3 2 -> 0 1;  2 1 128 0 3 2 -> 0 1;  2 1 255 0 3 2 -> 0 1
        2 1 8 0 1 2 -> 8;  2 1 128 0 0 2 -> 8;  2 1 128 0 1 2 -> 8;  2 1 255 0 1 2 -> 8
        2 1 0 0 4 2 -> 8;  2 1 0 0 5 2 -> 8;  2 1 0 0 255 2 -> 8;  2 1 255 0 4 2 -> 8;  2 1 255 0 5 2 -> 8;  2 1 255 0 255 2 -> 8
        2 1 0 1 2 2 -> 8;  2 1 0 1 3 2 -> 8;  2 1 255 1 2 2 -> 8;  2 1 255 1 3 2 -> 8;  2 1 0 255 2 2 -> 8
        2 64 0 63 2 2 -> 0 1;  2 64 0 64 2 2 -> 8;  2 64 255 63 3 2 -> 0 1;  2 64 255 64 3 2 -> 8
        2 1 0 0 2 3 -> 8;  2 1 0 0 3 3 -> 8;  2 1 255 0 2 3 -> 8;  2 1 255 0 3 3 -> 8;  2 1 0 0 2 0 -> 0 1;  2 1 255 0 3 0 -> 0 1
        1 1 0 0 2 1 -> 0 1;  1 1 0 0 2 2 -> 8;  1 1 255 0 3 1 -> 0 1;  1 1 255 0 3 2 -> 8
        8 1 0 0 2 8 -> 0 1;  8 1 0 0 2 9 -> 8;  8 1 255 0 3 8 -> 0 1;  8 1 255 0 3 9 -> 8;  8 1 0 0 3 255 -> 8
        ",
    )
}

// The same between its neighbours. Right term of a rule, set, term, sense, grade, role of a link claim. Then edition 2: set, term, sense, grade, role
// of a link claim, upper role of a pair.
fn set_order(rt: &impl Print, mut t: Tally) -> io::Result<Tally> {
    t = run(
        rt,
        t,
        Recipe::Set,
        b"
        1 255 1 2 2 7 -> 0 1;  1 255 1 3 2 7 -> 0 1;  1 0 1 2 2 7 -> 0 1;  1 0 1 3 2 7 -> 0 1
        2 255 1 2 2 7 -> 7;  2 0 1 2 3 7 -> 7;  2 255 1 4 2 7 -> 7;  2 0 2 3 2 8 -> 7
        1 255 1 2 2 8 -> 9;  1 0 1 3 2 8 -> 9;  1 255 1 2 3 8 -> 8;  1 0 1 2 3 8 -> 8;  1 0 2 3 2 8 -> 8;  1 128 1 4 2 8 -> 8
        ",
    )?;
    run(
        rt,
        t,
        Recipe::RankedSet,
        b"
        255 1 2 2 7 7 -> 0 1;  128 1 3 2 7 7 -> 0 1;  0 1 2 2 7 7 -> 0 1;  0 1 3 2 7 7 -> 0 1
        255 1 4 2 7 7 -> 8;  0 1 4 2 7 7 -> 8;  0 2 2 2 7 7 -> 8;  0 1 3 3 7 7 -> 8;  255 2 3 2 7 7 -> 8;  255 1 2 3 7 7 -> 8
        8 1 0 2 7 7 -> 8;  8 1 2 2 7 7 -> 0 1;  8 1 1 2 7 7 -> 8;  8 1 3 2 7 7 -> 0 1
        255 1 2 2 8 7 -> 9;  255 1 2 2 7 8 -> 22;  0 1 3 2 7 8 -> 22;  0 1 3 3 8 8 -> 8;  255 1 4 2 7 8 -> 8
        ",
    )
}

// Senses of single claims made those of sets, in either edition: byte, its value, length. Then no terms, so that an empty set has no right term; and
// 15 names, so that 10 comes after a right claim and not before a wrong one.
pub fn sets(rt: &impl Print) -> io::Result<Tally> {
    let mut t = set_order(rt, set_ranges(rt, begin())?)?;
    t = run(
        rt,
        t,
        Recipe::Sample,
        b"
        31 1 37 -> 0 9;  31 2 37 -> 0 9;  31 3 37 -> 0 9;  31 4 37 -> 8
        ",
    )?;
    t = run(
        rt,
        t,
        Recipe::RankedSample,
        b"
        35 1 45 -> 0 9;  35 2 45 -> 0 9;  35 3 45 -> 0 9;  35 4 45 -> 8
        ",
    )?;
    t = written(
        rt,
        t,
        b"01 02 00 12 00 00 00 12 00 00 00 12 00 01 00 16 00 00 00 00 02 00",
        8,
        0,
    )?;
    named_sets(rt, t)
}

fn named_sets(rt: &impl Print, mut t: Tally) -> io::Result<Tally> {
    t = written(
        rt,
        t,
        b"
        01 01  00 12 00 0F  00 3F 00 00  00 3F 00 01  00 43 00 00
        00 00 00 00 01 00 00 02 00 00 03 00 00 04 00 00 05 00 00 06 00 00 07 00 00 08 00 00 09 00
        00 0A 00 00 0B 00 00 0C 00 00 0D 00 00 0E 00  FF 0E 02 01
        ",
        10,
        0,
    )?;
    written(
        rt,
        t,
        b"
        01 01  00 12 00 0F  00 3F 00 00  00 3F 00 01  00 43 00 00
        00 00 00 00 01 00 00 02 00 00 03 00 00 04 00 00 05 00 00 06 00 00 07 00 00 08 00 00 09 00
        00 0A 00 00 0B 00 00 0C 00 00 0D 00 00 0E 00  FF 0F 02 01
        ",
        8,
        0,
    )
}

// Check 9. N, role, from, to, grade.
pub fn links(rt: &impl Print) -> io::Result<Tally> {
    run(
        rt,
        begin(),
        Recipe::Link,
        b"
        2 0 0 0 0 -> 0 1;  2 7 7 7 2 -> 0 1
        2 8 7 7 2 -> 9;  2 255 7 7 2 -> 9
        2 7 8 7 2 -> 9;  2 7 255 7 2 -> 9
        2 7 7 8 2 -> 9;  2 7 7 255 2 -> 9
        2 7 7 7 3 -> 9;  1 0 0 0 1 -> 0 1;  1 0 0 0 2 -> 9
        8 0 0 0 8 -> 0 1;  8 0 0 0 9 -> 9;  8 0 0 0 255 -> 9
        ",
    )
}

// Check 22. Lower, upper, lower, upper; then byte, its value, length. Roles 0 to 7 are right in each place, also one role twice (3 3), a pair
// that recurs (2 5), a circle (0 7, 7 0; 0 1, 1 0).
pub fn pairs(rt: &impl Print) -> io::Result<Tally> {
    let t = run(
        rt,
        begin(),
        Recipe::Pairs,
        b"
        0 0 0 0 -> 0 1;  7 7 7 7 -> 0 1;  3 3 3 3 -> 0 1;  2 5 2 5 -> 0 1;  0 7 7 0 -> 0 1
        7 0 0 0 -> 0 1;  8 0 0 0 -> 22;  255 0 0 0 -> 22
        0 7 0 0 -> 0 1;  0 8 0 0 -> 22;  0 255 0 0 -> 22
        0 0 7 0 -> 0 1;  0 0 8 0 -> 22;  0 0 255 0 -> 22
        0 0 0 7 -> 0 1;  0 0 0 8 -> 22;  0 0 0 255 -> 22
        8 8 8 8 -> 22
        ",
    )?;
    run(
        rt,
        t,
        Recipe::RankedSample,
        b"
        41 7 45 -> 0 9;  41 8 45 -> 22;  42 7 45 -> 0 9;  42 8 45 -> 22
        43 7 45 -> 0 9;  43 8 45 -> 22;  44 7 45 -> 0 9;  44 8 45 -> 22
        44 0 45 -> 0 9;  44 1 45 -> 0 9
        37 8 45 -> 9;  40 3 45 -> 9
        ",
    )
}

// Check 10 where names recur, in either edition. N, names, terms "some" after them, how often the names come again, up to 64 terms in all; past that it
// is check 4. Only the names and the terms "some" are places.
fn repeated_candidates(rt: &impl Print, mut t: Tally) -> io::Result<Tally> {
    let table = b"
        1 14 0 0 -> 0 16384;  1 14 0 1 -> 0 16384;  1 14 0 3 -> 0 16384;  1 15 0 1 -> 10;  1 15 0 3 -> 10;  1 16 0 3 -> 10
        1 13 1 3 -> 0 16384;  1 14 1 3 -> 10;  1 13 2 1 -> 10;  1 1 13 50 -> 0 16384;  1 1 14 49 -> 10;  1 1 0 63 -> 0 2
        8 4 0 15 -> 0 6561;  8 5 0 11 -> 10;  8 3 1 19 -> 0 6561;  8 4 1 13 -> 10;  8 1 3 60 -> 0 6561;  8 1 4 59 -> 10;  8 1 0 63 -> 0 9
        2 8 0 7 -> 0 6561;  2 9 0 6 -> 10;  3 7 0 8 -> 0 16384;  3 8 0 7 -> 10
        1 16 0 4 -> 4;  8 1 0 64 -> 4
        ";
    t = run(rt, t, Recipe::Repeated, table)?;
    run(rt, t, Recipe::RankedRepeated, table)
}

// Check 10. N, names, terms "some", terms "all".
pub fn candidates(rt: &impl Print) -> io::Result<Tally> {
    let t = run(
        rt,
        begin(),
        Recipe::Places,
        b"
        1 14 0 0 -> 0 16384;  1 15 0 0 -> 10;  1 16 0 0 -> 10
        2 8 0 0 -> 0 6561;  2 9 0 0 -> 10
        3 7 0 0 -> 0 16384;  3 8 0 0 -> 10
        4 6 0 0 -> 0 15625;  4 7 0 0 -> 10
        5 5 0 0 -> 0 7776;  5 6 0 0 -> 10
        6 4 0 0 -> 0 2401;  6 5 0 0 -> 10
        7 4 0 0 -> 0 4096;  7 5 0 0 -> 10
        8 4 0 0 -> 0 6561;  8 5 0 0 -> 10
        1 0 0 0 -> 0 1;  1 0 14 0 -> 0 16384;  1 0 7 8 -> 10
        8 1 2 1 -> 0 6561;  8 2 2 1 -> 10;  8 1 2 2 -> 10
        1 1 31 31 -> 10;  3 0 32 31 -> 10;  8 0 0 63 -> 10
        ",
    )?;
    repeated_candidates(rt, t)
}

// Each fault alone, then with the next; 0 is none.
pub fn order(rt: &impl Print) -> io::Result<Tally> {
    let t = run(
        rt,
        begin(),
        Recipe::Faults,
        b"
        0 0 -> 0 16384;  1 0 -> 1;  2 0 -> 2;  3 0 -> 3;  4 0 -> 4;  5 0 -> 5;  6 0 -> 6;  7 0 -> 7;  8 0 -> 8;  9 0 -> 9;  10 0 -> 10
        1 2 -> 1;  2 3 -> 2;  3 4 -> 3;  4 5 -> 4;  5 6 -> 5;  6 7 -> 6;  7 8 -> 7;  8 9 -> 8;  9 10 -> 9
        ",
    )?;
    // in edition 2, 22 comes between 9 and 10
    run(
        rt,
        t,
        Recipe::RankedFaults,
        b"
        0 0 -> 0 16384;  1 0 -> 1;  2 0 -> 2;  3 0 -> 3;  4 0 -> 4;  5 0 -> 5;  6 0 -> 6;  7 0 -> 7;  8 0 -> 8;  9 0 -> 9;  22 0 -> 22;  10 0 -> 10
        1 2 -> 1;  2 3 -> 2;  3 4 -> 3;  4 5 -> 4;  5 6 -> 5;  6 7 -> 6;  7 8 -> 7;  8 9 -> 8;  9 22 -> 9;  22 10 -> 22
        5 22 -> 5;  6 22 -> 6;  7 22 -> 7;  8 22 -> 8;  9 10 -> 9
        ",
    )
}
