// A book that one change makes fail any check: the first check that says no gives the number.
use crate::books;
use reports::text::set;

// 14 names, not 0, name 13 again; then a rule, a membership claim, a link claim and in edition 2 a pair, all of zeros.
fn bodies(b: &mut [u8], start: usize) {
    let mut at = books::names(b, start, 14);
    at = books::term(b, at, 1, 0, 0);
    books::term(b, at, 0, 13, 0);
}

// 76 bytes, N 1. From 18: names, at 60 not 0, at 63 a name again; 66: a rule; 68: a membership claim; 72: a link claim.
fn sound(b: &mut [u8]) {
    let at = books::head(b, 1, 16, 1, 1, 1);
    bodies(b, at);
}

// 82 bytes, N 1. From 22 the same; 80: a pair.
fn sound_ranked(b: &mut [u8]) {
    let at = books::ranked_head(b, 1, 16, 1, 1, 1, 1);
    bodies(b, at);
}

// The byte whose change makes check `number` say no, and its value then; for check 1 it is the length that changes, and no byte.
fn place(number: u8) -> usize {
    match number {
        2 => 0,
        3 => 1,
        4 => 17,
        5 => 3,
        6 => 63,
        7 => 66,
        8 => 68,
        9 => 72,
        10 => 60,
        _ => 1024,
    }
}

// In edition 2. Check 4 is of the count of the pairs, check 5 of their offset.
fn ranked_place(number: u8) -> usize {
    match number {
        2 => 0,
        3 => 1,
        4 => 21,
        5 => 19,
        6 => 67,
        7 => 70,
        8 => 72,
        9 => 76,
        22 => 81,
        10 => 64,
        _ => 1024,
    }
}

fn value(number: u8) -> u8 {
    match number {
        2 => 3,
        3 => 9,
        4 => 65,
        5 => 17,
        7 => 16,
        10 => 4,
        _ => 8,
    }
}

// Writes the book with two faults, the first of which may be that of check 1, and answers its length; 0 is no fault.
pub fn make(b: &mut [u8], one: u8, other: u8) -> usize {
    sound(b);
    set(b, place(one), value(one));
    set(b, place(other), value(other));
    if one == 1 { 851 } else { 76 }
}

// The same of edition 2.
pub fn make_ranked(b: &mut [u8], one: u8, other: u8) -> usize {
    sound_ranked(b);
    set(b, ranked_place(one), value(one));
    set(b, ranked_place(other), value(other));
    if one == 1 { 983 } else { 82 }
}
