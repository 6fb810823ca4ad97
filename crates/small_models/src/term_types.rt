// Candidates and types: the grades of all terms in a candidate, and the candidate that an element's grades show.
ghost use Rattle.std.specs.Prelude.{◌≤◌};

use crate::shape::{Shape, cell, first_term, is_quantified, term};
use crate::term_grades::joined;
use reports::text::{byte, set};

// Is term `i` a place: quantified, or a name at its first term?
fn is_place(b: &[u8], i: usize) -> bool {
    let kind = term(b, i, 0);
    is_quantified(kind) || (kind == 0 && first_term(b, i) == i)
}

// How many grades there are.
pub fn levels(s: Shape) -> usize
    ensures { 1 ≤ result }
{
    usize::from(s.steps) + 1
}

pub fn candidates(b: &[u8], s: Shape) -> usize {
    let mut count = 1usize;
    for i in 0..s.terms {
        if is_place(b, i) {
            count = count.wrapping_mul(levels(s));
        }
    }
    count
}

// The candidate whose digits are the grades in row `e` of the grid.
pub fn shown(b: &[u8], s: Shape, grid: &[u8], e: usize) -> usize {
    let mut c = 0usize;
    let mut weight = 1usize;
    for i in 0..s.terms {
        if is_place(b, i) {
            let digit = usize::from(byte(grid, cell(e, s.terms, i)));
            c = c.wrapping_add(weight.wrapping_mul(digit));
            weight = weight.wrapping_mul(levels(s));
        }
    }
    c
}

// The grade of term `i`: a place's is the next digit, that of a name again is the first's, another's follows from the terms before it in row `j`.
fn grade(b: &[u8], s: Shape, types: &[u8], j: usize, i: usize, rest: usize) -> u8 {
    let kind = term(b, i, 0);
    if is_place(b, i) {
        return (rest % levels(s) % 256) as u8;
    }
    if kind == 0 {
        return byte(types, cell(j, s.terms, first_term(b, i)));
    }
    joined(
        s.steps,
        kind,
        byte(types, cell(j, s.terms, term(b, i, 1))),
        byte(types, cell(j, s.terms, term(b, i, 2))),
    )
}

fn rest_after(b: &[u8], s: Shape, i: usize, rest: usize) -> usize {
    if is_place(b, i) {
        rest / levels(s)
    } else {
        rest
    }
}

// The grades of candidate `c` into row `j`.
fn fill_type(b: &[u8], s: Shape, types: &mut [u8], j: usize, c: usize) {
    let mut rest = c;
    for i in 0..s.terms {
        let g = grade(b, s, types, j, i, rest);
        set(types, cell(j, s.terms, i), g);
        rest = rest_after(b, s, i, rest);
    }
}

// Candidate `c` as one more type if it is marked.
fn list(b: &[u8], s: Shape, marks: &[u8], types: &mut [u8], n: usize, c: usize) -> usize {
    if byte(marks, c) != 1 {
        return n;
    }
    fill_type(b, s, types, n, c);
    n.wrapping_add(1)
}

// The listed types, one row each; answers how many.
pub fn fill_types(b: &[u8], s: Shape, marks: &[u8], types: &mut [u8]) -> usize {
    let mut n = 0;
    let end = candidates(b, s);
    for c in 0..end {
        n = list(b, s, marks, types, n, c);
    }
    n
}
