// Working out the grades of all terms on an interpretation, by the table of document 01. An interpretation of `n` elements is n rows of the names'
// grades, then for each role n rows of n links; the grid is n rows of the terms' grades.
use crate::shape::{Shape, cell, is_quantified, term};
use reports::text::{byte, set};

// Not, and, or, top, bottom.
pub fn joined(steps: u8, kind: usize, x: u8, y: u8) -> u8 {
    match kind {
        1 => steps.saturating_sub(x),
        2 => x.min(y),
        3 => x.max(y),
        6 => steps,
        _ => 0,
    }
}

pub fn link_at(s: Shape, n: usize, role: usize, e: usize, f: usize) -> usize {
    cell(n, s.names, cell(cell(role, n, e), n, f))
}

// What the elements before gave, and one more, by its link and the child's grade there.
fn further(steps: u8, some: bool, before: u8, link: u8, child: u8) -> u8 {
    if some {
        before.max(link.min(child))
    } else {
        before.min(steps.saturating_sub(link).max(child))
    }
}

// `row` is where the links of its role from the element stand.
fn quantified(
    s: Shape,
    n: usize,
    w: &[u8],
    grid: &[u8],
    some: bool,
    child: usize,
    row: usize,
) -> u8 {
    let mut g = if some { 0 } else { s.steps };
    for f in 0..n {
        let link = byte(w, row.wrapping_add(f));
        g = further(s.steps, some, g, link, byte(grid, cell(f, s.terms, child)));
    }
    g
}

// The grade of term `i` at element `e`, when the grid has those of the terms before it.
fn grade(b: &[u8], s: Shape, n: usize, w: &[u8], grid: &[u8], i: usize, e: usize) -> u8 {
    let kind = term(b, i, 0);
    let x = term(b, i, 1);
    let y = term(b, i, 2);
    if kind == 0 {
        return byte(w, cell(e, s.names, x));
    }
    if is_quantified(kind) {
        return quantified(s, n, w, grid, kind == 4, y, link_at(s, n, x, e, 0));
    }
    let row = e.wrapping_mul(s.terms);
    joined(
        s.steps,
        kind,
        byte(grid, cell(row, 1, x)),
        byte(grid, cell(row, 1, y)),
    )
}

fn fill_term(b: &[u8], s: Shape, n: usize, w: &[u8], grid: &mut [u8], i: usize) {
    for e in 0..n {
        let g = grade(b, s, n, w, grid, i, e);
        set(grid, cell(e, s.terms, i), g);
    }
}

pub fn fill(b: &[u8], s: Shape, n: usize, w: &[u8], grid: &mut [u8]) {
    for i in 0..s.terms {
        fill_term(b, s, n, w, grid, i);
    }
}
