// The interpretation of the listed types: an element for each, named as its type says, with the greatest links that the terms allow and that meet
// the pairs.
ghost use Rattle.std.specs.Prelude.{◌≡◌, length};

use crate::shape::{Shape, cell, is_quantified, number, pair, term};
use crate::term_grades::link_at;
use crate::{meets, term_grades, term_types};
use decisions::Outcome;
use reports::text::{byte, set};

// Room for 81 elements: two names and the links of three roles, and for their grids.
fn room() -> [u8; 20480]
    ensures { 20480 ≡ length result }
{
    [0; 20480]
}

fn grid_room() -> [u8; 1024]
    ensures { 1024 ≡ length result }
{
    [0; 1024]
}

// Does term `i`, quantified over the role in question, allow the link `r` from type `c` to type `d`?
fn allows(b: &[u8], s: Shape, types: &[u8], c: usize, d: usize, i: usize, r: u8) -> bool {
    let own = byte(types, cell(c, s.terms, i));
    let child = byte(types, cell(d, s.terms, term(b, i, 2)));
    if term(b, i, 0) == 4 {
        r.min(child) <= own
    } else {
        own <= s.steps.saturating_sub(r).max(child)
    }
}

fn all_allow(b: &[u8], s: Shape, types: &[u8], role: usize, c: usize, d: usize, r: u8) -> bool {
    for i in 0..s.terms {
        let over = is_quantified(term(b, i, 0)) && term(b, i, 1) == role;
        if over && !allows(b, s, types, c, d, i, r) {
            return false;
        }
    }
    true
}

// The greatest link that every term of the role allows. Link 0 is always allowed.
fn greatest(b: &[u8], s: Shape, types: &[u8], role: usize, c: usize, d: usize) -> u8 {
    let mut best = 0;
    let steps = s.steps;
    for r in 0..steps {
        if all_allow(b, s, types, role, c, d, r + 1) {
            best = r + 1;
        }
    }
    best
}

fn fill_links_from(
    b: &[u8],
    s: Shape,
    types: &[u8],
    n: usize,
    w: &mut [u8],
    role: usize,
    c: usize,
) {
    for d in 0..n {
        set(
            w,
            link_at(s, n, role, c, d),
            greatest(b, s, types, role, c, d),
        );
    }
}

fn fill_role(b: &[u8], s: Shape, types: &[u8], n: usize, w: &mut [u8], role: usize) {
    for c in 0..n {
        fill_links_from(b, s, types, n, w, role, c);
    }
}

fn fill_links(b: &[u8], s: Shape, types: &[u8], n: usize, w: &mut [u8]) {
    for role in 0..s.roles {
        fill_role(b, s, types, n, w, role);
    }
}

// The links of `lower` brought down to those of `upper`. The links of a role, from all elements to all, stand one after another.
fn bring_down(s: Shape, n: usize, w: &mut [u8], lower: usize, upper: usize) {
    let low = link_at(s, n, lower, 0, 0);
    let high = link_at(s, n, upper, 0, 0);
    for i in 0..n.wrapping_mul(n) {
        let at = low.wrapping_add(i);
        let x = byte(w, at).min(byte(w, high.wrapping_add(i)));
        set(w, at, x);
    }
}

fn meet_each(b: &[u8], s: Shape, n: usize, w: &mut [u8]) {
    for i in 0..s.pairs {
        bring_down(s, n, w, pair(b, s, i, 0), pair(b, s, i, 1));
    }
}

// As often as there are roles, for what one pair brings down may be above in another.
fn meet_pairs(b: &[u8], s: Shape, n: usize, w: &mut [u8]) {
    for _ in 0..s.roles {
        meet_each(b, s, n, w);
    }
}

// The grade of term `i`, if it is a name, at every element.
fn fill_name(b: &[u8], s: Shape, types: &[u8], n: usize, w: &mut [u8], i: usize) {
    if term(b, i, 0) != 0 {
        return;
    }
    for e in 0..n {
        set(
            w,
            cell(e, s.names, term(b, i, 1)),
            byte(types, cell(e, s.terms, i)),
        );
    }
}

fn fill_names(b: &[u8], s: Shape, types: &[u8], n: usize, w: &mut [u8]) {
    for i in 0..s.terms {
        fill_name(b, s, types, n, w, i);
    }
}

// How many candidates below `c` are marked: the element that has type `c`.
fn rank(marks: &[u8], c: usize) -> usize {
    let mut count = 0usize;
    for i in 0..c {
        if byte(marks, i) == 1 {
            count = count.wrapping_add(1);
        }
    }
    count
}

// The element of individual `i`, past the last if its candidate is not marked.
fn seat(marks: &[u8], placement: &[u8], n: usize, i: usize) -> usize {
    let high = number(placement, 2 * (i % 256));
    let c = 256 * high + number(placement, 2 * (i % 256) + 1);
    if byte(marks, c) == 1 {
        rank(marks, c)
    } else {
        n
    }
}

// The number of the seating that the placement says; no seating has that of a placement elsewhere.
fn seating(s: Shape, marks: &[u8], placement: &[u8], n: usize) -> usize {
    if s.individuals == 0 {
        return 0;
    }
    let first = seat(marks, placement, n, 0);
    if s.individuals == 1 {
        return first;
    }
    let second = seat(marks, placement, n, 1);
    if second < n {
        cell(first, n, second)
    } else {
        cell(n, n, 0)
    }
}

// Outcome 1: the placement is the first seating that meets the claims. Outcome 2: there is none.
fn placed(outcome: Outcome, given: usize, first: usize, end: usize) -> bool {
    match outcome {
        Outcome::HoldsTogether => first < end && given == first,
        Outcome::ClaimsFail => first == end,
        Outcome::NoModel => false,
    }
}

fn right_on(
    b: &[u8],
    s: Shape,
    outcome: Outcome,
    marks: &[u8],
    placement: &[u8],
    types: &[u8],
    n: usize,
) -> bool {
    let mut w = room();
    let mut grid = grid_room();
    fill_names(b, s, types, n, &mut w);
    fill_links(b, s, types, n, &mut w);
    meet_pairs(b, s, n, &mut w);
    term_grades::fill(b, s, n, &w, &mut grid);
    let first = meets::first_seating(b, s, n, &w, &grid);
    let given = seating(s, marks, placement, n);
    grid.as_slice() == types
        && meets::pairs_met(b, s, n, &w)
        && meets::rules_met(b, s, n, &grid)
        && placed(outcome, given, first, meets::seatings(s, n))
}

// Are there as many types listed as said, has each element its type, and are the pairs, the rules and, as the outcome says, the claims met?
pub fn right(
    b: &[u8],
    s: Shape,
    outcome: Outcome,
    survivors: usize,
    marks: &[u8],
    placement: &[u8],
) -> bool {
    let mut types = grid_room();
    let n = term_types::fill_types(b, s, marks, &mut types);
    if n != survivors {
        return false;
    }
    if n == 0 {
        return outcome == Outcome::NoModel;
    }
    right_on(b, s, outcome, marks, placement, &types, n)
}
