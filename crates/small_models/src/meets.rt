// Are the rules, pairs and claims met on an interpretation, of which the grid is worked out? `seats` has the element of each individual.
use crate::shape::{Shape, cell, link_claim, membership, number, pair, rule, speaks_of};
use crate::term_grades::link_at;
use reports::text::{byte, set};

fn rule_met(s: Shape, n: usize, grid: &[u8], left: usize, right: usize) -> bool {
    for e in 0..n {
        if number(grid, cell(e, s.terms, right)) < number(grid, cell(e, s.terms, left)) {
            return false;
        }
    }
    true
}

pub fn rules_met(b: &[u8], s: Shape, n: usize, grid: &[u8]) -> bool {
    for i in 0..s.rules {
        if !rule_met(s, n, grid, rule(b, s, i, 0), rule(b, s, i, 1)) {
            return false;
        }
    }
    true
}

// Is no link of `lower` greater than that of `upper`? The links of a role, from all elements to all, stand one after another.
fn pair_met(s: Shape, n: usize, w: &[u8], lower: usize, upper: usize) -> bool {
    let low = link_at(s, n, lower, 0, 0);
    let high = link_at(s, n, upper, 0, 0);
    for i in 0..n.wrapping_mul(n) {
        if byte(w, high.wrapping_add(i)) < byte(w, low.wrapping_add(i)) {
            return false;
        }
    }
    true
}

// Each pair by itself, with no thought of what follows from several.
pub fn pairs_met(b: &[u8], s: Shape, n: usize, w: &[u8]) -> bool {
    for i in 0..s.pairs {
        if !pair_met(s, n, w, pair(b, s, i, 0), pair(b, s, i, 1)) {
            return false;
        }
    }
    true
}

// Does element `e` meet membership claim `i`? Senses 0 and 2 are "at least".
fn element_meets(b: &[u8], s: Shape, grid: &[u8], i: usize, e: usize) -> bool {
    let g = number(grid, cell(e, s.terms, membership(b, s, i, 1)));
    let claimed = membership(b, s, i, 3);
    if membership(b, s, i, 2) % 2 == 0 {
        claimed <= g
    } else {
        g <= claimed
    }
}

// Does each individual that the claim speaks of?
fn membership_met(b: &[u8], s: Shape, grid: &[u8], seats: &[u8], i: usize) -> bool {
    for x in 0..s.individuals {
        if speaks_of(b, s, i, x) && !element_meets(b, s, grid, i, number(seats, x)) {
            return false;
        }
    }
    true
}

fn link_met(b: &[u8], s: Shape, n: usize, w: &[u8], seats: &[u8], i: usize) -> bool {
    let e = number(seats, link_claim(b, s, i, 1));
    let f = number(seats, link_claim(b, s, i, 2));
    link_claim(b, s, i, 3) <= number(w, link_at(s, n, link_claim(b, s, i, 0), e, f))
}

fn memberships_met(b: &[u8], s: Shape, grid: &[u8], seats: &[u8]) -> bool {
    for i in 0..s.memberships {
        if !membership_met(b, s, grid, seats, i) {
            return false;
        }
    }
    true
}

fn links_met(b: &[u8], s: Shape, n: usize, w: &[u8], seats: &[u8]) -> bool {
    for i in 0..s.links {
        if !link_met(b, s, n, w, seats, i) {
            return false;
        }
    }
    true
}

pub fn claims_met(b: &[u8], s: Shape, n: usize, w: &[u8], grid: &[u8], seats: &[u8]) -> bool {
    memberships_met(b, s, grid, seats) && links_met(b, s, n, w, seats)
}

// How many ways there are to seat at most two individuals at `n` elements.
pub fn seatings(s: Shape, n: usize) -> usize {
    if s.individuals == 0 {
        return 1;
    }
    if s.individuals == 1 {
        n
    } else {
        n.wrapping_mul(n)
    }
}

// The seating of the given number, in dictionary order.
fn seat(s: Shape, n: usize, p: usize, seats: &mut [u8]) {
    if n == 0 {
        return;
    }
    if 2 <= s.individuals {
        set(seats, 0, (p / n % 256) as u8);
        set(seats, 1, (p % n % 256) as u8);
    } else {
        set(seats, 0, (p % n % 256) as u8);
    }
}

fn met_by(b: &[u8], s: Shape, n: usize, w: &[u8], grid: &[u8], p: usize) -> bool {
    let mut seats = [0u8; 2];
    seat(s, n, p, &mut seats);
    claims_met(b, s, n, w, grid, &seats)
}

// The first seating that meets the claims; past the last if none does.
pub fn first_seating(b: &[u8], s: Shape, n: usize, w: &[u8], grid: &[u8]) -> usize {
    let end = seatings(s, n);
    for p in 0..end {
        if met_by(b, s, n, w, grid, p) {
            return p;
        }
    }
    end
}
