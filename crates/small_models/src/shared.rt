// A small book with its recurring names shared: a term that repeats a name is left out, and the first with that name is used instead.
use crate::shape::{Shape, first_term, head, number, term};
use crate::singles::{put, put_part};
use reports::text::byte;

// The number that the term which is used for term `i` has then.
fn renumbered(b: &[u8], i: usize) -> usize {
    let mut count = 0usize;
    for j in 0..first_term(b, i) {
        if first_term(b, j) == j {
            count = count.wrapping_add(1);
        }
    }
    count
}

// A number of the book, which may be a term's.
fn part(b: &[u8], is_term: bool, x: usize) -> usize {
    if is_term { renumbered(b, x) } else { x }
}

// Term `i`, unless it is left out.
fn put_term(b: &[u8], i: usize, out: &mut [u8], at: usize) -> usize {
    let kind = term(b, i, 0);
    if first_term(b, i) != i {
        return at;
    }
    let mut next = put(out, at, kind);
    next = put(out, next, part(b, 1 <= kind && kind <= 3, term(b, i, 1)));
    put(out, next, part(b, 2 <= kind && kind <= 5, term(b, i, 2)))
}

fn put_terms(b: &[u8], s: Shape, out: &mut [u8], at: usize) -> usize {
    let mut next = at;
    for i in 0..s.terms {
        next = put_term(b, i, out, next);
    }
    next
}

// Is byte `k`, of a rule or a membership claim, the number of a term?
fn is_term(book: &[u8], k: usize) -> bool {
    let claims = number(book, 11);
    k < claims || k.wrapping_sub(claims) % 4 == 1
}

// The rules and membership claims, which stand one after another.
fn put_rules_and_claims(book: &[u8], b: &[u8], out: &mut [u8], at: usize) -> usize {
    let mut next = at;
    for k in number(book, 7)..number(book, 15) {
        next = put(out, next, part(b, is_term(book, k), number(book, k)));
    }
    next
}

// The section whose offset stands at `at` begins `less` bytes earlier.
fn bring_forward(out: &mut [u8], at: usize, less: usize) {
    put(out, at, number(out, at).wrapping_sub(less));
}

fn mend_head(edition: u8, out: &mut [u8], less: usize) {
    bring_forward(out, 5, less / 3);
    bring_forward(out, 7, less);
    bring_forward(out, 11, less);
    bring_forward(out, 15, less);
    if edition == 2 {
        bring_forward(out, 19, less);
    }
}

// The book with the bodies `b`, at most 255 bytes long; answers how long it is then.
pub fn write(book: &[u8], b: &[u8], s: Shape, out: &mut [u8]) -> usize {
    let terms = put_part(book, 0, head(book), out, 0);
    let rules = put_terms(b, s, out, terms);
    let links = put_rules_and_claims(book, b, out, rules);
    mend_head(byte(book, 0), out, number(book, 7).wrapping_sub(rules));
    put_part(book, number(book, 15), book.len(), out, links)
}
