// A small book with its sets written out: for each member, ascending, a single claim in the place of the set's.
use crate::shape::{Shape, cell, membership, number, speaks_of};
use reports::text::{byte, set};

// Each writer of bytes answers the place after what it wrote.
pub fn put(out: &mut [u8], at: usize, x: usize) -> usize {
    set(out, at, (x % 256) as u8);
    at.wrapping_add(1)
}

// Membership claim `i` of individual `x` alone, if it speaks of that.
fn put_single(b: &[u8], s: Shape, i: usize, x: usize, out: &mut [u8], at: usize) -> usize {
    if !speaks_of(b, s, i, x) {
        return at;
    }
    let mut next = put(out, at, x);
    next = put(out, next, membership(b, s, i, 1));
    next = put(out, next, membership(b, s, i, 2) % 2);
    put(out, next, membership(b, s, i, 3))
}

fn put_singles(b: &[u8], s: Shape, i: usize, out: &mut [u8], at: usize) -> usize {
    let mut next = at;
    for x in 0..8 {
        next = put_single(b, s, i, x, out, next);
    }
    next
}

fn put_memberships(b: &[u8], s: Shape, out: &mut [u8], at: usize) -> usize {
    let mut next = at;
    for i in 0..s.memberships {
        next = put_singles(b, s, i, out, next);
    }
    next
}

pub fn put_part(book: &[u8], from: usize, end: usize, out: &mut [u8], at: usize) -> usize {
    let mut next = at;
    for i in from..end {
        next = put(out, next, number(book, i));
    }
    next
}

// How many membership claims there are now, from `at` to `end`, and where the link claims and pairs are.
fn mend_head(edition: u8, s: Shape, out: &mut [u8], at: usize, end: usize) {
    put(out, 13, end.wrapping_sub(at) / 4);
    put(out, 15, end);
    if edition == 2 {
        put(out, 19, cell(s.links, 4, end));
    }
}

// The book with the bodies `b`, at most 255 bytes long; answers how long it is then.
pub fn write_out(book: &[u8], b: &[u8], s: Shape, out: &mut [u8]) -> usize {
    let at = put_part(book, 0, number(book, 11), out, 0);
    let end = put_memberships(b, s, out, at);
    mend_head(byte(book, 0), s, out, at, end);
    put_part(book, number(book, 15), book.len(), out, end)
}
