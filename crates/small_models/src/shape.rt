// A small book, read as documents 01 and 02 lay it out: how much of each there is, and its records. A byte past the end is 0.
ghost use Rattle.std.specs.Prelude.{◌<◌};

use reports::text::byte;

// N and the counts of terms, rules, membership claims, link claims, pairs, names, roles and individuals.
#[derive(Clone, Copy)]
pub struct Shape {
    pub steps: u8,
    pub terms: usize,
    pub rules: usize,
    pub memberships: usize,
    pub links: usize,
    pub pairs: usize,
    pub names: usize,
    pub roles: usize,
    pub individuals: usize,
}

// The byte at a place, as a number.
pub fn number(b: &[u8], at: usize) -> usize
    ensures { result < 256 }
{
    usize::from(byte(b, at))
}

// The place of a column in a row.
pub fn cell(row: usize, width: usize, column: usize) -> usize {
    row.wrapping_mul(width).wrapping_add(column)
}

// How long the head of a book is. What comes after it are the bodies.
pub fn head(book: &[u8]) -> usize {
    if byte(book, 0) == 2 { 22 } else { 18 }
}

// Part `k` of record `i` in the bodies: of a term (kind, a, b), of a rule (left, right), of a membership claim (individual or set, term, sense,
// grade), of a link claim (role, from, to, grade), of a pair (lower, upper).
pub fn term(b: &[u8], i: usize, k: usize) -> usize
    ensures { result < 256 }
{
    number(b, 3 * (i % 256) + k % 4)
}

pub fn rule(b: &[u8], s: Shape, i: usize, k: usize) -> usize
    ensures { result < 256 }
{
    number(b, 3 * (s.terms % 256) + 2 * (i % 256) + k % 4)
}

pub fn membership(b: &[u8], s: Shape, i: usize, k: usize) -> usize
    ensures { result < 256 }
{
    let before = 3 * (s.terms % 256) + 2 * (s.rules % 256);
    number(b, before + 4 * (i % 256) + k % 4)
}

pub fn link_claim(b: &[u8], s: Shape, i: usize, k: usize) -> usize
    ensures { result < 256 }
{
    membership(b, s, s.memberships % 64 + i % 64, k)
}

pub fn pair(b: &[u8], s: Shape, i: usize, k: usize) -> usize
    ensures { result < 256 }
{
    let before = 3 * (s.terms % 256) + 2 * (s.rules % 256);
    let claims = 4 * (s.memberships % 256) + 4 * (s.links % 256);
    number(b, before + claims + 2 * (i % 256) + k % 4)
}

pub fn is_quantified(kind: usize) -> bool {
    kind == 4 || kind == 5
}

// The first term that has the name of term `i`; a term that is no name stands for itself.
pub fn first_term(b: &[u8], i: usize) -> usize {
    if term(b, i, 0) != 0 {
        return i;
    }
    for j in 0..i {
        if term(b, j, 0) == 0 && term(b, j, 1) == term(b, i, 1) {
            return j;
        }
    }
    i
}

// One more than the highest name number.
fn names(b: &[u8], terms: usize) -> usize {
    let mut count = 0usize;
    for i in 0..terms {
        if term(b, i, 0) == 0 {
            count = count.max(term(b, i, 1) + 1);
        }
    }
    count
}

// Is bit `x` of a set 1?
fn is_member(set: usize, x: usize) -> bool {
    let mut rest = set;
    for _ in 0..x {
        rest = rest / 2;
    }
    rest % 2 == 1
}

// Does membership claim `i` speak of individual `x`? In senses 2 and 3 it names a set.
pub fn speaks_of(b: &[u8], s: Shape, i: usize, x: usize) -> bool {
    let first = membership(b, s, i, 0);
    if membership(b, s, i, 2) < 2 {
        return first == x;
    }
    is_member(first, x)
}

// One more than the highest of the eight individuals that membership claim `i` speaks of.
fn individuals_of_membership(b: &[u8], s: Shape, i: usize) -> usize {
    let mut count = 0usize;
    for x in 0..8 {
        if speaks_of(b, s, i, x) {
            count = x + 1;
        }
    }
    count
}

// The same of all claims of either sort.
fn individuals_of_memberships(b: &[u8], s: Shape) -> usize {
    let mut count = 0usize;
    for i in 0..s.memberships {
        count = count.max(individuals_of_membership(b, s, i));
    }
    count
}

fn individuals_of_links(b: &[u8], s: Shape) -> usize {
    let mut count = 0usize;
    for i in 0..s.links {
        count = count.max(link_claim(b, s, i, 1) + 1);
        count = count.max(link_claim(b, s, i, 2) + 1);
    }
    count
}

// One more than the highest role of the quantified terms, of the link claims, of the pairs.
fn roles_of_terms(b: &[u8], s: Shape) -> usize {
    let mut count = 0usize;
    for i in 0..s.terms {
        if is_quantified(term(b, i, 0)) {
            count = count.max(term(b, i, 1) + 1);
        }
    }
    count
}

fn roles_of_links(b: &[u8], s: Shape) -> usize {
    let mut count = 0usize;
    for i in 0..s.links {
        count = count.max(link_claim(b, s, i, 0) + 1);
    }
    count
}

fn roles_of_pairs(b: &[u8], s: Shape) -> usize {
    let mut count = 0usize;
    for i in 0..s.pairs {
        count = count.max(pair(b, s, i, 0) + 1);
        count = count.max(pair(b, s, i, 1) + 1);
    }
    count
}

// The shape of a book with the bodies `b`. Role 0 counts even if nothing uses it.
pub fn shape_of(book: &[u8], b: &[u8]) -> Shape {
    let terms = number(book, 5);
    let mut s = Shape {
        steps: byte(book, 1),
        terms,
        rules: number(book, 9),
        memberships: number(book, 13),
        links: number(book, 17),
        pairs: 0,
        names: names(b, terms),
        roles: 1,
        individuals: 0,
    };
    if byte(book, 0) == 2 {
        s.pairs = number(book, 21);
    }
    let beyond_terms = roles_of_links(b, s).max(roles_of_pairs(b, s));
    let roles = roles_of_terms(b, s).max(beyond_terms);
    s.roles = roles.max(1);
    s.individuals = individuals_of_memberships(b, s).max(individuals_of_links(b, s));
    s
}
