// Writes books: a head from the counts of the sections, then the bodies, record by record.
ghost use Rattle.std.specs.Prelude.{◌≡◌, length};

// Room for every book of the cases, of which the longest has 983 bytes.
pub fn blank() -> [u8; 1024]
    ensures { 1024 ≡ length result }
{
    [0; 1024]
}

// Each writer answers the place after what it wrote. Where the room is used up, nothing is written.
fn byte(b: &mut [u8], at: usize, x: u8) -> usize {
    if at < b.len() {
        b[at] = x;
        return at + 1;
    }
    at
}

pub fn pair(b: &mut [u8], at: usize, x: u8, y: u8) -> usize {
    let next = byte(b, at, x);
    byte(b, next, y)
}

fn entry(b: &mut [u8], at: usize, offset: usize, count: u8) -> usize {
    let next = pair(b, at, (offset / 256 % 256) as u8, (offset % 256) as u8);
    pair(b, next, 0, count)
}

// Edition, N and the first four entries, for bodies that begin at `start`.
fn four(
    b: &mut [u8],
    edition: u8,
    steps: u8,
    start: u8,
    terms: u8,
    rules: u8,
    memberships: u8,
    links: u8,
) -> usize {
    let rules_at = usize::from(start) + 3 * usize::from(terms);
    let memberships_at = rules_at + 2 * usize::from(rules);
    let links_at = memberships_at + 4 * usize::from(memberships);
    let mut at = pair(b, 0, edition, steps);
    at = entry(b, at, usize::from(start), terms);
    at = entry(b, at, rules_at, rules);
    at = entry(b, at, memberships_at, memberships);
    entry(b, at, links_at, links)
}

// The head of edition 1.
pub fn head(b: &mut [u8], steps: u8, terms: u8, rules: u8, memberships: u8, links: u8) -> usize {
    four(b, 1, steps, 18, terms, rules, memberships, links)
}

// The head of edition 2, which has pairs too.
pub fn ranked_head(
    b: &mut [u8],
    steps: u8,
    terms: u8,
    rules: u8,
    memberships: u8,
    links: u8,
    pairs: u8,
) -> usize {
    let claims_at = 22 + 3 * usize::from(terms) + 2 * usize::from(rules);
    let pairs_at = claims_at + 4 * usize::from(memberships) + 4 * usize::from(links);
    let at = four(b, 2, steps, 22, terms, rules, memberships, links);
    entry(b, at, pairs_at, pairs)
}

pub fn term(b: &mut [u8], at: usize, kind: u8, x: u8, y: u8) -> usize {
    let next = byte(b, at, kind);
    pair(b, next, x, y)
}

// A claim of either sort.
pub fn claim(b: &mut [u8], at: usize, w: u8, x: u8, y: u8, z: u8) -> usize {
    let next = pair(b, at, w, x);
    pair(b, next, y, z)
}

// The names 0 up to `count`.
pub fn names(b: &mut [u8], at: usize, count: u8) -> usize {
    let mut next = at;
    for i in 0..count {
        next = term(b, next, 0, i, 0);
    }
    next
}

// The names 0 up to `count` in turn, `times` times.
pub fn names_in_turn(b: &mut [u8], at: usize, count: u8, times: u8) -> usize {
    let mut next = at;
    for _ in 0..times {
        next = names(b, next, count);
    }
    next
}

// The same term, `count` times.
pub fn terms(b: &mut [u8], at: usize, count: u8, kind: u8, x: u8, y: u8) -> usize {
    let mut next = at;
    for _ in 0..count {
        next = term(b, next, kind, x, y);
    }
    next
}
