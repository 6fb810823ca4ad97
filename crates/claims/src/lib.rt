// A claim as a value: its four bytes, whom it mentions, and whether a grade meets it.

#![tactic(auto)]

ghost use Rattle.std.specs.Prelude.{◌≡◌, ℕ, ◌<◌, ◌≤◌};
ghost use Rattle.chain.specs.Decisions.{Tells};
ghost use Rattle.semantics.specs.Books.{Claimed, Mentions, membership_individuals, link_individuals};
ghost use Rattle.claims.specs.Claims.{claim_count, members_of, sense_of, membership_of, membership_record, link_of, link_record};
ghost use Rattle.claims.specs.Values.{members_named, as_sense};

use encoding::{above_bits, bit};

// A sense is "at least" or "at most", for an individual or, from 2 on, for a set.
pub const SETS: u8 = 2;

// A membership claim's bytes: whom it names, an individual or a set, its term, its sense and the grade claimed. They stay bytes, so that the checks can
// refuse those that are out of range.
#[derive(Clone, Copy)]
pub struct MembershipRecord {
    pub named: u8,
    pub term: u8,
    pub sense: u8,
    pub grade: u8,
}

// A link claim's.
#[derive(Clone, Copy)]
pub struct LinkRecord {
    pub role: u8,
    pub source: u8,
    pub target: u8,
    pub grade: u8,
}

pub fn membership_at(s: &[u8], i: usize) -> MembershipRecord
    requires { i < claim_count s.now }
    ensures { result ≡ membership_record s.now i }
{
    MembershipRecord {
        named: s[4 * i],
        term: s[4 * i + 1],
        sense: s[4 * i + 2],
        grade: s[4 * i + 3],
    }
}

pub fn link_claim_at(s: &[u8], i: usize) -> LinkRecord
    requires { i < claim_count s.now }
    ensures { result ≡ link_record s.now i }
{
    LinkRecord {
        role: s[4 * i],
        source: s[4 * i + 1],
        target: s[4 * i + 2],
        grade: s[4 * i + 3],
    }
}

// ---- what a claim says

// Whom a membership claim is about: an individual, or the set of those whose bits are set.
enum Named {
    Individual(u8),
    Set(u8),
}

enum Sense {
    AtLeast,
    AtMost,
}

fn whom(claim: MembershipRecord) -> Named
    ensures { members_named result ≡ members_of claim.sense claim.named }
{
    if claim.sense < SETS {
        Named::Individual(claim.named)
    } else {
        Named::Set(claim.named)
    }
}

fn sense_of(claim: MembershipRecord) -> Sense
    ensures { as_sense result ≡ sense_of claim.sense }
{
    match claim.sense {
        0 | 2 => Sense::AtLeast,
        _ => Sense::AtMost,
    }
}

// Does the claim mention individual `j`?
pub fn mentions(claim: MembershipRecord, j: usize) -> bool
    ensures { Tells result (Mentions (membership_of claim) j) }
{
    match whom(claim) {
        Named::Individual(i) => usize::from(i) == j,
        Named::Set(members) => j < 8 && bit(members, j),
    }
}

// It mentions no individual below this one: where a search for those that it mentions may start.
pub fn mentioned_from(claim: MembershipRecord) -> usize
    ensures { (j : ℕ) → Mentions (membership_of claim) j → result ≤ j }
{
    match whom(claim) {
        Named::Individual(i) => usize::from(i),
        Named::Set(_) => 0,
    }
}

// One more than the highest individual that it mentions; 0 if it mentions none.
pub fn mentioned(claim: MembershipRecord) -> usize
    ensures { result ≡ membership_individuals (membership_of claim) }
{
    match whom(claim) {
        Named::Individual(i) => usize::from(i) + 1,
        Named::Set(members) => above_bits(members),
    }
}

// Is the grade at least, or at most, the one claimed?
pub fn claimed(claim: MembershipRecord, actual: u8) -> bool
    ensures { Tells result (Claimed (membership_of claim).sense (membership_of claim).grade actual) }
{
    match sense_of(claim) {
        Sense::AtLeast => claim.grade <= actual,
        Sense::AtMost => actual <= claim.grade,
    }
}

// One more than the higher of the two individuals of a link claim.
pub fn linked(claim: LinkRecord) -> usize
    ensures { result ≡ link_individuals (link_of claim) }
{
    usize::from(claim.source.max(claim.target)) + 1
}
