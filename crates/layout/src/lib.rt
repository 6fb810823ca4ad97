// The layout of a book's bodies, and each section as the stretch that its entry names.

#![tactic(auto)]

ghost use Rattle.std.specs.Prelude.{◌≡◌, ◌≤◌};
ghost use Rattle.chain.specs.Decisions.{Tells};
ghost use Rattle.heads.specs.Heads.{edition, offset_at, Headed};
ghost use Rattle.layout.specs.Layout.{sections_of, LaidOut, InOrder, term_bytes, rule_bytes, membership_bytes, link_bytes, pair_bytes, terms_in};

use encoding::word;
use heads::{count_pairs, head_of};

// The book's own N, which its checks go by, where each body begins, and where the last ends. The pairs of edition 1 are none, at the end.
#[derive(Clone, Copy)]
pub struct Sections {
    pub steps: u8,
    pub terms: usize,
    pub rules: usize,
    pub memberships: usize,
    pub links: usize,
    pub pairs: usize,
    pub end: usize,
}

// ---- check 5

// Where the bodies stand, by their counts: each right after the one before.
#[tactic(auto, using(heads::proofs::Editions::head_bounds))]
pub fn sections_of(b: &[u8]) -> Sections
    requires { Headed b.now }
    ensures { result ≡ sections_of b.now }
{
    let terms = head_of(b);
    let rules = terms + 3 * word(b, 4);
    let memberships = rules + 2 * word(b, 8);
    let links = memberships + 4 * word(b, 12);
    let pairs = links + 4 * word(b, 16);
    let end = pairs + 2 * count_pairs(b);
    Sections {
        steps: b[1],
        terms,
        rules,
        memberships,
        links,
        pairs,
        end,
    }
}

// Does a fifth entry, where there is one, say that the pairs begin at `start`?
#[tactic(auto, using(heads::proofs::Editions::head_second))]
fn pairs_placed(b: &[u8], start: usize) -> bool
    requires { Headed b.now }
    ensures { Tells result (edition b.now ≡ 2 → offset_at b.now 4 ≡ start) }
{
    b[0] != 2 || word(b, 18) == start
}

pub fn laid_out(b: &[u8], s: Sections) -> bool
    requires { Headed b.now }
    ensures { Tells result (LaidOut b.now s) }
{
    word(b, 2) == s.terms
        && word(b, 6) == s.rules
        && word(b, 10) == s.memberships
        && word(b, 14) == s.links
        && pairs_placed(b, s.pairs)
        && b.len() == s.end
}

// ---- each section, as the stretch that its entry names

pub fn terms_in(b: &[u8], s: Sections) -> &[u8]
    requires { InOrder b.now s }
    ensures { result.now ≡ term_bytes b.now s }
{
    &b[s.terms..s.rules]
}

pub fn rules_in(b: &[u8], s: Sections) -> &[u8]
    requires { InOrder b.now s }
    ensures { result.now ≡ rule_bytes b.now s }
{
    &b[s.rules..s.memberships]
}

pub fn memberships_in(b: &[u8], s: Sections) -> &[u8]
    requires { InOrder b.now s }
    ensures { result.now ≡ membership_bytes b.now s }
{
    &b[s.memberships..s.links]
}

pub fn links_in(b: &[u8], s: Sections) -> &[u8]
    requires { InOrder b.now s }
    ensures { result.now ≡ link_bytes b.now s }
{
    &b[s.links..s.pairs]
}

pub fn pairs_in(b: &[u8], s: Sections) -> &[u8]
    requires { InOrder b.now s }
    ensures { result.now ≡ pair_bytes b.now s }
{
    &b[s.pairs..s.end]
}

// The number of terms.
pub fn count_terms(s: Sections) -> usize
    requires { s.terms ≤ s.rules }
    ensures { result ≡ terms_in s }
{
    (s.rules - s.terms) / 3
}
