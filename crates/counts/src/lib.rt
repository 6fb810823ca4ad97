// How many names, roles and individuals a book's sections have: one more than the highest, or 0.

#![tactic(auto)]

ghost use Rattle.std.specs.Prelude.{◌≡◌, ℕ, ◌<◌, max};
ghost use Rattle.chain.specs.Lists.{highest, table};
ghost use Rattle.semantics.specs.Books.{name_above, role_above, link_roles, pair_roles, membership_individuals, link_individuals};
ghost use Rattle.sections.specs.Terms.{term_at, terms_of, term_count};
ghost use Rattle.claims.specs.Pairs.{pair_at, pair_count, pairs_of};
ghost use Rattle.claims.specs.Claims.{memberships_of, links_of};

use claims::{link_claim_at, linked, membership_at, mentioned};
use sections::{Term, read_term};

// The highest of what a closure counts for each number below `n`, or 0.
fn highest_of<F: Fn(usize) -> usize>(n: usize, count: F) -> usize
    requires { (i : ℕ) → i < n → F.pre count i }
    ensures { (f : ℕ → ℕ) → ((i x : ℕ) → i < n → F.post count i x → x ≡ f i) → result ≡ highest (λ x. x) (table f n) }
{
    let mut found = 0;
    for i in 0..n {
        found = found.max(count(i));
    }
    found
}

// ---- names and roles

fn name_above(s: &[u8], i: usize) -> usize
    requires { i < term_count s.now }
    ensures { result ≡ name_above (term_at s.now i) }
{
    match read_term(s, i) {
        Term::Name(a) => usize::from(a) + 1,
        _ => 0,
    }
}

fn role_above(s: &[u8], i: usize) -> usize
    requires { i < term_count s.now }
    ensures { result ≡ role_above (term_at s.now i) }
{
    match read_term(s, i) {
        Term::Quantified { role, .. } => usize::from(role) + 1,
        _ => 0,
    }
}

// A, the number of names that the terms count.
pub fn count_names(s: &[u8]) -> usize
    ensures { result ≡ highest name_above (terms_of s.now) }
{
    highest_of(s.len() / 3, |i| name_above(s, i))
}

fn count_term_roles(s: &[u8]) -> usize
    ensures { result ≡ highest role_above (terms_of s.now) }
{
    highest_of(s.len() / 3, |i| role_above(s, i))
}

// One more than the highest role of the link claims, or 0.
fn count_link_roles(s: &[u8]) -> usize
    ensures { result ≡ highest link_roles (links_of s.now) }
{
    highest_of(s.len() / 4, |i| usize::from(link_claim_at(s, i).role) + 1)
}

// And of the pairs.
fn count_pair_roles(s: &[u8]) -> usize
    ensures { result ≡ highest pair_roles (pairs_of s.now) }
{
    highest_of(s.len() / 2, |i| usize::from(s[2 * i].max(s[2 * i + 1])) + 1)
}

// R, the number of roles that terms, link claims and pairs count.
pub fn count_roles(terms: &[u8], links: &[u8], pairs: &[u8]) -> usize
    ensures { result ≡ max (max (highest role_above (terms_of terms.now)) (highest link_roles (links_of links.now))) (highest pair_roles (pairs_of pairs.now)) }
{
    count_term_roles(terms)
        .max(count_link_roles(links))
        .max(count_pair_roles(pairs))
}

// ---- individuals

// One more than the highest individual of the membership claims, or 0.
fn count_mentioned(s: &[u8]) -> usize
    ensures { result ≡ highest membership_individuals (memberships_of s.now) }
{
    highest_of(s.len() / 4, |i| mentioned(membership_at(s, i)))
}

// And of the link claims.
fn count_linked(s: &[u8]) -> usize
    ensures { result ≡ highest link_individuals (links_of s.now) }
{
    highest_of(s.len() / 4, |i| linked(link_claim_at(s, i)))
}

// I, the number of individuals that claims count.
pub fn count_individuals(memberships: &[u8], links: &[u8]) -> usize
    ensures { result ≡ max (highest membership_individuals (memberships_of memberships.now)) (highest link_individuals (links_of links.now)) }
{
    count_mentioned(memberships).max(count_linked(links))
}
