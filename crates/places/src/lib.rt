// The places among a section's terms: the term that opens each term's place, and how many candidates the places make.

#![tactic(auto)]

ghost use Rattle.std.specs.Prelude.{◌≡◌, [], ℕ, ◌+◌, ◌<◌, ◌≤◌};
ghost use Rattle.chain.specs.Decisions.{Tells};
ghost use Rattle.powers.specs.Bounded.{bounded};
ghost use Rattle.semantics.specs.Interpretations.{graded};
ghost use Rattle.types.specs.Candidates.{place, HasPlace, Opens, places, home as home_of, candidates};
ghost use Rattle.sections.specs.Terms.{term_at, terms_of, term_count, TermsRight};
ghost use Rattle.places.specs.Homes.{HomesOf, Noted};

use sections::{Term, read_term, term_at};

// ---- homes: the term that opens each term's place

// The term that opens the place of term `i`: of a name the first term that has it, by the first terms that were noted of the names before it.
fn home_at(terms: &[u8], firsts: &mut [Option<u8>; 16], i: usize) -> u8
    requires terms_right { TermsRight terms.now }
    requires i_bound { (i < term_count terms.now) × (i < 64) × Noted (terms_of terms.now) i firsts.old }
    ensures value { result ≡ home_of (terms_of terms.now) i }
    ensures noted { Noted (terms_of terms.now) (i + 1) firsts.new }
{
    let own = i as u8;
    let Term::Name(a) = term_at(terms, i) else {
        return own;
    };
    let name = usize::from(a);
    match firsts[name] {
        Some(first) => first,
        None => {
            firsts[name] = Some(own);
            own
        }
    }
}

// The home of each term, found once for a book.
pub fn find_homes(terms: &[u8]) -> [u8; 64]
    requires terms_right { TermsRight terms.now }
    requires terms_bound { term_count terms.now ≤ 64 }
    ensures { HomesOf terms.now result }
{
    let mut firsts = [None; 16];
    let mut homes = [0u8; 64];
    for i in 0..terms.len() / 3 {
        homes[i] = home_at(terms, &mut firsts, i);
    }
    homes
}

// ---- places

// Is term `i` a name, a "some" or an "all"?
fn has_place(s: &[u8], i: usize) -> bool
    requires { i < term_count s.now }
    ensures { Tells result (HasPlace (place (term_at s.now i))) }
{
    match read_term(s, i) {
        Term::Name(_) | Term::Quantified { .. } => true,
        _ => false,
    }
}

// Does term `i`, whose home is given, open a place?
fn opens(terms: &[u8], i: usize, home: u8) -> bool
    requires { (i < term_count terms.now) × (home ≡ home_of (terms_of terms.now) i) }
    ensures { Tells result (Opens (terms_of terms.now) i) }
{
    has_place(terms, i) && usize::from(home) == i
}

// How many places there are.
fn count_places(terms: &[u8], homes: &[u8; 64]) -> usize
    requires { HomesOf terms.now homes.now × (term_count terms.now ≤ 64) }
    ensures { result ≡ places (terms_of terms.now) }
{
    let mut found = 0;
    for i in 0..terms.len() / 3 {
        if opens(terms, i, homes[i]) {
            found += 1;
        }
    }
    found
}

// The number of candidates on `steps` steps, up to 16,384 (check 10). Pairs of roles play no part in it.
pub fn count_candidates(terms: &[u8], steps: u8) -> Option<u64>
    requires terms_right { TermsRight terms.now }
    requires terms_bound { term_count terms.now ≤ 64 }
    ensures { result ≡ bounded (candidates (graded steps (terms_of terms.now) [])) }
{
    let homes = find_homes(terms);
    powers::bounded_power(steps, count_places(terms, &homes))
}
