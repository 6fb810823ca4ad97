// The terms of a book, checked over their own stretch of bytes, and a term as a value.

#![tactic(auto)]

ghost use Rattle.std.specs.Prelude.{◌≡◌, ◌<◌, ◌≤◌};
ghost use Rattle.chain.specs.Decisions.{Tells};
ghost use Rattle.sections.specs.Terms.{term_count, term_at as term_of_bytes, quantifier_of as quantifier_of_kind, Described, TermRight, TermsRight};
ghost use Rattle.sections.specs.Values.{as_quantifier, as_term, OperandsBelow};

// ---- terms: three bytes each (check 6)

fn both_below(a: u8, a_limit: usize, b: u8, b_limit: usize) -> bool
    ensures { Tells result ((a < a_limit) × (b < b_limit)) }
{
    usize::from(a) < a_limit && usize::from(b) < b_limit
}

// Are the three bytes a term of number `i` as the table of kinds describes it? Each kind bounds its two operands; a byte that must be 0 is
// below 1.
fn described(i: usize, kind: u8, a: u8, b: u8) -> bool
    ensures { Tells result (Described i kind a b) }
{
    // An arm for each kind: two kinds in one arm are compared apart, after the table of the others.
    match kind {
        0 => both_below(a, 16, b, 1),
        1 => both_below(a, i, b, 1),
        2 => both_below(a, i, b, i),
        3 => both_below(a, i, b, i),
        4 => both_below(a, 8, b, i),
        5 => both_below(a, 8, b, i),
        6 => both_below(a, 1, b, 1),
        7 => both_below(a, 1, b, 1),
        _ => false,
    }
}

fn term_right(s: &[u8], i: usize) -> bool
    requires { i < term_count s.now }
    ensures { Tells result (TermRight s.now i) }
{
    described(i, s[3 * i], s[3 * i + 1], s[3 * i + 2])
}

pub fn terms_right(s: &[u8]) -> bool
    ensures { Tells result (TermsRight s.now) }
{
    (0..s.len() / 3).all(|i| term_right(s, i))
}

// ---- a term as a value

// "Some" is existential, "all" universal.
#[derive(Clone, Copy, Debug, PartialEq, Eq)]
pub enum Quantifier {
    Existential,
    Universal,
}

// A name and a role are numbers, and so is a child: the number of a term below the term's own.
#[derive(Clone, Copy, Debug, PartialEq, Eq)]
pub enum Term {
    Name(u8),
    Not(u8),
    And(u8, u8),
    Or(u8, u8),
    Quantified {
        quantifier: Quantifier,
        role: u8,
        child: u8,
    },
    Top,
    Bottom,
}

// The quantifier of a kind, where bytes hold it: 4 "some" or 5 "all".
pub fn quantifier_of(kind: u8) -> Quantifier
    requires { (4 ≤ kind) × (kind ≤ 5) }
    ensures { as_quantifier result ≡ quantifier_of_kind kind }
{
    if kind == 4 {
        Quantifier::Existential
    } else {
        Quantifier::Universal
    }
}

// Term `i`, whatever its bytes are: of a kind that is not there it is bottom.
pub fn read_term(s: &[u8], i: usize) -> Term
    requires { i < term_count s.now }
    ensures { as_term result ≡ term_of_bytes s.now i }
{
    // Each operand is read where it is used.
    match s[3 * i] {
        0 => Term::Name(s[3 * i + 1]),
        1 => Term::Not(s[3 * i + 1]),
        2 => Term::And(s[3 * i + 1], s[3 * i + 2]),
        3 => Term::Or(s[3 * i + 1], s[3 * i + 2]),
        4 => Term::Quantified {
            quantifier: Quantifier::Existential,
            role: s[3 * i + 1],
            child: s[3 * i + 2],
        },
        5 => Term::Quantified {
            quantifier: Quantifier::Universal,
            role: s[3 * i + 1],
            child: s[3 * i + 2],
        },
        6 => Term::Top,
        _ => Term::Bottom,
    }
}

// Term `i`, of terms that are as described.
pub fn term_at(s: &[u8], i: usize) -> Term
    requires { (i < term_count s.now) × TermsRight s.now }
    ensures term_value { as_term result ≡ term_of_bytes s.now i }
    ensures operands_below { OperandsBelow i result }
{
    // A name needs no table of kinds: this is the innermost step of every row.
    if s[3 * i] == 0 {
        return Term::Name(s[3 * i + 1]);
    }
    read_term(s, i)
}
