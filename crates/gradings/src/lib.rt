// What grades are worked out by, beside the terms, as one value: the chain's steps, its connectives over bytes, and whose terms bound a link.

#![tactic(auto)]

ghost use Rattle.std.specs.Prelude.{◌≡◌, List, [], ◌+◌, ◌≤◌, ◌<◌};
ghost use Rattle.chain.specs.Decisions.{Tells};
ghost use Rattle.chain.specs.Connectives.{through as throughOf, Permits, Wants, Bounds};
ghost use Rattle.semantics.specs.Terms.{Term};
ghost use Rattle.semantics.specs.Interpretations.{graded};
ghost use Rattle.semantics.specs.Links.{Governs};
ghost use Rattle.sections.specs.Values.{as_quantifier};
ghost use Rattle.claims.specs.Pairs.{pairs_of, PairsRight};
ghost use Rattle.gradings.specs.Gradings.{connectives_of, grading};

use sections::Quantifier;

// A request that changes how grades are worked out adds a field here, and no parameter anywhere. It stands for a `Grading` by `grading` of
// specs/Gradings. Its steps are those that grades are worked out on; a book has its own number, which its checks go by.
#[derive(Clone, Copy)]
pub struct Logic {
    pub steps: u8,
    // byte 8 r + t is 1 where role t is reached from role r
    pub above: [u8; 64],
}

// The base logic on a chain of `steps` steps, with these pairs of roles. The only place where a `Logic` is made.
pub fn ranked_logic(steps: u8, pairs: &[u8]) -> Logic
    requires { PairsRight pairs.now }
    ensures steps_value { result.steps ≡ steps }
    ensures ts_value { (ts : List Term) → grading result ts ≡ graded steps ts (pairs_of pairs.now) }
{
    let above = roles::reach(pairs);
    Logic { steps, above }
}

#[tactic(auto, unfolding(crate::specs::Gradings::connectives_of))]
impl Logic {
    // How many grades there are: the base of a candidate's digits.
    pub fn base(self) -> usize
        ensures { (result ≡ self.steps + 1) × (result ≤ 256) }
    {
        usize::from(self.steps) + 1
    }

    // ---- the connectives: the first operand is on the chain

    pub fn negation(self, x: u8) -> u8
        requires { x ≤ self.steps }
        ensures { result ≡ (connectives_of self).negation x }
    {
        self.steps - x
    }

    pub fn conjunction(self, x: u8, y: u8) -> u8
        requires { x ≤ self.steps }
        ensures { result ≡ (connectives_of self).conjunction x y }
    {
        x.min(y)
    }

    pub fn disjunction(self, x: u8, y: u8) -> u8
        requires { x ≤ self.steps }
        ensures { result ≡ (connectives_of self).disjunction x y }
    {
        x.max(y)
    }

    fn implication(self, x: u8, y: u8) -> u8
        requires { x ≤ self.steps }
        ensures { result ≡ (connectives_of self).implication x y }
    {
        self.negation(x).max(y)
    }

    // ---- links

    // Do the terms of the role `t` bound the links of the role `r`? It is that role, or above it.
    pub fn governs(self, t: u8, r: u8) -> bool
        ensures { Tells result (Governs (grading self []) t r) }
    {
        t == r || t < 8 && r < 8 && self.above[8 * usize::from(r) + usize::from(t)] == 1
    }

    // What a quantified term takes through a link of grade `link` from a child of grade `child`.
    pub fn through(self, quantifier: Quantifier, link: u8, child: u8) -> u8
        requires { link ≤ self.steps }
        ensures { result ≡ throughOf (connectives_of self) (as_quantifier quantifier) link child }
    {
        match quantifier {
            Quantifier::Existential => self.conjunction(link, child),
            Quantifier::Universal => self.implication(link, child),
        }
    }

    // Does such a term, graded `own`, allow a link of this grade?
    pub fn permits(self, quantifier: Quantifier, link: u8, child: u8, own: u8) -> bool
        requires { link ≤ self.steps }
        ensures { Tells result (Permits (connectives_of self) (as_quantifier quantifier) link child own) }
    {
        match quantifier {
            Quantifier::Existential => self.conjunction(link, child) <= own,
            Quantifier::Universal => own <= self.implication(link, child),
        }
    }

    // Up to ("some"), or from ("all"), which grade of its child does it?
    pub fn bound(self, quantifier: Quantifier, link: u8, own: u8) -> u8
        requires { (link ≤ self.steps) × (own ≤ self.steps) }
        ensures { Bounds self.steps (connectives_of self) (as_quantifier quantifier) link own result }
    {
        match quantifier {
            Quantifier::Existential => { if link <= own { self.steps } else { own } }
            Quantifier::Universal => { if own <= self.negation(link) { 0 } else { own } }
        }
    }

    // ---- witnesses

    // The least link through which a term of this quantifier and grade reaches it from a child of grade `child`; one more than the highest grade
    // if there is none.
    pub fn wants(self, quantifier: Quantifier, own: u8, child: u8) -> u8
        requires { (self.steps < 255) × (own ≤ self.steps) × (child ≤ self.steps) }
        ensures { Wants self.steps (connectives_of self) (as_quantifier quantifier) own child result }
    {
        match quantifier {
            Quantifier::Existential if own <= child => own,
            Quantifier::Universal if child <= own => self.negation(own),
            _ => self.steps + 1,
        }
    }
}
