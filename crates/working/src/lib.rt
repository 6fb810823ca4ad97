// The verdicts that there are on a sheet, and the first that is broken.

#![tactic(auto)]

ghost use Rattle.std.specs.Prelude.{◌≡◌, ℕ, ◌<◌};
ghost use Rattle.working.specs.Working.{or_else, first_broken};

// What working out a sheet says of a book. A rule is named with its lowest element, a pair with its lowest first, then second element: `from`, `to`.
#[derive(Clone, Copy, Debug, PartialEq, Eq)]
pub enum Verdict {
    Meets,
    BreaksRule { rule: usize, element: usize },
    BreaksPair { pair: usize, from: usize, to: usize },
    BreaksMembership(usize),
    BreaksLink(usize),
}

impl Verdict {
    // What is broken, or else the other verdict. No `FnOnce`: of one that holds a frame no contract is inferred.
    pub fn or_else<F: Fn() -> Verdict>(self, other: F) -> Verdict
        requires { F.pre other }
        ensures { (w : Verdict) → ((v : Verdict) → F.post other v → v ≡ w) → result ≡ or_else self w }
    {
        match self {
            Verdict::Meets => other(),
            broken => broken,
        }
    }

    // The first of `n` verdicts that is not "meets".
    pub fn first<F: Fn(usize) -> Verdict>(n: usize, verdict: F) -> Verdict
        requires { (i : ℕ) → i < n → F.pre verdict i }
        ensures { (f : ℕ → Verdict) → ((i : ℕ) (v : Verdict) → i < n → F.post verdict i v → v ≡ f i) → result ≡ first_broken f n }
    {
        for i in 0..n {
            let v = verdict(i);
            if v != Verdict::Meets {
                return v;
            }
        }
        Verdict::Meets
    }
}
