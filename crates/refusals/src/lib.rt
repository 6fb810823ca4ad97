// The checks that a call makes: a refusal names the first that says no. docs/NUMBERS.md has what each asks.

#![tactic(auto)]

ghost use Rattle.std.specs.Prelude.{◌≡◌};
ghost use Rattle.refusals.specs.Refusals.{number_of};

// The document's number beside each.
#[derive(Clone, Copy, Debug, PartialEq, Eq)]
pub enum Refusal {
    BookLength = 1,
    Edition = 2,
    Steps = 3,
    Counts = 4,
    Layout = 5,
    Terms = 6,
    Rules = 7,
    MembershipClaims = 8,
    LinkClaims = 9,
    Candidates = 10,
    Marks = 11,
    Placement = 12,
    SheetHead = 13,
    SheetLayout = 14,
    SheetEntries = 15,
    Grid = 16,
    Outcome = 17,
    Survivors = 18,
    SheetBuffer = 19,
    Candidate = 20,
    TermOrRole = 21,
    Pairs = 22,
    Table = 23,
}

impl Refusal {
    // The document's number.
    pub fn number(self) -> u8
        ensures { result ≡ number_of self }
    {
        self as u8
    }
}
