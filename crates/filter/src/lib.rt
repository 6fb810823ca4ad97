// The filter: the candidates that each individual may have by the claims that mention it alone, and the rows of slots of the marked candidates.

#![tactic(auto)]

ghost use Rattle.std.specs.Prelude.{◌≡◌, true, false, ◌↔◌, ℕ, ◌*◌, ◌<◌, ◌≤◌, length, get_or};
ghost use Rattle.semantics.specs.Books.{Mentions};
ghost use Rattle.claims.specs.Claims.{claim_count, membership_of, membership_at};
ghost use Rattle.slots.specs.Slots.{slot_count};
ghost use Rattle.grades.specs.Rows.{entry};
ghost use Rattle.network.specs.Constraints.{AllMet};
ghost use Rattle.network.specs.Network.{between as betweenOf};
ghost use Rattle.filter.specs.Filter.{Task, ClaimsBelow, MembershipBy, Struck, Fits, Column, Entered, Filtered};

use claims::{MembershipRecord, claimed, membership_at, mentioned_from, mentions};
use grades::Grader;
use levels::{put_row, row_at};
use network::Network;

// ---- by the grades of a candidate

// Strikes the individuals that the claim mentions; `fits` says of each of eight whether it is left.
fn strike(claim: MembershipRecord, fits: &mut [bool; 8])
    ensures { Struck (Mentions (membership_of claim)) 8 fits.old fits.new }
{
    for j in mentioned_from(claim)..8 {
        if mentions(claim, j) {
            fits[j] = false;
        }
    }
}

// Strikes those that claim `i` mentions, if the grades of the row do not meet it.
fn strike_unmet(memberships: &[u8], i: usize, row: &[u8], fits: &mut [bool; 8])
    requires { (i < claim_count memberships.now) × ((membership_at memberships.now i).term < length row.now) }
    ensures { (j : ℕ) → j < 8 → (get_or fits.new j false ≡ true)
        ↔ ((get_or fits.old j false ≡ true) × MembershipBy memberships.now j (entry row.now) i) }
{
    let claim = membership_at(memberships, i);
    if !claimed(claim, row[usize::from(claim.term)]) {
        strike(claim, fits);
    }
}

// For each of eight individuals whether the grades of the row meet every membership claim that mentions it. Each claim is looked at once, however
// many individuals there are.
fn fitting(memberships: &[u8], row: &[u8]) -> [bool; 8]
    requires { ClaimsBelow memberships.now (length row.now) }
    ensures { Fits memberships.now (entry row.now) result }
{
    let mut fits = [true; 8];
    for i in 0..memberships.len() / 4 {
        strike_unmet(memberships, i, row, &mut fits);
    }
    fits
}

// ---- the rows and the table

// What decides which candidates the individuals may have: the sections, with a grader of their terms, and the network of their link claims.
#[derive(Clone, Copy)]
pub struct Filter<'a> {
    pub grader: Grader<'a>,
    pub slots: &'a [u8],
    pub memberships: &'a [u8],
    pub network: &'a Network<'a>,
    pub individuals: usize,
    pub ghost logic_is: { grader.logic ≡ network.now.logic },
    pub ghost columns_are: { network.now.columns ≡ 2 * slot_count slots.now },
    pub ghost few: { individuals ≤ 8 },
}

impl Filter<'_> {
    // May individual `j` have a candidate of this row of slots, if `fits` says whether it may by its membership claims?
    fn admits(&self, j: usize, fits: bool, row: &[u8]) -> bool
        requires { (j < 8) × (self.now.network.now.columns ≤ length row.now) }
        ensures { (result ≡ true) ↔ ((fits ≡ true)
            × AllMet self.now.network.now.logic (betweenOf self.now.network.now.constraints.now self.now.network.now.ends.now j j) row.now row.now) }
    {
        fits && self.network.all_met(j, j, row, row)
    }

    // Sets what the table says of candidate `c`, of these grades and this row of slots, for each individual.
    fn allow_row(&self, c: usize, grades: &[u8], row: &[u8], table: &mut [u8])
        requires claims_below { ClaimsBelow self.now.memberships.now (length grades.now) }
        requires in_bounds { (self.now.network.now.columns ≤ length row.now) × (c < 16384) × (131072 ≤ length table.old) }
        ensures { Column self.now.network.now.logic self.now.memberships.now self.now.network.now.constraints.now self.now.network.now.ends.now
            (entry grades.now) row.now self.now.individuals c table.old table.new }
    {
        let fits = fitting(self.memberships, grades);
        for j in 0..self.individuals {
            table[16384 * j + c] = u8::from(self.admits(j, fits[j], row));
        }
    }

    // Enters candidate `c`: its row of slots, and what the table says of it. The row of all its grades is needed no longer than this.
    fn enter(&self, c: usize, rows: &mut [u8], table: &mut [u8])
        requires task { Task self.now.network.now.logic self.now.grader.terms.now self.now.slots.now self.now.memberships.now }
        requires in_bounds { (c < 16384) × (524288 ≤ length rows.old) × (131072 ≤ length table.old) }
        ensures { Entered self.now.network.now.logic self.now.grader.terms.now self.now.slots.now self.now.memberships.now
            self.now.network.now.constraints.now self.now.network.now.ends.now self.now.individuals c rows.old rows.new table.old table.new }
    {
        let mut grades = [0u8; 64];
        self.grader.fill_row(c, &mut grades);
        put_row(self.slots, &grades, rows, c);
        self.allow_row(c, &grades, row_at(rows, c), table);
    }

    // Fills the rows, and the table, empty so far: a candidate that is not marked stays out. The search tries a candidate many times, so its row is
    // worked out once.
    pub fn fill_tables(&self, marks: &[u8], count: usize, rows: &mut [u8], table: &mut [u8])
        requires task { Task self.now.network.now.logic self.now.grader.terms.now self.now.slots.now self.now.memberships.now }
        requires candidates { (count ≤ 16384) × (count ≤ length marks.now) }
        requires in_bounds { (524288 ≤ length rows.old) × (131072 ≤ length table.old) }
        requires empty { (i : ℕ) → get_or table.old i 0 ≡ 0 }
        ensures { Filtered self.now.network.now.logic self.now.grader.terms.now self.now.slots.now self.now.memberships.now
            self.now.network.now.constraints.now self.now.network.now.ends.now marks.now self.now.individuals count rows.new table.new }
    {
        for c in 0..count {
            if marks[c] == 1 {
                self.enter(c, rows, table);
            }
        }
    }
}
