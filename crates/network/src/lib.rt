// The link claims as a network of constraints between individuals: of each ordered pair, what the quantified terms ask of the two rows of slots.

#![tactic(auto)]

ghost use Rattle.std.specs.Prelude.{◌≡◌, List, MatchOption, ℕ, ◌+◌, ◌*◌, ◌<◌, ◌≤◌, length, get_or};
ghost use Rattle.chain.specs.Decisions.{Tells};
ghost use Rattle.slots.specs.Slots.{slot_count, slot_role};
ghost use Rattle.levels.specs.Levels.{level_at, ClaimsRanged};
ghost use Rattle.network.specs.Constraints.{column_at, Met, AllMet, AllRight};
ghost use Rattle.network.specs.Network.{between as betweenOf, Wired, NetworkOf, OfSlot, Added, Connected};

use gradings::Logic;
use levels::note_claims;
use sections::Quantifier;

// The ends of a link.
#[derive(Clone, Copy)]
pub enum End {
    Source,
    Target,
}

// What a slot of this quantifier asks through a link of this level: of the columns of the two rows that have its own grade and its child's.
#[derive(Clone, Copy)]
pub struct Constraint {
    pub quantifier: Quantifier,
    pub level: u8,
    pub own: u8,
    pub child: u8,
}

impl Constraint {
    // What stands in a list where no constraint was put yet.
    pub const UNUSED: Self = Constraint {
        quantifier: Quantifier::Existential,
        level: 0,
        own: 0,
        child: 0,
    };

    // The column that it reads of the row at this end: its own grade's at the source, its child's at the target.
    pub fn column(self, end: End) -> usize
        ensures { result ≡ column_at end self }
    {
        match end {
            End::Source => usize::from(self.own),
            End::Target => usize::from(self.child),
        }
    }

    // Is it met by the row of the link's source and the row of its target?
    fn met(self, logic: Logic, source: &[u8], target: &[u8]) -> bool
        requires { (self.level ≤ logic.steps) × (self.own < length source.now) × (self.child < length target.now) }
        ensures { Tells result (Met logic self source.now target.now) }
    {
        let own = source[self.column(End::Source)];
        let child = target[self.column(End::Target)];
        logic.permits(self.quantifier, self.level, child, own)
    }
}

// ---- the constraints of each pair

// What slot `j` asks through the strongest link claimed of a role that its own bounds, and of pair `x`, if there is one.
fn asked(slots: &[u8], levels: &[u8], x: usize, j: usize) -> Option<Constraint>
    requires { (j < slot_count slots.now) × (slot_count slots.now ≤ 16) × (slot_role slots.now j < 8) × (x < 64) × (512 ≤ length levels.now) }
    ensures { MatchOption result (level_at levels.now (slot_role slots.now j) x ≡ 0) (OfSlot slots.now levels.now x j) }
{
    let role = usize::from(slots[4 * j + 1]);
    let level = levels[64 * role + x];
    if level == 0 {
        return None;
    }
    // Every number below 5 stands for "some" in the specification, which says no more of a slot's kind.
    let quantifier = if slots[4 * j] < 5 {
        Quantifier::Existential
    } else {
        Quantifier::Universal
    };
    Some(Constraint {
        quantifier,
        level,
        own: j as u8,
        child: (slots.len() / 4 + j) as u8,
    })
}

// Adds what all slots ask of pair `x`, as numbers from `start` on. The number of constraints.
fn put_pair(
    slots: &[u8],
    levels: &[u8],
    x: usize,
    constraints: &mut [Constraint],
    start: usize,
) -> usize
    requires slots_bound { (slot_count slots.now ≤ 16) × ((j : ℕ) → j < slot_count slots.now → slot_role slots.now j < 8) }
    requires x_bound { (x < 64) × (512 ≤ length levels.now) × (start + 16 ≤ length constraints.old) }
    ensures { Added slots.now levels.now x (slot_count slots.now) constraints.old start constraints.new result }
{
    let mut m = start;
    for j in 0..slots.len() / 4 {
        if let Some(constraint) = asked(slots, levels, x, j) {
            constraints[m] = constraint;
            m += 1;
        }
    }
    m
}

// Makes the lists of all pairs.
fn connect_by(slots: &[u8], levels: &[u8], constraints: &mut [Constraint], ends: &mut [u16])
    requires slots_bound { (slot_count slots.now ≤ 16) × ((j : ℕ) → j < slot_count slots.now → slot_role slots.now j < 8) }
    requires in_bounds { (512 ≤ length levels.now) × (1024 ≤ length constraints.old) × (65 ≤ length ends.old) × (get_or ends.old 0 0 ≡ 0) }
    ensures { (m : ℕ) × Connected slots.now levels.now 64 m constraints.new ends.new }
{
    let mut m = 0;
    for x in 0..64 {
        m = put_pair(slots, levels, x, constraints, m);
        ends[x + 1] = m as u16;
    }
}

// Makes the network of the link claims.
pub fn connect(
    logic: Logic,
    slots: &[u8],
    links: &[u8],
    constraints: &mut [Constraint],
    ends: &mut [u16],
)
    requires slots_bound { (slot_count slots.now ≤ 16) × ((j : ℕ) → j < slot_count slots.now → slot_role slots.now j < 8) }
    requires claims_ranged { ClaimsRanged links.now × (1024 ≤ length constraints.old) × (65 ≤ length ends.old) × (get_or ends.old 0 0 ≡ 0) }
    ensures { (levels : List ℕ) × NetworkOf logic slots.now links.now levels constraints.new ends.new }
{
    let mut levels = [0u8; 512];
    note_claims(logic, links, &mut levels);
    connect_by(slots, &levels, constraints, ends);
}

// ---- the network as one value

// One list of constraints for each ordered pair of individuals, one behind the other, and where each ends: entry 8 p + q + 1 is the end of that from
// p to q. They are about rows of so many columns.
#[derive(Clone, Copy)]
pub struct Network<'a> {
    pub logic: Logic,
    pub constraints: &'a [Constraint],
    pub ends: &'a [u16],
    pub columns: usize,
    pub ghost wired: { Wired logic columns constraints.now ends.now },
}

impl<'a> Network<'a> {
    // The constraints from individual `p` to individual `q`.
    pub fn between(&self, p: usize, q: usize) -> &'a [Constraint]
        requires { (p < 8) × (q < 8) }
        ensures is { result.now ≡ betweenOf self.now.constraints.now self.now.ends.now p q }
        ensures right { AllRight self.now.logic self.now.columns result.now }
        ensures few { length result.now ≤ 64 }
    {
        let x = 8 * p + q;
        let start = self.ends[x] as usize;
        let end = self.ends[x + 1] as usize;
        &self.constraints[start..end]
    }

    // Are all constraints from `p` to `q` met by the row of the one and the row of the other? The first that is not decides.
    pub fn all_met(&self, p: usize, q: usize, source: &[u8], target: &[u8]) -> bool
        requires individuals { (p < 8) × (q < 8) }
        requires rows { (self.now.columns ≤ length source.now) × (self.now.columns ≤ length target.now) }
        ensures { Tells result (AllMet self.now.logic (betweenOf self.now.constraints.now self.now.ends.now p q) source.now target.now) }
    {
        for constraint in self.between(p, q) {
            if !constraint.met(self.logic, source, target) {
                return false;
            }
        }
        true
    }
}
