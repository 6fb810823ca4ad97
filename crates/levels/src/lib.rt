// The link claims read once: for each role and pair of individuals the strongest claim of a link that the role's terms bound. And the rows of slots
// that are compared by them.

#![tactic(auto)]

ghost use Rattle.std.specs.Prelude.{◌≡◌, ℕ, ◌+◌, ◌*◌, ◌<◌, ◌≤◌, length, get_or, take};
ghost use Rattle.claims.specs.Claims.{claim_count, link_of};
ghost use Rattle.slots.specs.Slots.{slot_count};
ghost use Rattle.slots.specs.Rows.{TermsBelow, SlotRow};
ghost use Rattle.grades.specs.Rows.{entry};
ghost use Rattle.levels.specs.Rows.{row_at};
ghost use Rattle.levels.specs.Levels.{pair_of, ClaimsRanged, LevelsOf, NotedFor};

use claims::{LinkRecord, link_claim_at};
use gradings::Logic;
use slots::put_slot_row;

// ---- a table of rows of slots, 32 bytes each

// Row `k`. The twin of `grades::row_at`, of another width: one line, which a function over both would not make plainer.
pub fn row_at(rows: &[u8], k: usize) -> &[u8]
    requires { 32 * k + 32 ≤ length rows.now }
    ensures { result.now ≡ row_at rows.now k }
{
    &rows[32 * k..32 * k + 32]
}

// Makes the row of the slots row `k`, from the row of all grades. Those before it stay.
pub fn put_row(slots: &[u8], row: &[u8], rows: &mut [u8], k: usize)
    requires { (slot_count slots.now ≤ 16) × TermsBelow slots.now (length row.now) × (32 * k + 32 ≤ length rows.old) }
    ensures rows_unchanged { take (32 * k) rows.new ≡ take (32 * k) rows.old }
    ensures slot_row { SlotRow slots.now (entry row.now) (row_at rows.new k) }
{
    put_slot_row(slots, row, &mut rows[32 * k..32 * k + 32]);
}

// ---- the strongest claim that each role's terms bound, for each pair

// Notes a claim for the role `t`.
fn note_for(logic: Logic, t: u8, claim: LinkRecord, levels: &mut [u8])
    requires { 64 * t + pair_of (link_of claim) < length levels.old }
    ensures { NotedFor logic t claim.role claim.grade (64 * t + pair_of (link_of claim)) levels.old levels.new }
{
    if logic.governs(t, claim.role) {
        let pair = 8 * usize::from(claim.source) + usize::from(claim.target);
        let at = 64 * usize::from(t) + pair;
        levels[at] = levels[at].max(claim.grade);
    }
}

// Notes link claim `i`, for its role and those above it.
fn note_claim(logic: Logic, links: &[u8], i: usize, levels: &mut [u8])
    requires i_bound { (i < claim_count links.now) × ClaimsRanged links.now × (512 ≤ length levels.old) }
    requires levels_of { LevelsOf logic links.now i levels.old }
    ensures { LevelsOf logic links.now (i + 1) levels.new }
{
    let claim = link_claim_at(links, i);
    for t in 0..8 {
        note_for(logic, t, claim, levels);
    }
}

// Notes all of them. The levels are 0 before.
pub fn note_claims(logic: Logic, links: &[u8], levels: &mut [u8])
    requires { ClaimsRanged links.now × (512 ≤ length levels.old) × ((z : ℕ) → get_or levels.old z 0 ≡ 0) }
    ensures { LevelsOf logic links.now (claim_count links.now) levels.new }
{
    for i in 0..links.len() / 4 {
        note_claim(logic, links, i, levels);
    }
}
