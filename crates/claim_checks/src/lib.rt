// The rules, pairs and claims of a book, each section checked over its own stretch of bytes: the checks 7, 22, 8 and 9.

#![tactic(auto)]

ghost use Rattle.std.specs.Prelude.{◌<◌};
ghost use Rattle.chain.specs.Decisions.{Tells};
ghost use Rattle.claims.specs.Rules.{rule_count, RuleRight, RulesRight};
ghost use Rattle.claims.specs.Pairs.{PairsRight};
ghost use Rattle.claims.specs.Claims.{MembershipRight, MembershipsRight, LinkRight, LinksRight};

use claims::{LinkRecord, MembershipRecord, SETS, link_claim_at, membership_at};
// Individuals and roles are 0 to 7, senses 0 to 3.
const INDIVIDUALS: u8 = 8;

const ROLES: u8 = 8;

const SENSES: u8 = 4;

// ---- rules: two bytes each (check 7)

fn rule_right(s: &[u8], i: usize, n: usize) -> bool
    requires { i < rule_count s.now }
    ensures { Tells result (RuleRight s.now n i) }
{
    usize::from(s[2 * i]) < n && usize::from(s[2 * i + 1]) < n
}

// Does every rule name two of `n` terms?
pub fn rules_right(s: &[u8], n: usize) -> bool
    ensures { Tells result (RulesRight s.now n) }
{
    (0..s.len() / 2).all(|i| rule_right(s, i, n))
}

// ---- pairs of roles: two bytes each (check 22)

// Does every pair name two roles 0 to 7? They are asked as a rule's two terms are, of eight.
pub fn pairs_right(s: &[u8]) -> bool
    ensures { Tells result (PairsRight s.now) }
{
    rules_right(s, 8)
}

// ---- claims: four bytes each (checks 8 and 9)

// Is whom the claim names an individual 0 to 7, or a set? Every byte is a set.
fn named_right(claim: MembershipRecord) -> bool
    ensures { Tells result (claim.sense < 2 → claim.named < 8) }
{
    SETS <= claim.sense || claim.named < INDIVIDUALS
}

fn membership_right(claim: MembershipRecord, steps: u8, n: usize) -> bool
    ensures { Tells result (MembershipRight steps n claim) }
{
    named_right(claim)
        && usize::from(claim.term) < n
        && claim.sense < SENSES
        && claim.grade <= steps
}

// Is every membership claim within its ranges, on `steps` steps and `n` terms?
pub fn memberships_right(s: &[u8], steps: u8, n: usize) -> bool
    ensures { Tells result (MembershipsRight s.now steps n) }
{
    (0..s.len() / 4).all(|i| membership_right(membership_at(s, i), steps, n))
}

fn link_right(claim: LinkRecord, steps: u8) -> bool
    ensures { Tells result (LinkRight steps claim) }
{
    claim.role < ROLES
        && claim.source < INDIVIDUALS
        && claim.target < INDIVIDUALS
        && claim.grade <= steps
}

// Is every link claim within its ranges, on `steps` steps?
pub fn links_right(s: &[u8], steps: u8) -> bool
    ensures { Tells result (LinksRight s.now steps) }
{
    (0..s.len() / 4).all(|i| link_right(link_claim_at(s, i), steps))
}
