// Whether a sheet meets a book's rules, pairs and claims, and if not the first that is broken.

#![tactic(auto)]

ghost use Rattle.std.specs.Prelude.{◌≡◌};
ghost use Rattle.verdicts.specs.Verdicts.{verdict_in, Covered};

use cells::Frame;
use claim_verdicts::{links_verdict, memberships_verdict};
use columns::Columns;
use rule_verdicts::{pairs_verdict, rules_verdict};
use working::Verdict;

// The first rule broken, else the first pair, else the first membership claim, else the first link claim.
pub fn verdict(
    rules: &[u8],
    pairs: &[u8],
    memberships: &[u8],
    claims: &[u8],
    columns: &Columns,
    frame: &Frame,
) -> Verdict
    requires { Covered rules.now pairs.now memberships.now claims.now frame.now.elements frame.now.links.now frame.now.individuals.now }
    ensures { result ≡ verdict_in rules.now pairs.now memberships.now claims.now columns.now frame.now.elements frame.now.links.now frame.now.individuals.now }
{
    rules_verdict(rules, columns, frame.elements)
        .or_else(|| pairs_verdict(pairs, frame))
        .or_else(|| memberships_verdict(memberships, columns, frame))
        .or_else(|| links_verdict(claims, frame))
}
