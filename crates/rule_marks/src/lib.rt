// A candidate's first mark: whether its row of grades meets the rules.

#![tactic(auto)]

ghost use Rattle.std.specs.Prelude.{◌≡◌, ◌↔◌, ◌+◌, ◌<◌, ◌≤◌, length};
ghost use Rattle.claims.specs.Rules.{RulesRight};
ghost use Rattle.rule_marks.specs.Obeying.{RowObeys};

// The mark of a row of grades by the rules alone: 1 if it meets every rule, else 0. The first rule that it does not meet decides.
pub fn mark_by_rules(rules: &[u8], row: &[u8]) -> u8
    requires { RulesRight rules.now (length row.now) }
    ensures { (result ≤ 1) × ((result ≡ 1) ↔ RowObeys rules.now row.now) }
{
    let obeys = (0..rules.len() / 2).all(|i| {
        row[usize::from(rules[2 * i])] <= row[usize::from(rules[2 * i + 1])]
    });
    u8::from(obeys)
}
