// A book's terms and rules as one value, with what entering its candidates asks of them.

ghost use Rattle.std.specs.Prelude.{◌≤◌, length};
ghost use Rattle.sections.specs.Terms.{terms_of};
ghost use Rattle.claims.specs.Rules.{RulesRight};
ghost use Rattle.slots.specs.Slots.{slot_count};
ghost use Rattle.slots.specs.Rows.{TermsBelow};

use grades::Grader;

#[derive(Clone, Copy)]
pub struct Theory<'a> {
    // The terms, with the logic.
    pub grader: &'a Grader<'a>,
    // The quantified terms.
    pub slots: &'a [u8],
    pub rules: &'a [u8],
    ghost rules_right: { RulesRight rules.now (length (terms_of grader.now.terms.now)) },
    ghost slots_right: { TermsBelow slots.now (length (terms_of grader.now.terms.now)) },
    ghost few_slots: { slot_count slots.now ≤ 16 },
}
