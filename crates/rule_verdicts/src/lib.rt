// Whether a sheet meets a book's rules and pairs, and if not the first that is broken.

#![tactic(auto)]

ghost use Rattle.std.specs.Prelude.{◌≡◌, ◌<◌, ◌≤◌};
ghost use Rattle.claims.specs.Rules.{rule_count, rule_at, rules_of, RuleRight, RulesRight};
ghost use Rattle.claims.specs.Pairs.{pair_count, pair_at, pairs_of};
ghost use Rattle.working.specs.Working.{rule_verdict_at, rule_verdict, pair_verdict_at, pair_verdict_from, pair_verdict, rules_verdict, pairs_verdict};
ghost use Rattle.columns.specs.Columns.{cell_at};
ghost use Rattle.cells.specs.Cells.{link_in};
ghost use Rattle.rule_verdicts.specs.Covered.{PairCovered, PairsCovered};

use cells::Frame;
use columns::Columns;
use working::Verdict;

// ---- rules

// Is a rule met at an element?
fn rule_verdict_at(rules: &[u8], rule: usize, columns: &Columns, element: usize) -> Verdict
    requires { (rule < rule_count rules.now) × RuleRight rules.now 64 rule × (element < 64) }
    ensures { result ≡ rule_verdict_at (cell_at columns.now) rule (rule_at rules.now rule) element }
{
    let left = rules[2 * rule];
    let right = rules[2 * rule + 1];
    if columns.cell(right, element) < columns.cell(left, element) {
        return Verdict::BreaksRule { rule, element };
    }
    Verdict::Meets
}

// Is rule `i` met? If not, the lowest of `n` elements at which it is broken.
fn rule_verdict(rules: &[u8], i: usize, columns: &Columns, n: usize) -> Verdict
    requires { (i < rule_count rules.now) × RuleRight rules.now 64 i × (n ≤ 64) }
    ensures { result ≡ rule_verdict (cell_at columns.now) n i (rule_at rules.now i) }
{
    Verdict::first(n, |e| rule_verdict_at(rules, i, columns, e))
}

pub fn rules_verdict(rules: &[u8], columns: &Columns, n: usize) -> Verdict
    requires { RulesRight rules.now 64 × (n ≤ 64) }
    ensures { result ≡ rules_verdict (cell_at columns.now) n (rules_of rules.now) }
{
    Verdict::first(rules.len() / 2, |i| rule_verdict(rules, i, columns, n))
}

// ---- pairs

// Is a pair met from one element to another?
fn pair_verdict_at(pairs: &[u8], pair: usize, frame: &Frame, from: usize, to: usize) -> Verdict
    requires { (pair < pair_count pairs.now) × PairCovered frame.now.elements frame.now.links.now (pair_at pairs.now pair) × (from < frame.now.elements) × (to < frame.now.elements) }
    ensures { result ≡ pair_verdict_at (link_in frame.now.elements frame.now.links.now) pair (pair_at pairs.now pair) from to }
{
    let lower = pairs[2 * pair];
    let upper = pairs[2 * pair + 1];
    if frame.link(upper, from, to) < frame.link(lower, from, to) {
        return Verdict::BreaksPair { pair, from, to };
    }
    Verdict::Meets
}

// Is pair `i` met at first element `e`? If not, the lowest second element at which it is broken.
fn pair_verdict_from(pairs: &[u8], i: usize, frame: &Frame, e: usize) -> Verdict
    requires { (i < pair_count pairs.now) × PairCovered frame.now.elements frame.now.links.now (pair_at pairs.now i) × (e < frame.now.elements) }
    ensures { result ≡ pair_verdict_from (link_in frame.now.elements frame.now.links.now) frame.now.elements i (pair_at pairs.now i) e }
{
    Verdict::first(frame.elements, |f| pair_verdict_at(pairs, i, frame, e, f))
}

// Is pair `i` met? If not, the lowest first element at which it is broken, with the lowest second.
fn pair_verdict(pairs: &[u8], i: usize, frame: &Frame) -> Verdict
    requires { (i < pair_count pairs.now) × PairCovered frame.now.elements frame.now.links.now (pair_at pairs.now i) }
    ensures { result ≡ pair_verdict (link_in frame.now.elements frame.now.links.now) frame.now.elements i (pair_at pairs.now i) }
{
    Verdict::first(frame.elements, |e| pair_verdict_from(pairs, i, frame, e))
}

pub fn pairs_verdict(pairs: &[u8], frame: &Frame) -> Verdict
    requires { PairsCovered frame.now.elements frame.now.links.now pairs.now }
    ensures { result ≡ pairs_verdict (link_in frame.now.elements frame.now.links.now) frame.now.elements (pairs_of pairs.now) }
{
    Verdict::first(pairs.len() / 2, |i| pair_verdict(pairs, i, frame))
}
