// Entering a candidate: its first mark, by the rules alone, its source and its target.

#![tactic(auto)]

ghost use Rattle.std.specs.Prelude.{ℕ, ◌+◌, ◌<◌, ◌≤◌, length};
ghost use Rattle.partition.specs.Rows.{Names};
ghost use Rattle.entries.specs.Filling.{Entered};
ghost use Rattle.entries.specs.Lent.{grading_of, rules_in};

use partition::{Classes, Index};
use rule_marks::mark_by_rules;
use slots::put_slot_row;

mod theory;

pub use theory::Theory;

// Enters candidate `c`, behind those before it: its mark by the rules alone, which comes back, its source and its target. Each of the two classes has
// an index of its own.
pub fn enter(
    theory: &Theory,
    c: usize,
    sources: &mut Classes,
    targets: &mut Classes,
    first: &mut Index,
    second: &mut Index,
    marks: &mut [u8],
) -> u8
    requires { (c < length marks.old) × (length marks.old ≤ 16384) × (sources.old.count ≤ c) × (targets.old.count ≤ c) }
    ensures entered { (left : ℕ) → Entered (grading_of theory.now) (rules_in theory.now) theory.now.slots.now sources.old targets.old marks.old c left
        → Entered (grading_of theory.now) (rules_in theory.now) theory.now.slots.now sources.new targets.new marks.new (c + 1) (left + result) }
    ensures names { (Names first.old.places sources.old.count → Names first.new.places sources.new.count)
        × (Names second.old.places targets.old.count → Names second.new.places targets.new.count) }
{
    let mut row = [0; 64];
    let mut part = [0; 32];
    theory.grader.fill_row(c, &mut row);
    let mark = mark_by_rules(theory.rules, &row);
    marks[c] = mark;
    put_slot_row(theory.slots, &row, &mut part);
    let base = theory.grader.logic.base();
    let m = theory.slots.len() / 4;
    sources.enroll(first, &part[..m], base, c);
    targets.enroll(second, &part[m..m + m], base, c);
    mark
}
