// Decides an accepted book, where its buffers suffice: the survivors by elimination, then the first placement of its individuals at them.

#![tactic(auto)]

ghost use Rattle.std.specs.Prelude.{◌≡◌, true, ◌<◌, ◌≤◌, length};
ghost use Rattle.book.specs.Reading.{book_of};
ghost use Rattle.elimination.specs.Survivors.{survivors_of};
ghost use Rattle.placement.specs.Outcome.{placement as placementOf, outcome};
ghost use Rattle.marking.specs.Marking.{marked_in};
ghost use Rattle.decisions.specs.Decided.{outcome_number, decision, placed_in};
ghost use Rattle.decisions.specs.Either.{outcome_if, placed_if};

use counter::Counted;
use decisions::{Decision, Outcome, place_individuals};
use marking::Marked;

// Places the individuals of an accepted book, with the logic and the slots made here.
fn place_checked(marked: Marked<'_>, placement: &mut [u8]) -> Outcome
    requires { (0 < length (survivors_of (book_of marked.counted.book.bytes.now))) × (16 ≤ length placement.old) }
    ensures value { outcome_number result ≡ outcome (book_of marked.entry.counted.book.bytes.now) }
    ensures placement_after { placement.new ≡ placed_in (placementOf (book_of marked.entry.counted.book.bytes.now)) placement.old }
{
    let mut slots = [0u8; 64];
    let (logic, m) = marking::equip(marked.counted, &mut slots);
    place_individuals(marked, logic, &slots[..4 * m], placement)
}

// ---- marking and placing: one function for both, since eliminating and placing are never at work at once, and share its stack

// Marks the survivors, and decides if that is asked: how many there are, and then the outcome. A flag, and no closure: two calls of `mark` would each
// have its tables.
fn decide_by(
    counted: Counted<'_>,
    deciding: bool,
    marks: &mut [u8],
    placement: &mut [u8],
) -> (usize, Option<Outcome>)
    requires marks_long { counted.count ≤ length marks.old }
    requires placement_long { deciding ≡ true → 16 ≤ length placement.old }
    ensures value { let B = book_of counted.entry.book.bytes.now in (result.0 ≡ length (survivors_of B)) × (result.1 ≡ outcome_if deciding B) }
    ensures marks_after { marks.new ≡ marked_in (book_of counted.entry.book.bytes.now) marks.old }
    ensures placement_after { placement.new ≡ placed_if deciding (book_of counted.entry.book.bytes.now) placement.old }
{
    let survivors = marking::mark(counted, marks);
    if !deciding {
        return (survivors, None);
    }
    if survivors == 0 {
        return (0, Some(Outcome::NoModel));
    }
    let outcome = place_checked(Marked { counted, marks }, placement);
    (survivors, Some(outcome))
}

// Decides, where every check says yes.
pub fn decide_checked(counted: Counted<'_>, marks: &mut [u8], placement: &mut [u8]) -> Decision
    requires marks_long { counted.count ≤ length marks.old }
    requires placement_long { 16 ≤ length placement.old }
    ensures value { result ≡ decision (book_of counted.entry.book.bytes.now) }
    ensures marks_after { marks.new ≡ marked_in (book_of counted.entry.book.bytes.now) marks.old }
    ensures placement_after { placement.new ≡ placed_in (placementOf (book_of counted.entry.book.bytes.now)) placement.old }
{
    let (survivors, outcome) = decide_by(counted, true, marks, placement);
    Decision {
        outcome: outcome.unwrap(),
        survivors,
    }
}

// Marks the survivors, and counts them, for a call that places nobody.
pub fn mark_checked(counted: Counted<'_>, marks: &mut [u8]) -> usize
    requires { counted.count ≤ length marks.old }
    ensures value { result ≡ length (survivors_of (book_of counted.entry.book.bytes.now)) }
    ensures marks_after { marks.new ≡ marked_in (book_of counted.entry.book.bytes.now) marks.old }
{
    let (survivors, _) = decide_by(counted, false, marks, &mut []);
    survivors
}
