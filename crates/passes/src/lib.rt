// One sweep over the marked candidates, by classes: the sources that want a witness are judged, and their candidates unmarked.

#![tactic(auto)]

ghost use Rattle.std.specs.Prelude.{◌≡◌, ℕ, ◌<◌, ◌≤◌, length};
ghost use Rattle.chain.specs.Search.{rank};
ghost use Rattle.elimination.specs.Marks.{marked?};
ghost use Rattle.witness_boxes.specs.Lent.{tables_of};
ghost use Rattle.witness_boxes.specs.Search.{Remembers};
ghost use Rattle.passes.specs.Sweeps.{class_of, Noted, Judged, Dropped, State, Swept};
ghost use Rattle.passes.specs.Lent.{classes_of};

use witness_boxes::WitnessTables;
use witnesses::supported;

mod candidates;

pub use candidates::Candidates;

// Notes the classes that marked candidates have, and no others.
pub fn note_all(class: &[u16], marks: &[u8], seen: &mut [u8])
    requires { (length marks.now ≤ length class.now) × ((c : ℕ) → c < length marks.now → class_of class.now c < length seen.old) }
    ensures { Noted class.now marks.now seen.new (length marks.now) }
{
    seen.fill(0);
    for c in 0..marks.len() {
        if marks[c] == 1 {
            seen[usize::from(class[c])] = 1;
        }
    }
}

// Takes the mark of every source away of which a slot has no witness among the targets that are present.
fn judge_all(t: &WitnessTables, present: &[u8], memory: &mut [[u16; 16]], alive: &mut [u8])
    requires sizes { (length present.now ≡ length t.now.child.now) × (length alive.old ≡ length t.now.own.now) × (length t.now.own.now ≤ length memory.old) }
    requires remembers { Remembers (tables_of t.now) present.now memory.old }
    ensures remembers_2 { Remembers (tables_of t.now) present.now memory.new }
    ensures judged { Judged (tables_of t.now) present.now 0 (length t.now.own.now) alive.old alive.new }
{
    for a in 0..alive.len() {
        if alive[a] != 1 {
            continue;
        }
        if supported(t, present, memory, a) {
            continue;
        }
        alive[a] = 0;
    }
}

// Unmarks every candidate whose source is not alive, and notes the targets of those that stay marked, and no others. The number of marks left.
fn pass_all(
    k: &Candidates,
    alive: &[u8],
    present: &mut [u8],
    marks: &mut [u8],
    left: usize,
) -> usize
    requires left_value { left ≡ rank (marked? marks.old) (length marks.old) }
    requires sizes { (length marks.old ≤ length k.now.source.now) × (length alive.now ≡ length k.now.tables.now.own.now)
        × (length present.old ≡ length k.now.tables.now.child.now) }
    ensures value { result ≡ rank (marked? marks.new) (length marks.old) }
    ensures dropped { Dropped k.now.source.now alive.now 0 (length marks.old) marks.old marks.new left result }
    ensures noted { Noted k.now.target.now marks.new present.new (length marks.old) }
{
    present.fill(0);
    let mut rest = left;
    for c in 0..marks.len() {
        if marks[c] != 1 {
            continue;
        }
        if alive[usize::from(k.source[c])] != 1 {
            marks[c] = 0;
            rest -= 1;
            continue;
        }
        present[usize::from(k.target[c])] = 1;
    }
    rest
}

// One sweep: the sources that are not supported by the targets present are no longer alive, and one pass over the candidates unmarks theirs and
// notes the targets of the others. A source that stays alive keeps its candidates, so the sources alive are again those of the marked candidates.
pub fn sweep(
    k: &Candidates,
    memory: &mut [[u16; 16]],
    alive: &mut [u8],
    present: &mut [u8],
    marks: &mut [u8],
    left: usize,
) -> usize
    requires sizes { (length marks.old ≤ length k.now.source.now) × (length alive.old ≡ length k.now.tables.now.own.now)
        × (length present.old ≡ length k.now.tables.now.child.now) × (length k.now.tables.now.own.now ≤ length memory.old) }
    requires state { State (classes_of k.now) (length marks.old) marks.old memory.old alive.old present.old left }
    ensures state_2 { State (classes_of k.now) (length marks.old) marks.new memory.new alive.new present.new result }
    ensures swept { Swept (classes_of k.now) marks.old marks.new left result }
{
    judge_all(k.tables, present, memory, alive);
    pass_all(k, alive, present, marks, left)
}
