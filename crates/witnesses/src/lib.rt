// The search for witnesses by tables of grades: of a source, a row of the slots' own grades, among the marked targets, rows of their children's.

#![tactic(auto)]

ghost use Rattle.std.specs.Prelude.{◌≡◌, ℕ, ◌-◌, ◌<◌, ◌≤◌, length};
ghost use Rattle.chain.specs.Decisions.{Tells};
ghost use Rattle.slots.specs.Slots.{slot_count};
ghost use Rattle.elimination.specs.Marks.{Marked};
ghost use Rattle.witness_boxes.specs.Lent.{tables_of};
ghost use Rattle.witness_boxes.specs.Search.{NextWitness, Remembers, Backed, Supported};

use witness_boxes::{Boxes, WitnessTables, make_boxes};
use witness_search::Search;

// The first marked witness of slot `q` of source `c` from `start` on.
fn next_witness(t: &WitnessTables, marks: &[u8], c: usize, q: usize, start: usize) -> Option<usize>
    requires { (length marks.now ≡ length t.now.child.now) × (c < length t.now.own.now) × (q < slot_count t.now.slots.now) }
    ensures { NextWitness (tables_of t.now) marks.now c q start result }
{
    let mut boxes = Boxes::new();
    make_boxes(t, c, q, &mut boxes);
    let search = Search {
        tables: t,
        marks,
        slot: q,
        boxes: &boxes,
    };
    search.next_hit(start)
}

// Is a witness known, `known` one more than it, and still marked?
fn still_marked(marks: &[u8], known: usize) -> bool
    requires { known ≤ length marks.now }
    ensures { Tells result ((0 < known) × Marked marks.now (known - 1)) }
{
    0 < known && marks[known - 1] == 1
}

// Has slot `q` of source `c` a marked witness? A remembered one that is still marked is not sought again; else the search goes on from there.
// The memory has one more than the witness, or 0: an Option would take twice the room.
fn backed(t: &WitnessTables, marks: &[u8], memory: &mut [[u16; 16]], c: usize, q: usize) -> bool
    requires in_bounds { (length marks.now ≡ length t.now.child.now) × (c < length t.now.own.now) × (q < slot_count t.now.slots.now) × (length t.now.own.now ≤ length memory.old) }
    requires remembers { Remembers (tables_of t.now) marks.now memory.old }
    ensures tells { Tells result (Backed (tables_of t.now) marks.now c q) }
    ensures remembers_2 { Remembers (tables_of t.now) marks.now memory.new }
{
    let known = usize::from(memory[c][q]);
    if still_marked(marks, known) {
        return true;
    }
    match next_witness(t, marks, c, q, known) {
        None => false,
        Some(w) => {
            memory[c][q] = (w + 1) as u16;
            true
        }
    }
}

// Has each slot of source `c` a marked witness? Moves its remembered witnesses forward.
pub fn supported(t: &WitnessTables, marks: &[u8], memory: &mut [[u16; 16]], c: usize) -> bool
    requires in_bounds { (length marks.now ≡ length t.now.child.now) × (c < length t.now.own.now) × (length t.now.own.now ≤ length memory.old) }
    requires remembers { Remembers (tables_of t.now) marks.now memory.old }
    ensures tells { Tells result (Supported (tables_of t.now) marks.now c) }
    ensures remembers_2 { Remembers (tables_of t.now) marks.now memory.new }
{
    for q in 0..t.slots.len() / 4 {
        if !backed(t, marks, memory, c, q) {
            return false;
        }
    }
    true
}
