// Sweeps over the marked candidates until every one that is marked has its witnesses.

#![tactic(auto)]

ghost use Rattle.std.specs.Prelude.{◌≡◌, ℕ, ◌≤◌, length};
ghost use Rattle.zones.specs.Rows.{cell};
ghost use Rattle.passes.specs.Sweeps.{Counted, Settled};
ghost use Rattle.passes.specs.Lent.{classes_of};

use passes::{Candidates, note_all, sweep};

// The same as `settle`, with room that is lent: nothing is remembered at first, and what is present and alive is worked out before the first sweep.
fn settle_in(
    k: &Candidates,
    memory: &mut [[u16; 16]],
    alive: &mut [u8],
    present: &mut [u8],
    marks: &mut [u8],
    left: usize,
) -> usize
    requires sizes { (length marks.old ≤ length k.now.source.now) × (length alive.old ≡ length k.now.tables.now.own.now)
        × (length present.old ≡ length k.now.tables.now.child.now) × (length k.now.tables.now.own.now ≤ length memory.old) }
    requires counted { Counted (length marks.old) marks.old left }
    requires no_memory { (a q : ℕ) → cell memory.old a q ≡ 0 }
    ensures { Settled (classes_of k.now) (length marks.old) marks.old marks.new result }
{
    note_all(k.target, marks, present);
    note_all(k.source, marks, alive);
    // A loop: it sweeps to a fixpoint, so it counts nothing.
    let mut rest = left;
    loop {
        let next = sweep(k, memory, alive, present, marks, rest);
        if next == rest {
            return next;
        }
        rest = next;
    }
}

// Sweeps until no mark goes; there are `left` at first. The number of marks left.
pub fn settle(k: &Candidates, marks: &mut [u8], left: usize) -> usize
    requires classified { length marks.old ≤ length k.now.source.now }
    requires counted { Counted (length marks.old) marks.old left }
    ensures { Settled (classes_of k.now) (length marks.old) marks.old marks.new result }
{
    let mut memory = [[0; 16]; 16384];
    let mut alive = [0; 16384];
    let mut present = [0; 16384];
    let sources = k.tables.own.len();
    let targets = k.tables.child.len();
    settle_in(
        k,
        &mut memory,
        &mut alive[..sources],
        &mut present[..targets],
        marks,
        left,
    )
}
