// The search for a marked target whose row lies in its box, by blocks of rows.

#![tactic(auto)]

ghost use Rattle.std.specs.Prelude.{◌≡◌, true, false, ℕ, ◌-◌, ◌<◌, ◌≤◌, length, get_or};
ghost use Rattle.chain.specs.Decisions.{Tells};
ghost use Rattle.slots.specs.Slots.{slot_count};
ghost use Rattle.witness_boxes.specs.Search.{span_at, box_of, Legible, InBox, MissedAt, Unreached, Leapt, Hit, NextHit};

use boxes::{Bound, inside};
use witness_boxes::{Boxes, Span, WitnessTables};
use zones::Zone;

// What is sought: a marked target whose row lies in the box for its grade at a slot.
#[derive(Clone, Copy)]
pub struct Search<'a> {
    pub tables: &'a WitnessTables<'a>,
    pub marks: &'a [u8],
    pub slot: usize,
    pub boxes: &'a Boxes,
    ghost marked: { length marks.now ≡ length tables.now.child.now },
    ghost in_slots: { slot < slot_count tables.now.slots.now },
    ghost legible: { Legible boxes.now tables.now.logic.steps (slot_count tables.now.slots.now) },
}

impl<'a> Search<'a> {
    fn bounds(&self, span: Span) -> &'a [Bound]
        requires { (span.begin ≤ span.end) × (span.end ≤ length self.now.boxes.now.bounds) }
        ensures { result.now ≡ box_of self.now.boxes.now span }
    {
        let all = &self.boxes.bounds[..];
        &all[usize::from(span.begin)..usize::from(span.end)]
    }

    // Does a row lie in the box for its grade at the slot? That grade is looked at first: most rows fail there.
    fn in_box(&self, row: &[u8; 16]) -> bool
        requires { get_or row.now self.now.slot 0 ≤ self.now.tables.now.logic.steps }
        ensures { Tells result (InBox self.now.boxes.now self.now.slot row.now) }
    {
        match self.boxes.spans[usize::from(row[self.slot])] {
            None => false,
            Some(span) => inside(self.bounds(span), row),
        }
    }

    // Is `d` marked, with its row in its box? The mark is looked at last: few rows come so far.
    fn hit(&self, d: usize) -> bool
        requires { d < length self.now.marks.now }
        ensures { Tells result (Hit self.now.boxes.now self.now.slot self.now.tables.now.child.now self.now.marks.now d) }
    {
        self.in_box(&self.tables.child[d]) && self.marks[d] == 1
    }

    // May a row of the zone lie in the box for grade `x`?
    fn reached(&self, zone: &Zone, x: usize) -> bool
        requires { x ≤ self.now.tables.now.logic.steps }
        ensures { result ≡ false → MissedAt self.now.boxes.now (slot_count self.now.tables.now.slots.now) zone.now x }
    {
        match self.boxes.spans[x] {
            None => false,
            Some(span) => !zone.misses(self.bounds(span)),
        }
    }

    // Is the box for grade `x` that for the grade before it, which is not below `low`?
    fn shared(&self, low: usize, x: usize) -> bool
        requires { x ≤ 16 }
        ensures { result ≡ true → (low < x) × (span_at self.now.boxes.now x ≡ span_at self.now.boxes.now (x - 1)) }
    {
        low < x && self.boxes.spans[x] == self.boxes.spans[x - 1]
    }

    // Does no row of the zone lie in its box? Each box that the zone's grades at the slot may want is tested once.
    fn hopeless(&self, zone: &Zone) -> bool
        ensures { result ≡ true → (x : ℕ) → x ≤ self.now.tables.now.logic.steps
            → Unreached self.now.boxes.now (slot_count self.now.tables.now.slots.now) self.now.slot zone.now x }
    {
        let low = usize::from(zone.lowest[self.slot]);
        let past = usize::from(zone.highest[self.slot].min(self.tables.logic.steps)) + 1;
        for x in low..past {
            if self.shared(low, x) {
                continue;
            }
            if self.reached(zone, x) {
                return false;
            }
        }
        true
    }

    // A number of targets from `d` on of which no row lies in its box: those of a block, where `d` is its first and its zone tells, or 0.
    fn leap(&self, d: usize) -> usize
        requires { d < length self.now.marks.now }
        ensures { Leapt self.now.boxes.now self.now.slot self.now.tables.now.child.now d result × (result ≤ 64) }
    {
        if d % 64 == 0 && self.hopeless(&self.tables.zones[d / 64]) {
            64
        } else {
            0
        }
    }

    // The first such target from `start` on.
    pub fn next_hit(&self, start: usize) -> Option<usize>
        ensures { NextHit self.now.boxes.now self.now.slot self.now.tables.now.child.now self.now.marks.now start result }
    {
        // A while: it leaps over blocks, so it counts nothing.
        let mut d = start;
        while d < self.marks.len() {
            let gap = self.leap(d);
            if 0 < gap {
                d += gap;
                continue;
            }
            if self.hit(d) {
                return Some(d);
            }
            d += 1;
        }
        None
    }
}
