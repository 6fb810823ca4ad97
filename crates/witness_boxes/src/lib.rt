// The boxes of grades in which the children of a witness lie: of a slot of a source, one for each level that is wanted.

#![tactic(auto)]

ghost use Rattle.std.specs.Prelude.{◌≡◌, ℕ, ◌+◌, ◌*◌, ◌-◌, ◌<◌, ◌≤◌, length, get_or};
ghost use Rattle.boxes.specs.Boxes.{Asks, Narrowed};
ghost use Rattle.slots.specs.Slots.{slot_count};
ghost use Rattle.witness_boxes.specs.Lent.{tables_of};
ghost use Rattle.witness_boxes.specs.Search.{AllowsAt, AllowsRow, Boxed};

use boxes::{Bound, put_bound};
use sections::{Quantifier, quantifier_of};

mod lent;

pub use lent::WitnessTables;

// The box of a level: from bound `begin` up to bound `end`.
#[derive(Clone, Copy, PartialEq, Eq)]
pub struct Span {
    pub level: u8,
    pub begin: u16,
    pub end: u16,
}

// For each grade that the slot's own child may have the box of the level that is wanted then, where this is on the chain; and the bounds of all
// boxes, so many.
#[derive(Drop)]
pub struct Boxes {
    pub spans: [Option<Span>; 17],
    pub bounds: [Bound; 272],
    pub count: usize,
}

impl Boxes {
    // No box is made yet.
    pub fn new() -> Self
        ensures { result.count ≡ 0 }
    {
        Boxes {
            spans: [None; 17],
            bounds: [Bound::UNUSED; 272],
            count: 0,
        }
    }
}

// What slot `j` asks of the row of a target for a link of this level for the role of slot `q` of source `c`: no link is worked out, only how far
// its child's grade may go.
fn bound_of(t: &WitnessTables, c: usize, q: usize, j: usize, level: u8) -> Bound
    requires { (c < length t.now.own.now) × (q < slot_count t.now.slots.now) × (j < slot_count t.now.slots.now) × (level ≤ t.now.logic.steps) }
    ensures { Asks t.now.logic (slot_count t.now.slots.now) (λ row. AllowsAt (tables_of t.now) c q level j (get_or row j 0)) result }
{
    let column = j as u8;
    let all = Bound {
        column,
        low: 0,
        high: t.logic.steps,
    };
    if !t.logic.governs(t.slots[4 * j + 1], t.slots[4 * q + 1]) {
        return all;
    }
    let quantifier = quantifier_of(t.slots[4 * j]);
    let edge = t.logic.bound(quantifier, level, t.own[c][j]);
    match quantifier {
        Quantifier::Existential => Bound { high: edge, ..all },
        Quantifier::Universal => Bound { low: edge, ..all },
    }
}

// Adds the box of a level for slot `q` of source `c`: the later slots first, as they change least from target to target.
fn add_box(t: &WitnessTables, c: usize, q: usize, level: u8, boxes: &mut Boxes) -> Span
    requires slot { (c < length t.now.own.now) × (q < slot_count t.now.slots.now) }
    requires room { (level ≤ t.now.logic.steps) × (boxes.old.count + 16 ≤ 272) }
    ensures narrowed { Narrowed t.now.logic (slot_count t.now.slots.now) (AllowsRow (tables_of t.now) c q level)
        boxes.old.bounds boxes.old.count boxes.new.bounds boxes.new.count }
    ensures span { (result.level ≡ level) × (result.begin ≡ boxes.old.count) × (result.end ≡ boxes.new.count) }
    ensures upper_bound { boxes.new.count ≤ boxes.old.count + 16 }
    ensures spans { (boxes.new.spans ≡ boxes.old.spans) × (length boxes.new.bounds ≡ length boxes.old.bounds) }
{
    let count = t.slots.len() / 4;
    let begin = boxes.count;
    for j in (0..count).rev() {
        let b = bound_of(t, c, q, j, level);
        let m = boxes.count;
        boxes.count = put_bound(t.logic, count, b, &mut boxes.bounds, m);
    }
    Span {
        level,
        begin: begin as u16,
        end: boxes.count as u16,
    }
}

// Notes the box for a child of grade `x`, for slot `q` of source `c`: that of the grade before where it wants the same level, else a new one, and
// none where no level on the chain is enough.
fn put_box(t: &WitnessTables, c: usize, q: usize, x: u8, boxes: &mut Boxes)
    requires slot { (c < length t.now.own.now) × (q < slot_count t.now.slots.now) × (x ≤ t.now.logic.steps) }
    requires boxed { Boxed boxes.old (tables_of t.now) c q x × (boxes.old.count ≤ 16 * x) }
    ensures { Boxed boxes.new (tables_of t.now) c q (x + 1) × (boxes.new.count ≤ 16 * (x + 1)) × (length boxes.new.bounds ≡ length boxes.old.bounds) }
{
    let at = usize::from(x);
    let level = t.logic.wants(quantifier_of(t.slots[4 * q]), t.own[c][q], x);
    if t.logic.steps < level {
        boxes.spans[at] = None;
        return;
    }
    if 0 < at
        && let Some(span) = boxes.spans[at - 1]
        && span.level == level
    {
        boxes.spans[at] = Some(span);
        return;
    }
    let span = add_box(t, c, q, level, boxes);
    boxes.spans[at] = Some(span);
}

// Makes the boxes of all grades for slot `q` of source `c`.
pub fn make_boxes(t: &WitnessTables, c: usize, q: usize, boxes: &mut Boxes)
    requires { (c < length t.now.own.now) × (q < slot_count t.now.slots.now) }
    ensures { Boxed boxes.new (tables_of t.now) c q (t.now.logic.steps + 1) × (boxes.new.count ≤ length boxes.new.bounds) }
{
    boxes.count = 0;
    for x in 0..=t.logic.steps {
        put_box(t, c, q, x, boxes);
    }
}
