// Boxes: the rows that lie within bounds on the grades in their columns.

#![tactic(auto)]

ghost use Rattle.std.specs.Prelude.{ℕ, ◌+◌, ◌<◌, ◌≤◌, length};
ghost use Rattle.chain.specs.Decisions.{Tells};
ghost use Rattle.boxes.specs.Boxes.{Within, bound_at, Inside, Narrowed};

use gradings::Logic;

// The grades that a row may have in a column: from `low` to `high`.
#[derive(Clone, Copy)]
pub struct Bound {
    pub column: u8,
    pub low: u8,
    pub high: u8,
}

impl Bound {
    // What stands in an array where no bound is put yet.
    pub const UNUSED: Bound = Bound {
        column: 0,
        low: 0,
        high: 0,
    };
}

// Adds a bound as number `m`, if it leaves anything of the chain out. The number of bounds.
pub fn put_bound(logic: Logic, columns: usize, b: Bound, bounds: &mut [Bound], m: usize) -> usize
    requires { (b.column < columns) × (m < length bounds.old) }
    ensures narrowed { Narrowed logic columns (Within b) bounds.old m bounds.new result }
    ensures upper_bound { result ≤ m + 1 }
{
    if b.low == 0 && logic.steps <= b.high {
        return m;
    }
    bounds[m] = b;
    m + 1
}

// Does the row lie in the box? The first bound that it passes decides.
pub fn inside(bounds: &[Bound], row: &[u8]) -> bool
    requires { (x : ℕ) → x < length bounds.now → (bound_at bounds.now x).column < length row.now }
    ensures { Tells result (Inside bounds.now row.now) }
{
    for b in bounds {
        let grade = row[usize::from(b.column)];
        if grade < b.low || b.high < grade {
            return false;
        }
    }
    true
}
