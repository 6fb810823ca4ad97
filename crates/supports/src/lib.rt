// Support: a candidate for one individual that is compatible with one for another, under the constraints between the two.

#![tactic(auto)]

ghost use Rattle.std.specs.Prelude.{ℕ, ◌+◌, ◌<◌, ◌≤◌, length};
ghost use Rattle.levels.specs.Rows.{row_at};
ghost use Rattle.network.specs.Network.{between};
ghost use Rattle.network.specs.Constraints.{ConstraintRight, AllRight};
ghost use Rattle.domains.specs.Gaps.{GapsFrom};
ghost use Rattle.domains.specs.Consistent.{FitsBy};
ghost use Rattle.boxes.specs.Boxes.{OnChain, bound_at, Asks, Narrowed};
ghost use Rattle.supports.specs.Arcs.{MetAcross, AllMetAcross, Domains, Sought, Tried};

use boxes::{Bound, inside, put_bound};
use domains::{Instance, leap};
use network::{Constraint, End, Network};
use sections::Quantifier;

// ---- the box in which the rows lie that are compatible with a row

// What a constraint asks of the row at the other end, where that at this end is known. Of a target, that the child's grade permits the link: it
// is not above, or not below, an edge. Of a source, that its own grade is not below, or not above, what it takes from the child.
fn bound_across(network: &Network<'_>, k: Constraint, end: End, known: &[u8]) -> Bound
    requires { ConstraintRight network.now.logic network.now.columns k × (network.now.columns ≤ length known.now)
        × OnChain network.now.logic network.now.columns known.now }
    ensures { Asks network.now.logic network.now.columns (MetAcross network.now.logic end k known.now) result }
{
    let grade = known[k.column(end)];
    match (end, k.quantifier) {
        (End::Source, Quantifier::Existential) => Bound {
            column: k.child,
            low: 0,
            high: network.logic.bound(k.quantifier, k.level, grade),
        },
        (End::Source, Quantifier::Universal) => Bound {
            column: k.child,
            low: network.logic.bound(k.quantifier, k.level, grade),
            high: network.logic.steps,
        },
        (End::Target, Quantifier::Existential) => Bound {
            column: k.own,
            low: network.logic.through(k.quantifier, k.level, grade),
            high: network.logic.steps,
        },
        (End::Target, Quantifier::Universal) => Bound {
            column: k.own,
            low: 0,
            high: network.logic.through(k.quantifier, k.level, grade),
        },
    }
}

// Adds what all constraints of a list ask of it.
fn put_bounds(
    network: &Network<'_>,
    constraints: &[Constraint],
    end: End,
    known: &[u8],
    bounds: &mut [Bound],
    start: usize,
) -> usize
    requires right { AllRight network.now.logic network.now.columns constraints.now × (start + length constraints.now ≤ length bounds.old) }
    requires known_on_chain { (network.now.columns ≤ length known.now) × OnChain network.now.logic network.now.columns known.now }
    ensures narrowed { Narrowed network.now.logic network.now.columns (AllMetAcross network.now.logic end constraints.now known.now)
        bounds.old start bounds.new result }
    ensures upper_bound { result ≤ start + length constraints.now }
{
    let mut m = start;
    for k in constraints {
        let b = bound_across(network, *k, end, known);
        m = put_bound(network.logic, network.columns, b, bounds, m);
    }
    m
}

// Makes the box of the rows for individual `i` that are compatible with this one for individual `j`. The number of its bounds.
fn make_box(network: &Network<'_>, j: usize, i: usize, row: &[u8], bounds: &mut [Bound]) -> usize
    requires { (j < 8) × (i < 8) × (network.now.columns ≤ length row.now) × OnChain network.now.logic network.now.columns row.now
        × (128 ≤ length bounds.old) }
    ensures narrowed { Narrowed network.now.logic network.now.columns
        (FitsBy network.now.logic (between network.now.constraints.now network.now.ends.now j i)
        (between network.now.constraints.now network.now.ends.now i j) row.now)
        bounds.old 0 bounds.new result }
    ensures upper_bound { result ≤ 128 }
{
    let m = put_bounds(network, network.between(j, i), End::Source, row, bounds, 0);
    put_bounds(network, network.between(i, j), End::Target, row, bounds, m)
}

// ---- support

// The first candidate from `start` on and below `to` that individual `i` may have and whose row lies in the box.
fn seek(
    instance: &Instance<'_>,
    table: &[u8],
    bounds: &[Bound],
    i: usize,
    start: usize,
    to: usize,
) -> Option<usize>
    requires i_bound { (i < 8) × (to ≤ 16384) × (131072 ≤ length table.now) × GapsFrom table.now i 0 to }
    requires by_index { (x : ℕ) → x < length bounds.now → (bound_at bounds.now x).column < 32 }
    ensures { Sought instance.now bounds.now table.now i start to result }
{
    let mut d = start;
    // A while: it leaps over gaps, so it counts nothing.
    while d < to {
        let gap = leap(table, i, d);
        if 0 < gap {
            d += gap;
            continue;
        }
        if inside(bounds, instance.row(d)) {
            return Some(d);
        }
        d += 1;
    }
    None
}

// The first from `hint` on, or else from 0 on.
fn seek_around(
    instance: &Instance<'_>,
    table: &[u8],
    bounds: &[Bound],
    i: usize,
    hint: usize,
) -> Option<usize>
    requires i_bound { (i < instance.now.individuals) × (hint ≤ instance.now.count) × Domains instance.now table.now }
    requires by_index { (x : ℕ) → x < length bounds.now → (bound_at bounds.now x).column < 32 }
    ensures { Sought instance.now bounds.now table.now i 0 instance.now.count result }
{
    // A match: with `or_else` the proof did not learn what the closure finds.
    match seek(instance, table, bounds, i, hint, instance.count) {
        Some(d) => Some(d),
        None => seek(instance, table, bounds, i, 0, hint),
    }
}

// A candidate for individual `i` that is compatible with `c` for individual `j`; the search starts at `hint`.
pub fn support(
    instance: &Instance<'_>,
    table: &[u8],
    bounds: &mut [Bound],
    j: usize,
    i: usize,
    c: usize,
    hint: usize,
) -> Option<usize>
    requires domains { Domains instance.now table.now }
    requires j_lt_individuals { (j < instance.now.individuals) × (i < instance.now.individuals) × (c < instance.now.count) × (hint ≤ instance.now.count)
        × OnChain instance.now.network.logic instance.now.network.columns (row_at instance.now.rows.now c) × (128 ≤ length bounds.old) }
    ensures { Tried instance.now table.now j i c result }
{
    let m = make_box(&instance.network, j, i, instance.row(c), bounds);
    seek_around(instance, table, &bounds[..m], i, hint)
}
