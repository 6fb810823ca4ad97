// Arc consistency over the domains of the individuals, under the constraints of the link claims.

#![tactic(auto)]

ghost use Rattle.std.specs.Prelude.{◌≡◌, ◌<◌, ◌≤◌, length};
ghost use Rattle.supports.specs.Arcs.{Domains, SupportedBy, SupportedTo, ArcConsistent, Pruned, Revised, RevisedBy};

use boxes::Bound;
use domains::{Instance, leap, note_gaps};
use supports::support;

// Takes from individual `j` the candidates that have no support by `i`. Was one taken away?
fn revise(
    instance: &Instance<'_>,
    table: &mut [u8],
    bounds: &mut [Bound],
    j: usize,
    i: usize,
) -> bool
    requires domains { Domains instance.now table.old }
    requires j_lt_individuals { (j < instance.now.individuals) × (i < instance.now.individuals) × (¬ (i ≡ j)) × (128 ≤ length bounds.old) }
    ensures revised_by { RevisedBy instance.now j i instance.now.count result table.old table.new }
    ensures domains_2 { Domains instance.now table.new }
{
    let mut changed = false;
    let mut hint = 0;
    let mut next = 0;
    // A while: it leaps over gaps, so it counts nothing.
    while next < instance.count {
        let c = next;
        let gap = leap(table, j, c);
        if 0 < gap {
            next += gap;
            continue;
        }
        next += 1;
        match support(instance, table, bounds, j, i, c, hint) {
            Some(d) => hint = d,
            None => {
                table[16384 * j + c] = 0;
                changed = true;
            }
        }
    }
    changed
}

// The same, where there are constraints between the two. The gaps are noted anew.
fn revise_by(
    instance: &Instance<'_>,
    table: &mut [u8],
    bounds: &mut [Bound],
    j: usize,
    i: usize,
) -> bool
    requires domains { Domains instance.now table.old }
    requires j_lt_individuals { (j < instance.now.individuals) × (i < instance.now.individuals) × (¬ (i ≡ j)) × (128 ≤ length bounds.old) }
    ensures revised { Revised instance.now (SupportedBy instance.now j i) result table.old table.new }
    ensures domains_2 { Domains instance.now table.new }
{
    let network = &instance.network;
    if network.between(j, i).is_empty() && network.between(i, j).is_empty() {
        return false;
    }
    if !revise(instance, table, bounds, j, i) {
        return false;
    }
    note_gaps(table, instance.count, j);
    true
}

// Revises individual `j` by every other one. Was a candidate taken away?
fn revise_all(instance: &Instance<'_>, table: &mut [u8], bounds: &mut [Bound], j: usize) -> bool
    requires domains { Domains instance.now table.old }
    requires j_lt_individuals { (j < instance.now.individuals) × (128 ≤ length bounds.old) }
    ensures revised { Revised instance.now (SupportedTo instance.now j instance.now.individuals) result table.old table.new }
    ensures domains_2 { Domains instance.now table.new }
{
    let mut changed = false;
    for i in 0..instance.individuals {
        if i == j {
            continue;
        }
        changed |= revise_by(instance, table, bounds, j, i);
    }
    changed
}

// One pass over the individuals. Was a candidate taken away?
fn pass(instance: &Instance<'_>, table: &mut [u8], bounds: &mut [Bound]) -> bool
    requires domains { Domains instance.now table.old }
    requires bounds_long { 128 ≤ length bounds.old }
    ensures revised { Revised instance.now (ArcConsistent instance.now) result table.old table.new }
    ensures domains_2 { Domains instance.now table.new }
{
    let mut changed = false;
    for j in 0..instance.individuals {
        changed |= revise_all(instance, table, bounds, j);
    }
    changed
}

// Takes candidates away that belong to no consistent placement, until the table is arc consistent.
pub fn prune(instance: &Instance<'_>, table: &mut [u8])
    requires { Domains instance.now table.old }
    ensures pruned { Pruned instance.now table.old table.new }
    ensures arc_consistent { ArcConsistent instance.now table.new }
    ensures domains { Domains instance.now table.new }
{
    let mut bounds = [Bound::UNUSED; 128];
    // A loop: how many passes there will be is not known before.
    loop {
        if !pass(instance, table, &mut bounds) {
            return;
        }
    }
}
