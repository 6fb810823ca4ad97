// Placing the individuals: the first placement in dictionary order at marked candidates that meets every claim.

#![tactic(auto)]

ghost use Rattle.std.specs.Prelude.{◌≡◌, true, ℕ, ◌-◌, ◌<◌, ◌≤◌, length, get_or, take, drop};
ghost use Rattle.chain.specs.Decisions.{Tells};
ghost use Rattle.levels.specs.Rows.{row_at};
ghost use Rattle.domains.specs.Consistent.{Graded};
ghost use Rattle.supports.specs.Arcs.{FitsIn, Domains};
ghost use Rattle.placer.specs.Walk.{placed};
ghost use Rattle.placer.specs.Seats.{walk_in, SeatedBelow, NextFit, Finds};
ghost use Rattle.placer.specs.Placing.{Task, Places};

use domains::{Instance, in_vain, leap, note_all_gaps};
use filter::Filter;
use grades::Grader;
use gradings::Logic;
use network::{Constraint, Network};

// ---- one individual after another

// Is candidate `c` for individual `j` compatible with candidate `d` for individual `i`?
fn compatible(instance: &Instance<'_>, j: usize, c: usize, i: usize, d: usize) -> bool
    requires { (j < 8) × (i < 8) × (c < 16384) × (d < 16384) }
    ensures { Tells result (FitsIn instance.now j i (row_at instance.now.rows.now c) (row_at instance.now.rows.now d)) }
{
    let first = instance.row(c);
    let second = instance.row(d);
    instance.network.all_met(j, i, first, second) && instance.network.all_met(i, j, second, first)
}

// Is candidate `c` for individual `k` compatible with those of the individuals before it?
fn fits_seated(instance: &Instance<'_>, seats: &[u16], k: usize, c: usize) -> bool
    requires { (k < 8) × (k ≤ length seats.now) × (c < 16384) × SeatedBelow seats.now k }
    ensures { Tells result ((i : ℕ) → i < k
        → FitsIn instance.now i k (row_at instance.now.rows.now (get_or seats.now i 0)) (row_at instance.now.rows.now c)) }
{
    for i in 0..k {
        if !compatible(instance, i, usize::from(seats[i]), k, c) {
            return false;
        }
    }
    true
}

// The first candidate from `start` on that individual `k` may have and that is compatible with those of the individuals before it.
fn next_fit(
    instance: &Instance<'_>,
    table: &[u8],
    seats: &[u16],
    k: usize,
    start: usize,
) -> Option<usize>
    requires domains { Domains instance.now table.now }
    requires k_lt_individuals { (k < instance.now.individuals) × (k ≤ length seats.now) × SeatedBelow seats.now k }
    ensures { NextFit instance.now table.now seats.now k start result }
{
    let mut c = start;
    // A while: it leaps over gaps, so it counts nothing.
    while c < instance.count {
        let gap = leap(table, k, c);
        if 0 < gap {
            c += gap;
            continue;
        }
        if fits_seated(instance, seats, k, c) {
            return Some(c);
        }
        c += 1;
    }
    None
}

// Places the individuals from `k` on, those before them being seated: a plain search in the order of the candidates.
fn place_from(instance: &Instance<'_>, table: &[u8], seats: &mut [u16], k: usize) -> bool
    requires domains { Domains instance.now table.now }
    requires k_le_individuals { (k ≤ instance.now.individuals) × (instance.now.individuals ≤ length seats.old) × SeatedBelow seats.old k }
    ensures seats_unchanged { take k seats.new ≡ take k seats.old }
    ensures seats_after { placed result (take (instance.now.individuals - k) (drop k seats.new))
        ≡ walk_in instance.now table.now (instance.now.individuals - k) (take k seats.old) }
{
    if k == instance.individuals {
        return true;
    }
    let mut start = 0;
    while let Some(c) = next_fit(instance, table, seats, k, start) {
        seats[k] = c as u16;
        if place_from(instance, table, seats, k + 1) {
            return true;
        }
        start = c + 1;
    }
    false
}

// Places each individual at the first candidate that is compatible with those before it. If there is one for each, this is what the search finds.
fn place_at_once(instance: &Instance<'_>, table: &[u8], seats: &mut [u16]) -> bool
    requires domains { Domains instance.now table.now }
    requires individuals_in_bounds { instance.now.individuals ≤ length seats.old }
    ensures { result ≡ true → Finds instance.now table.now true seats.new }
{
    for k in 0..instance.individuals {
        match next_fit(instance, table, seats, k, 0) {
            Some(c) => seats[k] = c as u16,
            None => return false,
        }
    }
    true
}

// ---- the whole search: the same is found in fewer candidates

// Makes the table arc consistent, and searches.
fn place_pruned(instance: &Instance<'_>, table: &mut [u8], seats: &mut [u16]) -> bool
    requires domains { Domains instance.now table.old }
    requires individuals_in_bounds { instance.now.individuals ≤ length seats.old }
    ensures { Finds instance.now table.old result seats.new }
{
    arcs::prune(instance, table);
    if in_vain(table, instance.count, instance.individuals) {
        return false;
    }
    place_from(instance, table, seats, 0)
}

// Thins the table to one candidate a class. Where the first ones do not go together at once, it is worth pruning.
fn place_thinned(instance: &Instance<'_>, table: &mut [u8], seats: &mut [u16]) -> bool
    requires in_bounds { (131072 ≤ length table.old) × (instance.now.individuals ≤ length seats.old) }
    requires graded { Graded instance.now.network.logic instance.now.network.columns instance.now.count instance.now.individuals instance.now.rows.now
        table.old }
    ensures { Finds instance.now table.old result seats.new }
{
    if in_vain(table, instance.count, instance.individuals) {
        return false;
    }
    classes::thin(instance, table);
    note_all_gaps(table, instance.count, instance.individuals);
    place_at_once(instance, table, seats) || place_pruned(instance, table, seats)
}

// The same as `place`, with room that is lent.
fn place_in(
    logic: Logic,
    terms: &[u8],
    slots: &[u8],
    memberships: &[u8],
    links: &[u8],
    marks: &[u8],
    count: usize,
    individuals: usize,
    net: &mut [Constraint],
    ends: &mut [u16],
    rows: &mut [u8],
    table: &mut [u8],
    seats: &mut [u16],
) -> bool
    requires task { Task logic terms.now slots.now memberships.now links.now marks.now count individuals }
    requires individuals_in_bounds { individuals ≤ length seats.old }
    requires in_bounds { (1024 ≤ length net.old) × (65 ≤ length ends.old) × (get_or ends.old 0 0 ≡ 0) × (524288 ≤ length rows.old)
        × (131072 ≤ length table.old) × ((i : ℕ) → get_or table.old i 0 ≡ 0) }
    ensures { Places logic terms.now memberships.now links.now marks.now count individuals result seats.new }
{
    network::connect(logic, slots, links, net, ends);
    let network = Network {
        logic,
        constraints: net,
        ends,
        columns: 2 * (slots.len() / 4),
    };
    let filter = Filter {
        grader: Grader::new(terms, logic),
        slots,
        memberships,
        network: &network,
        individuals,
    };
    filter.fill_tables(marks, count, rows, table);
    let instance = Instance {
        network,
        rows,
        count,
        individuals,
    };
    place_thinned(&instance, table, seats)
}

// The first placement of the individuals at marked candidates that meets every claim. Where there is none the answer is false, and what the
// seats hold means nothing.
pub fn place(
    logic: Logic,
    terms: &[u8],
    slots: &[u8],
    memberships: &[u8],
    links: &[u8],
    marks: &[u8],
    count: usize,
    individuals: usize,
    seats: &mut [u16],
) -> bool
    requires task { Task logic terms.now slots.now memberships.now links.now marks.now count individuals }
    requires individuals_in_bounds { individuals ≤ length seats.old }
    ensures { Places logic terms.now memberships.now links.now marks.now count individuals result seats.new }
{
    let mut net = [Constraint::UNUSED; 1024];
    let mut ends = [0u16; 65];
    let mut rows = [0u8; 524288];
    let mut table = [0u8; 131072];
    place_in(
        logic,
        terms,
        slots,
        memberships,
        links,
        marks,
        count,
        individuals,
        &mut net,
        &mut ends,
        &mut rows,
        &mut table,
        seats,
    )
}
