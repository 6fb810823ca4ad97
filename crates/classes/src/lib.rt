// Thinning: of the candidates that look alike to the constraints between an individual and the others, the first is kept.

#![tactic(auto)]

ghost use Rattle.std.specs.Prelude.{◌≡◌, ℕ, ◌+◌, ◌<◌, ◌≤◌, length, get_or};
ghost use Rattle.chain.specs.Decisions.{Tells};
ghost use Rattle.reads.specs.Classes.{Alike, Matched, ThinnedAt, Thinned};

use domains::Instance;
use reads::columns_read;

// ---- candidates that look alike

// Have the two rows the same grades in the columns of the list?
fn alike(list: &[u8], first: &[u8], second: &[u8]) -> bool
    requires { (32 ≤ length first.now) × (32 ≤ length second.now) × ((x : ℕ) → x < length list.now → get_or list.now x 0 < 32) }
    ensures { Tells result (Alike list.now first.now second.now) }
{
    list.iter()
        .all(|&t| first[usize::from(t)] == second[usize::from(t)])
}

// A number below 16384 made from the grades that are read. Rows that look alike have the same. The factor is one by which few others have it too,
// also where one grade stands in two columns, as that of a slot that is the child of another does.
fn signature(list: &[u8], row: &[u8]) -> usize
    requires { (32 ≤ length row.now) × ((x : ℕ) → x < length list.now → get_or list.now x 0 < 32) }
    ensures { result < 16384 }
{
    let mut number = 0;
    for &t in list {
        number = (221 * number + usize::from(row[usize::from(t)])) % 16381;
    }
    number
}

// Does `c` look like the last candidate with its signature? If not, it takes that one's place in the memory, which has one more than it, or 0: an
// Option would take twice the room.
fn matched(instance: &Instance<'_>, list: &[u8], memory: &mut [u16], c: usize) -> bool
    requires in_bounds { (16384 ≤ length memory.old) × (c < 16384) × ((x : ℕ) → x < length list.now → get_or list.now x 0 < 32) }
    requires by_index { (h : ℕ) → get_or memory.old h 0 ≤ 16384 }
    ensures { Matched list.now instance.now.rows.now c memory.old memory.new result }
{
    let row = instance.row(c);
    let h = signature(list, row);
    let known = usize::from(memory[h]);
    if known != 0 && alike(list, instance.row(known - 1), row) {
        return true;
    }
    memory[h] = (c + 1) as u16;
    false
}

// ---- thinning

// Takes from individual `j` the candidates that look like an earlier one. The memory is empty.
fn thin_by(instance: &Instance<'_>, list: &[u8], table: &mut [u8], memory: &mut [u16], j: usize)
    requires in_bounds { (131072 ≤ length table.old) × (16384 ≤ length memory.old) × (j < 8)
        × ((x : ℕ) → x < length list.now → get_or list.now x 0 < 32) }
    requires by_index { (h : ℕ) → get_or memory.old h 0 ≡ 0 }
    ensures { ThinnedAt list.now instance.now.rows.now j instance.now.count table.old table.new }
{
    for c in 0..instance.count {
        let at = 16384 * j + c;
        if table[at] == 1 && matched(instance, list, memory, c) {
            table[at] = 0;
        }
    }
}

// The same, by what the constraints read of `j`.
fn thin_one(instance: &Instance<'_>, table: &mut [u8], j: usize)
    requires { (j < instance.now.individuals) × (131072 ≤ length table.old) }
    ensures { Thinned instance.now.network.logic instance.now.network.constraints.now instance.now.network.ends.now instance.now.count
        instance.now.rows.now instance.now.individuals table.old table.new }
{
    let mut room = [0u8; 32];
    let list = columns_read(&instance.network, j, &mut room);
    let mut memory = [0u16; 16384];
    thin_by(instance, list, table, &mut memory, j);
}

// Keeps of each individual's candidates the first of every class.
pub fn thin(instance: &Instance<'_>, table: &mut [u8])
    requires { 131072 ≤ length table.old }
    ensures { Thinned instance.now.network.logic instance.now.network.constraints.now instance.now.network.ends.now instance.now.count
        instance.now.rows.now instance.now.individuals table.old table.new }
{
    for j in 0..instance.individuals {
        thin_one(instance, table, j);
    }
}
