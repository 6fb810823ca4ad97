// Which columns the constraints read of an individual.

#![tactic(auto)]

ghost use Rattle.std.specs.Prelude.{◌≡◌, Bool, List, ℕ, ◌+◌, ◌<◌, ◌≤◌, length};
ghost use Rattle.network.specs.Constraints.{column_at, constraint_count, constraint_at};
ghost use Rattle.reads.specs.Reads.{ListRead, Read, More, Listed};

use network::{Constraint, End, Network};

// Notes what the constraints of a list read at this end.
fn note_list(constraints: &[Constraint], end: End, seen: &mut [bool; 32])
    requires { (y : ℕ) → y < constraint_count constraints.now → column_at end (constraint_at constraints.now y) < 32 }
    ensures more { More seen.old seen.new }
    ensures list_read { ListRead constraints.now end (constraint_count constraints.now) seen.new }
{
    for constraint in constraints {
        seen[constraint.column(end)] = true;
    }
}

// Notes what those between individual `j` and the others read of `j`.
fn note_all(network: &Network<'_>, j: usize, seen: &mut [bool; 32])
    requires { j < 8 }
    ensures { Read network.now.constraints.now network.now.ends.now j 8 seen.new }
{
    for i in 0..8 {
        if i != j {
            note_list(network.between(j, i), End::Source, seen);
            note_list(network.between(i, j), End::Target, seen);
        }
    }
}

// Lists the columns that were noted. How many they are.
fn list_noted(seen: &[bool; 32], list: &mut [u8; 32]) -> usize
    ensures { Listed seen.now 32 result list.new }
{
    let mut m = 0;
    for t in 0..32 {
        if seen[t] {
            list[m] = t as u8;
            m += 1;
        }
    }
    m
}

// The columns of its row that the constraints between individual `j` and the others read, in the room that is lent.
pub fn columns_read<'a>(network: &Network<'_>, j: usize, room: &'a mut [u8; 32]) -> &'a [u8]
    requires { j < 8 }
    ensures { (seen : List Bool) × Read network.now.constraints.now network.now.ends.now j 8 seen × Listed seen 32 (length result.now) result.now }
{
    let mut seen = [false; 32];
    note_all(network, j, &mut seen);
    let count = list_noted(&seen, room);
    &room[..count]
}
