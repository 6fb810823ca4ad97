// The domains of the individuals: the candidates that each may have, as a table.

#![tactic(auto)]

ghost use Rattle.std.specs.Prelude.{◌≡◌, ◌+◌, ◌<◌, ◌≤◌, length};
ghost use Rattle.chain.specs.Decisions.{Tells};
ghost use Rattle.domains.specs.Tables.{Lacks, Vain};
ghost use Rattle.domains.specs.Gaps.{GapAt, Leap, Gaps, SameAllowed, NotedAll};
ghost use Rattle.levels.specs.Rows.{row_at};
ghost use Rattle.domains.specs.Consistent.{Problem};

use levels::row_at;
use network::Network;

// ---- what stays as it is throughout

// An instance of the constraint satisfaction problem, but for the domains: the variables are the individuals, the values the candidates below
// `count`, each with its row, and the constraints are those of the network.
#[derive(Clone, Copy)]
pub struct Instance<'a> {
    pub network: Network<'a>,
    pub rows: &'a [u8],
    pub count: usize,
    pub individuals: usize,
    pub ghost problem: { Problem network.logic network.columns network.constraints.now network.ends.now count individuals rows.now },
}

impl<'a> Instance<'a> {
    // The row of candidate `c`.
    pub fn row(&self, c: usize) -> &'a [u8]
        requires { c < 16384 }
        ensures is { result.now ≡ row_at self.now.rows.now c }
        ensures long { length result.now ≡ 32 }
    {
        row_at(self.rows, c)
    }
}

// ---- the table

// May individual `j` have no candidate?
fn lacks(table: &[u8], count: usize, j: usize) -> bool
    requires { (count ≤ 16384) × (j < 8) × (131072 ≤ length table.now) }
    ensures { Tells result (Lacks table.now count j) }
{
    !table[16384 * j..16384 * j + count].contains(&1)
}

// May some individual have none? Then there is no placement, however many ways there are to place the others.
pub fn in_vain(table: &[u8], count: usize, individuals: usize) -> bool
    requires { (count ≤ 16384) × (individuals ≤ 8) × (131072 ≤ length table.now) }
    ensures { Tells result (Vain table.now count individuals) }
{
    (0..individuals).any(|j| lacks(table, count, j))
}

// ---- gaps

// Notes in each cell of a candidate that individual `j` may not have one more than the number of such candidates from there on, up to 254.
pub fn note_gaps(table: &mut [u8], count: usize, j: usize)
    requires { (count ≤ 16384) × (j < 8) × (131072 ≤ length table.old) }
    ensures { NotedAll j count table.old table.new }
{
    let mut gap: u8 = 0;
    for c in (0..count).rev() {
        let at = 16384 * j + c;
        if table[at] == 1 {
            gap = 0;
        } else {
            gap = gap.min(253) + 1;
            table[at] = gap + 1;
        }
    }
}

// Notes the gaps of all individuals. Each may have what it might.
pub fn note_all_gaps(table: &mut [u8], count: usize, individuals: usize)
    requires { (count ≤ 16384) × (individuals ≤ 8) × (131072 ≤ length table.old) }
    ensures same_allowed { SameAllowed table.old table.new }
    ensures gaps { Gaps table.new individuals count }
{
    for j in 0..individuals {
        note_gaps(table, count, j);
    }
}

// 0 if individual `j` may have candidate `c`; else a number of candidates from `c` on of which it may have none, 1 or more.
pub fn leap(table: &[u8], j: usize, c: usize) -> usize
    requires { (j < 8) × (c < 16384) × (131072 ≤ length table.now) × GapAt table.now j c }
    ensures { Leap table.now j c result }
{
    match table[16384 * j + c] {
        0 => 1,
        1 => 0,
        gap => usize::from(gap) - 1,
    }
}
