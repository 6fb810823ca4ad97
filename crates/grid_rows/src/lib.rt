// The grid: rows of elements, from columns of terms.

#![tactic(auto)]

ghost use Rattle.std.specs.Prelude.{◌≡◌, ◌++◌, ◌*◌, ◌<◌, ◌≤◌, length, drop};
ghost use Rattle.chain.specs.Lists.{table};
ghost use Rattle.columns.specs.Columns.{cell_at, rows_of};

use columns::Columns;

fn write_row(columns: &Columns, e: usize, row: &mut [u8])
    requires { (e < 64) × (length row.old ≤ 64) }
    ensures { row.new ≡ table (λ i. cell_at columns.now i e) (length row.old) }
{
    for (i, g) in row.iter_mut().enumerate() {
        *g = columns.cells[i][e];
    }
}

// Writes the rows of `n` elements, `t` terms each, over the beginning of the grid.
pub fn write_grid(columns: &Columns, t: usize, n: usize, grid: &mut [u8])
    requires { (t ≤ 64) × (n ≤ 64) × (n * t ≤ length grid.old) }
    ensures { grid.new ≡ rows_of columns.now t n ++ drop (n * t) grid.old }
{
    for e in 0..n {
        let start = e * t;
        let end = start + t;
        write_row(columns, e, &mut grid[start..end]);
    }
}
