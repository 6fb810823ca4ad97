// Zones of a table of rows: what all rows of a block have in common, so that a search can pass over the block.

#![tactic(auto)]

ghost use Rattle.std.specs.Prelude.{◌≡◌, true, List, ℕ, ◌*◌, ◌<◌, ◌≤◌, length};
ghost use Rattle.boxes.specs.Boxes.{bound_at, Inside};
ghost use Rattle.zones.specs.Zones.{zone_in, Lies, Zoned, Wider};

use boxes::Bound;

// The lowest and the highest grade that the rows of a block have in each column.
#[derive(Clone, Copy)]
pub struct Zone {
    pub lowest: [u8; 16],
    pub highest: [u8; 16],
}

impl Zone {
    // The zone of no row.
    pub const NO_ROW: Zone = Zone {
        lowest: [255; 16],
        highest: [0; 16],
    };

    // Widens the zone to hold the row, in the columns below `m`.
    fn widen(&mut self, row: &[u8; 16], m: usize)
        requires { m ≤ 16 }
        ensures wider { Wider self.old self.new }
        ensures lies { Lies self.new m row.now }
    {
        for j in 0..m {
            self.lowest[j] = self.lowest[j].min(row[j]);
            self.highest[j] = self.highest[j].max(row[j]);
        }
    }

    // Does some bound leave nothing of the zone? Then no row of it lies in the box.
    pub fn misses(&self, bounds: &[Bound]) -> bool
        requires { (x : ℕ) → x < length bounds.now → (bound_at bounds.now x).column < 16 }
        ensures { result ≡ true → (m : ℕ) → ((x : ℕ) → x < length bounds.now → (bound_at bounds.now x).column < m)
            → (row : List ℕ) → Lies self.now m row → Inside bounds.now row → ⊥ }
    {
        for b in bounds {
            let column = usize::from(b.column);
            if self.highest[column] < b.low || b.high < self.lowest[column] {
                return true;
            }
        }
        false
    }
}

// Widens the zones, whatever they hold, to those of the rows, in the columns below `m`.
pub fn make_zones(rows: &[[u8; 16]], m: usize, zones: &mut [Zone])
    requires { (m ≤ 16) × (length rows.now ≤ 64 * length zones.old) }
    ensures wider { (b : ℕ) → Wider (zone_in zones.old b) (zone_in zones.new b) }
    ensures zoned { Zoned rows.now zones.new m }
{
    for (d, row) in rows.iter().enumerate() {
        zones[d / 64].widen(row, m);
    }
}
