// The roles that are reached from each role upward, worked out from the pairs of a book: a table of 8 times 8 bytes, in which byte 8 r + s is 1 where
// role s is reached from role r.

#![tactic(auto)]

ghost use Rattle.std.specs.Prelude.{◌≡◌, ℕ, ◌+◌, ◌<◌, get_or};
ghost use Rattle.claims.specs.Pairs.{pair_count, pair_at, pairs_of, PairsRight};
ghost use Rattle.roles.specs.Tables.{Reaches, Copied, Joined, JoinedWhere, Linked, Diagonal};

// Marks byte `to` where byte `from` is marked.
fn copy_mark(above: &mut [u8; 64], from: usize, to: usize)
    requires { (from < 64) × (to < 64) }
    ensures { Copied from to above.old above.new }
{
    if above[from] == 1 {
        above[to] = 1;
    }
}

// Adds to row `r` what is marked in row `u`.
fn join(above: &mut [u8; 64], r: usize, u: usize)
    requires { (r < 8) × (u < 8) }
    ensures { Joined r u 8 above.old above.new }
{
    for s in 0..8 {
        copy_mark(above, 8 * u + s, 8 * r + s);
    }
}

// Where row `r` reaches the lower role, it reaches what the upper role reaches.
fn join_where(above: &mut [u8; 64], r: usize, lower: usize, upper: usize)
    requires { (r < 8) × (lower < 8) × (upper < 8) }
    ensures { JoinedWhere r lower upper above.old above.new }
{
    if above[8 * r + lower] == 1 {
        join(above, r, upper);
    }
}

// Follows pair `i`: whatever reaches its lower role reaches what its upper role reaches.
fn follow(pairs: &[u8], i: usize, above: &mut [u8; 64])
    requires { (i < pair_count pairs.now) × PairsRight pairs.now }
    ensures { Linked (pair_at pairs.now i).lower (pair_at pairs.now i).upper 8 above.old above.new }
{
    let lower = usize::from(pairs[2 * i]);
    let upper = usize::from(pairs[2 * i + 1]);
    for r in 0..8 {
        join_where(above, r, lower, upper);
    }
}

// Each role reaches itself. No byte is marked before.
fn mark_own(above: &mut [u8; 64])
    requires { (z : ℕ) → get_or above.old z 0 ≡ 0 }
    ensures { Diagonal 8 above.new }
{
    for r in 0..8 {
        above[9 * r] = 1;
    }
}

// Follows all pairs, the last first.
fn follow_all(pairs: &[u8], above: &mut [u8; 64])
    requires { PairsRight pairs.now × Diagonal 8 above.old }
    ensures { Reaches (pairs_of pairs.now) above.new }
{
    for i in (0..pairs.len() / 2).rev() {
        follow(pairs, i, above);
    }
}

// The table of the pairs.
pub fn reach(pairs: &[u8]) -> [u8; 64]
    requires { PairsRight pairs.now }
    ensures { Reaches (pairs_of pairs.now) result }
{
    let mut above = [0u8; 64];
    mark_own(&mut above);
    follow_all(pairs, &mut above);
    above
}
