// Sets of terms as the bits of words. For each left term the right terms that no type has refuted yet are such a set, so a type refutes all pairs of
// a left term in one step, and a pair that is refuted costs nothing more.

#![tactic(auto)]

ghost use Rattle.std.specs.Prelude.{◌≡◌, ◌++◌, ◌↔◌, ℕ, ◌*◌, ◌<◌, ◌≤◌, length, get_or, drop};
ghost use Rattle.encoding.specs.Bits.{Bit};
ghost use Rattle.term_sets.specs.Sets.{Gathered, Narrowed, set_row, set_table};

// ---- one type

// 1 where a grade is at least so high, and else 0.
fn reaches(level: u8, g: u8) -> u64
    ensures { (result < 2) × ((result ≡ 1) ↔ (level ≤ g)) }
{
    u64::from(level <= g)
}

// The set of the terms that a row grades at least so high.
fn gather(row: &[u8], level: u8) -> u64
    requires { length row.now ≤ 64 }
    ensures { Gathered row.now level result }
{
    let mut word = 0;
    for j in (0..row.len()).rev() {
        word = word * 2 + reaches(level, row[j]);
    }
    word
}

// Keeps in the set of left term `i`, if the row grades that just so high, the terms of the word.
fn narrow_one(row: &[u8], level: u8, word: u64, sets: &mut [u64], i: usize)
    requires { (i < length row.now) × (i < length sets.old) }
    ensures by_index { (k : ℕ) → ¬ (k ≡ i) → get_or sets.new k 0 ≡ get_or sets.old k 0 }
    ensures by_index_2 { (j : ℕ) → Bit (get_or sets.new i 0) j ↔ (Bit (get_or sets.old i 0) j × (get_or row.now i 0 ≡ level → Bit word j)) }
{
    if row[i] == level {
        sets[i] &= word;
    }
}

// Of the left terms that a row grades just so high, refutes the pairs with a right term graded lower.
fn narrow_at(row: &[u8], level: u8, sets: &mut [u64])
    requires { (length row.now ≤ 64) × (length row.now ≤ length sets.old) }
    ensures { Narrowed (length row.now) sets.old sets.new (λ i j. get_or row.now i 0 ≡ level → level ≤ get_or row.now j 0) }
{
    let word = gather(row, level);
    for i in 0..row.len() {
        narrow_one(row, level, word, sets, i);
    }
}

// Refutes the pairs whose left term a row grades above the right one. Of a left term graded 0 there are none.
pub fn narrow(row: &[u8], steps: u8, sets: &mut [u64])
    requires { (length row.now ≤ 64) × (length row.now ≤ length sets.old) × ((i : ℕ) → get_or row.now i 0 ≤ steps) }
    ensures { Narrowed (length row.now) sets.old sets.new (λ i j. get_or row.now i 0 ≤ get_or row.now j 0) }
{
    for level in (1..=steps).rev() {
        narrow_at(row, level, sets);
    }
}

// ---- before the first type, and after the last

// Puts every right term into the set of each of the first `n` left terms: no pair is refuted. A `for`, and no `fill`: the must-fail edit
// `only_the_diagonal` says what it puts at each.
pub fn suppose_all(n: usize, sets: &mut [u64])
    requires { n ≤ length sets.old }
    ensures { (i : ℕ) → i < n → get_or sets.new i 0 ≡ 18446744073709551615 }
{
    for i in 0..n {
        sets[i] = u64::MAX;
    }
}

// Writes a set as a row of bytes.
fn write_set(word: u64, row: &mut [u8])
    requires { length row.old ≤ 64 }
    ensures { row.new ≡ set_row (length row.old) word }
{
    for j in 0..row.len() {
        row[j] = ((word >> j) % 2) as u8;
    }
}

// Writes the sets of `n` terms over the beginning of the table, row by row.
pub fn write_sets(sets: &[u64], n: usize, table: &mut [u8])
    requires { (n ≤ 64) × (n ≤ length sets.now) × (n * n ≤ length table.old) }
    ensures { table.new ≡ set_table n sets.now n ++ drop (n * n) table.old }
{
    for i in 0..n {
        let start = i * n;
        write_set(sets[i], &mut table[start..start + n]);
    }
}
