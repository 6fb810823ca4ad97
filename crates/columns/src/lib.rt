// Columns of grades: what a quantified term takes from a row of links beside the column of its child's grades.

#![tactic(auto)]

ghost use Rattle.std.specs.Prelude.{◌≡◌, ℕ, ◌+◌, ◌*◌, ◌<◌, ◌≤◌, length, get_or, take, drop};
ghost use Rattle.chain.specs.Connectives.{neutral as neutral_of, join as join_of};
ghost use Rattle.sections.specs.Values.{as_quantifier};
ghost use Rattle.columns.specs.Columns.{cell_at, column_at, Stored};
ghost use Rattle.columns.specs.Workable.{Reached, taken_over, taken_at};

use gradings::Logic;
use sections::Quantifier;

// The grades of up to 64 terms, a column for each, at up to 64 elements.
#[derive(Drop)]
pub struct Columns {
    pub cells: [[u8; 64]; 64],
}

impl Columns {
    // The grade of term `i` at element `e`.
    pub fn cell(&self, i: u8, e: usize) -> u8
        requires { (i < 64) × (e < 64) }
        ensures { result ≡ cell_at self.now i e }
    {
        self.cells[usize::from(i)][e]
    }

    // Makes `g` the grade of term `i` at element `e`.
    pub fn set(&mut self, i: usize, e: usize, g: u8)
        requires { (i < 64) × (e < 64) }
        ensures { Stored self.old self.new i e g }
    {
        let column = &mut self.cells[i];
        column[e] = g;
    }

    // The grades of term `i` at the first `n` elements.
    fn column(&self, i: u8, n: usize) -> &[u8]
        requires { (i < 64) × (n ≤ 64) }
        ensures { (result.now ≡ take n (column_at self.now i)) × (length result.now ≡ n) }
    {
        &self.cells[usize::from(i)][..n]
    }
}

// ---- "some" and "all" over all of `n` elements, linked or not

// Over no element.
fn neutral(logic: Logic, quantifier: Quantifier) -> u8
    ensures { result ≡ neutral_of (as_quantifier quantifier) logic.steps }
{
    match quantifier {
        Quantifier::Existential => 0,
        Quantifier::Universal => logic.steps,
    }
}

// Over two: for "some" the greater, for "all" the lesser.
fn join(quantifier: Quantifier, x: u8, y: u8) -> u8
    ensures { result ≡ join_of (as_quantifier quantifier) x y }
{
    match quantifier {
        Quantifier::Existential => x.max(y),
        Quantifier::Universal => x.min(y),
    }
}

// Over as many as the row and the column have.
fn taken_over(logic: Logic, quantifier: Quantifier, row: &[u8], column: &[u8]) -> u8
    requires same_length { length row.now ≡ length column.now }
    requires by_index { (f : ℕ) → f < length row.now → get_or row.now f 0 ≤ logic.steps }
    ensures { result ≡ taken_over (as_quantifier quantifier) logic row.now column.now (length row.now) }
{
    let mut found = neutral(logic, quantifier);
    for (link, child) in row.iter().zip(column) {
        found = join(quantifier, found, logic.through(quantifier, *link, *child));
    }
    found
}

// The links of `role` from element `e` to each.
pub fn links_from(links: &[u8], n: usize, role: u8, e: usize) -> &[u8]
    requires { (n ≤ 64) × (e < n) × (n * (n * role + e) + n ≤ length links.now) }
    ensures { (result.now ≡ take n (drop (n * (n * role + e)) links.now)) × (length result.now ≡ n) }
{
    let start = n * (n * usize::from(role) + e);
    &links[start..start + n]
}

// What a quantified term takes at element `e`, from the links of `role` and the column of `child`.
pub fn taken_at(
    logic: Logic,
    quantifier: Quantifier,
    n: usize,
    links: &[u8],
    role: u8,
    columns: &Columns,
    child: u8,
    e: usize,
) -> u8
    requires reached { Reached n links.now role child e }
    requires by_index { (k : ℕ) → get_or links.now k 0 ≤ logic.steps }
    ensures { result ≡ taken_at (as_quantifier quantifier) logic n links.now columns.now role child e }
{
    taken_over(
        logic,
        quantifier,
        links_from(links, n, role, e),
        columns.column(child, n),
    )
}
