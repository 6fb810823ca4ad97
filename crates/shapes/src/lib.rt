// The head of a sheet and the layout of its bodies: the checks 13 and 14.

#![tactic(auto)]

ghost use Rattle.std.specs.Prelude.{◌≡◌, ◌≤◌, ◌<◌, length};
ghost use Rattle.chain.specs.Decisions.{Tells};
ghost use Rattle.shapes.specs.Layout.{shape_of, links_at, individuals_at, end_at, Indexable, CountsAgree, HeadRight, SheetLaidOut};

use book::Counts;
use encoding::word;

// The counts of a sheet: elements, names, roles, individuals.
#[derive(Clone, Copy, Debug, PartialEq, Eq)]
pub struct Shape {
    pub elements: usize,
    pub names: usize,
    pub roles: usize,
    pub individuals: usize,
}

// ---- the head (check 13)

// The counts in the head. Each is a byte, so an index can say where the sheet ends.
pub fn shape_of(b: &[u8]) -> Shape
    requires { 12 ≤ length b.now }
    ensures { (result ≡ shape_of b.now) × Indexable result }
{
    Shape {
        elements: usize::from(b[2]),
        names: usize::from(b[3]),
        roles: usize::from(b[4]),
        individuals: usize::from(b[5]),
    }
}

fn counts_agree(p: Shape, counts: Counts) -> bool
    ensures { Tells result (CountsAgree p counts.names counts.roles counts.individuals) }
{
    1 <= p.elements
        && p.elements <= 64
        && p.names == counts.names
        && p.roles == counts.roles
        && p.individuals == counts.individuals
}

// For a book's steps and counts.
pub fn head_right(b: &[u8], steps: u8, counts: Counts) -> bool
    ensures { Tells result (HeadRight b.now (shape_of b.now) steps counts.names counts.roles counts.individuals) }
{
    12 <= b.len() && b[0] == 1 && b[1] == steps && counts_agree(shape_of(b), counts)
}

// ---- the layout (check 14): the names begin at byte 12, and each body right after the one before

// Where the links begin.
pub fn links_at(p: Shape) -> usize
    requires { Indexable p }
    ensures { result ≡ links_at p }
{
    12 + p.elements * p.names
}

// Where the individuals begin.
pub fn individuals_at(p: Shape) -> usize
    requires { Indexable p }
    ensures { result ≡ individuals_at p }
{
    links_at(p) + p.roles * p.elements * p.elements
}

// Where the sheet ends.
pub fn end_at(p: Shape) -> usize
    requires { Indexable p }
    ensures { result ≡ end_at p }
{
    individuals_at(p) + p.individuals
}

pub fn sheet_laid_out(b: &[u8], p: Shape) -> bool
    requires { (12 ≤ length b.now) × Indexable p }
    ensures { Tells result (SheetLaidOut b.now p) }
{
    word(b, 6) == 12
        && word(b, 8) == links_at(p)
        && word(b, 10) == individuals_at(p)
        && b.len() == end_at(p)
}
