// What deciding answers where the rules have a model: the individuals are placed, and the placement is written if there is one.

#![tactic(auto)]

ghost use Rattle.std.specs.Prelude.{◌≡◌, ◌*◌, ◌<◌, ◌≤◌, length, take, drop};
ghost use mathlib.Core.List.{◌++◌, flat_map};
ghost use Rattle.encoding.specs.Words.{word_bytes};
ghost use Rattle.semantics.specs.Books.{individuals as individualsOf};
ghost use Rattle.book.specs.Reading.{book_of};
ghost use Rattle.elimination.specs.Survivors.{survivors_of};
ghost use Rattle.placement.specs.Outcome.{placement as placementOf, outcome};
ghost use Rattle.placer.specs.Walk.{placed};
ghost use Rattle.marking.specs.Equipped.{Equipped};
ghost use Rattle.decisions.specs.Decided.{outcome_number, placed_in};

use gradings::Logic;
use marking::Marked;

// Whether rules and claims hold together. The document's number beside each.
#[derive(Clone, Copy, Debug, PartialEq, Eq)]
pub enum Outcome {
    // Some model meets rules and claims.
    HoldsTogether = 1,
    // The rules have a model, but none meets the claims.
    ClaimsFail = 2,
    // The rules have no model.
    NoModel = 3,
}

impl Outcome {
    // The document's number.
    pub fn number(self) -> u8
        ensures { result ≡ outcome_number self }
    {
        self as u8
    }
}

// What deciding says: the outcome, and the number of survivors.
#[derive(Clone, Copy)]
pub struct Decision {
    pub outcome: Outcome,
    pub survivors: usize,
}

// Writes a placement, two bytes per individual.
fn write_placement(seats: &[u16], placement: &mut [u8])
    requires { 2 * length seats.now ≤ length placement.old }
    ensures { placement.new ≡ flat_map word_bytes seats.now ++ drop (2 * length seats.now) placement.old }
{
    for i in 0..seats.len() {
        encoding::write_word(placement, 2 * i, seats[i]);
    }
}

// The first placement of the individuals at the survivors, where there is one.
fn seat(
    marked: Marked<'_>,
    logic: Logic,
    slots: &[u8],
    individuals: usize,
    seats: &mut [u16],
) -> bool
    requires equipped { Equipped marked.counted.book.bytes.now marked.counted.book.sections logic slots.now }
    requires individuals_value { (individuals ≡ individualsOf (book_of marked.counted.book.bytes.now)) × (individuals ≤ length seats.old) }
    ensures { placed result (take individuals seats.new) ≡ placementOf (book_of marked.entry.counted.book.bytes.now) }
{
    let book = marked.counted.book;
    placer::place(
        logic,
        book.terms(),
        slots,
        book.memberships(),
        book.links(),
        marked.marks,
        marked.counted.count,
        individuals,
        seats,
    )
}

// Places the individuals at the survivors that are marked, and writes the placement: outcome 1, or 2 where there is none.
pub fn place_individuals(
    marked: Marked<'_>,
    logic: Logic,
    slots: &[u8],
    placement: &mut [u8],
) -> Outcome
    requires equipped { Equipped marked.counted.book.bytes.now marked.counted.book.sections logic slots.now }
    requires nonzero { (0 < length (survivors_of (book_of marked.counted.book.bytes.now))) × (16 ≤ length placement.old) }
    ensures value { outcome_number result ≡ outcome (book_of marked.entry.counted.book.bytes.now) }
    ensures placement_after { placement.new ≡ placed_in (placementOf (book_of marked.entry.counted.book.bytes.now)) placement.old }
{
    let individuals = marked.counted.book.counts().individuals;
    let mut seats = [0u16; 8];
    if !seat(marked, logic, slots, individuals, &mut seats) {
        return Outcome::ClaimsFail;
    }
    write_placement(&seats[..individuals], placement);
    Outcome::HoldsTogether
}
