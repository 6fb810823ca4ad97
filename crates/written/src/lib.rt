// Writing the sheet of a model, after deciding: the checks 17 to 19, and the sheet.

#![tactic(auto)]

ghost use Rattle.std.specs.Prelude.{◌≡◌, ◌++◌, ◌*◌, ◌≤◌, length, take, drop};
ghost use Rattle.semantics.specs.Books.{name_count, role_count, individuals as individualsOf};
ghost use Rattle.book.specs.Reading.{book_of};
ghost use Rattle.shapes.specs.Layout.{end_at};
ghost use Rattle.elimination.specs.Survivors.{survivors_of};
ghost use Rattle.placement.specs.Outcome.{outcome as outcome_of};
ghost use Rattle.decisions.specs.Decided.{decision};
ghost use Rattle.decider.specs.Deciding.{placement_in};
ghost use Rattle.written.specs.Held.{HoldsPlacement};
ghost use Rattle.written.specs.Writing.{model_bytes, model_questions, written_by, sheet_by};

use book::Book;
use decisions::{Decision, Outcome};
use grades::Grader;
use marking::Marked;
use models::Listed;
use refusals::Refusal;
use shapes::Shape;

// What deciding said of a book, and left in its buffers.
#[derive(Clone, Copy)]
pub struct Held<'a> {
    pub marked: Marked<'a>,
    pub placement: &'a [u8],
    pub answer: Decision,
    pub ghost placement_long: { 16 ≤ length placement.now },
    pub ghost placed: { HoldsPlacement marked.counted.book.bytes.now placement.now },
    pub ghost answered: { answer ≡ decision (book_of marked.counted.book.bytes.now) },
}

// The counts of a sheet of so many elements for an accepted book.
fn shape_in(book: Book<'_>, elements: usize) -> Shape
    ensures { (result.elements ≡ elements) × (result.names ≡ name_count (book_of book.entry.bytes.now))
        × (result.roles ≡ role_count (book_of book.entry.bytes.now)) × (result.individuals ≡ individualsOf (book_of book.entry.bytes.now)) }
{
    let counts = book.counts();
    Shape {
        elements,
        names: counts.names,
        roles: counts.roles,
        individuals: counts.individuals,
    }
}

// Reads a placement of so many individuals, two bytes each.
fn read_placement(placement: &[u8], count: usize, seats: &mut [u16])
    requires { (2 * count ≤ length placement.now) × (count ≤ length seats.old) }
    ensures { take count seats.new ≡ placement_in placement.now count }
{
    for j in 0..count {
        seats[j] = encoding::word(placement, 2 * j) as u16;
    }
}

// Writes the sheet, where there is room for it: the marked types, with the individuals as placed.
fn write_marked(held: Held<'_>, p: Shape, sheet: &mut [u8])
    requires elements_value { let B = book_of held.marked.counted.book.bytes.now in
        (p.elements ≡ length (survivors_of B)) × (p.names ≡ name_count B) × (p.roles ≡ role_count B) × (p.individuals ≡ individualsOf B) }
    requires elements_bound { (p.elements ≤ 64) × (outcome_of (book_of held.marked.counted.book.bytes.now) ≡ 1) × (end_at p ≤ length sheet.old) }
    ensures { sheet.new ≡ model_bytes (book_of held.entry.marked.counted.book.bytes.now) ++ drop (end_at p) sheet.old }
{
    let book = held.marked.counted.book;
    let individuals = p.individuals;
    let mut seats = [0u16; 8];
    read_placement(held.placement, individuals, &mut seats);
    let mut types = [0u16; 64];
    let n = models::list_marked(held.marked.marks, held.marked.counted.count, &mut types);
    let grader = Grader::new(book.terms(), book.logic());
    let listed = Listed {
        types: &types[..n],
        seats: &seats[..individuals],
        names: p.names,
        roles: p.roles,
    };
    models::write_model(&grader, book.sections.steps, listed, sheet);
}

// Check 19, and the sheet, of a book with outcome 1 and few survivors.
fn write_few(held: Held<'_>, sheet: &mut [u8]) -> Result<usize, Refusal>
    requires { (outcome_of (book_of held.marked.counted.book.bytes.now) ≡ 1) × (held.answer.survivors ≤ 64) }
    ensures value { let B = book_of held.entry.marked.counted.book.bytes.now in result ≡ written_by B (model_questions B (length sheet.old)) }
    ensures sheet_after { let B = book_of held.entry.marked.counted.book.bytes.now in sheet.new ≡ sheet_by B (model_questions B (length sheet.old)) sheet.old }
{
    let p = shape_in(held.marked.counted.book, held.answer.survivors);
    let length = shapes::end_at(p);
    if sheet.len() < length {
        return Err(Refusal::SheetBuffer);
    }
    write_marked(held, p, sheet);
    Ok(length)
}

// Checks 17 to 19, and the sheet, of a book that is decided.
pub fn write_decided(held: Held<'_>, sheet: &mut [u8]) -> Result<usize, Refusal>
    ensures value { let B = book_of held.entry.marked.counted.book.bytes.now in result ≡ written_by B (model_questions B (length sheet.old)) }
    ensures sheet_after { let B = book_of held.entry.marked.counted.book.bytes.now in sheet.new ≡ sheet_by B (model_questions B (length sheet.old)) sheet.old }
{
    if held.answer.outcome != Outcome::HoldsTogether {
        return Err(Refusal::Outcome);
    }
    if 64 < held.answer.survivors {
        return Err(Refusal::Survivors);
    }
    write_few(held, sheet)
}
