// Marks the survivors of an accepted book, where its marks suffice; and what that and placing are equipped with.

#![tactic(auto)]

ghost use Rattle.std.specs.Prelude.{◌≡◌, ◌*◌, ◌≤◌, length, take};
ghost use Rattle.book.specs.Reading.{book_of};
ghost use Rattle.elimination.specs.Marks.{marked};
ghost use Rattle.elimination.specs.Survivors.{survivors_of};
ghost use Rattle.marking.specs.Marking.{marked_in};
ghost use Rattle.marking.specs.Equipped.{Equipped};

use counter::Counted;
use gradings::Logic;

// The survivors of a counted book, as marks that list them. Who it is lent to reads the marks, and sets none.
#[derive(Clone, Copy)]
pub struct Marked<'a> {
    pub counted: Counted<'a>,
    pub marks: &'a [u8],
    pub ghost marks_long: { counted.count ≤ length marks.now },
    pub ghost listed: { marked marks.now counted.count ≡ survivors_of (book_of counted.book.bytes.now) },
}

// Collects the quantified terms into slots: the logic that stands for the book's grading, and how many there are.
pub fn equip(counted: Counted<'_>, slots: &mut [u8]) -> (Logic, usize)
    requires { 64 ≤ length slots.old }
    ensures { (result.1 ≤ 16) × Equipped counted.entry.book.bytes.now counted.entry.book.sections result.0 (take (4 * result.1) slots.new) }
{
    let book = counted.book;
    (book.logic(), slots::collect(book.terms(), slots))
}

// Marks the survivors among the candidates, and counts them. `Equipped` is no ghost field of a struct: it says that something exists, and those hold
// facts with one proof.
fn mark_by(counted: Counted<'_>, logic: Logic, slots: &[u8], marks: &mut [u8]) -> usize
    requires equipped { Equipped counted.book.bytes.now counted.book.sections logic slots.now }
    requires marks_long { counted.count ≤ length marks.old }
    ensures value { result ≡ length (survivors_of (book_of counted.entry.book.bytes.now)) }
    ensures marks_after { marks.new ≡ marked_in (book_of counted.entry.book.bytes.now) marks.old }
{
    let book = counted.book;
    eliminator::eliminate(
        logic,
        book.terms(),
        slots,
        book.rules(),
        counted.count,
        marks,
    )
}

// The same of an accepted book: every call that marks goes by it.
pub fn mark(counted: Counted<'_>, marks: &mut [u8]) -> usize
    requires { counted.count ≤ length marks.old }
    ensures value { result ≡ length (survivors_of (book_of counted.entry.book.bytes.now)) }
    ensures marks_after { marks.new ≡ marked_in (book_of counted.entry.book.bytes.now) marks.old }
{
    let mut slots = [0u8; 64];
    let (logic, m) = equip(counted, &mut slots);
    mark_by(counted, logic, &slots[..4 * m], marks)
}
