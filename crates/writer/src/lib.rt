// Decides a book, and writes the sheet of the model that its survivors and their placement are.

#![tactic(auto)]

ghost use Rattle.std.specs.Prelude.{◌≡◌, length};
ghost use Rattle.refusals.specs.Questions.{first_no};
ghost use Rattle.refusals.specs.Answers.{refusal_in};
ghost use Rattle.decider.specs.Deciding.{marks_after, placement_after};
ghost use Rattle.written.specs.Writing.{write_questions, written_of, sheet_after};

use book::Book;
use counter::Counted;
use marking::Marked;
use refusals::Refusal;
use written::Held;

// Decides, and goes on with what was decided.
fn write_counted(
    counted: Counted<'_>,
    marks: &mut [u8],
    placement: &mut [u8],
    sheet: &mut [u8],
) -> Result<usize, Refusal>
    ensures value { result ≡ written_of counted.entry.book.bytes.now (length marks.old) (length placement.old) (length sheet.old) }
    ensures marks_after { marks.new ≡ marks_after counted.entry.book.bytes.now (length placement.old) marks.old }
    ensures placement_after { placement.new ≡ placement_after counted.entry.book.bytes.now (length marks.old) placement.old }
    ensures sheet_after { sheet.new ≡ sheet_after counted.entry.book.bytes.now (length marks.old) (length placement.old) sheet.old }
{
    let answer = decider::decide_counted(counted, marks, placement)?;
    let marked = Marked { counted, marks };
    written::write_decided(
        Held {
            marked,
            placement,
            answer,
        },
        sheet,
    )
}

// Writes the sheet of an accepted book: no check before 10 is made.
pub fn write_in(
    book: Book<'_>,
    marks: &mut [u8],
    placement: &mut [u8],
    sheet: &mut [u8],
) -> Result<usize, Refusal>
    ensures value { result ≡ written_of book.entry.bytes.now (length marks.old) (length placement.old) (length sheet.old) }
    ensures marks_after { marks.new ≡ marks_after book.entry.bytes.now (length placement.old) marks.old }
    ensures placement_after { placement.new ≡ placement_after book.entry.bytes.now (length marks.old) placement.old }
    ensures sheet_after { sheet.new ≡ sheet_after book.entry.bytes.now (length marks.old) (length placement.old) sheet.old }
{
    write_counted(counter::count_book(book)?, marks, placement, sheet)
}

// Decides a book, and writes the sheet of its model.
pub fn write_sheet(
    b: &[u8],
    marks: &mut [u8],
    placement: &mut [u8],
    sheet: &mut [u8],
) -> Result<usize, Refusal>
    ensures value { result ≡ written_of b.now (length marks.old) (length placement.old) (length sheet.old) }
    ensures refused { refusal_in result ≡ first_no (write_questions b.now (length marks.old) (length placement.old) (length sheet.old)) }
    ensures marks_after { marks.new ≡ marks_after b.now (length placement.old) marks.old }
    ensures placement_after { placement.new ≡ placement_after b.now (length marks.old) placement.old }
    ensures sheet_after { sheet.new ≡ sheet_after b.now (length marks.old) (length placement.old) sheet.old }
{
    write_in(book::open(b)?, marks, placement, sheet)
}
