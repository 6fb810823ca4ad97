// Decides a book: the survivors by elimination, then the first placement of its individuals at them.

#![tactic(auto)]

ghost use Rattle.std.specs.Prelude.{◌≡◌, length};
ghost use Rattle.refusals.specs.Questions.{first_no};
ghost use Rattle.refusals.specs.Answers.{refusal_in};
ghost use Rattle.decider.specs.Deciding.{decide_questions, decision_of, marks_after, placement_after};

use book::Book;
use counter::Counted;
use decisions::Decision;
use refusals::Refusal;

// Checks 11 and 12, and decides.
pub fn decide_counted(
    counted: Counted<'_>,
    marks: &mut [u8],
    placement: &mut [u8],
) -> Result<Decision, Refusal>
    ensures value { result ≡ decision_of counted.entry.book.bytes.now (length marks.old) (length placement.old) }
    ensures marks_after { marks.new ≡ marks_after counted.entry.book.bytes.now (length placement.old) marks.old }
    ensures placement_after { placement.new ≡ placement_after counted.entry.book.bytes.now (length marks.old) placement.old }
{
    if marks.len() < counted.count {
        return Err(Refusal::Marks);
    }
    if placement.len() < 16 {
        return Err(Refusal::Placement);
    }
    Ok(outcomes::decide_checked(counted, marks, placement))
}

// Decides an accepted book: the checks 10 to 12 are made, and none before.
pub fn decide_in(
    book: Book<'_>,
    marks: &mut [u8],
    placement: &mut [u8],
) -> Result<Decision, Refusal>
    ensures value { result ≡ decision_of book.entry.bytes.now (length marks.old) (length placement.old) }
    ensures marks_after { marks.new ≡ marks_after book.entry.bytes.now (length placement.old) marks.old }
    ensures placement_after { placement.new ≡ placement_after book.entry.bytes.now (length marks.old) placement.old }
{
    decide_counted(counter::count_book(book)?, marks, placement)
}

// Decides a book: marks the survivors, and for outcome 1 writes the placement.
pub fn decide(b: &[u8], marks: &mut [u8], placement: &mut [u8]) -> Result<Decision, Refusal>
    ensures value { result ≡ decision_of b.now (length marks.old) (length placement.old) }
    ensures refused { refusal_in result ≡ first_no (decide_questions b.now (length marks.old) (length placement.old)) }
    ensures marks_after { marks.new ≡ marks_after b.now (length placement.old) marks.old }
    ensures placement_after { placement.new ≡ placement_after b.now (length marks.old) placement.old }
{
    decide_in(book::open(b)?, marks, placement)
}
