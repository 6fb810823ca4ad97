// The table of implied rules: which terms' grades never exceed which others', in any finite interpretation that meets a book's rules and pairs.

#![tactic(auto)]

ghost use Rattle.std.specs.Prelude.{◌≡◌, ◌++◌, ◌≤◌, length, drop};
ghost use Rattle.refusals.specs.Questions.{first_no};
ghost use Rattle.refusals.specs.Answers.{refusal_in};
ghost use Rattle.book.specs.Reading.{book_of};
ghost use Rattle.elimination.specs.Survivors.{survivors_of};
ghost use Rattle.marking.specs.Marking.{marked_in};
ghost use Rattle.subsumption.specs.Subsumption.{implied_table};
ghost use Rattle.implied.specs.Implying.{table_size, implied_questions, implied_of, table_marks_after, table_after};

use book::Book;
use counter::Counted;
use grades::Grader;
use refusals::Refusal;

// Marks the survivors and fills the table, where every check says yes.
fn fill_checked(counted: Counted<'_>, marks: &mut [u8], table: &mut [u8]) -> usize
    requires marks_long { counted.count ≤ length marks.old }
    requires table_long { table_size (book_of counted.book.bytes.now) ≤ length table.old }
    ensures value { result ≡ length (survivors_of (book_of counted.entry.book.bytes.now)) }
    ensures marks_after { marks.new ≡ marked_in (book_of counted.entry.book.bytes.now) marks.old }
    ensures table_after { table.new ≡ implied_table (book_of counted.entry.book.bytes.now).grading (survivors_of (book_of counted.entry.book.bytes.now))
        ++ drop (table_size (book_of counted.entry.book.bytes.now)) table.old }
{
    let book = counted.book;
    let survivors = outcomes::mark_checked(counted, marks);
    let grader = Grader::new(book.terms(), book.logic());
    subsumption::fill_table(&grader, marks, counted.count, table);
    survivors
}

// Checks 11 and 23, and fills both buffers.
fn imply_counted(counted: Counted<'_>, marks: &mut [u8], table: &mut [u8]) -> Result<usize, Refusal>
    ensures value { result ≡ implied_of counted.entry.book.bytes.now (length marks.old) (length table.old) }
    ensures marks_after { marks.new ≡ table_marks_after counted.entry.book.bytes.now (length table.old) marks.old }
    ensures table_after { table.new ≡ table_after counted.entry.book.bytes.now (length marks.old) table.old }
{
    if marks.len() < counted.count {
        return Err(Refusal::Marks);
    }
    let terms = counted.book.count_terms();
    if table.len() < terms * terms {
        return Err(Refusal::Table);
    }
    Ok(fill_checked(counted, marks, table))
}

// The table of an accepted book: the checks 10, 11 and 23 are made, and none before.
pub fn implied_in(book: Book<'_>, marks: &mut [u8], table: &mut [u8]) -> Result<usize, Refusal>
    ensures value { result ≡ implied_of book.entry.bytes.now (length marks.old) (length table.old) }
    ensures marks_after { marks.new ≡ table_marks_after book.entry.bytes.now (length table.old) marks.old }
    ensures table_after { table.new ≡ table_after book.entry.bytes.now (length marks.old) table.old }
{
    imply_counted(counter::count_book(book)?, marks, table)
}

// The table of implied rules of a book: marks the survivors, and sets a byte for each ordered pair of terms. Answers the number of survivors.
pub fn implied_rules(b: &[u8], marks: &mut [u8], table: &mut [u8]) -> Result<usize, Refusal>
    ensures value { result ≡ implied_of b.now (length marks.old) (length table.old) }
    ensures refused { refusal_in result ≡ first_no (implied_questions b.now (length marks.old) (length table.old)) }
    ensures marks_after { marks.new ≡ table_marks_after b.now (length table.old) marks.old }
    ensures table_after { table.new ≡ table_after b.now (length marks.old) table.old }
{
    implied_in(book::open(b)?, marks, table)
}
