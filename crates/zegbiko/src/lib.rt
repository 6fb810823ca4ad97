// The entry points for callers in C (include/zegbiko.h): each answer is a struct of numbers, by value. A slice is two arguments there, a pointer
// and a length.

#![tactic(auto)]

ghost use Rattle.std.specs.Prelude.{◌≡◌, length};
ghost use Rattle.book.specs.Opening.{opened_of};
ghost use Rattle.counter.specs.Counting.{counted_of};
ghost use Rattle.asking.specs.Asking.{grade_answer, link_answer};
ghost use Rattle.checker.specs.Working.{worked_of, grid_after};
ghost use Rattle.decider.specs.Deciding.{decision_of, marks_after, placement_after};
ghost use Rattle.implied.specs.Implying.{implied_of, table_marks_after, table_after};
ghost use Rattle.written.specs.Writing.{written_of, sheet_after};
ghost use Rattle.numbers.specs.Numbers.{checked_number, counted_numbers, decided_numbers, implied_numbers, written_numbers, worked_numbers, graded_numbers};

use numbers::{
    CountedNumbers, DecidedNumbers, GradedNumbers, ImpliedNumbers, WorkedNumbers, WrittenNumbers,
    checked_number,
};

// Checks a book: 0, or the number of the first check that says no.
#[unsafe(no_mangle)]
pub extern "C" fn zegbiko_check(b: &[u8]) -> u8
    ensures { result ≡ checked_number (opened_of b.now) }
{
    match book::open(b) {
        Ok(book) => checked_number(Ok(book.sections)),
        Err(r) => checked_number(Err(r)),
    }
}

// Checks a book and counts its candidates.
#[unsafe(no_mangle)]
pub extern "C" fn zegbiko_count(b: &[u8]) -> CountedNumbers
    ensures { result ≡ counted_numbers (counted_of b.now) }
{
    CountedNumbers::from(counter::count(b))
}

// Decides a book.
#[unsafe(no_mangle)]
pub extern "C" fn zegbiko_decide(b: &[u8], marks: &mut [u8], placement: &mut [u8]) -> DecidedNumbers
    ensures value { result ≡ decided_numbers (decision_of b.now (length marks.old) (length placement.old)) }
    ensures marks_after { marks.new ≡ marks_after b.now (length placement.old) marks.old }
    ensures placement_after { placement.new ≡ placement_after b.now (length marks.old) placement.old }
{
    DecidedNumbers::from(decider::decide(b, marks, placement))
}

// Fills the table of a book's implied rules.
#[unsafe(no_mangle)]
pub extern "C" fn zegbiko_implied_rules(
    b: &[u8],
    marks: &mut [u8],
    table: &mut [u8],
) -> ImpliedNumbers
    ensures value { result ≡ implied_numbers (implied_of b.now (length marks.old) (length table.old)) }
    ensures marks_after { marks.new ≡ table_marks_after b.now (length table.old) marks.old }
    ensures table_after { table.new ≡ table_after b.now (length marks.old) table.old }
{
    ImpliedNumbers::from(implied::implied_rules(b, marks, table))
}

// Decides a book, and writes the sheet of its model.
#[unsafe(no_mangle)]
pub extern "C" fn zegbiko_write_sheet(
    b: &[u8],
    marks: &mut [u8],
    placement: &mut [u8],
    sheet: &mut [u8],
) -> WrittenNumbers
    ensures value { result ≡ written_numbers (written_of b.now (length marks.old) (length placement.old) (length sheet.old)) }
    ensures marks_after { marks.new ≡ marks_after b.now (length placement.old) marks.old }
    ensures placement_after { placement.new ≡ placement_after b.now (length marks.old) placement.old }
    ensures sheet_after { sheet.new ≡ sheet_after b.now (length marks.old) (length placement.old) sheet.old }
{
    WrittenNumbers::from(writer::write_sheet(b, marks, placement, sheet))
}

// Works out a sheet on a book.
#[unsafe(no_mangle)]
pub extern "C" fn zegbiko_work_out(b: &[u8], sheet: &[u8], grid: &mut [u8]) -> WorkedNumbers
    ensures value { result ≡ worked_numbers (worked_of b.now sheet.now (length grid.old)) }
    ensures grid_after { grid.new ≡ grid_after b.now sheet.now grid.old }
{
    WorkedNumbers::from(checker::work_out(b, sheet, grid))
}

// The grade of a term in a candidate.
#[unsafe(no_mangle)]
pub extern "C" fn zegbiko_grade(b: &[u8], candidate: usize, term: usize) -> GradedNumbers
    ensures { result ≡ graded_numbers (grade_answer b.now candidate term) }
{
    GradedNumbers::from(asking::grade(b, candidate, term))
}

// The link from one candidate to another for a role.
#[unsafe(no_mangle)]
pub extern "C" fn zegbiko_link(b: &[u8], role: u8, from: usize, to: usize) -> GradedNumbers
    ensures { result ≡ graded_numbers (link_answer b.now role from to) }
{
    GradedNumbers::from(asking::link(b, role, from, to))
}
