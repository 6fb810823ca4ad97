// An opened book remembers the bytes it was opened from, so later questions need no second opening. Each question calls the function on an accepted
// book; what it answers and writes is what the call on bytes answers and writes. No check of the book is made again: a question requires `Right`, which
// says that they all said yes and that these are the book's sections. `book::open` gives it.

#![tactic(auto)]

ghost use Rattle.std.specs.Prelude.{◌≡◌, length};
ghost use Rattle.book.specs.Opening.{Right};
ghost use Rattle.counter.specs.Counting.{counted_of};
ghost use Rattle.asking.specs.Asking.{grade_answer, link_answer};
ghost use Rattle.checker.specs.Working.{worked_of, grid_after};
ghost use Rattle.decider.specs.Deciding.{decision_of, marks_after, placement_after};
ghost use Rattle.implied.specs.Implying.{implied_of, table_marks_after, table_after};
ghost use Rattle.written.specs.Writing.{written_of, sheet_after};

use decisions::Decision;
use layout::Sections;
use refusals::Refusal;
use working::Verdict;

// Not `book::Book`: the documents promise a caller of `hold` that it asks for nothing, and the questions then for `Right`.
#[derive(Clone, Copy)]
pub struct Book<'a> {
    pub bytes: &'a [u8],
    pub sections: Sections,
}

// The opened book of the sections that `book::open` gives for its bytes.
pub fn hold<'a>(bytes: &'a [u8], sections: Sections) -> Book<'a>
    ensures { (result.bytes ≡ bytes.entry) × (result.sections ≡ sections) }
{
    Book { bytes, sections }
}

impl<'a> Book<'a> {
    // The same book, as one that was accepted.
    fn accepted(self) -> book::Book<'a>
        requires { Right self.bytes.now self.sections }
        ensures { result.bytes.now ≡ self.entry.bytes.now }
    {
        book::Book {
            bytes: self.bytes,
            sections: self.sections,
        }
    }

    // The number of candidates.
    pub fn count(self) -> Result<u64, Refusal>
        requires { Right self.bytes.now self.sections }
        ensures { result ≡ counted_of self.entry.bytes.now }
    {
        counter::count_in(self.accepted())
    }

    // The grade of term `i` in candidate `c`.
    pub fn grade(self, c: usize, i: usize) -> Result<u8, Refusal>
        requires { Right self.bytes.now self.sections }
        ensures { result ≡ grade_answer self.entry.bytes.now c i }
    {
        asking::grade_in(self.accepted(), c, i)
    }

    // The link from candidate `c` to candidate `e` for a role.
    pub fn link(self, role: u8, c: usize, e: usize) -> Result<u8, Refusal>
        requires { Right self.bytes.now self.sections }
        ensures { result ≡ link_answer self.entry.bytes.now role c e }
    {
        asking::link_in(self.accepted(), role, c, e)
    }

    // Works out a sheet.
    pub fn work_out<'b, 'c>(self, sheet: &'b [u8], grid: &'c mut [u8]) -> Result<Verdict, Refusal>
        requires { Right self.bytes.now self.sections }
        ensures value { result ≡ worked_of self.entry.bytes.now sheet.now (length grid.old) }
        ensures grid_after { grid.new ≡ grid_after self.entry.bytes.now sheet.now grid.old }
    {
        checker::work_in(self.accepted(), sheet, grid)
    }

    // Decides.
    pub fn decide<'b, 'c>(
        self,
        marks: &'b mut [u8],
        placement: &'c mut [u8],
    ) -> Result<Decision, Refusal>
        requires { Right self.bytes.now self.sections }
        ensures value { result ≡ decision_of self.entry.bytes.now (length marks.old) (length placement.old) }
        ensures marks_after { marks.new ≡ marks_after self.entry.bytes.now (length placement.old) marks.old }
        ensures placement_after { placement.new ≡ placement_after self.entry.bytes.now (length marks.old) placement.old }
    {
        decider::decide_in(self.accepted(), marks, placement)
    }

    // The table of implied rules.
    pub fn implied_rules<'b, 'c>(
        self,
        marks: &'b mut [u8],
        table: &'c mut [u8],
    ) -> Result<usize, Refusal>
        requires { Right self.bytes.now self.sections }
        ensures value { result ≡ implied_of self.entry.bytes.now (length marks.old) (length table.old) }
        ensures marks_after { marks.new ≡ table_marks_after self.entry.bytes.now (length table.old) marks.old }
        ensures table_after { table.new ≡ table_after self.entry.bytes.now (length marks.old) table.old }
    {
        implied::implied_in(self.accepted(), marks, table)
    }

    // Decides, and writes the sheet of the model.
    pub fn write_sheet<'b, 'c, 'd>(
        self,
        marks: &'b mut [u8],
        placement: &'c mut [u8],
        sheet: &'d mut [u8],
    ) -> Result<usize, Refusal>
        requires { Right self.bytes.now self.sections }
        ensures value { result ≡ written_of self.entry.bytes.now (length marks.old) (length placement.old) (length sheet.old) }
        ensures marks_after { marks.new ≡ marks_after self.entry.bytes.now (length placement.old) marks.old }
        ensures placement_after { placement.new ≡ placement_after self.entry.bytes.now (length marks.old) placement.old }
        ensures sheet_after { sheet.new ≡ sheet_after self.entry.bytes.now (length marks.old) (length placement.old) sheet.old }
    {
        writer::write_in(self.accepted(), marks, placement, sheet)
    }
}

// For callers whose parameters are plain: the opened book is made within.
pub fn decide<'a, 'b, 'c>(
    bytes: &'a [u8],
    sections: Sections,
    marks: &'b mut [u8],
    placement: &'c mut [u8],
) -> Result<Decision, Refusal>
    requires { Right bytes.now sections }
    ensures value { result ≡ decision_of bytes.now (length marks.old) (length placement.old) }
    ensures marks_after { marks.new ≡ marks_after bytes.now (length placement.old) marks.old }
    ensures placement_after { placement.new ≡ placement_after bytes.now (length marks.old) placement.old }
{
    hold(bytes, sections).decide(marks, placement)
}
