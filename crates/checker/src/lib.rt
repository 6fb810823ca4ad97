// Working out a sheet: the entry point, which takes a book's bytes as they come and refuses with the first check that says no; and beside it the
// same on a book that is opened.

#![tactic(auto)]

ghost use Rattle.std.specs.Prelude.{◌≡◌, ◌++◌, ◌≤◌, length, drop};
ghost use Rattle.refusals.specs.Questions.{first_no};
ghost use Rattle.refusals.specs.Answers.{refusal_in};
ghost use Rattle.book.specs.Reading.{book_of};
ghost use Rattle.working.specs.Grids.{grid_of};
ghost use Rattle.working.specs.Working.{verdict_of};
ghost use Rattle.sheets.specs.Reading.{sheet_of};
ghost use Rattle.checker.specs.Working.{grid_size, worked_of, grid_after, work_questions};
ghost use Rattle.checker.specs.Fitting.{SheetFits, Filled};

use book::Book;
use cells::Frame;
use columns::Columns;
use grids::Source;
use refusals::Refusal;
use shapes::Shape;
use working::Verdict;

// A sheet that fits an accepted book.
#[derive(Clone, Copy)]
struct Fitting<'a> {
    book: Book<'a>,
    sheet: &'a [u8],
    shape: Shape,
    ghost fits: { SheetFits book.bytes.now sheet.now shape },
}

impl Fitting<'_> {
    // The grades of all terms at all elements.
    fn fill_columns(&self, columns: &mut Columns)
        ensures { Filled self.now.book.bytes.now self.now.sheet.now columns.new }
    {
        let p = self.shape;
        let links = shapes::links_at(p);
        let individuals = shapes::individuals_at(p);
        let source = Source {
            terms: self.book.terms(),
            logic: self.book.logic(),
            elements: p.elements,
            names: p.names,
            roles: p.roles,
            name_grades: &self.sheet[12..links],
            links: &self.sheet[links..individuals],
        };
        source.work_out(columns);
    }

    // The verdict, by the grades in the columns.
    fn verdict_by(&self, columns: &Columns) -> Verdict
        requires { Filled self.now.book.bytes.now self.now.sheet.now columns.now }
        ensures { result ≡ verdict_of (book_of self.now.book.bytes.now) (sheet_of self.now.sheet.now) }
    {
        let p = self.shape;
        let links = shapes::links_at(p);
        let individuals = shapes::individuals_at(p);
        let end = shapes::end_at(p);
        let frame = Frame {
            elements: p.elements,
            links: &self.sheet[links..individuals],
            individuals: &self.sheet[individuals..end],
        };
        verdicts::verdict(
            self.book.rules(),
            self.book.pairs(),
            self.book.memberships(),
            self.book.links(),
            columns,
            &frame,
        )
    }

    // With room in the grid.
    fn work_fitting(&self, columns: &mut Columns, grid: &mut [u8]) -> Verdict
        requires { grid_size self.now.book.bytes.now self.now.sheet.now ≤ length grid.old }
        ensures value { result ≡ verdict_of (book_of self.now.book.bytes.now) (sheet_of self.now.sheet.now) }
        ensures grid_after { grid.new ≡ grid_of (book_of self.now.book.bytes.now).grading (sheet_of self.now.sheet.now) ++ drop (grid_size self.now.book.bytes.now self.now.sheet.now) grid.old }
    {
        self.fill_columns(columns);
        grid_rows::write_grid(columns, self.book.count_terms(), self.shape.elements, grid);
        self.verdict_by(columns)
    }

    fn work_shaped(&self, grid: &mut [u8]) -> Result<Verdict, Refusal>
        ensures value { result ≡ worked_of self.now.book.bytes.now self.now.sheet.now (length grid.old) }
        ensures grid_after { grid.new ≡ grid_after self.now.book.bytes.now self.now.sheet.now grid.old }
    {
        if grid.len() < self.shape.elements * self.book.count_terms() {
            return Err(Refusal::Grid);
        }
        let mut columns = Columns {
            cells: [[0; 64]; 64],
        };
        Ok(self.work_fitting(&mut columns, grid))
    }
}

// On an accepted book: no check of the book is made.
pub fn work_in(book: Book<'_>, sheet: &[u8], grid: &mut [u8]) -> Result<Verdict, Refusal>
    ensures value { result ≡ worked_of book.entry.bytes.now sheet.now (length grid.old) }
    ensures grid_after { grid.new ≡ grid_after book.entry.bytes.now sheet.now grid.old }
{
    let shape = sheets::open_sheet(sheet, book.sections.steps, book.counts())?;
    let fitting = Fitting { book, sheet, shape };
    fitting.work_shaped(grid)
}

// Works out a sheet on a book: the grid takes each element's row of term grades, and the verdict comes back.
pub fn work_out(b: &[u8], sheet: &[u8], grid: &mut [u8]) -> Result<Verdict, Refusal>
    ensures value { result ≡ worked_of b.now sheet.now (length grid.old) }
    ensures refused { refusal_in result ≡ first_no (work_questions b.now sheet.now (length grid.old)) }
    ensures grid_after { grid.new ≡ grid_after b.now sheet.now grid.old }
{
    work_in(book::open(b)?, sheet, grid)
}
