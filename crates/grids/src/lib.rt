// The grades of all terms at all elements of a sheet.

#![tactic(auto)]

ghost use Rattle.columns.specs.Workable.{Workable};

use columns::{Columns, taken_at};
use gradings::Logic;
use sections::{Term, term_at};

// What grades are worked out from: a book's terms and its logic, and a sheet's grades of names at elements and of links between elements.
#[derive(Clone, Copy)]
pub struct Source<'a> {
    pub terms: &'a [u8],
    pub logic: Logic,
    pub elements: usize,
    pub names: usize,
    pub roles: usize,
    pub name_grades: &'a [u8],
    pub links: &'a [u8],
    ghost workable: { Workable terms.now logic elements names roles name_grades.now links.now },
}

impl Source<'_> {
    ghost use Rattle.std.specs.Prelude.{◌≡◌, ◌+◌, ◌*◌, ◌<◌, length, get_or};
    ghost use Rattle.sections.specs.Terms.{term_count};
    ghost use Rattle.grids.specs.Sources.{WorkedTo, WorkedAll, grade_of};

    // ---- one term at one element

    fn name_grade(&self, name: u8, e: usize) -> u8
        requires { self.now.names * e + name < length self.now.name_grades.now }
        ensures { result ≡ get_or self.now.name_grades.now (self.now.names * e + name) 0 }
    {
        self.name_grades[self.names * e + usize::from(name)]
    }

    // The grade of term `i` at `e`, from the columns of the terms below it.
    fn grade(&self, i: usize, columns: &Columns, e: usize) -> u8
        requires i_bound { (i < term_count self.now.terms.now) × (e < self.now.elements) }
        requires worked_to { WorkedTo self.now i columns.now }
        ensures { result ≡ grade_of self.now columns.now i e }
    {
        let logic = self.logic;
        match term_at(self.terms, i) {
            Term::Name(name) => self.name_grade(name, e),
            Term::Not(x) => logic.negation(columns.cell(x, e)),
            Term::And(x, y) => logic.conjunction(columns.cell(x, e), columns.cell(y, e)),
            Term::Or(x, y) => logic.disjunction(columns.cell(x, e), columns.cell(y, e)),
            Term::Quantified {
                quantifier,
                role,
                child,
            } => taken_at(
                logic,
                quantifier,
                self.elements,
                self.links,
                role,
                columns,
                child,
                e,
            ),
            Term::Top => logic.steps,
            Term::Bottom => 0,
        }
    }

    // ---- all terms at all elements

    // Fills the column of term `i` from those of the terms below it.
    fn fill_column(&self, i: usize, columns: &mut Columns)
        requires i_bound { i < term_count self.now.terms.now }
        requires worked_to { WorkedTo self.now i columns.old }
        ensures { WorkedTo self.now (i + 1) columns.new }
    {
        for e in 0..self.elements {
            let g = self.grade(i, columns, e);
            columns.set(i, e, g);
        }
    }

    // Fills the columns, term by term, so that children come first.
    pub fn work_out(&self, columns: &mut Columns)
        ensures { WorkedAll self.now columns.new }
    {
        for i in 0..self.terms.len() / 3 {
            self.fill_column(i, columns);
        }
    }
}
