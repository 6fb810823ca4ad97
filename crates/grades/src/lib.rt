// Grades of terms in candidates, by rows: a candidate's type is the row of its grades.

#![tactic(auto)]

ghost use Rattle.std.specs.Prelude.{◌≡◌, ◌++◌, ℕ, ◌+◌, ◌*◌, ◌/◌, ◌%◌, ◌<◌, ◌≤◌, length, get_or, take, drop};
ghost use Rattle.types.specs.Candidates.{home as home_of, grade_in};
ghost use Rattle.gradings.specs.Gradings.{grading};
ghost use Rattle.places.specs.Homes.{HomesOf};
ghost use Rattle.sections.specs.Terms.{term_count, terms_of, TermsRight};
ghost use Rattle.grades.specs.Rows.{row_of, HasGrades, entry, row_at};
ghost use Rattle.grades.specs.OneTerm.{next_grade, rest_after, grade_of_place, rest_of_place};

use gradings::Logic;
use places::find_homes;
use sections::{Term, term_at};

// ---- the row of a candidate

// A term's grade, and what it leaves of a candidate's digits: 32 bits, which are divided faster than 64.
#[derive(Clone, Copy)]
struct Graded {
    grade: u8,
    rest: u32,
}

// What the row of a candidate is worked out from: a section of terms, the logic, and the home of each term, which is found once, however many rows
// there are to fill.
#[derive(Clone, Copy)]
pub struct Grader<'a> {
    pub terms: &'a [u8],
    pub logic: Logic,
    homes: [u8; 64],
    pub ghost terms_right: { TermsRight terms.now },
    pub ghost terms_few: { term_count terms.now ≤ 64 },
    ghost homes_are: { HomesOf terms.now homes },
}

impl<'a> Grader<'a> {
    pub fn new(terms: &'a [u8], logic: Logic) -> Self
        requires terms_right { TermsRight terms.now }
        requires terms_few { term_count terms.now ≤ 64 }
        ensures terms_are { result.terms.now ≡ terms.now }
        ensures logic_is { result.logic ≡ logic }
    {
        Grader {
            terms,
            logic,
            homes: find_homes(terms),
        }
    }

    // The next term's, where it opens a place: the lowest digit in base steps + 1, which is taken off.
    fn digit_grade(&self, rest: u32) -> Graded
        ensures { (result.grade ≡ rest % (self.now.logic.steps + 1)) × (result.rest ≡ rest / (self.now.logic.steps + 1)) }
    {
        let base = u32::from(self.logic.steps) + 1;
        Graded {
            grade: (rest % base) as u8,
            rest: rest / base,
        }
    }

    // The next term's, where it has a place: that of the earlier term which opens the place, or the next digit.
    fn place_grade(&self, rest: u32, earlier: &[u8]) -> Graded
        requires is_next { length earlier.now < term_count self.now.terms.now }
        ensures grade_value { result.grade ≡ grade_of_place (rest % (self.now.logic.steps + 1))
            (home_of (terms_of self.now.terms.now) (length earlier.now)) earlier.now }
        ensures rest_value { result.rest ≡ rest_of_place (self.now.logic.steps + 1)
            (home_of (terms_of self.now.terms.now) (length earlier.now)) earlier.now rest }
    {
        let home = usize::from(self.homes[earlier.len()]);
        if home < earlier.len() {
            let grade = earlier[home];
            return Graded { grade, rest };
        }
        self.digit_grade(rest)
    }

    // The next term's grade, where `earlier` has the grades of the terms before it.
    fn term_grade(&self, rest: u32, earlier: &[u8]) -> Graded
        requires is_next { length earlier.now < term_count self.now.terms.now }
        requires on_chain { (j : ℕ) → get_or earlier.now j 0 ≤ self.now.logic.steps }
        ensures grade_value { result.grade ≡ next_grade self.now.logic (rest % (self.now.logic.steps + 1))
            (home_of (terms_of self.now.terms.now) (length earlier.now)) self.now.terms.now earlier.now }
        ensures rest_value { result.rest ≡ rest_after (self.now.logic.steps + 1) (terms_of self.now.terms.now) (length earlier.now) rest }
    {
        let logic = self.logic;
        match term_at(self.terms, earlier.len()) {
            Term::Not(x) => Graded {
                grade: logic.negation(earlier[usize::from(x)]),
                rest,
            },
            Term::And(x, y) => Graded {
                grade: logic.conjunction(earlier[usize::from(x)], earlier[usize::from(y)]),
                rest,
            },
            Term::Or(x, y) => Graded {
                grade: logic.disjunction(earlier[usize::from(x)], earlier[usize::from(y)]),
                rest,
            },
            Term::Top => Graded {
                grade: logic.steps,
                rest,
            },
            Term::Bottom => Graded { grade: 0, rest },
            // It opens its place, so no home is looked at.
            Term::Quantified { .. } => self.digit_grade(rest),
            Term::Name(_) => self.place_grade(rest, earlier),
        }
    }

    // Fills the row with the grades of all terms in candidate `c`, in one pass: each term that opens a place takes the next digit of `c`.
    pub fn fill_row(&self, c: usize, row: &mut [u8])
        requires c_bound { c < 4294967296 }
        requires row_long { term_count self.now.terms.now ≤ length row.old }
        ensures { row.new ≡ row_of (grading self.now.logic (terms_of self.now.terms.now)) c ++ drop (term_count self.now.terms.now) row.old }
    {
        let mut rest = c as u32;
        for i in 0..self.terms.len() / 3 {
            let g = self.term_grade(rest, &row[..i]);
            row[i] = g.grade;
            rest = g.rest;
        }
    }

    // The grade of term `i` in candidate `c`.
    pub fn grade_of(&self, c: usize, i: usize) -> u8
        requires c_bound { c < 4294967296 }
        requires i_bound { i < term_count self.now.terms.now }
        ensures { result ≡ grade_in (grading self.now.logic (terms_of self.now.terms.now)) c i }
    {
        let mut row = [0u8; 64];
        self.fill_row(c, &mut row);
        row[i]
    }

    // Makes the row of candidate `c` row `k` of a table. Those before it stay.
    pub fn put_row(&self, c: usize, rows: &mut [u8], k: usize)
        requires c_bound { c < 4294967296 }
        requires rows_long { 64 * k + 64 ≤ length rows.old }
        ensures rows_unchanged { take (64 * k) rows.new ≡ take (64 * k) rows.old }
        ensures has_grades { HasGrades (grading self.now.logic (terms_of self.now.terms.now)) c (row_at rows.new k) }
    {
        let start = 64 * k;
        self.fill_row(c, &mut rows[start..start + 64]);
    }
}

// ---- a table of rows, 64 bytes each

// Row `k`.
pub fn row_at(rows: &[u8], k: usize) -> &[u8]
    requires { 64 * k + 64 ≤ length rows.now }
    ensures { result.now ≡ row_at rows.now k }
{
    let start = 64 * k;
    let end = start + 64;
    &rows[start..end]
}
