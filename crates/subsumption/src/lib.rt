// The table of implied rules of listed types: each type of a marked candidate narrows the sets of terms that are not refuted.

#![tactic(auto)]

ghost use Rattle.std.specs.Prelude.{◌≡◌, ◌++◌, ℕ, ◌*◌, ◌<◌, ◌≤◌, length, drop};
ghost use Rattle.types.specs.Candidates.{grade_in};
ghost use Rattle.sections.specs.Terms.{term_count, terms_of};
ghost use Rattle.gradings.specs.Gradings.{grading};
ghost use Rattle.elimination.specs.Marks.{Marked, marked};
ghost use Rattle.subsumption.specs.Subsumption.{implied_table};
ghost use Rattle.term_sets.specs.Sets.{Narrowed};

use grades::Grader;
use term_sets::{narrow, suppose_all, write_sets};

// By the type of candidate `c`.
fn narrow_by(grader: &Grader, c: usize, sets: &mut [u64])
    requires { (term_count grader.now.terms.now ≤ length sets.old) × (c < 16384) }
    ensures { Narrowed (term_count grader.now.terms.now) sets.old sets.new (λ i j.
        grade_in (grading grader.now.logic (terms_of grader.now.terms.now)) c i
        ≤ grade_in (grading grader.now.logic (terms_of grader.now.terms.now)) c j) }
{
    let mut row = [0u8; 64];
    grader.fill_row(c, &mut row);
    let count = grader.terms.len() / 3;
    narrow(&row[..count], grader.logic.steps, sets);
}

// By the type of candidate `c`, if it is marked.
fn narrow_marked(grader: &Grader, marks: &[u8], c: usize, sets: &mut [u64])
    requires { (term_count grader.now.terms.now ≤ length sets.old) × (c < length marks.now) × (c < 16384) }
    ensures { Narrowed (term_count grader.now.terms.now) sets.old sets.new (λ i j. Marked marks.now c
        → grade_in (grading grader.now.logic (terms_of grader.now.terms.now)) c i
        ≤ grade_in (grading grader.now.logic (terms_of grader.now.terms.now)) c j) }
{
    if marks[c] == 1 {
        narrow_by(grader, c, sets);
    }
}

// By the types of all marked candidates.
fn narrow_all(grader: &Grader, marks: &[u8], count: usize, sets: &mut [u64])
    requires { (term_count grader.now.terms.now ≤ length sets.old) × (count ≤ length marks.now) × (count ≤ 16384) }
    ensures { Narrowed (term_count grader.now.terms.now) sets.old sets.new (λ i j. (d : ℕ) → d < count → Marked marks.now d
        → grade_in (grading grader.now.logic (terms_of grader.now.terms.now)) d i
        ≤ grade_in (grading grader.now.logic (terms_of grader.now.terms.now)) d j) }
{
    for c in 0..count {
        narrow_marked(grader, marks, c, sets);
    }
}

// Fills the table of the marked candidates' types; the bytes past it are kept.
pub fn fill_table(grader: &Grader, marks: &[u8], count: usize, table: &mut [u8])
    requires count_bound { (count ≤ length marks.now) × (count ≤ 16384) }
    requires table_long { term_count grader.now.terms.now * term_count grader.now.terms.now ≤ length table.old }
    ensures { table.new ≡ implied_table (grading grader.now.logic (terms_of grader.now.terms.now)) (marked marks.now count)
        ++ drop (term_count grader.now.terms.now * term_count grader.now.terms.now) table.old }
{
    let n = grader.terms.len() / 3;
    let mut sets = [0u64; 64];
    suppose_all(n, &mut sets);
    narrow_all(grader, marks, count, &mut sets);
    write_sets(&sets, n, table);
}
