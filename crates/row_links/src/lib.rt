// The link of two candidates, by the rows of their grades.

#![tactic(auto)]

ghost use Rattle.std.specs.Prelude.{◌≡◌, ◌+◌, ◌*◌, ◌/◌, ◌<◌, ◌≤◌, length};
ghost use Rattle.chain.specs.Decisions.{Tells};
ghost use Rattle.semantics.specs.Links.{TermAllows, Allows, link_between};
ghost use Rattle.types.specs.Links.{link};
ghost use Rattle.gradings.specs.Gradings.{grading};
ghost use Rattle.sections.specs.Terms.{term_count, terms_of};
ghost use Rattle.grades.specs.Rows.{entry};

use grades::Grader;
use sections::{Term, term_at};

// Does term `i` allow a link of grade `level` from the first row to the second?
fn term_allows(grader: &Grader, role: u8, level: u8, first: &[u8], second: &[u8], i: usize) -> bool
    requires level_le_steps { level ≤ grader.now.logic.steps }
    requires rows_long { (term_count grader.now.terms.now ≤ length first.now) × (term_count grader.now.terms.now ≤ length second.now) }
    requires is_term { i < term_count grader.now.terms.now }
    ensures { Tells result (TermAllows (grading grader.now.logic (terms_of grader.now.terms.now)) role (entry first.now) (entry second.now) level i) }
{
    // Most terms are not quantified, and of these the kind tells by itself: this is the innermost step of a written sheet.
    let kind = grader.terms[3 * i];
    if kind < 4 {
        return true;
    }
    if 5 < kind {
        return true;
    }
    match term_at(grader.terms, i) {
        Term::Quantified {
            quantifier,
            role: own,
            child,
        } => {
            !grader.logic.governs(own, role)
                || grader
                    .logic
                    .permits(quantifier, level, second[usize::from(child)], first[i])
        }
        _ => true,
    }
}

// Is a link of grade `level` allowed from the first row to the second? The first term that does not allow it decides.
fn rows_allow(grader: &Grader, role: u8, level: u8, first: &[u8], second: &[u8]) -> bool
    requires level_le_steps { level ≤ grader.now.logic.steps }
    requires rows_long { (term_count grader.now.terms.now ≤ length first.now) × (term_count grader.now.terms.now ≤ length second.now) }
    ensures { Tells result (Allows (grading grader.now.logic (terms_of grader.now.terms.now)) role (entry first.now) (entry second.now) level) }
{
    (0..grader.terms.len() / 3).all(|i| term_allows(grader, role, level, first, second, i))
}

// The link from the first row to the second: the greatest that is allowed, from the highest grade downward.
pub fn link_of_rows(grader: &Grader, role: u8, first: &[u8], second: &[u8]) -> u8
    requires rows_long { (term_count grader.now.terms.now ≤ length first.now) × (term_count grader.now.terms.now ≤ length second.now) }
    ensures { result ≡ link_between (grading grader.now.logic (terms_of grader.now.terms.now)) role (entry first.now) (entry second.now) }
{
    for level in (1..=grader.logic.steps).rev() {
        if rows_allow(grader, role, level, first, second) {
            return level;
        }
    }
    0
}

// The link from candidate `c` to candidate `d`.
pub fn link_of(grader: &Grader, role: u8, c: usize, d: usize) -> u8
    requires { (c < 4294967296) × (d < 4294967296) }
    ensures { result ≡ link (grading grader.now.logic (terms_of grader.now.terms.now)) role c d }
{
    let mut first = [0u8; 64];
    grader.fill_row(c, &mut first);
    let mut second = [0u8; 64];
    grader.fill_row(d, &mut second);
    link_of_rows(grader, role, &first, &second)
}
