// The grade of a term in a candidate, and the link of two candidates: entry points, each of which takes a book's bytes as they come and refuses by
// the first check that says no; and beside each the same of a book that is opened.

#![tactic(auto)]

ghost use Rattle.std.specs.Prelude.{◌≡◌};
ghost use Rattle.refusals.specs.Questions.{first_no};
ghost use Rattle.refusals.specs.Answers.{refusal_in};
ghost use Rattle.asking.specs.Asking.{grade_answer, link_answer, grade_questions, link_questions};

use book::Book;
use counter::Counted;
use grades::Grader;
use refusals::Refusal;

// ---- the grade of a term in a candidate

fn grade_counted(counted: Counted<'_>, c: usize, i: usize) -> Result<u8, Refusal>
    ensures { result ≡ grade_answer counted.entry.book.bytes.now c i }
{
    let book = counted.book;
    if counted.count <= c {
        return Err(Refusal::Candidate);
    }
    if book.count_terms() <= i {
        return Err(Refusal::TermOrRole);
    }
    Ok(Grader::new(book.terms(), book.logic()).grade_of(c, i))
}

// On an accepted book: check 10 is made, and none before.
pub fn grade_in(book: Book<'_>, c: usize, i: usize) -> Result<u8, Refusal>
    ensures { result ≡ grade_answer book.entry.bytes.now c i }
{
    grade_counted(counter::count_book(book)?, c, i)
}

// The grade of term `i` in candidate `c`.
pub fn grade(b: &[u8], c: usize, i: usize) -> Result<u8, Refusal>
    ensures value { result ≡ grade_answer b.now c i }
    ensures refused { refusal_in result ≡ first_no (grade_questions b.now c i) }
{
    grade_in(book::open(b)?, c, i)
}

// ---- the link of two candidates

fn link_counted(counted: Counted<'_>, role: u8, c: usize, d: usize) -> Result<u8, Refusal>
    ensures { result ≡ link_answer counted.entry.book.bytes.now role c d }
{
    let book = counted.book;
    if counted.count <= c {
        return Err(Refusal::Candidate);
    }
    if counted.count <= d {
        return Err(Refusal::Candidate);
    }
    if 8 <= role {
        return Err(Refusal::TermOrRole);
    }
    let grader = Grader::new(book.terms(), book.logic());
    Ok(row_links::link_of(&grader, role, c, d))
}

// On an accepted book: check 10 is made, and none before.
pub fn link_in(book: Book<'_>, role: u8, c: usize, d: usize) -> Result<u8, Refusal>
    ensures { result ≡ link_answer book.entry.bytes.now role c d }
{
    link_counted(counter::count_book(book)?, role, c, d)
}

// The link from candidate `c` to candidate `d` for a role.
pub fn link(b: &[u8], role: u8, c: usize, d: usize) -> Result<u8, Refusal>
    ensures value { result ≡ link_answer b.now role c d }
    ensures refused { refusal_in result ≡ first_no (link_questions b.now role c d) }
{
    link_in(book::open(b)?, role, c, d)
}
