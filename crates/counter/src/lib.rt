// Counts a book's candidates.

#![tactic(auto)]

ghost use Rattle.std.specs.Prelude.{◌≡◌, MatchResult, Ok};
ghost use Rattle.refusals.specs.Questions.{first_no};
ghost use Rattle.refusals.specs.Answers.{refusal_in};
ghost use Rattle.counter.specs.Counting.{candidate_questions, counted_of};

use book::Book;
use refusals::Refusal;

// An accepted book, and how many candidates it has: few enough to decide (`counted_small`).
#[derive(Clone, Copy)]
pub struct Counted<'a> {
    pub book: Book<'a>,
    pub count: usize,
    pub ghost counted: { counted_of book.bytes.now ≡ Ok count },
}

// The number of candidates of an accepted book: check 10 alone is made.
pub fn count_in(book: Book<'_>) -> Result<u64, Refusal>
    ensures { result ≡ counted_of book.entry.bytes.now }
{
    match places::count_candidates(book.terms(), book.sections.steps) {
        Some(n) => Ok(n),
        None => Err(Refusal::Candidates),
    }
}

// The same, with the book.
pub fn count_book(book: Book<'_>) -> Result<Counted<'_>, Refusal>
    ensures { MatchResult result (λ k. k.book ≡ book.entry) (λ r. counted_of book.entry.bytes.now ≡ Err r) }
{
    let count = count_in(book)? as usize;
    Ok(Counted { book, count })
}

// Checks a book, 1 to 9, 22 and 10, and counts its candidates.
pub fn count(b: &[u8]) -> Result<u64, Refusal>
    ensures value { result ≡ counted_of b.now }
    ensures refused { refusal_in result ≡ first_no (candidate_questions b.now) }
{
    count_in(book::open(b)?)
}
