// Opens a book: its head and layout are checked here, each body by its section's own checker.

#![tactic(auto)]

ghost use Rattle.std.specs.Prelude.{◌≡◌, ◌≤◌, MatchResult, Ok};
ghost use mathlib.Core.Option.{some};
ghost use Rattle.refusals.specs.Questions.{first_no};
ghost use Rattle.refusals.specs.Answers.{refusal_in};
ghost use Rattle.sections.specs.Terms.{terms_of};
ghost use Rattle.gradings.specs.Gradings.{grading};
ghost use Rattle.layout.specs.Layout.{sections_of, InOrder, term_bytes, rule_bytes, membership_bytes, link_bytes, pair_bytes, terms_in};
ghost use Rattle.book.specs.Reading.{book_of, counts_of};
ghost use Rattle.book.specs.Opening.{body_questions, book_questions, opened_of};

use gradings::Logic;
use layout::Sections;
use refusals::Refusal;

// A, R and I: how many names, roles and individuals a book has.
#[derive(Clone, Copy)]
pub struct Counts {
    pub names: usize,
    pub roles: usize,
    pub individuals: usize,
}

// An accepted book: its bytes, and where its sections stand in them. That they are `Right` follows (`opened_accepted`), and is no ghost field: those
// hold facts with one proof, as an equation.
#[derive(Clone, Copy)]
pub struct Book<'a> {
    pub bytes: &'a [u8],
    pub sections: Sections,
    pub ghost opened: { opened_of bytes.now ≡ Ok sections },
}

// ---- opening

// Each body goes to its own checker: 6 to 9 and 22, in order.
fn check_bodies(b: &[u8], s: Sections) -> Result<(), Refusal>
    requires { InOrder b.now s }
    ensures { refusal_in result ≡ first_no (body_questions b.now s) }
{
    let count = layout::count_terms(s);
    if !sections::terms_right(layout::terms_in(b, s)) {
        return Err(Refusal::Terms);
    }
    if !claim_checks::rules_right(layout::rules_in(b, s), count) {
        return Err(Refusal::Rules);
    }
    if !claim_checks::memberships_right(layout::memberships_in(b, s), s.steps, count) {
        return Err(Refusal::MembershipClaims);
    }
    if !claim_checks::links_right(layout::links_in(b, s), s.steps) {
        return Err(Refusal::LinkClaims);
    }
    if !claim_checks::pairs_right(layout::pairs_in(b, s)) {
        return Err(Refusal::Pairs);
    }
    Ok(())
}

// The head and the layout, 1 to 5, in order: where the sections stand, and only what the bodies are asked is left.
fn check_layout(b: &[u8]) -> Result<Sections, Refusal>
    ensures { MatchResult result
        (λ s. (s ≡ sections_of b.now) × InOrder b.now s × (first_no (book_questions b.now) ≡ first_no (body_questions b.now s)))
        (λ r. first_no (book_questions b.now) ≡ some r) }
{
    if !heads::length_right(b) {
        return Err(Refusal::BookLength);
    }
    if !heads::edition_right(b) {
        return Err(Refusal::Edition);
    }
    if !heads::steps_right(b) {
        return Err(Refusal::Steps);
    }
    if !heads::counts_right(b) {
        return Err(Refusal::Counts);
    }
    let s = layout::sections_of(b);
    if !layout::laid_out(b, s) {
        return Err(Refusal::Layout);
    }
    Ok(s)
}

// Checks a book: 1 to 9 and 22, in order.
pub fn open(b: &[u8]) -> Result<Book<'_>, Refusal>
    ensures value { MatchResult result (λ book. (opened_of b.now ≡ Ok book.sections) × (book.bytes.now ≡ b.now)) (λ r. opened_of b.now ≡ Err r) }
    ensures refused { refusal_in result ≡ first_no (book_questions b.now) }
{
    let sections = check_layout(b)?;
    check_bodies(b, sections)?;
    Ok(Book { bytes: b, sections })
}

impl<'a> Book<'a> {
    // ---- the bytes of each section

    #[tactic(auto, using(crate::proofs::Opening::opened_ordered))]
    pub fn terms(self) -> &'a [u8]
        ensures { result.now ≡ term_bytes self.entry.bytes.now self.entry.sections }
    {
        layout::terms_in(self.bytes, self.sections)
    }

    #[tactic(auto, using(crate::proofs::Opening::opened_ordered))]
    pub fn rules(self) -> &'a [u8]
        ensures { result.now ≡ rule_bytes self.entry.bytes.now self.entry.sections }
    {
        layout::rules_in(self.bytes, self.sections)
    }

    #[tactic(auto, using(crate::proofs::Opening::opened_ordered))]
    pub fn memberships(self) -> &'a [u8]
        ensures { result.now ≡ membership_bytes self.entry.bytes.now self.entry.sections }
    {
        layout::memberships_in(self.bytes, self.sections)
    }

    #[tactic(auto, using(crate::proofs::Opening::opened_ordered))]
    pub fn links(self) -> &'a [u8]
        ensures { result.now ≡ link_bytes self.entry.bytes.now self.entry.sections }
    {
        layout::links_in(self.bytes, self.sections)
    }

    #[tactic(auto, using(crate::proofs::Opening::opened_ordered))]
    pub fn pairs(self) -> &'a [u8]
        ensures { result.now ≡ pair_bytes self.entry.bytes.now self.entry.sections }
    {
        layout::pairs_in(self.bytes, self.sections)
    }

    // ---- what they say

    // The number of terms.
    #[tactic(auto, using(crate::proofs::Opening::opened_counted))]
    pub fn count_terms(self) -> usize
        ensures { result ≡ terms_in self.entry.sections }
    {
        layout::count_terms(self.sections)
    }

    // How many names, roles and individuals it has.
    pub fn counts(self) -> Counts
        ensures value { result ≡ counts_of (book_of self.entry.bytes.now) }
        ensures names_bound { (result.names ≤ 16) × (result.roles ≤ 8) × (result.individuals ≤ 8) }
    {
        let links = self.links();
        let pairs = self.pairs();
        Counts {
            names: counts::count_names(self.terms()),
            roles: counts::count_roles(self.terms(), links, pairs),
            individuals: counts::count_individuals(self.memberships(), links),
        }
    }

    // What its grades are worked out by: with its terms, this stands for its grading.
    pub fn logic(self) -> Logic
        ensures s_value { grading result (terms_of (term_bytes self.entry.bytes.now self.entry.sections)) ≡ (book_of self.entry.bytes.now).grading }
        ensures le_steps { (1 ≤ result.steps) × (result.steps ≤ 8) }
    {
        gradings::ranked_logic(self.sections.steps, self.pairs())
    }
}
