// The quantified terms of a book, collected once, for eliminating and for placing; and the grades that links are judged by, as a row.

#![tactic(auto)]

ghost use Rattle.std.specs.Prelude.{◌≡◌, ◌+◌, ◌*◌, ◌<◌, ◌≤◌, length, get_or, take};
ghost use Rattle.types.specs.Candidates.{places};
ghost use Rattle.sections.specs.Terms.{term_count, terms_of};
ghost use Rattle.slots.specs.Slots.{slot_count, SlotsOf};
ghost use Rattle.slots.specs.Rows.{TermsBelow, SlotRow};
ghost use Rattle.slots.specs.Collecting.{SlotsCollected, with_slot};

use sections::{Term, read_term};

// ---- the slots

fn write_slot(slots: &mut [u8], m: usize, kind: u8, role: u8, child: u8, term: u8)
    requires { (m < 16) × (64 ≤ length slots.old) }
    ensures { slots.new ≡ with_slot slots.old m kind role child term }
{
    slots[4 * m..4 * m + 4].copy_from_slice(&[kind, role, child, term]);
}

// Writes term `i` as slot `m` where it is quantified. The number of slots.
fn put_slot(terms: &[u8], slots: &mut [u8], i: usize, m: usize) -> usize
    requires i_bound { (i < term_count terms.now) × (term_count terms.now ≤ 64) × (64 ≤ length slots.old) × (places (terms_of terms.now) ≤ 16) }
    requires slots_collected { SlotsCollected (terms_of terms.now) slots.old i m }
    ensures { SlotsCollected (terms_of terms.now) slots.new (i + 1) result }
{
    match read_term(terms, i) {
        Term::Quantified { role, child, .. } => {
            write_slot(slots, m, terms[3 * i], role, child, i as u8);
            m + 1
        }
        _ => m,
    }
}

// Writes the quantified terms as slots. Their number.
pub fn collect(terms: &[u8], slots: &mut [u8]) -> usize
    requires { (term_count terms.now ≤ 64) × (64 ≤ length slots.old) × (places (terms_of terms.now) ≤ 16) }
    ensures { (result ≤ 16) × SlotsOf (terms_of terms.now) (take (4 * result) slots.new) }
{
    let mut m = 0;
    for i in 0..terms.len() / 3 {
        m = put_slot(terms, slots, i, m);
    }
    m
}

// ---- the row of the slots

// Writes the row of the slots, from the row of all grades: the grades of their own terms, and behind these the grades of their children.
pub fn put_slot_row(slots: &[u8], row: &[u8], part: &mut [u8])
    requires { (2 * slot_count slots.now ≤ length part.old) × TermsBelow slots.now (length row.now) }
    ensures { SlotRow slots.now (λ i. get_or row.now i 0) part.new }
{
    let count = slots.len() / 4;
    for q in 0..count {
        let term = usize::from(slots[4 * q + 3]);
        let below = usize::from(slots[4 * q + 2]);
        part[q] = row[term];
        part[count + q] = row[below];
    }
}
