// The lines of the printout, added to a text in a buffer one after another.

#![tactic(auto)]

ghost use Rattle.std.specs.Prelude.{◌≡◌, ℕ, ◌+◌, ◌*◌, ◌<◌, ◌≤◌, length, take, get_or};
ghost use Rattle.std.proofs.Math.Logic.{ite};
ghost use mathlib.Core.List.{List, [], ◌∷◌, ◌++◌, flat_map};
ghost use Rattle.chain.specs.Lists.{from, keep};
ghost use Rattle.gradings.specs.Gradings.{grading};
ghost use Rattle.sections.specs.Terms.{term_count, terms_of, TermsRight};
ghost use Rattle.grades.specs.Rows.{row_of};
ghost use Rattle.encoding.specs.Words.{word_at};
ghost use Rattle.elimination.specs.Marks.{marked?};
ghost use Rattle.printout.specs.Text.{digit_byte, decimal, Added};
ghost use Rattle.printout.specs.Lines.{newline, refused_line, outcome_line, spaced, type_line, type_lines, individual_line, individual_lines};

use grades::Grader;
use gradings::Logic;

// Text in a buffer: its first `end` bytes. What writes keeps the reference (`same_buffer`), so that a caller knows its buffer afterwards.
#[derive(Drop)]
pub struct Text<'a> {
    pub buffer: &'a mut [u8],
    pub end: usize,
    ghost fits: { end ≤ length buffer.now },
}

impl<'a> Text<'a> {
    // No text yet.
    pub fn new(buffer: &'a mut [u8]) -> Text<'a>
        ensures empty { result.end ≡ 0 }
        ensures same { result.buffer.now ≡ buffer.old }
        ensures same_buffer { result.buffer.ghost_name ≡ buffer.entry.ghost_name }
    {
        Text { buffer, end: 0 }
    }

    pub fn bytes(&self) -> &[u8]
        ensures { result.now ≡ take self.now.end self.now.buffer.now }
    {
        &self.buffer[..self.end]
    }

    // ---- text and numbers

    fn put_byte(&mut self, byte: u8)
        requires { self.old.end < length self.old.buffer.now }
        ensures added { Added self.old.buffer.now self.old.end (byte ∷ []) self.new.buffer.now self.new.end }
        ensures same_buffer { self.new.buffer.ghost_name ≡ self.old.buffer.ghost_name }
    {
        self.buffer[self.end] = byte;
        self.end += 1;
    }

    fn put_text(&mut self, text: &[u8])
        requires { self.old.end + length text.now ≤ length self.old.buffer.now }
        ensures added { Added self.old.buffer.now self.old.end text.now self.new.buffer.now self.new.end }
        ensures same_buffer { self.new.buffer.ghost_name ≡ self.old.buffer.ghost_name }
    {
        let end = self.end + text.len();
        self.buffer[self.end..end].copy_from_slice(text);
        self.end = end;
    }

    fn put_digit(&mut self, d: usize)
        requires { (d < 10) × (self.old.end < length self.old.buffer.now) }
        ensures added { Added self.old.buffer.now self.old.end (digit_byte d ∷ []) self.new.buffer.now self.new.end }
        ensures same_buffer { self.new.buffer.ghost_name ≡ self.old.buffer.ghost_name }
    {
        self.put_byte(48 + d as u8);
    }

    // A number in decimal: its tenth, and then its last digit. By hand: std's `write!` into a slice answers an error where the room is used up.
    fn put_number(&mut self, n: usize)
        requires { self.old.end + length (decimal n) ≤ length self.old.buffer.now }
        ensures added { Added self.old.buffer.now self.old.end (decimal n) self.new.buffer.now self.new.end }
        ensures same_buffer { self.new.buffer.ghost_name ≡ self.old.buffer.ghost_name }
    {
        if n < 10 {
            self.put_digit(n);
            return;
        }
        self.put_number(n / 10);
        self.put_digit(n % 10);
    }

    // A number with words before it; a number has at most 20 digits.
    fn put_labelled(&mut self, label: &[u8], n: usize)
        requires { self.old.end + length label.now + 20 ≤ length self.old.buffer.now }
        ensures added { Added self.old.buffer.now self.old.end (label.now ++ decimal n) self.new.buffer.now self.new.end }
        ensures upper_bound { self.new.end ≤ self.old.end + length label.now + 20 }
        ensures same_buffer { self.new.buffer.ghost_name ≡ self.old.buffer.ghost_name }
    {
        self.put_text(label);
        self.put_number(n);
    }

    fn put_newline(&mut self)
        requires { self.old.end < length self.old.buffer.now }
        ensures added { Added self.old.buffer.now self.old.end newline self.new.buffer.now self.new.end }
        ensures same_buffer { self.new.buffer.ghost_name ≡ self.old.buffer.ghost_name }
    {
        self.put_byte(b'\n');
    }

    // ---- the refusal and the outcome

    pub fn refused_line(&mut self, n: u8)
        requires { self.old.end + 192 ≤ length self.old.buffer.now }
        ensures added { Added self.old.buffer.now self.old.end (refused_line n) self.new.buffer.now self.new.end }
        ensures upper_bound { self.new.end ≤ self.old.end + 192 }
        ensures same_buffer { self.new.buffer.ghost_name ≡ self.old.buffer.ghost_name }
    {
        self.put_labelled(b"refused ", usize::from(n));
        self.put_newline();
    }

    // The outcome by its number: this crate stands below deciding, and knows no decision.
    pub fn outcome_line(&mut self, outcome: u8, survivors: usize)
        requires { self.old.end + 192 ≤ length self.old.buffer.now }
        ensures added { Added self.old.buffer.now self.old.end (outcome_line outcome survivors) self.new.buffer.now self.new.end }
        ensures upper_bound { self.new.end ≤ self.old.end + 192 }
        ensures same_buffer { self.new.buffer.ghost_name ≡ self.old.buffer.ghost_name }
    {
        self.put_labelled(b"outcome ", usize::from(outcome));
        self.put_labelled(b" survivors ", survivors);
        self.put_newline();
    }

    // ---- the survivors' types

    // A grade of one digit, a space before it.
    fn put_grade(&mut self, g: u8)
        requires { (g < 10) × (self.old.end + 2 ≤ length self.old.buffer.now) }
        ensures added { Added self.old.buffer.now self.old.end (spaced g) self.new.buffer.now self.new.end }
        ensures same_buffer { self.new.buffer.ghost_name ≡ self.old.buffer.ghost_name }
    {
        self.put_byte(b' ');
        self.put_digit(usize::from(g));
    }

    fn put_grades(&mut self, row: &[u8])
        requires { ((i : ℕ) → get_or row.now i 0 < 10) × (self.old.end + 2 * length row.now ≤ length self.old.buffer.now) }
        ensures added { Added self.old.buffer.now self.old.end (flat_map spaced row.now) self.new.buffer.now self.new.end }
        ensures value { self.new.end ≡ self.old.end + 2 * length row.now }
        ensures same_buffer { self.new.buffer.ghost_name ≡ self.old.buffer.ghost_name }
    {
        for g in row {
            self.put_grade(*g);
        }
    }

    // The line of a type of at most 64 grades.
    fn put_type(&mut self, c: usize, row: &[u8])
        requires by_index { ((i : ℕ) → get_or row.now i 0 < 10) × (length row.now ≤ 64) }
        requires at_in_bounds { self.old.end + 192 ≤ length self.old.buffer.now }
        ensures added { Added self.old.buffer.now self.old.end (type_line c row.now) self.new.buffer.now self.new.end }
        ensures upper_bound { self.new.end ≤ self.old.end + 192 }
        ensures same_buffer { self.new.buffer.ghost_name ≡ self.old.buffer.ghost_name }
    {
        self.put_labelled(b"type ", c);
        self.put_text(b" grades");
        self.put_grades(row);
        self.put_newline();
    }

    // The line of candidate `c`.
    fn type_line(&mut self, grader: &Grader, c: usize)
        requires c_bound { (grader.now.logic.steps < 10) × (c < 16384) }
        requires at_in_bounds { self.old.end + 192 ≤ length self.old.buffer.now }
        ensures added { Added self.old.buffer.now self.old.end
            (type_line c (row_of (grading grader.now.logic (terms_of grader.now.terms.now)) c))
            self.new.buffer.now self.new.end }
        ensures upper_bound { self.new.end ≤ self.old.end + 192 }
        ensures same_buffer { self.new.buffer.ghost_name ≡ self.old.buffer.ghost_name }
    {
        let count = grader.terms.len() / 3;
        let mut row = [0u8; 64];
        grader.fill_row(c, &mut row);
        self.put_type(c, &row[..count]);
    }

    // The line of candidate `c` if it is marked.
    fn put_marked(&mut self, grader: &Grader, marks: &[u8], c: usize)
        requires steps_bound { grader.now.logic.steps < 10 }
        requires at_in_bounds { (self.old.end + 192 ≤ length self.old.buffer.now) × (c < length marks.now) × (c < 16384) }
        ensures added { Added self.old.buffer.now self.old.end
            (ite {C = List ℕ} (marked? marks.now c) (type_line c (row_of (grading grader.now.logic (terms_of grader.now.terms.now)) c)) [])
            self.new.buffer.now self.new.end }
        ensures upper_bound { self.new.end ≤ self.old.end + 192 }
        ensures same_buffer { self.new.buffer.ghost_name ≡ self.old.buffer.ghost_name }
    {
        if marks[c] == 1 {
            self.type_line(grader, c);
        }
    }

    // The lines of the candidates that are marked, of the `count` from `first` on.
    pub fn type_lines(
        &mut self,
        terms: &[u8],
        logic: Logic,
        marks: &[u8],
        first: usize,
        count: usize,
    )
        requires terms_right { TermsRight terms.now }
        requires terms_bound { (term_count terms.now ≤ 64) × (logic.steps < 10) }
        requires count_in_bounds { (self.old.end + 192 * count ≤ length self.old.buffer.now) × (first + count ≤ length marks.now) × (first + count ≤ 16384) }
        ensures added { Added self.old.buffer.now self.old.end
            (type_lines (row_of (grading logic (terms_of terms.now))) (keep (marked? marks.now) (from first count)))
            self.new.buffer.now self.new.end }
        ensures upper_bound { self.new.end ≤ self.old.end + 192 * count }
        ensures same_buffer { self.new.buffer.ghost_name ≡ self.old.buffer.ghost_name }
    {
        let grader = Grader::new(terms, logic);
        for i in 0..count {
            self.put_marked(&grader, marks, first + i);
        }
    }

    // ---- the individuals

    // Individual `j` at candidate `c`.
    fn individual_line(&mut self, j: usize, c: usize)
        requires { self.old.end + 192 ≤ length self.old.buffer.now }
        ensures added { Added self.old.buffer.now self.old.end (individual_line j c) self.new.buffer.now self.new.end }
        ensures upper_bound { self.new.end ≤ self.old.end + 192 }
        ensures same_buffer { self.new.buffer.ghost_name ≡ self.old.buffer.ghost_name }
    {
        self.put_labelled(b"individual ", j);
        self.put_labelled(b" type ", c);
        self.put_newline();
    }

    // The lines of the individuals below `count`; the placement has two bytes for each.
    pub fn individual_lines(&mut self, placement: &[u8], count: usize)
        requires { (self.old.end + 192 * count ≤ length self.old.buffer.now) × (2 * count ≤ length placement.now) }
        ensures added { Added self.old.buffer.now self.old.end
            (individual_lines (λ j. word_at placement.now (2 * j)) count)
            self.new.buffer.now self.new.end }
        ensures upper_bound { self.new.end ≤ self.old.end + 192 * count }
        ensures same_buffer { self.new.buffer.ghost_name ≡ self.old.buffer.ghost_name }
    {
        for j in 0..count {
            self.individual_line(j, encoding::word(placement, 2 * j));
        }
    }
}
