// Listing the marked candidates, and writing the sheet of their interpretation.

#![tactic(auto)]

ghost use Rattle.std.specs.Prelude.{◌≡◌, ◌++◌, ◌+◌, ◌*◌, ◌<◌, ◌≤◌, length, get_or, take, drop};
ghost use Rattle.chain.specs.Decisions.{Tells};
ghost use Rattle.chain.specs.Lists.{table, index};
ghost use Rattle.semantics.specs.Terms.{term, name};
ghost use Rattle.sections.specs.Terms.{term_count, terms_of};
ghost use Rattle.gradings.specs.Gradings.{grading};
ghost use Rattle.shapes.specs.Layout.{end_at};
ghost use Rattle.sheets.specs.Writing.{shape_for, sheet_bytes};
ghost use Rattle.elimination.specs.Marks.{marked};
ghost use Rattle.models.specs.Listing.{Lists};
ghost use Rattle.grades.specs.Rows.{row_at};
ghost use Rattle.models.specs.Rows.{Small, model_of, HoldsRows, name_in, link_in, rows_in, names_by, square_by, links_by, head_by};

use encoding::write_word;
use filling::{fill_blocks, fill_each};
use grades::{Grader, row_at};
use sections::{Term, term_at};
use shapes::Shape;

// ---- the marked candidates

// Lists candidate `c` if it is marked, behind the `found` that are listed already.
fn list_next(marks: &[u8], c: usize, types: &mut [u16], found: usize) -> usize
    requires c_bound { (c < 16384) × (c < length marks.now) × (length (marked marks.now (c + 1)) ≤ length types.old) }
    requires lists { Lists marks.now c found types.old }
    ensures { Lists marks.now (c + 1) result types.new }
{
    if marks[c] != 1 {
        return found;
    }
    types[found] = c as u16;
    found + 1
}

// The marked candidates below `count`, ascending.
pub fn list_marked(marks: &[u8], count: usize, types: &mut [u16]) -> usize
    requires { (count ≤ 16384) × (count ≤ length marks.now) × (length (marked marks.now count) ≤ length types.old) }
    ensures { (result ≡ length (marked marks.now count)) × (take result types.new ≡ marked marks.now count) }
{
    let mut found = 0;
    for c in 0..count {
        found = list_next(marks, c, types, found);
    }
    found
}

// ---- the rows of the listed types

// Fills the table with the rows of the candidates in `types`, 64 grades each.
fn fill_rows(grader: &Grader, types: &[u16], rows: &mut [u8])
    requires { (length types.now ≤ 64) × (4096 ≤ length rows.old) }
    ensures { HoldsRows (grading grader.now.logic (terms_of grader.now.terms.now)) types.now (length types.now) rows.new }
{
    for e in 0..types.len() {
        grader.put_row(usize::from(types[e]), rows, e);
    }
}

// ---- the names

fn is_name(grader: &Grader, i: usize, a: usize) -> bool
    requires is_term { i < term_count grader.now.terms.now }
    ensures { Tells result (term (terms_of grader.now.terms.now) i ≡ name a) }
{
    match term_at(grader.terms, i) {
        Term::Name(b) => usize::from(b) == a,
        _ => false,
    }
}

// The grade of name `a` in a row: that of the term which has the name, or 0.
fn name_grade(grader: &Grader, a: usize, row: &[u8]) -> u8
    requires row_long { term_count grader.now.terms.now ≤ length row.now }
    ensures { result ≡ name_in (terms_of grader.now.terms.now) a row.now }
{
    (0..grader.terms.len() / 3)
        .find(|&i| is_name(grader, i, a))
        .map_or(0, |i| row[i])
}

// Writes the grades of the names at element `e`.
fn write_name_row(grader: &Grader, rows: &[u8], e: usize, body: &mut [u8])
    requires e_bound { (e < 64) × (4096 ≤ length rows.now) }
    ensures { body.new ≡ table (λ a. name_in (terms_of grader.now.terms.now) a (row_at rows.now e)) (length body.old) }
{
    let row = row_at(rows, e);
    fill_each(body, |a| name_grade(grader, a, row));
}

// Writes the rows of `n` elements, `names` grades each.
fn write_names(grader: &Grader, names: usize, rows: &[u8], n: usize, body: &mut [u8])
    requires n_bound { (n ≤ 64) × (4096 ≤ length rows.now) }
    requires exact { length body.old ≡ n * names }
    ensures { body.new ≡ names_by (terms_of grader.now.terms.now) rows.now names n }
{
    fill_blocks(
        n,
        names,
        body,
        |e, row| write_name_row(grader, rows, e, row),
    );
}

// ---- the links

fn link_at(grader: &Grader, role: u8, rows: &[u8], e: usize, f: usize) -> u8
    requires e_bound { (e < 64) × (f < 64) × (4096 ≤ length rows.now) }
    ensures { result ≡ link_in grader.now.logic (terms_of grader.now.terms.now) rows.now role e f }
{
    row_links::link_of_rows(grader, role, row_at(rows, e), row_at(rows, f))
}

// Writes the links of `role` from element `e` to each.
fn write_link_row(grader: &Grader, role: u8, rows: &[u8], e: usize, body: &mut [u8])
    requires e_bound { (e < 64) × (4096 ≤ length rows.now) × (length body.old ≤ 64) }
    ensures { body.new ≡ table (λ f. link_in grader.now.logic (terms_of grader.now.terms.now) rows.now role e f) (length body.old) }
{
    fill_each(body, |f| link_at(grader, role, rows, e, f));
}

// Writes the links of `role` between `n` elements.
fn write_square(grader: &Grader, role: u8, rows: &[u8], n: usize, body: &mut [u8])
    requires n_bound { (n ≤ 64) × (4096 ≤ length rows.now) }
    requires exact { length body.old ≡ n * n }
    ensures { body.new ≡ square_by grader.now.logic (terms_of grader.now.terms.now) rows.now n role }
{
    fill_blocks(
        n,
        n,
        body,
        |e, row| write_link_row(grader, role, rows, e, row),
    );
}

// Writes the links of `n` elements for each of `roles`.
fn write_links(grader: &Grader, roles: usize, rows: &[u8], n: usize, body: &mut [u8])
    requires counts_bound { (roles ≤ 8) × (n ≤ 64) × (4096 ≤ length rows.now) }
    requires exact { length body.old ≡ roles * (n * n) }
    ensures { body.new ≡ links_by grader.now.logic (terms_of grader.now.terms.now) rows.now n roles }
{
    fill_blocks(roles, n * n, body, |r, square| {
        write_square(grader, r as u8, rows, n, square)
    });
}

// ---- the individuals

// Where candidate `c` stands among the types; 0 if nowhere.
fn place_of(types: &[u16], c: u16) -> u8
    requires { length types.now ≤ 64 }
    ensures { result ≡ index types.now c }
{
    types.iter().position(|&t| t == c).map_or(0, |k| k as u8)
}

// Writes the element of each individual.
fn write_seats(types: &[u16], seats: &[u16], body: &mut [u8])
    requires { (length types.now ≤ 64) × (length body.old ≡ length seats.now) }
    ensures { body.new ≡ table (λ j. index types.now (get_or seats.now j 0)) (length seats.now) }
{
    fill_each(body, |j| place_of(types, seats[j]));
}

// ---- the head

// Writes the 12 bytes of the head.
fn write_head(steps: u8, p: Shape, head: &mut [u8])
    requires { Small p × (length head.old ≡ 12) }
    ensures { head.new ≡ head_by steps p }
{
    let links = shapes::links_at(p);
    let individuals = shapes::individuals_at(p);
    head[0] = 1;
    head[1] = steps;
    head[2] = p.elements as u8;
    head[3] = p.names as u8;
    head[4] = p.roles as u8;
    head[5] = p.individuals as u8;
    write_word(head, 6, 12);
    write_word(head, 8, links as u16);
    write_word(head, 10, individuals as u16);
}

// ---- the sheet

// What a sheet is written of: the types of its elements, the type at which each individual sits, and how many names and roles it has.
#[derive(Clone, Copy)]
pub struct Listed<'a> {
    pub types: &'a [u16],
    pub seats: &'a [u16],
    pub names: usize,
    pub roles: usize,
    pub ghost few: { (length types.now ≤ 64) × (length seats.now ≤ 8) × (names ≤ 16) × (roles ≤ 8) },
}

// Writes the sheet from the rows of the types. The book's own number of steps stands in the head alone.
fn write_sheet(grader: &Grader, steps: u8, listed: Listed, rows: &[u8], sheet: &mut [u8])
    requires rows_long { 4096 ≤ length rows.now }
    requires room { end_at (shape_for steps listed.names listed.roles (length listed.seats.now)
        (rows_in grader.now.logic grader.now.terms.now rows.now listed.types.now listed.seats.now)) ≤ length sheet.old }
    ensures { sheet.new ≡ sheet_bytes steps listed.entry.names listed.entry.roles (length listed.entry.seats.now)
        (rows_in grader.now.logic grader.now.terms.now rows.now listed.entry.types.now listed.entry.seats.now)
        ++ drop (end_at (shape_for steps listed.entry.names listed.entry.roles (length listed.entry.seats.now)
        (rows_in grader.now.logic grader.now.terms.now rows.now listed.entry.types.now listed.entry.seats.now))) sheet.old }
{
    let p = Shape {
        elements: listed.types.len(),
        names: listed.names,
        roles: listed.roles,
        individuals: listed.seats.len(),
    };
    let links = shapes::links_at(p);
    let individuals = shapes::individuals_at(p);
    let end = shapes::end_at(p);
    write_head(steps, p, &mut sheet[0..12]);
    write_names(grader, p.names, rows, p.elements, &mut sheet[12..links]);
    write_links(
        grader,
        p.roles,
        rows,
        p.elements,
        &mut sheet[links..individuals],
    );
    write_seats(listed.types, listed.seats, &mut sheet[individuals..end]);
}

// Writes the sheet of the listed types.
pub fn write_model(grader: &Grader, steps: u8, listed: Listed, sheet: &mut [u8])
    requires { end_at (shape_for steps listed.names listed.roles (length listed.seats.now)
        (model_of grader.now.logic grader.now.terms.now listed.types.now listed.seats.now)) ≤ length sheet.old }
    ensures { sheet.new ≡ sheet_bytes steps listed.entry.names listed.entry.roles (length listed.entry.seats.now)
        (model_of grader.now.logic grader.now.terms.now listed.entry.types.now listed.entry.seats.now)
        ++ drop (end_at (shape_for steps listed.entry.names listed.entry.roles (length listed.entry.seats.now)
        (model_of grader.now.logic grader.now.terms.now listed.entry.types.now listed.entry.seats.now))) sheet.old }
{
    let mut rows = [0u8; 4096];
    fill_rows(grader, listed.types, &mut rows);
    write_sheet(grader, steps, listed, &rows, sheet);
}
