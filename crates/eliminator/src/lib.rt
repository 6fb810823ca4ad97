// Type elimination: marks the survivors of a book's terms and rules.

#![tactic(auto)]

ghost use Rattle.std.specs.Prelude.{◌≡◌, ◌++◌, ◌≤◌, length, drop};
ghost use Rattle.sections.specs.Terms.{terms_of};
ghost use Rattle.claims.specs.Rules.{rules_of};
ghost use Rattle.gradings.specs.Gradings.{grading};
ghost use Rattle.elimination.specs.Survivors.{survivors};
ghost use Rattle.elimination.specs.Marks.{marks_of};
ghost use Rattle.entries.specs.Filling.{Entered};
ghost use Rattle.entries.specs.Eliminating.{Task, Eliminated};
ghost use Rattle.entries.specs.Lent.{grading_of, rules_in};

use entries::{Theory, enter};
use grades::Grader;
use gradings::Logic;
use partition::{Classes, Index};
use passes::Candidates;
use sweeps::settle;
use witness_boxes::WitnessTables;
use zones::{Zone, make_zones};

// Enters every candidate, where there are no classes yet. The number of those marked.
fn enter_all(
    theory: &Theory,
    sources: &mut Classes,
    targets: &mut Classes,
    marks: &mut [u8],
) -> usize
    requires { (length marks.old ≤ 16384) × (sources.old.count ≡ 0) × (targets.old.count ≡ 0) }
    ensures { Entered (grading_of theory.now) (rules_in theory.now) theory.now.slots.now sources.new targets.new marks.new (length marks.old) result }
{
    // They lie here, and not with the classes: once all are entered nothing looks into them, and the sweeps have their room.
    let mut first = Index { places: [0; 16384] };
    let mut second = Index { places: [0; 16384] };
    let mut left = 0;
    for c in 0..marks.len() {
        left += usize::from(enter(theory, c, sources, targets, &mut first, &mut second, marks));
    }
    left
}

// Marks the survivors, with room that is lent: there are no classes yet, and the zones have anything. Their number.
fn mark_survivors(
    theory: &Theory,
    sources: &mut Classes,
    targets: &mut Classes,
    zones: &mut [Zone],
    marks: &mut [u8],
) -> usize
    requires task { Task theory.now.grader.now.logic theory.now.grader.now.terms.now theory.now.slots.now theory.now.rules.now (length marks.old) }
    requires room { (sources.old.count ≡ 0) × (targets.old.count ≡ 0) × (256 ≤ length zones.old) }
    ensures { Eliminated theory.now.grader.now.logic theory.now.grader.now.terms.now theory.now.rules.now (length marks.old) result marks.new }
{
    let left = enter_all(theory, sources, targets, marks);
    let own = &sources.rows[..sources.count];
    let child = &targets.rows[..targets.count];
    make_zones(child, theory.slots.len() / 4, zones);
    let tables = WitnessTables {
        logic: theory.grader.logic,
        slots: theory.slots,
        own,
        child,
        zones,
    };
    let candidates = Candidates {
        tables: &tables,
        source: &sources.class[..marks.len()],
        target: &targets.class[..marks.len()],
    };
    settle(&candidates, marks, left)
}

// Marks the survivors of a book's terms and rules among its `count` candidates, 1 for a survivor and 0 for any other, and keeps the bytes past
// them. The number of survivors.
pub fn eliminate(
    logic: Logic,
    terms: &[u8],
    slots: &[u8],
    rules: &[u8],
    count: usize,
    marks: &mut [u8],
) -> usize
    requires task { Task logic terms.now slots.now rules.now count }
    requires count_in_bounds { count ≤ length marks.old }
    ensures value { result ≡ length (survivors (grading logic (terms_of terms.now)) (rules_of rules.now)) }
    ensures marks_after { marks.new ≡ marks_of (survivors (grading logic (terms_of terms.now)) (rules_of rules.now)) count ++ drop count marks.old }
{
    let grader = Grader::new(terms, logic);
    let theory = Theory {
        grader: &grader,
        slots,
        rules,
    };
    let mut sources = Classes::new();
    let mut targets = Classes::new();
    let mut zones = [Zone::NO_ROW; 256];
    mark_survivors(
        &theory,
        &mut sources,
        &mut targets,
        &mut zones,
        &mut marks[..count],
    )
}
