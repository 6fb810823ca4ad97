// The candidates whose marks are swept, as one value.

ghost use Rattle.std.specs.Prelude.{◌≡◌, length};
ghost use Rattle.passes.specs.Sweeps.{Into};

use witness_boxes::WitnessTables;

#[derive(Clone, Copy)]
pub struct Candidates<'a> {
    pub tables: &'a WitnessTables<'a>,
    // For each candidate its source and its target.
    pub source: &'a [u16],
    pub target: &'a [u16],
    ghost same_count: { length source.now ≡ length target.now },
    ghost sources: { Into source.now (length tables.now.own.now) },
    ghost targets: { Into target.now (length tables.now.child.now) },
}
