// The tables of a search for witnesses, as one value.

ghost use Rattle.witness_boxes.specs.Tables.{tables, Ready};

use gradings::Logic;
use zones::Zone;

#[derive(Clone, Copy)]
pub struct WitnessTables<'a> {
    pub logic: Logic,
    pub slots: &'a [u8],
    // The rows of the sources, and those of the targets with their zones.
    pub own: &'a [[u8; 16]],
    pub child: &'a [[u8; 16]],
    pub zones: &'a [Zone],
    ghost ready: { Ready (tables logic slots.now own.now child.now zones.now) },
}
