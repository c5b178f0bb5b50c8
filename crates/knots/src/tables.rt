// A knot table: 2 to 16 knots with strictly ascending x, and the number of the reading that is taken off it. It can only be made valid.
ghost use Rattle.std.specs.Prelude.{IsTrue};
ghost use Rattle.bounded.specs.Lists.{items_of};
ghost use Rattle.knots.specs.Knots.{valid};

use crate::knots::Knot;
use bounded::lists::Bounded;

// A table has at most so many knots.
const KNOTS: usize = 16;

#[derive(Clone, Copy)]
pub struct KnotTable {
    reading: u8,
    knots: Bounded<Knot, KNOTS>,
    ghost sound: { IsTrue (valid reading (items_of knots)) },
}

pub mod heights;
pub mod made;
