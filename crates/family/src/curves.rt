// Families given by their items, one curve for each item.
ghost use Rattle.std.specs.Prelude.{◌≡◌};
ghost use Rattle.exact.specs.Fraction.{Fraction};
ghost use Rattle.exact.specs.Value.{Value};
ghost use Rattle.interval.specs.declared.enclosures.Enclosure.{Enclosure};
ghost use Rattle.family.specs.declared.cells.Cell.{Cell};
ghost use Rattle.family.specs.Readings.{Temperatures, RowOf};
ghost use Rattle.family.specs.Items.{ItemLaw};

use crate::cells::Cell;
use crate::rows::Row;
use bounded::lists::Bounded;
use interval::enclosures::Enclosure;

// A way of enclosing curves, each given as a T: a code list, a knot table.
pub trait Enclosing<T> {
    // The exact value of a curve, for true temperatures, at a point.
    ghost value: { T → Temperatures → Fraction → Value };

    // The enclosure of a curve over a cell that exists, under a row of readings.
    ghost answer: { T → Cell → RowOf → Enclosure };

    // What an answer says of the values.
    ghost laws: { ItemLaw value answer };

    fn enclosure(&self, item: &T, cell: Cell, row: &Row) -> Enclosure
        ensures { result ≡ answer item.now cell row.now };
}

// A family of items, and a book, has room for so many curves of a type.
pub const ROOM: usize = 8;

// Curves, all enclosed in one way.
#[derive(Clone, Copy)]
pub struct Curves<T: Copy, W> {
    pub items: Bounded<T, ROOM>,
    pub way: W,
}

pub mod asking;
