// What a family of curves is. The ghost members are its meaning; the methods answer what the meaning says.
ghost use Rattle.std.specs.Prelude.{◌≡◌, ℕ};
ghost use Rattle.exact.specs.Fraction.{Fraction};
ghost use Rattle.exact.specs.Value.{Value};
ghost use Rattle.interval.specs.declared.enclosures.Enclosure.{Enclosure};
ghost use Rattle.family.specs.declared.cells.Cell.{Cell};
ghost use Rattle.family.specs.Readings.{Temperatures, RowOf};
ghost use Rattle.family.specs.Meaning.{Lawful};

use crate::cells::Cell;
use crate::rows::Row;
use interval::enclosures::Enclosure;

pub trait Family {
    // How many curves there are.
    ghost count: { Self → ℕ };

    // The exact value of a curve, for true temperatures, at a point.
    ghost value: { Self → ℕ → Temperatures → Fraction → Value };

    // The enclosure of a curve over a cell, under a row of readings.
    ghost answer: { Self → ℕ → Cell → RowOf → Enclosure };

    // What an answer says of the values.
    ghost laws: { Lawful count value answer };

    fn curves(&self) -> usize
        ensures { result ≡ count self.now };

    // Cell and row apart: a search keeps one row while its cell changes at each step.
    fn enclosure(&self, k: usize, cell: Cell, row: &Row) -> Enclosure
        ensures { result ≡ answer self.now k cell row.now };
}
