// The enclosure of a table less its reading.
ghost use Rattle.std.specs.Prelude.{◌≡◌};
ghost use Rattle.tables.specs.Family.{height_less, table_curve};
ghost use Rattle.tables.specs.FamilyLaw.{table_law};

use crate::curves::LessReading;
use family::cells::Cell;
use family::curves::Enclosing;
use family::rows::{Row, reading_at, reading_pair};
use interval::enclosures::Enclosure;
use knots::tables::KnotTable;

// [p - hi, q - lo], where the table lies from p to q over the cell and its reading is [lo, hi].
pub fn table_enclosure(table: &KnotTable, cell: Cell, row: &Row) -> Enclosure
    ensures { result ≡ table_curve table.now cell row.now }
{
    let height = Enclosure::from(table.extent(cell));
    height - reading_pair(reading_at(row, table.reading()))
}

impl Enclosing<KnotTable> for LessReading {
    ghost value = { height_less };

    ghost answer = { table_curve };

    ghost laws = { table_law };

    fn enclosure(&self, table: &KnotTable, cell: Cell, row: &Row) -> Enclosure {
        table_enclosure(table, cell, row)
    }
}
