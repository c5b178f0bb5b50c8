// Reading the body of a table.
ghost use Rattle.std.specs.Prelude.{◌≡◌, ◌+◌, ◌*◌, ◌≤◌, length, drop, slice_index};
ghost use Rattle.bounded.specs.Lists.{items_of};
ghost use Rattle.book.specs.Records.{knot_of, knots_at, body_reading, body_knots, fault_of_table};
ghost use Rattle.book.specs.Reading.{TableRead};

use crate::refusals::Fault;
use bounded::lists::Bounded;
use family::curves::ROOM;
use knots::knots::{Knot, TableRefusal};
use knots::tables::KnotTable;

impl From<TableRefusal> for Fault {
    ghost from_gives = { λ refusal fault. fault ≡ fault_of_table refusal };

    fn from(refusal: TableRefusal) -> Fault {
        match refusal {
            TableRefusal::Reading => Fault::Operand,
            TableRefusal::Range => Fault::Range,
            TableRefusal::Knots => Fault::Knots,
        }
    }
}

// The knot in eight bytes: x, then y, big-endian.
pub fn knot_of(bytes: &[u8; 8]) -> Knot
    ensures { result ≡ knot_of bytes.now }
{
    let [x0, x1, x2, x3, y0, y1, y2, y3] = *bytes;
    Knot {
        x: i32::from_be_bytes([x0, x1, x2, x3]),
        y: i32::from_be_bytes([y0, y1, y2, y3]),
    }
}

// The table of that reading and those knots, where so many stand before it; or its fault.
fn table_of(reading: u8, knots: &[Knot], tables: usize) -> Result<KnotTable, Fault>
    ensures { TableRead tables reading knots.now result }
{
    match KnotTable::new(reading, knots) {
        Ok(_) | Err(TableRefusal::Knots) if tables >= ROOM => Err(Fault::TooMany),
        table => Ok(table?),
    }
}

// The table of a body that has all its knots, where so many stand before it; or its fault.
pub(crate) fn read_table(body: &[u8], tables: usize) -> Result<KnotTable, Fault>
    requires { 2 + 8 * slice_index body.now 1 ≤ length body.now }
    ensures { TableRead tables (body_reading body.now) (body_knots body.now) result }
{
    let [reading, count, rest @ ..] = body else {
        // no body is so short
        return Err(Fault::Knots);
    };
    let (eights, _) = rest.as_chunks::<8>();
    // as many as one byte counts; a loop of one line, as `hostcall` has for more: a function over both would be longer
    let mut knots = Bounded::<Knot, 255>::new();
    for bytes in &eights[..*count as usize] {
        knots.push(knot_of(bytes)).map_err(|_| Fault::Knots)?;
    }
    table_of(*reading, knots.as_slice(), tables)
}
