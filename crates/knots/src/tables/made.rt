// Tables made from their knots, and the refusals' numbers.
ghost use Rattle.std.specs.Prelude.{◌≡◌};
ghost use Rattle.knots.specs.declared.knots.TableRefusal.TheVariants.{Knots};
ghost use Rattle.knots.specs.Knots.{number_of, ranged, all_ranged, ascending};
ghost use Rattle.knots.specs.Tables.{knots_of, Made};

use crate::knots::{Knot, TableRefusal};
use crate::tables::KnotTable;
use bounded::lists::{Bounded, Full};
use family::cells::SPAN;
use family::rows::LAST_READING;
use interval::enclosures::LIMIT;

// More knots than a table has room for.
impl From<Full> for TableRefusal {
    ghost from_gives = { λ _ refusal. refusal ≡ Knots };

    fn from(_full: Full) -> TableRefusal {
        Self::Knots
    }
}

impl From<TableRefusal> for u8 {
    ghost from_gives = { λ refusal n. n ≡ number_of refusal };

    fn from(refusal: TableRefusal) -> u8 {
        match refusal {
            TableRefusal::Reading => 24,
            TableRefusal::Range => 25,
            TableRefusal::Knots => 28,
        }
    }
}

impl Knot {
    fn is_ranged(self) -> bool
        ensures { result ≡ ranged self }
    {
        -SPAN <= self.x && self.x <= SPAN && -LIMIT <= self.y && self.y <= LIMIT
    }
}

fn are_ranged(knots: &[Knot]) -> bool
    ensures { result ≡ all_ranged knots.now }
{
    knots.iter().all(|knot| knot.is_ranged())
}

fn are_ascending(knots: &[Knot]) -> bool
    ensures { result ≡ ascending knots.now }
{
    knots.is_sorted_by(|left, right| left.x < right.x)
}

impl KnotTable {
    // The table of those knots, from which that reading is taken off; or the refusal.
    pub fn new(reading: u8, knots: &[Knot]) -> Result<KnotTable, TableRefusal>
        ensures { Made reading knots.now result }
    {
        if reading > LAST_READING {
            return Err(TableRefusal::Reading);
        }
        if !are_ranged(knots) {
            return Err(TableRefusal::Range);
        }
        let held = Bounded::try_from(knots)?;
        if knots.len() < 2 || !are_ascending(knots) {
            return Err(TableRefusal::Knots);
        }
        Ok(KnotTable {
            reading,
            knots: held,
        })
    }

    // The number of the reading.
    pub fn reading(&self) -> u8
        ensures { result ≡ self.now.reading }
    {
        self.reading
    }

    // The knots, from the left.
    pub fn knots(&self) -> &[Knot]
        ensures { result.now ≡ knots_of self.now }
    {
        self.knots.as_slice()
    }
}
