// A row: the eight readings, each present or absent; and their enclosures.
ghost use Rattle.std.specs.Prelude.{◌≡◌, Some};
ghost use Rattle.family.specs.Readings.{reading_at, reading_pair};

use crate::readings::Reading;
use interval::enclosures::Enclosure;

// There are so many readings; their numbers go from 0 to the last.
pub const READINGS: usize = 8;

pub const LAST_READING: u8 = 7;

pub type Row = [Option<Reading>; READINGS];

// The reading of that number; none is beyond the eighth.
pub fn reading_at(row: &Row, n: u8) -> Option<Reading>
    ensures { result ≡ reading_at row.now n }
{
    *row.get(n as usize)?
}

impl From<Reading> for Enclosure {
    ghost from_gives = { λ reading enclosure. enclosure ≡ reading_pair (Some reading) };

    fn from(reading: Reading) -> Enclosure {
        Enclosure::Bounds {
            lo: reading.lo(),
            hi: reading.hi(),
        }
    }
}

// The enclosure of a reading: its ends, or no bounds where it is absent. A function, since an implementation must name a type of its crate,
// and neither an Option nor an enclosure is one of this crate's.
pub fn reading_pair(r: Option<Reading>) -> Enclosure
    ensures { result ≡ reading_pair r }
{
    r.map_or(Enclosure::NoBounds, Enclosure::from)
}
