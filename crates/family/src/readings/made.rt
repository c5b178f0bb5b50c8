// Readings from their ends, and the refusal's number.
ghost use Rattle.std.specs.Prelude.{◌≡◌};
ghost use Rattle.family.specs.Readings.{reading_of, number_of};

use crate::readings::{Reading, ReadingRefusal};
use interval::enclosures::LIMIT;

impl Reading {
    // Refused where lo > hi, or an end lies beyond the limit.
    pub fn new(lo: i32, hi: i32) -> Result<Reading, ReadingRefusal>
        ensures { result ≡ reading_of lo hi }
    {
        if -LIMIT <= lo && lo <= hi && hi <= LIMIT {
            Ok(Reading { lo, hi })
        } else {
            Err(ReadingRefusal::Ends)
        }
    }
}

impl From<ReadingRefusal> for u8 {
    ghost from_gives = { λ refusal n. n ≡ number_of refusal };

    fn from(refusal: ReadingRefusal) -> u8 {
        match refusal {
            ReadingRefusal::Ends => 2,
        }
    }
}
