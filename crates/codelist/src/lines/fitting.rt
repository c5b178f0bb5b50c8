// Whether a line may stand in a list, and what its refusal is called.
ghost use Rattle.std.specs.Prelude.{◌≡◌};
ghost use Rattle.codelist.specs.declared.lines.LineRefusal.TheVariants.{Full};
ghost use Rattle.codelist.specs.Lines.{number_of, earlier, ranged, fit};

use crate::lines::{Line, LineRefusal};
use bounded::lists::Full;
use family::rows::LAST_READING;
use interval::enclosures::LIMIT;

impl Line {
    // As line number k it reads earlier lines alone, and a reading from 0 to 7.
    fn reads_earlier(self, k: usize) -> bool
        ensures { result ≡ earlier k self }
    {
        let is_earlier = |i: u8| (i as usize) < k;
        match self {
            Line::X | Line::C(_) => true,
            Line::R(n) => n <= LAST_READING,
            Line::Neg(i) | Line::Abs(i) => is_earlier(i),
            Line::Add(i, j)
            | Line::Sub(i, j)
            | Line::Mul(i, j)
            | Line::Div(i, j)
            | Line::Max(i, j) => is_earlier(i) && is_earlier(j),
            Line::Chi(s, q, r) => is_earlier(s) && is_earlier(q) && is_earlier(r),
        }
    }

    // A constant lies within the limit.
    fn is_ranged(self) -> bool
        ensures { result ≡ ranged self }
    {
        match self {
            Line::C(v) => (-LIMIT..=LIMIT).contains(&v),
            _ => true,
        }
    }

    // Refused where it may not be line number k, whatever room there is.
    pub(crate) fn fits(self, k: usize) -> Result<(), LineRefusal>
        ensures { result ≡ fit k self }
    {
        if !self.reads_earlier(k) {
            Err(LineRefusal::Operand)
        } else if !self.is_ranged() {
            Err(LineRefusal::Constant)
        } else {
            Ok(())
        }
    }
}

impl From<Full> for LineRefusal {
    ghost from_gives = { λ _ refusal. refusal ≡ Full };

    fn from(_full: Full) -> LineRefusal {
        Self::Full
    }
}

impl From<LineRefusal> for u8 {
    ghost from_gives = { λ refusal n. n ≡ number_of refusal };

    fn from(refusal: LineRefusal) -> u8 {
        match refusal {
            LineRefusal::Operand => 24,
            LineRefusal::Constant => 25,
            LineRefusal::Full => 26,
        }
    }
}
