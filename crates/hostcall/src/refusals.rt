// Why a call from the host is refused, and the refusal's number.
ghost use Rattle.std.specs.Prelude.{◌≡◌, pos};
ghost use Rattle.hostcall.specs.declared.refusals.HostRefusal.TheVariants.{Malformed, Line, Reading, Table};
ghost use Rattle.hostcall.specs.Numbers.{number_of};

use book::refusals::Fault;
use bounded::lists::Full;
use codelist::lines::LineRefusal;
use family::readings::ReadingRefusal;
use knots::knots::TableRefusal;

#[derive(Clone, Copy, PartialEq, Eq, Debug)]
pub enum HostRefusal {
    // no room for the answer
    NoRoom,
    // bytes left over behind the lines
    Ragged,
    // a list of no line
    NoLine,
    // bytes that are no line, row or table
    Malformed,
    Line(LineRefusal),
    Reading(ReadingRefusal),
    Table(TableRefusal),
}

impl From<Full> for HostRefusal {
    ghost from_gives = { λ _ r. r ≡ Malformed };

    fn from(_full: Full) -> HostRefusal {
        HostRefusal::Malformed
    }
}

// No operation begins with such a byte.
impl From<Fault> for HostRefusal {
    ghost from_gives = { λ _ r. r ≡ Malformed };

    fn from(_fault: Fault) -> HostRefusal {
        HostRefusal::Malformed
    }
}

// By hand, and not by thiserror's `from`: `from_gives` says which case.
impl From<LineRefusal> for HostRefusal {
    ghost from_gives = { λ refusal r. r ≡ Line refusal };

    fn from(refusal: LineRefusal) -> HostRefusal {
        HostRefusal::Line(refusal)
    }
}

impl From<ReadingRefusal> for HostRefusal {
    ghost from_gives = { λ refusal r. r ≡ Reading refusal };

    fn from(refusal: ReadingRefusal) -> HostRefusal {
        HostRefusal::Reading(refusal)
    }
}

impl From<TableRefusal> for HostRefusal {
    ghost from_gives = { λ refusal r. r ≡ Table refusal };

    fn from(refusal: TableRefusal) -> HostRefusal {
        HostRefusal::Table(refusal)
    }
}

impl From<HostRefusal> for i64 {
    ghost from_gives = { λ refusal n. n ≡ pos (number_of refusal) };

    fn from(refusal: HostRefusal) -> i64 {
        match refusal {
            HostRefusal::NoRoom => 1,
            HostRefusal::Ragged => 1,
            HostRefusal::NoLine => 1,
            HostRefusal::Malformed => 1,
            HostRefusal::Line(refusal) => u8::from(refusal) as i64,
            HostRefusal::Reading(refusal) => u8::from(refusal) as i64,
            HostRefusal::Table(refusal) => u8::from(refusal) as i64,
        }
    }
}
