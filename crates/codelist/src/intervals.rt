// The first kind of value: an entry is an enclosure, and each operation follows the rule on enclosures of its name.
ghost use Rattle.interval.specs.Rules.{limit, div};
ghost use Rattle.codelist.specs.Intervals.{pair_rules, pair_vouches};
ghost use Rattle.codelist.specs.IntervalLaw.{pair_law, pair_division};

use crate::kinds::Kind;
use family::cells::Cell;
use family::readings::Reading;
use family::rows::reading_pair;
use interval::enclosures::{Enclosure, LIMIT};

// Operation by operation: see `Kind`.
#[derive(Clone, Copy)]
pub struct Intervals;

impl Kind for Intervals {
    type Entry = Enclosure;

    const LARGEST: i64 = LIMIT as i64;

    ghost LARGEST = { limit };

    ghost rules = { pair_rules };

    ghost vouches = { pair_vouches };

    ghost laws = { pair_law };

    ghost divided = { div };

    ghost division = { pair_division };

    fn blank() -> Enclosure {
        Enclosure::NoBounds
    }

    fn x(cell: Cell) -> Enclosure {
        let Cell { lo, hi } = cell;
        Enclosure::Bounds { lo, hi }.held()
    }

    fn constant(v: i32) -> Enclosure {
        Enclosure::Bounds { lo: v, hi: v }.held()
    }

    fn reading(r: Option<Reading>) -> Enclosure {
        reading_pair(r)
    }

    fn neg(e: Enclosure) -> Enclosure {
        -e
    }

    fn abs(e: Enclosure) -> Enclosure {
        e.abs()
    }

    fn add(e: Enclosure, f: Enclosure) -> Enclosure {
        e + f
    }

    fn sub(e: Enclosure, f: Enclosure) -> Enclosure {
        e - f
    }

    fn mul(e: Enclosure, f: Enclosure) -> Enclosure {
        e * f
    }

    fn max(e: Enclosure, f: Enclosure) -> Enclosure {
        e.max(f)
    }

    fn chi(s: Enclosure, q: Enclosure, r: Enclosure) -> Enclosure {
        s.chi(q, r)
    }

    fn div(e: Enclosure, f: Enclosure) -> Enclosure {
        e / f
    }
}
