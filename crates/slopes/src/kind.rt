// The second kind of value: an entry keeps an enclosure over the cell, one at its middle, and a slope. Each operation follows the rule on
// slopes of its name.
ghost use Rattle.interval.specs.Rules.{limit};
ghost use Rattle.slope.specs.Rules.{div_slope};
ghost use Rattle.slopes.specs.Kind.{slope_rules, slope_vouches};
ghost use Rattle.slopes.specs.KindLaws.{slopes_law, slopes_division};

use codelist::kinds::Kind;
use family::cells::Cell;
use family::readings::Reading;
use interval::enclosures::{Enclosure, LIMIT};
use slope::entries::Slope;

// Operation by operation: see `Kind`.
#[derive(Clone, Copy)]
pub struct Slopes;

impl Kind for Slopes {
    type Entry = Slope;

    const LARGEST: i64 = LIMIT as i64;

    ghost LARGEST = { limit };

    ghost rules = { slope_rules };

    ghost vouches = { slope_vouches };

    ghost laws = { slopes_law };

    ghost divided = { div_slope };

    ghost division = { slopes_division };

    // Every part is lacking.
    fn blank() -> Slope {
        Slope {
            v: Enclosure::NoBounds,
            u: Enclosure::NoBounds,
            s: Enclosure::NoBounds,
        }
    }

    fn x(cell: Cell) -> Slope {
        Slope::x(cell)
    }

    fn constant(v: i32) -> Slope {
        Slope::constant(v)
    }

    fn reading(r: Option<Reading>) -> Slope {
        Slope::reading(r)
    }

    fn neg(e: Slope) -> Slope {
        -e
    }

    fn abs(e: Slope) -> Slope {
        e.abs()
    }

    fn add(e: Slope, f: Slope) -> Slope {
        e + f
    }

    fn sub(e: Slope, f: Slope) -> Slope {
        e - f
    }

    fn mul(e: Slope, f: Slope) -> Slope {
        e * f
    }

    fn max(e: Slope, f: Slope) -> Slope {
        e.max(f)
    }

    fn chi(s: Slope, q: Slope, r: Slope) -> Slope {
        s.chi(q, r)
    }

    fn div(e: Slope, f: Slope) -> Slope {
        e / f
    }
}
