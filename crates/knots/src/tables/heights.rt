// The heights of a table: at one opening, and over a cell.
ghost use Rattle.std.specs.Prelude.{◌≡◌, ◌^◌, ◌≤◌, true, pos, ◌-ℤ◌, ◌*ℤ◌, neg_ℤ, ◌≤ℤ◌, ◌<ℤ◌, unsigned_abs};
ghost use Rattle.exact.specs.Fraction.{whole};
ghost use Rattle.exact.specs.Rounding.{floor, ceiling};
ghost use Rattle.interval.specs.Rules.{limit};
ghost use Rattle.family.specs.Cells.{exists};
ghost use Rattle.knots.specs.Knots.{ranged};
ghost use Rattle.knots.specs.Tables.{knots_of};
ghost use Rattle.knots.specs.Values.{up_to, line, height_at};
ghost use Rattle.knots.specs.Extremes.{inside, rounded, joined, extent_of, Extremes};

use crate::extents::Extent;
use crate::knots::Knot;
use crate::tables::KnotTable;
use exact::{ceil_div, floor_div};
use family::cells::Cell;

// n/d rounded down and up, of a height between the limits. Such a quotient always fits, so the 0 stands for nothing. Not by the roundings of
// enclosures, which want the same of a dividend: what wants something of its caller is not public.
fn round_both(n: i64, d: i64) -> Extent
    requires size { unsigned_abs n ≤ 2 ^ 62 }
    requires positive { pos 0 <ℤ d }
    requires low { (neg_ℤ limit *ℤ d) ≤ℤ n }
    requires high { n ≤ℤ (limit *ℤ d) }
    ensures lo { result.lo ≡ floor n d }
    ensures hi { result.hi ≡ ceiling n d }
{
    let lo = floor_div(n, d).unwrap_or(0);
    let hi = ceil_div(n, d).unwrap_or(0);
    Extent {
        lo: lo as i32,
        hi: hi as i32,
    }
}

// From one opening to another.
fn way(from: i32, to: i32) -> i64
    ensures { result ≡ to -ℤ from }
{
    to as i64 - from as i64
}

// A height times a way between two openings.
fn weighted(y: i32, way: i64) -> i64
    requires { unsigned_abs way ≤ 2 ^ 21 }
    ensures value { result ≡ y *ℤ way }
    ensures size { unsigned_abs result ≤ 2 ^ 52 }
{
    y as i64 * way
}

impl Knot {
    // x lies at the knot or to the left of it.
    fn reaches(self, x: i32) -> bool
        ensures { result ≡ up_to (whole x) self.x }
    {
        x <= self.x
    }

    fn is_inside(self, cell: Cell) -> bool
        ensures { result ≡ inside cell self }
    {
        cell.lo <= self.x && self.x <= cell.hi
    }

    // The height of the knot itself.
    fn level(self) -> Extent
        ensures { result ≡ rounded (whole self.y) (whole self.y) }
    {
        Extent {
            lo: self.y,
            hi: self.y,
        }
    }

    // The height at x on the straight line to the next knot.
    fn height_toward(self, next: Knot, x: i32) -> Extent
        requires left { ranged self ≡ true }
        requires right { ranged next ≡ true }
        requires after { self.x <ℤ x }
        requires upto { x ≤ℤ next.x }
        ensures { result ≡ rounded (line self next (whole x)) (line self next (whole x)) }
    {
        let (before, after) = (way(self.x, x), way(x, next.x));
        let n = weighted(self.y, after) + weighted(next.y, before);
        round_both(n, before + after)
    }
}

impl Extent {
    // The least extent that has both.
    fn joined(self, other: Extent) -> Extent
        ensures { result ≡ joined self other }
    {
        Extent {
            lo: self.lo.min(other.lo),
            hi: self.hi.max(other.hi),
        }
    }
}

impl KnotTable {
    // The height at an opening, rounded down and up.
    fn height(&self, x: i32) -> Extent
        ensures { result ≡ rounded (height_at (knots_of self.now) (whole x)) (height_at (knots_of self.now) (whole x)) }
    {
        let knots = self.knots();
        match knots.iter().position(|knot| knot.reaches(x)) {
            Some(0) => knots[0].level(),
            Some(n) => knots[n - 1].height_toward(knots[n], x),
            None => knots[knots.len() - 1].level(),
        }
    }

    // The whole counts between which the table lies over a cell: its least height there rounded down, its greatest rounded up.
    pub fn extent(&self, cell: Cell) -> Extent
        ensures rule { result ≡ extent_of (knots_of self.now) cell }
        ensures law { exists cell ≡ true → Extremes (knots_of self.now) cell }
    {
        let (left, right) = (self.height(cell.lo), self.height(cell.hi));
        self.knots().iter().filter(|knot| knot.is_inside(cell)).fold(
            left.joined(right),
            |extent, knot| extent.joined(knot.level()),
        )
    }
}
