// The rules on entries with slopes. Each answers its rule of specs/Rules.antt and keeps its law: where the operands vouch for values
// at a point and at the middle, the answer vouches for the exact results there.
ghost use Rattle.std.specs.Prelude.{◌≡◌};
ghost use Rattle.exact.specs.Fraction.{plus, minus, negated, times, absolute, larger};
ghost use Rattle.exact.specs.Value.{each, both, quotient, choice};
ghost use Rattle.interval.specs.Rules.{held};
ghost use Rattle.interval.specs.declared.enclosures.Enclosure.TheVariants.{Bounds};
ghost use Rattle.slope.specs.Rules.{x_slope, level_slope, constant_slope, reading_slope, neg_slope, abs_slope, add_slope, sub_slope, mul_slope, div_slope, max_slope, chi_slope, answer_of};
ghost use Rattle.slope.specs.Meaning.{Follows, Law1, Law2, Law3};

use crate::entries::Slope;
use crate::turning::{bent_slope, chosen_slope, larger_slope};
use family::cells::Cell;
use family::readings::Reading;
use family::rows::reading_pair;
use interval::enclosures::Enclosure;
use std::ops::{Add, Div, Mul, Neg, Sub};

// The pair of two ends.
fn pair(lo: i32, hi: i32) -> Enclosure
    ensures { result ≡ held (Bounds lo hi) }
{
    Enclosure::Bounds { lo, hi }.held()
}

impl Slope {
    // The point: its slope is 1.
    pub fn x(cell: Cell) -> Slope
        ensures { result ≡ x_slope cell }
    {
        let middle = cell.middle();
        Slope {
            v: pair(cell.lo, cell.hi),
            u: pair(middle, middle),
            s: pair(1000, 1000),
        }
    }

    // What is the same at every point: its slope is 0.
    fn level(e: Enclosure) -> Slope
        ensures { result ≡ level_slope e }
    {
        Slope {
            v: e,
            u: e,
            s: pair(0, 0),
        }
    }

    // A constant.
    pub fn constant(v: i32) -> Slope
        ensures { result ≡ constant_slope v }
    {
        Slope::level(pair(v, v))
    }

    // A temperature.
    pub fn reading(o: Option<Reading>) -> Slope
        ensures { result ≡ reading_slope o }
    {
        Slope::level(reading_pair(o))
    }
}

// The rules below name each part, also where all three follow one rule: a function over three parts would take the rule with its promise, and be
// longer than the three lines.

// Part by part.
impl Neg for Slope {
    type Output = Slope;

    ghost neg_gives = { λ i r. Follows (neg_slope i) (Law1 (each negated) i) r };

    #[tactic(auto, using(crate::proofs::Keeps::neg_follows))]
    fn neg(self) -> Slope {
        Slope {
            v: -self.v,
            u: -self.u,
            s: -self.s,
        }
    }
}

// Part by part.
impl Add for Slope {
    type Output = Slope;

    ghost add_gives = { λ i j r. Follows (add_slope i j) (Law2 (both plus) i j) r };

    #[tactic(auto, using(crate::proofs::Keeps::add_follows))]
    fn add(self, other: Slope) -> Slope {
        Slope {
            v: self.v + other.v,
            u: self.u + other.u,
            s: self.s + other.s,
        }
    }
}

// Part by part.
impl Sub for Slope {
    type Output = Slope;

    ghost sub_gives = { λ i j r. Follows (sub_slope i j) (Law2 (both minus) i j) r };

    #[tactic(auto, using(crate::proofs::Keeps::sub_follows))]
    fn sub(self, other: Slope) -> Slope {
        Slope {
            v: self.v - other.v,
            u: self.u - other.u,
            s: self.s - other.s,
        }
    }
}

// v times the other's slope, plus the slope times the other's u.
impl Mul for Slope {
    type Output = Slope;

    ghost mul_gives = { λ i j r. Follows (mul_slope i j) (Law2 (both times) i j) r };

    #[tactic(auto, using(crate::proofs::Keeps::mul_follows))]
    fn mul(self, other: Slope) -> Slope {
        Slope {
            v: self.v * other.v,
            u: self.u * other.u,
            s: self.v * other.s + self.s * other.u,
        }
    }
}

// The slope less the quotient at the middle times the other's slope, over the other's v.
impl Div for Slope {
    type Output = Slope;

    ghost div_gives = { λ i j r. Follows (div_slope i j) (Law2 quotient i j) r };

    #[tactic(auto, using(crate::proofs::Keeps::div_follows))]
    fn div(self, other: Slope) -> Slope {
        let u = self.u / other.u;
        Slope {
            v: self.v / other.v,
            u,
            s: (self.s - u * other.s) / other.v,
        }
    }
}

impl Slope {
    // The slope bends where v may change its sign.
    #[tactic(auto, using(crate::proofs::Keeps::abs_follows))]
    pub fn abs(self) -> Slope
        ensures { Follows (abs_slope self) (Law1 (each absolute) self) result }
    {
        Slope {
            v: self.v.abs(),
            u: self.u.abs(),
            s: bent_slope(self.v, self.s),
        }
    }

    // The slope of the line that lies strictly above, else both.
    #[tactic(auto, using(crate::proofs::Keeps::max_follows))]
    pub fn max(self, other: Slope) -> Slope
        ensures { Follows (max_slope self other) (Law2 (both larger) self other) result }
    {
        Slope {
            v: self.v.max(other.v),
            u: self.u.max(other.u),
            s: larger_slope(self.v, other.v, self.s, other.s),
        }
    }

    // The slope of the line that v chooses over the whole cell.
    #[tactic(auto, using(crate::proofs::Keeps::chi_follows))]
    pub fn chi(self, q: Slope, r: Slope) -> Slope
        ensures { Follows (chi_slope self q r) (Law3 choice self q r) result }
    {
        Slope {
            v: self.v.chi(q.v, r.v),
            u: self.u.chi(q.u, r.u),
            s: chosen_slope(self.v, q.s, r.s),
        }
    }

    // The enclosure over the cell [a,b] with the middle c: the part common to v and u + s·[a − c, b − c]; v alone where that sum is
    // lacking.
    pub fn answer(self, cell: Cell) -> Enclosure
        ensures { result ≡ answer_of cell self }
    {
        let middle = cell.middle();
        let reach = pair(cell.lo, cell.hi) - pair(middle, middle);
        match self.u + self.s * reach {
            Enclosure::NoBounds => self.v,
            sum => self.v.common(sum),
        }
    }
}
