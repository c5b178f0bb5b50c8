// The rules of arithmetic on enclosures. Each answers its rule of specs/Rules.antt and keeps its law: where the operands hold
// their exact values, the answer holds the exact result. A rule that reads no bounds, or would have an end beyond the limit,
// answers no bounds.
ghost use Rattle.std.specs.Prelude.{◌≡◌};
ghost use Rattle.exact.specs.Fraction.{plus, minus, negated, times, absolute, larger};
ghost use Rattle.exact.specs.Value.{Value, each, both, quotient};
ghost use Rattle.interval.specs.Rules.{OnOne, OnBoth, neg, add, sub, mul, div, abs, max, hull, common, branch, held, chi};
ghost use Rattle.interval.specs.Meaning.{Holds, Chooses, Follows, Law1, Law2, HullLaw, CommonLaw, BranchLaw};

use crate::enclosures::Enclosure::{Bounds, NoBounds};
use crate::enclosures::{Branch, Enclosure};
use crate::ends::{divide, farthest_size, keep, multiply, nearest_size};
use std::ops::{Add, Div, Mul, Neg, Sub};

// What f makes of the ends; no bounds where there are none.
fn on_one<F: FnOnce(i32, i32) -> Enclosure>(p: Enclosure, f: F) -> Enclosure
    requires { F.IsAlwaysCallable f }
    ensures { OnOne (F.post f) p result }
{
    match p {
        Bounds { lo, hi } => f(lo, hi),
        NoBounds => NoBounds,
    }
}

// The same of two pairs.
fn on_both<F: FnOnce(i32, i32, i32, i32) -> Enclosure>(
    p: Enclosure,
    q: Enclosure,
    f: F,
) -> Enclosure
    requires { F.IsAlwaysCallable f }
    ensures { OnBoth (F.post f) p q result }
{
    match (p, q) {
        (Bounds { lo: a, hi: b }, Bounds { lo: d, hi: e }) => f(a, b, d, e),
        _ => NoBounds,
    }
}

// −[a,b] is [−b,−a].
impl Neg for Enclosure {
    type Output = Enclosure;

    ghost neg_gives = { λ p r. Follows (neg p) (Law1 (each negated) p) r };

    fn neg(self) -> Enclosure {
        on_one(self, |a, b| keep(-(b as i64), -(a as i64)))
    }
}

// [a,b] + [d,e] is [a + d, b + e].
impl Add for Enclosure {
    type Output = Enclosure;

    ghost add_gives = { λ p q r. Follows (add p q) (Law2 (both plus) p q) r };

    fn add(self, other: Enclosure) -> Enclosure {
        on_both(self, other, |a, b, d, e| {
            keep(a as i64 + d as i64, b as i64 + e as i64)
        })
    }
}

// [a,b] − [d,e] is [a − e, b − d].
impl Sub for Enclosure {
    type Output = Enclosure;

    ghost sub_gives = { λ p q r. Follows (sub p q) (Law2 (both minus) p q) r };

    fn sub(self, other: Enclosure) -> Enclosure {
        on_both(self, other, |a, b, d, e| {
            keep(a as i64 - e as i64, b as i64 - d as i64)
        })
    }
}

// The four products of ends over 1000: the least rounded down, the greatest rounded up.
impl Mul for Enclosure {
    type Output = Enclosure;

    ghost mul_gives = { λ p q r. Follows (mul p q) (Law2 (both times) p q) r };

    fn mul(self, other: Enclosure) -> Enclosure {
        on_both(self, other, |a, b, d, e| multiply(a, b, d, e))
    }
}

// The four quotients 1000·end/end, rounded likewise; no bounds where the divisor spans zero.
impl Div for Enclosure {
    type Output = Enclosure;

    ghost div_gives = { λ p q r. Follows (div p q) (Law2 quotient p q) r };

    fn div(self, other: Enclosure) -> Enclosure {
        on_both(self, other, |a, b, d, e| divide(a, b, d, e))
    }
}

impl Enclosure {
    // From 0, or from the end nearer to zero where the pair does not span zero, to the end farther from it.
    pub fn abs(self) -> Enclosure
        ensures { Follows (abs self) (Law1 (each absolute) self) result }
    {
        on_one(self, |a, b| keep(nearest_size(a, b), farthest_size(a, b)))
    }

    // The larger of two, end by end.
    pub fn max(self, other: Enclosure) -> Enclosure
        ensures { Follows (max self other) (Law2 (both larger) self other) result }
    {
        on_both(self, other, |a, b, d, e| {
            keep(a.max(d) as i64, b.max(e) as i64)
        })
    }

    // The least pair that has both.
    pub fn hull(self, other: Enclosure) -> Enclosure
        ensures { Follows (hull self other) (HullLaw self other) result }
    {
        on_both(self, other, |a, b, d, e| {
            keep(a.min(d) as i64, b.max(e) as i64)
        })
    }

    // What two pairs share; no bounds where they share nothing.
    pub fn common(self, other: Enclosure) -> Enclosure
        ensures { Follows (common self other) (CommonLaw self other) result }
    {
        on_both(self, other, |a, b, d, e| {
            let (lo, hi) = (a.max(d), b.min(e));
            if lo <= hi {
                keep(lo as i64, hi as i64)
            } else {
                NoBounds
            }
        })
    }

    // Which lines the branch reads where this enclosure chooses.
    pub fn branch(self) -> Branch
        ensures rule { result ≡ branch self }
        ensures law { (x : Value) → Holds self x → Chooses result x }
    {
        let Bounds { lo, hi } = self else {
            return Branch::Neither;
        };
        if hi < 0 {
            Branch::First
        } else if 0 < lo {
            Branch::Second
        } else {
            Branch::Both
        }
    }

    // The enclosure itself, unless an end lies beyond the limit.
    pub fn held(self) -> Enclosure
        ensures { result ≡ held self }
    {
        on_one(self, |a, b| keep(a as i64, b as i64))
    }

    // q where self lies below zero, r where above, else their hull. A line that is not chosen is not read.
    #[tactic(auto, using(crate::proofs::Laws::chi_follows), unfolding(crate::specs::Rules::chi))]
    pub fn chi(self, q: Enclosure, r: Enclosure) -> Enclosure
        ensures { Follows (chi self q r) (BranchLaw self q r) result }
    {
        match self.branch() {
            Branch::First => q.held(),
            Branch::Second => r.held(),
            Branch::Both => q.hull(r),
            Branch::Neither => NoBounds,
        }
    }
}
