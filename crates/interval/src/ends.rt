// Pairs of 64-bit ends on the way to an enclosure. The sizes of ends are such that no sum or product here passes 64 bits.
ghost use Rattle.std.specs.Prelude.{◌≡◌, ◌^◌, ◌≤◌, pos, ◌*ℤ◌, ◌≢◌, unsigned_abs};
ghost use Rattle.exact.specs.Rounding.{floor, ceiling};
ghost use Rattle.interval.specs.Rules.{within, kept, products, quotients, quotients_apart, least, greatest, spans_zero, nearest, farthest};

use crate::enclosures::{Enclosure, LIMIT};
use exact::{ceil_div, floor_div};

// Whether an end lies within the limit.
fn within(z: i64) -> bool
    ensures { result ≡ within z }
{
    (-LIMIT as i64..=LIMIT as i64).contains(&z)
}

// The pair, or no bounds where an end lies beyond the limit.
pub fn keep(lo: i64, hi: i64) -> Enclosure
    ensures { result ≡ kept lo hi }
{
    if within(lo) && within(hi) {
        Enclosure::Bounds {
            lo: lo as i32,
            hi: hi as i32,
        }
    } else {
        Enclosure::NoBounds
    }
}

// Whether zero lies from lo to hi.
pub fn spans_zero(lo: i32, hi: i32) -> bool
    ensures { result ≡ spans_zero lo hi }
{
    (lo..=hi).contains(&0)
}

// The least and the greatest distance of a pair from zero.
pub fn nearest_size(lo: i32, hi: i32) -> i64
    ensures { result ≡ nearest lo hi }
{
    if spans_zero(lo, hi) {
        0
    } else {
        (lo as i64).abs().min((hi as i64).abs())
    }
}

pub fn farthest_size(lo: i32, hi: i32) -> i64
    ensures { result ≡ farthest lo hi }
{
    (lo as i64).abs().max((hi as i64).abs())
}

// Of four numbers, and not of an array: the clauses name each. Two functions of a line: one over both would take the choice and its promise.
fn least_of(a: i64, b: i64, c: i64, d: i64) -> i64
    ensures { result ≡ least a b c d }
{
    a.min(b).min(c.min(d))
}

fn greatest_of(a: i64, b: i64, c: i64, d: i64) -> i64
    ensures { result ≡ greatest a b c d }
{
    a.max(b).max(c.max(d))
}

fn times(a: i32, d: i32) -> i64
    ensures value { result ≡ a *ℤ d }
    ensures size { unsigned_abs result ≤ 2 ^ 62 }
{
    a as i64 * d as i64
}

// n/d rounded down and up. A quotient of such numbers always fits, so the 0 stands for nothing. One function that takes the rounding
// would have to take what it promises too, which is no plainer; nor is a type for a dividend of that size or a divisor that is not 0,
// which would be made for each of eight quotients and taken apart at once.
fn down(n: i64, d: i64) -> i64
    requires size { unsigned_abs n ≤ 2 ^ 62 }
    requires nonzero { d ≢ pos 0 }
    ensures { result ≡ floor n d }
{
    floor_div(n, d).unwrap_or(0)
}

fn up(n: i64, d: i64) -> i64
    requires size { unsigned_abs n ≤ 2 ^ 62 }
    requires nonzero { d ≢ pos 0 }
    ensures { result ≡ ceiling n d }
{
    ceil_div(n, d).unwrap_or(0)
}

// The four products of ends over 1000, the least rounded down and the greatest rounded up. By ends, as all of
// this file: a rule takes them out of its pairs in a pattern, and a struct of two would be made to be taken apart again.
pub fn multiply(a: i32, b: i32, d: i32, e: i32) -> Enclosure
    ensures { result ≡ products a b d e }
{
    let (ad, ae, bd, be) = (times(a, d), times(a, e), times(b, d), times(b, e));
    let lo = down(least_of(ad, ae, bd, be), 1000);
    let hi = up(greatest_of(ad, ae, bd, be), 1000);
    keep(lo, hi)
}

// The four quotients 1000·end/end, rounded down and up, by ends that are not 0.
fn quotients_of(a: i32, b: i32, d: i32, e: i32) -> Enclosure
    requires left { d ≢ pos 0 }
    requires right { e ≢ pos 0 }
    ensures { result ≡ quotients a b d e }
{
    let (m, n) = (times(1000, a), times(1000, b));
    let (d, e) = (d as i64, e as i64);
    let lo = least_of(down(m, d), down(m, e), down(n, d), down(n, e));
    let hi = greatest_of(up(m, d), up(m, e), up(n, d), up(n, e));
    keep(lo, hi)
}

// The same, or no bounds where zero lies between the divisor's ends.
pub fn divide(a: i32, b: i32, d: i32, e: i32) -> Enclosure
    ensures { result ≡ quotients_apart a b d e }
{
    if spans_zero(d, e) || spans_zero(e, d) {
        return Enclosure::NoBounds;
    }
    quotients_of(a, b, d, e)
}
