// Slopes of lines that turn: the larger of two, the absolute value, the branch. Each takes the parts that its rule reads.
ghost use Rattle.std.specs.Prelude.{◌≡◌};
ghost use Rattle.slope.specs.Rules.{larger_slope, bent_slope, chosen_slope};

use interval::enclosures::Enclosure::{Bounds, NoBounds};
use interval::enclosures::{Branch, Enclosure};

// The slope s or t of the line whose v or w lies strictly above the other, else both.
pub fn larger_slope(v: Enclosure, w: Enclosure, s: Enclosure, t: Enclosure) -> Enclosure
    ensures { result ≡ larger_slope v w s t }
{
    let (Bounds { lo: a, hi: b }, Bounds { lo: d, hi: e }) = (v, w) else {
        return NoBounds;
    };
    if e < a {
        s
    } else if b < d {
        t
    } else {
        s.hull(t)
    }
}

// s where v does not go below zero, -s where it does not go above, else both.
pub fn bent_slope(v: Enclosure, s: Enclosure) -> Enclosure
    ensures { result ≡ bent_slope v s }
{
    let Bounds { lo, hi } = v else {
        return NoBounds;
    };
    if lo >= 0 {
        s
    } else if hi <= 0 {
        -s
    } else {
        s.hull(-s)
    }
}

// The slope of the line that v chooses over the whole cell.
pub fn chosen_slope(v: Enclosure, q: Enclosure, r: Enclosure) -> Enclosure
    ensures { result ≡ chosen_slope v q r }
{
    match v.branch() {
        Branch::First => q,
        Branch::Second => r,
        Branch::Both | Branch::Neither => NoBounds,
    }
}
