// Quotients of whole numbers, rounded down and up.
#![tactic(auto)]

ghost use Rattle.std.specs.Prelude.{◌≡◌};
ghost use Rattle.std.specs.Option.{IfSome};
ghost use Rattle.exact.specs.Rounding.{floor_div, ceil_div, IsFloor, IsCeiling};

// n/d rounded down. None where d is 0, or where the quotient passes 64 bits (i64::MIN by -1).
pub fn floor_div(n: i64, d: i64) -> Option<i64>
    ensures value { result ≡ floor_div n d }
    ensures meaning { IfSome result (IsFloor n d) }
{
    // `/` rounds toward zero: down, unless the signs differ. There n, one nearer to zero, gives one more than the floor.
    if n < 0 && d > 0 {
        Some((n + 1) / d - 1)
    } else if n > 0 && d < 0 {
        Some((n - 1) / d - 1)
    } else {
        n.checked_div(d)
    }
}

// n/d rounded up. None where d is 0, or where the quotient passes 64 bits (i64::MIN by -1).
// Not one function with a direction: each is a few lines, and they differ in a sign and a step.
pub fn ceil_div(n: i64, d: i64) -> Option<i64>
    ensures value { result ≡ ceil_div n d }
    ensures meaning { IfSome result (IsCeiling n d) }
{
    // `/` rounds toward zero: up, unless the signs agree. There n, one nearer to zero, gives one less than the ceiling.
    if n > 0 && d > 0 {
        Some((n - 1) / d + 1)
    } else if n < 0 && d < 0 {
        ((n + 1) / d).checked_add(1)
    } else {
        n.checked_div(d)
    }
}

#[cfg(test)]
mod tests {
    use super::*;

    #[test]
    fn rounds_by_either_sign(rt: HostRuntime) {
        assert_eq!(rt; floor_div(-7, 2), Some(-4));
        assert_eq!(rt; floor_div(7, -2), Some(-4));
        assert_eq!(rt; floor_div(-7, -2), Some(3));
        assert_eq!(rt; ceil_div(-7, 2), Some(-3));
        assert_eq!(rt; ceil_div(-7, -2), Some(4));
        assert_eq!(rt; floor_div(5, i64::MIN), Some(-1));
    }

    #[test]
    fn refuses_what_has_no_quotient(rt: HostRuntime) {
        assert_eq!(rt; floor_div(1, 0), None);
        assert_eq!(rt; ceil_div(i64::MIN, -1), None);
    }
}
