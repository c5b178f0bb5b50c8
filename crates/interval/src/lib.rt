// Enclosures: what is known of a curve's value, as a pair of whole counts (thousandths), and arithmetic on them.
#![tactic(auto)]

pub mod enclosures;
mod ends;
pub mod rules;
pub mod signs;

#[cfg(test)]
mod tests {
    use crate::enclosures::Enclosure;

    fn pair(lo: i32, hi: i32) -> Enclosure {
        Enclosure::Bounds { lo, hi }
    }

    #[test]
    fn products_and_quotients(rt: HostRuntime) {
        assert_eq!(rt; pair(1, 1) * pair(1, 1), pair(0, 1));
        assert_eq!(rt; pair(-1, -1) * pair(1, 1), pair(-1, 0));
        assert_eq!(rt; pair(1000, 1000) / pair(3000, 3000), pair(333, 334));
        assert_eq!(rt; pair(1000, 1000) / pair(0, 5), Enclosure::NoBounds);
    }

    #[test]
    fn sums_at_the_limit(rt: HostRuntime) {
        let (large, more) = (
            pair(1_500_000_000, 1_500_000_000),
            pair(600_000_000, 600_000_000),
        );
        assert_eq!(rt; large + more, Enclosure::NoBounds);
        let limit = pair(2_000_000_000, 2_000_000_000);
        assert_eq!(rt; limit + pair(0, 0), limit);
    }

    #[test]
    fn sizes_and_branches(rt: HostRuntime) {
        assert_eq!(rt; pair(-5, 3).abs(), pair(0, 5));
        assert_eq!(rt; pair(0, 2).chi(pair(5, 6), pair(8, 9)), pair(5, 9));
        assert_eq!(rt; pair(1, 2).chi(pair(5, 6), pair(8, 9)), pair(8, 9));
    }
}
