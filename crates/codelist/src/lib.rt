// Code lists: a curve as lines of arithmetic, its exact value, and running it over any kind of value.
#![tactic(auto)]

pub mod entries;
pub mod intervals;
pub mod kinds;
pub mod lent;
pub mod lines;
pub mod lists;
pub mod places;
pub mod plain;
pub mod running;

#[cfg(test)]
mod tests {
    use crate::intervals::Intervals;
    use crate::kinds::Kind;
    use crate::lines::{Line, LineRefusal};
    use crate::lists::{CodeList, ListTable};
    use crate::plain::Lists;
    use bounded::lists::Full;
    use family::cells::Cell;
    use family::families::Family;
    use interval::enclosures::Enclosure;
    use std::test::Fail;

    fn over_one_to_two(list: CodeList) -> Result<Enclosure, Full> {
        let mut items = ListTable::new();
        items.push(list)?;
        let lists = Lists {
            items,
            way: Intervals,
        };
        Ok(lists.enclosure(0, Cell { lo: 1000, hi: 2000 }, &[None; 8]))
    }

    #[test]
    fn square_less_four(rt: HostRuntime) -> Result<(), Fail> {
        let mut list = CodeList::new(Line::X)?;
        list.push(Line::Mul(0, 0))?;
        list.push(Line::C(4000))?;
        list.push(Line::Sub(1, 2))?;
        assert_eq!(rt;
            over_one_to_two(list)?,
            Enclosure::Bounds { lo: -3000, hi: 0 }
        );
        Ok(())
    }

    #[test]
    fn product_of_factors(rt: HostRuntime) -> Result<(), Fail> {
        let mut list = CodeList::new(Line::X)?;
        list.push(Line::C(2000))?;
        list.push(Line::Sub(0, 1))?;
        list.push(Line::Add(0, 1))?;
        list.push(Line::Mul(2, 3))?;
        assert_eq!(rt;
            over_one_to_two(list)?,
            Enclosure::Bounds { lo: -4000, hi: 0 }
        );
        Ok(())
    }

    #[test]
    fn refusals(rt: HostRuntime) -> Result<(), Fail> {
        let mut list = CodeList::new(Line::X)?;
        assert_eq!(rt; list.push(Line::Add(0, 1)), Err(LineRefusal::Operand));
        assert_eq!(rt; list.push(Line::R(8)), Err(LineRefusal::Operand));
        assert_eq!(rt;
            list.push(Line::C(2_000_000_001)),
            Err(LineRefusal::Constant)
        );
        Ok(())
    }

    fn pair(lo: i32, hi: i32) -> Enclosure {
        Enclosure::Bounds { lo, hi }
    }

    #[test]
    fn operations_of_intervals(rt: HostRuntime) {
        let (e, f) = (pair(-1000, 2000), pair(3000, 4000));
        assert_eq!(rt; Intervals::neg(e), pair(-2000, 1000));
        assert_eq!(rt; Intervals::abs(e), pair(0, 2000));
        assert_eq!(rt; Intervals::add(e, f), pair(2000, 6000));
        assert_eq!(rt; Intervals::sub(e, f), pair(-5000, -1000));
        assert_eq!(rt; Intervals::mul(e, f), pair(-4000, 8000));
        assert_eq!(rt; Intervals::div(e, f), pair(-334, 667));
        assert_eq!(rt; Intervals::max(e, f), pair(3000, 4000));
        assert_eq!(rt; Intervals::chi(f, e, f), f);
    }
}
