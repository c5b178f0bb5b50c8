// Lists with slopes: the kind that keeps a slope for each line, and the family that answers from it.
#![tactic(auto)]

pub mod asking;
pub mod kind;

#[cfg(test)]
mod tests {
    use crate::asking::enclosure_by_slopes;
    use crate::kind::Slopes;
    use codelist::kinds::Kind;
    use codelist::lines::Line;
    use codelist::lists::CodeList;
    use family::cells::Cell;
    use interval::enclosures::Enclosure;
    use slope::entries::Slope;
    use std::test::Fail;

    #[test]
    fn product_of_factors(rt: HostRuntime) -> Result<(), Fail> {
        let mut list = CodeList::new(Line::X)?;
        list.push(Line::C(2000))?;
        list.push(Line::Sub(0, 1))?;
        list.push(Line::Add(0, 1))?;
        list.push(Line::Mul(2, 3))?;
        let e = enclosure_by_slopes(&list, Cell { lo: 1000, hi: 2000 }, &[None; 8]);
        assert_eq!(rt; e, Enclosure::Bounds { lo: -3500, hi: 0 });
        Ok(())
    }

    fn pair(lo: i32, hi: i32) -> Enclosure {
        Enclosure::Bounds { lo, hi }
    }

    // At the middle, and from it, the same to either side.
    fn slope(v: Enclosure, u: i32, s: i32) -> Slope {
        Slope {
            v,
            u: pair(u, u),
            s: pair(s, s),
        }
    }

    #[test]
    fn operations_of_slopes(rt: HostRuntime) {
        let e = Slopes::x(Cell { lo: 1000, hi: 2000 });
        let f = Slopes::constant(2000);
        assert_eq!(rt; Slopes::neg(e), slope(pair(-2000, -1000), -1500, -1000));
        assert_eq!(rt; Slopes::abs(Slopes::neg(e)), e);
        assert_eq!(rt; Slopes::add(e, f), slope(pair(3000, 4000), 3500, 1000));
        assert_eq!(rt; Slopes::sub(e, f), slope(pair(-1000, 0), -500, 1000));
        assert_eq!(rt; Slopes::mul(e, f), slope(pair(2000, 4000), 3000, 2000));
        assert_eq!(rt; Slopes::div(e, f), slope(pair(500, 1000), 750, 500));
        assert_eq!(rt; Slopes::max(e, Slopes::constant(500)), e);
        assert_eq!(rt; Slopes::chi(e, f, e), e);
    }
}
