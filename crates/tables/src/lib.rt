// Curves given as knot tables: a table less the true temperature of its reading.
#![tactic(auto)]

pub mod asking;
pub mod curves;

#[cfg(test)]
mod tests {
    use crate::asking::table_enclosure;
    use crate::curves::{LessReading, TableList, Tables};
    use family::cells::Cell;
    use family::families::Family;
    use family::readings::Reading;
    use interval::enclosures::Enclosure;
    use knots::knots::Knot;
    use knots::tables::KnotTable;
    use std::test::Fail;

    #[test]
    fn between_two_knots(rt: HostRuntime) -> Result<(), Fail> {
        let table = KnotTable::new(0, &[Knot { x: 0, y: 0 }, Knot { x: 1000, y: 3 }])?;
        let mut row = [None; 8];
        row[0] = Some(Reading::new(0, 0)?);
        let e = table_enclosure(&table, Cell { lo: 500, hi: 500 }, &row);
        assert_eq!(rt; e, Enclosure::Bounds { lo: 1, hi: 2 });
        Ok(())
    }

    #[test]
    fn family_of_one_table(rt: HostRuntime) -> Result<(), Fail> {
        let mut items = TableList::new();
        items.push(KnotTable::new(0, &[Knot { x: 0, y: 0 }, Knot { x: 1000, y: 3 }])?)?;
        let family = Tables {
            items,
            way: LessReading,
        };
        let mut row = [None; 8];
        row[0] = Some(Reading::new(1, 1)?);
        assert_eq!(rt; family.curves(), 1);
        assert_eq!(rt;
            family.enclosure(0, Cell { lo: 0, hi: 1000 }, &row),
            Enclosure::Bounds { lo: -1, hi: 2 }
        );
        assert_eq!(rt;
            family.enclosure(1, Cell { lo: 0, hi: 1000 }, &row),
            Enclosure::NoBounds
        );
        Ok(())
    }
}
