// Two families as one: the second's numbers follow the first's.
ghost use Rattle.family.specs.PairLaws.{pair_lawful};
ghost use Rattle.family.specs.Pairing.{pair_count, pair_value, pair_answer};

use crate::cells::Cell;
use crate::families::Family;
use crate::rows::Row;
use interval::enclosures::Enclosure;

pub mod paired;

use paired::Pair;

// A family has at most so many curves; a pair leaves off those past that.
const MOST: usize = 1000;

impl<F: Family, G: Family> Family for Pair<F, G> {
    ghost count = { pair_count F.Family.count G.Family.count };

    ghost value = { pair_value F.Family.count F.Family.value G.Family.value };

    ghost answer = { pair_answer F.Family.count F.Family.answer G.Family.answer };

    ghost laws = { pair_lawful F.Family.laws G.Family.laws };

    fn curves(&self) -> usize {
        let (first, second) = (self.first.curves(), self.second.curves());
        first.saturating_add(second).min(MOST)
    }

    fn enclosure(&self, k: usize, cell: Cell, row: &Row) -> Enclosure {
        if k >= MOST {
            return Enclosure::NoBounds;
        }
        let first = self.first.curves();
        if k < first {
            self.first.enclosure(k, cell, row)
        } else {
            self.second.enclosure(k - first, cell, row)
        }
    }
}
