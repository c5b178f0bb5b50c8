// Plain lists as a family: the enclosure of a curve is the entry of its last line, run over the interval kind.
ghost use Rattle.codelist.specs.Plain.{list_value, list_answer};
ghost use Rattle.codelist.specs.PlainLaw.{plain_law};

use crate::entries::Table;
use crate::intervals::Intervals;
use crate::kinds::Kind;
use crate::lists::CodeList;
use crate::running::answer;
use family::cells::Cell;
use family::curves::{Curves, Enclosing};
use family::rows::Row;
use interval::enclosures::Enclosure;

// A family of curves given as code lists.
pub type Lists = Curves<CodeList, Intervals>;

impl Enclosing<CodeList> for Intervals {
    ghost value = { list_value };

    ghost answer = { list_answer };

    ghost laws = { plain_law };

    fn enclosure(&self, list: &CodeList, cell: Cell, row: &Row) -> Enclosure {
        let mut table = Table::new(Intervals::blank());
        answer::<Enclosure, Intervals>(&mut table, list, cell, row)
    }
}
