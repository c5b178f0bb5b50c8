// The enclosure of a list by slopes, and the family of lists with slopes.
ghost use Rattle.std.specs.Prelude.{◌≡◌, true};
ghost use Rattle.family.specs.Cells.{exists};
ghost use Rattle.slope.specs.Meaning.{HasBounds};
ghost use Rattle.codelist.specs.Lists.{lines_of};
ghost use Rattle.codelist.specs.Plain.{enclosure_of, list_value};
ghost use Rattle.slopes.specs.Family.{slope_enclosure, sloped_answer};
ghost use Rattle.slopes.specs.FamilyLaw.{sloped_law};

use crate::kind::Slopes;
use codelist::entries::Table;
use codelist::kinds::Kind;
use codelist::lists::CodeList;
use codelist::running::answer;
use family::cells::Cell;
use family::curves::{Curves, Enclosing};
use family::rows::Row;
use interval::enclosures::Enclosure;
use slope::entries::Slope;

// One pass over the list keeps v, u and s of every line; the answer is that of the last. Over a cell that exists it has bounds wherever
// the plain enclosure has.
pub fn enclosure_by_slopes(list: &CodeList, cell: Cell, row: &Row) -> Enclosure
    ensures rule { result ≡ slope_enclosure cell row.now (lines_of list.now) }
    ensures bounded { exists cell ≡ true → HasBounds (enclosure_of cell row.now (lines_of list.now)) → HasBounds result }
{
    let mut table = Table::new(Slopes::blank());
    let last = answer::<Slope, Slopes>(&mut table, list, cell, row);
    last.answer(cell)
}

// A family of curves given as code lists, asked with slopes.
pub type SlopeLists = Curves<CodeList, Slopes>;

impl Enclosing<CodeList> for Slopes {
    ghost value = { list_value };

    ghost answer = { sloped_answer };

    ghost laws = { sloped_law };

    fn enclosure(&self, list: &CodeList, cell: Cell, row: &Row) -> Enclosure {
        enclosure_by_slopes(list, cell, row)
    }
}
