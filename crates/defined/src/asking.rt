// Whether a curve surely has a value over a cell.
ghost use Rattle.std.specs.Prelude.{◌≡◌, true};
ghost use Rattle.exact.specs.Fraction.{Fraction};
ghost use Rattle.family.specs.Cells.{exists, InCell};
ghost use Rattle.family.specs.Readings.{Temperatures, Allowed};
ghost use Rattle.codelist.specs.Lists.{lines_of};
ghost use Rattle.codelist.specs.Exact.{value_of};
ghost use Rattle.defined.specs.Defined.{HasValue, sure_of};

use crate::kind::Defined;
use codelist::entries::Table;
use codelist::kinds::Kind;
use codelist::lists::CodeList;
use codelist::running::answer;
use family::cells::Cell;
use family::rows::Row;

// True only where the curve has a value at every point of the cell, for all temperatures that the row allows.
#[tactic(auto, using(crate::proofs::Sure::sure_holds))]
pub fn surely_has_value(list: &CodeList, cell: Cell, row: &Row) -> bool
    ensures rule { result ≡ sure_of cell row.now (lines_of list.now) }
    ensures law { (t : Temperatures) (p : Fraction) → exists cell ≡ true → Allowed row.now t → InCell cell p → HasValue result (value_of t p (lines_of list.now)) }
{
    let mut table = Table::new(Defined::blank());
    answer::<bool, Defined>(&mut table, list, cell, row)
}
