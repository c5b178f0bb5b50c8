// Running a list over any kind of value.
ghost use Rattle.std.specs.Prelude.{◌≡◌, length, take, drop, slice_index_or};
ghost use Rattle.codelist.specs.Lists.{lines_of};
ghost use Rattle.codelist.specs.Evaluate.{entries, last_entry};
ghost use Rattle.codelist.specs.Kinds.{over};
ghost use Rattle.codelist.specs.Runs.{Vouched};

use crate::entries::{Entries, Table};
use crate::lent::LentKind;
use crate::lists::CodeList;
use crate::places::Place;
use family::cells::Cell;
use family::rows::Row;

// Runs a list: the entry of each line into its place; the last line's place is the answer. What stands in later places stays.
// The caller makes the table: a function that makes one for any kind owes that its size fits in memory, and cannot show it.
pub fn run<K: LentKind, T: Entries<K>>(
    table: &mut T,
    list: &CodeList,
    cell: Cell,
    row: &Row,
) -> Place
    ensures entries { take (length (lines_of list.now)) (T.table table.new) ≡ entries (over K.rules cell row.now) K.divided (lines_of list.now) }
    ensures rest { drop (length (lines_of list.now)) (T.table table.new) ≡ drop (length (lines_of list.now)) (T.table table.old) }
    ensures vouched { Vouched K.vouches K.rules.blank (T.table table.new) (lines_of list.now) cell row.now }
    ensures last { slice_index_or (T.table table.new) result.n K.rules.blank ≡ last_entry (over K.rules cell row.now) K.divided (lines_of list.now) }
{
    let lines = list.lines();
    for (n, line) in lines.iter().enumerate() {
        table.fill(Place::clamped(n), *line, cell, row);
    }
    Place::clamped(lines.len().saturating_sub(1))
}

// Runs a list over entries that are copied; the last line's is the answer.
pub fn answer<E: Copy, K: LentKind<Entry = E>>(
    table: &mut Table<E>,
    list: &CodeList,
    cell: Cell,
    row: &Row,
) -> E
    ensures entries { take (length (lines_of list.now)) table.new.entries ≡ entries (over K.rules cell row.now) K.divided (lines_of list.now) }
    ensures rest { drop (length (lines_of list.now)) table.new.entries ≡ drop (length (lines_of list.now)) table.old.entries }
    ensures vouched { Vouched K.vouches K.rules.blank table.new.entries (lines_of list.now) cell row.now }
    ensures last { result ≡ last_entry (over K.rules cell row.now) K.divided (lines_of list.now) }
{
    let last = run::<K, Table<E>>(table, list, cell, row);
    table.entry(last)
}
