// Where the entries of a list stand as it runs: one for each line that a list may have.
ghost use Rattle.std.specs.Prelude.{◌≡◌, true, List, length, replicate, slice_index_or, slice_set};
ghost use Rattle.codelist.specs.Bound.{line_limit};
ghost use Rattle.codelist.specs.Lines.{earlier};
ghost use Rattle.codelist.specs.Evaluate.{entry};
ghost use Rattle.codelist.specs.Kinds.{over};

use crate::lent::LentKind;
use crate::lines::Line;
use crate::places::{LINES, Place};
use family::cells::Cell;
use family::rows::{Row, reading_at};
use std::alloc::AllocError;

// A table of a kind's entries, of any make: it keeps them as it likes, and fills the place of a line by the kind's rules.
pub trait Entries<K: LentKind> {
    ghost table: { Self → List K.Entry };

    ghost sized: { (s : Self) → length (table s) ≡ line_limit };

    // The entry of a line into its place, from those of the lines before it: a list's lines read no others. No other place is touched.
    fn fill(&mut self, at: Place, line: Line, cell: Cell, row: &Row)
        ensures { earlier at.n line ≡ true → table self.new ≡ slice_set (table self.old) at.n (entry (over K.rules cell row.now) K.divided line (table self.old)) };
}

// The table of entries that are copied.
pub struct Table<E> {
    entries: [E; LINES],
    ghost sized: { length entries ≡ line_limit },
}

// By hand: tried, and the derive is refused for a struct with a type parameter and a ghost field.
impl<E: Copy> Clone for Table<E> {
    ghost is_clone = { λ x y. y ≡ x };

    ghost is_infallible = { λ _. Unit {0} };

    fn clone(&self) -> Result<Table<E>, AllocError> {
        Ok(*self)
    }
}

impl<E: Copy> Copy for Table<E> {}

impl<E: Copy> Table<E> {
    // Every entry is blank.
    pub fn new(blank: E) -> Table<E>
        ensures { result.entries ≡ replicate line_limit blank }
    {
        Table {
            entries: [blank; LINES],
        }
    }

    // The entry of a line.
    pub fn entry(&self, at: Place) -> E
        ensures { (blank : E) → result ≡ slice_index_or self.now.entries at.n blank }
    {
        self.entries[at.index()]
    }

    // What an operand reads: the entry of the line that it names, or blank where no line is.
    fn read(&self, i: u8, blank: E) -> E
        ensures { result ≡ slice_index_or self.now.entries i blank }
    {
        *self.entries.get(i as usize).unwrap_or(&blank)
    }

    // The entry of a line into its place; no other is touched.
    pub fn put(&mut self, at: Place, e: E)
        ensures { self.new.entries ≡ slice_set self.old.entries at.n e }
    {
        let n = at.index();
        self.entries[n] = e;
    }
}

impl<E: Copy, K: LentKind<Entry = E>> Entries<K> for Table<E> {
    ghost table = { λ t. t.entries };

    ghost sized = { λ t. t.sized };

    fn fill(&mut self, at: Place, line: Line, cell: Cell, row: &Row) {
        let e = entry_of::<E, K>(self, line, cell, row);
        self.put(at, e);
    }
}

// The entry of a line, from those that stand in the table.
fn entry_of<E: Copy, K: LentKind<Entry = E>>(
    table: &Table<E>,
    line: Line,
    cell: Cell,
    row: &Row,
) -> E
    ensures { result ≡ entry (over K.rules cell row.now) K.divided line table.now.entries }
{
    let blank = K::blank();
    match line {
        Line::X => K::x(cell),
        Line::C(v) => K::constant(v),
        Line::R(n) => K::reading(reading_at(row, n)),
        Line::Neg(i) => K::neg(&table.read(i, blank)),
        Line::Abs(i) => K::abs(&table.read(i, blank)),
        Line::Add(i, j) => K::add(&table.read(i, blank), &table.read(j, blank)),
        Line::Sub(i, j) => K::sub(&table.read(i, blank), &table.read(j, blank)),
        Line::Mul(i, j) => K::mul(&table.read(i, blank), &table.read(j, blank)),
        Line::Div(i, j) => K::div(&table.read(i, blank), &table.read(j, blank)),
        Line::Max(i, j) => K::max(&table.read(i, blank), &table.read(j, blank)),
        Line::Chi(s, q, r) => K::chi(
            &table.read(s, blank),
            &table.read(q, blank),
            &table.read(r, blank),
        ),
    }
}
