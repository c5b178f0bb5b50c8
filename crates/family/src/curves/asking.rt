// Curves as a family.
ghost use Rattle.family.specs.Items.{item_count, item_value, item_answer};
ghost use Rattle.family.specs.ItemLaws.{items_lawful};

use crate::cells::Cell;
use crate::curves::{Curves, Enclosing};
use crate::families::Family;
use crate::rows::Row;
use interval::enclosures::Enclosure;

impl<T: Copy, W: Enclosing<T>> Family for Curves<T, W> {
    ghost count = { item_count };

    ghost value = { item_value W.value };

    ghost answer = { item_answer W.answer };

    ghost laws = { items_lawful W.laws };

    fn curves(&self) -> usize {
        self.items.len()
    }

    fn enclosure(&self, k: usize, cell: Cell, row: &Row) -> Enclosure {
        if !cell.exists() {
            return Enclosure::NoBounds;
        }
        match self.items.get(k) {
            Some(item) => self.way.enclosure(item, cell, row),
            None => Enclosure::NoBounds,
        }
    }
}
