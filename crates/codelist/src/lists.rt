// A code list: 1 to 64 lines, each reading only earlier lines. It can only be made valid.
ghost use Rattle.std.specs.Prelude.{◌≡◌, ◌<◌, true, length};
ghost use Rattle.bounded.specs.Lists.{items_of};
ghost use Rattle.codelist.specs.Lines.{valid};

use crate::lines::Line;
use crate::places::LINES;
use bounded::lists::Bounded;
use family::curves::ROOM;

#[derive(Clone, Copy)]
pub struct CodeList {
    lines: Bounded<Line, LINES>,
    ghost some: { 0 < length (items_of lines) },
    ghost sound: { valid 0 (items_of lines) ≡ true },
}

// As many lists as a family has room for.
pub type ListTable = Bounded<CodeList, ROOM>;

pub mod made;
