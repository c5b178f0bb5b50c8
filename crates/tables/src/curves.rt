// The declared types.
use bounded::lists::Bounded;
use family::curves::{Curves, ROOM};
use knots::tables::KnotTable;

// As many tables as a family has room for.
pub type TableList = Bounded<KnotTable, ROOM>;

// The way of enclosing a knot table: its extent over the cell, less its reading.
#[derive(Clone, Copy)]
pub struct LessReading;

// A family of curves given as knot tables.
pub type Tables = Curves<KnotTable, LessReading>;
