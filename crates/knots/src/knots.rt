// A measured point: the table's height y at the opening x, both in counts.
#[derive(Clone, Copy, PartialEq, Eq, Debug)]
pub struct Knot {
    pub x: i32,
    pub y: i32,
}

// Why a table is refused.
#[derive(Clone, Copy, PartialEq, Eq, Debug)]
pub enum TableRefusal {
    // the reading's number is above 7
    Reading,
    // a knot's x is no opening, or its y lies beyond the limit
    Range,
    // fewer than 2 or more than 16 knots, or an x that does not ascend
    Knots,
}
