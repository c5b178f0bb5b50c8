// Why a book is refused, and where.
#[derive(Clone, Copy, PartialEq, Eq, Debug)]
pub enum Fault {
    // the book is longer than it may be
    TooLong,
    // no command has this first byte
    Unknown,
    // the operands, or the book, end too early
    CutShort,
    // a line or END outside a curve, CURVE or TABLE inside
    Misplaced,
    // a line that is not earlier, or a reading's number above 7
    Operand,
    // a constant or a knot beyond its limits
    Range,
    // one line too many, or END with no line
    Lines,
    // one curve or one table too many
    TooMany,
    // too few or too many knots, or an x that does not ascend
    Knots,
}

// What the refused command belongs to.
#[derive(Clone, Copy, PartialEq, Eq, Debug)]
pub enum Layer {
    // an order, not the book
    Orders,
    // the book itself
    Book,
    // CURVE, END or TABLE
    Record,
    // a code line
    Line,
}

// The offset is that of the refused command's first byte.
#[derive(Clone, Copy, PartialEq, Eq, Debug)]
pub struct Refusal {
    pub fault: Fault,
    pub layer: Layer,
    pub offset: usize,
}
