// A line of a code list, one case for each operation. Operands are the numbers of earlier lines.
#[derive(Clone, Copy, PartialEq, Eq, Debug)]
pub enum Line {
    // the point
    X,
    // a constant, in counts
    C(i32),
    // the true temperature of a reading
    R(u8),
    Neg(u8),
    Abs(u8),
    Add(u8, u8),
    Sub(u8, u8),
    Mul(u8, u8),
    Div(u8, u8),
    Max(u8, u8),
    // the second line if the first is below zero, else the third
    Chi(u8, u8, u8),
}

// Why a line is refused.
#[derive(Clone, Copy, PartialEq, Eq, Debug)]
pub enum LineRefusal {
    // an operand is no earlier line, or the reading's number is above 7
    Operand,
    // the constant lies beyond the limit
    Constant,
    // the list has as many lines as it may have
    Full,
}

mod fitting;
mod printed;
