// The commands of a book: by their first byte, and with their operands.
use codelist::lines::Line;

#[derive(Clone, Copy, PartialEq, Eq, Debug)]
pub enum Op {
    X,
    C,
    R,
    Neg,
    Abs,
    Add,
    Sub,
    Mul,
    Div,
    Max,
    Chi,
    Curve,
    End,
    Table,
}

// A command whose operands are there: a code line; CURVE, which opens a curve; END, which closes it; TABLE.
#[derive(Clone, Copy)]
pub enum Command {
    Line(Line),
    Open,
    Close,
    Table,
}
