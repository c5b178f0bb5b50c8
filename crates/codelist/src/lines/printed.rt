// A line as text: its operation and its operands.
ghost use Rattle.std.specs.Prelude.{Some};
ghost use Rattle.codelist.specs.Text.{text_of};

use crate::lines::Line;
use std::fmt;

impl fmt::Display for Line {
    ghost output = { λ line. Some (text_of line) };

    fn fmt<W: fmt::Write>(&self, f: &mut fmt::Formatter<W>) -> fmt::Result {
        match *self {
            Line::X => f.write_str("X"),
            Line::C(v) => write!(f, "C {v}"),
            Line::R(n) => write!(f, "R {n}"),
            Line::Neg(i) => write!(f, "NEG {i}"),
            Line::Abs(i) => write!(f, "ABS {i}"),
            Line::Add(i, j) => write!(f, "ADD {i} {j}"),
            Line::Sub(i, j) => write!(f, "SUB {i} {j}"),
            Line::Mul(i, j) => write!(f, "MUL {i} {j}"),
            Line::Div(i, j) => write!(f, "DIV {i} {j}"),
            Line::Max(i, j) => write!(f, "MAX {i} {j}"),
            Line::Chi(s, q, r) => write!(f, "CHI {s} {q} {r}"),
        }
    }
}
