// The declared type. What it says of exact values stands in specs/Meaning.antt.
use interval::enclosures::Enclosure;
use std::fmt;

// v over the cell, u at its middle, s the slope from the middle to any point; each may be lacking.
#[derive(Clone, Copy, PartialEq, Eq, Debug)]
pub struct Slope {
    pub v: Enclosure,
    pub u: Enclosure,
    pub s: Enclosure,
}

impl fmt::Display for Slope {
    ghost use Rattle.std.specs.Prelude.{Some};
    ghost use Rattle.slope.specs.Printed.{printed_slope};

    ghost output = { λ i. Some (printed_slope i) };

    fn fmt<W: fmt::Write>(&self, f: &mut fmt::Formatter<W>) -> fmt::Result {
        write!(f, "V {}, U {}, S {}", self.v, self.u, self.s)
    }
}
