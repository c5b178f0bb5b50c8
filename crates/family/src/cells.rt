// A cell: two openings in counts, and all points between them.
ghost use Rattle.std.specs.Prelude.{◌≡◌};
ghost use Rattle.family.specs.Cells.{exists, middle};

// Openings lie from -SPAN to SPAN.
pub const SPAN: i32 = 1_000_000;

#[derive(Clone, Copy, PartialEq, Eq, Debug)]
pub struct Cell {
    pub lo: i32,
    pub hi: i32,
}

impl Cell {
    // A cell exists when its ends ascend and are openings.
    pub fn exists(self) -> bool
        ensures { result ≡ exists self }
    {
        -SPAN <= self.lo && self.lo <= self.hi && self.hi <= SPAN
    }

    // The middle of the cell, rounded down.
    pub fn middle(self) -> i32
        ensures { result ≡ middle self }
    {
        (self.lo as i64 + self.hi as i64).div_euclid(2) as i32
    }
}
