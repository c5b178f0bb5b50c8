// The number of a line in a table of entries: it can only be made below the largest number of lines.
ghost use Rattle.std.specs.Prelude.{◌≡◌, ◌-◌, ◌<◌, min};
ghost use Rattle.codelist.specs.Bound.{line_limit};

// A list has at most so many lines.
pub const LINES: usize = 64;

#[derive(Clone, Copy)]
pub struct Place {
    n: usize,
    ghost below: { n < line_limit },
}

impl Place {
    // The place of that number, or the last place where there is no such line.
    pub fn clamped(n: usize) -> Place
        ensures { result.n ≡ min n (line_limit - 1) }
    {
        Place {
            n: n.min(LINES - 1),
        }
    }

    pub fn index(self) -> usize
        ensures value { result ≡ self.n }
        ensures below { result < line_limit }
    {
        self.n
    }
}
