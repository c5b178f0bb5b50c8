// Lists made line by line.
ghost use Rattle.std.specs.Prelude.{◌≡◌};
ghost use Rattle.codelist.specs.Lists.{lines_of, Begun, push_answer, pushed};

use crate::lines::{Line, LineRefusal};
use crate::lists::CodeList;
use bounded::lists::Bounded;

impl CodeList {
    // A list of one line, or the refusal of that line.
    pub fn new(first: Line) -> Result<CodeList, LineRefusal>
        ensures { Begun first result }
    {
        first.fits(0)?;
        let lines = Bounded::try_from(&[first][..])?;
        Ok(CodeList { lines })
    }

    // One line more, or its refusal, which leaves the list as it was.
    pub fn push(&mut self, line: Line) -> Result<(), LineRefusal>
        ensures answer { result ≡ push_answer (lines_of self.old) line }
        ensures after { lines_of self.new ≡ pushed (lines_of self.old) line }
    {
        line.fits(self.lines.len())?;
        self.lines.push(line)?;
        Ok(())
    }

    // The lines, in order.
    pub fn lines(&self) -> &[Line]
        ensures { result.now ≡ lines_of self.now }
    {
        self.lines.as_slice()
    }
}
