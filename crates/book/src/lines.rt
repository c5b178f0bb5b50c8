// Reading the lines of a curve.
ghost use Rattle.std.specs.Prelude.{◌≡◌, [], length, drop};
ghost use Rattle.book.specs.Lines.{fault_of, lines_from};
ghost use Rattle.book.specs.Reading.{lines_in, Grown, Stepped, Read};

use crate::commands::read_command;
use crate::ops::Command;
use crate::refusals::{Fault, Layer, Refusal};
use codelist::lines::{Line, LineRefusal};
use codelist::lists::CodeList;

// The list with one line more, begun with it where there is none yet.
fn grown(list: Option<CodeList>, line: Line) -> Result<CodeList, Fault>
    ensures { Grown (lines_in list) line result }
{
    let Some(mut list) = list else {
        return Ok(CodeList::new(line)?);
    };
    list.push(line)?;
    Ok(list)
}

impl From<LineRefusal> for Fault {
    ghost from_gives = { λ refusal fault. fault ≡ fault_of refusal };

    fn from(refusal: LineRefusal) -> Fault {
        match refusal {
            LineRefusal::Operand => Fault::Operand,
            LineRefusal::Constant => Fault::Range,
            LineRefusal::Full => Fault::Lines,
        }
    }
}

// What a command inside a curve does: the list has one line more, whose operands take so many bytes; or it is closed.
#[derive(Clone, Copy)]
pub enum Step {
    Line(CodeList, usize),
    Close(CodeList),
}

// The command that bytes begin with, at that offset, inside a curve with those lines.
fn next_line(bytes: &[u8], at: usize, list: Option<CodeList>) -> Result<Step, Refusal>
    ensures { Stepped (lines_in list) at bytes.now result }
{
    let (command, width) = read_command(bytes, at)?;
    match command {
        Command::Line(line) => {
            let list = grown(list, line).map_err(|fault| fault.at(Layer::Line, at))?;
            Ok(Step::Line(list, width))
        }
        Command::Close => Ok(Step::Close(list.ok_or(Fault::Lines.at(Layer::Record, at))?)),
        Command::Open | Command::Table => Err(Fault::Misplaced.at(Layer::Record, at)),
    }
}

// The lines from that offset to END, as a list, and END's offset. By offsets and not over items: each command tells how far it is to the next.
pub fn read_lines(book: &[u8], from: usize) -> Result<(CodeList, usize), Refusal>
    ensures { Read (lines_from [] 0 from (drop from book.now)) from (length book.now) result }
{
    let mut list = None;
    let mut at = from;
    while at < book.len() {
        match next_line(&book[at..], at, list)? {
            Step::Line(longer, width) => {
                list = Some(longer);
                at += 1 + width;
            }
            Step::Close(list) => return Ok((list, at)),
        }
    }
    Err(Fault::CutShort.at(Layer::Record, at))
}
