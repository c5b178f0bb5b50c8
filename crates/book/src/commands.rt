// The numbers of refusals and layers; what a command is by its first byte and its operands.
ghost use Rattle.std.specs.Prelude.{◌≡◌, ok_or};
ghost use Rattle.book.specs.declared.refusals.Fault.TheVariants.{Unknown};
ghost use Rattle.book.specs.Ops.{op_of, layer_of, operand_bytes, frame_at, command_at};
ghost use Rattle.book.specs.Numbers.{fault_number, layer_number};
ghost use Rattle.book.specs.Lines.{refused, command_read};

use crate::ops::{Command, Op};
use crate::refusals::{Fault, Layer, Refusal};
use codelist::lines::Line;

impl From<Fault> for u8 {
    ghost from_gives = { λ fault n. n ≡ fault_number fault };

    fn from(fault: Fault) -> u8 {
        match fault {
            Fault::TooLong => 20,
            Fault::Unknown => 21,
            Fault::CutShort => 22,
            Fault::Misplaced => 23,
            Fault::Operand => 24,
            Fault::Range => 25,
            Fault::Lines => 26,
            Fault::TooMany => 27,
            Fault::Knots => 28,
        }
    }
}

impl From<Layer> for u8 {
    ghost from_gives = { λ layer n. n ≡ layer_number layer };

    fn from(layer: Layer) -> u8 {
        match layer {
            Layer::Orders => 0,
            Layer::Book => 1,
            Layer::Record => 2,
            Layer::Line => 3,
        }
    }
}

impl Fault {
    // The refusal of a command of that layer, at that offset.
    pub(crate) fn at(self, layer: Layer, offset: usize) -> Refusal
        ensures { result ≡ refused self layer offset }
    {
        Refusal {
            fault: self,
            layer,
            offset,
        }
    }
}

// The command of that first byte.
impl TryFrom<u8> for Op {
    type Error = Fault;

    ghost try_from_gives = { λ byte op. op ≡ ok_or (op_of byte) Unknown };

    fn try_from(byte: u8) -> Result<Op, Fault> {
        match byte {
            0x01 => Ok(Op::X),
            0x02 => Ok(Op::C),
            0x03 => Ok(Op::R),
            0x10 => Ok(Op::Neg),
            0x11 => Ok(Op::Abs),
            0x12 => Ok(Op::Add),
            0x13 => Ok(Op::Sub),
            0x14 => Ok(Op::Mul),
            0x15 => Ok(Op::Div),
            0x16 => Ok(Op::Max),
            0x18 => Ok(Op::Chi),
            0x20 => Ok(Op::Curve),
            0x21 => Ok(Op::End),
            0x30 => Ok(Op::Table),
            _ => Err(Fault::Unknown),
        }
    }
}

impl Op {
    pub fn layer(self) -> Layer
        ensures { result ≡ layer_of self }
    {
        match self {
            Op::Curve => Layer::Record,
            Op::End => Layer::Record,
            Op::Table => Layer::Record,
            _ => Layer::Line,
        }
    }

    // How many bytes its operands take, with the bytes that begin with it.
    pub fn operand_bytes(self, bytes: &[u8]) -> usize
        ensures { result ≡ operand_bytes self bytes.now }
    {
        match self {
            Op::X => 0,
            Op::C => 4,
            Op::R => 1,
            Op::Neg => 1,
            Op::Abs => 1,
            Op::Chi => 3,
            Op::Curve => 8,
            Op::End => 0,
            Op::Table => match bytes {
                [_, _, _, _, _, _, _, _, _, _, count, ..] => 10 + 8 * *count as usize,
                _ => 10,
            },
            _ => 2,
        }
    }

    // The command where it is no line.
    fn frame(self, bytes: &[u8]) -> Option<Command>
        ensures { result ≡ frame_at self bytes.now }
    {
        match (self, bytes) {
            (Op::Curve, [_, _, _, _, _, _, _, _, _, ..]) => Some(Command::Open),
            (Op::End, [_, ..]) => Some(Command::Close),
            (Op::Table, [_, _, _, _, _, _, _, _, _, _, count, knots @ ..])
                if 8 * *count as usize <= knots.len() => Some(Command::Table),
            _ => None,
        }
    }

    // The command, with the bytes that begin with it; none where its operands end too early.
    pub fn command(self, bytes: &[u8]) -> Option<Command>
        ensures { result ≡ command_at self bytes.now }
    {
        let line = match (self, bytes) {
            (Op::X, [_, ..]) => Line::X,
            (Op::C, [_, a, b, c, d, ..]) => Line::C(i32::from_be_bytes([*a, *b, *c, *d])),
            (Op::R, [_, n, ..]) => Line::R(*n),
            (Op::Neg, [_, i, ..]) => Line::Neg(*i),
            (Op::Abs, [_, i, ..]) => Line::Abs(*i),
            (Op::Add, [_, i, j, ..]) => Line::Add(*i, *j),
            (Op::Sub, [_, i, j, ..]) => Line::Sub(*i, *j),
            (Op::Mul, [_, i, j, ..]) => Line::Mul(*i, *j),
            (Op::Div, [_, i, j, ..]) => Line::Div(*i, *j),
            (Op::Max, [_, i, j, ..]) => Line::Max(*i, *j),
            (Op::Chi, [_, s, q, r, ..]) => Line::Chi(*s, *q, *r),
            _ => return self.frame(bytes),
        };
        Some(Command::Line(line))
    }
}

// The command that bytes begin with, at that offset, and how many bytes its operands take.
pub(crate) fn read_command(bytes: &[u8], at: usize) -> Result<(Command, usize), Refusal>
    ensures { result ≡ command_read at bytes.now }
{
    let [byte, ..] = bytes else {
        return Err(Fault::Unknown.at(Layer::Book, at));
    };
    let op = Op::try_from(*byte).map_err(|fault| fault.at(Layer::Book, at))?;
    let Some(command) = op.command(bytes) else {
        return Err(Fault::CutShort.at(op.layer(), at));
    };
    Ok((command, op.operand_bytes(bytes)))
}
