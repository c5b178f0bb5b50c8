// What can go wrong: a curve or a reading is refused, or a line is not written.
use bounded::lists::Full;
use codelist::lines::LineRefusal;
use family::readings::ReadingRefusal;
use std::{fmt, io};
use thiserror::Error;

#[derive(Drop, Error)]
pub enum AccountError {
    #[error("a curve of no line")]
    NoLine,
    #[error("no curve {0}")]
    NoCurve(usize),
    #[error("refused line: {0:?}")]
    Line(#[from] LineRefusal),
    #[error("refused reading: {0:?}")]
    Reading(#[from] ReadingRefusal),
    #[error("too many curves: {0:?}")]
    Full(#[from] Full),
    #[error(transparent)]
    Print(#[from] io::Error),
}

// By hand: what `main` gives back is printed by Debug. Where a line is not written, that is the error of printing itself.
impl fmt::Debug for AccountError {
    fn fmt<W: fmt::Write>(&self, f: &mut fmt::Formatter<W>) -> fmt::Result {
        match self {
            AccountError::Print(error) => fmt::Debug::fmt(error, f),
            refused => write!(f, "{refused}"),
        }
    }
}
