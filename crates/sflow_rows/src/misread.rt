use std::alloc::{AllocError, AllocFailed};
use std::num::ParseIntError;

/// Why a line of a table can't be read.
#[derive(Clone, Copy, Debug, PartialEq, Eq)]
pub enum Misread {
    /// Its first word is none of those that begin a line.
    Key,
    /// It stands before the first row.
    NoRow,
    /// It stands before the first receiver of its row.
    NoReceiver,
    /// A number isn't one, or is out of its range.
    Number,
    /// Something is neither a part, nor a number, nor pairs of hex digits.
    Bytes,
    /// Memory was lacking.
    Memory,
}

impl Misread {
    pub fn text(self) -> &'static str {
        match self {
            Misread::Key => "no such line",
            Misread::NoRow => "no row begins before it",
            Misread::NoReceiver => "no receiver stands before it",
            Misread::Number => "no number",
            Misread::Bytes => "no such bytes",
            Misread::Memory => "out of memory",
        }
    }
}

impl From<AllocError> for Misread {
    fn from(_: AllocError) -> Misread {
        Misread::Memory
    }
}

impl<T: Drop> From<AllocFailed<T>> for Misread {
    fn from(_: AllocFailed<T>) -> Misread {
        Misread::Memory
    }
}

impl From<ParseIntError> for Misread {
    fn from(_: ParseIntError) -> Misread {
        Misread::Number
    }
}
