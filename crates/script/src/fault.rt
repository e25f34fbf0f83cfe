//! What is wrong with a text that is no script.
ghost use Rattle.std.specs.Prelude.{◌≡◌};

use std::alloc::{AllocError, AllocFailed};
use std::error::Error;
use std::fmt;

/// What is wrong with a line.
#[derive(Clone, Copy, Debug, PartialEq, Eq)]
pub enum Kind {
    /// It is not ended by a line feed.
    Cut,
    /// It holds a byte outside 0x20 to 0x7E.
    Bytes,
    /// It is empty, begins or ends with a space, or has two spaces side by side.
    Spaces,
    /// Its first word is not allowed in its section.
    Word,
    /// A word is missing, or there is one too many.
    Count,
    /// A word that should be a key is none.
    Key,
    /// A word that should be a number is none.
    Number,
    /// A word that should name a function is none.
    Function,
    /// It is the 33rd client line, or the 1,000,001st call of its block.
    Limit,
    /// There is no line, though the script is not whole.
    Missing,
}

impl Kind {
    ghost use Rattle.script.specs.Kinds.{text_of};

    /// The word that it is told by.
    pub fn text(self) -> &'static str
        ensures { result.now ≡ text_of self }
    {
        match self {
            Kind::Cut => "cut",
            Kind::Bytes => "bytes",
            Kind::Spaces => "spaces",
            Kind::Word => "word",
            Kind::Count => "count",
            Kind::Key => "key",
            Kind::Number => "number",
            Kind::Function => "function",
            Kind::Limit => "limit",
            Kind::Missing => "missing",
        }
    }
}

impl fmt::Display for Kind {
    ghost use Rattle.std.specs.Prelude.{Some};
    ghost use Rattle.script.specs.Kinds.{text_of};

    ghost output = { λ kind. Some (text_of kind) };

    fn fmt<W: fmt::Write>(&self, f: &mut fmt::Formatter<W>) -> fmt::Result {
        f.write_str(self.text())
    }
}

/// The first bad line of a text, from 1, and what is wrong with it. A script that ends too early
/// has the kind `Missing`, at the number of its lines plus 1.
#[derive(Clone, Copy, Debug, PartialEq, Eq)]
pub struct Fault {
    pub line: u64,
    pub kind: Kind,
}

impl fmt::Display for Fault {
    ghost use Rattle.std.specs.Prelude.{Some};
    ghost use Rattle.script.specs.Kinds.{fault_text};

    ghost output = { λ fault. Some (fault_text fault.line fault.kind) };

    fn fmt<W: fmt::Write>(&self, f: &mut fmt::Formatter<W>) -> fmt::Result {
        let line = self.line;
        let kind = self.kind;
        write!(f, "line {line}: {kind}")
    }
}

/// Why a text gave no script.
#[derive(Debug, Drop, PartialEq, Eq)]
pub enum ParseError {
    /// A growth was refused.
    NoMemory,
    /// The text is no script.
    Fault(Fault),
}

impl fmt::Display for ParseError {
    ghost use Rattle.std.specs.Prelude.{Some};
    ghost use Rattle.script.specs.Kinds.{error_text};

    ghost output = { λ error. Some (error_text error) };

    fn fmt<W: fmt::Write>(&self, f: &mut fmt::Formatter<W>) -> fmt::Result {
        match self {
            ParseError::NoMemory => f.write_str("no memory"),
            ParseError::Fault(fault) => write!(f, "{fault}"),
        }
    }
}

impl Error for ParseError {}

impl From<Fault> for ParseError {
    ghost use Rattle.script.specs.declared.fault.ParseError.TheVariants as errors;

    ghost from_gives = { λ fault error. error ≡ errors.Fault fault };

    fn from(fault: Fault) -> ParseError {
        ParseError::Fault(fault)
    }
}

impl From<AllocError> for ParseError {
    ghost use Rattle.script.specs.declared.fault.ParseError.TheVariants.{NoMemory};

    ghost from_gives = { λ _ error. error ≡ NoMemory };

    fn from(_error: AllocError) -> ParseError {
        ParseError::NoMemory
    }
}

/// Why a line was not taken into a script.
#[derive(Debug, Drop)]
pub(crate) enum LineError {
    /// A growth was refused.
    NoMemory,
    /// The line is bad.
    Bad(Kind),
}

impl LineError {
    ghost use Rattle.script.specs.Drafts.{error_at};

    /// The error of the text, where the line has this number.
    pub(crate) fn at(self, line: u64) -> ParseError
        ensures { result ≡ error_at line self }
    {
        match self {
            LineError::NoMemory => ParseError::NoMemory,
            LineError::Bad(kind) => ParseError::Fault(Fault { line, kind }),
        }
    }
}

impl From<Kind> for LineError {
    ghost use Rattle.script.specs.declared.fault.LineError.TheVariants.{Bad};

    ghost from_gives = { λ kind error. error ≡ Bad kind };

    fn from(kind: Kind) -> LineError {
        LineError::Bad(kind)
    }
}

impl From<AllocError> for LineError {
    ghost use Rattle.script.specs.declared.fault.LineError.TheVariants.{NoMemory};

    ghost from_gives = { λ _ error. error ≡ NoMemory };

    fn from(_error: AllocError) -> LineError {
        LineError::NoMemory
    }
}

impl<T: Drop> From<AllocFailed<T>> for LineError {
    ghost use Rattle.script.specs.declared.fault.LineError.TheVariants.{NoMemory};

    ghost from_gives = { λ _ error. error ≡ NoMemory };

    fn from(_error: AllocFailed<T>) -> LineError {
        LineError::NoMemory
    }
}
