// What a call came to, so that it can be compared and printed.
use edi4::{Layer, LoadError, Reason, Refusal};
use std::fmt;

#[derive(Clone, Copy, PartialEq, Eq)]
pub enum Verdict {
    // The number that the call answers: a layout, or how many records or bytes.
    Accepted(u64),
    Refused(Refusal),
    NoMemory,
}

impl fmt::Display for Verdict {
    fn fmt<W: fmt::Write>(&self, f: &mut fmt::Formatter<W>) -> fmt::Result {
        match self {
            Verdict::Accepted(n) => write!(f, "accepted ({n})"),
            Verdict::Refused(e) => write!(f, "{e}"),
            Verdict::NoMemory => write!(f, "no memory"),
        }
    }
}

impl From<Result<u64, Refusal>> for Verdict {
    fn from(answer: Result<u64, Refusal>) -> Verdict {
        match answer {
            Ok(n) => Verdict::Accepted(n),
            Err(e) => Verdict::Refused(e),
        }
    }
}

impl From<Result<usize, Refusal>> for Verdict {
    fn from(answer: Result<usize, Refusal>) -> Verdict {
        match answer {
            Ok(n) => Verdict::Accepted(n as u64),
            Err(e) => Verdict::Refused(e),
        }
    }
}

// An answer of nothing counts as 0.
impl From<Result<(), Refusal>> for Verdict {
    fn from(answer: Result<(), Refusal>) -> Verdict {
        match answer {
            Ok(()) => Verdict::Accepted(0),
            Err(e) => Verdict::Refused(e),
        }
    }
}

impl From<Result<(), LoadError>> for Verdict {
    fn from(answer: Result<(), LoadError>) -> Verdict {
        match answer {
            Ok(()) => Verdict::Accepted(0),
            Err(LoadError::Refused(e)) => Verdict::Refused(e),
            Err(LoadError::NoMemory) => Verdict::NoMemory,
        }
    }
}

// A refusal of strips, with the byte of a kind byte.
pub(crate) fn in_strips(reason: Reason, byte: usize) -> Verdict {
    Verdict::Refused(Refusal::new(reason, Layer::Strips).at_byte(byte))
}

// A refusal of a line, with its field and byte.
pub(crate) fn in_line(reason: Reason, field: usize, byte: usize) -> Verdict {
    Verdict::Refused(
        Refusal::new(reason, Layer::Lines)
            .in_field(field)
            .at_byte(byte),
    )
}
