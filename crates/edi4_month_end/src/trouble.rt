// What ends the month end before its time: a refusal, a delivery that cannot be put right, a line that is
// not there, or want of memory and what goes wrong outside of the program.
use basics::refusal::Refusal;
use drafts::sealed::Unsealed;
use std::alloc::AllocError;
use std::io;

pub(crate) enum Trouble {
    Refused(Refusal),
    NotCorrected,
    NoLine(usize),
    Outside(io::Error),
}

impl From<Refusal> for Trouble {
    fn from(e: Refusal) -> Trouble {
        Trouble::Refused(e)
    }
}

impl From<Unsealed> for Trouble {
    fn from(e: Unsealed) -> Trouble {
        Trouble::Refused(e.refusal)
    }
}

impl From<io::Error> for Trouble {
    fn from(e: io::Error) -> Trouble {
        Trouble::Outside(e)
    }
}

impl From<AllocError> for Trouble {
    fn from(e: AllocError) -> Trouble {
        Trouble::Outside(io::Error::from(e))
    }
}
