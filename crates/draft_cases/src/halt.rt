// Why a call on the plain draft is not made.
use basics::refusal::{Layer, Reason, Refusal};
use std::alloc::{AllocError, AllocFailed};

#[derive(Drop)]
pub(crate) enum Halt {
    // The rules refuse it.
    Refused(Refusal),
    // There is not enough memory.
    NoMemory(AllocError),
}

impl From<Refusal> for Halt {
    fn from(e: Refusal) -> Halt {
        Halt::Refused(e)
    }
}

// A draft's own reasons name no place.
impl From<Reason> for Halt {
    fn from(reason: Reason) -> Halt {
        Halt::Refused(Refusal::new(reason, Layer::Drafts))
    }
}

impl From<AllocError> for Halt {
    fn from(e: AllocError) -> Halt {
        Halt::NoMemory(e)
    }
}

impl<T: Drop> From<AllocFailed<T>> for Halt {
    fn from(e: AllocFailed<T>) -> Halt {
        Halt::NoMemory(AllocError::from(e))
    }
}
