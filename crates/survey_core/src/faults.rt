//! The faults for which a survey is not written.

ghost use Rattle.std.specs.Prelude.{◌≡◌};
ghost use Rattle.survey_core.specs.Faults.{run_fault};

use crate::collecting::CollectFault;
use puzzle_text::CollectionFault;
use thiserror::Error;

/// Why a survey was not written, or only in part.
#[derive(Clone, Copy, Debug, PartialEq, Eq, Error)]
pub enum RunFault {
    /// The reader failed.
    #[error("the reader failed")]
    Read,
    /// The collection is refused for this fault.
    #[error(transparent)]
    Collection(CollectionFault),
    /// A thread could not be started.
    #[error("a thread was not started")]
    Thread,
    /// An allocation failed.
    #[error("out of memory")]
    NoMemory,
    /// The writer failed, or accepted nothing, after this number of bytes of the survey were sent.
    #[error("the writer failed after {0} bytes")]
    Write(u64),
}

impl From<CollectFault> for RunFault {
    ghost from_gives = { λ fault run. run ≡ run_fault fault };

    fn from(fault: CollectFault) -> RunFault {
        match fault {
            CollectFault::NoMemory => RunFault::NoMemory,
            CollectFault::Thread => RunFault::Thread,
        }
    }
}
