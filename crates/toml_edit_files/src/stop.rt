//! Why a run ends before it is done.
ghost use Rattle.std.specs.Prelude.{◌≡◌, Some};
ghost use Rattle.toml_edit_files.specs.Stops.{status_of};

use crate::told::Note;
use std::alloc::{AllocError, AllocFailed};

/// Why a run ends before it is done.
#[derive(Drop)]
pub enum Stop {
    /// For this reason, with a message.
    Message(Reason, Note),
    /// The answer is no, and there is no message.
    Silent,
    /// Out of memory.
    Memory,
}

/// What a step of a run gives, or why the run ends.
pub type Step<T> = Result<T, Stop>;

/// Why a run ends with a message.
#[derive(Clone, Copy, Debug, PartialEq, Eq)]
pub enum Reason {
    /// The answer is no.
    No,
    /// The words are mistaken, or what they say of the document.
    Mistaken,
    /// A file or a stream has failed.
    Failed,
    /// What is read is refused.
    Refused,
    /// The file would change at other places, and `--locked` refuses that.
    Locked,
}

/// The exit status of a command that is done.
pub const DONE: u8 = 0;

/// The exit status of an answer that is no.
pub const NO: u8 = 1;

/// The exit status without memory.
pub const NO_MEMORY: u8 = 3;

/// The exit status after a fault of a file or a stream.
pub const FAILED: u8 = 4;

impl Reason {
    /// Returns the exit status.
    pub fn status(self) -> u8
        ensures { result ≡ status_of (Some self) }
    {
        match self {
            Reason::No => NO,
            Reason::Mistaken => 2,
            Reason::Failed => FAILED,
            Reason::Refused => 5,
            Reason::Locked => 6,
        }
    }
}

impl From<AllocError> for Stop {
    ghost use Rattle.std.specs.Prelude.{◌≡◌};
    ghost use Rattle.toml_edit_files.specs.declared.stop.Stop.TheVariants.{Memory};

    ghost from_gives = { λ _ stop. stop ≡ Memory };

    fn from(_refused: AllocError) -> Stop {
        Stop::Memory
    }
}

impl<T: Drop> From<AllocFailed<T>> for Stop {
    ghost use Rattle.std.specs.Prelude.{◌≡◌};
    ghost use Rattle.toml_edit_files.specs.declared.stop.Stop.TheVariants.{Memory};

    ghost from_gives = { λ _ stop. stop ≡ Memory };

    fn from(_refused: AllocFailed<T>) -> Stop {
        Stop::Memory
    }
}
