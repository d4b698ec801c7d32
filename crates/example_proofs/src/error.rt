//! Why a text is not edited.
use std::alloc::AllocError;
use thiserror::Error;
use toml_edit::{ChangeFault, ParseFault};
use toml_edit_edits::TextFault;

/// The reason why a text is not edited.
#[derive(Debug, Drop, Error)]
pub enum Fault {
    /// The text is refused.
    #[error(transparent)]
    Read(ParseFault),
    /// A change is refused.
    #[error(transparent)]
    Change(ChangeFault),
    /// The text is refused, or an edit of it.
    #[error(transparent)]
    Edited(TextFault),
    /// What the edit names is not there.
    #[error("not found")]
    Missing,
    /// The new name is that of another key.
    #[error("already there")]
    Taken,
    /// The result would not be read back as what it shows.
    #[error("does not fit")]
    Misfit,
    /// Memory ran out.
    #[error("out of memory")]
    Memory,
}

impl From<ParseFault> for Fault {
    ghost use Rattle.std.specs.Prelude.{◌≡◌};
    ghost use Rattle.example_proofs.specs.declared.error.Fault.TheVariants.{Read};

    ghost from_gives = { λ refused fault. fault ≡ Read refused };

    fn from(refused: ParseFault) -> Fault {
        Fault::Read(refused)
    }
}

impl From<ChangeFault> for Fault {
    ghost use Rattle.std.specs.Prelude.{◌≡◌};
    ghost use Rattle.example_proofs.specs.declared.error.Fault.TheVariants.{Change};

    ghost from_gives = { λ refused fault. fault ≡ Change refused };

    fn from(refused: ChangeFault) -> Fault {
        Fault::Change(refused)
    }
}

impl From<AllocError> for Fault {
    ghost use Rattle.std.specs.Prelude.{◌≡◌};
    ghost use Rattle.example_proofs.specs.declared.error.Fault.TheVariants.{Memory};

    ghost from_gives = { λ _ fault. fault ≡ Memory };

    fn from(_refused: AllocError) -> Fault {
        Fault::Memory
    }
}
