//! Why the text of a document is not edited.
use std::alloc::AllocError;
use std::error::Error;
use std::fmt;
use toml_edit::{ChangeFault, ParseFault, TomlError};

/// The reason why the text of a document was not edited.
#[derive(Debug, Drop)]
pub enum EditFault {
    /// The text is refused.
    Toml(TomlError),
    /// Memory ran out.
    Memory,
    /// What the edit names is not there.
    Missing,
    /// The key that is to be added is there.
    Present,
}

/// Writes the error as [`ParseFault`] does, or one line.
impl fmt::Display for EditFault {
    ghost use Rattle.std.specs.Prelude.{Some};
    ghost use Rattle.example_calls.specs.Faults.{fault_text};

    ghost output = { λ e. Some (fault_text e) };

    fn fmt<W: fmt::Write>(&self, f: &mut fmt::Formatter<W>) -> fmt::Result {
        match self {
            EditFault::Toml(error) => error.fmt(f),
            EditFault::Memory => f.write_str("out of memory\n"),
            EditFault::Missing => f.write_str("not found\n"),
            EditFault::Present => f.write_str("already there\n"),
        }
    }
}

impl Error for EditFault {}

/// Returns `EditFault::Toml` with the error of a text that is refused, or `EditFault::Memory`.
impl From<ParseFault> for EditFault {
    ghost use Rattle.std.specs.Prelude.{◌≡◌};
    ghost use Rattle.example_calls.specs.Faults.{parsing_fault};

    ghost from_gives = { λ fault e. e ≡ parsing_fault fault };

    fn from(fault: ParseFault) -> EditFault {
        match fault {
            ParseFault::Toml(error) => EditFault::Toml(error),
            ParseFault::Memory => EditFault::Memory,
        }
    }
}

/// Returns `EditFault::Memory`, so that `?` passes on that memory ran out.
impl From<AllocError> for EditFault {
    ghost use Rattle.std.specs.Prelude.{◌≡◌};
    ghost use Rattle.example_calls.specs.declared.fault.EditFault.TheVariants.{Memory};

    ghost from_gives = { λ _ e. e ≡ Memory };

    fn from(_refused: AllocError) -> EditFault {
        EditFault::Memory
    }
}

/// Returns `EditFault::Missing` where there is no such path, or an item of another kind, or
/// `EditFault::Memory`.
impl From<ChangeFault> for EditFault {
    ghost use Rattle.std.specs.Prelude.{◌≡◌};
    ghost use Rattle.example_calls.specs.Faults.{changing_fault};

    ghost from_gives = { λ fault e. e ≡ changing_fault fault };

    fn from(fault: ChangeFault) -> EditFault {
        match fault {
            ChangeFault::NoSuchPath | ChangeFault::WrongKind => EditFault::Missing,
            ChangeFault::Memory => EditFault::Memory,
        }
    }
}
