//! The error of a change that is refused.
use std::alloc::AllocError;
use std::error::Error;
use std::fmt;

/// The error of a change at a path that is refused.
#[derive(Clone, Copy, Debug, PartialEq, Eq, Hash)]
pub enum ChangeFault {
    /// A segment names no element, or there is no item to remove.
    NoSuchPath,
    /// A table or an array of tables is at the end of the path, or a scalar before it.
    WrongKind,
    /// Memory ran out.
    Memory,
}

/// Writes `no such path`, `wrong kind` or `out of memory`.
impl fmt::Display for ChangeFault {
    ghost use Rattle.std.specs.Prelude.{Some};
    ghost use Rattle.toml_edit_paths.specs.Faults.{fault_text};

    ghost output = { λ fault. Some (fault_text fault) };

    fn fmt<W: fmt::Write>(&self, f: &mut fmt::Formatter<W>) -> fmt::Result {
        match self {
            ChangeFault::NoSuchPath => f.write_str("no such path"),
            ChangeFault::WrongKind => f.write_str("wrong kind"),
            ChangeFault::Memory => f.write_str("out of memory"),
        }
    }
}

impl Error for ChangeFault {}

/// Returns `ChangeFault::Memory`, so that `?` passes on that memory ran out.
impl From<AllocError> for ChangeFault {
    ghost use Rattle.std.specs.Prelude.{◌≡◌};
    ghost use Rattle.toml_edit_paths.specs.declared.fault.ChangeFault.TheVariants.{Memory};

    ghost from_gives = { λ _ fault. fault ≡ Memory };

    fn from(_refused: AllocError) -> ChangeFault {
        ChangeFault::Memory
    }
}
