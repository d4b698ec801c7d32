//! Why something is not formatted.
use std::alloc::AllocError;
use std::error::Error;
use std::fmt;
use toml_edit_syntax::SyntaxFault;

/// The error of a formatter.
#[derive(Clone, Copy, Debug, PartialEq, Eq)]
pub enum FormatFault {
    /// The text is outside the grammar, or arrays and inline tables are nested too deep in it.
    Text,
    /// The document doesn't fit, so it has no text to format.
    Misfit,
    /// Memory ran out.
    Memory,
}

/// Writes what is wrong.
impl fmt::Display for FormatFault {
    fn fmt<W: fmt::Write>(&self, f: &mut fmt::Formatter<W>) -> fmt::Result {
        match self {
            FormatFault::Text => f.write_str("invalid TOML"),
            FormatFault::Misfit => f.write_str("the document does not fit"),
            FormatFault::Memory => f.write_str("out of memory"),
        }
    }
}

impl Error for FormatFault {}

/// Returns `FormatFault::Memory`.
impl From<AllocError> for FormatFault {
    ghost use Rattle.std.specs.Prelude.{◌≡◌};
    ghost use Rattle.toml_edit_fmt.specs.declared.fault.FormatFault.TheVariants.{Memory};

    ghost from_gives = { λ _ e. e ≡ Memory };

    fn from(_refused: AllocError) -> FormatFault {
        FormatFault::Memory
    }
}

/// Returns `FormatFault::Memory`, or that the text is outside the grammar.
impl From<SyntaxFault> for FormatFault {
    ghost use Rattle.std.specs.Prelude.{◌≡◌};
    ghost use Rattle.toml_edit_fmt.specs.TextView.{fault_of};

    ghost from_gives = { λ f e. e ≡ fault_of f };

    fn from(fault: SyntaxFault) -> FormatFault {
        match fault {
            SyntaxFault::Memory => FormatFault::Memory,
            SyntaxFault::Text(_, _) => FormatFault::Text,
        }
    }
}
