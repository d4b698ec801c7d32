//! Why an edit is refused, and why words are none.
ghost use Rattle.std.specs.Prelude.{◌≡◌};

use crate::edit::Verb;
use std::alloc::{AllocError, AllocFailed};
use std::error::Error;
use std::fmt;
use toml_edit::{ChangeFault, CommentFault, ParseFault, TomlError};

/// The reason why an edit is refused.
#[derive(Clone, Copy, Debug, PartialEq, Eq)]
pub enum EditFault {
    /// A key of the path leads nowhere.
    NoSuchPath,
    /// What is at the path is of another kind.
    WrongKind,
    /// No value of the array is equal.
    NoSuchElement,
    /// A key has the new name already.
    Taken,
    /// A comment has a control character.
    BadComment,
    /// Out of memory.
    Memory,
}

/// Writes what [`ChangeFault`] writes, `no such element`, `the key is there already` or
/// `bad comment`.
impl fmt::Display for EditFault {
    ghost use Rattle.std.specs.Prelude.{Some};
    ghost use Rattle.toml_edit_edits.specs.Outcomes.{fault_text};

    ghost output = { λ fault. Some (fault_text fault) };

    fn fmt<W: fmt::Write>(&self, f: &mut fmt::Formatter<W>) -> fmt::Result {
        match self {
            EditFault::NoSuchPath => ChangeFault::NoSuchPath.fmt(f),
            EditFault::WrongKind => ChangeFault::WrongKind.fmt(f),
            EditFault::NoSuchElement => f.write_str("no such element"),
            EditFault::Taken => f.write_str("the key is there already"),
            EditFault::BadComment => f.write_str("bad comment"),
            EditFault::Memory => ChangeFault::Memory.fmt(f),
        }
    }
}

impl Error for EditFault {}

impl From<AllocError> for EditFault {
    ghost use Rattle.toml_edit_edits.specs.declared.fault.EditFault.TheVariants.{Memory};

    ghost from_gives = { λ _ fault. fault ≡ Memory };

    fn from(_refused: AllocError) -> EditFault {
        EditFault::Memory
    }
}

impl From<ChangeFault> for EditFault {
    ghost use Rattle.toml_edit_edits.specs.Outcomes.{of_change};

    ghost from_gives = { λ refused fault. fault ≡ of_change refused };

    fn from(refused: ChangeFault) -> EditFault {
        match refused {
            ChangeFault::NoSuchPath => EditFault::NoSuchPath,
            ChangeFault::WrongKind => EditFault::WrongKind,
            ChangeFault::Memory => EditFault::Memory,
        }
    }
}

impl From<CommentFault> for EditFault {
    ghost use Rattle.toml_edit_edits.specs.Outcomes.{of_comment};

    ghost from_gives = { λ refused fault. fault ≡ of_comment refused };

    fn from(refused: CommentFault) -> EditFault {
        match refused {
            CommentFault::Text => EditFault::BadComment,
            CommentFault::Memory => EditFault::Memory,
        }
    }
}

/// Which edit of a list is refused, counted from 0, and why.
#[derive(Clone, Copy, Debug, PartialEq, Eq)]
pub struct ScriptFault {
    pub at: usize,
    pub fault: EditFault,
}

/// Writes the reason.
impl fmt::Display for ScriptFault {
    ghost use Rattle.std.specs.Prelude.{Some};
    ghost use Rattle.toml_edit_edits.specs.Outcomes.{fault_text};

    ghost output = { λ refused. Some (fault_text refused.fault) };

    fn fmt<W: fmt::Write>(&self, f: &mut fmt::Formatter<W>) -> fmt::Result {
        self.fault.fmt(f)
    }
}

impl Error for ScriptFault {}

/// The reason why a text is not edited.
#[derive(Debug, Drop)]
pub enum TextFault {
    /// The text is refused.
    Toml(TomlError),
    /// An edit is refused.
    Edit(ScriptFault),
    /// What the edits leave does not fit: it would not be read back as it is.
    Misfit,
    /// Out of memory.
    Memory,
}

/// Writes the error of the text as [`ParseFault`] does, the reason of the edit or `does not fit`. Each
/// ends in a line feed (LF).
impl fmt::Display for TextFault {
    ghost use Rattle.std.specs.Prelude.{Some};
    ghost use Rattle.toml_edit_edits.specs.Outcomes.{text_fault_text};

    ghost output = { λ fault. Some (text_fault_text fault) };

    fn fmt<W: fmt::Write>(&self, f: &mut fmt::Formatter<W>) -> fmt::Result {
        match self {
            TextFault::Toml(error) => error.fmt(f),
            TextFault::Edit(refused) => writeln!(f, "{refused}"),
            TextFault::Misfit => f.write_str("does not fit\n"),
            TextFault::Memory => ParseFault::Memory.fmt(f),
        }
    }
}

impl Error for TextFault {}

/// Converts the error into [`TextFault::Toml`] or [`TextFault::Memory`].
impl From<ParseFault> for TextFault {
    ghost use Rattle.toml_edit_edits.specs.Outcomes.{of_parse};

    ghost from_gives = { λ refused fault. fault ≡ of_parse refused };

    fn from(refused: ParseFault) -> TextFault {
        match refused {
            ParseFault::Toml(error) => TextFault::Toml(error),
            ParseFault::Memory => TextFault::Memory,
        }
    }
}

/// Converts the error into [`TextFault::Edit`], or into [`TextFault::Memory`] if memory ran out.
impl From<ScriptFault> for TextFault {
    ghost use Rattle.toml_edit_edits.specs.Outcomes.{of_edit};

    ghost from_gives = { λ refused fault. fault ≡ of_edit refused.at refused.fault };

    fn from(refused: ScriptFault) -> TextFault {
        match refused.fault {
            EditFault::Memory => TextFault::Memory,
            _ => TextFault::Edit(refused),
        }
    }
}

/// Converts the error as that of the first edit of a list.
impl From<EditFault> for TextFault {
    ghost use Rattle.toml_edit_edits.specs.Outcomes.{of_edit};

    ghost from_gives = { λ refused fault. fault ≡ of_edit 0 refused };

    fn from(refused: EditFault) -> TextFault {
        TextFault::from(ScriptFault {
            at: 0,
            fault: refused,
        })
    }
}

/// Converts the error into [`TextFault::Memory`].
impl From<AllocError> for TextFault {
    ghost use Rattle.toml_edit_edits.specs.declared.fault.TextFault.TheVariants.{Memory};

    ghost from_gives = { λ _ fault. fault ≡ Memory };

    fn from(_refused: AllocError) -> TextFault {
        TextFault::Memory
    }
}

/// Converts the error into [`TextFault::Memory`], and drops the value that it has.
impl<T: Drop> From<AllocFailed<T>> for TextFault {
    ghost use Rattle.toml_edit_edits.specs.declared.fault.TextFault.TheVariants.{Memory};

    ghost from_gives = { λ _ fault. fault ≡ Memory };

    fn from(_refused: AllocFailed<T>) -> TextFault {
        TextFault::Memory
    }
}

/// The reason why words are no edit.
#[derive(Drop)]
pub enum WordFault {
    /// No edit has this name, or there is no name.
    Name,
    /// Fewer words follow the name than this edit takes.
    Operands(Verb),
    /// The path is none.
    Path(TomlError),
    /// The second path of a move is none.
    To(TomlError),
    /// The new name of a key is no key, or is several.
    Key(Option<TomlError>),
    /// The value is none.
    Value(TomlError),
    /// Out of memory.
    Memory,
}

/// Which edit of some words is refused, counted from 1, and why.
#[derive(Drop)]
pub struct WordsFault {
    pub number: usize,
    pub fault: WordFault,
}
