//! Why a run ends, the mistakes that it can report, and how it does.
ghost use Rattle.std.specs.Prelude.{◌≡◌};
ghost use Rattle.toml_edit_command.specs.Mistakes.{mistake_line};
ghost use Rattle.toml_edit_command.specs.Run.{Tells, written};
ghost use Rattle.toml_edit_command.specs.Steps.{TellsError, status_of};

use toml_edit_io::{Output, write_all};

/// What is wrong with the words of a command, or with what they say of the document.
#[derive(Clone, Copy, Debug)]
pub enum CommandError {
    /// The words are not a command.
    Words,
    /// PATH is not valid.
    Path,
    /// VALUE is not valid.
    Value,
    NoSuchPath,
    WrongKind,
    /// The changed document does not fit.
    Unfit,
}

/// Why a run ends before it is done.
#[derive(Debug, Drop)]
pub enum RunError {
    Mistaken(CommandError),
    /// The bytes are not UTF-8.
    NotUtf8,
    /// The text is not TOML. Holds the text of the error.
    Refused(String),
    Memory,
    ReadFailed,
    WriteFailed,
}

/// What a step of a run gives, or why the run ends.
pub type Step<T> = Result<T, RunError>;

/// Writes to `errors` why a run stopped, and returns its exit status.
pub fn report_error<E: Output>(error: &RunError, errors: &mut E) -> u8
    ensures status { result ≡ status_of error.now }
    ensures told { TellsError error.now (written E.contents E.has_failed errors.old errors.new) }
{
    match error {
        RunError::Mistaken(mistake) => tell(errors, mistake_text(*mistake), 2),
        RunError::NotUtf8 => tell(errors, "tomled: input is not UTF-8\n", 1),
        RunError::Refused(excerpt) => tell(errors, excerpt.as_str(), 1),
        RunError::Memory => tell(errors, "tomled: out of memory\n", 3),
        RunError::ReadFailed => tell(errors, "tomled: read failed\n", 4),
        RunError::WriteFailed => tell(errors, "tomled: write failed\n", 4),
    }
}

/// Returns the message about a mistake.
fn mistake_text(mistake: CommandError) -> &'static str
    ensures { result.now ≡ mistake_line mistake }
{
    match mistake {
        CommandError::Words => {
            "tomled: usage: tomled [exact] [strict] print | get PATH | set PATH VALUE | remove PATH\n"
        }
        CommandError::Path => "tomled: bad path\n",
        CommandError::Value => "tomled: bad value\n",
        CommandError::NoSuchPath => "tomled: no such path\n",
        CommandError::WrongKind => "tomled: wrong kind\n",
        CommandError::Unfit => "tomled: does not fit\n",
    }
}

/// Writes a message to `errors`, and returns the exit status. A fault in writing is ignored.
fn tell<E: Output>(errors: &mut E, text: &str, status: u8) -> u8
    ensures status { result ≡ status }
    ensures told { Tells text.now (written E.contents E.has_failed errors.old errors.new) }
{
    let _ = write_all(errors, text.as_bytes());
    status
}
