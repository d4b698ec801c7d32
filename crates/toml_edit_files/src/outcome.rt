//! What commands come to: their status, and what they write.
ghost use Rattle.std.specs.Prelude.{◌≡◌, ◌⊎◌, [], string_bytes};
ghost use Rattle.toml_edit_files.specs.Notes.{unnamed};
ghost use Rattle.toml_edit_files.specs.Outcomes.{TellsAlone, TellsOf, TellsOfFile, TellsStop};
ghost use Rattle.toml_edit_files.specs.declared.stop.Stop.TheVariants.{Memory};

use crate::stop::{DONE, NO, NO_MEMORY, Reason, Step, Stop};
use crate::told::{Note, Told};
use std::alloc::Global;

/// What a command that is done leaves.
#[derive(Drop)]
pub struct Done {
    /// Whether the answer is yes.
    pub yes: bool,
    /// What it writes to standard output.
    pub output: String,
    /// What it writes to standard error.
    pub notes: String,
}

impl Done {
    /// Returns that a command is done, with its answer and its output alone.
    pub fn new(alloc: Global, yes: bool, output: String) -> Done
        ensures yes { result.yes ≡ yes }
        ensures output { result.output ≡ output }
        ensures notes { string_bytes result.notes ≡ [] }
    {
        Done {
            yes,
            output,
            notes: String::new(alloc),
        }
    }
}

/// Returns the outcome of a command that is done or stops.
pub fn told_of(alloc: Global, outcome: Step<Done>) -> Told
    ensures { TellsOf outcome result }
{
    match outcome {
        Ok(done) => Told {
            status: if done.yes { DONE } else { NO },
            output: done.output,
            notes: done.notes,
        },
        Err(Stop::Message(reason, note)) => Told {
            status: reason.status(),
            output: String::new(alloc),
            notes: note.text,
        },
        Err(Stop::Silent) => Told::new(alloc, NO),
        Err(Stop::Memory) => Told::new(alloc, NO_MEMORY),
    }
}

/// Returns the outcome of a file that is done, or refused, or at which a command stops.
pub fn told_of_file(alloc: Global, outcome: Step<Done>) -> Told
    ensures { TellsOfFile outcome result }
{
    match outcome {
        Err(Stop::Message(Reason::Refused, note)) => told_of_refused(alloc, note),
        outcome => told_of(alloc, outcome),
    }
}

/// Returns the outcome of a file that is refused: the answer is no, and the message is its output.
fn told_of_refused(alloc: Global, note: Note) -> Told
    ensures { TellsAlone 1 (unnamed (string_bytes note.text)) result ⊎ TellsStop Memory result }
{
    match String::from_str(alloc, note.unnamed()) {
        Ok(line) => told_of(alloc, Ok(Done::new(alloc, false, line))),
        Err(_) => Told::new(alloc, NO_MEMORY),
    }
}
