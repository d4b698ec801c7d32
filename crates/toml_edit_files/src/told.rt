//! What commands write, and their status.
ghost use Rattle.std.specs.Prelude.{◌≡◌, ◌≤◌, ◌++◌, [], if◌then◌else◌, IfOk, string_bytes, MatchBool, OnOk, false, is_ok, max};
ghost use Rattle.toml_edit_files.specs.Notes.{IsNote, note_text, unnamed};

use crate::stop::NO_MEMORY;
use std::alloc::Global;
use std::mem;
use toml_edit::Mem;

/// What messages begin with.
pub const PROGRAM: &str = "tomlfile: ";

/// A message to standard error, which begins with the name of the program and ends with a newline.
#[derive(Drop)]
pub struct Note {
    pub text: String,
    ghost known: { IsNote (string_bytes text) },
}

impl Note {
    /// Returns the message that says this.
    pub fn new(alloc: Global, said: &str) -> Mem<Note>
        ensures { IfOk result (λ note. string_bytes note.text ≡ note_text said.now) }
    {
        Ok(Note {
            text: [PROGRAM, said, "\n"].concat(alloc)?,
        })
    }

    /// Returns the message without the name of the program.
    pub fn unnamed(&self) -> &str
        ensures { result.now ≡ unnamed (string_bytes self.now.text) }
    {
        let text = self.text.as_str();
        text.strip_prefix(PROGRAM).unwrap_or(text)
    }
}

/// The status of a command, and what it writes to standard output and to standard error.
#[derive(Drop)]
pub struct Told {
    pub status: u8,
    pub output: String,
    pub notes: String,
    ghost known: { status ≤ 6 },
}

impl Told {
    /// Returns a status, with nothing to write.
    pub fn new(alloc: Global, status: u8) -> Told
        requires { status ≤ 6 }
        ensures status { result.status ≡ status }
        ensures output { string_bytes result.output ≡ [] }
        ensures notes { string_bytes result.notes ≡ [] }
    {
        Told {
            status,
            output: String::new(alloc),
            notes: String::new(alloc),
        }
    }

    /// Adds the outcome of one file more, and returns `false` if memory has run out.
    pub fn add(&mut self, next: Told) -> bool
        ensures told { MatchBool result
            ((self.new.status ≡ max self.old.status next.status) × (string_bytes self.new.output
            ≡ string_bytes self.old.output ++ string_bytes next.output)
            × (string_bytes self.new.notes ≡ string_bytes self.old.notes ++ string_bytes next.notes))
            ((self.new.status ≡ 3) × (string_bytes self.new.output ≡ string_bytes self.old.output)) }
        ensures memory { next.status ≡ 3 → result ≡ false }
    {
        let status = next.status;
        if status == NO_MEMORY || self.append(next).is_err() {
            self.status = NO_MEMORY;
            return false;
        }
        self.status = self.status.max(status);
        true
    }

    /// Appends what is written.
    fn append(&mut self, next: Told) -> Mem<()>
        ensures status { self.new.status ≡ self.old.status }
        ensures output { string_bytes self.new.output
            ≡ (if is_ok result then string_bytes self.old.output ++ string_bytes next.output
            else string_bytes self.old.output) }
        ensures notes { OnOk result (string_bytes self.new.notes
            ≡ string_bytes self.old.notes ++ string_bytes next.notes) }
    {
        join(&mut self.notes, next.notes)?;
        join(&mut self.output, next.output)
    }
}

/// Appends a text, which is not copied where it is the first.
fn join(to: &mut String, text: String) -> Mem<()>
    ensures { string_bytes to.new
        ≡ (if is_ok result then string_bytes to.old ++ string_bytes text else string_bytes to.old) }
{
    if to.is_empty() {
        drop(mem::replace(to, text));
        return Ok(());
    }
    to.push_str(text.as_str())
}
