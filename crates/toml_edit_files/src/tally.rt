//! What several files come to, and how many of them are not done.
ghost use Rattle.std.specs.Prelude.{◌≡◌, ◌+◌, ◌-◌, ◌^◌, ◌==◌, ◌++◌, [], false, if◌then◌else◌, IfOk, MatchBool, length, max, min, string_bytes, true};
ghost use Rattle.toml_edit_files.specs.Found.{Counts, count_text, noun};
ghost use Rattle.toml_edit_files.specs.Notes.{note_text};

use crate::stop::{DONE, NO_MEMORY};
use crate::told::{Note, Told};
use crate::walk::Files;
use std::alloc::Global;
use toml_edit::Mem;

/// What several files come to.
#[derive(Drop)]
pub struct Tally {
    pub told: Told,
    /// How many of them have another status than 0.
    pub undone: usize,
}

impl Tally {
    /// Returns what no file comes to.
    pub fn new(alloc: Global) -> Tally
        ensures status { result.told.status ≡ 0 }
        ensures output { string_bytes result.told.output ≡ [] }
        ensures notes { string_bytes result.told.notes ≡ [] }
        ensures undone { result.undone ≡ 0 }
    {
        Tally {
            told: Told::new(alloc, DONE),
            undone: 0,
        }
    }

    /// Adds the outcome of one file more, and returns `false` if memory has run out.
    pub fn add(&mut self, next: Told) -> bool
        ensures told { MatchBool result ((self.new.told.status ≡ max self.old.told.status next.status)
            × (string_bytes self.new.told.output
            ≡ string_bytes self.old.told.output ++ string_bytes next.output)
            × (string_bytes self.new.told.notes
            ≡ string_bytes self.old.told.notes ++ string_bytes next.notes))
            ((self.new.told.status ≡ 3)
            × (string_bytes self.new.told.output ≡ string_bytes self.old.told.output)) }
        ensures memory { next.status ≡ 3 → result ≡ false }
        ensures undone { self.new.undone
            ≡ min (self.old.undone + (if next.status == 0 then 0 else 1)) (2 ^ 64 - 1) }
    {
        self.undone = self.undone.saturating_add(undone_one(next.status));
        self.told.add(next)
    }

    /// Returns the outcome, with a line behind its messages if a folder was walked: how many files there
    /// are, and how many of them are not done.
    pub fn counted(self, alloc: Global, files: &Files, word: &str) -> Told
        ensures { Counts files.now.walked (note_text (count_text (length files.now.names.items)
            self.undone word.now)) self.told result }
    {
        let Tally { told, undone } = self;
        if !files.walked || told.status == NO_MEMORY {
            return told;
        }
        match count_line(alloc, files.names.len(), undone, word) {
            Ok(note) => with_line(alloc, told, note.text),
            Err(_) => Told {
                status: NO_MEMORY,
                output: told.output,
                notes: told.notes,
            },
        }
    }
}

/// Returns how many files of this status are not done.
fn undone_one(status: u8) -> usize
    ensures { result ≡ (if status == 0 then 0 else 1) }
{
    if status == DONE { 0 } else { 1 }
}

/// Returns an outcome with one line more behind its messages.
fn with_line(alloc: Global, mut told: Told, line: String) -> Told
    ensures { Counts true (string_bytes line) told result }
{
    told.add(Told {
        status: DONE,
        output: String::new(alloc),
        notes: line,
    });
    told
}

/// Returns how many files there are, and how many of them are not done.
fn count_line(alloc: Global, files: usize, undone: usize, word: &str) -> Mem<Note>
    ensures { IfOk result
        (λ note. string_bytes note.text ≡ note_text (count_text files undone word.now)) }
{
    let noun = noun(files);
    let said = format!(in alloc; "{files} {noun}, {undone} {word}")?;
    Note::new(alloc, said.as_str())
}

fn noun(count: usize) -> &'static str
    ensures { result.now ≡ noun count }
{
    if count == 1 { "file" } else { "files" }
}
