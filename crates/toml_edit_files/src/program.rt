//! The program as one function.
ghost use Rattle.std.specs.Prelude.{[], ◌≡◌, ◌≤◌, ◌==◌, ◌++◌, IfErr, IfOk, MatchBool, if◌then◌else◌, map, string_bytes, true};
ghost use Rattle.std.specs.Io.KnownBytes.{Appends};
ghost use Rattle.toml_edit.specs.DocumentView.{tree_owned};
ghost use Rattle.toml_edit_files.specs.Answers.{HasNoAnswer, IsAnswer};
ghost use Rattle.toml_edit_files.specs.Folders.{OnlyLooks};
ghost use Rattle.toml_edit_files.specs.Runs.{Adds, AnswersQuestion, Ends, HasNone, Writes, memory_line, write_line};
ghost use Rattle.toml_edit_files.specs.Stops.{reason_of};
ghost use Rattle.toml_edit_files.specs.declared.told.Told.{Told};
ghost use Rattle.toml_edit_io.specs.Streams.{AppendsBeginning};
ghost use Rattle.toml_edit_model.specs.Text.{Text};

use crate::check::check;
use crate::edit::edit;
use crate::fmt::fmt;
use crate::get::{get, has, json, keys};
use crate::outcome::{Done, told_of};
use crate::read::read_document;
use crate::request::request_of;
use crate::stop::{FAILED, NO_MEMORY, Step, Stop};
use crate::told::Told;
use crate::words::{Command, Question, Reading, Request};
use file_replace::Folder;
use std::alloc::Global;
use toml_edit::DocumentMut;
use toml_edit_io::{Input, Output, write_all};

/// Runs the command that the words say, which are the arguments after the program's name, and
/// returns the exit status.
///
/// The command is read whole before any file is, and its answer is made whole before any of it is
/// written. `docs/TOMLFILE.md` has what each command does, and what each exit status says.
///
/// A message about each file that is not done goes to `errors`. A command that stops has no output,
/// and no file has changed; at 3 and 4 one that it writes holds the text before or the new one. But
/// `check` and `fmt` go on with the next file, write what they found of each, and end with the greatest
/// status; at 3 they go no further. If the output fails, the status is 4.
pub fn run<F: Folder, I: Input, O: Output, E: Output>(
    alloc: Global,
    words: &[String],
    folder: &mut F,
    input: &mut I,
    output: &mut O,
    errors: &mut E,
) -> u8
    ensures status { result ≤ 6 }
    ensures ends { (told : Told) × (line : Text)
        × Ends (F.history folder.old) (F.history folder.new) (I.remaining input.old)
        (map string_bytes words.now) told
        × Writes O.contents output.old output.new told.status (string_bytes told.output) result line
        × Adds (E.contents errors.old) (E.contents errors.new) (E.has_failed errors.new)
        (string_bytes told.notes ++ line) }
{
    let told = answer(alloc, words, folder, input);
    let written = write(output, told.output.as_str());
    tell(errors, told.notes.as_str(), last_line(told.status, written));
    if written { told.status } else { FAILED }
}

/// Writes a text, if there is one, and returns `false` if that fails.
fn write<O: Output>(output: &mut O, text: &str) -> bool
    ensures written { MatchBool result
        (Appends (O.contents output.old) (O.contents output.new) text.now)
        (AppendsBeginning (O.contents output.old) (O.contents output.new) text.now) }
    ensures failed { MatchBool result (O.has_failed output.new ≡ O.has_failed output.old)
        (O.has_failed output.new ≡ true) }
    ensures none { text.now ≡ [] → (output.new ≡ output.old) × (result ≡ true) }
{
    if text.is_empty() {
        return true;
    }
    write_all(output, text.as_bytes()).is_ok()
}

/// Writes messages and a last line to `errors`. A fault in that is ignored.
fn tell<E: Output>(errors: &mut E, notes: &str, line: &str)
    ensures { Adds (E.contents errors.old) (E.contents errors.new) (E.has_failed errors.new)
        (notes.now ++ line.now) }
{
    if !write(errors, notes) {
        return;
    }
    let _ = write(errors, line);
}

/// Returns the last line of what goes to `errors`: that the output failed, or that memory ran out.
fn last_line(status: u8, written: bool) -> &'static str
    ensures { result.now
        ≡ (if written then (if status == 3 then memory_line else []) else write_line) }
{
    if !written {
        "tomlfile: write failed\n"
    } else if status == NO_MEMORY {
        "tomlfile: out of memory\n"
    } else {
        ""
    }
}

/// Writes to `errors` that memory ran out, and returns the exit status 3.
pub fn end_without_memory<E: Output>(errors: &mut E) -> u8
    ensures status { result ≡ 3 }
    ensures told { Adds (E.contents errors.old) (E.contents errors.new) (E.has_failed errors.new)
        memory_line }
{
    tell(errors, "", last_line(NO_MEMORY, true));
    NO_MEMORY
}

/// Runs the command up to what it writes.
fn answer<F: Folder, I: Input>(
    alloc: Global,
    words: &[String],
    folder: &mut F,
    input: &mut I,
) -> Told
    ensures { Ends (F.history folder.old) (F.history folder.new) (I.remaining input.old)
        (map string_bytes words.now) result }
{
    let Request { command, reading } = match request_of(alloc, words) {
        Ok(request) => request,
        Err(stop) => return told_of(alloc, Err(stop)),
    };
    match command {
        Command::Check(files) => check(alloc, folder, input, files.as_slice(), reading),
        Command::Fmt(command) => fmt(alloc, folder, input, &command, reading),
        Command::Show(text) => told_of(alloc, Ok(Done::new(alloc, true, text))),
        Command::Ask(question) => told_of(alloc, ask(alloc, &question, folder, input, reading)),
        Command::Edit(command, edits) => {
            told_of(alloc, edit(alloc, folder, input, &command, edits, reading))
        }
    }
}

/// Answers a question about a file.
fn ask<F: Folder, I: Input>(
    alloc: Global,
    question: &Question<'_>,
    folder: &mut F,
    input: &mut I,
    reading: Reading,
) -> Step<Done>
    ensures answer { IfOk result (λ done. AnswersQuestion (F.history folder.old)
        (F.history folder.new) (I.remaining input.old) reading question.now done.yes
        (string_bytes done.output)) }
    ensures quiet { IfOk result (λ done. string_bytes done.notes ≡ []) }
    ensures stops { IfErr result (HasNone (F.history folder.old) (F.history folder.new)
        (I.remaining input.old) reading question.now) }
    ensures looks { OnlyLooks (F.history folder.old) (F.history folder.new) }
{
    let document = read_document(alloc, folder, input, question.file(), reading)?;
    answer_of(alloc, &document, question)
}

/// Answers a question about a document.
fn answer_of(alloc: Global, document: &DocumentMut, question: &Question<'_>) -> Step<Done>
    ensures answer { IfOk result (λ done. IsAnswer question.now (tree_owned document.now) done.yes
        (string_bytes done.output)) }
    ensures quiet { IfOk result (λ done. string_bytes done.notes ≡ []) }
    ensures stops { IfErr result (λ stop. HasNoAnswer question.now (tree_owned document.now)
        (reason_of stop)) }
{
    match question {
        Question::Get(command) => Ok(Done::new(alloc, true, get(alloc, document, command)?)),
        Question::Keys(command) => Ok(Done::new(alloc, true, keys(alloc, document, command)?)),
        Question::Json(command) => Ok(Done::new(alloc, true, json(alloc, document, command)?)),
        Question::Has(command) => {
            Ok(Done::new(alloc, has(document, command), String::new(alloc)))
        }
    }
}
