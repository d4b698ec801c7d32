//! Messages about files and edits.
ghost use Rattle.std.specs.Prelude.{◌≡◌, ◌++◌, IfOk, IsOkAnd, codes, string_bytes};
ghost use Rattle.toml_edit_files.specs.Refusals.{refusal_text};
ghost use Rattle.toml_edit_files.specs.Stops.{IsAbout, IsFailed, IsFor, StopsSaying, reason_for, reason_of};
ghost use Rattle.toml_edit_files.specs.declared.stop.Reason.TheVariants.{Mistaken, Refused};

use crate::help::{COMMANDS, Topic, page};
use crate::paths::{hint, near, path_text};
use crate::split::is_option;
use crate::stop::{Reason, Stop};
use crate::told::Note;
use std::alloc::Global;
use std::io;
use std::io::ErrorKind;
use toml_edit::{DocumentMut, Item, Key, Mem, TomlError};
use toml_edit_edits::{Edit, EditFault};
use toml_edit_items::{Kind, kind_of};

/// Returns that a run ends for this reason, with a message.
fn stop(alloc: Global, reason: Reason, said: Mem<String>) -> Stop
    ensures reason { IsFor reason (reason_of result) }
    ensures says { StopsSaying reason (λ t. IsOkAnd said (λ s. string_bytes s ≡ t)) result }
{
    let Ok(said) = said else {
        return Stop::Memory;
    };
    match Note::new(alloc, said.as_str()) {
        Ok(note) => Stop::Message(reason, note),
        Err(_) => Stop::Memory,
    }
}

/// Returns that a run ends for this reason, with a message about a file: `FILE: WHY`.
pub fn stop_at(alloc: Global, reason: Reason, file: &str, why: &str) -> Stop
    ensures says { StopsSaying reason (λ said. said ≡ file.now ++ (codes ": " ++ why.now)) result }
    ensures about { StopsSaying reason (IsAbout file.now) result }
{
    stop(alloc, reason, format!(in alloc; "{file}: {why}"))
}

/// Returns that the words are mistaken, with a message.
pub fn mistaken(alloc: Global, said: Mem<String>) -> Stop
    ensures { IsFor Mistaken (reason_of result) }
{
    stop(alloc, Reason::Mistaken, said)
}

/// Returns that the words are no command, with the usage of the nearest one.
pub fn wrong_words(alloc: Global, topic: Topic) -> Stop
    ensures { IsFor Mistaken (reason_of result) }
{
    mistaken(alloc, String::from_str(alloc, usage(topic)))
}

/// Returns the usage of a command, as one line.
fn usage(topic: Topic) -> &'static str {
    page(topic).lines().next().unwrap_or("")
}

/// Returns that there is no command of this name.
pub fn no_command(alloc: Global, name: &str) -> Stop
    ensures { IsFor Mistaken (reason_of result) }
{
    if is_option(name) {
        return no_option(alloc, Topic::Program, name);
    }
    match near(alloc, name, COMMANDS) {
        Ok(near) => {
            let (near, usage) = (near.as_str(), usage(Topic::Program));
            mistaken(
                alloc,
                format!(in alloc; "unknown command {name}{near}\ntomlfile: {usage}"),
            )
        }
        Err(_) => Stop::Memory,
    }
}

/// Returns that a command has no option of this name.
pub fn no_option(alloc: Global, topic: Topic, name: &str) -> Stop
    ensures { IsFor Mistaken (reason_of result) }
{
    let usage = usage(topic);
    mistaken(
        alloc,
        format!(in alloc; "no option {name}\ntomlfile: {usage}"),
    )
}

/// Returns that an option does not take a value.
pub fn no_value(alloc: Global, name: &str, value: &str) -> Stop
    ensures { IsFor Mistaken (reason_of result) }
{
    mistaken(
        alloc,
        format!(in alloc; "{name} does not take '{value}', see tomlfile fmt --help"),
    )
}

/// Returns that a call on a file has failed.
pub fn failed(alloc: Global, file: &str, error: &io::Error) -> Stop
    ensures { IsFailed file.now result }
{
    if error.kind() == ErrorKind::OutOfMemory {
        return Stop::Memory;
    }
    match error.to_string(alloc) {
        Ok(why) => stop_at(alloc, Reason::Failed, file, why.as_str()),
        Err(_) => Stop::Memory,
    }
}

/// Returns that a file is not TOML: `FILE:LINE:COLUMN: MESSAGE`.
pub fn refused(alloc: Global, file: &str, error: &TomlError) -> Stop
    ensures { StopsSaying Refused (λ said. said ≡ refusal_text file.now error.now) result }
{
    stop(alloc, Reason::Refused, refusal_text(alloc, file, error))
}

/// Returns the message about a file that is not TOML.
fn refusal_text(alloc: Global, file: &str, error: &TomlError) -> Mem<String>
    ensures { IfOk result (λ s. string_bytes s ≡ refusal_text file.now error.now) }
{
    let message = error.message();
    match (error.line(), error.column()) {
        (Some(line), Some(column)) => format!(in alloc; "{file}:{line}:{column}: {message}"),
        _ => format!(in alloc; "{file}: {message}"),
    }
}

/// Returns that an edit is refused.
pub fn refused_edit(
    alloc: Global,
    file: &str,
    document: &DocumentMut,
    number: usize,
    edit: &Edit,
    fault: EditFault,
) -> Mem<Stop>
    ensures { IfOk result (λ stop. reason_of stop ≡ reason_for fault) }
{
    let word = edit.verb().name();
    let path = path_text(alloc, edit.path())?;
    let path = path.as_str();
    let hint = match fault {
        EditFault::NoSuchPath => hint(alloc, document, edit.path())?,
        EditFault::WrongKind => kind_hint(alloc, document, edit.path())?,
        _ => String::new(alloc),
    };
    let hint = hint.as_str();
    let Some(reason) = reason_for(fault) else {
        return Ok(Stop::Memory);
    };
    let said = format!(in alloc; "{file}: edit {number} ({word} {path}): {fault}{hint}")?;
    Ok(Stop::Message(reason, Note::new(alloc, said.as_str())?))
}

/// Returns ` (PATH is KIND)` for the last item on the path, or nothing for the root.
fn kind_hint(alloc: Global, document: &DocumentMut, path: &[Key]) -> Mem<String> {
    for at in 0..path.len() {
        let (above, _) = path.split_at(path.len() - at);
        if let Some(item) = document.get_at(above) {
            let (path, kind) = (path_text(alloc, above)?, kind_name(item));
            let path = path.as_str();
            return format!(in alloc; " ({path} is {kind})");
        }
    }
    Ok(String::new(alloc))
}

/// Returns the name of the kind of an item.
fn kind_name(item: &Item) -> &'static str {
    match kind_of(item) {
        Some(Kind::String) => "a string",
        Some(Kind::Integer) => "an integer",
        Some(Kind::Float) => "a float",
        Some(Kind::Boolean) => "a boolean",
        Some(Kind::Datetime) => "a datetime",
        Some(Kind::Array) => "an array",
        Some(Kind::Tables) => "an array of tables",
        Some(Kind::Table) | None => "a table",
    }
}

/// Returns the reason of a refusal, or `None` if memory ran out.
fn reason_for(fault: EditFault) -> Option<Reason>
    ensures { result ≡ reason_for fault }
{
    match fault {
        EditFault::NoSuchPath | EditFault::NoSuchElement => Some(Reason::No),
        EditFault::WrongKind | EditFault::Taken | EditFault::BadComment => Some(Reason::Mistaken),
        EditFault::Memory => None,
    }
}

/// Returns the message that something is wrong at a path of a file.
pub fn wrong_at(alloc: Global, file: &str, path: &[Key], why: &str) -> Mem<Note> {
    let path = path_text(alloc, path)?;
    let path = path.as_str();
    let said = format!(in alloc; "{file}: {path}: {why}")?;
    Note::new(alloc, said.as_str())
}
