//! The edits of a command line and those of a script.
ghost use Rattle.std.specs.Prelude.{◌≡◌, IfOk, List, MatchBool, None, OnOk, map};
ghost use Rattle.toml_edit_edits.specs.declared.edit.Edit.{Edit};
ghost use Rattle.toml_edit_files.specs.Edited.{version_by};
ghost use Rattle.toml_edit_files.specs.Lines.{AddsEdit, AddsLine, BeginsNoEdit, SaysScript, is_memory, is_passed};
ghost use Rattle.toml_edit_files.specs.Steps.{Mistakes};
ghost use Rattle.toml_edit_files.specs.Stops.{IsFor, reason_of};
ghost use Rattle.toml_edit_files.specs.declared.stop.Reason.TheVariants.{Mistaken};

use crate::messages::mistaken;
use crate::paths::{near, why_of};
use crate::stop::{Step, Stop};
use crate::words::Reading;
use std::alloc::Global;
use toml_edit::Mem;
use toml_edit_edits::{Edit, VERBS, ValueVerb, Verb, WordFault, line_words, next_edit};

/// Reads the edit that the words begin with, and returns the words after it. The file is the one that
/// messages name.
pub fn edit_at<'w, 't>(
    alloc: Global,
    edits: &mut Vec<Edit>,
    file: &str,
    words: &'w [&'t str],
    reading: Reading,
) -> Step<&'w [&'t str]>
    ensures adds { IfOk result (λ rest. AddsEdit (version_by reading)
        (map (λ w. w.now) words.now) (map (λ w. w.now) rest.now) edits.old.items edits.new.items) }
    ensures stops { Mistakes (BeginsNoEdit (version_by reading)
        (map (λ w. w.now) words.now)) result }
{
    match next_edit(alloc, reading.options(), words) {
        Ok((edit, count)) => {
            edits.push(edit)?;
            Ok(&words[count..])
        }
        Err(fault) => Err(no_edit(alloc, file, edits.len() + 1, words, fault)),
    }
}

/// Reads the edits of a script: one a line, as `set PATH VALUE`. Empty lines, and lines that begin
/// with `#`, are passed over.
pub fn edits_of_script(alloc: Global, script: &str, text: &str, reading: Reading) -> Step<Vec<Edit>>
    ensures said { IfOk result (λ edits. SaysScript (version_by reading) text.now edits.items) }
    ensures stops { Mistakes ((edits : List Edit)
        → SaysScript (version_by reading) text.now edits → ⊥) result }
{
    let mut edits = Vec::new(alloc);
    for line in text.lines() {
        add_line(alloc, &mut edits, script, line.trim_start(), reading)?;
    }
    Ok(edits)
}

/// Reads the edit of a line, if it has one.
fn add_line(
    alloc: Global,
    edits: &mut Vec<Edit>,
    script: &str,
    line: &str,
    reading: Reading,
) -> Step<()>
    ensures adds { OnOk result
        (AddsLine (version_by reading) line.now edits.old.items edits.new.items) }
    ensures stops { Mistakes ((old new : List Edit)
        → AddsLine (version_by reading) line.now old new → ⊥) result }
{
    if is_passed(line) {
        return Ok(());
    }
    let words = line_words(alloc, line)?;
    edit_at(alloc, edits, script, words.as_slice(), reading)?;
    Ok(())
}

/// Returns `true` if a line is empty, or a comment.
fn is_passed(line: &str) -> bool
    ensures { result ≡ is_passed line.now }
{
    line.is_empty() || line.as_bytes()[0] == b'#'
}

/// Returns that words are no edit of this number, and why.
fn no_edit(alloc: Global, file: &str, number: usize, words: &[&str], fault: WordFault) -> Stop
    ensures { MatchBool (is_memory fault) (reason_of result ≡ None)
        (IsFor Mistaken (reason_of result)) }
{
    match fault {
        WordFault::Memory => Stop::Memory,
        fault => mistaken(alloc, no_edit_text(alloc, file, number, words, fault)),
    }
}

fn no_edit_text(
    alloc: Global,
    file: &str,
    number: usize,
    words: &[&str],
    fault: WordFault,
) -> Mem<String> {
    let (name, path, operand) = (word_at(words, 0), word_at(words, 1), word_at(words, 2));
    let (what, word, error, hint) = match &fault {
        WordFault::Operands(verb) => {
            let wanted = verb.usage();
            return format!(in alloc; "{file}: edit {number}: usage: {name} {wanted}");
        }
        WordFault::Path(error) => ("path", path, Some(error), ""),
        WordFault::To(error) => ("path", operand, Some(error), ""),
        WordFault::Value(error) => ("value", operand, Some(error), hint_of(name, operand)),
        WordFault::Key(error) => ("path", operand, error.as_ref(), ""),
        WordFault::Name | WordFault::Memory => return no_name(alloc, file, number, name),
    };
    let why = match error {
        Some(error) => why_of(alloc, error)?,
        None => String::new(alloc),
    };
    let why = why.as_str();
    format!(in alloc; "{file}: edit {number} ({name} {path}): bad {what} {word}{why}{hint}")
}

/// Returns a word, which is empty where it is missing.
fn word_at<'w>(words: &[&'w str], at: usize) -> &'w str {
    words.get(at).copied().unwrap_or("")
}

/// Returns the message that no edit has this name, with the nearest one that an edit has.
fn no_name(alloc: Global, file: &str, number: usize, name: &str) -> Mem<String> {
    let mut names = Vec::new(alloc);
    for verb in VERBS {
        names.push(verb.name())?;
    }
    let near = near(alloc, name, names.as_slice())?;
    let near = near.as_str();
    format!(in alloc; "{file}: edit {number}: no edit {name}{near}")
}

/// Returns the hint at how a string is written as the value of an edit of this name, if a bare word
/// is in its place.
fn hint_of(name: &str, text: &str) -> &'static str {
    match text.as_bytes() {
        [first, ..] if first.is_ascii_alphanumeric() => {}
        _ => return "",
    }
    if Verb::named(name) == Some(Verb::Value(ValueVerb::Set)) {
        " (to set a string, write string in place of set)"
    } else {
        " (a string has quotes of its own, as '\"TEXT\"')"
    }
}
