//! The command `edit`: the text of a file after its edits, and where it goes.
ghost use Rattle.std.specs.Prelude.{◌≡◌, ◌⊎◌, ◌++◌, [], IfErr, IfOk, IsTrue, None, Ok, OnOk, Option, Some, string_bytes, true};
ghost use Rattle.std.specs.Option.{option_copied};
ghost use Rattle.toml_edit.specs.DocumentView.{IsPrintedAs, print_of, tree_owned};
ghost use Rattle.toml_edit_files.specs.EditFiles.{EditsElsewhere, EditsFile, EditsInPlace, HasNoEdits, HasNoScript, IsShownAs, IsUnmade, ScriptedFirst, is_in_place, is_shown, target_of};
ghost use Rattle.toml_edit_files.specs.Edited.{IsAccepted, IsEdited, IsFittingPrint, IsInForm, IsMisfit, IsNotEdited, IsNotInForm, IsNotMade, IsNotRead, IsNotWritten, IsTooNew, IsWritten, mark_of, unmarked, version_by};
ghost use Rattle.toml_edit_files.specs.Folders.{OnlyLooks, Stops};
ghost use Rattle.toml_edit_files.specs.Stops.{reason_of};
ghost use Rattle.toml_edit_files.specs.declared.stop.Reason.TheVariants.{Mistaken};
ghost use Rattle.toml_edit_model.specs.Text.{Text};
ghost use Rattle.toml_edit_model.specs.Version.{v1_0};
ghost use Rattle.toml_edit_edits.specs.Lists.{applied};

use crate::messages::refused_edit;
use crate::outcome::Done;
use crate::paths::path_text;
use crate::put::{held_of, put, put_at};
use crate::read::{STREAM, document_of, text_of};
use crate::script::edits_of_script;
use crate::stop::{Reason, Step, Stop};
use crate::told::{Note, PROGRAM};
use crate::words::{EditCommand, Reading};
use file_replace::Folder;
use line_diff::unified_diff;
use std::alloc::Global;
use toml_edit::{Document, DocumentMut, Mem, ParseFault, ParseOptions, Version};
use toml_edit_edits::{Edit, apply};
use toml_edit_io::Input;

/// A byte order mark.
const MARK: &str = "\u{feff}";

/// Makes the edits in a file, or in standard input for `-`.
pub fn edit<F: Folder, I: Input>(
    alloc: Global,
    folder: &mut F,
    input: &mut I,
    command: &EditCommand<'_>,
    edits: Vec<Edit>,
    reading: Reading,
) -> Step<Done>
    ensures edits { IfOk result (λ done. EditsFile reading command.now edits.items
        (F.history folder.old) (F.history folder.new) (I.remaining input.old)
        (string_bytes done.output)) }
    ensures yes { IfOk result (λ done. done.yes ≡ true) }
    ensures stops { IfErr result (λ stop. Stops (target_of command.now) (F.history folder.old)
        (F.history folder.new) (reason_of stop)) }
    ensures unmade { IfErr result (HasNoEdits reading command.now edits.items
        (F.history folder.old) (F.history folder.new) (I.remaining input.old)) }
{
    let edits = all_edits(alloc, folder, input, command.script, edits, reading)?;
    let edits = edits.as_slice();
    if is_in_place(command) {
        edit_in_place(alloc, folder, command, edits, reading)
    } else {
        edit_elsewhere(alloc, folder, input, command, edits, reading)
    }
}

/// Makes the edits in a file, and replaces it.
fn edit_in_place<F: Folder>(
    alloc: Global,
    folder: &mut F,
    command: &EditCommand<'_>,
    edits: &[Edit],
    reading: Reading,
) -> Step<Done>
    ensures edits { IfOk result (λ done. EditsInPlace reading command.now edits.now
        (F.history folder.old) (F.history folder.new) (string_bytes done.output)) }
    ensures yes { IfOk result (λ done. done.yes ≡ true) }
    ensures stops { IfErr result (λ stop. Stops command.now.file.now (F.history folder.old)
        (F.history folder.new) (reason_of stop)) }
    ensures unmade { IfErr result (λ stop. (left : Option Text) → IsUnmade reading command.now
        edits.now (F.history folder.old) (F.history folder.new) left stop) }
{
    let held = held_of(alloc, folder, command.file)?;
    let edited = edited_text(alloc, command, held.text.as_str(), edits, reading)?;
    put(
        alloc,
        folder,
        command.file,
        &held,
        edited.output.as_str(),
        command.force,
    )?;
    Ok(Done {
        yes: true,
        output: String::new(alloc),
        notes: edited.notes,
    })
}

/// Makes the edits in the text of a file, which goes to standard output or to another file.
fn edit_elsewhere<F: Folder, I: Input>(
    alloc: Global,
    folder: &mut F,
    input: &mut I,
    command: &EditCommand<'_>,
    edits: &[Edit],
    reading: Reading,
) -> Step<Done>
    ensures edits { IfOk result (λ done. EditsElsewhere reading command.now edits.now
        (F.history folder.old) (F.history folder.new) (I.remaining input.old)
        (string_bytes done.output)) }
    ensures yes { IfOk result (λ done. done.yes ≡ true) }
    ensures stops { IfErr result (λ stop. Stops (target_of command.now) (F.history folder.old)
        (F.history folder.new) (reason_of stop)) }
    ensures unmade { IfErr result (IsUnmade reading command.now edits.now (F.history folder.old)
        (F.history folder.new) (I.remaining input.old)) }
{
    let text = text_of(alloc, folder, input, command.file)?;
    let edited = edited_text(alloc, command, text.as_str(), edits, reading)?;
    let Done { output, notes, .. } = edited;
    if is_shown(command) {
        let output = shown(alloc, command, text.as_str(), output)?;
        return Ok(Done {
            yes: true,
            output,
            notes,
        });
    }
    put_at(alloc, folder, target_of(command), output, command.force)?;
    Ok(Done {
        yes: true,
        output: String::new(alloc),
        notes,
    })
}

/// Returns what is written of a text that the edits leave: the text, or how it differs from the one
/// before.
fn shown(alloc: Global, command: &EditCommand<'_>, before: &str, text: String) -> Mem<String>
    ensures { IfOk result (λ output. IsShownAs command.now before.now (string_bytes text)
        (string_bytes output)) }
{
    if command.diff {
        unified_diff(alloc, command.file, before, text.as_str())
    } else {
        Ok(text)
    }
}

/// Returns the edits of the script, if there is one, and those of the words.
fn all_edits<F: Folder, I: Input>(
    alloc: Global,
    folder: &mut F,
    input: &mut I,
    script: Option<&str>,
    mut edits: Vec<Edit>,
    reading: Reading,
) -> Step<Vec<Edit>>
    ensures edits { IfOk result (λ all. ScriptedFirst reading (option_copied script.entry)
        (F.history folder.old) (F.history folder.new) (I.remaining input.old)
        (I.remaining input.new) edits.items all.items) }
    ensures stops { IfErr result (HasNoScript reading (option_copied script.entry)
        (F.history folder.old) (F.history folder.new) (I.remaining input.old)) }
    ensures looks { OnlyLooks (F.history folder.old) (F.history folder.new) }
{
    let Some(script) = script else {
        return Ok(edits);
    };
    let text = text_of(alloc, folder, input, script)?;
    let mut all = edits_of_script(alloc, script, text.as_str(), reading)?;
    all.append(&mut edits)?;
    Ok(all)
}

/// Returns what the edits leave of a text, and a note on the lines that change though no edit names
/// them.
fn edited_text(
    alloc: Global,
    command: &EditCommand<'_>,
    text: &str,
    edits: &[Edit],
    reading: Reading,
) -> Step<Done>
    ensures text { IfOk result
        (λ done. IsEdited reading edits.now text.now (string_bytes done.output)) }
    ensures yes { IfOk result (λ done. done.yes ≡ true) }
    ensures locked { OnOk result (IsTrue command.now.locked → IsInForm reading text.now) }
    ensures stops { IfErr result (λ stop. IsNotRead (version_by reading) command.now.file.now
        text.now stop ⊎ IsNotEdited reading command.now.locked edits.now text.now (reason_of stop)) }
{
    let mut document = document_of(alloc, command.file, text, reading)?;
    let notes = check_form(alloc, command, text, &document, reading)?;
    make(alloc, command.file, &mut document, edits)?;
    let output = text_after(alloc, command.file, text, &document, reading)?;
    Ok(Done {
        yes: true,
        output,
        notes,
    })
}

/// Makes the edits in the document.
fn make(alloc: Global, file: &str, document: &mut DocumentMut, edits: &[Edit]) -> Step<()>
    ensures makes { OnOk result
        (applied edits.now (tree_owned document.old) ≡ Ok (tree_owned document.new)) }
    ensures printed { IsPrintedAs document.new document.old }
    ensures stops { IfErr result
        (λ stop. IsNotMade edits.now (tree_owned document.old) (reason_of stop)) }
{
    match apply(alloc, document, edits) {
        Ok(()) => Ok(()),
        Err(refused) => {
            let edit = &edits[refused.at];
            let number = refused.at + 1;
            Err(refused_edit(alloc, file, document, number, edit, refused.fault)?)
        }
    }
}

/// Returns the text of a file after its edits, if that is TOML of the version that is asked for and
/// means what the document shows.
pub fn text_after(
    alloc: Global,
    file: &str,
    before: &str,
    document: &DocumentMut,
    reading: Reading,
) -> Step<String>
    ensures text { IfOk result (λ s. IsWritten reading before.now document.now (string_bytes s)) }
    ensures stops { IfErr result
        (λ stop. IsNotWritten reading document.now (reason_of stop)) }
{
    let text = fitting_text(alloc, file, document)?;
    if reading.strict {
        needs_old(alloc, file, text.as_str())?;
    }
    Ok(with_mark(alloc, before, text, reading.normal)?)
}

/// Returns the text of a document, if it fits.
fn fitting_text(alloc: Global, file: &str, document: &DocumentMut) -> Step<String>
    ensures text { IfOk result (λ s. IsFittingPrint document.now (string_bytes s)) }
    ensures stops { IfErr result (λ stop. IsMisfit document.now (reason_of stop)) }
{
    if !document.fits(alloc)? {
        return Err(misfit(alloc, file, document)?);
    }
    Ok(document.print(alloc)?)
}

/// Returns the text behind the byte order mark of the text before, which goes in the normal form.
fn with_mark(alloc: Global, before: &str, text: String, normal: bool) -> Mem<String>
    ensures { IfOk result
        (λ s. string_bytes s ≡ mark_of normal before.now ++ string_bytes text) }
{
    if before.starts_with(MARK) && !normal {
        [MARK, text.as_str()].concat(alloc)
    } else {
        Ok(text)
    }
}

/// Refuses a text that is not TOML 1.0.
pub fn needs_old(alloc: Global, file: &str, text: &str) -> Step<()>
    ensures accepted { OnOk result (IsAccepted v1_0 text.now) }
    ensures stops { IfErr result (λ stop. IsTooNew text.now (reason_of stop)) }
{
    let options = ParseOptions::new().version(Version::V1_0);
    match Document::parse_with(alloc, text, options) {
        Ok(document) => {
            drop(document);
            Ok(())
        }
        Err(ParseFault::Toml(error)) => {
            let message = error.message();
            let said = format!(in alloc; "{file}: what is written is not TOML 1.0: {message}")?;
            Err(Stop::Message(Reason::Mistaken, Note::new(alloc, said.as_str())?))
        }
        Err(ParseFault::Memory) => Err(Stop::Memory),
    }
}

/// Returns that the document does not fit, and where.
fn misfit(alloc: Global, file: &str, document: &DocumentMut) -> Step<Stop>
    ensures stop { IfOk result (λ stop. reason_of stop ≡ Some Mistaken) }
    ensures memory { IfErr result (λ stop. reason_of stop ≡ None) }
{
    let said = match document.first_misfit(alloc)? {
        Some(misfit) => {
            let path = path_text(alloc, misfit.path())?;
            let (path, rule) = (path.as_str(), misfit.rule());
            format!(in alloc; "{file}: {path}: does not fit: {rule}")?
        }
        None => format!(in alloc; "{file}: does not fit")?,
    };
    Ok(Stop::Message(Reason::Mistaken, Note::new(alloc, said.as_str())?))
}

/// Returns the name of the file that is written.
fn target_of<'w>(command: &EditCommand<'w>) -> &'w str
    ensures { result.now ≡ target_of command.now }
{
    command.output.unwrap_or(command.file)
}

/// Returns `true` if the text goes to standard output.
fn is_shown(command: &EditCommand<'_>) -> bool
    ensures { result ≡ is_shown command.now }
{
    command.dry_run || target_of(command) == STREAM
}

/// Returns `true` if the text replaces that of the file.
fn is_in_place(command: &EditCommand<'_>) -> bool
    ensures { result ≡ is_in_place command.now }
{
    !is_shown(command) && command.output.is_none()
}

fn without_mark(text: &str) -> &str
    ensures { result.now ≡ unmarked text.now }
{
    text.strip_prefix(MARK).unwrap_or(text)
}

/// Returns a note on the lines that change though no edit names them, or refuses them under
/// `--locked`.
fn check_form(
    alloc: Global,
    command: &EditCommand<'_>,
    text: &str,
    document: &DocumentMut,
    reading: Reading,
) -> Step<String>
    ensures locked { OnOk result
        (IsTrue command.now.locked → print_of document.now ≡ unmarked text.now) }
    ensures quiet { IfOk result
        (λ note. print_of document.now ≡ unmarked text.now → string_bytes note ≡ []) }
    ensures stops { IfErr result (λ stop. IsNotInForm command.now.locked (print_of document.now)
        (unmarked text.now) (reason_of stop)) }
{
    if reading.normal && !command.locked {
        return Ok(String::new(alloc));
    }
    let text = without_mark(text);
    let print = document.print(alloc)?;
    if print.as_str() == text {
        return Ok(String::new(alloc));
    }
    let (file, print) = (command.file, print.as_str());
    if command.locked {
        let note = lines_note(alloc, file, text, print, "lines are not in normal form")?;
        return Err(Stop::Message(Reason::Locked, note));
    }
    let note = lines_note(alloc, file, text, print, "lines are brought to normal form")?;
    Ok(note.text)
}

/// Returns a line for each run of lines of a text that differ from those of another one.
fn lines_note(alloc: Global, file: &str, text: &str, other: &str, note: &str) -> Mem<Note> {
    let mut said = String::new(alloc);
    for (first, last) in runs_between(alloc, text, other)? {
        if !said.is_empty() {
            said.push('\n')?;
            said.push_str(PROGRAM)?;
        }
        let line = format!(in alloc; "{file}:{first}-{last}: {note}")?;
        said.push_str(line.as_str())?;
    }
    Note::new(alloc, said.as_str())
}

/// Returns the first and the last line of each run of lines of a text that differ from those of
/// another one.
fn runs_between(alloc: Global, text: &str, other: &str) -> Mem<Vec<(usize, usize)>> {
    let (mut lines, mut others) = (lines_of(alloc, text)?, lines_of(alloc, other)?);
    if lines.len() == others.len() {
        return runs_apart(alloc, lines.as_slice(), others.as_slice());
    }
    let first = equal_front(lines.as_slice(), others.as_slice()).saturating_add(1);
    lines.reverse();
    others.reverse();
    let equal = equal_front(lines.as_slice(), others.as_slice());
    let mut runs = Vec::new(alloc);
    runs.push((first, lines.len().saturating_sub(equal).max(first)))?;
    Ok(runs)
}

/// Returns the runs of lines that differ, of as many lines.
fn runs_apart(alloc: Global, lines: &[&str], others: &[&str]) -> Mem<Vec<(usize, usize)>> {
    let mut runs: Vec<(usize, usize)> = Vec::new(alloc);
    for at in 0..lines.len().min(others.len()) {
        if lines[at] != others[at] {
            match runs.last_mut() {
                Some(run) if run.1 == at => run.1 = at + 1,
                _ => runs.push((at + 1, at + 1))?,
            }
        }
    }
    Ok(runs)
}

fn lines_of<'t>(alloc: Global, text: &'t str) -> Mem<Vec<&'t str>> {
    let mut lines = Vec::new(alloc);
    for line in text.split_inclusive('\n') {
        lines.push(line)?;
    }
    Ok(lines)
}

/// Returns the number of lines at the front that are equal.
fn equal_front(lines: &[&str], others: &[&str]) -> usize {
    let pairs = lines.iter().zip(others);
    pairs.take_while(|(line, other)| line == other).count()
}
