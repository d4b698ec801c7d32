//! The command `fmt`: files in the layout of the formatter.
ghost use Rattle.std.specs.Prelude.{◌≡◌, ◌⊎◌, ◌++◌, [], IfErr, IfOk, IsTrue, Ok, OnOk, Option, bytes_eq, codes, if◌then◌else◌, map, string_bytes};
ghost use Rattle.toml_edit.specs.DocumentView.{IsPrintedAs, tree_owned};
ghost use Rattle.toml_edit_files.specs.Edited.{IsAccepted, IsNotRead, version_by};
ghost use Rattle.toml_edit_files.specs.Folders.{LeavesInput, Stops};
ghost use Rattle.toml_edit_files.specs.FormatFiles.{FormatsDone, FormatsFile, FormatsInPlace, IsCompared, IsFormatted, IsNotFormatted, IsNotLaid, IsNotSorted, IsUnformatted, is_laid_as_it_is, passing_over, rules_by, sorted_by};
ghost use Rattle.toml_edit_files.specs.Found.{DoesFound};
ghost use Rattle.toml_edit_files.specs.Outcomes.{DoesAll, WasRead};
ghost use Rattle.toml_edit_files.specs.Stops.{Reads, reason_of};
ghost use Rattle.toml_edit_edits.specs.Lists.{effect};
ghost use Rattle.toml_edit_fmt.specs.RulesView.{rules_of};
ghost use Rattle.toml_edit_fmt.specs.TextView as fmt;
ghost use Rattle.toml_edit_model.specs.Text.{Text};
ghost use Rattle.toml_edit_model.specs.Version.{v1_0};

use crate::edit::{needs_old, text_after};
use crate::messages::refused_edit;
use crate::outcome::{Done, told_of, told_of_file};
use crate::put::{held_of, put};
use crate::read::{STREAM, document_of, text_of};
use crate::stop::{NO_MEMORY, Step, Stop};
use crate::tally::Tally;
use crate::told::Told;
use crate::walk::files_of;
use crate::words::{Fmt, Reading, Style};
use file_replace::Folder;
use line_diff::unified_diff;
use std::alloc::Global;
use toml_edit::{DocumentMut, Mem};
use toml_edit_edits::{Edit, EditFault, apply_edit};
use toml_edit_fmt::{Rules, format_text};
use toml_edit_io::Input;
use toml_edit_settings::set_rules;

/// Describes files that are not formatted, in the count at the end.
pub const UNFORMATTED: &str = "not formatted";

/// Formats each file in place, one after another, also those below folders, and standard input for `-`.
/// Under `--check` those are named that would change, and none does; under `--diff` their differences
/// are written.
pub fn fmt<F: Folder, I: Input>(
    alloc: Global,
    folder: &mut F,
    input: &mut I,
    command: &Fmt<'_>,
    reading: Reading,
) -> Told
    ensures { DoesFound (FormatsFile reading command.now) UNFORMATTED.now
        (map (λ file. file.now) command.now.files.items) (F.history folder.old)
        (F.history folder.new) (I.remaining input.old) result }
{
    let names = command.files.as_slice();
    let files = match files_of(alloc, folder, names) {
        Ok(files) => files,
        Err(_) => return Told::new(alloc, NO_MEMORY),
    };
    let found = files.names.as_slice();
    let tally = fmt_all(alloc, folder, input, command, found, reading);
    tally.counted(alloc, &files, UNFORMATTED)
}

/// Formats each file.
fn fmt_all<F: Folder, I: Input>(
    alloc: Global,
    folder: &mut F,
    input: &mut I,
    command: &Fmt<'_>,
    files: &[String],
    reading: Reading,
) -> Tally
    ensures { DoesAll (FormatsFile reading command.now) (map string_bytes files.now)
        (F.history folder.old) (F.history folder.new) (I.remaining input.old) result.told result.undone }
{
    let mut tally = Tally::new(alloc);
    'files: for file in files {
        let formatted = fmt_file(alloc, folder, input, command, file.as_str(), reading);
        if !tally.add(formatted) {
            return tally;
        }
    }
    tally
}

/// Formats a file. Where standard input is refused, no output is its text.
fn fmt_file<F: Folder, I: Input>(
    alloc: Global,
    folder: &mut F,
    input: &mut I,
    command: &Fmt<'_>,
    file: &str,
    reading: Reading,
) -> Told
    ensures formats { FormatsFile reading command.now file.now result (F.history folder.old)
        (F.history folder.new) (I.remaining input.old) }
    ensures rest { LeavesInput (WasRead result) file.now (I.remaining input.old)
        (I.remaining input.new) }
{
    let done = done_of(alloc, folder, input, command, file, reading);
    if file == STREAM {
        return told_of(alloc, done);
    }
    told_of_file(alloc, done)
}

/// Formats a file that is not refused.
fn done_of<F: Folder, I: Input>(
    alloc: Global,
    folder: &mut F,
    input: &mut I,
    command: &Fmt<'_>,
    file: &str,
    reading: Reading,
) -> Step<Done>
    ensures done { IfOk result (λ done. FormatsDone reading command.now file.now done.yes
        (string_bytes done.output) (F.history folder.old) (F.history folder.new)
        (I.remaining input.old)) }
    ensures unmade { IfErr result (IsUnformatted reading command.now.style file.now
        (F.history folder.old) (F.history folder.new) (I.remaining input.old)) }
    ensures quiet { IfOk result (λ done. string_bytes done.notes ≡ []) }
    ensures stops { IfErr result (λ stop. Stops file.now (F.history folder.old)
        (F.history folder.new) (reason_of stop)) }
    ensures rest { LeavesInput (Reads result) file.now (I.remaining input.old)
        (I.remaining input.new) }
{
    if !command.check && file != STREAM {
        return in_place(alloc, folder, command, file, reading);
    }
    let before = text_of(alloc, folder, input, file)?;
    let before = before.as_str();
    let text = formatted(alloc, file, before, &command.style, reading)?;
    if !command.check {
        return Ok(Done::new(alloc, true, text));
    }
    Ok(compared(alloc, command, file, before, text.as_str())?)
}

/// Compares the text of a file with the formatted one.
fn compared(alloc: Global, command: &Fmt<'_>, file: &str, before: &str, text: &str) -> Mem<Done>
    ensures yes { IfOk result (λ done. done.yes ≡ bytes_eq text.now before.now) }
    ensures output { IfOk result (λ done. IsCompared command.now.diff file.now before.now text.now
        (string_bytes done.output)) }
    ensures quiet { IfOk result (λ done. string_bytes done.notes ≡ []) }
{
    let same = text == before;
    let output = if command.diff {
        unified_diff(alloc, file, before, text)?
    } else {
        line_on(alloc, file, same)?
    };
    Ok(Done::new(alloc, same, output))
}

/// Returns the line on a file that is not formatted.
fn line_on(alloc: Global, file: &str, is_formatted: bool) -> Mem<String>
    ensures { IfOk result (λ line. string_bytes line
        ≡ (if is_formatted then [] else file.now ++ codes ": not formatted\n")) }
{
    if is_formatted {
        Ok(String::new(alloc))
    } else {
        [file, ": not formatted\n"].concat(alloc)
    }
}

/// Formats a file in place.
fn in_place<F: Folder>(
    alloc: Global,
    folder: &mut F,
    command: &Fmt<'_>,
    file: &str,
    reading: Reading,
) -> Step<Done>
    ensures done { IfOk result (λ done. FormatsInPlace reading command.now file.now done.yes
        (string_bytes done.output) (F.history folder.old) (F.history folder.new)) }
    ensures unmade { IfErr result (λ stop. (left : Option Text) → IsUnformatted reading
        command.now.style file.now (F.history folder.old) (F.history folder.new) left stop) }
    ensures quiet { IfOk result (λ done. string_bytes done.notes ≡ []) }
    ensures stops { IfErr result (λ stop. Stops file.now (F.history folder.old)
        (F.history folder.new) (reason_of stop)) }
{
    let held = held_of(alloc, folder, file)?;
    let text = formatted(alloc, file, held.text.as_str(), &command.style, reading)?;
    put(alloc, folder, file, &held, text.as_str(), command.force)?;
    Ok(Done::new(alloc, true, String::new(alloc)))
}

/// Returns the text of a file, formatted.
fn formatted(
    alloc: Global,
    file: &str,
    text: &str,
    style: &Style<'_>,
    reading: Reading,
) -> Step<String>
    ensures formatted { IfOk result
        (λ s. IsFormatted reading style.now text.now (string_bytes s)) }
    ensures stops { IfErr result (λ stop. IsNotRead (version_by reading) file.now text.now stop
        ⊎ IsNotFormatted reading style.now text.now (reason_of stop)) }
{
    let mut document = document_of(alloc, file, text, reading)?;
    let rules = rules_by(text, reading, style);
    if is_laid_as_it_is(reading, style) {
        return laid_out(alloc, file, text, &rules, reading);
    }
    sort_all(alloc, file, &mut document, style.sorts.as_slice())?;
    let sorted = text_after(alloc, file, text, &document, reading)?;
    laid_out(alloc, file, sorted.as_str(), &rules, reading)
}

/// Returns `true` if a text is laid out as it stands: nothing is sorted or brought to normal form.
fn is_laid_as_it_is(reading: Reading, style: &Style<'_>) -> bool
    ensures { result ≡ is_laid_as_it_is reading style.now }
{
    style.sorts.is_empty() && !reading.normal
}

/// Returns a text that was parsed, formatted, unless TOML 1.0 is asked for and refuses it.
fn laid_out(alloc: Global, file: &str, text: &str, rules: &Rules, reading: Reading) -> Step<String>
    ensures laid { IfOk result
        (λ s. fmt.IsFormatted (rules_of rules.now) text.now (string_bytes s)) }
    ensures version { IfOk result
        (λ s. IsTrue reading.strict → IsAccepted v1_0 (string_bytes s)) }
    ensures stops { IfErr result
        (λ stop. IsNotLaid reading (rules_of rules.now) text.now (reason_of stop)) }
{
    let formatted = match format_text(alloc, text, rules) {
        Ok(formatted) => formatted,
        // It is in the grammar.
        Err(_) => return Err(Stop::Memory),
    };
    if reading.strict {
        needs_old(alloc, file, formatted.as_str())?;
    }
    Ok(formatted)
}

/// Returns the rules for a text: lines that are made end as its first one does, unless none but line
/// feeds are to be written.
fn rules_by(text: &str, reading: Reading, style: &Style<'_>) -> Rules
    ensures { rules_of result ≡ rules_by reading style.now text.now }
{
    let mut rules = Rules::for_text(text.as_bytes(), !reading.normal);
    rules.keys = style.keys;
    set_rules(&mut rules, style.rules.as_slice());
    rules
}

/// Makes the sorts in the document.
fn sort_all(alloc: Global, file: &str, document: &mut DocumentMut, sorts: &[Edit]) -> Step<()>
    ensures sorted { OnOk result
        (sorted_by sorts.now (tree_owned document.old) ≡ Ok (tree_owned document.new)) }
    ensures printed { IsPrintedAs document.new document.old }
    ensures stops { IfErr result (λ stop. IsNotSorted
        (sorted_by sorts.now (tree_owned document.old)) (reason_of stop)) }
{
    for at in 0..sorts.len() {
        sort(alloc, file, document, at, &sorts[at])?;
    }
    Ok(())
}

/// Makes a sort in the document. A path where nothing is is passed over.
fn sort(alloc: Global, file: &str, document: &mut DocumentMut, at: usize, edit: &Edit) -> Step<()>
    ensures sorted { OnOk result (passing_over (tree_owned document.old)
        (effect edit.now (tree_owned document.old)) ≡ Ok (tree_owned document.new)) }
    ensures printed { IsPrintedAs document.new document.old }
    ensures stops { IfErr result (λ stop. IsNotSorted (passing_over (tree_owned document.old)
        (effect edit.now (tree_owned document.old))) (reason_of stop)) }
{
    match apply_edit(alloc, document, edit) {
        Ok(()) => Ok(()),
        Err(fault) => match fault {
            EditFault::NoSuchPath => Ok(()),
            fault => {
                let number = at.saturating_add(1);
                Err(refused_edit(alloc, file, document, number, edit, fault)?)
            }
        },
    }
}
