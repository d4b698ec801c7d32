//! The command `check`.
ghost use Rattle.std.specs.Prelude.{IfErr, OnOk, map, string_bytes};
ghost use Rattle.toml_edit_files.specs.Checks.{ChecksFile, IsReadAsAccepted, IsReadAsRefused};
ghost use Rattle.toml_edit_files.specs.Edited.{IsAccepted, IsNotRead, version_by};
ghost use Rattle.toml_edit_files.specs.Folders.{LeavesInput, OnlyLooks};
ghost use Rattle.toml_edit_files.specs.Found.{DoesFound};
ghost use Rattle.toml_edit_files.specs.Outcomes.{DoesAll, WasRead};
ghost use Rattle.toml_edit_files.specs.Stops.{IsUnread, Reads};

use crate::messages::refused;
use crate::outcome::told_of_file;
use crate::read::text_of;
use crate::stop::{DONE, NO_MEMORY, Step, Stop};
use crate::tally::Tally;
use crate::told::Told;
use crate::walk::files_of;
use crate::words::Reading;
use file_replace::Folder;
use std::alloc::Global;
use toml_edit::{Document, ParseFault};
use toml_edit_io::Input;

/// Describes files that are refused or cannot be read, in the count at the end.
pub const UNCHECKED: &str = "not accepted";

/// Reads files, and those below folders, and tells which of them are refused: `FILE:LINE:COLUMN: MESSAGE`.
pub fn check<F: Folder, I: Input>(
    alloc: Global,
    folder: &mut F,
    input: &mut I,
    files: &[&str],
    reading: Reading,
) -> Told
    ensures { DoesFound (ChecksFile (version_by reading)) UNCHECKED.now
        (map (λ file. file.now) files.now) (F.history folder.old) (F.history folder.new)
        (I.remaining input.old) result }
{
    let files = match files_of(alloc, folder, files) {
        Ok(files) => files,
        Err(_) => return Told::new(alloc, NO_MEMORY),
    };
    let found = files.names.as_slice();
    let tally = check_all(alloc, folder, input, found, reading);
    tally.counted(alloc, &files, UNCHECKED)
}

/// Checks each file.
fn check_all<F: Folder, I: Input>(
    alloc: Global,
    folder: &mut F,
    input: &mut I,
    files: &[String],
    reading: Reading,
) -> Tally
    ensures { DoesAll (ChecksFile (version_by reading)) (map string_bytes files.now)
        (F.history folder.old) (F.history folder.new) (I.remaining input.old) result.told result.undone }
{
    let mut tally = Tally::new(alloc);
    'files: for file in files {
        let checked = check_file(alloc, folder, input, file.as_str(), reading);
        if !tally.add(checked) {
            return tally;
        }
    }
    tally
}

/// Tells whether a file is refused.
fn check_file<F: Folder, I: Input>(
    alloc: Global,
    folder: &mut F,
    input: &mut I,
    file: &str,
    reading: Reading,
) -> Told
    ensures checks { ChecksFile (version_by reading) file.now result (F.history folder.old)
        (F.history folder.new) (I.remaining input.old) }
    ensures rest { LeavesInput (WasRead result) file.now (I.remaining input.old)
        (I.remaining input.new) }
{
    match read_accepted(alloc, folder, input, file, reading) {
        Ok(()) => Told::new(alloc, DONE),
        Err(stop) => told_of_file(alloc, Err(stop)),
    }
}

/// Reads a file, and fails if it is refused.
fn read_accepted<F: Folder, I: Input>(
    alloc: Global,
    folder: &mut F,
    input: &mut I,
    file: &str,
    reading: Reading,
) -> Step<()>
    ensures accepted { OnOk result (IsReadAsAccepted (version_by reading) file.now
        (F.history folder.old) (F.history folder.new) (I.remaining input.old)) }
    ensures refused { IfErr result (IsUnread file.now (IsReadAsRefused (version_by reading)
        file.now (F.history folder.old) (F.history folder.new) (I.remaining input.old))) }
    ensures looks { OnlyLooks (F.history folder.old) (F.history folder.new) }
    ensures rest { LeavesInput (Reads result) file.now (I.remaining input.old)
        (I.remaining input.new) }
{
    let text = text_of(alloc, folder, input, file)?;
    accept(alloc, file, text.as_str(), reading)
}

/// Fails if a text is refused.
fn accept(alloc: Global, file: &str, text: &str, reading: Reading) -> Step<()>
    ensures accepted { OnOk result (IsAccepted (version_by reading) text.now) }
    ensures stops { IfErr result (IsNotRead (version_by reading) file.now text.now) }
{
    match Document::parse_with(alloc, text, reading.options()) {
        Ok(document) => {
            drop(document);
            Ok(())
        }
        Err(ParseFault::Toml(error)) => Err(refused(alloc, file, &error)),
        Err(ParseFault::Memory) => Err(Stop::Memory),
    }
}
