//! Reading a file, or standard input, and the document that it holds.
ghost use Rattle.std.specs.Prelude.{◌≡◌, IfErr, IfOk, IfSome, OnOk, string_bytes};
ghost use Rattle.std.specs.Io.KnownBytes.{IsAtEnd};
ghost use Rattle.toml_edit.specs.DocumentView.{mode_owned, open_owned, tree_owned};
ghost use Rattle.toml_edit_files.specs.Checks.{IsReadAsRefused};
ghost use Rattle.toml_edit_files.specs.Edited.{IsNotRead, IsRead, IsReadFrom, mode_by, version_by};
ghost use Rattle.toml_edit_files.specs.Folders.{IsNoTextOf, IsTextOf, LeavesInput, OnlyLooks};
ghost use Rattle.toml_edit_files.specs.Refusals.{IsNotUtf8};
ghost use Rattle.toml_edit_files.specs.Stops.{IsFailed, IsUnread, Reads, StopsSaying};
ghost use Rattle.toml_edit_files.specs.declared.stop.Reason.TheVariants.{Refused};
ghost use Rattle.file_replace.specs.Events.{NotesFound, found};

use crate::messages::{failed, refused, stop_at};
use crate::stop::{Reason, Step, Stop};
use crate::words::Reading;
use file_replace::Folder;
use std::alloc::Global;
use toml_edit::{DocumentMut, ParseFault};
use toml_edit_io::{Input, ReadFault, read_to_end};

/// The name of standard input.
pub const STREAM: &str = "-";

/// Returns the text of a file, or of standard input for `-`.
pub fn text_of<F: Folder, I: Input>(
    alloc: Global,
    folder: &mut F,
    input: &mut I,
    file: &str,
) -> Step<String>
    ensures text { IfOk result (λ s. IsTextOf file.now (F.history folder.old)
        (F.history folder.new) (I.remaining input.old) (string_bytes s)) }
    ensures stops { IfErr result (IsUnread file.now (IsNoTextOf file.now (F.history folder.old)
        (F.history folder.new) (I.remaining input.old))) }
    ensures looks { OnlyLooks (F.history folder.old) (F.history folder.new) }
    ensures rest { LeavesInput (Reads result) file.now (I.remaining input.old)
        (I.remaining input.new) }
{
    let bytes = bytes_of(alloc, folder, input, file)?;
    text_from(alloc, file, bytes)
}

/// Returns the bytes of a file as a text.
pub fn text_from(alloc: Global, file: &str, bytes: Vec<u8>) -> Step<String>
    ensures text { IfOk result (λ s. string_bytes s ≡ bytes.items) }
    ensures stops { IfErr result (StopsSaying Refused (IsNotUtf8 file.now bytes.items)) }
{
    match String::from_utf8(bytes) {
        Ok(text) => Ok(text),
        Err(_) => Err(stop_at(alloc, Reason::Refused, file, "not UTF-8")),
    }
}

/// Returns the bytes of a file, or of standard input for `-`.
fn bytes_of<F: Folder, I: Input>(
    alloc: Global,
    folder: &mut F,
    input: &mut I,
    file: &str,
) -> Step<Vec<u8>>
    ensures text { IfOk result (λ bytes. IsTextOf file.now (F.history folder.old)
        (F.history folder.new) (I.remaining input.old) bytes.items) }
    ensures failed { IfErr result (IsFailed file.now) }
    ensures looks { OnlyLooks (F.history folder.old) (F.history folder.new) }
    ensures rest { LeavesInput (Reads result) file.now (I.remaining input.old)
        (I.remaining input.new) }
{
    if file == STREAM {
        input_bytes(alloc, input, file)
    } else {
        file_bytes(alloc, folder, file)
    }
}

/// Returns the bytes of standard input, which messages call `file`.
fn input_bytes<I: Input>(alloc: Global, input: &mut I, file: &str) -> Step<Vec<u8>>
    ensures failed { IfErr result (IsFailed file.now) }
    ensures bytes { IfOk result (λ bytes. IfSome (I.remaining input.old) (λ left. bytes.items ≡ left)) }
    ensures end { OnOk result (IsAtEnd (I.remaining input.new)) }
{
    match read_to_end(alloc, input) {
        Ok(bytes) => Ok(bytes),
        Err(ReadFault::Memory) => Err(Stop::Memory),
        Err(ReadFault::Broken) => Err(stop_at(alloc, Reason::Failed, file, "read failed")),
    }
}

/// Returns the bytes of a file.
fn file_bytes<F: Folder>(alloc: Global, folder: &mut F, file: &str) -> Step<Vec<u8>>
    ensures failed { IfErr result (IsFailed file.now) }
    ensures notes { NotesFound (F.history folder.old) (F.history folder.new)
        (λ bytes. found file.now bytes.items) result }
{
    match folder.read(alloc, file) {
        Ok(bytes) => Ok(bytes),
        Err(error) => Err(failed(alloc, file, &error)),
    }
}

/// Parses the text of a file.
pub fn document_of(alloc: Global, file: &str, text: &str, reading: Reading) -> Step<DocumentMut>
    ensures read { IfOk result (λ d. IsRead reading text.now (tree_owned d) (open_owned d)) }
    ensures mode { IfOk result (λ d. mode_owned d ≡ mode_by reading) }
    ensures stops { IfErr result (IsNotRead (version_by reading) file.now text.now) }
{
    match DocumentMut::from_str_with(alloc, text, reading.options()) {
        Ok(document) => Ok(document),
        Err(ParseFault::Toml(error)) => Err(refused(alloc, file, &error)),
        Err(ParseFault::Memory) => Err(Stop::Memory),
    }
}

/// Reads and parses a file, or standard input for `-`.
pub fn read_document<F: Folder, I: Input>(
    alloc: Global,
    folder: &mut F,
    input: &mut I,
    file: &str,
    reading: Reading,
) -> Step<DocumentMut>
    ensures read { IfOk result
        (λ d. IsReadFrom reading file.now (F.history folder.old) (F.history folder.new)
        (I.remaining input.old) (tree_owned d)) }
    ensures stops { IfErr result (IsUnread file.now (IsReadAsRefused (version_by reading) file.now
        (F.history folder.old) (F.history folder.new) (I.remaining input.old))) }
    ensures looks { OnlyLooks (F.history folder.old) (F.history folder.new) }
{
    let text = text_of(alloc, folder, input, file)?;
    document_of(alloc, file, text.as_str(), reading)
}
