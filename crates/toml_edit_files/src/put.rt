//! Files that are read under their lock, and replaced.
ghost use Rattle.std.specs.Prelude.{◌≡◌, IfErr, IfOk, OnErr, OnOk, string_bytes};
ghost use Rattle.toml_edit_files.specs.Folders.{IsHeld, IsNoHeldText, IsPut, IsPutAt, MayBegin, OnlyLooks, Replaced, StopsPutting, asked_for, leads};
ghost use Rattle.toml_edit_files.specs.Stops.{IsFailed, IsUnread};
ghost use Rattle.file_replace.specs.Replacing.{asked_by};

use crate::messages::{failed, stop_at};
use crate::read::text_from;
use crate::stop::{Reason, Step, Stop};
use file_replace::{Folder, ReplaceFault, Replacement, read_locked, replace};
use std::alloc::Global;

/// A file as it was read: its name, links aside, and its text.
#[derive(Drop)]
pub struct Held {
    pub name: String,
    pub text: String,
}

/// Reads the file that a name leads to, under its lock.
pub fn held_of<F: Folder>(alloc: Global, folder: &mut F, file: &str) -> Step<Held>
    ensures held { IfOk result (λ held. IsHeld file.now (string_bytes held.name)
        (F.history folder.old) (F.history folder.new) (string_bytes held.text)) }
    ensures stops { IfErr result (IsUnread file.now (IsNoHeldText file.now (F.history folder.old)
        (F.history folder.new))) }
    ensures looks { OnlyLooks (F.history folder.old) (F.history folder.new) }
{
    let name = name_of(alloc, folder, file)?;
    match read_locked(alloc, folder, name.as_str()) {
        Ok(bytes) => Ok(Held {
            name,
            text: text_from(alloc, file, bytes)?,
        }),
        Err(error) => Err(failed(alloc, file, &error)),
    }
}

/// Returns the name that a name leads to.
fn name_of<F: Folder>(alloc: Global, folder: &mut F, file: &str) -> Step<String>
    ensures leads { IfOk result (λ name. F.history folder.new
        ≡ leads file.now (string_bytes name) (F.history folder.old)) }
    ensures failed { IfErr result (IsFailed file.now) }
    ensures looks { OnlyLooks (F.history folder.old) (F.history folder.new) }
{
    match folder.target(alloc, file) {
        Ok(name) => Ok(name),
        Err(error) => Err(failed(alloc, file, &error)),
    }
}

/// Replaces the text of a file, if it changes and is still there.
pub fn put<'t, F: Folder>(
    alloc: Global,
    folder: &mut F,
    file: &str,
    held: &'t Held,
    text: &'t str,
    force: bool,
) -> Step<()>
    ensures puts { OnOk result (IsPut force (string_bytes held.now.name)
        (string_bytes held.now.text) text.now (F.history folder.old) (F.history folder.new)) }
    ensures stops { OnErr result (StopsPutting (string_bytes held.now.name) (F.history folder.old)
        (F.history folder.new)) }
    ensures reason { IfErr result (IsFailed file.now) }
{
    if text == held.text.as_str() {
        return Ok(());
    }
    let asked = Replacement {
        name: held.name.as_str(),
        before: Some(held.text.as_bytes()),
        text: text.as_bytes(),
        force,
    };
    put_asked(alloc, folder, file, &asked)
}

/// Replaces the text of the file that a name leads to, whatever it is.
pub fn put_at<F: Folder>(
    alloc: Global,
    folder: &mut F,
    file: &str,
    text: String,
    force: bool,
) -> Step<()>
    ensures puts { OnOk result (IsPutAt force file.now (string_bytes text) (F.history folder.old)
        (F.history folder.new)) }
    ensures stops { OnErr result
        (MayBegin file.now (F.history folder.old) (F.history folder.new)) }
    ensures reason { IfErr result (IsFailed file.now) }
{
    let name = name_of(alloc, folder, file)?;
    put_named(alloc, folder, file, name.as_str(), text.as_str(), force)
}

/// Replaces the text of the file of this name, whatever it is.
fn put_named<'t, F: Folder>(
    alloc: Global,
    folder: &mut F,
    file: &str,
    name: &'t str,
    text: &'t str,
    force: bool,
) -> Step<()>
    ensures puts { OnOk result (Replaced (asked_for force name.now text.now)
        (F.history folder.old) (F.history folder.new)) }
    ensures stops { OnErr result
        (StopsPutting name.now (F.history folder.old) (F.history folder.new)) }
    ensures reason { IfErr result (IsFailed file.now) }
{
    let asked = Replacement {
        name,
        before: None,
        text: text.as_bytes(),
        force,
    };
    put_asked(alloc, folder, file, &asked)
}

/// Makes a replacement. A message about it names the file.
fn put_asked<F: Folder>(
    alloc: Global,
    folder: &mut F,
    file: &str,
    asked: &Replacement<'_>,
) -> Step<()>
    ensures puts { OnOk result
        (Replaced (asked_by asked.now) (F.history folder.old) (F.history folder.new)) }
    ensures stops { OnErr result
        (StopsPutting asked.now.name.now (F.history folder.old) (F.history folder.new)) }
    ensures reason { IfErr result (IsFailed file.now) }
{
    let why = match replace(alloc, folder, asked) {
        Ok(()) => return Ok(()),
        Err(ReplaceFault::Failed(error)) => return Err(failed(alloc, file, &error)),
        Err(ReplaceFault::Changed) => "changed meanwhile",
        Err(ReplaceFault::ReadOnly) => "read-only (--force replaces it)",
    };
    Err(stop_at(alloc, Reason::Failed, file, why))
}
