//! Replacing the text of a file.
ghost use Rattle.std.specs.Prelude.{◌≡◌, [], ◌∷◌, Err, string_bytes};
ghost use Rattle.file_replace.specs.Events.{likened, synced, wrote};
ghost use Rattle.file_replace.specs.Replacing.{Asks, Checks, Compares, Fills, FillsBy, MakesOther, ReadsLocked, Removes, Replaces, asked_by};

use crate::folder::Folder;
use crate::replacement::{ReplaceFault, Replacement};
use std::alloc::Global;
use std::io;
use std::io::ErrorKind;

/// How many names of the new file are tried.
const TRIES: u32 = 100;

/// Takes the lock on the file, waiting for it, and returns what the file holds.
pub fn read_locked<F: Folder>(alloc: Global, folder: &mut F, name: &str) -> io::Result<Vec<u8>>
    ensures { ReadsLocked name.now (λ bytes. bytes.items) (F.history folder.old)
        (F.history folder.new) result }
{
    folder.lock(name)?;
    folder.read(alloc, name)
}

/// Replaces the text of the file.
///
/// The text is written to a new file beside it, and is on the disk before that takes the name of the
/// file. So a crash at any moment leaves the old text or the new one, whole, and after `Ok` the new
/// one, or that of another replacement at the same time. The new file has the owner, the group and
/// the mode of the old one.
///
/// # Errors
///
/// Returns `Changed` if the file holds another text than `before`, and `ReadOnly` if it is read-only,
/// unless `force`. Returns `Failed` with the error of the first call that fails. The new file is
/// removed then.
pub fn replace<F: Folder>(
    alloc: Global,
    folder: &mut F,
    asked: &Replacement<'_>,
) -> Result<(), ReplaceFault>
    ensures { Replaces (asked_by asked.now) (F.history folder.old) (F.history folder.new) result }
{
    check(folder, asked)?;
    folder.clear(asked.name);
    let beside = make(alloc, folder, asked, asked.name, TRIES)?;
    replace_by(folder, beside.as_str(), asked)
}

/// Refuses a read-only file, unless it is forced.
fn check<F: Folder>(folder: &mut F, asked: &Replacement<'_>) -> Result<(), ReplaceFault>
    ensures { Checks (asked_by asked.now) (F.history folder.old) (F.history folder.new) result }
{
    if asked.force || folder.is_writable(asked.name)? {
        Ok(())
    } else {
        Err(ReplaceFault::ReadOnly)
    }
}

/// Makes a new file beside the file, of another name than the last, and returns its name.
fn make<F: Folder>(
    alloc: Global,
    folder: &mut F,
    asked: &Replacement<'_>,
    last: &str,
    tries: u32,
) -> io::Result<String>
    ensures { MakesOther (asked_by asked.now) last.now string_bytes (F.history folder.old)
        (F.history folder.new) result }
{
    let beside = folder.beside(alloc, asked.name, last)?;
    match folder.make(beside.as_str(), asked.name) {
        Ok(()) => Ok(beside),
        Err(error) => {
            if tries > 0 && error.kind() == ErrorKind::AlreadyExists {
                make(alloc, folder, asked, beside.as_str(), tries - 1)
            } else {
                Err(error)
            }
        }
    }
}

/// Replaces the text of the file by way of the new file of this name.
fn replace_by<F: Folder>(
    folder: &mut F,
    beside: &str,
    asked: &Replacement<'_>,
) -> Result<(), ReplaceFault>
    ensures { FillsBy (asked_by asked.now) beside.now (F.history folder.old)
        (F.history folder.new) result }
{
    match fill(folder, beside, asked) {
        Ok(()) => Ok(folder.sync_folder(asked.name)?),
        Err(fault) => undo(folder, beside, fault),
    }
}

/// Removes the new file, and returns the fault.
fn undo<F: Folder>(folder: &mut F, beside: &str, fault: ReplaceFault) -> Result<(), ReplaceFault>
    ensures removed { Removes beside.now (F.history folder.old) (F.history folder.new) }
    ensures err { result ≡ Err fault }
{
    let _ = folder.remove(beside);
    Err(fault)
}

/// Gives the new file the text, and then the name of the file, if that has not changed.
fn fill<F: Folder>(
    folder: &mut F,
    beside: &str,
    asked: &Replacement<'_>,
) -> Result<(), ReplaceFault>
    ensures { Fills (asked_by asked.now) beside.now (F.history folder.old) (F.history folder.new)
        result }
{
    write(folder, asked)?;
    compare(folder, asked)?;
    Ok(folder.rename(beside, asked.name)?)
}

/// Makes the new file like the old one, and writes the text to it and to the disk.
fn write<F: Folder>(folder: &mut F, asked: &Replacement<'_>) -> io::Result<()>
    ensures { Asks (likened asked.now.name.now asked.now.force ∷ wrote asked.now.text.now ∷ synced
        ∷ []) (F.history folder.old) (F.history folder.new) result }
{
    folder.liken(asked.name, asked.force)?;
    folder.write(asked.text)?;
    folder.sync()
}

/// Refuses a file that does not hold what it held before.
fn compare<F: Folder>(folder: &mut F, asked: &Replacement<'_>) -> Result<(), ReplaceFault>
    ensures { Compares (asked_by asked.now) (F.history folder.old) (F.history folder.new) result }
{
    match asked.before {
        None => Ok(()),
        Some(text) => {
            if folder.holds(asked.name, text)? {
                Ok(())
            } else {
                Err(ReplaceFault::Changed)
            }
        }
    }
}
