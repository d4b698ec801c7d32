//! Folders, of which files are read and replaced.
ghost use Rattle.std.specs.Prelude.{◌≡◌, ◌≢◌, [], ◌∷◌, Option, List, IfOk, IfSome, string_bytes};
ghost use Rattle.file_replace.specs.Events.{Event, IsInOrder, Notes, NotesFound, NotesWhether, cleared, done, found, held, leads_to, likened, locked, listing, looked_for, made, more, removed, renamed, synced, synced_folder, writable, wrote};

use std::alloc::Global;
use std::io;

/// A folder, in which one file at a time can be made and written.
pub trait Folder {
    // what was asked of it, in order, where that is known
    ghost history: { Self → Option (List Event) };

    /// Returns what the file holds.
    fn read(&mut self, alloc: Global, name: &str) -> io::Result<Vec<u8>>
        ensures { NotesFound (history self.old) (history self.new)
            (λ text. found name.now text.items) result };

    /// Returns what the file holds, or `None` if there is none.
    fn find(&mut self, alloc: Global, name: &str) -> io::Result<Option<Vec<u8>>>
        ensures { NotesFound (history self.old) (history self.new) (looked_for name.now) result };

    /// Returns the names in the folder, in the order of their bytes, or `None` if there is no folder of
    /// this name. A symbolic link is no folder, unless the name ends with `/`. A folder with a name that
    /// is not UTF-8 is refused.
    fn list(&mut self, alloc: Global, name: &str) -> io::Result<Option<Vec<String>>>
        ensures names { history self.new ≡ more (listing name.now result ∷ []) (history self.old) }
        ensures sorted { IfOk result (λ o. IfSome o IsInOrder) };

    /// Returns the name of the file that the name leads to, through symbolic links. A name that
    /// nothing has leads to itself. One that leads to no regular file is refused.
    fn target(&mut self, alloc: Global, name: &str) -> io::Result<String>
        ensures { NotesFound (history self.old) (history self.new)
            (λ target. leads_to name.now (string_bytes target)) result };

    /// Takes the lock on the file by which runs wait for one another, and waits for it. It is held
    /// until the next lock is taken, or the folder is dropped.
    fn lock(&mut self, name: &str) -> io::Result<()>
        ensures { Notes (history self.old) (history self.new) (locked name.now) result };

    /// Returns `true` if the file is missing, or its mode lets anyone write it.
    fn is_writable(&mut self, name: &str) -> io::Result<bool>
        ensures { NotesWhether (history self.old) (history self.new) (writable name.now) result };

    /// Removes the new files beside the file that were left by runs which have ended. What cannot be
    /// removed stays.
    fn clear(&mut self, name: &str)
        ensures { history self.new ≡ more (done (cleared name.now) ∷ []) (history self.old) };

    /// Returns a name beside the file that no file is likely to have, other than the one before.
    fn beside(&mut self, alloc: Global, name: &str, last: &str) -> io::Result<String>
        ensures other { IfOk result (λ beside. string_bytes beside ≢ name.now) }
        ensures another { IfOk result (λ beside. string_bytes beside ≢ last.now) }
        ensures history { history self.new ≡ history self.old };

    /// Makes a new file of this name, by which the file `name` is to be replaced. It is the one that
    /// is written and synced from then on, and no other run removes it. Where a file has the name
    /// already, the error is `AlreadyExists`.
    fn make(&mut self, beside: &str, name: &str) -> io::Result<()>
        ensures { Notes (history self.old) (history self.new) (made beside.now) result };

    /// Gives the file that was made the owner, the group and the mode of the file, if that is there.
    /// An owner or a group that cannot be kept is an error, unless `force`.
    fn liken(&mut self, name: &str, force: bool) -> io::Result<()>
        ensures { Notes (history self.old) (history self.new) (likened name.now force) result };

    /// Writes all of the text to the file that was made.
    fn write(&mut self, text: &[u8]) -> io::Result<()>
        ensures { Notes (history self.old) (history self.new) (wrote text.now) result };

    /// Waits until all that was written to the file that was made is on the disk.
    fn sync(&mut self) -> io::Result<()>
        ensures { Notes (history self.old) (history self.new) synced result };

    /// Returns `true` if the file holds this text.
    fn holds(&mut self, name: &str, text: &[u8]) -> io::Result<bool>
        ensures { NotesWhether (history self.old) (history self.new) (held name.now text.now)
            result };

    /// Gives the file another name, in place of a file that has it.
    fn rename(&mut self, from: &str, to: &str) -> io::Result<()>
        ensures { Notes (history self.old) (history self.new) (renamed from.now to.now) result };

    /// Removes the file.
    fn remove(&mut self, name: &str) -> io::Result<()>
        ensures { Notes (history self.old) (history self.new) (removed name.now) result };

    /// Waits until the names in the folder of the file are on the disk.
    fn sync_folder(&mut self, name: &str) -> io::Result<()>
        ensures { Notes (history self.old) (history self.new) (synced_folder name.now) result };
}
