//! Replacing a file of a folder in memory, of which each call fails in turn.
ghost use Rattle.std.specs.Prelude.{◌≡◌, ◌++◌, [], ◌∷◌, List, Option, Some, IfOk, codes};
ghost use Rattle.file_replace.specs.Crash.{Happening, IsSafe, Merges, Throughout, start};
ghost use Rattle.file_replace.specs.Events.{Event, Text, says, succeeds};

use crate::laws::crash_leaves_a_whole_text;
use crate::{Folder, ReplaceFault, Replacement, replace};
use std::alloc::Global;
use std::io;
use std::io::ErrorKind;
use std::process::Abort;

/// A call that is noted.
#[derive(Drop)]
enum Told {
    Found(Vec<u8>, Vec<u8>),
    Missing(Vec<u8>),
    NoFolder(Vec<u8>),
    LeadsTo(Vec<u8>, Vec<u8>),
    Locked(Vec<u8>),
    Writable(Vec<u8>),
    Cleared(Vec<u8>),
    Made(Vec<u8>),
    Likened(Vec<u8>, bool),
    Wrote(Vec<u8>),
    Synced,
    Held(Vec<u8>, Vec<u8>),
    Renamed(Vec<u8>, Vec<u8>),
    Removed(Vec<u8>),
    SyncedFolder(Vec<u8>),
}

/// A folder in memory, which tells its history. The call of this number fails: a write in the
/// middle, a rename undone. A failed call is noted too, so where memory runs out the test ends.
#[derive(Drop)]
struct Memory<'r, R: Abort> {
    rt: &'r R,
    /// Each call, and whether it was done.
    told: Vec<(Told, bool)>,
    names: Vec<String>,
    texts: Vec<Vec<u8>>,
    read_only: bool,
    calls: usize,
    fails: usize,
}

impl<'r, R: Abort> Memory<'r, R> {
    /// Makes a folder with one file.
    fn with_file(rt: &'r R, alloc: Global, text: &[u8], fails: usize) -> Memory<'r, R> {
        let mut folder = Memory {
            rt,
            told: Vec::new(alloc),
            names: Vec::new(alloc),
            texts: Vec::new(alloc),
            read_only: false,
            calls: 0,
            fails,
        };
        folder.add("f", text);
        folder
    }

    /// Adds a file.
    fn add(&mut self, name: &str, text: &[u8])
        ensures { self.new.told ≡ self.old.told }
    {
        let name = String::from_str(*self.names.allocator(), name).expect(self.rt, "memory");
        self.names.push(name).expect(self.rt, "memory");
        let text = self.copy(text);
        self.texts.push(text).expect(self.rt, "memory");
    }

    /// Returns a copy of a text.
    fn copy(&self, text: &[u8]) -> Vec<u8>
        ensures { result.items ≡ text.now }
    {
        text.to_vec(*self.names.allocator())
            .expect(self.rt, "memory")
    }

    /// Returns a copy of a name.
    fn name(&self, name: &str) -> Vec<u8>
        ensures { result.items ≡ name.now }
    {
        self.copy(name.as_bytes())
    }

    /// Returns the place of a file.
    fn text_of(&self, name: &str) -> Option<usize> {
        self.names.iter().position(|other| other.as_str() == name)
    }

    /// Returns `true` if a file holds the text.
    fn is_text(&self, name: &str, text: &[u8]) -> bool {
        match self.text_of(name) {
            Some(at) if at < self.texts.len() => self.texts[at].as_slice() == text,
            _ => false,
        }
    }

    /// Takes a file away.
    fn take(&mut self, name: &str)
        ensures { self.new.told ≡ self.old.told }
    {
        if let Some(at) = self.text_of(name) {
            if at < self.names.len() && at < self.texts.len() {
                drop(self.names.remove(at));
                drop(self.texts.remove(at));
            }
        }
    }

    /// Notes a call.
    fn note(&mut self, call: Told, is_done: bool)
        ensures { self.new.told.items ≡ self.old.told.items
            ++ ((call, is_done) ∷ []) }
    {
        self.told.push((call, is_done)).expect(self.rt, "memory");
    }

    /// Answers whether something is so, and fails if it is this call's turn.
    fn tell(&mut self, call: Told, is: bool) -> io::Result<bool>
        ensures told { self.new.told.items ≡ self.old.told.items
            ++ ((call, says result) ∷ []) }
        ensures answer { IfOk result (λ answer. answer ≡ is) }
    {
        let is_turn = self.calls == self.fails;
        self.calls = self.calls.wrapping_add(1);
        self.note(call, is && !is_turn);
        if is_turn {
            return Err(io::Error::from(ErrorKind::StorageFull));
        }
        Ok(is)
    }

    /// Fails if it is this call's turn.
    fn turn(&mut self, call: Told) -> io::Result<()>
        ensures { self.new.told.items ≡ self.old.told.items
            ++ ((call, succeeds result) ∷ []) }
    {
        self.tell(call, true)?;
        Ok(())
    }
}

impl<R: Abort> Folder for Memory<'_, R> {
    ghost use Rattle.std.specs.Prelude.{map, Some};
    ghost use Rattle.file_replace.specs.Events.{Call, found, missing, no_folder, leads_to, locked, writable, cleared, made, likened, wrote, synced, held, renamed, removed, synced_folder};
    ghost use Rattle.file_replace.specs.declared.tests.Told.TheVariants.{Found, Missing, NoFolder, LeadsTo, Locked, Writable, Cleared, Made, Likened, Wrote, Synced, Held, Renamed, Removed, SyncedFolder};

    ghost history = { λ m. Some (map (λ note. record {
      call = elim note.0 as (λ _. Call) [
        | Found n t ↦ found n.items t.items
        | Missing n ↦ missing n.items
        | NoFolder n ↦ no_folder n.items
        | LeadsTo n o ↦ leads_to n.items o.items
        | Locked n ↦ locked n.items
        | Writable n ↦ writable n.items
        | Cleared n ↦ cleared n.items
        | Made n ↦ made n.items
        | Likened n f ↦ likened n.items f
        | Wrote t ↦ wrote t.items
        | Synced ↦ synced
        | Held n t ↦ held n.items t.items
        | Renamed n o ↦ renamed n.items o.items
        | Removed n ↦ removed n.items
        | SyncedFolder n ↦ synced_folder n.items
      ];
      is_done = note.1;
    }) m.told.items) };

    fn read(&mut self, alloc: Global, name: &str) -> io::Result<Vec<u8>> {
        match self.text_of(name) {
            Some(at) if at < self.texts.len() => {
                let text = self.texts[at].as_slice().to_vec(alloc)?;
                let found = Told::Found(self.name(name), self.copy(text.as_slice()));
                self.note(found, true);
                Ok(text)
            }
            _ => Err(io::Error::from(ErrorKind::NotFound)),
        }
    }

    fn find(&mut self, alloc: Global, name: &str) -> io::Result<Option<Vec<u8>>> {
        if self.text_of(name).is_none() {
            self.note(Told::Missing(self.name(name)), true);
            return Ok(None);
        }
        Ok(Some(self.read(alloc, name)?))
    }

    fn list(&mut self, _alloc: Global, name: &str) -> io::Result<Option<Vec<String>>> {
        self.note(Told::NoFolder(self.name(name)), true);
        Ok(None)
    }

    fn target(&mut self, alloc: Global, name: &str) -> io::Result<String> {
        let target = String::from_str(alloc, name)?;
        self.note(Told::LeadsTo(self.name(name), self.name(name)), true);
        Ok(target)
    }

    fn lock(&mut self, name: &str) -> io::Result<()> {
        self.turn(Told::Locked(self.name(name)))
    }

    fn is_writable(&mut self, name: &str) -> io::Result<bool> {
        self.tell(Told::Writable(self.name(name)), !self.read_only)
    }

    fn clear(&mut self, name: &str) {
        self.note(Told::Cleared(self.name(name)), true);
    }

    fn beside(&mut self, alloc: Global, name: &str, last: &str) -> io::Result<String> {
        let beside = format!(in alloc; "{last}.new")?;
        if beside.as_str() == name || beside.as_str() == last {
            return Err(io::Error::from(ErrorKind::AlreadyExists));
        }
        Ok(beside)
    }

    fn make(&mut self, beside: &str, _name: &str) -> io::Result<()> {
        let is_free = self.text_of(beside).is_none();
        if !self.tell(Told::Made(self.name(beside)), is_free)? {
            return Err(io::Error::from(ErrorKind::AlreadyExists));
        }
        self.add(beside, b"");
        Ok(())
    }

    fn liken(&mut self, name: &str, force: bool) -> io::Result<()> {
        self.turn(Told::Likened(self.name(name), force))
    }

    fn write(&mut self, text: &[u8]) -> io::Result<()> {
        let done = self.turn(Told::Wrote(self.copy(text)));
        let text = if done.is_ok() {
            text
        } else {
            &text[..text.len() / 2]
        };
        if let Some(made) = self.texts.last_mut() {
            made.extend_from_slice(text).expect(self.rt, "memory");
        }
        done
    }

    fn sync(&mut self) -> io::Result<()> {
        self.turn(Told::Synced)
    }

    fn holds(&mut self, name: &str, text: &[u8]) -> io::Result<bool> {
        let is = self.is_text(name, text);
        self.tell(Told::Held(self.name(name), self.copy(text)), is)
    }

    fn rename(&mut self, from: &str, to: &str) -> io::Result<()> {
        self.turn(Told::Renamed(self.name(from), self.name(to)))?;
        self.take(to);
        if let Some(at) = self.text_of(from) {
            if at < self.names.len() {
                let to = String::from_str(*self.names.allocator(), to).expect(self.rt, "memory");
                drop(std::mem::replace(&mut self.names[at], to));
            }
        }
        Ok(())
    }

    fn remove(&mut self, name: &str) -> io::Result<()> {
        self.turn(Told::Removed(self.name(name)))?;
        self.take(name);
        Ok(())
    }

    fn sync_folder(&mut self, name: &str) -> io::Result<()> {
        self.turn(Told::SyncedFolder(self.name(name)))
    }
}

/// Replaces the text of the file `f` by `new`, where it held `before`. A crash at any moment leaves
/// the old text or the new one, even if several runs ask the same at once.
fn replace_f<R: Abort>(
    alloc: Global,
    folder: &mut Memory<'_, R>,
    before: &[u8],
    force: bool,
) -> Result<(), ReplaceFault>
    ensures { (known es : List Event)
        × (⟦<Memory<'static, R> as Folder>⟧.history folder.old ≡ Some known)
        × (⟦<Memory<'static, R> as Folder>⟧.history folder.new ≡ Some (known ++ es))
        × ((old : Option Text) (hs : List Happening) → Merges (λ _. es) hs
        → Throughout (codes "f") (IsSafe (λ _. record {
          name = codes "f";
          before = Some before.now;
          text = codes "new";
          force = force;
        }) old) start hs) }
{
    crash_leaves_a_whole_text();
    let asked = Replacement {
        name: "f",
        before: Some(before),
        text: b"new",
        force,
    };
    replace(alloc, folder, &asked)
}

/// Returns `true` if a replacement whose call of this number fails leaves the old text, or the new
/// one if that call is the last, and nothing beside it, and asks so many calls.
fn survives(rt: &impl Abort, alloc: Global, fails: usize, told: usize) -> bool {
    let mut folder = Memory::with_file(rt, alloc, b"old", fails);
    let done = replace_f(alloc, &mut folder, b"old", false);
    let text: &[u8] = if fails < 7 { b"old" } else { b"new" };
    let is_done = done.is_ok() == (fails > 7) && folder.told.len() == told;
    is_done && folder.is_text("f", text) && folder.names.len() == 1
}

#[test]
fn each_call_fails_in_turn(rt: HostRuntime) {
    for (fails, told) in [1, 3, 5, 6, 7, 8, 9, 9, 9, 9].iter().enumerate() {
        assert!(rt; survives(&rt, rt.alloc(), fails, *told));
    }
}

/// Returns `true` if a file that has changed stays as it is.
fn stays(rt: &impl Abort, alloc: Global) -> bool {
    let mut folder = Memory::with_file(rt, alloc, b"changed", 100);
    let done = replace_f(alloc, &mut folder, b"old", true);
    let changed = matches!(done, Err(ReplaceFault::Changed));
    changed && folder.is_text("f", b"changed") && folder.names.len() == 1
}

/// Returns `true` if a read-only file is replaced by force alone.
fn is_forced(rt: &impl Abort, alloc: Global) -> bool {
    let mut folder = Memory::with_file(rt, alloc, b"old", 100);
    folder.read_only = true;
    let refused = replace_f(alloc, &mut folder, b"old", false);
    let refused = matches!(refused, Err(ReplaceFault::ReadOnly)) && folder.is_text("f", b"old");
    refused && replace_f(alloc, &mut folder, b"old", true).is_ok() && folder.is_text("f", b"new")
}

/// Returns `true` if another file stays that has the first name of the new one.
fn takes_another_name(rt: &impl Abort, alloc: Global) -> bool {
    let mut folder = Memory::with_file(rt, alloc, b"old", 100);
    folder.add("f.new", b"");
    let done = replace_f(alloc, &mut folder, b"old", false);
    done.is_ok() && folder.is_text("f", b"new") && folder.names.len() == 2
}

#[test]
fn what_others_wrote_stays(rt: HostRuntime) {
    assert!(rt; stays(&rt, rt.alloc()));
    assert!(rt; is_forced(&rt, rt.alloc()));
    assert!(rt; takes_another_name(&rt, rt.alloc()));
}
