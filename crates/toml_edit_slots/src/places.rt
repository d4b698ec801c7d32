//! The places of slots, by a second hash of the names of their keys.
ghost use Rattle.std.specs.Prelude.{◌≡◌, [], None, true, false, is_some, length, IfOk, OnOk, OnErr};
ghost use Rattle.toml_edit_model.specs.Text.{Text, same_text};
ghost use Rattle.toml_edit_slots.specs.Slots.{AreApart, names, place};
ghost use Rattle.toml_edit_slots.specs.SlotIndex.{IsIndexOf, IsNotedAt, IsRightBefore, IsSetTo, AreNotedApart, is_own, noted_place, second_hash, stands_at, hash_stands_at, with_text};

use crate::slots::Slot;
use std::alloc::Global;
use std::collections::BTreeMap;
use std::hash::{DefaultHasher, Hasher};
use toml_edit_repr::Mem;

/// The places of slots, in order of a second hash of their names.
///
/// A place is noted under the hash of its name. If the place of another name is noted there, it is
/// noted under the name itself. So nearly all comparisons are of two numbers, and a look-up takes
/// time logarithmic in the number of names, whatever they are.
#[derive(Debug)]
pub(crate) struct Places {
    hashes: BTreeMap<u64, usize>,
    names: BTreeMap<String, usize>,
}

impl Drop for Places {
    // Few tables have trees, and each table that is dropped would set aside the room for this.
    #[inline(never)]
    fn drop(self) {
        let Places { hashes, names } = self;
        drop(hashes);
        drop(names);
    }
}

impl Places {
    /// Returns no places. Allocates nothing.
    pub(crate) fn new(alloc: Global) -> Places
        ensures { IsIndexOf result [] }
    {
        Places {
            hashes: BTreeMap::new(alloc),
            names: BTreeMap::new(alloc),
        }
    }

    /// Returns the place of the slot with the name, or `None` if no slot has it.
    #[inline(never)]
    pub(crate) fn find<T>(&self, entries: &[Slot<T>], name: &str) -> Option<usize>
        requires apart { AreApart entries.now }
        requires indexed { IsIndexOf self.now (names entries.now) }
        ensures { result ≡ place name.now entries.now }
    {
        let at = self.noted_place(name)?;
        if is_named_at(entries, at, name.as_bytes()) {
            Some(at)
        } else {
            None
        }
    }

    /// Returns the place that is noted of the name. It may be that of another name, or of no slot.
    fn noted_place(&self, name: &str) -> Option<usize>
        ensures { result ≡ noted_place self.now name.now }
    {
        if let Some(at) = self.names.get(name) {
            return Some(*at);
        }
        let at = self.hashes.get(&second_hash(name))?;
        Some(*at)
    }

    /// Adds the place after these slots for a new name, and returns `None`.
    ///
    /// If a slot has the name already, returns its place. Fails only if memory runs out at a new
    /// name; these are then still the places of the slots.
    #[inline(never)]
    pub(crate) fn add<T>(
        &mut self,
        alloc: Global,
        entries: &[Slot<T>],
        name: &str,
    ) -> Mem<Option<usize>>
        requires apart { AreApart entries.now }
        requires indexed { IsIndexOf self.old (names entries.now) }
        ensures place { IfOk result (λ there. there ≡ place name.now entries.now) }
        ensures ok { OnOk result (IsIndexOf self.new (with_text name.now (names entries.now))) }
        ensures new { OnErr result (place name.now entries.now ≡ None) }
        ensures err { OnErr result (IsIndexOf self.new (names entries.now)) }
    {
        if let Some(at) = self.note(name, entries.len())? {
            if is_named_at(entries, at, name.as_bytes()) {
                return Ok(Some(at));
            }
            self.note_itself(alloc, name, entries.len())?;
        }
        Ok(None)
    }

    /// Notes the place of a name for which none is noted, and returns `None`.
    ///
    /// If one is noted, returns it. Fails only if memory runs out. Except at `None`, what is noted
    /// of each name stays.
    fn note(&mut self, name: &str, at: usize) -> Mem<Option<usize>>
        ensures there { IfOk result (λ there. there ≡ noted_place self.old name.now) }
        ensures new { OnOk result
            (noted_place self.old name.now ≡ None → IsNotedAt at name.now self.old self.new) }
        ensures absent { OnErr result (noted_place self.old name.now ≡ None) }
        ensures present { is_some (noted_place self.old name.now) ≡ true → (t : Text)
            → noted_place self.new t ≡ noted_place self.old t }
        ensures err { OnErr result ((t : Text) → noted_place self.new t ≡ noted_place self.old t) }
    {
        if let Some(there) = self.names.get(name) {
            return Ok(Some(*there));
        }
        let hash = second_hash(name);
        let Some(there) = self.hashes.insert(hash, at)? else {
            return Ok(None);
        };
        // Sets the place back. A hash that is there takes no memory.
        self.hashes.insert(hash, there)?;
        Ok(Some(there))
    }

    /// Notes the place of a name under the name itself. Fails only if memory runs out; what is
    /// noted then stays.
    #[cold]
    #[inline(never)]
    fn note_itself(&mut self, alloc: Global, name: &str, at: usize) -> Mem<()>
        ensures ok { OnOk result (IsNotedAt at name.now self.old self.new) }
        ensures err { OnErr result ((t : Text) → noted_place self.new t ≡ noted_place self.old t) }
    {
        let text = String::from_str(alloc, name)?;
        self.names.insert(text, at)?;
        Ok(())
    }

    /// Changes the place that is noted of a name. Allocates nothing.
    pub(crate) fn set(&mut self, name: &str, at: usize)
        requires { is_some (noted_place self.old name.now) ≡ true }
        ensures { IsSetTo at name.now self.old self.new }
    {
        if let Some(place) = self.names.get_mut(name) {
            *place = at;
            return;
        }
        if let Some(place) = self.hashes.get_mut(&second_hash(name)) {
            *place = at;
        }
    }

    /// Removes what is noted of a name. Allocates nothing.
    pub(crate) fn remove(&mut self, name: &str)
        ensures own { (t : Text) → same_text name.now t ≡ false
            → is_own self.new t ≡ is_own self.old t }
        ensures others { (t : Text) → same_text name.now t ≡ false
            → AreNotedApart self.old t name.now → noted_place self.new t ≡ noted_place self.old t }
    {
        if self.names.remove(name).is_none() {
            let _ = self.hashes.remove(&second_hash(name));
        }
    }

    /// Removes what is noted of names that these slots do not have. Allocates nothing.
    pub(crate) fn drop_others<T>(&mut self, entries: &[Slot<T>])
        requires { IsRightBefore (length entries.now) self.old (names entries.now) }
        ensures { IsIndexOf self.new (names entries.now) }
    {
        self.names
            .retain(|name, at| is_named_at(entries, *at, name.as_bytes()));
        self.hashes
            .retain(|hash, at| is_hashed_at(entries, *at, *hash));
    }
}

/// Returns `true` if the slot at the place has the name.
pub(crate) fn is_named_at<T>(entries: &[Slot<T>], at: usize, name: &[u8]) -> bool
    ensures { result ≡ stands_at (names entries.now) at name.now }
{
    match entries.get(at) {
        Some(slot) => slot.key.get().as_bytes() == name,
        None => false,
    }
}

/// Returns `true` if the name of the slot at the place has the second hash.
fn is_hashed_at<T>(entries: &[Slot<T>], at: usize, hash: u64) -> bool
    ensures { result ≡ hash_stands_at (names entries.now) at hash }
{
    match entries.get(at) {
        Some(slot) => second_hash(slot.key.get()) == hash,
        None => false,
    }
}

/// Returns the second hash of a name. It has nothing to do with the first, so that names chosen for
/// that are ordinary ones here.
fn second_hash(name: &str) -> u64
    ensures { result ≡ second_hash name.now }
{
    let mut hasher = DefaultHasher::new();
    hasher.write(name.as_bytes());
    hasher.finish()
}
