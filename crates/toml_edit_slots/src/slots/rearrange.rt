//! Calls that rename a slot, move it, or insert one at a place.
ghost use Rattle.std.specs.Prelude.{◌≡◌, ◌<◌, ◌≤◌, IfOk, IfErr, None, OnErr, OnOk, Some, length};
ghost use Rattle.toml_edit_model.specs.Rearranging.{inserted_slot, moved_slot, renamed_key, renamed_slot};
ghost use Rattle.toml_edit_model.specs.Slots.{has_slot, keyed};
ghost use Rattle.toml_edit_slots.specs.InPlace.{moved};
ghost use Rattle.toml_edit_slots.specs.Refusals.{IsRefusal};
ghost use Rattle.toml_edit_slots.specs.Renaming.{renaming, with_decors_of};
ghost use Rattle.toml_edit_slots.specs.Seen.{seen};
ghost use Rattle.toml_edit_slots.specs.Slots.{on_key, place};

use super::{Refused, Slot, Slots};
use crate::index::{add_name, index_those};
use std::mem;
use toml_edit_key::Key;
use toml_edit_repr::Mem;

/// What a call of [`Slots::rename`] has done.
#[derive(Clone, Copy, Debug, PartialEq, Eq)]
pub enum Renamed {
    /// The slot has the new name.
    Done,
    /// No slot has the old name. Nothing has changed.
    Absent,
    /// Another slot has the new name. Nothing has changed.
    Taken,
}

impl<T> Slots<T> {
    /// Gives the slot of the name `from` the name `to`.
    ///
    /// The slot keeps its place, its item, and the decors of its key. The key gets the default
    /// spelling of its name, also where that stays the same. If no slot has the name `from`, or
    /// another one has the name `to`, nothing changes.
    ///
    /// # Errors
    ///
    /// Fails only if memory runs out. The slots then stay as they were.
    pub fn rename(&mut self, from: &str, to: &str) -> Mem<Renamed>
        ensures told { IfOk result (λ told. told ≡ renaming from.now to.now (seen self.old)) }
        ensures slots { OnOk result (seen self.new ≡ renamed_slot from.now to.now (seen self.old)) }
        ensures err { OnErr result (self.new ≡ self.old) }
    {
        let _ = &self.entries;
        let Some(at) = self.find(from) else {
            return Ok(Renamed::Absent);
        };
        match self.find(to) {
            Some(other) => {
                if other != at {
                    return Ok(Renamed::Taken);
                }
                self.respell_at(at, to)?;
            }
            None => self.rename_at(at, to)?,
        }
        Ok(Renamed::Done)
    }

    /// Resets the spelling of the key at the place, whose name this is. The decors stay.
    ///
    /// Fails only if memory runs out; the slots then stay as they were.
    fn respell_at(&mut self, at: usize, name: &str) -> Mem<()>
        requires { place name.now self.old ≡ Some at }
        ensures ok { OnOk result (self.new ≡ on_key at (renamed_key name.now) self.old) }
        ensures err { OnErr result (self.new ≡ self.old) }
    {
        let key = Key::from_text(*self.entries.allocator(), name)?;
        replace_key(&mut self.entries, at, key);
        Ok(())
    }

    /// Gives the slot at the place a name that no slot has. The decors of its key stay.
    ///
    /// Fails only if memory runs out; the slots then stay as they were.
    fn rename_at(&mut self, at: usize, name: &str) -> Mem<()>
        requires at { at < length self.old }
        requires new { place name.now self.old ≡ None }
        ensures ok { OnOk result (self.new ≡ on_key at (renamed_key name.now) self.old) }
        ensures err { OnErr result (self.new ≡ self.old) }
    {
        let alloc = *self.entries.allocator();
        let key = Key::from_text(alloc, name)?;
        add_name(&mut self.index, alloc, &self.entries, name)?;
        replace_key(&mut self.entries, at, key);
        index_those(&mut self.index, &self.entries);
        Ok(())
    }

    /// Moves the slot of the name to the place, and returns whether there is one.
    ///
    /// The others keep their order. Allocates nothing.
    pub fn move_to(&mut self, name: &str, at: usize) -> bool
        requires { at < length self.old }
        ensures found { result ≡ has_slot name.now (seen self.old) }
        ensures slots { seen self.new ≡ moved_slot name.now at (seen self.old) }
    {
        let _ = &self.entries;
        match self.find(name) {
            Some(from) => {
                self.move_at(from, at);
                true
            }
            None => false,
        }
    }

    /// Inserts an item under a new key at the place. The slots from there on move up.
    ///
    /// # Errors
    ///
    /// Fails if a slot has the name already, or if the name is new and memory runs out. The slots
    /// then stay as they were, and the error returns the key and the item.
    pub fn insert_at(&mut self, at: usize, key: Key, item: T) -> Result<(), Refused<Slot<T>>>
        requires { at ≤ length self.old }
        ensures slots { OnOk result
            (seen self.new ≡ inserted_slot at (keyed key item) (seen self.old)) }
        ensures new { OnOk result (place key.name self.old ≡ None) }
        ensures refused { IfErr result
            (IsRefusal (record { key = key; item = item }) (place key.name self.old)) }
        ensures err { OnErr result (self.new ≡ self.old) }
    {
        let last = self.entries.len();
        match self.try_push(Slot { key, item }) {
            Ok(()) => {
                self.move_at(last, at);
                Ok(())
            }
            Err(refused) => Err(refused),
        }
    }

    /// Moves the slot at one place to another. The others keep their order. Allocates nothing.
    fn move_at(&mut self, from: usize, to: usize)
        requires from { from < length self.old }
        requires to { to < length self.old }
        ensures { self.new ≡ moved from to self.old }
    {
        move_element(&mut self.entries, from, to);
        if from != to {
            index_those(&mut self.index, &self.entries);
        }
    }
}

/// Moves the element at one place to another. The others keep their order.
fn move_element<X>(elements: &mut Vec<X>, from: usize, to: usize)
    requires from { from < length elements.old.items }
    requires to { to < length elements.old.items }
    ensures { elements.new.items ≡ moved from to elements.old.items }
{
    move_in(elements.as_mut_slice(), from, to);
}

/// Does what `move_element` does, in a slice.
fn move_in<X>(items: &mut [X], from: usize, to: usize)
    requires from { from < length items.old }
    requires to { to < length items.old }
    ensures { items.new ≡ moved from to items.old }
{
    if from < to {
        items[from..to + 1].rotate_left(1);
    } else {
        items[to..from + 1].rotate_right(1);
    }
}

/// Puts the key in the place of another one, whose decors it gets.
fn replace_key<T>(entries: &mut Vec<Slot<T>>, at: usize, key: Key)
    requires { at < length entries.old.items }
    ensures { entries.new.items ≡ on_key at (with_decors_of key) entries.old.items }
{
    let slot = &mut entries[at];
    change_key(&mut slot.key, key);
}

/// Replaces a key by another one, which gets its decors.
fn change_key(present: &mut Key, key: Key)
    ensures { present.new ≡ with_decors_of key present.old }
{
    let leaf = mem::take(present.leaf_decor_mut());
    let dotted = mem::take(present.dotted_decor_mut());
    let key = key.with_leaf_decor(leaf).with_dotted_decor(dotted);
    drop(mem::replace(present, key));
}
