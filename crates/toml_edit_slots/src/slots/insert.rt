//! Insertion, removal and look-up by a key.
ghost use Rattle.std.specs.Prelude.{◌≡◌, ◌<◌, OnOk, OnErr, IfOk, IfErr, None, Some, length, option_map, slice_get};
ghost use Rattle.toml_edit_model.specs.Slots.{AreApart, inserted_formatted, lookup, lookup_slot, place, put, with_item, without};
ghost use Rattle.toml_edit_slots.specs.Seen.{pair_read, pair_seen, seen};
ghost use Rattle.toml_edit_slots.specs.Slots as code;

use super::{NoMemory, Slot, Slots};
use std::mem;
use toml_edit_key::Key;
use toml_edit_repr::Mem;

impl<T> Slots<T> {
    /// Inserts an item under a copy of the key with its formatting, and returns the item that was
    /// there.
    ///
    /// A key that is there keeps its place, and is replaced by the copy. A new key goes after the
    /// others.
    ///
    /// # Errors
    ///
    /// Fails only if memory runs out. The slots then stay as they were, and the error returns the
    /// item.
    pub fn insert_formatted(&mut self, key: &Key, item: T) -> Result<Option<T>, NoMemory<T>>
        ensures old { IfOk result (λ old. old ≡ lookup key.now.name (seen self.old)) }
        ensures slots { OnOk result
            (seen self.new ≡ inserted_formatted key.now item (seen self.old)) }
        ensures back { IfErr result (λ refused. refused.0 ≡ item) }
        ensures err { OnErr result (self.new ≡ self.old) }
    {
        let Ok(key) = key.clone(*self.entries.allocator()) else {
            return Err(NoMemory(item));
        };
        match self.find(key.get()) {
            Some(at) => {
                let present = &mut self.entries[at];
                Ok(Some(mem::replace(present, Slot { key, item }).into_item()))
            }
            None => match self.push(Slot { key, item }) {
                Ok(()) => Ok(None),
                Err(refused) => Err(NoMemory(refused.0.into_item())),
            },
        }
    }

    /// Removes the slot with the name, and returns its key and its item, or `None` if no slot has
    /// the name.
    ///
    /// The others keep their order.
    pub fn remove_entry(&mut self, name: &str) -> Option<(Key, T)>
        ensures slot { option_map pair_seen result ≡ lookup_slot name.now (seen self.old) }
        ensures slots { seen self.new ≡ without name.now (seen self.old) }
        ensures absent { place name.now (seen self.new) ≡ None }
    {
        let Slot { key, item } = self.remove(name)?;
        Some((key, item))
    }

    /// Inserts an item under a key.
    ///
    /// A key that is there keeps its place and its formatting, and only its item is replaced. A new
    /// key goes after the others.
    ///
    /// # Errors
    ///
    /// Fails only if memory runs out. The slots then stay as they were; the key and the item are
    /// dropped.
    pub fn extend_one(&mut self, key: Key, item: T) -> Mem<()>
    where
        T: Drop,
        ensures slots { OnOk result
            (seen self.new ≡ put (with_item item) (record { key = key; item = item })
            (seen self.old)) }
        ensures err { OnErr result (self.new ≡ self.old) }
    {
        let _ = &self.entries;
        match self.find(key.get()) {
            Some(at) => {
                self.replace_item(at, item);
                Ok(())
            }
            None => {
                self.push(Slot { key, item })?;
                Ok(())
            }
        }
    }

    /// Replaces the item at the place, and returns the old one.
    pub fn replace_item(&mut self, at: usize, item: T) -> T
        requires { at < length self.old }
        ensures old { slice_get (code.items_of self.old) at ≡ Some result }
        ensures slots { self.new ≡ code.with_item at item self.old }
    {
        let slot = &mut self.entries[at];
        mem::replace(&mut slot.item, item)
    }

    /// Returns the key and the item at the place, or `None` if it is after the last slot.
    pub fn key_value_at(&self, at: usize) -> Option<(&Key, &T)>
        ensures { option_map pair_read result ≡ slice_get (seen self.now) at }
    {
        let slot = self.entries.get(at)?;
        Some((&slot.key, &slot.item))
    }

    /// Returns the key with the name, and its item, or `None` if no key has the name.
    pub fn get_key_value(&self, name: &str) -> Option<(&Key, &T)>
        ensures slot { option_map pair_read result ≡ lookup_slot name.now (seen self.now) }
        // No two keys have one name.
        ensures apart { AreApart (seen self.now) }
    {
        let _ = &self.entries;
        let at = self.find(name)?;
        self.key_value_at(at)
    }
}
