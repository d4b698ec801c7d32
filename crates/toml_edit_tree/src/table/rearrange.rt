//! Renaming a key of a table, moving it, and inserting one at a place.
ghost use Rattle.std.specs.Prelude.{◌<◌, ◌≡◌, ◌≤◌, IfErr, IfOk, OnErr, OnOk, length};
ghost use Rattle.toml_edit_model.specs.Rearranging.{inserted_slot, moved_slot, renamed_slot};
ghost use Rattle.toml_edit_model.specs.Slots.{has_slot, keyed, place};
ghost use Rattle.toml_edit_slots.specs.Refusals.{IsRefusal};
ghost use Rattle.toml_edit_slots.specs.Renaming.{renaming};
ghost use Rattle.toml_edit_tree.specs.SlotsOf.{slots_of};
ghost use Rattle.toml_edit_tree.specs.View.{fields_view, item_view};

use crate::item::Item;
use crate::table::Table;
use toml_edit_key::Key;
use toml_edit_repr::Mem;
use toml_edit_slots::{Refused, Renamed, Slot};

impl Table {
    /// Gives the key of the name `from` the name `to`.
    ///
    /// The key keeps its place, its decor and its item, and gets the default spelling of its name,
    /// also where that stays the same. If no key has the name `from`, or another one has the name
    /// `to`, nothing changes.
    ///
    /// # Errors
    ///
    /// Returns an `AllocError` if out of memory. Nothing has changed then.
    pub fn rename(&mut self, from: &str, to: &str) -> Mem<Renamed>
        ensures told { IfOk result (λ told. told ≡ renaming from.now to.now (slots_of self.old)) }
        ensures slots { OnOk result
            (slots_of self.new ≡ renamed_slot from.now to.now (slots_of self.old)) }
        ensures fields { fields_view self.new ≡ fields_view self.old }
        ensures err { OnErr result (self.new ≡ self.old) }
    {
        self.slots.rename(from, to)
    }

    /// Moves `key` to index `at` among the keys, and returns `false` if it is missing.
    ///
    /// Placeholders count. The other keys keep their order, and nothing else changes: headers print
    /// by their positions, and not by the order of their keys. A contract requires that `at` is an
    /// index of a key.
    pub fn move_to(&mut self, key: &str, at: usize) -> bool
        requires { at < length (slots_of self.old) }
        ensures found { result ≡ has_slot key.now (slots_of self.old) }
        ensures slots { slots_of self.new ≡ moved_slot key.now at (slots_of self.old) }
        ensures fields { fields_view self.new ≡ fields_view self.old }
    {
        self.slots.move_to(key, at)
    }

    /// Inserts `item` under a new key before what is at index `at` among the keys.
    ///
    /// Placeholders count. A contract requires that `at` is at most the number of slots; there the
    /// key is added at the end.
    ///
    /// # Errors
    ///
    /// Returns a [`Refused`] with the key and the item if a slot has the name of the key, or if out
    /// of memory. Nothing has changed then.
    pub fn insert_at(&mut self, at: usize, key: Key, item: Item) -> Result<(), Refused<Slot<Item>>>
        requires { at ≤ length (slots_of self.old) }
        ensures slots { OnOk result
            (slots_of self.new
            ≡ inserted_slot at (keyed key (item_view item)) (slots_of self.old)) }
        ensures refused { IfErr result
            (IsRefusal (record { key = key; item = item }) (place key.name (slots_of self.old))) }
        ensures fields { fields_view self.new ≡ fields_view self.old }
        ensures err { OnErr result (self.new ≡ self.old) }
    {
        self.slots.insert_at(at, key, item)
    }
}
