//! Renaming a key of an inline table, moving it, and inserting one at a place.
ghost use Rattle.std.specs.Prelude.{◌<◌, ◌≡◌, ◌≤◌, IfErr, IfOk, OnErr, OnOk, length};
ghost use Rattle.toml_edit_model.specs.Rearranging.{inserted_slot, moved_slot, renamed_slot};
ghost use Rattle.toml_edit_model.specs.Slots.{has_slot, keyed, place};
ghost use Rattle.toml_edit_slots.specs.Refusals.{IsRefusal};
ghost use Rattle.toml_edit_slots.specs.Renaming.{renaming};
ghost use Rattle.toml_edit_tree.specs.InlineSlots.{inline_fields};
ghost use Rattle.toml_edit_tree.specs.SlotsOf.{inline_slots_of};
ghost use Rattle.toml_edit_tree.specs.View.{value_view};
ghost use Rattle.toml_edit_tree.specs.declared.item.Item.TheVariants as items;

use crate::inline_table::InlineTable;
use crate::item::Item;
use crate::value::Value;
use toml_edit_key::Key;
use toml_edit_repr::Mem;
use toml_edit_slots::{Refused, Renamed, Slot};

impl InlineTable {
    /// Gives the key of the name `from` the name `to`.
    ///
    /// The key keeps its place, its decor and its value, and gets the default spelling of its name,
    /// also where that stays the same. If no key has the name `from`, or another one has the name
    /// `to`, nothing changes.
    ///
    /// # Errors
    ///
    /// Returns an `AllocError` if out of memory. Nothing has changed then.
    pub fn rename(&mut self, from: &str, to: &str) -> Mem<Renamed>
        ensures told { IfOk result
            (λ told. told ≡ renaming from.now to.now (inline_slots_of self.old)) }
        ensures slots { OnOk result
            (inline_slots_of self.new ≡ renamed_slot from.now to.now (inline_slots_of self.old)) }
        ensures fields { inline_fields self.new ≡ inline_fields self.old }
        ensures err { OnErr result (self.new ≡ self.old) }
    {
        self.items.rename(from, to)
    }

    /// Moves `key` to index `at` among the keys, and returns `false` if it is missing.
    ///
    /// Placeholders count. The other keys keep their order. A contract requires that `at` is an
    /// index of a key.
    pub fn move_to(&mut self, key: &str, at: usize) -> bool
        requires { at < length (inline_slots_of self.old) }
        ensures found { result ≡ has_slot key.now (inline_slots_of self.old) }
        ensures slots { inline_slots_of self.new
            ≡ moved_slot key.now at (inline_slots_of self.old) }
        ensures fields { inline_fields self.new ≡ inline_fields self.old }
    {
        self.items.move_to(key, at)
    }

    /// Inserts `value` under a new key before what is at index `at` among the keys.
    ///
    /// Placeholders count. A contract requires that `at` is at most the number of slots; there the
    /// key is added at the end.
    ///
    /// # Errors
    ///
    /// Returns a [`Refused`] with the key and the value if a slot has the name of the key, or if
    /// out of memory. Nothing has changed then.
    pub fn insert_at(
        &mut self,
        at: usize,
        key: Key,
        value: Value,
    ) -> Result<(), Refused<Slot<Item>>>
        requires { at ≤ length (inline_slots_of self.old) }
        ensures slots { OnOk result
            (inline_slots_of self.new
            ≡ inserted_slot at (keyed key (value_view value)) (inline_slots_of self.old)) }
        ensures refused { IfErr result
            (IsRefusal (record { key = key; item = items.Value value })
            (place key.name (inline_slots_of self.old))) }
        ensures fields { inline_fields self.new ≡ inline_fields self.old }
        ensures err { OnErr result (self.new ≡ self.old) }
    {
        self.items.insert_at(at, key, Item::Value(value))
    }
}
