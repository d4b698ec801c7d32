//! A slot of a table of either kind that can be changed.
ghost use Rattle.std.specs.Prelude.{◌<◌, length};

use crate::HasSlots;
use toml_edit_key::{Key, KeyMut};
use toml_edit_repr::Decor;
use toml_edit_tree::Item;

/// A slot of a table of either kind, to read and change its item and the decor of its key. It may
/// be a placeholder.
///
/// Returned by [`AnyTable::slot_at`](crate::AnyTable::slot_at) and by the calls of
/// [`TableLike`](crate::TableLike).
///
/// # Examples
///
/// A function that returns `slot.get()`:
///
/// ```rust,ignore
/// pub fn item_in<'a, T: HasSlots>(slot: &'a TableLikeSlot<'_, T>) -> &'a Item
/// ```
///
/// From `item_in` of the crate `example_calls`.
#[derive(Drop)]
pub struct TableLikeSlot<'a, T: HasSlots> {
    pub(crate) table: &'a mut T,
    pub(crate) at: usize,
    ghost within: { at < length (T.entries table.now) },
}

impl<'a, T: HasSlots> TableLikeSlot<'a, T> {
    ghost use Rattle.std.specs.Prelude.{◌≡◌, IfSome, Some, option_map};
    ghost use Rattle.std.specs.Borrow.{sem};
    ghost use Rattle.toml_edit_key.specs.KeyMutView.{key_of};
    ghost use Rattle.toml_edit_model.specs.Keys.{reset_key};
    ghost use Rattle.toml_edit_model.specs.Slots.{changed_at, on_key, with_item, without};
    ghost use Rattle.toml_edit_model.specs.Tree.{Key};
    ghost use Rattle.toml_edit_table_like.specs.Lending.{with_item_at, with_key_at};
    ghost use Rattle.toml_edit_table_like.specs.SlotParts.{slot_item, slot_key, slot_place, slot_ref, with_slot_item, with_slot_key, SlotLends, SlotLendsDotted, SlotLendsLeaf, SlotLendsKey};
    ghost use Rattle.toml_edit_tree.specs.View.{item_view};
    ghost use Rattle.toml_edit_tree.specs.declared.item.Item.{Item};

    /// Returns the key.
    pub fn key(&self) -> &Key
        ensures { Some result.now ≡ slot_key self.now }
    {
        &self.table.as_slots().as_slice()[self.at].key
    }

    /// Returns the item, which may be a placeholder.
    pub fn get(&self) -> &Item
        ensures { Some result.now ≡ slot_item self.now }
    {
        &self.table.as_slots().as_slice()[self.at].item
    }

    /// Returns a mutable reference to the item, which may be a placeholder.
    pub fn get_mut(&mut self) -> &mut Item
        ensures* writes_back { sem 𝓛 (SlotLends T.row self.entry result) }
        ensures item { Some result.now ≡ slot_item self.old }
        // What the table is after a write through the reference.
        ensures leaves { (w : Item) → T.slots_of (slot_ref (with_slot_item self.old w)).now
            ≡ changed_at (slot_place self.old) (with_item (item_view w))
            (T.slots_of (slot_ref self.old).now) }
        ensures keeps { (w : Item)
            → T.beside (slot_ref (with_slot_item self.old w)).now
            ≡ T.beside (slot_ref self.old).now }
    {
        let at = self.at;
        self.table.item_at_mut(at)
    }

    /// Returns a [`KeyMut`] of the key, which changes its decors and can reset its spelling.
    pub fn key_mut(&mut self) -> KeyMut<'_>
        ensures* writes_back { sem 𝓛 (SlotLendsKey T.row self.entry result) }
        ensures key { slot_key self.old ≡ Some (key_of result) }
        // What the table is after a change of the key.
        ensures leaves { (h : Key → Key) → T.slots_of (slot_ref (with_slot_key self.old h)).now
            ≡ changed_at (slot_place self.old) (on_key h) (T.slots_of (slot_ref self.old).now) }
        ensures keeps { (h : Key → Key)
            → T.beside (slot_ref (with_slot_key self.old h)).now
            ≡ T.beside (slot_ref self.old).now }
    {
        let at = self.at;
        self.table.key_at_mut(at)
    }

    /// Returns a mutable reference to the decor of the key where it ends a path: the whitespace and
    /// comments before its path, and the whitespace before `=`.
    pub fn leaf_decor_mut(&mut self) -> &mut Decor
        ensures* writes_back { sem 𝓛 (SlotLendsLeaf T.row self.entry result) }
        ensures decor { option_map (λ key. key.leaf) (slot_key self.old) ≡ Some result.now }
        // What the table is after a change of the key.
        ensures leaves { (h : Key → Key) → T.slots_of (slot_ref (with_slot_key self.old h)).now
            ≡ changed_at (slot_place self.old) (on_key h) (T.slots_of (slot_ref self.old).now) }
        ensures keeps { (h : Key → Key)
            → T.beside (slot_ref (with_slot_key self.old h)).now
            ≡ T.beside (slot_ref self.old).now }
    {
        let at = self.at;
        self.table.leaf_decor_at_mut(at)
    }

    /// Returns a mutable reference to the decor of the key beside dots: the whitespace between the
    /// key and the dots before and after it.
    pub fn dotted_decor_mut(&mut self) -> &mut Decor
        ensures* writes_back { sem 𝓛 (SlotLendsDotted T.row self.entry result) }
        ensures decor { option_map (λ key. key.dotted) (slot_key self.old) ≡ Some result.now }
        // What the table is after a change of the key.
        ensures leaves { (h : Key → Key) → T.slots_of (slot_ref (with_slot_key self.old h)).now
            ≡ changed_at (slot_place self.old) (on_key h) (T.slots_of (slot_ref self.old).now) }
        ensures keeps { (h : Key → Key)
            → T.beside (slot_ref (with_slot_key self.old h)).now
            ≡ T.beside (slot_ref self.old).now }
    {
        let at = self.at;
        self.table.dotted_decor_at_mut(at)
    }

    /// Resets the key to its default spelling and unsets its decors, so a comment above it goes.
    pub fn fmt_key(&mut self)
        ensures same_table { (slot_ref self.new).ghost_name ≡ (slot_ref self.old).ghost_name }
        ensures same_place { slot_place self.new ≡ slot_place self.old }
        ensures table { (slot_ref self.new).now
            ≡ with_key_at T.entries T.with_entries (slot_place self.old) reset_key
            (slot_ref self.old).now }
    {
        let at = self.at;
        self.table.as_slots_mut().fmt_key(at);
    }

    /// Replaces the item and returns the old one. The key keeps its spelling and its decor.
    ///
    /// The comment after an old value goes with it, since it is in the decor of the value. In an
    /// inline table no item is made a value.
    pub fn insert(&mut self, item: Item) -> Item
        ensures same_table { (slot_ref self.new).ghost_name ≡ (slot_ref self.old).ghost_name }
        ensures same_place { slot_place self.new ≡ slot_place self.old }
        ensures item { Some result ≡ slot_item self.old }
        ensures table { (slot_ref self.new).now
            ≡ with_item_at T.entries T.with_entries (slot_place self.old) item
            (slot_ref self.old).now }
    {
        let at = self.at;
        self.table.as_slots_mut().replace_item(at, item)
    }

    /// Removes the slot and returns its item, keeping the order of the others. The key and its
    /// comments are dropped.
    ///
    /// In an inline table the item is not made a value.
    pub fn remove(self) -> Item
        ensures item { Some result ≡ slot_item self.entry }
        ensures removed { IfSome (slot_key self.entry)
            (λ key. T.slots_of self.exit.0.now
            ≡ without key.name (T.slots_of (slot_ref self.entry).now)) }
        ensures beside { T.beside self.exit.0.now ≡ T.beside (slot_ref self.entry).now }
        ensures origin { T.origin self.exit.0.now ≡ T.origin (slot_ref self.entry).now }
    {
        let at = self.at;
        self.table.as_slots_mut().remove_at(at).into_item()
    }
}
