//! Slots of an inline table that can be changed, and the calls that return them.
//!
//! The imports that name the type stand in the `impl` blocks: at the head it would import itself,
//! since it has a ghost field.
ghost use Rattle.std.specs.Borrow.{sem};
ghost use Rattle.std.specs.Prelude.{◌<◌, ◌≡◌, IfSome, IsTrue, None, Some, if◌then◌else◌, length, nat_lt, option_and_then, option_map, slice_get};
ghost use Rattle.toml_edit_key.specs.KeyMutView.{key_of};
ghost use Rattle.toml_edit_model.specs.Keys.{reset_key};
ghost use Rattle.toml_edit_model.specs.Slots.{changed_at, lookup_key, on_key, place as place_seen, with_item};
ghost use Rattle.toml_edit_model.specs.TableCalls.{get};
ghost use Rattle.toml_edit_model.specs.Tree.{Key};
ghost use Rattle.toml_edit_slots.specs.Slots.{items_of};
ghost use Rattle.toml_edit_tree.specs.InlineLending.{LendsInlineDottedAt, LendsInlineKeyAt, LendsInlineLeafAt, with_inline_key};
ghost use Rattle.toml_edit_tree.specs.InlineSlots.{inline_fields};
ghost use Rattle.toml_edit_tree.specs.SlotsOf.{inline_slots_of};
ghost use Rattle.toml_edit_tree.specs.View.{item_view};
ghost use Rattle.toml_edit_tree.specs.declared.inline_table.InlineTable.{out-InlineTable};
ghost use Rattle.toml_edit_tree.specs.declared.item.Item.{Item};

use crate::inline_table::InlineTable;
use crate::item::Item;
use toml_edit_key::{Key, KeyMut};
use toml_edit_repr::Decor;

/// A slot of an inline table, to read and change its item and the decor of its key. It may hold an
/// item of any kind.
///
/// Returned by [`InlineTable::slot_mut`], [`InlineTable::get_key_value_mut`] and
/// [`InlineTable::key_value_at_mut`].
///
/// # Examples
///
/// A function that returns `slot.key()`:
///
/// ```rust,ignore
/// pub fn key_in<'a>(slot: &'a InlineSlotMut<'_>) -> &'a Key
/// ```
///
/// From `key_in` of the crate `example_calls`.
#[derive(Drop)]
pub struct InlineSlotMut<'a> {
    table: &'a mut InlineTable,
    at: usize,
    ghost within: { at < length (out-InlineTable table.now).items },
}

impl<'a> InlineSlotMut<'a> {
    ghost use Rattle.toml_edit_tree.specs.InlineSlotParts.{SlotLends, SlotLendsDotted, SlotLendsKey, SlotLendsLeaf, slot_item, slot_key, slot_place, slot_ref, with_slot_item, with_slot_key};

    /// Returns the key.
    pub fn key(&self) -> &Key
        ensures { Some result.now ≡ slot_key self.now }
    {
        &self.table.items.as_slice()[self.at].key
    }

    /// Returns a [`KeyMut`] of the key, which changes its decors and can reset its spelling.
    pub fn key_mut(&mut self) -> KeyMut<'_>
        ensures* writes_back { sem 𝓛 (SlotLendsKey self.entry result) }
        ensures key { slot_key self.old ≡ Some (key_of result) }
        // What the inline table is after a change of the key.
        ensures leaves { (h : Key → Key) → inline_slots_of (slot_ref (with_slot_key self.old h)).now
            ≡ changed_at (slot_place self.old) (on_key h)
            (inline_slots_of (slot_ref self.old).now) }
        ensures keeps { (h : Key → Key)
            → inline_fields (slot_ref (with_slot_key self.old h)).now
            ≡ inline_fields (slot_ref self.old).now }
    {
        let at = self.at;
        self.table.key_in_mut(at)
    }

    /// Returns a mutable reference to the decor of the key where it ends a path: the whitespace and
    /// comments before it, and the whitespace before `=`.
    pub fn leaf_decor_mut(&mut self) -> &mut Decor
        ensures* writes_back { sem 𝓛 (SlotLendsLeaf self.entry result) }
        ensures decor { option_map (λ key. key.leaf) (slot_key self.old) ≡ Some result.now }
        // What the inline table is after a change of the key.
        ensures leaves { (h : Key → Key) → inline_slots_of (slot_ref (with_slot_key self.old h)).now
            ≡ changed_at (slot_place self.old) (on_key h)
            (inline_slots_of (slot_ref self.old).now) }
        ensures keeps { (h : Key → Key)
            → inline_fields (slot_ref (with_slot_key self.old h)).now
            ≡ inline_fields (slot_ref self.old).now }
    {
        let at = self.at;
        self.table.leaf_decor_in_mut(at)
    }

    /// Returns a mutable reference to the whitespace between the key and the dots beside it.
    pub fn dotted_decor_mut(&mut self) -> &mut Decor
        ensures* writes_back { sem 𝓛 (SlotLendsDotted self.entry result) }
        ensures decor { option_map (λ key. key.dotted) (slot_key self.old) ≡ Some result.now }
        // What the inline table is after a change of the key.
        ensures leaves { (h : Key → Key) → inline_slots_of (slot_ref (with_slot_key self.old h)).now
            ≡ changed_at (slot_place self.old) (on_key h)
            (inline_slots_of (slot_ref self.old).now) }
        ensures keeps { (h : Key → Key)
            → inline_fields (slot_ref (with_slot_key self.old h)).now
            ≡ inline_fields (slot_ref self.old).now }
    {
        let at = self.at;
        self.table.dotted_decor_in_mut(at)
    }

    /// Resets the key to its default spelling, and unsets its decor.
    pub fn fmt_key(&mut self)
        ensures same_table { (slot_ref self.new).ghost_name ≡ (slot_ref self.old).ghost_name }
        ensures same_place { slot_place self.new ≡ slot_place self.old }
        ensures table { (slot_ref self.new).now
            ≡ (slot_ref (with_slot_key self.old reset_key)).now }
        ensures slots { inline_slots_of (slot_ref self.new).now
            ≡ changed_at (slot_place self.old) (on_key reset_key)
            (inline_slots_of (slot_ref self.old).now) }
        ensures fields { inline_fields (slot_ref self.new).now
            ≡ inline_fields (slot_ref self.old).now }
    {
        self.table.fmt_key_in(self.at);
    }

    /// Returns the item, which may be of any kind.
    pub fn get(&self) -> &Item
        ensures { Some result.now ≡ slot_item self.now }
    {
        &self.table.items.as_slice()[self.at].item
    }

    /// Returns a mutable reference to the item, which may be of any kind.
    pub fn get_mut(&mut self) -> &mut Item
        ensures* writes_back { sem 𝓛 (SlotLends self.entry result) }
        ensures item { Some result.now ≡ slot_item self.old }
        // What the inline table is after a write through the reference.
        ensures leaves { (w : Item) → inline_slots_of (slot_ref (with_slot_item self.old w)).now
            ≡ changed_at (slot_place self.old) (with_item (item_view w))
            (inline_slots_of (slot_ref self.old).now) }
        ensures keeps { (w : Item)
            → inline_fields (slot_ref (with_slot_item self.old w)).now
            ≡ inline_fields (slot_ref self.old).now }
    {
        let at = self.at;
        self.table.item_at_mut(at)
    }
}

impl InlineTable {
    ghost use Rattle.toml_edit_tree.specs.InlineSlotParts.{LendsInlineItemAt, SlotRestsIfAbsent, slot_item, slot_place, slot_ref};

    /// Returns the slot of `key`, of any kind, or `None` if the key is missing.
    ///
    /// It lends the item by `get_mut` and the key by `key_mut`, one after the other.
    pub fn slot_mut(&mut self, key: &str) -> Option<InlineSlotMut<'_>>
        ensures* absent { sem 𝓛 (SlotRestsIfAbsent self.entry result) }
        ensures same_table { IfSome result
            (λ slot. (slot_ref slot).ghost_name ≡ self.entry.ghost_name) }
        ensures table { IfSome result (λ slot. (slot_ref slot).now ≡ self.old) }
        ensures place { option_map slot_place result
            ≡ place_seen key.now (inline_slots_of self.old) }
    {
        match self.place_of(key) {
            Some(at) => Some(InlineSlotMut { table: self, at }),
            None => None,
        }
    }

    /// Returns the slot of `key`, or `None` if the key is missing or has a placeholder.
    ///
    /// It lends the item by `get_mut` and the key by `key_mut`, one after the other. For
    /// placeholders too, use [`slot_mut`](Self::slot_mut).
    pub fn get_key_value_mut(&mut self, key: &str) -> Option<InlineSlotMut<'_>>
        ensures* absent { sem 𝓛 (SlotRestsIfAbsent self.entry result) }
        ensures same_table { IfSome result
            (λ slot. (slot_ref slot).ghost_name ≡ self.entry.ghost_name) }
        ensures table { IfSome result (λ slot. (slot_ref slot).now ≡ self.old) }
        ensures item { option_and_then (λ slot. option_map item_view (slot_item slot)) result
            ≡ get key.now (inline_slots_of self.old) }
        ensures place { IfSome result
            (λ slot. place_seen key.now (inline_slots_of self.old) ≡ Some (slot_place slot)) }
    {
        match self.held_place(key) {
            Some(at) => Some(InlineSlotMut { table: self, at }),
            None => None,
        }
    }

    /// Returns slot `at`, of any kind, or `None` if `at` is not below [`slots`](Self::slots).
    ///
    /// In a loop over numbers it takes the place of an `iter_mut`.
    pub fn key_value_at_mut(&mut self, at: usize) -> Option<InlineSlotMut<'_>>
        ensures* absent { sem 𝓛 (SlotRestsIfAbsent self.entry result) }
        ensures same_table { IfSome result
            (λ slot. (slot_ref slot).ghost_name ≡ self.entry.ghost_name) }
        ensures table { IfSome result (λ slot. (slot_ref slot).now ≡ self.old) }
        ensures place { option_map slot_place result
            ≡ if nat_lt at (length (inline_slots_of self.old)) then Some at else None }
    {
        if self.has_place(at) {
            Some(InlineSlotMut { table: self, at })
        } else {
            None
        }
    }

    /// Returns a [`KeyMut`] of the key of this name, or `None` if it is missing. A key without a
    /// value is returned too.
    ///
    /// It changes the decors of the key and can reset its spelling. The contract promises nothing
    /// about the inline table after this call, even where it returns `None`. Where a proof needs
    /// that, use [`slot_mut`](Self::slot_mut), which promises it.
    pub fn key_mut(&mut self, key: &str) -> Option<KeyMut<'_>>
        ensures { option_map key_of result ≡ lookup_key key.now (inline_slots_of self.old) }
    {
        match self.place_of(key) {
            Some(at) => Some(self.key_in_mut(at)),
            None => None,
        }
    }

    /// Returns `true` if `at` is below the number of slots.
    fn has_place(&self, at: usize) -> bool
        ensures there { result ≡ nat_lt at (length (inline_slots_of self.now)) }
        ensures within { IsTrue result → at < length (out-InlineTable self.now).items }
    {
        at < self.items.len()
    }

    /// Returns a mutable reference to the item of slot `at`.
    fn item_at_mut(&mut self, at: usize) -> &mut Item
        requires { at < length (out-InlineTable self.old).items }
        ensures* writes_back { sem 𝓛 (LendsInlineItemAt self.entry at result) }
        ensures item { Some result.now ≡ slice_get (items_of (out-InlineTable self.old).items) at }
    {
        self.items.item_mut(at)
    }

    /// Returns a [`KeyMut`] of the key of slot `at`.
    fn key_in_mut(&mut self, at: usize) -> KeyMut<'_>
        requires { at < length (out-InlineTable self.old).items }
        ensures* writes_back { sem 𝓛 (LendsInlineKeyAt self.entry at result) }
        ensures key { option_map (λ slot. slot.key) (slice_get (out-InlineTable self.old).items at)
            ≡ Some (key_of result) }
    {
        self.items.key_mut(at)
    }

    /// Returns a mutable reference to the leaf decor of the key of slot `at`.
    fn leaf_decor_in_mut(&mut self, at: usize) -> &mut Decor
        requires { at < length (out-InlineTable self.old).items }
        ensures* writes_back { sem 𝓛 (LendsInlineLeafAt self.entry at result) }
        ensures decor { option_map (λ slot. slot.key.leaf)
            (slice_get (out-InlineTable self.old).items at) ≡ Some result.now }
    {
        self.items.leaf_decor_mut(at)
    }

    /// Returns a mutable reference to the dotted decor of the key of slot `at`.
    fn dotted_decor_in_mut(&mut self, at: usize) -> &mut Decor
        requires { at < length (out-InlineTable self.old).items }
        ensures* writes_back { sem 𝓛 (LendsInlineDottedAt self.entry at result) }
        ensures decor { option_map (λ slot. slot.key.dotted)
            (slice_get (out-InlineTable self.old).items at) ≡ Some result.now }
    {
        self.items.dotted_decor_mut(at)
    }

    /// Resets the key of slot `at` to its default spelling, and unsets its decor.
    fn fmt_key_in(&mut self, at: usize)
        requires { at < length (out-InlineTable self.old).items }
        ensures { self.new ≡ with_inline_key at reset_key self.old }
    {
        self.items.fmt_key(at);
    }
}
