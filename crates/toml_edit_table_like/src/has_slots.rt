//! `HasSlots`: what a type gives to be a table of either kind, and what follows from it.
ghost use Rattle.std.specs.Prelude.{◌≡◌, ◌<◌, IfSome, IsTrue, None, Some, length, nat_lt, option_and_then, option_map, slice_get};
ghost use Rattle.std.proofs.Common.{refl};
ghost use Rattle.std.specs.Borrow.{sem};
ghost use Rattle.toml_edit_key.specs.KeyMutView.{key_of};
ghost use Rattle.toml_edit_model.specs.Slots.{AreApart, place as place_seen};
ghost use Rattle.toml_edit_model.specs.TableCalls.{get};
ghost use Rattle.toml_edit_slots.specs.Slots.{items_of, place};
ghost use Rattle.toml_edit_table_like.specs.Kinds.{inline_again, inline_beside, inline_entries, inline_keeps, inline_shows, inline_stays, inline_takes, table_again, table_beside, table_entries, table_keeps, table_shows, table_stays, table_takes};
ghost use Rattle.toml_edit_table_like.specs.Lending.{LendsDottedAt, LendsItemAt, LendsKeyAt, LendsLeafAt, LendsSlots};
ghost use Rattle.toml_edit_tree.specs.ContainerParts.{holding, table_holding};
ghost use Rattle.toml_edit_tree.specs.SlotsOf.{inline_slots_of, slots_of as table_slots_of};
ghost use Rattle.toml_edit_tree.specs.View.{item_view};

use toml_edit_key::KeyMut;
use toml_edit_repr::Decor;
use toml_edit_slots::Slots;
use toml_edit_tree::{InlineTable, Item, Table, filled_place};

/// A type made of slots, which is what an [`AnyTable`](crate::AnyTable) has to be.
///
/// It is implemented for [`Table`], [`InlineTable`] and [`TableRefMut`](crate::TableRefMut). An
/// implementation gives its slots by reference, and proves that writing other slots changes nothing
/// else. The other calls are made of these.
///
/// # Examples
///
/// With a `table` of any type that is `HasSlots`:
///
/// ```rust,ignore
/// table.as_slots().len()
/// ```
///
/// From `count_slots` of the crate `example_calls`.
pub trait HasSlots {
    ghost use Rattle.std.specs.Borrow.{GName};
    ghost use Rattle.std.specs.Prelude.{List, Option};
    ghost use Rattle.toml_edit_model.specs.Slots.{Slot};
    ghost use Rattle.toml_edit_model.specs.Tree.{Node};
    ghost use Rattle.toml_edit_slots.specs.declared.slots.Slot as code;
    ghost use Rattle.toml_edit_table_like.specs.Shown.{shown};
    ghost use Rattle.toml_edit_tree.specs.declared.item.Item.{Item};

    /// The slots, in order.
    ghost slots_of: { Self → List (Slot Node) };

    /// The table without its slots.
    ghost beside: { Self → Node };

    /// The slots of the code, and the table with other slots.
    ghost entries: { Self → List (code.Slot Item) };

    ghost with_entries: { List (code.Slot Item) → Self → Self };

    /// `entries` are the slots that `slots_of` shows.
    ghost shows: { (t : Self) → slots_of t ≡ shown (entries t) };

    /// Other slots replace these, and change nothing else.
    ghost takes: { (es : List (code.Slot Item)) (t : Self) → entries (with_entries es t) ≡ es };

    ghost keeps: { (es : List (code.Slot Item)) (t : Self)
        → beside (with_entries es t) ≡ beside t };

    ghost again: { (es fs : List (code.Slot Item)) (t : Self)
        → with_entries es (with_entries fs t) ≡ with_entries es t };

    ghost stays: { (t : Self) → with_entries (entries t) t ≡ t };

    /// The mutable reference that the table was made of, if it was made of one. No call replaces
    /// it.
    ghost origin: { Self → Option GName };

    ghost holds: { (es : List (code.Slot Item)) (t : Self)
        → origin (with_entries es t) ≡ origin t };

    /// Returns the slots.
    fn as_slots(&self) -> &Slots<Item>
        ensures { result.now ≡ entries self.now };

    /// Returns a mutable reference to the slots.
    fn as_slots_mut(&mut self) -> &mut Slots<Item>
        ensures* writes_back { sem 𝓛 (LendsSlots Self.row with_entries self.entry result) }
        ensures slots { result.now ≡ entries self.old };

    /// Returns a mutable reference to the item of slot `at`, which a contract requires to exist.
    fn item_at_mut(&mut self, at: usize) -> &mut Item
        requires { at < length (entries self.old) }
        ensures* writes_back { sem 𝓛
            (LendsItemAt Self.row entries with_entries self.entry at result) }
        ensures item { Some result.now ≡ slice_get (items_of (entries self.old)) at }
    {
        let slots = self.as_slots_mut();
        slots.item_mut(at)
    }

    /// Returns a [`KeyMut`] of the key of slot `at`, which a contract requires to exist.
    fn key_at_mut(&mut self, at: usize) -> KeyMut<'_>
        requires { at < length (entries self.old) }
        ensures* writes_back { sem 𝓛
            (LendsKeyAt Self.row entries with_entries self.entry at result) }
        ensures key { option_map (λ slot. slot.key) (slice_get (entries self.old) at)
            ≡ Some (key_of result) }
    {
        let slots = self.as_slots_mut();
        slots.key_mut(at)
    }

    /// Returns a mutable reference to the leaf decor of the key of slot `at`: the whitespace and
    /// comments before its path, and the whitespace before `=`.
    fn leaf_decor_at_mut(&mut self, at: usize) -> &mut Decor
        requires { at < length (entries self.old) }
        ensures* writes_back { sem 𝓛
            (LendsLeafAt Self.row entries with_entries self.entry at result) }
        ensures decor { option_map (λ slot. slot.key.leaf) (slice_get (entries self.old) at)
            ≡ Some result.now }
    {
        let slots = self.as_slots_mut();
        slots.leaf_decor_mut(at)
    }

    /// Returns a mutable reference to the whitespace between the key of slot `at` and the dots
    /// beside it.
    fn dotted_decor_at_mut(&mut self, at: usize) -> &mut Decor
        requires { at < length (entries self.old) }
        ensures* writes_back { sem 𝓛
            (LendsDottedAt Self.row entries with_entries self.entry at result) }
        ensures decor { option_map (λ slot. slot.key.dotted) (slice_get (entries self.old) at)
            ≡ Some result.now }
    {
        let slots = self.as_slots_mut();
        slots.dotted_decor_mut(at)
    }

    /// Returns the number of the slot of `key`, of any kind, or `None` if the key is missing.
    ///
    /// No two keys have the same name.
    fn place_of(&self, key: &str) -> Option<usize>
        ensures place { result ≡ place key.now (entries self.now) }
        ensures there { result ≡ place_seen key.now (slots_of self.now) }
        ensures within { IfSome result (λ at. at < length (entries self.now)) }
        ensures apart { AreApart (slots_of self.now) }
    {
        let slots = self.as_slots();
        // No two keys have one name, says its contract.
        let _ = slots.as_slice();
        slots.find(key)
    }

    /// Returns the number of the slot of `key`, or `None` if the key is missing or has a
    /// placeholder.
    fn filled_place_of(&self, key: &str) -> Option<usize>
        ensures item { option_map item_view
            (option_and_then (slice_get (items_of (entries self.now))) result)
            ≡ get key.now (slots_of self.now) }
        ensures there { IfSome result (λ at. place_seen key.now (slots_of self.now) ≡ Some at) }
        ensures within { IfSome result (λ at. at < length (entries self.now)) }
    {
        filled_place(self.as_slots(), key)
    }

    /// Returns `true` if `at` is below the number of slots.
    fn has_place(&self, at: usize) -> bool
        ensures there { result ≡ nat_lt at (length (slots_of self.now)) }
        ensures within { IsTrue result → at < length (entries self.now) }
    {
        at < self.as_slots().len()
    }
}

impl HasSlots for Table {
    ghost slots_of = { table_slots_of };

    ghost beside = { table_beside };

    ghost entries = { table_entries };

    ghost with_entries = { table_holding };

    ghost shows = { table_shows };

    ghost takes = { table_takes };

    ghost keeps = { table_keeps };

    ghost again = { table_again };

    ghost stays = { table_stays };

    ghost origin = { λ t. None };

    ghost holds = { λ es t. refl };

    fn as_slots(&self) -> &Slots<Item> {
        &self.slots
    }

    fn as_slots_mut(&mut self) -> &mut Slots<Item> {
        &mut self.slots
    }
}

impl HasSlots for InlineTable {
    ghost slots_of = { inline_slots_of };

    ghost beside = { inline_beside };

    ghost entries = { inline_entries };

    ghost with_entries = { holding };

    ghost shows = { inline_shows };

    ghost takes = { inline_takes };

    ghost keeps = { inline_keeps };

    ghost again = { inline_again };

    ghost stays = { inline_stays };

    ghost origin = { λ t. None };

    ghost holds = { λ es t. refl };

    fn as_slots(&self) -> &Slots<Item> {
        &self.items
    }

    fn as_slots_mut(&mut self) -> &mut Slots<Item> {
        &mut self.items
    }
}
