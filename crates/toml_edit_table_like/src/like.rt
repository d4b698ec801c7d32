//! The traits of tables of either kind, and their implementations for `Table` and `InlineTable`.
ghost use Rattle.std.specs.Borrow.{sem};
ghost use Rattle.std.specs.Option.{option_copied, unwrap_or};
ghost use Rattle.std.specs.Prelude.{◌≡◌, ◌<◌, ◌↔◌, [], true, IfErr, IfOk, IfSome, IsOk, IsSome, IsTrue, None, OnErr, OnOk, Some, if◌then◌else◌, length, nat_lt, option_and_then, option_map, slice_get};
ghost use Rattle.toml_edit_key.specs.KeyMutView.{key_of};
ghost use Rattle.toml_edit_model.specs.Conversions.{formatted};
ghost use Rattle.toml_edit_model.specs.Iterating.{filled, filled_pairs};
ghost use Rattle.toml_edit_model.specs.Keys.{new_key};
ghost use Rattle.toml_edit_model.specs.Lists.{slots_from};
ghost use Rattle.toml_edit_model.specs.Slots.{AreApart, changed, has_slot, lookup, lookup_key, place, with_item, without};
ghost use Rattle.toml_edit_model.specs.Sorting.{IsDeepReorder, sorted_slots};
ghost use Rattle.toml_edit_model.specs.TableCalls.{get, get_slot};
ghost use Rattle.toml_edit_model.specs.TableLike.{like_contains_key, like_get_values, like_inserted, like_old, LikeSorted};
ghost use Rattle.toml_edit_table_like.specs.Entries.{entry_key, entry_ref};
ghost use Rattle.toml_edit_table_like.specs.Kinds.{differences_of, stands_dotted, with_dotted};
ghost use Rattle.toml_edit_table_like.specs.Lending.{with_item_under, LendsUnder};
ghost use Rattle.toml_edit_table_like.specs.Putting.{KeepsBeside, LendsPut, ShowsItemPut};
ghost use Rattle.toml_edit_table_like.specs.SlotParts.{slot_item, slot_place, slot_ref, IsSlotOf, RestsIfAbsent};
ghost use Rattle.toml_edit_tree.specs.Held.{held_left};
ghost use Rattle.toml_edit_tree.specs.LineValues.{values_read};
ghost use Rattle.toml_edit_tree.specs.SlotsOf.{slot_read};
ghost use Rattle.toml_edit_tree.specs.View.{item_view};
ghost use Rattle.toml_edit_tree.specs.declared.item.Item.{Item};

use crate::entry::EntryKey;
use crate::find::{filled_len, filled_slot};
use crate::inline::insert_item;
use crate::put::{find_or_add, find_or_add_key};
use crate::{HasSlots, TableLikeEntry, TableLikeSlot};
use std::alloc::Global;
use toml_edit_key::{Key, KeyMut};
use toml_edit_repr::Mem;
use toml_edit_slots::NoMemory;
use toml_edit_tree::{InlineTable, Item, Iter, Table, Value, filled_place};

/// A table of either kind: a [`Table`], an [`InlineTable`], or one that an item holds
/// ([`TableRefMut`](crate::TableRefMut)).
///
/// It has slots in order, which may hold items of any kind. A placeholder counts as absent, but
/// keeps its place. The two kinds differ in four points, described at the calls: what is inserted
/// and removed, which keys [`contains_key`](Self::contains_key) counts, what the lines of
/// [`get_values`](Self::get_values) are, and which tables inside [`sort_values`](Self::sort_values)
/// enters.
///
/// [`TableLike`] has calls that return slots.
///
/// # Examples
///
/// ```rust,ignore
/// table.sort_values()?;
/// Ok(table.len())
/// ```
///
/// From `sort_keys` of the crate `example_calls`.
pub trait AnyTable: HasSlots {
    /// Returns the number of slots, placeholders included.
    ///
    /// [`len`](Self::len) counts them without placeholders. No two keys have the same name.
    fn slots(&self) -> usize
        ensures count { result ≡ length (Self.slots_of self.now) }
        ensures apart { AreApart (Self.slots_of self.now) }
    {
        let slots = self.as_slots();
        // No two keys have one name, says its contract.
        let _ = slots.as_slice();
        slots.len()
    }

    /// Returns the number of slots that are not placeholders, which [`iter`](Self::iter) gives.
    fn len(&self) -> usize
        ensures { result ≡ length (filled (Self.slots_of self.now)) }
    {
        filled_len(self.as_slots())
    }

    /// Returns `true` if there are no slots but placeholders.
    fn is_empty(&self) -> bool
        ensures { IsTrue result ↔ (filled (Self.slots_of self.now) ≡ []) }
    {
        self.len() == 0
    }

    /// Iterates over the names of the keys and the items, in order and without placeholders.
    ///
    /// `iter` of an [`InlineTable`] gives values alone; this one gives any item.
    fn iter(&self) -> Iter<'_>
        ensures { held_left result ≡ filled_pairs (Self.slots_of self.now) }
    {
        Iter::from_slots(self.as_slots().as_slice())
    }

    /// Returns the item under `key`, or `None` if the key is missing or has a placeholder.
    fn get(&self, key: &str) -> Option<&Item>
        ensures { option_map (λ x. item_view x.now) result ≡ get key.now (Self.slots_of self.now) }
    {
        let (_, item) = self.get_key_value(key)?;
        Some(item)
    }

    /// Returns a mutable reference to the item under `key`, or `None` if the key is missing or has
    /// a placeholder.
    ///
    /// The key keeps its spelling, its decor and its place. The comment after a value is in the
    /// decor of the value. To insert what is missing, use [`or_insert`](Self::or_insert) or
    /// [`entry`](Self::entry).
    fn get_mut(&mut self, key: &str) -> Option<&mut Item>
        ensures* writes_back { sem 𝓛
            (LendsUnder Self.row Self.entries Self.with_entries self.entry key.now result) }
        ensures item { option_map (λ x. item_view x.now) result
            ≡ get key.now (Self.slots_of self.old) }
        // What the table is after a write through the reference.
        ensures leaves { (w : Item)
            → Self.slots_of (with_item_under Self.entries Self.with_entries key.now w self.old)
            ≡ changed key.now (with_item (item_view w)) (Self.slots_of self.old) }
        ensures keeps { (w : Item)
            → Self.beside (with_item_under Self.entries Self.with_entries key.now w self.old)
            ≡ Self.beside self.old }
    {
        match filled_place(self.as_slots(), key) {
            Some(at) => Some(self.item_at_mut(at)),
            None => None,
        }
    }

    /// Returns the key of this name as the table has it, with spelling and decor, or `None` if it
    /// is missing. A key with a placeholder is returned too.
    fn key(&self, key: &str) -> Option<&Key>
        ensures { option_copied result ≡ lookup_key key.now (Self.slots_of self.now) }
    {
        let (key, _) = self.as_slots().get_key_value(key)?;
        Some(key)
    }

    /// Returns the key and the item of slot `at`, a placeholder too, or `None` if `at` is not below
    /// [`slots`](Self::slots).
    fn key_value_at(&self, at: usize) -> Option<(&Key, &Item)>
        ensures { option_map slot_read result ≡ slice_get (Self.slots_of self.now) at }
    {
        self.as_slots().key_value_at(at)
    }

    /// Returns the key of this name and its item, or `None` if the key is missing or has a
    /// placeholder.
    fn get_key_value(&self, key: &str) -> Option<(&Key, &Item)>
        ensures { option_map slot_read result ≡ get_slot key.now (Self.slots_of self.now) }
    {
        filled_slot(self.as_slots(), key)
    }

    /// Returns slot `at`, to read and change its item and the decor of its key. It may be a
    /// placeholder.
    ///
    /// A contract requires that `at` is below [`slots`](Self::slots); the number of a key's slot is
    /// [`place_of`](HasSlots::place_of). A `TableRefMut` has this call in the place of those of
    /// [`TableLike`].
    fn slot_at(&mut self, at: usize) -> TableLikeSlot<'_, Self>
        requires { at < length (Self.slots_of self.old) }
        ensures same_table { (slot_ref result).ghost_name ≡ self.entry.ghost_name }
        ensures slot { IsSlotOf self.old result }
        ensures place { slot_place result ≡ at }
    {
        TableLikeSlot { table: self, at }
    }

    /// Returns `true` if `key` has an item: in a table any but a placeholder, in an inline table a
    /// value.
    fn contains_key(&self, key: &str) -> bool
        ensures found { result
            ≡ like_contains_key (differences_of (Self.beside self.now)) key.now
            (Self.slots_of self.now) }
        // Then `get` finds it.
        ensures there { IsTrue result → IsSome (get key.now (Self.slots_of self.now)) };

    /// Returns the keys and the value of each line that the table prints, in order.
    ///
    /// Dotted tables and dotted inline tables give their lines in their place, after their keys;
    /// tables with a header give none. The lines of an inline table are its pairs, and there each
    /// table inside gives its own.
    ///
    /// # Errors
    ///
    /// Returns an `AllocError` if out of memory.
    fn get_values(&self, alloc: Global) -> Mem<Vec<(Vec<&Key>, &Value)>>
        ensures { IfOk result
            (λ lines. values_read lines.items
            ≡ like_get_values (differences_of (Self.beside self.now)) (Self.slots_of self.now)) };

    /// Returns `true` if the table is written by dotted keys (TOML, "Keys").
    fn is_dotted(&self) -> bool
        ensures { result ≡ stands_dotted (Self.beside self.now) };

    /// Sets whether the table is written by dotted keys.
    ///
    /// A dotted table has neither header nor braces. Its lines are printed among those of the table
    /// around it, each after its key and a dot.
    fn set_dotted(&mut self, dotted: bool)
        ensures slots { Self.slots_of self.new ≡ Self.slots_of self.old }
        ensures beside { Self.beside self.new ≡ with_dotted dotted (Self.beside self.old) }
        ensures origin { Self.origin self.new ≡ Self.origin self.old };

    /// Inserts `item` under `key` and returns the item that it replaces, if any.
    ///
    /// An existing key keeps its place, but its spelling is reset and its decor unset. To keep
    /// them, write through [`get_mut`](Self::get_mut). A new key is added at the end.
    ///
    /// In an inline table the item is made a value, so a contract requires that it is no
    /// placeholder. The old item is made a value too, and a placeholder is returned as `None`. In a
    /// table it is returned as it is, and a placeholder as `Some(Item::None)`.
    ///
    /// # Errors
    ///
    /// Returns a [`NoMemory`] with `item` if out of memory. Replacing never fails.
    fn insert(&mut self, key: &str, item: Item) -> Result<Option<Item>, NoMemory<Item>>
        requires { (differences_of (Self.beside self.old)).insertion.takes (item_view item) ≡ true }
        ensures old { IfOk result
            (λ old. option_map item_view old
            ≡ like_old (differences_of (Self.beside self.old)) key.now (Self.slots_of self.old)) }
        ensures slots { OnOk result
            (Self.slots_of self.new
            ≡ like_inserted (differences_of (Self.beside self.old)) key.now (item_view item)
            (Self.slots_of self.old)) }
        ensures present { IsTrue (has_slot key.now (Self.slots_of self.old)) → IsOk result }
        ensures beside { Self.beside self.new ≡ Self.beside self.old }
        ensures origin { Self.origin self.new ≡ Self.origin self.old }
        ensures back { IfErr result (λ refused. refused.0 ≡ item) }
        ensures err { OnErr result (Self.slots_of self.new ≡ Self.slots_of self.old) };

    /// Returns a mutable reference to the item under `key`, after inserting `item` if the key is
    /// missing.
    ///
    /// An existing item stays, a placeholder too, and `item` is dropped. A new key has the default
    /// spelling and is added at the end. Unlike by [`insert`](Self::insert), no item is made a
    /// value. Unlike one from an [`entry`](Self::entry), the reference may live as long as the
    /// borrow of the table.
    ///
    /// # Errors
    ///
    /// Returns a [`NoMemory`] with `item` if out of memory. An existing key takes no memory.
    fn or_insert(&mut self, key: &str, item: Item) -> Result<&mut Item, NoMemory<Item>>
        ensures* writes_back { sem 𝓛
            (LendsPut Self.row Self.entries Self.with_entries self.entry (new_key key.now) result) }
        ensures item { IfOk result
            (λ lent. item_view lent.now
            ≡ unwrap_or (lookup key.now (Self.slots_of self.old)) (item_view item)) }
        // What the table is after a write through the reference.
        ensures leaves { ShowsItemPut Self.slots_of Self.entries Self.with_entries
            (new_key key.now) self.old }
        ensures keeps { KeepsBeside Self.beside Self.entries Self.with_entries
            (new_key key.now) self.old }
        ensures present { IsTrue (has_slot key.now (Self.slots_of self.old)) → IsOk result }
        ensures back { IfErr result (λ refused. refused.0 ≡ item) }
    {
        match find_or_add(self.as_slots_mut(), key, item) {
            Ok(at) => Ok(self.item_at_mut(at)),
            Err(refused) => Err(refused),
        }
    }

    /// Returns a mutable reference to the item under `key`, after inserting `item` if the key is
    /// missing.
    ///
    /// A new key is a copy of `key`, with its spelling and its decor, and is added at the end. An
    /// existing one stays as it is, with its item.
    ///
    /// # Errors
    ///
    /// Returns a [`NoMemory`] with `item` if out of memory. An existing key takes no memory.
    fn or_insert_format(&mut self, key: &Key, item: Item) -> Result<&mut Item, NoMemory<Item>>
        ensures* writes_back { sem 𝓛
            (LendsPut Self.row Self.entries Self.with_entries self.entry key.now result) }
        ensures item { IfOk result
            (λ lent. item_view lent.now
            ≡ unwrap_or (lookup key.now.name (Self.slots_of self.old)) (item_view item)) }
        // What the table is after a write through the reference.
        ensures leaves { ShowsItemPut Self.slots_of Self.entries Self.with_entries key.now
            self.old }
        ensures keeps { KeepsBeside Self.beside Self.entries Self.with_entries key.now self.old }
        ensures present { IsTrue (has_slot key.now.name (Self.slots_of self.old)) → IsOk result }
        ensures back { IfErr result (λ refused. refused.0 ≡ item) }
    {
        match find_or_add_key(self.as_slots_mut(), key, item) {
            Ok(at) => Ok(self.item_at_mut(at)),
            Err(refused) => Err(refused),
        }
    }

    /// Returns the entry of `key`, to insert an item if the key is missing. It takes no memory.
    ///
    /// A new key will have the default spelling and no decor. For another one use
    /// [`entry_format`](Self::entry_format).
    fn entry<'a>(&'a mut self, key: &'a str) -> TableLikeEntry<'a, Self>
        ensures same_table { (entry_ref result).ghost_name ≡ self.entry.ghost_name }
        ensures table { (entry_ref result).now ≡ self.old }
        ensures key { entry_key result ≡ new_key key.now }
    {
        TableLikeEntry {
            table: self,
            key: EntryKey::Text(key),
        }
    }

    /// Returns the entry of `key`, to insert an item if the key is missing. It takes no memory.
    ///
    /// A new key will be a copy of `key`, with its spelling and its decor. An existing one stays as
    /// it is.
    fn entry_format<'a>(&'a mut self, key: &'a Key) -> TableLikeEntry<'a, Self>
        ensures same_table { (entry_ref result).ghost_name ≡ self.entry.ghost_name }
        ensures table { (entry_ref result).now ≡ self.old }
        ensures key { entry_key result ≡ key.now }
    {
        TableLikeEntry {
            table: self,
            key: EntryKey::Formatted(key),
        }
    }

    /// Removes the slot of `key` and returns its item, or `None` if the key is missing.
    ///
    /// The other slots keep their order. The key and its comments are dropped. The item of an
    /// inline table is made a value. A placeholder is removed as well, and returned as
    /// `Some(Item::None)` by a table and as `None` by an inline table.
    fn remove(&mut self, key: &str) -> Option<Item>
        ensures item { option_map item_view result
            ≡ like_old (differences_of (Self.beside self.old)) key.now (Self.slots_of self.old) }
        ensures slots { Self.slots_of self.new ≡ without key.now (Self.slots_of self.old) }
        ensures beside { Self.beside self.new ≡ Self.beside self.old }
        ensures origin { Self.origin self.new ≡ Self.origin self.old };

    /// Removes all slots, placeholders included, and keeps all else of the table.
    fn clear(&mut self)
        ensures slots { Self.slots_of self.new ≡ [] }
        ensures beside { Self.beside self.new ≡ Self.beside self.old }
        ensures origin { Self.origin self.new ≡ Self.origin self.old }
    {
        self.as_slots_mut().clear();
    }

    /// Unsets the decor of each value and of its key, so that they print with default whitespace.
    ///
    /// Comments there are removed. Spellings stay, and so does all inside values and tables.
    fn fmt(&mut self)
        ensures slots { Self.slots_of self.new ≡ formatted (Self.slots_of self.old) }
        ensures beside { Self.beside self.new ≡ Self.beside self.old }
        ensures origin { Self.origin self.new ≡ Self.origin self.old };

    /// Sorts the slots by the bytes of the names of their keys, and so the slots of dotted tables
    /// of this kind inside.
    ///
    /// Each slot moves with its decors, so comments go along.
    ///
    /// # Errors
    ///
    /// Returns an `AllocError` if out of memory. Some of the tables may be sorted then and others
    /// not, but no slot is lost.
    fn sort_values(&mut self) -> Mem<()>
        ensures reorders { IsDeepReorder (differences_of (Self.beside self.old)).enters
            (Self.slots_of self.old) (Self.slots_of self.new) }
        ensures sorted { OnOk result
            (LikeSorted (differences_of (Self.beside self.old)) (Self.slots_of self.old)
            (Self.slots_of self.new)) }
        // The order of names is a lawful one, so exactly one list is in order.
        ensures in_order { OnOk result
            (Self.slots_of self.new
            ≡ sorted_slots (differences_of (Self.beside self.old)).enters
            (slots_from (Self.slots_of self.old))) }
        ensures beside { Self.beside self.new ≡ Self.beside self.old }
        ensures origin { Self.origin self.new ≡ Self.origin self.old };
}

/// A table of either kind with calls that return a slot or a key, if there is one.
///
/// It is implemented for [`Table`] and [`InlineTable`]. A `TableRefMut` has
/// [`slot_at`](AnyTable::slot_at) in the place of these calls.
///
/// # Examples
///
/// With a `table` of any type that is `TableLike`:
///
/// ```rust,ignore
/// match table.slot_mut(key) {
///     Some(_slot) => true,
///     None => false,
/// }
/// ```
///
/// From `has_key` of the crate `example_calls`.
pub trait TableLike: AnyTable {
    /// Returns the slot of `key`, or `None` if the key is missing or has a placeholder.
    ///
    /// It lends the item by `get_mut` and the key by `key_mut`, one after the other. For
    /// placeholders too, use [`slot_mut`](Self::slot_mut).
    fn get_key_value_mut(&mut self, key: &str) -> Option<TableLikeSlot<'_, Self>>
        ensures* absent { sem 𝓛 (RestsIfAbsent Self.row self.entry result) }
        ensures same_table { IfSome result
            (λ slot. (slot_ref slot).ghost_name ≡ self.entry.ghost_name) }
        ensures slot { IfSome result (λ slot. IsSlotOf self.old slot) }
        ensures item { option_and_then (λ slot. option_map item_view (slot_item slot)) result
            ≡ get key.now (Self.slots_of self.old) }
        ensures place { IfSome result
            (λ slot. place key.now (Self.slots_of self.old) ≡ Some (slot_place slot)) };

    /// Returns a [`KeyMut`] of the key of this name, or `None` if it is missing. A key with a
    /// placeholder is returned too.
    ///
    /// It changes the decors of the key and can reset its spelling. The contract promises nothing
    /// about the table after this call, even where it returns `None`. Where a proof needs that, use
    /// [`slot_mut`](Self::slot_mut), which promises it.
    fn key_mut(&mut self, key: &str) -> Option<KeyMut<'_>>
        ensures { option_map key_of result ≡ lookup_key key.now (Self.slots_of self.old) }
    {
        match self.place_of(key) {
            Some(at) => Some(self.key_at_mut(at)),
            None => None,
        }
    }

    /// Returns the slot of `key`, a placeholder too, or `None` if the key is missing.
    fn slot_mut(&mut self, key: &str) -> Option<TableLikeSlot<'_, Self>>
        ensures* absent { sem 𝓛 (RestsIfAbsent Self.row self.entry result) }
        ensures same_table { IfSome result
            (λ slot. (slot_ref slot).ghost_name ≡ self.entry.ghost_name) }
        ensures slot { IfSome result (λ slot. IsSlotOf self.old slot) }
        ensures place { option_map slot_place result ≡ place key.now (Self.slots_of self.old) };

    /// Returns slot `at`, a placeholder too, or `None` if `at` is not below
    /// [`slots`](AnyTable::slots).
    ///
    /// In a loop over numbers it takes the place of an `iter_mut`.
    fn key_value_at_mut(&mut self, at: usize) -> Option<TableLikeSlot<'_, Self>>
        ensures* absent { sem 𝓛 (RestsIfAbsent Self.row self.entry result) }
        ensures same_table { IfSome result
            (λ slot. (slot_ref slot).ghost_name ≡ self.entry.ghost_name) }
        ensures slot { IfSome result (λ slot. IsSlotOf self.old slot) }
        ensures place { option_map slot_place result
            ≡ if nat_lt at (length (Self.slots_of self.old)) then Some at else None };
}

impl AnyTable for Table {
    fn contains_key(&self, key: &str) -> bool {
        Table::contains_key(self, key)
    }

    fn get_values(&self, alloc: Global) -> Mem<Vec<(Vec<&Key>, &Value)>> {
        Table::get_values(self, alloc)
    }

    fn is_dotted(&self) -> bool {
        Table::is_dotted(self)
    }

    fn set_dotted(&mut self, dotted: bool) {
        Table::set_dotted(self, dotted);
    }

    fn insert(&mut self, key: &str, item: Item) -> Result<Option<Item>, NoMemory<Item>> {
        Table::insert(self, key, item)
    }

    fn remove(&mut self, key: &str) -> Option<Item> {
        Table::remove(self, key)
    }

    fn fmt(&mut self) {
        Table::fmt(self);
    }

    fn sort_values(&mut self) -> Mem<()> {
        Table::sort_values(self)
    }
}

impl TableLike for Table {
    fn get_key_value_mut(&mut self, key: &str) -> Option<TableLikeSlot<'_, Table>> {
        match self.filled_place_of(key) {
            Some(at) => Some(TableLikeSlot { table: self, at }),
            None => None,
        }
    }

    fn slot_mut(&mut self, key: &str) -> Option<TableLikeSlot<'_, Table>> {
        match HasSlots::place_of(self, key) {
            Some(at) => Some(TableLikeSlot { table: self, at }),
            None => None,
        }
    }

    fn key_value_at_mut(&mut self, at: usize) -> Option<TableLikeSlot<'_, Table>> {
        if HasSlots::has_place(self, at) {
            Some(TableLikeSlot { table: self, at })
        } else {
            None
        }
    }
}

impl AnyTable for InlineTable {
    fn contains_key(&self, key: &str) -> bool {
        match InlineTable::get_key_value(self, key) {
            Some((_, item)) => item.is_value(),
            None => false,
        }
    }

    fn get_values(&self, alloc: Global) -> Mem<Vec<(Vec<&Key>, &Value)>> {
        InlineTable::get_values(self, alloc)
    }

    fn is_dotted(&self) -> bool {
        InlineTable::is_dotted(self)
    }

    fn set_dotted(&mut self, dotted: bool) {
        InlineTable::set_dotted(self, dotted);
    }

    fn insert(&mut self, key: &str, item: Item) -> Result<Option<Item>, NoMemory<Item>> {
        insert_item(self, key, item)
    }

    fn remove(&mut self, key: &str) -> Option<Item> {
        match InlineTable::remove(self, key) {
            Some(value) => Some(Item::Value(value)),
            None => None,
        }
    }

    fn fmt(&mut self) {
        InlineTable::fmt(self);
    }

    fn sort_values(&mut self) -> Mem<()> {
        InlineTable::sort_values(self)
    }
}

impl TableLike for InlineTable {
    fn get_key_value_mut(&mut self, key: &str) -> Option<TableLikeSlot<'_, InlineTable>> {
        match self.filled_place_of(key) {
            Some(at) => Some(TableLikeSlot { table: self, at }),
            None => None,
        }
    }

    fn slot_mut(&mut self, key: &str) -> Option<TableLikeSlot<'_, InlineTable>> {
        match HasSlots::place_of(self, key) {
            Some(at) => Some(TableLikeSlot { table: self, at }),
            None => None,
        }
    }

    fn key_value_at_mut(&mut self, at: usize) -> Option<TableLikeSlot<'_, InlineTable>> {
        if HasSlots::has_place(self, at) {
            Some(TableLikeSlot { table: self, at })
        } else {
            None
        }
    }
}
