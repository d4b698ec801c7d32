//! A reference to a table of either kind, to read it.
ghost use Rattle.std.specs.Option.{option_copied};
ghost use Rattle.std.specs.Prelude.{◌≡◌, ◌↔◌, [], IfOk, IsSome, IsTrue, length, option_map, slice_get};
ghost use Rattle.toml_edit_model.specs.Iterating.{filled, filled_pairs};
ghost use Rattle.toml_edit_model.specs.Slots.{AreApart, lookup_key};
ghost use Rattle.toml_edit_model.specs.TableCalls.{get, get_slot};
ghost use Rattle.toml_edit_model.specs.TableLike.{like_contains_key, like_get_values};
ghost use Rattle.toml_edit_table_like.specs.Kinds.{differences_of, stands_dotted};
ghost use Rattle.toml_edit_table_like.specs.Refs.{ref_node, ref_slots};
ghost use Rattle.toml_edit_table_like.specs.Shown.{shown};
ghost use Rattle.toml_edit_tree.specs.Held.{held_left};
ghost use Rattle.toml_edit_tree.specs.LineValues.{values_read};
ghost use Rattle.toml_edit_tree.specs.SlotsOf.{slot_read};
ghost use Rattle.toml_edit_tree.specs.View.{item_view};

use crate::find::{filled_len, filled_slot};
use crate::{AnyTable, HasSlots};
use std::alloc::Global;
use toml_edit_key::Key;
use toml_edit_repr::Mem;
use toml_edit_slots::Slots;
use toml_edit_tree::{InlineTable, Item, Iter, Table, Value};

/// A shared reference to a table of either kind.
///
/// Returned by [`AsTableLike::as_table_like`](crate::AsTableLike::as_table_like). A placeholder
/// counts as absent, but keeps its place. To change the table, see
/// [`TableRefMut`](crate::TableRefMut).
///
/// # Examples
///
/// ```rust,ignore
/// match dependency.as_table_like() {
///     Some(table) => table.get("version")?.as_str(),
///     None => dependency.as_str(),
/// }
/// ```
///
/// From `version_of` of the crate `example_calls`.
#[derive(Clone, Copy)]
pub enum TableRef<'a> {
    /// A table with a header or of a dotted key.
    Table(&'a Table),
    /// A table in braces.
    InlineTable(&'a InlineTable),
}

impl<'a> TableRef<'a> {
    /// Returns the number of slots, placeholders included.
    ///
    /// [`len`](Self::len) counts them without placeholders. No two keys have the same name.
    pub fn slots(&self) -> usize
        ensures count { result ≡ length (ref_slots self.now) }
        ensures apart { AreApart (ref_slots self.now) }
    {
        let slots = self.as_slots();
        // No two keys have one name, says its contract.
        let _ = slots.as_slice();
        slots.len()
    }

    /// Returns the number of slots that are not placeholders, which [`iter`](Self::iter) gives.
    pub fn len(&self) -> usize
        ensures { result ≡ length (filled (ref_slots self.now)) }
    {
        filled_len(self.as_slots())
    }

    /// Returns `true` if there are no slots but placeholders.
    pub fn is_empty(&self) -> bool
        ensures { IsTrue result ↔ (filled (ref_slots self.now) ≡ []) }
    {
        self.len() == 0
    }

    /// Iterates over the names of the keys and the items, in order and without placeholders.
    ///
    /// `iter` of an [`InlineTable`] gives values alone; this one gives any item.
    pub fn iter(&self) -> Iter<'a>
        ensures { held_left result ≡ filled_pairs (ref_slots self.now) }
    {
        Iter::from_slots(self.as_slots().as_slice())
    }

    /// Returns the item under `key`, or `None` if the key is missing or has a placeholder.
    pub fn get(&self, key: &str) -> Option<&'a Item>
        ensures { option_map (λ x. item_view x.now) result ≡ get key.now (ref_slots self.now) }
    {
        let (_, item) = self.get_key_value(key)?;
        Some(item)
    }

    /// Returns the key of this name and its item, or `None` if the key is missing or has a
    /// placeholder.
    pub fn get_key_value(&self, key: &str) -> Option<(&'a Key, &'a Item)>
        ensures { option_map slot_read result ≡ get_slot key.now (ref_slots self.now) }
    {
        filled_slot(self.as_slots(), key)
    }

    /// Returns the key of this name as the table has it, with spelling and decor, or `None` if it
    /// is missing. A key with a placeholder is returned too.
    pub fn key(&self, key: &str) -> Option<&'a Key>
        ensures { option_copied result ≡ lookup_key key.now (ref_slots self.now) }
    {
        let (key, _) = self.as_slots().get_key_value(key)?;
        Some(key)
    }

    /// Returns the key and the item of slot `at`, a placeholder too, or `None` if `at` is not below
    /// [`slots`](Self::slots).
    pub fn key_value_at(&self, at: usize) -> Option<(&'a Key, &'a Item)>
        ensures { option_map slot_read result ≡ slice_get (ref_slots self.now) at }
    {
        self.as_slots().key_value_at(at)
    }

    /// Returns `true` if `key` has an item: in a table any but a placeholder, in an inline table a
    /// value.
    pub fn contains_key(&self, key: &str) -> bool
        ensures found { result
            ≡ like_contains_key (differences_of (ref_node self.now)) key.now (ref_slots self.now) }
        // Then `get` finds it.
        ensures there { IsTrue result → IsSome (get key.now (ref_slots self.now)) }
    {
        match *self {
            TableRef::Table(table) => Table::contains_key(table, key),
            TableRef::InlineTable(table) => AnyTable::contains_key(table, key),
        }
    }

    /// Returns the keys and the value of each line that the table prints, in order.
    ///
    /// Dotted tables and dotted inline tables give their lines in their place, after their keys;
    /// tables with a header give none. The lines of an inline table are its pairs, and there each
    /// table inside gives its own.
    ///
    /// # Errors
    ///
    /// Returns an `AllocError` if out of memory.
    pub fn get_values(&self, alloc: Global) -> Mem<Vec<(Vec<&'a Key>, &'a Value)>>
        ensures { IfOk result
            (λ lines. values_read lines.items
            ≡ like_get_values (differences_of (ref_node self.now)) (ref_slots self.now)) }
    {
        match *self {
            TableRef::Table(table) => Table::get_values(table, alloc),
            TableRef::InlineTable(table) => InlineTable::get_values(table, alloc),
        }
    }

    /// Returns `true` if the table is written by dotted keys (TOML, "Keys").
    pub fn is_dotted(&self) -> bool
        ensures { result ≡ stands_dotted (ref_node self.now) }
    {
        match *self {
            TableRef::Table(table) => Table::is_dotted(table),
            TableRef::InlineTable(table) => InlineTable::is_dotted(table),
        }
    }

    /// Returns the slots.
    #[tactic(auto, using(crate::specs::Kinds::table_shows, crate::specs::Kinds::inline_shows))]
    fn as_slots(&self) -> &'a Slots<Item>
        ensures { shown result.now ≡ ref_slots self.now }
    {
        match *self {
            TableRef::Table(table) => table.as_slots(),
            TableRef::InlineTable(table) => table.as_slots(),
        }
    }
}
