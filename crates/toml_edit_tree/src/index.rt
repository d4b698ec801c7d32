//! The trait `Index`, which finds an item in another one, the fault of `index_or_insert`, indexing by
//! `[..]`, and look-up in slots and lists of items.
ghost use Rattle.std.specs.Prelude.{◌<◌, ◌≡◌, IfOk, IfSome, IsOk, IsSome, IsTrue, OnErr, OnOk, Some, length, option_and_then, option_map, slice_get, string_bytes};
ghost use Rattle.toml_edit_model.specs.Indexing as indexing;
ghost use Rattle.toml_edit_model.specs.InlineCalls.{get_value};
ghost use Rattle.toml_edit_model.specs.Slots.{AreApart, changed, has_slot, lookup, place, with_item as with_item_seen};
ghost use Rattle.toml_edit_model.specs.TableCalls.{get, with_place};
ghost use Rattle.toml_edit_slots.specs.Slots.{items_of, place as code_place, with_item};
ghost use Rattle.toml_edit_tree.specs.Elements.{listed};
ghost use Rattle.toml_edit_tree.specs.Indexed.{shown_slots, slots_put};
ghost use Rattle.toml_edit_tree.specs.SlotsOf.{inline_slots_of, slots_of};
ghost use Rattle.toml_edit_tree.specs.View.{item_view, value_view};
ghost use Rattle.toml_edit_tree.specs.declared.item.Item.{Item};

use crate::inline_table::InlineTable;
use crate::item::Item;
use crate::table::Table;
use crate::value::Value;
use std::alloc::AllocError;
use std::error::Error;
use std::{fmt, ops};
use toml_edit_key::Key;
use toml_edit_repr::Mem;
use toml_edit_slots::{NoMemory, Slot, Slots};

/// The error of [`Item::index_or_insert`] and [`Table::index_or_insert`].
///
/// # Examples
///
/// In a function that returns `Result<(), IndexFault>`:
///
/// ```rust,ignore
/// table.index_or_insert(alloc, key)?;
/// ```
///
/// From `make_slot` of the crate `example_calls`.
#[derive(Clone, Copy, Debug, PartialEq, Eq, Hash)]
pub enum IndexFault {
    /// The item is neither a table, an inline table nor a placeholder.
    WrongKind,
    /// Out of memory.
    Memory,
}

/// Writes `wrong kind of item` or `out of memory`.
impl fmt::Display for IndexFault {
    ghost use Rattle.toml_edit_tree.specs.Faults.{fault_text};

    ghost output = { λ fault. Some (fault_text fault) };

    fn fmt<W: fmt::Write>(&self, f: &mut fmt::Formatter<W>) -> fmt::Result {
        match self {
            IndexFault::WrongKind => f.write_str("wrong kind of item"),
            IndexFault::Memory => f.write_str("out of memory"),
        }
    }
}

impl Error for IndexFault {}

/// Converts the error into [`IndexFault::Memory`].
impl From<AllocError> for IndexFault {
    ghost use Rattle.toml_edit_tree.specs.declared.index.IndexFault.TheVariants.{Memory};

    ghost from_gives = { λ _ fault. fault ≡ Memory };

    fn from(_refused: AllocError) -> IndexFault {
        IndexFault::Memory
    }
}

/// Converts the error into [`IndexFault::Memory`], and drops the value that it has.
impl<T: Drop> From<NoMemory<T>> for IndexFault {
    ghost use Rattle.toml_edit_tree.specs.declared.index.IndexFault.TheVariants.{Memory};

    ghost from_gives = { λ _ fault. fault ≡ Memory };

    fn from(_refused: NoMemory<T>) -> IndexFault {
        IndexFault::Memory
    }
}

/// A number or a key that finds an item in another one.
///
/// It is implemented for `usize`, `&str`, `String` and `&String`. A number counts the slots of an
/// array or an array of tables from 0; a text is the name of a key of a table or an inline table.
/// An implementation proves that both calls find the item that `stands_for` says. No contract says
/// what the outer item is after a write through `index_mut`; [`Item::as_slots_mut`],
/// [`Array::slot_at_mut`](crate::Array::slot_at_mut) and
/// [`ArrayOfTables::slot_at_mut`](crate::ArrayOfTables::slot_at_mut) say it.
///
/// # Examples
///
/// ```rust,ignore
/// root.get(table)?.get(key)?.as_integer()
/// ```
///
/// From `integer_at` of the crate `example_calls`.
pub trait Index: Drop {
    /// What the index means: a number or a text.
    ghost stands_for: { Self → indexing.Index };

    /// Returns the item that the index finds, or `None`.
    ///
    /// A number finds placeholders too, and a text doesn't. Call it as [`Item::get`].
    fn index<'v>(&self, item: &'v Item) -> Option<&'v Item>
        ensures { option_map (λ x. item_view x.now) result
            ≡ indexing.indexed (stands_for self.now) (item_view item.now) };

    /// Returns a mutable reference to the item that the index finds, or `None`.
    ///
    /// Call it as [`Item::get_mut`].
    fn index_mut<'v>(&self, item: &'v mut Item) -> Option<&'v mut Item>
        ensures { option_map (λ x. item_view x.now) result
            ≡ indexing.indexed (stands_for self.now) (item_view item.old) };
}

impl Index for usize {
    ghost stands_for = { λ at. indexing.number at };

    fn index<'v>(&self, item: &'v Item) -> Option<&'v Item> {
        item.slot_at(*self)
    }

    fn index_mut<'v>(&self, item: &'v mut Item) -> Option<&'v mut Item> {
        item.slot_at_mut(*self)
    }
}

impl Index for &str {
    ghost stands_for = { λ key. indexing.text key.now };

    fn index<'v>(&self, item: &'v Item) -> Option<&'v Item> {
        item.item_under(*self)
    }

    fn index_mut<'v>(&self, item: &'v mut Item) -> Option<&'v mut Item> {
        item.item_under_mut(*self)
    }
}

impl Index for String {
    ghost stands_for = { λ key. indexing.text (string_bytes key) };

    fn index<'v>(&self, item: &'v Item) -> Option<&'v Item> {
        item.item_under(self.as_str())
    }

    fn index_mut<'v>(&self, item: &'v mut Item) -> Option<&'v mut Item> {
        item.item_under_mut(self.as_str())
    }
}

impl Index for &String {
    ghost stands_for = { λ key. indexing.text (string_bytes key.now) };

    fn index<'v>(&self, item: &'v Item) -> Option<&'v Item> {
        item.item_under(self.as_str())
    }

    fn index_mut<'v>(&self, item: &'v mut Item) -> Option<&'v mut Item> {
        item.item_under_mut(self.as_str())
    }
}

/// Returns the item that the index finds, which a contract requires to be there.
impl<I: Index> ops::Index<I> for Item {
    type Output = Item;

    ghost can_index = { λ item index. IsSome
        (indexing.indexed (I.stands_for index) (item_view item)) };

    ghost index_gives = { λ item index found. indexing.indexed (I.stands_for index)
        (item_view item) ≡ Some (item_view found) };

    fn index(&self, index: I) -> &Item {
        self.get(index).unwrap()
    }
}

/// Returns the item under the key, which a contract requires to be there and no placeholder.
impl ops::Index<&str> for Table {
    type Output = Item;

    ghost can_index = { λ table key. IsSome (get key.now (slots_of table)) };

    ghost index_gives = { λ table key found. get key.now (slots_of table)
        ≡ Some (item_view found) };

    fn index(&self, key: &str) -> &Item {
        self.get(key).unwrap()
    }
}

/// Returns the value under the key, which a contract requires to be there.
impl ops::Index<&str> for InlineTable {
    type Output = Value;

    ghost can_index = { λ table key. IsSome (get_value key.now (inline_slots_of table)) };

    ghost index_gives = { λ table key found. get_value key.now (inline_slots_of table)
        ≡ Some (value_view found) };

    fn index(&self, key: &str) -> &Value {
        self.get(key).unwrap()
    }
}

/// Returns the item at index `at`, a placeholder too.
pub(crate) fn item_at(items: &[Item], at: usize) -> Option<&Item>
    ensures { option_map (λ x. item_view x.now) result ≡ slice_get (listed items.now) at }
{
    if at < items.len() {
        Some(&items[at])
    } else {
        None
    }
}

/// Returns the item under the key, unless it is a placeholder.
pub(crate) fn filled_item<'s>(slots: &'s Slots<Item>, key: &str) -> Option<&'s Item>
    ensures { option_map (λ x. item_view x.now) result ≡ get key.now (shown_slots slots.now) }
{
    let (_, item) = slots.get_key_value(key)?;
    if item.is_none() { None } else { Some(item) }
}

/// Finds the slot of the key, unless it is a placeholder.
pub fn filled_place(slots: &Slots<Item>, key: &str) -> Option<usize>
    ensures held { option_map item_view (option_and_then (slice_get (items_of slots.now)) result)
        ≡ get key.now (shown_slots slots.now) }
    ensures place { IfSome result (λ at. code_place key.now slots.now ≡ Some at) }
    ensures within { IfSome result (λ at. at < length slots.now) }
    ensures apart { AreApart (shown_slots slots.now) }
{
    let entries = slots.as_slice();
    let at = slots.find(key)?;
    if entries[at].item.is_none() {
        None
    } else {
        Some(at)
    }
}

/// Finds the slot of the key, after adding a placeholder at the end if the key is missing.
pub(crate) fn find_or_add_slot(slots: &mut Slots<Item>, key: &str) -> Mem<usize>
    ensures within { IfOk result (λ at. at < length slots.new) }
    ensures made { OnOk result
        (shown_slots slots.new ≡ with_place key.now (shown_slots slots.old)) }
    ensures place { IfOk result (λ at. place key.now (shown_slots slots.new) ≡ Some at) }
    ensures item { IfOk result
        (λ at. option_map item_view (slice_get (items_of slots.new) at)
        ≡ lookup key.now (with_place key.now (shown_slots slots.old))) }
    ensures rest { IfOk result
        (λ at. (w : Item) → with_item at w slots.new ≡ slots_put key.now w slots.old) }
    ensures leaves { (w : Item) → shown_slots (slots_put key.now w slots.old)
        ≡ changed key.now (with_item_seen (item_view w))
        (with_place key.now (shown_slots slots.old)) }
    ensures present { IsTrue (has_slot key.now (shown_slots slots.old)) → IsOk result }
    ensures err { OnErr result (slots.new ≡ slots.old) }
{
    // No two keys have one name, says its contract.
    let _ = slots.as_slice();
    match slots.find(key) {
        Some(at) => Ok(at),
        None => {
            let at = slots.len();
            let key = Key::from_text(slots.allocator(), key)?;
            let item = Item::None;
            match slots.push(Slot { key, item }) {
                Ok(()) => Ok(at),
                Err(refused) => {
                    drop(refused);
                    Err(AllocError)
                }
            }
        }
    }
}
