//! Tables: the type and its calls. Sorts are in `sort.rt`, the lists of lines in `lines.rt`, and
//! conversions in `convert.rt`.
ghost use Rattle.std.specs.Borrow.{sem};
ghost use Rattle.std.specs.Iterator.{Drains, ExtendsWithItems, IsFinite};
ghost use Rattle.std.specs.Option.{option_copied, option_map_or};
ghost use Rattle.std.specs.Prelude.{[], ◌<◌, ◌↔◌, ◌≡◌, Bool, IfErr, IfOk, IfSome, IsOk, IsSome, IsTrue, List, OnErr, OnOk, Some, false, length, map, option_and_then, option_map, slice_get};
ghost use Rattle.toml_edit_model.specs.Conversions.{formatted, table_display, new_table};
ghost use Rattle.toml_edit_model.specs.Iterating.{filled, filled_pairs};
ghost use Rattle.toml_edit_model.specs.Lists.{is_item};
ghost use Rattle.toml_edit_model.specs.Retaining.{RetainsBy};
ghost use Rattle.toml_edit_model.specs.Slots.{AreApart, changed, extended, has_slot, inserted, inserted_formatted, lookup, lookup_key, lookup_slot, pairs, those, with_item, without};
ghost use Rattle.toml_edit_model.specs.TableCalls.{contains_key, contains_table, contains_tables, contains_value, get, get_slot};
ghost use Rattle.toml_edit_model.specs.Tree.{Key, Node, no_slots};
ghost use Rattle.toml_edit_slots.specs.Slots.{items_of, place};
ghost use Rattle.toml_edit_tree.specs.ContainerParts.{LendsTableDecor, LendsTableSlots, table_holding};
ghost use Rattle.toml_edit_tree.specs.Containers.{table_node, table_with_dotted, table_with_implicit, table_with_position};
ghost use Rattle.toml_edit_tree.specs.Held.{held_left};
ghost use Rattle.toml_edit_tree.specs.Indexed.{LendsMade, item_put, lent_under, written_under};
ghost use Rattle.toml_edit_tree.specs.SlotsOf.{AddsSlots, SaysOfItem, slot_read, slot_taken, slots_of};
ghost use Rattle.toml_edit_tree.specs.TableLending.{LendsHeld, new_table_of, with_item_under};
ghost use Rattle.toml_edit_tree.specs.View.{fields_view, item_view, slots_view, table_slots, table_view};
ghost use Rattle.toml_edit_tree.specs.declared.index.IndexFault.TheVariants.{Memory};
ghost use Rattle.toml_edit_tree.specs.declared.item.Item.{Item};
ghost use Rattle.toml_edit_tree.specs.declared.table.Table.{out-Table};

use crate::convert::format_slots;
use crate::copy::copy_table;
use crate::empty::empty_slots;
use crate::encode::put_table_lines;
use crate::index::{IndexFault, filled_item, find_or_add_slot};
use crate::item::Item;
pub use entry::{Entry, OccupiedEntry, VacantEntry};
pub use iter::{IntoIter, Iter};
use std::alloc::Global;
use std::fmt;
use toml_edit_io::{Printed, Sink, show};
use toml_edit_key::Key;
use toml_edit_repr::{Decor, Mem, Mode};
use toml_edit_slots::{NoMemory, Slot, Slots};

pub mod entry;
mod iter;
mod rearrange;
mod spans;

/// A table that headers or dotted keys define, or the root of a document (TOML, "Table").
///
/// It has slots in order, each a [`Key`] with an [`Item`]. No two keys have the same name. A slot
/// with `Item::None` is a placeholder: it isn't printed, and [`get`](Self::get) and
/// [`iter`](Self::iter) skip it, but it keeps its place and its key. Beside the slots it keeps what
/// belongs to its header: a decor, a position, and the flags `implicit` and `dotted`.
///
/// A table in braces is an [`InlineTable`](crate::InlineTable).
///
/// # Examples
///
/// ```rust,ignore
/// let mut table = Table::new(alloc);
/// drop(table.insert(key, Item::Value(value)).map_err(no_memory)?);
/// drop(root.insert(name, Item::Table(table)).map_err(no_memory)?);
/// ```
///
/// From `add_table` of the crate `example_calls`.
#[cycle(tree)]
#[derive(Debug)]
pub struct Table {
    #[doc(hidden)]
    pub slots: Slots<Item>,
    pub(crate) decor: Decor,
    pub(crate) implicit: bool,
    pub(crate) dotted: bool,
    pub(crate) position: Option<isize>,
    pub(crate) span: Option<(usize, usize)>,
}

impl Drop for Table {
    // The drop of an item stays small, so that it is inlined where slots and elements are dropped.
    #[cycle(tree_drop)]
    #[inline(never)]
    fn drop(self) {
        let Table {
            slots,
            decor,
            implicit: _,
            dotted: _,
            position: _,
            span: _,
        } = self;
        let mut slots = slots;
        empty_slots(&mut slots);
        drop(slots);
        drop(decor);
    }
}

// Constructors
impl Table {
    /// Creates an empty table, which takes no memory before its first slot.
    ///
    /// It has an unset decor and no position, and is neither implicit nor dotted. Once inserted,
    /// its header is printed after that of the table before it in the tree.
    ///
    /// # Examples
    ///
    /// ```rust,ignore
    /// let mut table = Table::new(alloc);
    /// drop(table.insert(key, Item::Value(value)).map_err(no_memory)?);
    /// ```
    ///
    /// From `add_table` of the crate `example_calls`.
    pub fn new(alloc: Global) -> Table
        ensures { table_view result ≡ record { fields = new_table; slots = no_slots } }
    {
        Table::of_slots(Slots::new(alloc))
    }

    /// Creates a table of the pairs, inserted as by [`extend`](Self::extend).
    ///
    /// # Errors
    ///
    /// Returns an `AllocError` if out of memory.
    pub fn from_iter<U: IntoIterator<Item = (Key, Item)>>(alloc: Global, pairs: U) -> Mem<Table>
        requires { (it : U.IntoIter) → U.into_iter_gives pairs it
            → U.IntoIter.can_next it × IsFinite (U.IntoIter.remaining it) }
        ensures { IfOk result (λ table. (it : U.IntoIter) × (xs : List (Key × Item))
            × U.into_iter_gives pairs it × Drains U.IntoIter.next_gives it xs
            × (table_view table ≡ new_table_of (extended (map slot_taken xs) []))) }
    {
        Ok(Table::of_slots(Slots::from_iter(alloc, pairs)?))
    }

    /// Makes a new table of these slots.
    pub(crate) fn of_slots(slots: Slots<Item>) -> Table
        ensures { table_view result ≡ record { fields = new_table; slots = slots_view slots } }
    {
        Table {
            slots,
            decor: Decor::default(),
            implicit: false,
            dotted: false,
            position: None,
            span: None,
        }
    }
}

// Formatting
impl Table {
    /// Unsets the decor of each value and of its key, so that they print with default whitespace.
    ///
    /// Comments there are removed: read them first by [`Decor::comments_before`] and
    /// [`Decor::comment_after`], and write them back by [`Decor::add_comment_before`] and
    /// [`Decor::set_comment_after`]. Spellings stay, and so does all inside values and tables.
    pub fn fmt(&mut self)
        ensures slots { slots_of self.new ≡ formatted (slots_of self.old) }
        ensures fields { fields_view self.new ≡ fields_view self.old }
    {
        format_slots(&mut self.slots);
    }

    /// Returns `true` if the table exists only for the tables below it (TOML, "Table", on
    /// super-tables).
    ///
    /// An implicit table has no header unless it has lines of its own. An element of an array of
    /// tables always has one.
    pub fn is_implicit(&self) -> bool
        ensures { result ≡ (fields_view self.now).is_implicit }
    {
        self.implicit
    }

    /// Sets whether the table exists only for the tables below it.
    ///
    /// With `true` the header isn't printed where the table has no lines of its own, so an empty
    /// one disappears from the text.
    ///
    /// # Examples
    ///
    /// ```rust,ignore
    /// let mut above = Table::new(alloc);
    /// above.set_implicit(true);
    /// drop(above.insert(inner, Item::Table(table)).map_err(no_memory)?);
    /// ```
    ///
    /// From `add_nested` of the crate `example_calls`.
    pub fn set_implicit(&mut self, implicit: bool)
        ensures { table_view self.new ≡ table_with_implicit implicit (table_view self.old) }
    {
        self.implicit = implicit;
    }

    /// Returns `true` if the table is written by dotted keys (TOML, "Keys").
    ///
    /// It has no header then. Its lines are printed among those of the table around it, each after
    /// its key and a dot.
    pub fn is_dotted(&self) -> bool
        ensures { result ≡ (fields_view self.now).is_dotted }
    {
        self.dotted
    }

    /// Sets whether the table is written by dotted keys.
    ///
    /// The root and the elements of an array of tables must not be dotted: `fits` of the document
    /// is `false` then.
    pub fn set_dotted(&mut self, dotted: bool)
        ensures { table_view self.new ≡ table_with_dotted dotted (table_view self.old) }
    {
        self.dotted = dotted;
    }

    /// Returns the position of the header in the document, or `None` if it was given none.
    ///
    /// Headers are printed by ascending position. The parser numbers them in the order of the
    /// source; tables that were made or implied have none. A [`clone`](Self::clone) has the
    /// position of its original.
    pub fn position(&self) -> Option<isize>
        ensures { result ≡ (fields_view self.now).position }
    {
        self.position
    }

    /// Sets the position of the header in the document.
    ///
    /// With `None` the table takes the position of the table before it in the tree, and its header
    /// is printed after that one. The root is always first, and a dotted table has no header to
    /// place.
    ///
    /// # Examples
    ///
    /// ```rust,ignore
    /// element.set_position(old.position());
    /// Some(tables.replace(at, element))
    /// ```
    ///
    /// From `replace_element` of the crate `example_calls`.
    pub fn set_position(&mut self, position: Option<isize>)
        ensures { table_view self.new ≡ table_with_position position (table_view self.old) }
    {
        self.position = position;
    }

    /// Returns the whitespace and comments before and after the header.
    ///
    /// Those of the root are printed before and after the whole document. An unset prefix of a
    /// header prints as a newline, but as nothing at the beginning of the document.
    pub fn decor(&self) -> &Decor
        ensures { result.now ≡ (fields_view self.now).decor }
    {
        &self.decor
    }

    /// Returns a mutable reference to the whitespace and comments before and after the header.
    pub fn decor_mut(&mut self) -> &mut Decor
        ensures* writes_back { sem 𝓛 (LendsTableDecor self.entry result) }
        ensures decor { result.now ≡ (fields_view self.old).decor }
    {
        &mut self.decor
    }

    /// Returns the key of this name as the table has it, with spelling and decor, or `None` if it
    /// is missing. A key with a placeholder is returned too.
    ///
    /// # Examples
    ///
    /// ```rust,ignore
    /// if table.key(name).is_some() {
    ///     drop(value);
    ///     return Ok(false);
    /// }
    /// ```
    ///
    /// From `add_sorted` of the guide, docs/GUIDE.md.
    pub fn key(&self, key: &str) -> Option<&Key>
        ensures { option_copied result ≡ lookup_key key.now (slots_of self.now) }
    {
        let at = self.slots.find(key)?;
        Some(&self.slots.as_slice()[at].key)
    }

    /// Copies the table, with all spellings, decors, spans and positions.
    ///
    /// The copy of a table that has a position is printed beside its original. Use
    /// [`forget_positions`](Self::forget_positions) to free it, and the tables inside it.
    ///
    /// # Errors
    ///
    /// Returns an `AllocError` if out of memory.
    pub fn clone(&self, alloc: Global) -> Mem<Table>
        ensures { IfOk result (λ copy. table_view copy ≡ table_view self.now) }
    {
        copy_table(self, alloc)
    }
}

// Access
impl Table {
    /// Iterates over the names of the keys and the items, in order and without placeholders.
    ///
    /// There is no `iter_mut`: for each number below [`slots`](Self::slots), use
    /// [`key_value_at_mut`](Self::key_value_at_mut).
    ///
    /// # Examples
    ///
    /// ```rust,ignore
    /// for (name, _item) in table.iter() {
    ///     names.push_str(name)?;
    ///     names.push_str("\n")?;
    /// }
    /// ```
    ///
    /// From `names` of the crate `example_calls`.
    pub fn iter(&self) -> Iter<'_>
        ensures { held_left result ≡ filled_pairs (slots_of self.now) }
    {
        Iter {
            slots: self.slots.as_slice().iter(),
        }
    }

    /// Returns the number of slots, placeholders included.
    ///
    /// [`len`](Self::len) counts them without placeholders.
    pub fn slots(&self) -> usize
        ensures count { result ≡ length (slots_of self.now) }
        ensures apart { AreApart (slots_of self.now) }
    {
        // No two keys have one name, says its contract.
        let _ = self.slots.as_slice();
        self.slots.len()
    }

    /// Returns the number of slots that are not placeholders, which [`iter`](Self::iter) gives.
    ///
    /// [`slots`](Self::slots) counts placeholders too.
    pub fn len(&self) -> usize
        ensures { result ≡ length (filled (slots_of self.now)) }
    {
        let mut count = 0;
        for slot in self.slots.as_slice() {
            if is_filled(slot) {
                count += 1;
            }
        }
        count
    }

    /// Returns `true` if there are no slots but placeholders.
    pub fn is_empty(&self) -> bool
        ensures { IsTrue result ↔ (filled (slots_of self.now) ≡ []) }
    {
        self.len() == 0
    }

    /// Removes all slots, placeholders included, and keeps the decor, the position and the flags.
    pub fn clear(&mut self)
        ensures slots { slots_of self.new ≡ [] }
        ensures fields { fields_view self.new ≡ fields_view self.old }
    {
        self.slots.clear();
    }

    /// Returns the item under `key`, or `None` if the key is missing or has a placeholder.
    pub fn get(&self, key: &str) -> Option<&Item>
        ensures { option_map (λ x. item_view x.now) result ≡ get key.now (slots_of self.now) }
    {
        filled_item(&self.slots, key)
    }

    /// Returns a mutable reference to the item under `key`, or `None` if the key is missing or has
    /// a placeholder.
    ///
    /// What is written replaces the item alone: the key keeps its spelling, its decor and its
    /// place. The comment after a value is in the decor of the value, so carry that over, as
    /// `replace_value` of the guide does. To insert what is missing, use
    /// [`index_or_insert`](Self::index_or_insert) or [`entry`](Self::entry).
    ///
    /// # Examples
    ///
    /// ```rust,ignore
    /// let table = root.get_mut(table).and_then(|item| item.as_table_mut());
    /// let item = table.and_then(|table| table.get_mut(key));
    /// ```
    ///
    /// From `set_value` of the crate `example_calls`.
    pub fn get_mut(&mut self, key: &str) -> Option<&mut Item>
        ensures* writes_back { sem 𝓛 (LendsHeld self.entry key.now result) }
        ensures item { option_map (λ x. item_view x.now) result ≡ get key.now (slots_of self.old) }
        // What the table is after a write through the reference.
        ensures leaves { (w : Item)
            → slots_of (with_item_under key.now w self.old)
            ≡ changed key.now (with_item (item_view w)) (slots_of self.old) }
        ensures keeps { (w : Item)
            → fields_view (with_item_under key.now w self.old) ≡ fields_view self.old }
    {
        match self.held_place(key) {
            Some(at) => Some(self.slots.item_mut(at)),
            None => None,
        }
    }

    /// Finds the slot of the key, unless it is a placeholder.
    fn held_place(&self, key: &str) -> Option<usize>
        ensures held { option_map item_view
            (option_and_then (slice_get (items_of (out-Table self.now).slots)) result)
            ≡ get key.now (slots_of self.now) }
        ensures place { IfSome result (λ at. place key.now (out-Table self.now).slots ≡ Some at) }
        ensures within { IfSome result (λ at. at < length (out-Table self.now).slots) }
        ensures apart { AreApart (slots_of self.now) }
    {
        let entries = self.slots.as_slice();
        let at = self.slots.find(key)?;
        if entries[at].item.is_none() {
            None
        } else {
            Some(at)
        }
    }

    /// Returns the key and the item of slot `at`, a placeholder too, or `None` if `at` is not below
    /// [`slots`](Self::slots).
    ///
    /// # Examples
    ///
    /// ```rust,ignore
    /// match table.key_value_at(at) {
    ///     Some((key, _item)) => name < key.get(),
    ///     None => false,
    /// }
    /// ```
    ///
    /// From `add_sorted` of the guide, docs/GUIDE.md.
    pub fn key_value_at(&self, at: usize) -> Option<(&Key, &Item)>
        ensures { option_map slot_read result ≡ slice_get (slots_of self.now) at }
    {
        self.slots.key_value_at(at)
    }

    /// Returns the key of this name and its item, or `None` if the key is missing or has a
    /// placeholder.
    ///
    /// The key has the spelling and the decor that it has in the table.
    pub fn get_key_value(&self, key: &str) -> Option<(&Key, &Item)>
        ensures { option_map slot_read result ≡ get_slot key.now (slots_of self.now) }
    {
        let (key, item) = self.slots.get_key_value(key)?;
        if item.is_none() {
            None
        } else {
            Some((key, item))
        }
    }

    /// Returns `true` if `key` has an item that is not a placeholder.
    pub fn contains_key(&self, key: &str) -> bool
        ensures found { result ≡ contains_key key.now (slots_of self.now) }
        // Then indexing by `[..]` finds the item.
        ensures there { IsTrue result → IsSome (get key.now (slots_of self.now)) }
    {
        match self.item_under(key) {
            Some(item) => !item.is_none(),
            None => false,
        }
    }

    /// Returns `true` if the item under `key` is a [`Table`].
    ///
    /// An inline table is a value: see [`contains_value`](Self::contains_value).
    pub fn contains_table(&self, key: &str) -> bool
        ensures { result ≡ contains_table key.now (slots_of self.now) }
    {
        match self.item_under(key) {
            Some(item) => item.is_table(),
            None => false,
        }
    }

    /// Returns `true` if the item under `key` is a value, inline tables and arrays included.
    pub fn contains_value(&self, key: &str) -> bool
        ensures { result ≡ contains_value key.now (slots_of self.now) }
    {
        match self.item_under(key) {
            Some(item) => item.is_value(),
            None => false,
        }
    }

    /// Returns `true` if the item under `key` is an array of tables.
    ///
    /// An array of inline tables is a value: see [`contains_value`](Self::contains_value).
    pub fn contains_array_of_tables(&self, key: &str) -> bool
        ensures { result ≡ contains_tables key.now (slots_of self.now) }
    {
        match self.item_under(key) {
            Some(item) => item.is_array_of_tables(),
            None => false,
        }
    }

    /// Returns the item under the key, a placeholder too.
    fn item_under(&self, key: &str) -> Option<&Item>
        // The item passes a test exactly if a slot of this key does.
        ensures { (test : Node → Bool)
            → option_map_or (λ x. test (item_view x.now)) result false
            ≡ has_slot key.now (those test (slots_of self.now)) }
    {
        let (_, item) = self.slots.get_key_value(key)?;
        Some(item)
    }

    /// Returns a mutable reference to the item under `key`, after adding a placeholder at the end
    /// if the key is missing.
    ///
    /// A new key has the default spelling. The placeholder isn't printed until something else is
    /// written. To keep a placeholder out, use [`entry`](Self::entry). The table grows by its own
    /// allocator, and `_alloc` is there to match [`Item::index_or_insert`].
    ///
    /// # Errors
    ///
    /// Returns [`IndexFault::Memory`] if out of memory, at a new key alone, and no other fault.
    pub fn index_or_insert(&mut self, _alloc: Global, key: &str) -> Result<&mut Item, IndexFault>
        ensures* writes_back { sem 𝓛 (LendsMade self.entry key.now result) }
        ensures item { IfOk result
            (λ lent. lent_under key.now (table_node (table_view self.old))
            ≡ Some (item_view lent.now)) }
        // What the table is after a write through the reference.
        ensures leaves { (w : Item)
            → written_under key.now (item_view w) (table_node (table_view self.old))
            ≡ Some (table_node (table_view (item_put key.now w self.old))) }
        ensures present { IsTrue (has_slot key.now (slots_of self.old)) → IsOk result }
        ensures fault { IfErr result (λ fault. fault ≡ Memory) }
    {
        match find_or_add_slot(&mut self.slots, key) {
            Ok(at) => Ok(self.item_at_mut(at)),
            Err(_) => Err(IndexFault::Memory),
        }
    }

    /// Inserts `item` under `key` and returns the item that it replaces, if any.
    ///
    /// An existing key keeps its place, but its spelling is reset and its decor unset, so the
    /// comment above it goes. The comment after the old value goes with that value. To keep them,
    /// use [`Value::replace_with`] on what [`get_mut`](Self::get_mut) returns. A new key is added
    /// at the end. A placeholder is returned as `Some(Item::None)`.
    ///
    /// To insert only what is missing, use [`entry`](Self::entry).
    ///
    /// # Errors
    ///
    /// Returns a [`NoMemory`] with `item` if out of memory. Replacing never fails.
    ///
    /// # Examples
    ///
    /// ```rust,ignore
    /// drop(root.insert(name, Item::Table(table)).map_err(no_memory)?);
    /// ```
    ///
    /// From `add_table` of the crate `example_calls`.
    pub fn insert(&mut self, key: &str, item: Item) -> Result<Option<Item>, NoMemory<Item>>
        ensures old { IfOk result
            (λ old. option_map item_view old ≡ lookup key.now (slots_of self.old)) }
        ensures slots { OnOk result
            (slots_of self.new ≡ inserted key.now (item_view item) (slots_of self.old)) }
        ensures present { IsTrue (has_slot key.now (slots_of self.old)) → IsOk result }
        ensures fields { fields_view self.new ≡ fields_view self.old }
        ensures back { IfErr result (λ refused. refused.0 ≡ item) }
        ensures err { OnErr result (self.new ≡ self.old) }
    {
        self.slots.insert(key, item)
    }

    /// Inserts `item` under a copy of `key` and returns the item that it replaces, if any.
    ///
    /// An existing key keeps its place, but gets the spelling and the decor of `key`. A new one is
    /// added at the end. A placeholder is returned as `Some(Item::None)`. For a key of default
    /// spelling, use [`insert`](Self::insert).
    ///
    /// # Errors
    ///
    /// Returns a [`NoMemory`] with `item` if out of memory. The copy takes memory at an existing
    /// key too.
    ///
    /// # Examples
    ///
    /// ```rust,ignore
    /// let item = Item::from(table);
    /// drop(to.insert_formatted(key, item).map_err(no_memory)?);
    /// drop(from.remove(name));
    /// ```
    ///
    /// From `move_table` of the crate `example_tasks`.
    pub fn insert_formatted(
        &mut self,
        key: &Key,
        item: Item,
    ) -> Result<Option<Item>, NoMemory<Item>>
        ensures old { IfOk result
            (λ old. option_map item_view old ≡ lookup key.now.name (slots_of self.old)) }
        ensures slots { OnOk result
            (slots_of self.new ≡ inserted_formatted key.now (item_view item) (slots_of self.old)) }
        ensures fields { fields_view self.new ≡ fields_view self.old }
        ensures back { IfErr result (λ refused. refused.0 ≡ item) }
        ensures err { OnErr result (self.new ≡ self.old) }
    {
        self.slots.insert_formatted(key, item)
    }

    /// Removes the slot of `key` and returns its item, or `None` if the key is missing.
    ///
    /// The other slots keep their order. The comment above the key and the comment after its value
    /// go too; [`remove_entry`](Self::remove_entry) returns the key with its decor. A placeholder
    /// is removed as well, and returned as `Some(Item::None)`.
    pub fn remove(&mut self, key: &str) -> Option<Item>
        ensures item { option_map item_view result ≡ lookup key.now (slots_of self.old) }
        ensures slots { slots_of self.new ≡ without key.now (slots_of self.old) }
        ensures fields { fields_view self.new ≡ fields_view self.old }
    {
        let slot = self.slots.remove(key)?;
        Some(slot.into_item())
    }

    /// Removes the slot of `key` and returns its key and its item, or `None` if the key is missing.
    ///
    /// The key has its spelling and its decor, so that it can be inserted again by
    /// [`insert_formatted`](Self::insert_formatted). The other slots keep their order. A
    /// placeholder is returned as `Item::None`.
    ///
    /// # Examples
    ///
    /// ```rust,ignore
    /// match root.remove_entry(name) {
    ///     Some((key, item)) => {
    /// ```
    ///
    /// From `exchange` of the crate `example_calls`.
    pub fn remove_entry(&mut self, key: &str) -> Option<(Key, Item)>
        ensures slot { option_map slot_taken result ≡ lookup_slot key.now (slots_of self.old) }
        ensures slots { slots_of self.new ≡ without key.now (slots_of self.old) }
        ensures fields { fields_view self.new ≡ fields_view self.old }
    {
        self.slots.remove_entry(key)
    }

    /// Keeps the slots for which `keep` returns `true`, in their order, and removes the others.
    ///
    /// The closure is passed the name of the key and the item, which is `Item::None` for a
    /// placeholder.
    pub fn retain<F: Fn(&str, &Item) -> bool>(&mut self, keep: F)
    where
        F: Drop,
        requires { F.IsAlwaysCallable keep }
        ensures kept { RetainsBy (SaysOfItem F.Fn keep) (slots_of self.old) (slots_of self.new) }
        ensures fields { fields_view self.new ≡ fields_view self.old }
    {
        self.slots.retain(keep);
    }

    /// Inserts the pairs one after another.
    ///
    /// An existing key keeps its place, its spelling and its decor, and gets the item;
    /// [`insert`](Self::insert) would reset it. A new key is added at the end, with its spelling
    /// and its decor.
    ///
    /// # Errors
    ///
    /// Returns an `AllocError` if out of memory. The table keeps the pairs that were inserted
    /// before, and the others are dropped.
    pub fn extend<U: IntoIterator<Item = (Key, Item)>>(&mut self, pairs: U) -> Mem<()>
        requires { (it : U.IntoIter) → U.into_iter_gives pairs it
            → U.IntoIter.can_next it × IsFinite (U.IntoIter.remaining it) }
        ensures { ExtendsWithItems U.into_iter_gives U.IntoIter.next_gives AddsSlots pairs self.old
            self.new result }
    {
        self.slots.extend(pairs)
    }

    /// Returns a mutable reference to the slots.
    #[doc(hidden)]
    pub fn slots_mut(&mut self) -> &mut Slots<Item>
        ensures* writes_back { sem 𝓛 (LendsTableSlots self.entry result) }
        ensures slots { slots_view result.now ≡ table_slots self.old }
        // Writing other slots changes nothing else.
        ensures others { (slots : List (Slot Item)) → table_view (table_holding slots self.old)
            ≡ record { fields = fields_view self.old; slots = slots_view slots } }
    {
        &mut self.slots
    }

    /// Returns a mutable reference to the slots.
    pub(crate) fn own_slots_mut(&mut self) -> &mut Slots<Item>
        ensures* writes_back { sem 𝓛 (LendsTableSlots self.entry result) }
        ensures slots { result.now ≡ (out-Table self.old).slots }
    {
        &mut self.slots
    }

    /// Returns the slots, and drops all else of the table.
    #[doc(hidden)]
    pub fn into_slots(self) -> Slots<Item>
        ensures { slots_view result ≡ table_slots self }
    {
        let Table {
            slots,
            decor,
            implicit: _,
            dotted: _,
            position: _,
            span: _,
        } = self;
        drop(decor);
        slots
    }
}

/// Returns `true` if the slot is not a placeholder.
#[doc(hidden)]
pub fn is_filled(slot: &Slot<Item>) -> bool
    ensures { result ≡ is_item (item_view slot.now.item) }
{
    !slot.item.is_none()
}

/// Writes the lines of the table: its values, and those of dotted tables and of dotted inline
/// tables.
///
/// Its header isn't written, and neither are the tables below it that have headers. Carriage
/// returns (CR) outside strings are dropped. Before `into_mut`, spellings and decors are spans of
/// the source, which are written as if they were unset.
impl fmt::Display for Table {
    ghost output = { λ table. Some (table_display (table_slots table)) };

    fn fmt<W: fmt::Write>(&self, f: &mut fmt::Formatter<W>) -> fmt::Result {
        show(f, self)
    }
}

impl Printed for Table {
    ghost text = { λ table. table_display (table_slots table) };

    fn put_into<S: Sink>(&self, out: &mut S) {
        put_table_lines(out, Mode::Plain, self)
    }
}
