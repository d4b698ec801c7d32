//! Inline tables: the type and its calls. The lists of pairs are in `lines.rt`, and conversions in
//! `convert.rt`.
ghost use Rattle.std.specs.Borrow.{sem};
ghost use Rattle.std.specs.Iterator.{Drains, ExtendsWithItems, IsFinite};
ghost use Rattle.std.specs.Option.{option_copied};
ghost use Rattle.std.specs.Prelude.{[], ◌<◌, ◌↔◌, ◌≡◌, IfErr, IfOk, IfSome, IsOk, IsSome, IsTrue, List, None, OnErr, OnOk, Some, length, map, option_and_then, option_map, slice_get, true};
ghost use Rattle.toml_edit_model.specs.Conversions.{formatted, into_value, new_inline};
ghost use Rattle.toml_edit_model.specs.InlineCalls.{get_value, old_slot, old_value, or_inserted_value, value_slot};
ghost use Rattle.toml_edit_model.specs.Iterating.{value_pairs, valued};
ghost use Rattle.toml_edit_model.specs.Keys.{new_key};
ghost use Rattle.toml_edit_model.specs.Lists.{slot_list};
ghost use Rattle.toml_edit_model.specs.Retaining.{RetainsBy};
ghost use Rattle.toml_edit_model.specs.Slots.{AreApart, changed, extended, has_slot, inserted, inserted_formatted, lookup, lookup_key, put, with_item, without};
ghost use Rattle.toml_edit_model.specs.TableCalls.{get, get_slot, contains_value};
ghost use Rattle.toml_edit_model.specs.Tree.{Key, is_value_node, no_slots};
ghost use Rattle.toml_edit_slots.specs.Slots.{items_of, place};
ghost use Rattle.toml_edit_tree.specs.ContainerParts.{LendsInlineDecor, LendsInlineSlots, holding, pairs_left};
ghost use Rattle.toml_edit_tree.specs.Containers.{inline_node, inline_with_comma, inline_with_dotted, inline_with_trailing};
ghost use Rattle.toml_edit_tree.specs.ElementClosures.{KeepsOnly};
ghost use Rattle.toml_edit_tree.specs.InlineLending.{LendsPut, LendsValueUnder, value_put, with_value_at, with_value_under};
ghost use Rattle.toml_edit_tree.specs.InlineParts.{AddsValues, SaysOfNamed, SaysOfPair};
ghost use Rattle.toml_edit_tree.specs.InlineSlots.{inline_fields, value_taken};
ghost use Rattle.toml_edit_tree.specs.InlineValues.{has_value_at, value_at};
ghost use Rattle.toml_edit_tree.specs.SlotsOf.{inline_slots_of, slot_read, slot_taken};
ghost use Rattle.toml_edit_tree.specs.View.{inline_view, item_view, slots_view, value_view};
ghost use Rattle.toml_edit_tree.specs.declared.inline_table.InlineTable.{out-InlineTable};
ghost use Rattle.toml_edit_tree.specs.declared.value.Value.{Value};

use crate::convert::format_slots;
use crate::copy::copy_inline;
use crate::empty::empty_slots;
use crate::encode::put_inline;
use crate::item::Item;
use crate::value::Value;
pub use entry::{InlineEntry, InlineOccupiedEntry, InlineVacantEntry};
pub use iter::{InlineTableIntoIter, InlineTableIter};
pub use slot::InlineSlotMut;
use std::alloc::Global;
use std::fmt;
use toml_edit_io::{Printed, Sink, show};
use toml_edit_key::Key;
use toml_edit_repr::{Decor, Mem, RawString};
use toml_edit_slots::{NoMemory, Slot, Slots};

mod entry;
mod iter;
mod rearrange;
mod slot;
mod sort;
mod spans;

/// A table in braces, which is a value (TOML, "Inline Table").
///
/// It has slots in order, each a [`Key`] with an [`Item`], and what is before the closing brace. No
/// two keys have the same name. A slot may hold no value: a placeholder, which isn't printed, or a
/// table or an array of tables that was written there. [`get`](Self::get) and [`iter`](Self::iter)
/// skip it, and [`slots`](Self::slots) counts it.
///
/// A table with a header is a [`Table`](crate::Table).
///
/// # Examples
///
/// ```rust,ignore
/// let mut dependency = InlineTable::new(alloc);
/// let version = Value::string(alloc, version)?;
/// drop(dependency.insert("version", version).map_err(no_memory)?);
/// ```
///
/// From `add_dependency` of the crate `example_calls`.
#[cycle(tree)]
#[derive(Debug)]
pub struct InlineTable {
    #[doc(hidden)]
    pub items: Slots<Item>,
    pub(crate) decor: Decor,
    pub(crate) trailing: RawString,
    // No value is larger than this one, so it is kept small: the flags are side by side, and the
    // span is not an `Option`, since `is_read` says whether there is one.
    pub(crate) dotted: bool,
    pub(crate) trailing_comma: bool,
    pub(crate) is_read: bool,
    pub(crate) span: (usize, usize),
}

impl Drop for InlineTable {
    #[cycle(tree_drop)]
    fn drop(self) {
        let InlineTable {
            items,
            decor,
            trailing,
            dotted: _,
            trailing_comma: _,
            is_read: _,
            span: _,
        } = self;
        let mut items = items;
        empty_slots(&mut items);
        drop(items);
        drop(decor);
        drop(trailing);
    }
}

// Constructors
impl InlineTable {
    /// Creates an empty inline table, which takes no memory before its first slot.
    ///
    /// Its decor is unset, it isn't dotted, and there is no trailing comma.
    ///
    /// # Examples
    ///
    /// ```rust,ignore
    /// let mut dependency = InlineTable::new(alloc);
    /// ```
    ///
    /// From `add_dependency` of the crate `example_calls`.
    pub fn new(alloc: Global) -> InlineTable
        ensures { inline_view result ≡ record { fields = new_inline; slots = no_slots } }
    {
        InlineTable {
            items: Slots::new(alloc),
            decor: Decor::default(),
            dotted: false,
            trailing: RawString::default(),
            trailing_comma: false,
            is_read: false,
            span: (0, 0),
        }
    }

    /// Creates an inline table of the pairs, inserted as by [`extend`](Self::extend).
    ///
    /// # Errors
    ///
    /// Returns an `AllocError` if out of memory.
    pub fn from_iter<U: IntoIterator<Item = (Key, Value)>>(
        alloc: Global,
        pairs: U,
    ) -> Mem<InlineTable>
        requires { (it : U.IntoIter) → U.into_iter_gives pairs it
            → U.IntoIter.can_next it × IsFinite (U.IntoIter.remaining it) }
        ensures { IfOk result (λ table. (it : U.IntoIter) × (ps : List (Key × Value))
            × U.into_iter_gives pairs it × Drains U.IntoIter.next_gives it ps
            × (inline_slots_of table ≡ extended (map value_taken ps) [])
            × (inline_fields table ≡ new_inline)) }
    {
        let mut table = InlineTable::new(alloc);
        match table.extend(pairs) {
            Ok(()) => Ok(table),
            Err(refused) => Err(refused),
        }
    }
}

// Formatting
impl InlineTable {
    /// Unsets the decor of each value and of its key, so that they print with default whitespace.
    ///
    /// Comments there are removed: read them first by [`Decor::comments_before`] and
    /// [`Decor::comment_after`]. Spellings stay, and so do the trailing comma, what is before the
    /// closing brace, and all inside values.
    pub fn fmt(&mut self)
        ensures slots { inline_slots_of self.new ≡ formatted (inline_slots_of self.old) }
        ensures fields { inline_fields self.new ≡ inline_fields self.old }
    {
        format_slots(&mut self.items);
    }

    /// Returns `true` if a comma follows the last pair, which TOML allows since 1.1.
    pub fn trailing_comma(&self) -> bool
        ensures { result ≡ (inline_view self.now).fields.comma }
    {
        self.trailing_comma
    }

    /// Sets whether a comma follows the last pair, which TOML allows since 1.1.
    ///
    /// An inline table that shows no pair prints none.
    pub fn set_trailing_comma(&mut self, trailing_comma: bool)
        ensures { inline_view self.new ≡ inline_with_comma trailing_comma (inline_view self.old) }
    {
        self.trailing_comma = trailing_comma;
    }

    /// Returns the whitespace and comments between the last pair, or the comma after it, and the
    /// closing brace.
    ///
    /// In a parsed inline table without a trailing comma, that text is in the suffix of the last
    /// value instead.
    pub fn trailing(&self) -> &RawString
        ensures { result.now ≡ (inline_view self.now).fields.trailing }
    {
        &self.trailing
    }

    /// Sets the whitespace and comments between the last pair, or the comma after it, and the
    /// closing brace.
    pub fn set_trailing(&mut self, trailing: RawString)
        ensures { inline_view self.new ≡ inline_with_trailing trailing (inline_view self.old) }
    {
        self.trailing = trailing;
    }

    /// Returns `true` if the inline table is written by dotted keys (TOML, "Keys").
    ///
    /// It has no braces then. Its pairs are printed among those of the table around it, each after
    /// its key and a dot.
    pub fn is_dotted(&self) -> bool
        ensures { result ≡ (inline_view self.now).fields.is_dotted }
    {
        self.dotted
    }

    /// Sets whether the inline table is written by dotted keys.
    ///
    /// In an array it is printed in braces in any case.
    ///
    /// # Examples
    ///
    /// ```rust,ignore
    /// let mut below = InlineTable::new(alloc);
    /// below.set_dotted(true);
    /// drop(below.insert(inner, value).map_err(no_memory)?);
    /// ```
    ///
    /// From `add_dotted` of the crate `example_calls`.
    pub fn set_dotted(&mut self, dotted: bool)
        ensures { inline_view self.new ≡ inline_with_dotted dotted (inline_view self.old) }
    {
        self.dotted = dotted;
    }

    /// Returns the whitespace and comments around the inline table.
    pub fn decor(&self) -> &Decor
        ensures { result.now ≡ (inline_view self.now).fields.decor }
    {
        &self.decor
    }

    /// Returns a mutable reference to the whitespace and comments around the inline table.
    pub fn decor_mut(&mut self) -> &mut Decor
        ensures* writes_back { sem 𝓛 (LendsInlineDecor self.entry result) }
        ensures decor { result.now ≡ (inline_view self.old).fields.decor }
    {
        &mut self.decor
    }

    /// Returns the key of this name as the inline table has it, with spelling and decor, or `None`
    /// if it is missing. A key without a value is returned too.
    pub fn key(&self, key: &str) -> Option<&Key>
        ensures { option_copied result ≡ lookup_key key.now (inline_slots_of self.now) }
    {
        let at = self.items.find(key)?;
        Some(&self.items.as_slice()[at].key)
    }

    /// Copies the inline table, with all spellings, decors and spans.
    ///
    /// # Errors
    ///
    /// Returns an `AllocError` if out of memory.
    pub fn clone(&self, alloc: Global) -> Mem<InlineTable>
        ensures { IfOk result (λ copy. inline_view copy ≡ inline_view self.now) }
    {
        copy_inline(self, alloc)
    }
}

// Access
impl InlineTable {
    /// Iterates over the names of the keys and the values, in order and without slots that hold
    /// none.
    ///
    /// There is no `iter_mut`: for each number below [`slots`](Self::slots), use
    /// [`key_value_at_mut`](Self::key_value_at_mut).
    pub fn iter(&self) -> InlineTableIter<'_>
        ensures { pairs_left result ≡ value_pairs (inline_slots_of self.now) }
    {
        InlineTableIter {
            slots: self.items.as_slice().iter(),
        }
    }

    /// Returns the number of slots, those without a value included.
    ///
    /// [`len`](Self::len) counts values alone.
    pub fn slots(&self) -> usize
        ensures count { result ≡ length (inline_slots_of self.now) }
        ensures apart { AreApart (inline_slots_of self.now) }
    {
        // No two keys have one name, says its contract.
        let _ = self.items.as_slice();
        self.items.len()
    }

    /// Returns the number of values, which [`iter`](Self::iter) gives.
    ///
    /// [`slots`](Self::slots) counts the slots that hold none as well.
    pub fn len(&self) -> usize
        ensures { result ≡ length (valued (inline_slots_of self.now)) }
    {
        let mut count = 0;
        for slot in self.items.as_slice() {
            if slot.item.is_value() {
                count += 1;
            }
        }
        count
    }

    /// Returns `true` if there are no values.
    pub fn is_empty(&self) -> bool
        ensures { IsTrue result ↔ (valued (inline_slots_of self.now) ≡ []) }
    {
        self.len() == 0
    }

    /// Removes all slots, and keeps the decor, the flags and what is before the closing brace.
    pub fn clear(&mut self)
        ensures slots { inline_slots_of self.new ≡ [] }
        ensures fields { inline_fields self.new ≡ inline_fields self.old }
    {
        self.items.clear();
    }

    /// Returns the value under `key`, or `None` if the key is missing or has no value.
    ///
    /// For items of any kind use [`get_key_value`](Self::get_key_value).
    pub fn get(&self, key: &str) -> Option<&Value>
        ensures { option_map (λ v. value_view v.now) result
            ≡ get_value key.now (inline_slots_of self.now) }
    {
        let (_, item) = self.items.get_key_value(key)?;
        item.as_value()
    }

    /// Returns a mutable reference to the value under `key`, or `None` if the key is missing or has
    /// no value.
    ///
    /// The key keeps its spelling, its decor and its place. A new value that is written there
    /// brings its own decor. To insert what is missing, use [`get_or_insert`](Self::get_or_insert)
    /// or [`entry`](Self::entry).
    pub fn get_mut(&mut self, key: &str) -> Option<&mut Value>
        ensures* writes_back { sem 𝓛 (LendsValueUnder self.entry key.now result) }
        ensures value { option_map (λ v. value_view v.now) result
            ≡ get_value key.now (inline_slots_of self.old) }
        // What the inline table is after a write through the reference.
        ensures leaves { (w : Value)
            → inline_slots_of (with_value_under key.now w self.old)
            ≡ changed key.now (with_item (value_view w)) (inline_slots_of self.old) }
        ensures keeps { (w : Value)
            → inline_fields (with_value_under key.now w self.old) ≡ inline_fields self.old }
    {
        match self.value_place(key) {
            Some(at) => Some(self.value_at_mut(at)),
            None => None,
        }
    }

    /// Returns the key and the item of slot `at`, of any kind, or `None` if `at` is not below
    /// [`slots`](Self::slots).
    pub fn key_value_at(&self, at: usize) -> Option<(&Key, &Item)>
        ensures { option_map slot_read result ≡ slice_get (inline_slots_of self.now) at }
    {
        self.items.key_value_at(at)
    }

    /// Returns the key of this name and its item, or `None` if the key is missing or has a
    /// placeholder.
    ///
    /// The item may be a table or an array of tables. The key has the spelling and the decor that
    /// it has in the inline table.
    pub fn get_key_value(&self, key: &str) -> Option<(&Key, &Item)>
        ensures slot { option_map slot_read result ≡ get_slot key.now (inline_slots_of self.now) }
        // No two keys have the same name.
        ensures apart { AreApart (inline_slots_of self.now) }
    {
        let (key, item) = self.items.get_key_value(key)?;
        if item.is_none() {
            None
        } else {
            Some((key, item))
        }
    }

    /// Returns `true` if there is a value under `key`.
    pub fn contains_key(&self, key: &str) -> bool
        ensures found { result ≡ contains_value key.now (inline_slots_of self.now) }
        // Then indexing by `[..]` finds the value.
        ensures there { IsTrue result → IsSome (get_value key.now (inline_slots_of self.now)) }
    {
        self.get(key).is_some()
    }

    /// Finds the slot of the key, unless it is a placeholder.
    fn held_place(&self, key: &str) -> Option<usize>
        ensures held { option_map item_view
            (option_and_then (slice_get (items_of (out-InlineTable self.now).items)) result)
            ≡ get key.now (inline_slots_of self.now) }
        ensures place { IfSome result
            (λ at. place key.now (out-InlineTable self.now).items ≡ Some at) }
        ensures within { IfSome result (λ at. at < length (out-InlineTable self.now).items) }
    {
        let entries = self.items.as_slice();
        let at = self.items.find(key)?;
        if entries[at].item.is_none() {
            None
        } else {
            Some(at)
        }
    }

    /// Finds the slot of the key, if it holds a value.
    fn value_place(&self, key: &str) -> Option<usize>
        ensures value { option_map value_view
            (option_and_then (λ at. value_at at (out-InlineTable self.now).items) result)
            ≡ get_value key.now (inline_slots_of self.now) }
        ensures place { IfSome result
            (λ at. place key.now (out-InlineTable self.now).items ≡ Some at) }
        ensures held { IfSome result
            (λ at. has_value_at at (out-InlineTable self.now).items ≡ true) }
        ensures apart { AreApart (inline_slots_of self.now) }
    {
        let entries = self.items.as_slice();
        let at = self.items.find(key)?;
        if entries[at].item.is_value() {
            Some(at)
        } else {
            None
        }
    }

    /// Returns a mutable reference to the value under `key`, after inserting `value` if there is
    /// none.
    ///
    /// A new key has the default spelling and is added at the end. An existing one keeps its
    /// spelling and its decor: a value stays, a table or an array of tables is made a value, as by
    /// [`Item::make_value`], and a placeholder is replaced by `value`.
    ///
    /// # Errors
    ///
    /// Returns a [`NoMemory`] with `value` if out of memory. An existing key takes no memory.
    pub fn get_or_insert(&mut self, key: &str, value: Value) -> Result<&mut Value, NoMemory<Value>>
        ensures* writes_back { sem 𝓛 (LendsPut self.entry key.now result) }
        ensures value { IfOk result
            (λ lent. Some (value_view lent.now)
            ≡ lookup key.now (or_inserted_value key.now (value_view value)
            (inline_slots_of self.old))) }
        // What the inline table is after a write through the reference.
        ensures leaves { (w : Value) → inline_slots_of (value_put key.now w self.old)
            ≡ put (with_item (value_view w))
            (record { key = new_key key.now; item = value_view w }) (inline_slots_of self.old) }
        ensures keeps { (w : Value)
            → inline_fields (value_put key.now w self.old) ≡ inline_fields self.old }
        ensures present { IsTrue (has_slot key.now (inline_slots_of self.old)) → IsOk result }
        ensures back { IfErr result (λ refused. refused.0 ≡ value) }
    {
        match self.find_or_add_value(key, value) {
            Ok(at) => Ok(self.value_at_mut(at)),
            Err(refused) => Err(refused),
        }
    }

    /// Finds or adds the slot of the key, and sees to it that it holds a value.
    fn find_or_add_value(&mut self, key: &str, value: Value) -> Result<usize, NoMemory<Value>>
        ensures held { IfOk result (λ at. has_value_at at (out-InlineTable self.new).items ≡ true) }
        ensures value { IfOk result
            (λ at. option_map value_view (value_at at (out-InlineTable self.new).items)
            ≡ lookup key.now (or_inserted_value key.now (value_view value)
            (inline_slots_of self.old))) }
        ensures rest { IfOk result
            (λ at. (w : Value) → with_value_at at w self.new ≡ value_put key.now w self.old) }
        ensures leaves { (w : Value) → inline_slots_of (value_put key.now w self.old)
            ≡ put (with_item (value_view w))
            (record { key = new_key key.now; item = value_view w }) (inline_slots_of self.old) }
        ensures present { IsTrue (has_slot key.now (inline_slots_of self.old)) → IsOk result }
        ensures back { IfErr result (λ refused. refused.0 ≡ value) }
        ensures err { OnErr result (self.new ≡ self.old) }
    {
        match self.place_of(key) {
            Some(at) => {
                self.make_value_at(at, value);
                Ok(at)
            }
            None => match self.push_value(key, value) {
                Ok(at) => Ok(at),
                Err(refused) => Err(refused),
            },
        }
    }

    /// Adds a new key with the value at the end, and returns the number of its slot.
    fn push_value(&mut self, key: &str, value: Value) -> Result<usize, NoMemory<Value>>
        requires { place key.now (out-InlineTable self.old).items ≡ None }
        ensures table { OnOk result (self.new ≡ value_put key.now value self.old) }
        ensures place { IfOk result (λ at. at ≡ length (out-InlineTable self.old).items) }
        ensures back { IfErr result (λ refused. refused.0 ≡ value) }
        ensures err { OnErr result (self.new ≡ self.old) }
    {
        let at = self.items.len();
        let Ok(key) = Key::from_text(self.items.allocator(), key) else {
            return Err(NoMemory(value));
        };
        let item = Item::Value(value);
        match self.items.push(Slot { key, item }) {
            Ok(()) => Ok(at),
            Err(refused) => Err(NoMemory(refused.0.into_item().into_own_value())),
        }
    }

    /// Inserts `value` under `key` and returns the value that it replaces, if any.
    ///
    /// An existing key keeps its place, but its spelling is reset and its decor unset, and comments
    /// in that decor and in the old value's go. To keep them, use [`Value::replace_with`] on what
    /// [`get_mut`](Self::get_mut) returns. A new key is added at the end. An old item that is no
    /// value is made one, as by [`Item::into_value`], and a placeholder is returned as `None`.
    ///
    /// # Errors
    ///
    /// Returns a [`NoMemory`] with `value` if out of memory. Replacing never fails.
    ///
    /// # Examples
    ///
    /// ```rust,ignore
    /// let version = Value::string(alloc, version)?;
    /// drop(dependency.insert("version", version).map_err(no_memory)?);
    /// ```
    ///
    /// From `add_dependency` of the crate `example_calls`.
    pub fn insert(&mut self, key: &str, value: Value) -> Result<Option<Value>, NoMemory<Value>>
        ensures old { IfOk result
            (λ old. option_map value_view old ≡ old_value key.now (inline_slots_of self.old)) }
        ensures slots { OnOk result
            (inline_slots_of self.new
            ≡ inserted key.now (value_view value) (inline_slots_of self.old)) }
        ensures present { IsTrue (has_slot key.now (inline_slots_of self.old)) → IsOk result }
        ensures fields { inline_fields self.new ≡ inline_fields self.old }
        ensures back { IfErr result (λ refused. refused.0 ≡ value) }
        ensures err { OnErr result (self.new ≡ self.old) }
    {
        match self.items.insert(key, Item::Value(value)) {
            Ok(old) => Ok(old_as_value(old)),
            Err(NoMemory(Item::Value(value))) => Err(NoMemory(value)),
            Err(_) => unreachable!(),
        }
    }

    /// Inserts `value` under a copy of `key` and returns the value that it replaces, if any.
    ///
    /// An existing key keeps its place, but gets the spelling and the decor of `key`. A new one is
    /// added at the end. An old item that is not a value is made one, and a placeholder is returned
    /// as `None`. For a key of default spelling, use [`insert`](Self::insert).
    ///
    /// # Errors
    ///
    /// Returns a [`NoMemory`] with `value` if out of memory. The copy takes memory at an existing
    /// key too.
    pub fn insert_formatted(
        &mut self,
        key: &Key,
        value: Value,
    ) -> Result<Option<Value>, NoMemory<Value>>
        ensures old { IfOk result
            (λ old. option_map value_view old ≡ old_value key.now.name (inline_slots_of self.old)) }
        ensures slots { OnOk result
            (inline_slots_of self.new
            ≡ inserted_formatted key.now (value_view value) (inline_slots_of self.old)) }
        ensures fields { inline_fields self.new ≡ inline_fields self.old }
        ensures back { IfErr result (λ refused. refused.0 ≡ value) }
        ensures err { OnErr result (self.new ≡ self.old) }
    {
        match self.items.insert_formatted(key, Item::Value(value)) {
            Ok(old) => Ok(old_as_value(old)),
            Err(NoMemory(Item::Value(value))) => Err(NoMemory(value)),
            Err(_) => unreachable!(),
        }
    }

    /// Removes the slot of `key` and returns its value, or `None` if the key is missing.
    ///
    /// The other slots keep their order. An item that is not a value is made one, as by
    /// [`Item::into_value`]. A placeholder is removed as well, and `None` returned.
    pub fn remove(&mut self, key: &str) -> Option<Value>
        ensures value { option_map value_view result
            ≡ old_value key.now (inline_slots_of self.old) }
        ensures slots { inline_slots_of self.new ≡ without key.now (inline_slots_of self.old) }
        ensures fields { inline_fields self.new ≡ inline_fields self.old }
    {
        let slot = self.items.remove(key)?;
        value_of(slot.into_item())
    }

    /// Removes the slot of `key` and returns its key and its value, or `None` if the key is
    /// missing.
    ///
    /// The key has its spelling and its decor, so that it can be inserted again by
    /// [`insert_formatted`](Self::insert_formatted). The other slots keep their order. An item that
    /// is not a value is made one. A placeholder is removed as well, and `None` returned.
    pub fn remove_entry(&mut self, key: &str) -> Option<(Key, Value)>
        ensures slot { option_map value_taken result ≡ old_slot key.now (inline_slots_of self.old) }
        ensures slots { inline_slots_of self.new ≡ without key.now (inline_slots_of self.old) }
        ensures fields { inline_fields self.new ≡ inline_fields self.old }
    {
        let slot = self.items.remove_entry(key)?;
        with_value(slot)
    }

    /// Keeps the values for which `keep` returns `true`, in their order, and removes the others.
    ///
    /// The closure is passed the name of the key and the value. Slots without a value are removed
    /// too. The decors of a removed key and value, with their comments, go with them.
    pub fn retain<F: Fn(&str, &Value) -> bool>(&mut self, keep: F)
    where
        F: Drop,
        requires { F.IsAlwaysCallable keep }
        ensures kept { RetainsBy (SaysOfPair F.Fn keep) (valued (inline_slots_of self.old))
            (inline_slots_of self.new) }
        ensures fields { inline_fields self.new ≡ inline_fields self.old }
    {
        retain_values(&mut self.items, keep);
    }

    /// Inserts the pairs one after another.
    ///
    /// An existing key keeps its place, its spelling and its decor, and gets the value;
    /// [`insert`](Self::insert) would reset it. A new key is added at the end, with its spelling
    /// and its decor.
    ///
    /// # Errors
    ///
    /// Returns an `AllocError` if out of memory. The inline table keeps the pairs that were
    /// inserted before, and the others are dropped.
    #[tactic(auto, using(crate::proofs::InlineLaws::extended_last))]
    pub fn extend<U: IntoIterator<Item = (Key, Value)>>(&mut self, pairs: U) -> Mem<()>
        requires { (it : U.IntoIter) → U.into_iter_gives pairs it
            → U.IntoIter.can_next it × IsFinite (U.IntoIter.remaining it) }
        ensures { ExtendsWithItems U.into_iter_gives U.IntoIter.next_gives AddsValues pairs
            self.old self.new result }
    {
        for (key, value) in pairs {
            self.extend_one(key, value)?;
        }
        Ok(())
    }

    /// Inserts one pair as `extend` does, and drops it if out of memory.
    fn extend_one(&mut self, key: Key, value: Value) -> Mem<()>
        ensures slots { OnOk result
            (inline_slots_of self.new
            ≡ put (with_item (value_view value)) (value_taken (key, value))
            (inline_slots_of self.old)) }
        ensures fields { inline_fields self.new ≡ inline_fields self.old }
        ensures err { OnErr result (self.new ≡ self.old) }
    {
        self.items.extend_one(key, Item::Value(value))
    }

    /// Returns a mutable reference to the slots.
    #[doc(hidden)]
    pub fn slots_mut(&mut self) -> &mut Slots<Item>
        ensures* writes_back { sem 𝓛 (LendsInlineSlots self.entry result) }
        ensures slots { slots_view result.now ≡ (inline_view self.old).slots }
        // Writing other slots changes nothing else.
        ensures others { (slots : List (Slot Item)) → inline_view (holding slots self.old)
            ≡ record { fields = (inline_view self.old).fields; slots = slots_view slots } }
    {
        &mut self.items
    }

    /// Returns a mutable reference to the slots.
    pub(crate) fn own_slots_mut(&mut self) -> &mut Slots<Item>
        ensures* writes_back { sem 𝓛 (LendsInlineSlots self.entry result) }
        ensures slots { result.now ≡ (out-InlineTable self.old).items }
    {
        &mut self.items
    }

    /// Returns the slots, and drops all else of the inline table.
    pub(crate) fn into_slots(self) -> Slots<Item>
        ensures { result ≡ self.items }
    {
        let InlineTable {
            items,
            decor,
            trailing,
            dotted: _,
            trailing_comma: _,
            is_read: _,
            span: _,
        } = self;
        drop(decor);
        drop(trailing);
        items
    }
}

/// Returns an old item as a value, unless it is a placeholder.
fn old_as_value(old: Option<Item>) -> Option<Value>
    ensures { option_map value_view result ≡ option_and_then into_value (option_map item_view old) }
{
    value_of(old?)
}

/// Returns the item as a value, unless it is a placeholder.
fn value_of(item: Item) -> Option<Value>
    ensures { option_map value_view result ≡ into_value (item_view item) }
{
    item.into_value().ok()
}

/// Returns the key with its item as a value, unless that is a placeholder.
fn with_value(slot: (Key, Item)) -> Option<(Key, Value)>
    ensures { option_map value_taken result ≡ value_slot (slot_taken slot) }
{
    let (key, item) = slot;
    let value = value_of(item)?;
    Some((key, value))
}

/// Keeps the values that pass.
fn retain_values<F: Fn(&str, &Value) -> bool>(slots: &mut Slots<Item>, keep: F)
where
    F: Drop,
    requires { F.IsAlwaysCallable keep }
    ensures { RetainsBy (SaysOfPair F.Fn keep) (valued (slot_list (slots_view slots.old)))
        (slot_list (slots_view slots.new)) }
{
    slots.retain(
        |name, item|
            requires { F.IsAlwaysCallable keep }
            ensures { KeepsOnly is_value_node (SaysOfNamed F.Fn keep name.entry.now)
                (item_view item.entry.now) result }
        {
            match item.as_value() {
                Some(value) => keep(name, value),
                None => false,
            }
        },
    );
}

/// Writes the inline table with its decor, of which unset sides are empty.
///
/// One that is there for a dotted key is written in braces too. Carriage returns (CR) outside
/// strings are dropped. Before `into_mut`, spellings and decors are spans of the source, which are
/// written as if they were unset.
impl fmt::Display for InlineTable {
    ghost use Rattle.toml_edit_model.specs.Conversions.{value_display};

    ghost output = { λ table. Some (value_display (inline_node (inline_view table))) };

    fn fmt<W: fmt::Write>(&self, f: &mut fmt::Formatter<W>) -> fmt::Result {
        show(f, self)
    }
}

impl Printed for InlineTable {
    ghost use Rattle.toml_edit_model.specs.Conversions.{value_display};

    ghost text = { λ table. value_display (inline_node (inline_view table)) };

    fn put_into<S: Sink>(&self, out: &mut S) {
        put_inline(out, self)
    }
}
