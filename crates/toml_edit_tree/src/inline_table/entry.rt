//! Entries of an inline table: the slot of a key, or the place for a new one, and the calls that
//! return them.
//!
//! The imports that name the types of entries stand in the `impl` blocks: at the head they would
//! import themselves, since these types have ghost fields.
ghost use Rattle.std.specs.Borrow.{sem};
ghost use Rattle.std.specs.Option.{UnwrapsOrElse, unwrap_or};
ghost use Rattle.std.specs.Prelude.{◌<◌, ◌≡◌, IfErr, IfOk, IfSome, IsOk, IsSome, None, Some, is_some, length, option_map, slice_get, true};
ghost use Rattle.toml_edit_key.specs.KeyMutView.{key_of};
ghost use Rattle.toml_edit_model.specs.Conversions.{made_value_or};
ghost use Rattle.toml_edit_model.specs.Keys.{new_key, reset_key};
ghost use Rattle.toml_edit_model.specs.Slots.{AreApart, changed_at, on_key, place as place_seen, with_item, without};
ghost use Rattle.toml_edit_model.specs.Tree.{Key};
ghost use Rattle.toml_edit_slots.specs.Slots.{place};
ghost use Rattle.toml_edit_tree.specs.ContainerParts.{holding};
ghost use Rattle.toml_edit_tree.specs.ElementHolds.{value_held};
ghost use Rattle.toml_edit_tree.specs.InlineLending.{LendsInlineDottedAt, LendsInlineKeyAt, LendsInlineLeafAt, LendsValueAt, with_inline_key, with_value_at};
ghost use Rattle.toml_edit_tree.specs.InlineSlots.{inline_fields};
ghost use Rattle.toml_edit_tree.specs.InlineValues.{MakesValueAt, has_value_at, value_at};
ghost use Rattle.toml_edit_tree.specs.SlotsOf.{inline_slots_of};
ghost use Rattle.toml_edit_tree.specs.View.{item_view, value_view};
ghost use Rattle.toml_edit_tree.specs.declared.inline_table.InlineTable.{out-InlineTable};
ghost use Rattle.toml_edit_tree.specs.declared.item.Item.TheVariants as items;
ghost use Rattle.toml_edit_tree.specs.declared.value.Value.{Value};

use crate::inline_table::InlineTable;
use crate::item::Item;
use crate::value::Value;
use std::mem;
use toml_edit_key::{Key, KeyMut};
use toml_edit_repr::{Decor, Mem};
use toml_edit_slots::{NoMemory, Slot};

/// The slot of a key in an inline table, or the place for a new one at the end.
///
/// Returned by [`InlineTable::entry`] and [`InlineTable::entry_format`].
///
/// # Examples
///
/// ```rust,ignore
/// match entry {
///     InlineEntry::Occupied(slot) => format!(in alloc; "replaces {}", slot.key()),
///     InlineEntry::Vacant(place) => format!(in alloc; "adds {}", place.key()),
/// }
/// ```
///
/// From `describe_inline` of the crate `example_calls`.
#[derive(Drop)]
pub enum InlineEntry<'a> {
    /// The key has a slot, with a value.
    Occupied(InlineOccupiedEntry<'a>),
    /// The key has no slot.
    Vacant(InlineVacantEntry<'a>),
}

impl<'a> InlineEntry<'a> {
    ghost use Rattle.toml_edit_tree.specs.InlineEntries.{InlineLendsOk, inline_key, inline_ref, inline_slots_left, inline_value, inline_with};

    /// Returns the name of the key, present or new.
    pub fn key(&self) -> &str
        ensures { Some result.now ≡ option_map (λ key. key.name) (inline_key self.now) }
    {
        match self {
            InlineEntry::Occupied(entry) => entry.key(),
            InlineEntry::Vacant(entry) => entry.key(),
        }
    }

    /// Returns a mutable reference to the value of the key, after inserting `value` if the key is
    /// missing.
    ///
    /// An existing value stays, and `value` is dropped. A new key is added at the end.
    ///
    /// # Errors
    ///
    /// Returns a [`NoMemory`] with `value` if out of memory. An existing key takes no memory.
    pub fn or_insert(self, value: Value) -> Result<&'a mut Value, NoMemory<Value>>
        ensures* writes_back { sem 𝓛 (InlineLendsOk self.entry result) }
        ensures value { IfOk result (λ x. x.now ≡ unwrap_or (inline_value self.entry) value) }
        // What the inline table is after a write through the reference.
        ensures leaves { (w : Value)
            → inline_slots_of (inline_with self.entry w)
            ≡ inline_slots_left self.entry (value_view w) }
        ensures keeps { (w : Value)
            → inline_fields (inline_with self.entry w) ≡ inline_fields (inline_ref self.entry).now }
        ensures present { IsSome (inline_value self.entry) → IsOk result }
        ensures back { IfErr result (λ refused. refused.0 ≡ value) }
    {
        match self {
            InlineEntry::Occupied(entry) => {
                drop(value);
                Ok(entry.into_mut())
            }
            InlineEntry::Vacant(entry) => entry.insert(value),
        }
    }

    /// Returns a mutable reference to the value of the key, after inserting the result of `default`
    /// if the key is missing.
    ///
    /// The closure is called only then. A new key is added at the end.
    ///
    /// # Errors
    ///
    /// Returns a [`NoMemory`] with the result of `default` if out of memory. An existing key takes
    /// no memory.
    pub fn or_insert_with<F: FnOnce() -> Value>(
        self,
        default: F,
    ) -> Result<&'a mut Value, NoMemory<Value>>
    where
        F: Drop,
        requires { inline_value self ≡ None → F.pre default }
        ensures* writes_back { sem 𝓛 (InlineLendsOk self.entry result) }
        ensures value { IfOk result
            (λ x. UnwrapsOrElse (inline_value self.entry) (F.post default) x.now) }
        // What the inline table is after a write through the reference.
        ensures leaves { (w : Value)
            → inline_slots_of (inline_with self.entry w)
            ≡ inline_slots_left self.entry (value_view w) }
        ensures keeps { (w : Value)
            → inline_fields (inline_with self.entry w) ≡ inline_fields (inline_ref self.entry).now }
        ensures present { IsSome (inline_value self.entry) → IsOk result }
        ensures back { IfErr result (λ refused. F.post default refused.0) }
    {
        match self {
            InlineEntry::Occupied(entry) => {
                drop(default);
                Ok(entry.into_mut())
            }
            InlineEntry::Vacant(entry) => entry.insert(default()),
        }
    }
}

/// A slot of an inline table that holds a value, to read and change that and the decor of its key.
///
/// Returned by [`InlineTable::entry`] for an existing key. For slots of any kind there is
/// [`InlineSlotMut`](crate::InlineSlotMut).
///
/// # Examples
///
/// ```rust,ignore
/// InlineEntry::Occupied(slot) => format!(in alloc; "replaces {}", slot.key()),
/// ```
///
/// From `describe_inline` of the crate `example_calls`.
#[derive(Drop)]
pub struct InlineOccupiedEntry<'a> {
    table: &'a mut InlineTable,
    at: usize,
    ghost held: { has_value_at at (out-InlineTable table.now).items ≡ true },
}

impl<'a> InlineOccupiedEntry<'a> {
    ghost use Rattle.toml_edit_tree.specs.InlineEntries.{InlineLends, InlineOccupiedLends, InlineOccupiedLendsDotted, InlineOccupiedLendsKey, InlineOccupiedLendsLeaf, inline_key, inline_place, inline_ref, inline_value, inline_with, with_entry_value, with_inline_entry_key};
    ghost use Rattle.toml_edit_tree.specs.declared.inline_table.entry.InlineEntry.TheVariants.{Occupied};

    /// Returns the name of the key.
    ///
    /// # Examples
    ///
    /// ```rust,ignore
    /// InlineEntry::Occupied(slot) => format!(in alloc; "replaces {}", slot.key()),
    /// ```
    ///
    /// From `describe_inline` of the crate `example_calls`.
    pub fn key(&self) -> &str
        ensures { Some result.now ≡ option_map (λ key. key.name) (inline_key (Occupied self.now)) }
    {
        self.table.key_at(self.at).get()
    }

    /// Returns a [`KeyMut`] of the key, which changes its decors and can reset its spelling.
    pub fn key_mut(&mut self) -> KeyMut<'_>
        ensures* writes_back { sem 𝓛 (InlineOccupiedLendsKey self.entry result) }
        ensures key { inline_key (Occupied self.old) ≡ Some (key_of result) }
        // What the inline table is after a change of the key.
        ensures leaves { (h : Key → Key)
            → inline_slots_of (with_inline_entry_key self.old h).table.now
            ≡ changed_at (inline_place (Occupied self.old)) (on_key h)
            (inline_slots_of (inline_ref (Occupied self.old)).now) }
        ensures keeps { (h : Key → Key)
            → inline_fields (with_inline_entry_key self.old h).table.now
            ≡ inline_fields (inline_ref (Occupied self.old)).now }
    {
        let at = self.at;
        self.table.key_at_mut(at)
    }

    /// Returns a mutable reference to the decor of the key where it ends a path: the whitespace and
    /// comments before it, and the whitespace before `=`.
    pub fn leaf_decor_mut(&mut self) -> &mut Decor
        ensures* writes_back { sem 𝓛 (InlineOccupiedLendsLeaf self.entry result) }
        ensures decor { option_map (λ key. key.leaf) (inline_key (Occupied self.old))
            ≡ Some result.now }
        // What the inline table is after a change of the key.
        ensures leaves { (h : Key → Key)
            → inline_slots_of (with_inline_entry_key self.old h).table.now
            ≡ changed_at (inline_place (Occupied self.old)) (on_key h)
            (inline_slots_of (inline_ref (Occupied self.old)).now) }
        ensures keeps { (h : Key → Key)
            → inline_fields (with_inline_entry_key self.old h).table.now
            ≡ inline_fields (inline_ref (Occupied self.old)).now }
    {
        let at = self.at;
        self.table.leaf_decor_at_mut(at)
    }

    /// Returns a mutable reference to the decor of the key beside dots: the whitespace between the
    /// key and the dots before and after it.
    pub fn dotted_decor_mut(&mut self) -> &mut Decor
        ensures* writes_back { sem 𝓛 (InlineOccupiedLendsDotted self.entry result) }
        ensures decor { option_map (λ key. key.dotted) (inline_key (Occupied self.old))
            ≡ Some result.now }
        // What the inline table is after a change of the key.
        ensures leaves { (h : Key → Key)
            → inline_slots_of (with_inline_entry_key self.old h).table.now
            ≡ changed_at (inline_place (Occupied self.old)) (on_key h)
            (inline_slots_of (inline_ref (Occupied self.old)).now) }
        ensures keeps { (h : Key → Key)
            → inline_fields (with_inline_entry_key self.old h).table.now
            ≡ inline_fields (inline_ref (Occupied self.old)).now }
    {
        let at = self.at;
        self.table.dotted_decor_at_mut(at)
    }

    /// Resets the key to its default spelling and unsets its decors, so a comment before it goes.
    pub fn fmt_key(&mut self)
        ensures same_table { (inline_ref (Occupied self.new)).ghost_name
            ≡ (inline_ref (Occupied self.old)).ghost_name }
        ensures same_place { inline_place (Occupied self.new) ≡ inline_place (Occupied self.old) }
        ensures table { (inline_ref (Occupied self.new)).now
            ≡ (with_inline_entry_key self.old reset_key).table.now }
        ensures slots { inline_slots_of (inline_ref (Occupied self.new)).now
            ≡ changed_at (inline_place (Occupied self.old)) (on_key reset_key)
            (inline_slots_of (inline_ref (Occupied self.old)).now) }
        ensures fields { inline_fields (inline_ref (Occupied self.new)).now
            ≡ inline_fields (inline_ref (Occupied self.old)).now }
    {
        self.table.fmt_key_at(self.at);
    }

    /// Returns the value.
    pub fn get(&self) -> &Value
        ensures { Some result.now ≡ inline_value (Occupied self.now) }
    {
        self.table.value_at(self.at)
    }

    /// Returns a mutable reference to the value.
    ///
    /// The reference ends with the borrow of the entry; [`into_mut`](Self::into_mut) gives one that
    /// outlives it.
    pub fn get_mut(&mut self) -> &mut Value
        ensures* writes_back { sem 𝓛 (InlineOccupiedLends self.entry result) }
        ensures value { Some result.now ≡ inline_value (Occupied self.old) }
        // What the inline table is after a write through the reference.
        ensures leaves { (w : Value) → inline_slots_of (with_entry_value self.old w).table.now
            ≡ changed_at (inline_place (Occupied self.old)) (with_item (value_view w))
            (inline_slots_of (inline_ref (Occupied self.old)).now) }
        ensures keeps { (w : Value)
            → inline_fields (with_entry_value self.old w).table.now
            ≡ inline_fields (inline_ref (Occupied self.old)).now }
    {
        let at = self.at;
        self.table.value_at_mut(at)
    }

    /// Converts the entry into a mutable reference to the value, which lives as long as the borrow
    /// of the inline table.
    ///
    /// To use the entry again, call [`get_mut`](Self::get_mut).
    pub fn into_mut(self) -> &'a mut Value
        ensures* writes_back { sem 𝓛 (InlineLends (Occupied self.entry) result) }
        ensures value { Some result.now ≡ inline_value (Occupied self.entry) }
        // What the inline table is after a write through the reference.
        ensures leaves { (w : Value) → inline_slots_of (inline_with (Occupied self.entry) w)
            ≡ changed_at (inline_place (Occupied self.entry)) (with_item (value_view w))
            (inline_slots_of (inline_ref (Occupied self.entry)).now) }
        ensures keeps { (w : Value)
            → inline_fields (inline_with (Occupied self.entry) w)
            ≡ inline_fields (inline_ref (Occupied self.entry)).now }
    {
        let InlineOccupiedEntry { table, at } = self;
        table.value_at_mut(at)
    }

    /// Replaces the value and returns the old one. The key keeps its spelling and its decor.
    ///
    /// The whitespace and the comments around the old value go with it.
    pub fn insert(&mut self, value: Value) -> Value
        ensures same_table { (inline_ref (Occupied self.new)).ghost_name
            ≡ (inline_ref (Occupied self.old)).ghost_name }
        ensures same_place { inline_place (Occupied self.new) ≡ inline_place (Occupied self.old) }
        ensures value { Some result ≡ inline_value (Occupied self.old) }
        ensures table { (inline_ref (Occupied self.new)).now
            ≡ inline_with (Occupied self.old) value }
        ensures holds { inline_value (Occupied self.new) ≡ Some value }
        ensures slots { inline_slots_of (inline_ref (Occupied self.new)).now
            ≡ changed_at (inline_place (Occupied self.old)) (with_item (value_view value))
            (inline_slots_of (inline_ref (Occupied self.old)).now) }
        ensures fields { inline_fields (inline_ref (Occupied self.new)).now
            ≡ inline_fields (inline_ref (Occupied self.old)).now }
    {
        self.table.replace_value_at(self.at, value)
    }

    /// Removes the slot and returns its value, keeping the order of the others. The key and its
    /// comments are dropped.
    pub fn remove(self) -> Value
        ensures value { Some result ≡ inline_value (Occupied self.entry) }
        ensures removed { IfSome (inline_key (Occupied self.entry))
            (λ key. inline_slots_of self.exit.0.now
            ≡ without key.name (inline_slots_of (inline_ref (Occupied self.entry)).now)) }
        ensures fields { inline_fields self.exit.0.now
            ≡ inline_fields (inline_ref (Occupied self.entry)).now }
    {
        let at = self.at;
        self.table.remove_value_at(at)
    }
}

/// The place for a new key at the end of an inline table.
///
/// Returned by [`InlineTable::entry`] for a key that is missing.
///
/// # Examples
///
/// ```rust,ignore
/// InlineEntry::Vacant(place) => format!(in alloc; "adds {}", place.key()),
/// ```
///
/// From `describe_inline` of the crate `example_calls`.
#[derive(Drop)]
pub struct InlineVacantEntry<'a> {
    table: &'a mut InlineTable,
    key: Key,
    ghost absent: { place key.name (out-InlineTable table.now).items ≡ None },
}

impl<'a> InlineVacantEntry<'a> {
    ghost use Rattle.toml_edit_tree.specs.InlineEntries.{InlineLendsOk, inline_key, inline_ref, inline_slots_left, inline_with};
    ghost use Rattle.toml_edit_tree.specs.declared.inline_table.entry.InlineEntry.TheVariants.{Vacant};

    /// Returns the name that a new key will have.
    ///
    /// # Examples
    ///
    /// ```rust,ignore
    /// InlineEntry::Vacant(place) => format!(in alloc; "adds {}", place.key()),
    /// ```
    ///
    /// From `describe_inline` of the crate `example_calls`.
    pub fn key(&self) -> &str
        ensures { Some result.now ≡ option_map (λ key. key.name) (inline_key (Vacant self.now)) }
    {
        self.key.get()
    }

    /// Inserts `value` under the key at the end of the inline table, and returns a mutable
    /// reference to it.
    ///
    /// # Errors
    ///
    /// Returns a [`NoMemory`] with `value` if out of memory.
    pub fn insert(self, value: Value) -> Result<&'a mut Value, NoMemory<Value>>
        ensures* writes_back { sem 𝓛 (InlineLendsOk (Vacant self.entry) result) }
        ensures value { IfOk result (λ x. x.now ≡ value) }
        // What the inline table is after a write through the reference.
        ensures leaves { (w : Value)
            → inline_slots_of (inline_with (Vacant self.entry) w)
            ≡ inline_slots_left (Vacant self.entry) (value_view w) }
        ensures keeps { (w : Value)
            → inline_fields (inline_with (Vacant self.entry) w)
            ≡ inline_fields (inline_ref (Vacant self.entry)).now }
        ensures back { IfErr result (λ refused. refused.0 ≡ value) }
    {
        let InlineVacantEntry { table, key } = self;
        let at = table.items.len();
        let item = Item::Value(value);
        match table.items.push(Slot { key, item }) {
            Ok(()) => Ok(table.value_at_mut(at)),
            Err(refused) => Err(NoMemory(refused.0.into_item().into_own_value())),
        }
    }
}

impl InlineTable {
    ghost use Rattle.toml_edit_tree.specs.InlineEntries.{InlineRestsIfRefused, IsInlineEntryOf, inline_ref};

    /// Returns the entry of `key`, to change its value or to insert one.
    ///
    /// An existing item that is not a value is made one first, as by
    /// [`Item::make_value`](crate::Item::make_value), and a placeholder an empty inline table. A
    /// new key will have the default spelling and no decor; for another one use
    /// [`entry_format`](Self::entry_format).
    ///
    /// # Errors
    ///
    /// Returns an `AllocError` if out of memory. An existing key takes no memory.
    pub fn entry(&mut self, key: &str) -> Mem<InlineEntry<'_>>
        ensures* refused { sem 𝓛 (InlineRestsIfRefused self.entry result) }
        ensures same_table { IfOk result (λ e. (inline_ref e).ghost_name ≡ self.entry.ghost_name) }
        ensures entry { IfOk result (IsInlineEntryOf self.old (new_key key.now)) }
    {
        let alloc = self.items.allocator();
        if let Some(at) = self.place_of(key) {
            self.make_value_at(at, Value::InlineTable(InlineTable::new(alloc)));
            return Ok(InlineEntry::Occupied(InlineOccupiedEntry { table: self, at }));
        }
        match Key::from_text(alloc, key) {
            Ok(key) => Ok(InlineEntry::Vacant(InlineVacantEntry { table: self, key })),
            Err(refused) => Err(refused),
        }
    }

    /// Returns the entry of `key`, to change its value or to insert one.
    ///
    /// An existing key stays as it is, and its item is made a value first, as by
    /// [`entry`](Self::entry). A new key will be a copy of `key`, with its spelling and its decor.
    ///
    /// # Errors
    ///
    /// Returns an `AllocError` if out of memory. An existing key takes no memory.
    pub fn entry_format(&mut self, key: &Key) -> Mem<InlineEntry<'_>>
        ensures* refused { sem 𝓛 (InlineRestsIfRefused self.entry result) }
        ensures same_table { IfOk result (λ e. (inline_ref e).ghost_name ≡ self.entry.ghost_name) }
        ensures entry { IfOk result (IsInlineEntryOf self.old key.now) }
    {
        let alloc = self.items.allocator();
        if let Some(at) = self.place_of(key.get()) {
            self.make_value_at(at, Value::InlineTable(InlineTable::new(alloc)));
            return Ok(InlineEntry::Occupied(InlineOccupiedEntry { table: self, at }));
        }
        match key.clone(alloc) {
            Ok(key) => Ok(InlineEntry::Vacant(InlineVacantEntry { table: self, key })),
            Err(refused) => Err(refused),
        }
    }

    /// Finds the slot of the key, of any kind.
    pub(crate) fn place_of(&self, key: &str) -> Option<usize>
        ensures place { result ≡ place key.now (out-InlineTable self.now).items }
        ensures there { result ≡ place_seen key.now (inline_slots_of self.now) }
        ensures within { IfSome result (λ at. at < length (out-InlineTable self.now).items) }
        ensures apart { AreApart (inline_slots_of self.now) }
    {
        // No two keys have one name, says its contract.
        let _ = self.items.as_slice();
        self.items.find(key)
    }

    /// Returns the key of slot `at`.
    fn key_at(&self, at: usize) -> &Key
        requires { has_value_at at (out-InlineTable self.now).items ≡ true }
        ensures { Some result.now
            ≡ option_map (λ slot. slot.key) (slice_get (out-InlineTable self.now).items at) }
    {
        &self.items.as_slice()[at].key
    }

    /// Returns the value of slot `at`.
    fn value_at(&self, at: usize) -> &Value
        requires { has_value_at at (out-InlineTable self.now).items ≡ true }
        ensures { Some result.now ≡ value_at at (out-InlineTable self.now).items }
    {
        match &self.items.as_slice()[at].item {
            Item::Value(value) => value,
            _ => unreachable!(),
        }
    }

    /// Returns a mutable reference to the value of slot `at`.
    pub(crate) fn value_at_mut(&mut self, at: usize) -> &mut Value
        requires { has_value_at at (out-InlineTable self.old).items ≡ true }
        ensures* writes_back { sem 𝓛 (LendsValueAt self.entry at result) }
        ensures value { value_at at (out-InlineTable self.old).items ≡ Some result.now }
    {
        let item = self.items.item_mut(at);
        item.own_value_mut()
    }

    /// Returns a [`KeyMut`] of the key of slot `at`.
    fn key_at_mut(&mut self, at: usize) -> KeyMut<'_>
        requires { has_value_at at (out-InlineTable self.old).items ≡ true }
        ensures* writes_back { sem 𝓛 (LendsInlineKeyAt self.entry at result) }
        ensures key { option_map (λ slot. slot.key) (slice_get (out-InlineTable self.old).items at)
            ≡ Some (key_of result) }
    {
        self.items.key_mut(at)
    }

    /// Returns a mutable reference to the leaf decor of the key of slot `at`.
    fn leaf_decor_at_mut(&mut self, at: usize) -> &mut Decor
        requires { has_value_at at (out-InlineTable self.old).items ≡ true }
        ensures* writes_back { sem 𝓛 (LendsInlineLeafAt self.entry at result) }
        ensures decor { option_map (λ slot. slot.key.leaf)
            (slice_get (out-InlineTable self.old).items at) ≡ Some result.now }
    {
        self.items.leaf_decor_mut(at)
    }

    /// Returns a mutable reference to the dotted decor of the key of slot `at`.
    fn dotted_decor_at_mut(&mut self, at: usize) -> &mut Decor
        requires { has_value_at at (out-InlineTable self.old).items ≡ true }
        ensures* writes_back { sem 𝓛 (LendsInlineDottedAt self.entry at result) }
        ensures decor { option_map (λ slot. slot.key.dotted)
            (slice_get (out-InlineTable self.old).items at) ≡ Some result.now }
    {
        self.items.dotted_decor_mut(at)
    }

    /// Resets the key of slot `at` to its default spelling, and unsets its decor.
    fn fmt_key_at(&mut self, at: usize)
        requires { has_value_at at (out-InlineTable self.old).items ≡ true }
        ensures { self.new ≡ with_inline_key at reset_key self.old }
    {
        self.items.fmt_key(at);
    }

    /// Replaces the value of slot `at` and returns the old one.
    fn replace_value_at(&mut self, at: usize, value: Value) -> Value
        requires { has_value_at at (out-InlineTable self.old).items ≡ true }
        ensures value { Some result ≡ value_at at (out-InlineTable self.old).items }
        ensures table { self.new ≡ with_value_at at value self.old }
    {
        self.items
            .replace_item(at, Item::Value(value))
            .into_own_value()
    }

    /// Removes slot `at` and returns its value, keeping the order of the others.
    fn remove_value_at(&mut self, at: usize) -> Value
        requires { has_value_at at (out-InlineTable self.old).items ≡ true }
        ensures value { Some result ≡ value_at at (out-InlineTable self.old).items }
        ensures removed { IfSome (slice_get (out-InlineTable self.old).items at)
            (λ slot. inline_slots_of self.new ≡ without slot.key.name (inline_slots_of self.old)) }
        ensures fields { inline_fields self.new ≡ inline_fields self.old }
    {
        self.items.remove_at(at).into_item().into_own_value()
    }

    /// Makes the item of slot `at` a value, and puts `value` in place of a placeholder.
    pub(crate) fn make_value_at(&mut self, at: usize, value: Value)
        requires { at < length (out-InlineTable self.old).items }
        ensures items { MakesValueAt (value_view value) at (out-InlineTable self.old).items
            (out-InlineTable self.new).items }
        ensures table { self.new ≡ holding (out-InlineTable self.new).items self.old }
        ensures fields { inline_fields self.new ≡ inline_fields self.old }
    {
        make_value_or(self.items.item_mut(at), value);
    }
}

/// Makes the item a value, and puts `value` in place of a placeholder.
fn make_value_or(item: &mut Item, value: Value)
    ensures item { item_view item.new ≡ made_value_or (value_view value) (item_view item.old) }
    ensures held { is_some (value_held item.new) ≡ true }
{
    item.make_value();
    if item.is_none() {
        put_value(item, value);
    } else {
        drop(value);
    }
}

/// Replaces the item by the value.
fn put_value(item: &mut Item, value: Value)
    ensures { item.new ≡ items.Value value }
{
    drop(mem::replace(item, Item::Value(value)));
}
