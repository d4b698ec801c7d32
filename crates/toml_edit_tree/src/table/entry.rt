//! Entries of a table: the slot of a key, or the place for a new one, and the calls that return them.
//!
//! The imports that name the types of entries stand in the `impl` blocks: at the head they would
//! import themselves, since these types have ghost fields.
ghost use Rattle.std.specs.Borrow.{sem};
ghost use Rattle.std.specs.Option.{UnwrapsOrElse, unwrap_or};
ghost use Rattle.std.specs.Prelude.{◌<◌, ◌≡◌, IfErr, IfOk, IfSome, IsOk, IsSome, IsTrue, None, Some, if◌then◌else◌, length, nat_lt, option_and_then, option_map, slice_get};
ghost use Rattle.toml_edit_key.specs.KeyMutView.{key_of};
ghost use Rattle.toml_edit_model.specs.Keys.{new_key, reset_key};
ghost use Rattle.toml_edit_model.specs.Slots.{AreApart, changed_at, lookup_key, on_key, place as place_seen, with_item, without};
ghost use Rattle.toml_edit_model.specs.TableCalls.{get};
ghost use Rattle.toml_edit_model.specs.Tree.{Key};
ghost use Rattle.toml_edit_slots.specs.Slots.{items_of, place};
ghost use Rattle.toml_edit_tree.specs.SlotsOf.{slots_of};
ghost use Rattle.toml_edit_tree.specs.TableLending.{LendsDottedAt, LendsItemAt, LendsKeyAt, LendsLeafAt};
ghost use Rattle.toml_edit_tree.specs.View.{fields_view, item_view};
ghost use Rattle.toml_edit_tree.specs.declared.item.Item.{Item};
ghost use Rattle.toml_edit_tree.specs.declared.table.Table.{out-Table};

use crate::item::Item;
use crate::table::Table;
use toml_edit_key::{Key, KeyMut};
use toml_edit_repr::{Decor, Mem};
use toml_edit_slots::{NoMemory, Slot};

/// The slot of a key in a table, or the place for a new one at the end.
///
/// Returned by [`Table::entry`] and [`Table::entry_format`].
///
/// # Examples
///
/// ```rust,ignore
/// table.entry(key)?.or_insert(item)?;
/// ```
///
/// From `set_default` of the crate `example_calls`.
#[derive(Drop)]
pub enum Entry<'a> {
    /// The key has a slot, which may be a placeholder.
    Occupied(OccupiedEntry<'a>),
    /// The key has no slot.
    Vacant(VacantEntry<'a>),
}

impl<'a> Entry<'a> {
    ghost use Rattle.toml_edit_tree.specs.TableEntries.{EntryLendsOk, entry_item, entry_key, entry_ref, slots_left, table_with};

    /// Returns the name of the key, present or new.
    ///
    /// # Examples
    ///
    /// ```rust,ignore
    /// entry.key()
    /// ```
    ///
    /// From `name_of` of the crate `example_calls`.
    pub fn key(&self) -> &str
        ensures { Some result.now ≡ option_map (λ key. key.name) (entry_key self.now) }
    {
        match self {
            Entry::Occupied(entry) => entry.key(),
            Entry::Vacant(entry) => entry.key(),
        }
    }

    /// Returns a mutable reference to the item of the key, after inserting `item` if the key is
    /// missing.
    ///
    /// An existing item stays, a placeholder too, and `item` is dropped. A new key is added at the
    /// end.
    ///
    /// # Errors
    ///
    /// Returns a [`NoMemory`] with `item` if out of memory. An existing key takes no memory.
    ///
    /// # Examples
    ///
    /// ```rust,ignore
    /// table.entry(key)?.or_insert(item)?;
    /// ```
    ///
    /// From `set_default` of the crate `example_calls`.
    pub fn or_insert(self, item: Item) -> Result<&'a mut Item, NoMemory<Item>>
        ensures* writes_back { sem 𝓛 (EntryLendsOk self.entry result) }
        ensures item { IfOk result (λ x. x.now ≡ unwrap_or (entry_item self.entry) item) }
        // What the table is after a write through the reference.
        ensures leaves { (w : Item)
            → slots_of (table_with self.entry w) ≡ slots_left self.entry (item_view w) }
        ensures keeps { (w : Item)
            → fields_view (table_with self.entry w) ≡ fields_view (entry_ref self.entry).now }
        ensures present { IsSome (entry_item self.entry) → IsOk result }
        ensures back { IfErr result (λ refused. refused.0 ≡ item) }
    {
        match self {
            Entry::Occupied(entry) => {
                drop(item);
                Ok(entry.into_mut())
            }
            Entry::Vacant(entry) => entry.insert(item),
        }
    }

    /// Returns a mutable reference to the item of the key, after inserting the result of `default`
    /// if the key is missing.
    ///
    /// The closure is called only then. An existing item stays, a placeholder too. A new key is
    /// added at the end.
    ///
    /// # Errors
    ///
    /// Returns a [`NoMemory`] with the result of `default` if out of memory. An existing key takes
    /// no memory.
    pub fn or_insert_with<F: FnOnce() -> Item>(
        self,
        default: F,
    ) -> Result<&'a mut Item, NoMemory<Item>>
    where
        F: Drop,
        requires { entry_item self ≡ None → F.pre default }
        ensures* writes_back { sem 𝓛 (EntryLendsOk self.entry result) }
        ensures item { IfOk result
            (λ x. UnwrapsOrElse (entry_item self.entry) (F.post default) x.now) }
        // What the table is after a write through the reference.
        ensures leaves { (w : Item)
            → slots_of (table_with self.entry w) ≡ slots_left self.entry (item_view w) }
        ensures keeps { (w : Item)
            → fields_view (table_with self.entry w) ≡ fields_view (entry_ref self.entry).now }
        ensures present { IsSome (entry_item self.entry) → IsOk result }
        ensures back { IfErr result (λ refused. F.post default refused.0) }
    {
        match self {
            Entry::Occupied(entry) => {
                drop(default);
                Ok(entry.into_mut())
            }
            Entry::Vacant(entry) => entry.insert(default()),
        }
    }
}

/// A slot of a table, to read and change its item and the decor of its key. It may be a
/// placeholder.
///
/// Returned by [`Table::entry`] for an existing key, and by [`Table::slot_mut`],
/// [`Table::get_key_value_mut`] and [`Table::key_value_at_mut`].
///
/// # Examples
///
/// ```rust,ignore
/// Some(mut slot) => {
///     set_prefix(&mut slot, comment);
///     Ok(true)
/// }
/// ```
///
/// From `set_comment` of the crate `example_calls`.
#[derive(Drop)]
pub struct OccupiedEntry<'a> {
    table: &'a mut Table,
    at: usize,
    ghost within: { at < length (out-Table table.now).slots },
}

impl<'a> OccupiedEntry<'a> {
    ghost use Rattle.toml_edit_tree.specs.TableEntries.{EntryLends, OccupiedLends, OccupiedLendsDotted, OccupiedLendsKey, OccupiedLendsLeaf, entry_item, entry_key, entry_place, entry_ref, table_with, with_entry_item, with_entry_key};
    ghost use Rattle.toml_edit_tree.specs.declared.table.entry.Entry.TheVariants.{Occupied};

    /// Returns the name of the key.
    ///
    /// # Examples
    ///
    /// ```rust,ignore
    /// Entry::Occupied(slot) => format!(in alloc; "replaces {}", slot.key()),
    /// ```
    ///
    /// From `describe` of the crate `example_calls`.
    pub fn key(&self) -> &str
        ensures { Some result.now ≡ option_map (λ key. key.name) (entry_key (Occupied self.now)) }
    {
        self.table.slots.as_slice()[self.at].key.get()
    }

    /// Returns a [`KeyMut`] of the key, which changes its decors and can reset its spelling.
    pub fn key_mut(&mut self) -> KeyMut<'_>
        ensures* writes_back { sem 𝓛 (OccupiedLendsKey self.entry result) }
        ensures key { entry_key (Occupied self.old) ≡ Some (key_of result) }
        // What the table is after a change of the key.
        ensures leaves { (h : Key → Key) → slots_of (with_entry_key self.old h).table.now
            ≡ changed_at (entry_place (Occupied self.old)) (on_key h)
            (slots_of (entry_ref (Occupied self.old)).now) }
        ensures keeps { (h : Key → Key)
            → fields_view (with_entry_key self.old h).table.now
            ≡ fields_view (entry_ref (Occupied self.old)).now }
    {
        let at = self.at;
        self.table.key_at_mut(at)
    }

    /// Returns a mutable reference to the decor of the key where it ends a path: the whitespace and
    /// comments before its line, and the whitespace before `=`.
    pub fn leaf_decor_mut(&mut self) -> &mut Decor
        ensures* writes_back { sem 𝓛 (OccupiedLendsLeaf self.entry result) }
        ensures decor { option_map (λ key. key.leaf) (entry_key (Occupied self.old))
            ≡ Some result.now }
        // What the table is after a change of the key.
        ensures leaves { (h : Key → Key) → slots_of (with_entry_key self.old h).table.now
            ≡ changed_at (entry_place (Occupied self.old)) (on_key h)
            (slots_of (entry_ref (Occupied self.old)).now) }
        ensures keeps { (h : Key → Key)
            → fields_view (with_entry_key self.old h).table.now
            ≡ fields_view (entry_ref (Occupied self.old)).now }
    {
        let at = self.at;
        self.table.leaf_decor_at_mut(at)
    }

    /// Returns a mutable reference to the decor of the key beside dots: the whitespace between the
    /// key and the dots before and after it.
    pub fn dotted_decor_mut(&mut self) -> &mut Decor
        ensures* writes_back { sem 𝓛 (OccupiedLendsDotted self.entry result) }
        ensures decor { option_map (λ key. key.dotted) (entry_key (Occupied self.old))
            ≡ Some result.now }
        // What the table is after a change of the key.
        ensures leaves { (h : Key → Key) → slots_of (with_entry_key self.old h).table.now
            ≡ changed_at (entry_place (Occupied self.old)) (on_key h)
            (slots_of (entry_ref (Occupied self.old)).now) }
        ensures keeps { (h : Key → Key)
            → fields_view (with_entry_key self.old h).table.now
            ≡ fields_view (entry_ref (Occupied self.old)).now }
    {
        let at = self.at;
        self.table.dotted_decor_at_mut(at)
    }

    /// Resets the key to its default spelling and unsets its decors, so a comment above it goes.
    pub fn fmt_key(&mut self)
        ensures same_table { (entry_ref (Occupied self.new)).ghost_name
            ≡ (entry_ref (Occupied self.old)).ghost_name }
        ensures same_place { entry_place (Occupied self.new) ≡ entry_place (Occupied self.old) }
        ensures table { (entry_ref (Occupied self.new)).now
            ≡ (with_entry_key self.old reset_key).table.now }
        ensures slots { slots_of (entry_ref (Occupied self.new)).now
            ≡ changed_at (entry_place (Occupied self.old)) (on_key reset_key)
            (slots_of (entry_ref (Occupied self.old)).now) }
        ensures fields { fields_view (entry_ref (Occupied self.new)).now
            ≡ fields_view (entry_ref (Occupied self.old)).now }
    {
        self.table.slots.fmt_key(self.at);
    }

    /// Returns the item, which may be a placeholder.
    pub fn get(&self) -> &Item
        ensures { Some result.now ≡ entry_item (Occupied self.now) }
    {
        &self.table.slots.as_slice()[self.at].item
    }

    /// Returns a mutable reference to the item, which may be a placeholder.
    ///
    /// The reference ends with the borrow of the entry; [`into_mut`](Self::into_mut) gives one that
    /// outlives it.
    pub fn get_mut(&mut self) -> &mut Item
        ensures* writes_back { sem 𝓛 (OccupiedLends self.entry result) }
        ensures item { Some result.now ≡ entry_item (Occupied self.old) }
        // What the table is after a write through the reference.
        ensures leaves { (w : Item) → slots_of (with_entry_item self.old w).table.now
            ≡ changed_at (entry_place (Occupied self.old)) (with_item (item_view w))
            (slots_of (entry_ref (Occupied self.old)).now) }
        ensures keeps { (w : Item)
            → fields_view (with_entry_item self.old w).table.now
            ≡ fields_view (entry_ref (Occupied self.old)).now }
    {
        let at = self.at;
        self.table.item_at_mut(at)
    }

    /// Converts the entry into a mutable reference to the item, which lives as long as the borrow
    /// of the table.
    ///
    /// To use the entry again, call [`get_mut`](Self::get_mut).
    pub fn into_mut(self) -> &'a mut Item
        ensures* writes_back { sem 𝓛 (EntryLends (Occupied self.entry) result) }
        ensures item { Some result.now ≡ entry_item (Occupied self.entry) }
        // What the table is after a write through the reference.
        ensures leaves { (w : Item) → slots_of (table_with (Occupied self.entry) w)
            ≡ changed_at (entry_place (Occupied self.entry)) (with_item (item_view w))
            (slots_of (entry_ref (Occupied self.entry)).now) }
        ensures keeps { (w : Item)
            → fields_view (table_with (Occupied self.entry) w)
            ≡ fields_view (entry_ref (Occupied self.entry)).now }
    {
        let OccupiedEntry { table, at } = self;
        table.slots.item_mut(at)
    }

    /// Replaces the item and returns the old one. The key keeps its spelling and its decor.
    ///
    /// The comment after an old value goes with it, since it is in the decor of the value.
    pub fn insert(&mut self, item: Item) -> Item
        ensures same_table { (entry_ref (Occupied self.new)).ghost_name
            ≡ (entry_ref (Occupied self.old)).ghost_name }
        ensures same_place { entry_place (Occupied self.new) ≡ entry_place (Occupied self.old) }
        ensures item { Some result ≡ entry_item (Occupied self.old) }
        ensures table { (entry_ref (Occupied self.new)).now ≡ table_with (Occupied self.old) item }
        ensures holds { entry_item (Occupied self.new) ≡ Some item }
        ensures slots { slots_of (entry_ref (Occupied self.new)).now
            ≡ changed_at (entry_place (Occupied self.old)) (with_item (item_view item))
            (slots_of (entry_ref (Occupied self.old)).now) }
        ensures fields { fields_view (entry_ref (Occupied self.new)).now
            ≡ fields_view (entry_ref (Occupied self.old)).now }
    {
        self.table.slots.replace_item(self.at, item)
    }

    /// Removes the slot and returns its item, keeping the order of the others. The key and its
    /// comments are dropped.
    pub fn remove(self) -> Item
        ensures item { Some result ≡ entry_item (Occupied self.entry) }
        ensures removed { IfSome (entry_key (Occupied self.entry))
            (λ key. slots_of self.exit.0.now
            ≡ without key.name (slots_of (entry_ref (Occupied self.entry)).now)) }
        ensures fields { fields_view self.exit.0.now
            ≡ fields_view (entry_ref (Occupied self.entry)).now }
    {
        let at = self.at;
        self.table.remove_at(at)
    }
}

/// The place for a new key at the end of a table.
///
/// Returned by [`Table::entry`] for a key that is missing.
///
/// # Examples
///
/// ```rust,ignore
/// Entry::Vacant(place) => format!(in alloc; "adds {}", place.key()),
/// ```
///
/// From `describe` of the crate `example_calls`.
#[derive(Drop)]
pub struct VacantEntry<'a> {
    table: &'a mut Table,
    key: Key,
    ghost absent: { place key.name (out-Table table.now).slots ≡ None },
}

impl<'a> VacantEntry<'a> {
    ghost use Rattle.toml_edit_tree.specs.TableEntries.{EntryLendsOk, entry_key, entry_ref, slots_left, table_with};
    ghost use Rattle.toml_edit_tree.specs.declared.table.entry.Entry.TheVariants.{Vacant};

    /// Returns the name that a new key will have.
    ///
    /// # Examples
    ///
    /// ```rust,ignore
    /// Entry::Vacant(place) => format!(in alloc; "adds {}", place.key()),
    /// ```
    ///
    /// From `describe` of the crate `example_calls`.
    pub fn key(&self) -> &str
        ensures { Some result.now ≡ option_map (λ key. key.name) (entry_key (Vacant self.now)) }
    {
        self.key.get()
    }

    /// Inserts `item` under the key at the end of the table, and returns a mutable reference to it.
    ///
    /// # Errors
    ///
    /// Returns a [`NoMemory`] with `item` if out of memory.
    pub fn insert(self, item: Item) -> Result<&'a mut Item, NoMemory<Item>>
        ensures* writes_back { sem 𝓛 (EntryLendsOk (Vacant self.entry) result) }
        ensures item { IfOk result (λ x. x.now ≡ item) }
        // What the table is after a write through the reference.
        ensures leaves { (w : Item)
            → slots_of (table_with (Vacant self.entry) w)
            ≡ slots_left (Vacant self.entry) (item_view w) }
        ensures keeps { (w : Item)
            → fields_view (table_with (Vacant self.entry) w)
            ≡ fields_view (entry_ref (Vacant self.entry)).now }
        ensures back { IfErr result (λ refused. refused.0 ≡ item) }
    {
        let VacantEntry { table, key } = self;
        let at = table.slots.len();
        match table.slots.push(Slot { key, item }) {
            Ok(()) => Ok(table.slots.item_mut(at)),
            Err(refused) => Err(NoMemory(refused.0.into_item())),
        }
    }
}

impl Table {
    ghost use Rattle.toml_edit_tree.specs.TableEntries.{IsEntryOf, RestsIfAbsent, RestsIfRefused, entry_item, entry_place, entry_ref};
    ghost use Rattle.toml_edit_tree.specs.declared.table.entry.Entry.TheVariants.{Occupied};

    /// Returns the entry of `key`, to change its item or to insert one.
    ///
    /// A new key will have the default spelling and no decor. For another one use
    /// [`entry_format`](Self::entry_format).
    ///
    /// # Errors
    ///
    /// Returns an `AllocError` if out of memory. An existing key takes no memory.
    ///
    /// # Examples
    ///
    /// ```rust,ignore
    /// table.entry(key)?.or_insert(item)?;
    /// ```
    ///
    /// From `set_default` of the crate `example_calls`.
    pub fn entry(&mut self, key: &str) -> Mem<Entry<'_>>
        ensures* refused { sem 𝓛 (RestsIfRefused self.entry result) }
        ensures same_table { IfOk result (λ e. (entry_ref e).ghost_name ≡ self.entry.ghost_name) }
        ensures entry { IfOk result (IsEntryOf self.old (new_key key.now)) }
    {
        let alloc = self.slots.allocator();
        if let Some(at) = self.place_of(key) {
            return Ok(Entry::Occupied(OccupiedEntry { table: self, at }));
        }
        match Key::from_text(alloc, key) {
            Ok(key) => Ok(Entry::Vacant(VacantEntry { table: self, key })),
            Err(refused) => Err(refused),
        }
    }

    /// Returns the entry of `key`, to change its item or to insert one.
    ///
    /// A new key will be a copy of `key`, with its spelling and its decor. An existing one stays as
    /// it is.
    ///
    /// # Errors
    ///
    /// Returns an `AllocError` if out of memory. An existing key takes no memory.
    pub fn entry_format(&mut self, key: &Key) -> Mem<Entry<'_>>
        ensures* refused { sem 𝓛 (RestsIfRefused self.entry result) }
        ensures same_table { IfOk result (λ e. (entry_ref e).ghost_name ≡ self.entry.ghost_name) }
        ensures entry { IfOk result (IsEntryOf self.old key.now) }
    {
        let alloc = self.slots.allocator();
        if let Some(at) = self.place_of(key.get()) {
            return Ok(Entry::Occupied(OccupiedEntry { table: self, at }));
        }
        match key.clone(alloc) {
            Ok(key) => Ok(Entry::Vacant(VacantEntry { table: self, key })),
            Err(refused) => Err(refused),
        }
    }

    /// Returns the slot of `key`, a placeholder too, or `None` if the key is missing.
    ///
    /// It lends the item by `get_mut` and the key by `key_mut`, one after the other. Nothing is
    /// inserted: for that, use [`entry`](Self::entry).
    ///
    /// # Examples
    ///
    /// ```rust,ignore
    /// Some(mut slot) => {
    ///     set_prefix(&mut slot, comment);
    ///     Ok(true)
    /// }
    /// ```
    ///
    /// From `set_comment` of the crate `example_calls`.
    pub fn slot_mut(&mut self, key: &str) -> Option<OccupiedEntry<'_>>
        ensures* absent { sem 𝓛 (RestsIfAbsent self.entry result) }
        ensures same_table { IfSome result
            (λ e. (entry_ref (Occupied e)).ghost_name ≡ self.entry.ghost_name) }
        ensures table { IfSome result (λ e. (entry_ref (Occupied e)).now ≡ self.old) }
        ensures place { option_map (λ e. entry_place (Occupied e)) result
            ≡ place_seen key.now (slots_of self.old) }
    {
        match self.place_of(key) {
            Some(at) => Some(OccupiedEntry { table: self, at }),
            None => None,
        }
    }

    /// Returns the slot of `key`, or `None` if the key is missing or has a placeholder.
    ///
    /// It lends the item by `get_mut` and the key by `key_mut`, one after the other. For
    /// placeholders too, use [`slot_mut`](Self::slot_mut).
    pub fn get_key_value_mut(&mut self, key: &str) -> Option<OccupiedEntry<'_>>
        ensures* absent { sem 𝓛 (RestsIfAbsent self.entry result) }
        ensures same_table { IfSome result
            (λ e. (entry_ref (Occupied e)).ghost_name ≡ self.entry.ghost_name) }
        ensures table { IfSome result (λ e. (entry_ref (Occupied e)).now ≡ self.old) }
        ensures item { option_and_then (λ e. option_map item_view (entry_item (Occupied e))) result
            ≡ get key.now (slots_of self.old) }
        ensures place { IfSome result
            (λ e. place_seen key.now (slots_of self.old) ≡ Some (entry_place (Occupied e))) }
    {
        match self.held_place(key) {
            Some(at) => Some(OccupiedEntry { table: self, at }),
            None => None,
        }
    }

    /// Returns slot `at`, a placeholder too, or `None` if `at` is not below [`slots`](Self::slots).
    ///
    /// In a loop over numbers it takes the place of an `iter_mut`.
    pub fn key_value_at_mut(&mut self, at: usize) -> Option<OccupiedEntry<'_>>
        ensures* absent { sem 𝓛 (RestsIfAbsent self.entry result) }
        ensures same_table { IfSome result
            (λ e. (entry_ref (Occupied e)).ghost_name ≡ self.entry.ghost_name) }
        ensures table { IfSome result (λ e. (entry_ref (Occupied e)).now ≡ self.old) }
        ensures place { option_map (λ e. entry_place (Occupied e)) result
            ≡ if nat_lt at (length (slots_of self.old)) then Some at else None }
    {
        if self.has_place(at) {
            Some(OccupiedEntry { table: self, at })
        } else {
            None
        }
    }

    /// Returns a [`KeyMut`] of the key of this name, or `None` if it is missing. A key with a
    /// placeholder is returned too.
    ///
    /// It changes the decors of the key and can reset its spelling. The contract promises nothing
    /// about the table after this call, even where it returns `None`. Where a proof needs that, use
    /// [`slot_mut`](Self::slot_mut), which promises it.
    pub fn key_mut(&mut self, key: &str) -> Option<KeyMut<'_>>
        ensures { option_map key_of result ≡ lookup_key key.now (slots_of self.old) }
    {
        match self.place_of(key) {
            Some(at) => Some(self.key_at_mut(at)),
            None => None,
        }
    }

    /// Finds the slot of the key, a placeholder too.
    fn place_of(&self, key: &str) -> Option<usize>
        ensures place { result ≡ place key.now (out-Table self.now).slots }
        ensures there { result ≡ place_seen key.now (slots_of self.now) }
        ensures within { IfSome result (λ at. at < length (out-Table self.now).slots) }
        ensures apart { AreApart (slots_of self.now) }
    {
        // No two keys have one name, says its contract.
        let _ = self.slots.as_slice();
        self.slots.find(key)
    }

    /// Returns `true` if `at` is below the number of slots.
    fn has_place(&self, at: usize) -> bool
        ensures there { result ≡ nat_lt at (length (slots_of self.now)) }
        ensures within { IsTrue result → at < length (out-Table self.now).slots }
    {
        at < self.slots.len()
    }

    /// Returns a mutable reference to the item of slot `at`.
    pub(crate) fn item_at_mut(&mut self, at: usize) -> &mut Item
        requires { at < length (out-Table self.old).slots }
        ensures* writes_back { sem 𝓛 (LendsItemAt self.entry at result) }
        ensures item { Some result.now ≡ slice_get (items_of (out-Table self.old).slots) at }
    {
        self.slots.item_mut(at)
    }

    /// Returns a [`KeyMut`] of the key of slot `at`.
    fn key_at_mut(&mut self, at: usize) -> KeyMut<'_>
        requires { at < length (out-Table self.old).slots }
        ensures* writes_back { sem 𝓛 (LendsKeyAt self.entry at result) }
        ensures key { option_map (λ slot. slot.key) (slice_get (out-Table self.old).slots at)
            ≡ Some (key_of result) }
    {
        self.slots.key_mut(at)
    }

    /// Returns a mutable reference to the leaf decor of the key of slot `at`.
    fn leaf_decor_at_mut(&mut self, at: usize) -> &mut Decor
        requires { at < length (out-Table self.old).slots }
        ensures* writes_back { sem 𝓛 (LendsLeafAt self.entry at result) }
        ensures decor { option_map (λ slot. slot.key.leaf)
            (slice_get (out-Table self.old).slots at) ≡ Some result.now }
    {
        self.slots.leaf_decor_mut(at)
    }

    /// Returns a mutable reference to the dotted decor of the key of slot `at`.
    fn dotted_decor_at_mut(&mut self, at: usize) -> &mut Decor
        requires { at < length (out-Table self.old).slots }
        ensures* writes_back { sem 𝓛 (LendsDottedAt self.entry at result) }
        ensures decor { option_map (λ slot. slot.key.dotted)
            (slice_get (out-Table self.old).slots at) ≡ Some result.now }
    {
        self.slots.dotted_decor_mut(at)
    }

    /// Removes slot `at` and returns its item, keeping the order of the others.
    fn remove_at(&mut self, at: usize) -> Item
        requires { at < length (out-Table self.old).slots }
        ensures item { Some result ≡ slice_get (items_of (out-Table self.old).slots) at }
        ensures removed { IfSome (slice_get (out-Table self.old).slots at)
            (λ slot. slots_of self.new ≡ without slot.key.name (slots_of self.old)) }
        ensures fields { fields_view self.new ≡ fields_view self.old }
    {
        self.slots.remove_at(at).into_item()
    }
}
