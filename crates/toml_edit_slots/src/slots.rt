//! The slots of a table: its keys with their items, in order.
ghost use Rattle.std.specs.Prelude.{◌≡◌, ◌<◌, ◌↔◌, ℕ, IsTrue, [], ◌∷◌, ◌++◌, None, Some, IsSome, IsOk, length, IfOk, IfErr, IfSome, OnOk, OnErr, slice_get, vec_len, vec_capacity, option_and_then, option_map, take};
ghost use Rattle.std.specs.Option.{ForSome, option_copied, option_copied_mut};
ghost use Rattle.toml_edit_model.specs.Keys.{cleared_key};

use crate::index::{Index, add_new_place, close_gap, find_place, index_those};
use crate::order::{is_in_order, sort_entries};
use std::alloc::{AllocError, Global};
use std::error::Error;
use std::marker::Model;
use std::{fmt, mem};
use toml_edit_key::{Key, KeyMut};
use toml_edit_repr::{Decor, Mem};
use toml_edit_text::SharedText;

mod insert;
pub mod rearrange;
mod whole;

/// The error of a call that ran out of memory, with the value that could not be stored.
///
/// # Examples
///
/// ```rust,ignore
/// Err(NoMemory(item)) => Some(item),
/// ```
///
/// From `try_insert` of the crate `example_calls`.
#[derive(Debug, Drop)]
pub struct NoMemory<T>(pub T);

/// Writes `out of memory`.
impl<T> fmt::Display for NoMemory<T> {
    ghost use Rattle.std.specs.Prelude.{Some, codes};

    ghost output = { λ _. Some (codes "out of memory") };

    fn fmt<W: fmt::Write>(&self, f: &mut fmt::Formatter<W>) -> fmt::Result {
        f.write_str("out of memory")
    }
}

impl<T: fmt::Debug + Drop> Error for NoMemory<T> {}

/// Converts the error into one without a value, and drops the value that it has.
impl<T: Drop> From<NoMemory<T>> for AllocError {
    fn from(_refused: NoMemory<T>) -> AllocError {
        AllocError
    }
}

/// The error of [`Slots::try_push`] and [`Slots::insert_at`], with the slot that was not added.
#[derive(Debug, Drop)]
pub enum Refused<T> {
    /// The slot at this place has the name already.
    Present(usize, T),
    /// Memory ran out.
    NoMemory(T),
}

impl<T> Refused<T> {
    ghost use Rattle.std.specs.Prelude.{Option};
    ghost use Rattle.toml_edit_slots.specs.Refusals.{IsRefusal};

    /// Returns the place of the slot that has the name already, or `None` if memory ran out.
    ///
    /// Drops the slot that was not added.
    pub fn present_place(self) -> Option<usize>
    where
        T: Drop,
        ensures { (slot : T) (there : Option ℕ) → IsRefusal slot there self → result ≡ there }
    {
        match self {
            Refused::Present(at, _) => Some(at),
            Refused::NoMemory(_) => None,
        }
    }
}

/// A key with its item.
///
/// # Examples
///
/// ```rust,ignore
/// match table.as_slots().as_slice().first() {
///     Some(slot) => Some(&slot.key),
///     None => None,
/// }
/// ```
///
/// From `first_key` of the crate `example_calls`.
#[derive(Debug, Drop)]
pub struct Slot<T> {
    /// The key.
    pub key: Key,
    /// The value, table or array under the key.
    pub item: T,
}

impl<T> Slot<T> {
    /// Returns the item, and drops the key.
    pub fn into_item(self) -> T
        ensures { result ≡ self.item }
    {
        let Slot { key, item } = self;
        drop(key);
        item
    }
}

/// The slots of a table, in order. No two keys have the same name.
///
/// # Examples
///
/// ```rust,ignore
/// match table.as_slots().as_slice().first() {
///     Some(slot) => Some(&slot.key),
///     None => None,
/// }
/// ```
///
/// From `first_key` of the crate `example_calls`.
#[derive(Debug)]
pub struct Slots<T> {
    entries: Vec<Slot<T>>,
    // From the name of each key to the place of its slot; `None` where there are few slots.
    index: Option<Box<Index>>,
}

impl<T: Drop> Drop for Slots<T> {
    fn drop(self) {
        let Slots { entries, index } = self;
        // First the index, whose few large blocks are then not joined with those of the entries.
        drop(index);
        drop(entries);
    }
}

impl<T> Model for Slots<T> {
    ghost use Rattle.std.specs.Prelude.{List};
    ghost use Rattle.std.specs.Coded.{coded_list};
    ghost use Rattle.toml_edit_slots.specs.declared.slots.Slot.{Slot};
    ghost use Rattle.toml_edit_slots.specs.Slots.{AreApart, names};
    ghost use Rattle.toml_edit_slots.specs.SlotIndex.{IsIndexed};
    ghost use Rattle.toml_edit_slots.specs.SlotCode.{slot_code};

    ghost Value = { List (Slot T) };

    ghost coded = { coded_list (slot_code T.code) };

    ghost view = { λ a. a.entries.items };

    ghost invariant = { λ a. AreApart a.entries.items × IsIndexed a.index (names a.entries.items) };
}

impl<T> Slots<T> {
    ghost use Rattle.std.specs.Borrow.{sem};
    ghost use Rattle.std.specs.Prelude.{remove};
    ghost use Rattle.toml_edit_key.specs.KeyMutView.{key_of};
    ghost use Rattle.toml_edit_model.specs.Keys.{reset_key};
    ghost use Rattle.toml_edit_model.specs.Tree.{HasTrueSpelling};
    ghost use Rattle.toml_edit_model.specs.Spelling.{SpellsKey};
    ghost use Rattle.toml_edit_slots.specs.Lending.{LendsDottedAt, LendsFound, LendsItem, LendsKeyAt, LendsLeafAt};
    ghost use Rattle.toml_edit_slots.specs.Refusals.{IsRefusal};
    ghost use Rattle.toml_edit_slots.specs.Slots.{AreApart, place, lookup, lookup_slot, put, without, items_of, on_key, names};
    ghost use Rattle.toml_edit_slots.specs.InPlace.{by_place, replaced};
    ghost use Rattle.toml_edit_model.specs.Order.{sorted_by};
    ghost use Rattle.toml_edit_model.specs.OwnedForm.{KeyFits, owned_raw, owned_key};
    ghost use Rattle.toml_edit_model.specs.Slots.{inserted, without as without_seen};
    ghost use Rattle.toml_edit_slots.specs.Seen.{seen};

    /// Creates an empty container. Allocates nothing.
    pub fn new(alloc: Global) -> Slots<T>
        ensures { result ≡ [] }
    {
        Slots {
            entries: Vec::new(alloc),
            index: None,
        }
    }

    /// Creates an empty container with room for `count` slots.
    ///
    /// If there is no memory for that room, the container has none.
    pub fn with_room(alloc: Global, count: usize) -> Slots<T>
        ensures { result ≡ [] }
    {
        match Vec::with_capacity(alloc, count) {
            Ok(entries) => Slots {
                entries,
                index: None,
            },
            Err(_) => Slots::new(alloc),
        }
    }

    /// Returns the allocator that the container was created with, and that it grows by.
    pub fn allocator(&self) -> Global {
        *self.entries.allocator()
    }

    /// Returns the slots in order.
    pub fn as_slice(&self) -> &[Slot<T>]
        ensures slots { result.now ≡ self.now }
        // No slot has the name of one before it.
        ensures apart { (at : ℕ)
            → ForSome (slice_get self.now at)
            (λ slot. place slot.key.name (take at self.now) ≡ None) }
    {
        self.entries.as_slice()
    }

    /// Returns the slots in order as a vector.
    pub fn into_vec(self) -> Vec<Slot<T>>
        ensures { result.items ≡ self }
    {
        let Slots { entries, index } = self;
        drop(index);
        entries
    }

    /// Returns the number of slots.
    pub fn len(&self) -> usize
        ensures { result ≡ length self.now }
    {
        self.entries.len()
    }

    /// Returns `true` if there are no slots.
    pub fn is_empty(&self) -> bool
        ensures { IsTrue result ↔ (self.now ≡ []) }
    {
        self.entries.is_empty()
    }

    /// Returns the place of the slot whose key has the name, or `None` if no key has it.
    pub fn find(&self, text: &str) -> Option<usize>
        ensures place { result ≡ place text.now self.now }
        ensures slot { option_and_then (slice_get self.now) result ≡ lookup_slot text.now self.now }
        ensures within { IfSome result (λ at. at < length self.now) }
    {
        find_place(&self.index, &self.entries, text)
    }

    /// Returns the item whose key has the name, or `None` if no key has it.
    pub fn get(&self, text: &str) -> Option<&T>
        ensures { option_copied result ≡ lookup text.now self.now }
    {
        let at = self.find(text)?;
        Some(&self.entries[at].item)
    }

    /// Returns a mutable reference to the item at the place.
    pub fn item_mut(&mut self, at: usize) -> &mut T
        requires { at < length self.old }
        ensures* writes_back { sem 𝓛 (LendsItem T.row self.entry at result) }
        ensures item { Some result.now ≡ slice_get (items_of self.old) at }
    {
        let lent = &mut self.entries[at];
        &mut lent.item
    }

    /// Returns a mutable reference to the item whose key has the name, or `None` if no key has it.
    pub fn get_mut(&mut self, text: &str) -> Option<&mut T>
        ensures* writes_back { sem 𝓛 (LendsFound T.row self.entry text.now result) }
        ensures item { option_copied_mut result ≡ lookup text.now self.old }
    {
        match self.find(text) {
            Some(at) => Some(self.item_mut(at)),
            None => None,
        }
    }

    /// Adds a slot with a new name after the others.
    ///
    /// # Errors
    ///
    /// Fails only if memory runs out. The slots then stay as they were, and the error returns the
    /// new one.
    // Inlined, since its error can hold a slot: not inlined, it clears and copies one at each call.
    #[inline(always)]
    pub fn push(&mut self, slot: Slot<T>) -> Result<(), NoMemory<Slot<T>>>
        requires { place slot.key.name self.old ≡ None }
        ensures slots { OnOk result (self.new ≡ self.old ++ slot ∷ []) }
        ensures back { IfErr result (λ refused. refused.0 ≡ slot) }
        ensures err { OnErr result (self.new ≡ self.old) }
    {
        // Not by `try_push`: its error is larger, and the slot would be copied field by field.
        let alloc = *self.entries.allocator();
        if make_room(&mut self.entries).is_err() {
            return Err(NoMemory(slot));
        }
        let room = self.entries.capacity();
        match add_new_place(&mut self.index, alloc, &self.entries, room, slot.key.get()) {
            Ok(None) => {
                self.entries.push_reserved(slot);
                Ok(())
            }
            Ok(Some(_)) => Err(NoMemory(slot)),
            Err(_) => Err(NoMemory(slot)),
        }
    }

    /// Adds a slot after the others if its name is new. Looks the name up only once.
    ///
    /// # Errors
    ///
    /// Fails if a slot has the name already, or if the name is new and memory runs out. The slots
    /// then stay as they were, and the error returns the new one.
    #[inline(always)]
    pub fn try_push(&mut self, slot: Slot<T>) -> Result<(), Refused<Slot<T>>>
        ensures slots { OnOk result (self.new ≡ self.old ++ slot ∷ []) }
        ensures new { OnOk result (place slot.key.name self.old ≡ None) }
        ensures refused { IfErr result (IsRefusal slot (place slot.key.name self.old)) }
        ensures err { OnErr result (self.new ≡ self.old) }
    {
        let alloc = *self.entries.allocator();
        if make_room(&mut self.entries).is_err() {
            return Err(self.refusal(slot));
        }
        let room = self.entries.capacity();
        match add_new_place(&mut self.index, alloc, &self.entries, room, slot.key.get()) {
            Ok(None) => {
                self.entries.push_reserved(slot);
                Ok(())
            }
            Ok(Some(at)) => Err(Refused::Present(at, slot)),
            Err(_) => Err(Refused::NoMemory(slot)),
        }
    }

    /// Adds a slot of the key and the item after the others if the key's name is new, and leaves the
    /// default item in its place. Looks the name up only once.
    ///
    /// # Errors
    ///
    /// Fails with the place of the slot that has the name already, or with `None` if the name is
    /// new and memory runs out. The slots and the item then stay as they were, and the key is
    /// dropped.
    #[doc(hidden)]
    #[inline(always)]
    pub fn add(&mut self, key: Key, item: &mut T) -> Result<(), Option<usize>>
    where
        T: Default,
        ensures slots { OnOk result
            (self.new ≡ self.old ++ record { key = key; item = item.old } ∷ []) }
        ensures new { OnOk result (place key.name self.old ≡ None) }
        ensures refused { IfErr result (λ there. there ≡ place key.name self.old) }
        ensures err { OnErr result (self.new ≡ self.old) }
        ensures left { OnErr result (item.new ≡ item.old) }
    {
        // The slot is made only once it is sure to stay, so that no result has to hold it.
        let alloc = *self.entries.allocator();
        if make_room(&mut self.entries).is_err() {
            return Err(self.refused_key(key));
        }
        let room = self.entries.capacity();
        match add_new_place(&mut self.index, alloc, &self.entries, room, key.get()) {
            Ok(None) => {
                let item = mem::take(item);
                self.entries.push_reserved(Slot { key, item });
                Ok(())
            }
            Ok(there) => {
                drop(key);
                Err(there)
            }
            Err(_) => {
                drop(key);
                Err(None)
            }
        }
    }

    /// Returns the place of the slot that has the key's name, or `None` if the name is new. Drops
    /// the key.
    #[cold]
    #[inline(never)]
    fn refused_key(&self, key: Key) -> Option<usize>
        ensures { result ≡ place key.name self.now }
    {
        let there = self.find(key.get());
        drop(key);
        there
    }

    /// Returns the error for a slot for which there is no memory. Its name may be there already.
    #[cold]
    #[inline(never)]
    fn refusal(&self, slot: Slot<T>) -> Refused<Slot<T>>
        ensures { IsRefusal slot (place slot.key.name self.now) result }
    {
        match self.find(slot.key.get()) {
            Some(at) => Refused::Present(at, slot),
            None => Refused::NoMemory(slot),
        }
    }

    /// Inserts an item under a name, and returns the item that was there.
    ///
    /// A key that is there keeps its place, and loses its formatting. A new key goes after the
    /// others.
    ///
    /// # Errors
    ///
    /// Fails only if the name is new and memory runs out. The slots then stay as they were, and the
    /// error returns the item.
    pub fn insert(&mut self, text: &str, item: T) -> Result<Option<T>, NoMemory<T>>
        ensures old { IfOk result (λ old. old ≡ lookup text.now self.old) }
        ensures slots { OnOk result (self.new ≡ put text.now item self.old) }
        ensures seen { OnOk result (seen self.new ≡ inserted text.now item (seen self.old)) }
        ensures present { IsSome (place text.now self.old) → IsOk result }
        ensures back { IfErr result (λ refused. refused.0 ≡ item) }
        ensures err { OnErr result (self.new ≡ self.old) }
    {
        match self.find(text) {
            Some(at) => {
                let slot = &mut self.entries[at];
                slot.key.fmt();
                Ok(Some(mem::replace(&mut slot.item, item)))
            }
            None => {
                let Ok(key) = Key::from_text(*self.entries.allocator(), text) else {
                    return Err(NoMemory(item));
                };
                match self.push(Slot { key, item }) {
                    Ok(()) => Ok(None),
                    Err(refused) => Err(NoMemory(refused.0.into_item())),
                }
            }
        }
    }

    /// Removes the slot with the name, and returns it, or `None` if no slot has the name.
    ///
    /// The others keep their order.
    pub fn remove(&mut self, text: &str) -> Option<Slot<T>>
        ensures slot { result ≡ lookup_slot text.now self.old }
        ensures slots { self.new ≡ without text.now self.old }
        ensures seen { seen self.new ≡ without_seen text.now (seen self.old) }
        ensures absent { place text.now self.new ≡ None }
    {
        let at = self.find(text)?;
        close_gap(&mut self.index, &self.entries, text, at);
        Some(self.entries.remove(at))
    }

    /// Removes the slot at the place, and returns it. The others keep their order. Allocates
    /// nothing.
    pub fn remove_at(&mut self, at: usize) -> Slot<T>
        requires { at < length self.old }
        ensures slot { slice_get self.old at ≡ Some result }
        ensures slots { self.new ≡ remove self.old at }
        ensures seen { seen self.new ≡ without_seen result.key.name (seen self.old) }
    {
        close_gap(
            &mut self.index,
            &self.entries,
            self.entries[at].key.get(),
            at,
        );
        self.entries.remove(at)
    }

    /// Removes all slots.
    pub fn clear(&mut self)
    where
        T: Drop,
        ensures { self.new ≡ [] }
    {
        self.entries.clear();
        self.index = None;
    }

    /// Replaces the slot with the same name, and returns the old one.
    pub fn replace(&mut self, at: usize, slot: Slot<T>) -> Slot<T>
        requires { place slot.key.name self.old ≡ Some at }
        ensures slot { Some result ≡ slice_get self.old at }
        ensures slots { self.new ≡ replaced slot self.old }
    {
        mem::replace(&mut self.entries[at], slot)
    }

    /// Sorts the slots by where their keys begin in the source.
    ///
    /// Keys that were not in the source come first. Slots that are in order already take one pass.
    ///
    /// # Errors
    ///
    /// Fails only if memory runs out; the slots then stay as they were.
    pub fn sort_by_place(&mut self) -> Mem<()>
        ensures ok { OnOk result (self.new ≡ sorted_by by_place self.old) }
        ensures err { OnErr result (self.new ≡ self.old) }
    {
        if is_in_order(&self.entries) {
            return Ok(());
        }
        sort_entries(&mut self.entries)?;
        index_those(&mut self.index, &self.entries);
        Ok(())
    }

    /// Replaces the spans in the key at the place by the texts of `source` that they span.
    ///
    /// # Errors
    ///
    /// Fails only if memory runs out. Some of the spans may then be left, and the whole document
    /// must be dropped.
    #[doc(hidden)]
    pub fn despan_key(&mut self, at: usize, alloc: Global, source: &SharedText) -> Mem<()>
        requires at { at < length self.old }
        requires fits { ForSome (slice_get self.old at) (λ slot. KeyFits source.now slot.key) }
        requires spelled { ForSome (slice_get self.old at) (λ slot.
            ∥ HasTrueSpelling (SpellsKey slot.key.name) (option_map (owned_raw source.now) slot.key.spelling) ∥₁) }
        ensures names { names self.new ≡ names self.old }
        ensures items { items_of self.new ≡ items_of self.old }
        ensures ok { OnOk result (self.new ≡ on_key at (owned_key source.now) self.old) }
    {
        let spanned = &mut self.entries[at];
        spanned.key.despan(alloc, source)
    }

    /// Copies the texts of the key at the place that are parts of a document's source, so that it does
    /// not keep the source.
    ///
    /// # Errors
    ///
    /// Returns an `AllocError` if out of memory, and then may keep the source.
    #[doc(hidden)]
    pub fn detach_key(&mut self, at: usize, alloc: Global) -> Mem<()>
        requires { at < length self.old }
        ensures { self.new ≡ self.old }
    {
        let slot = &mut self.entries[at];
        slot.key.detach(alloc)
    }

    /// Returns a mutable reference to the decor that the key at the place has as the last key of a
    /// path.
    pub fn leaf_decor_mut(&mut self, at: usize) -> &mut Decor
        requires { at < length self.old }
        ensures* writes_back { sem 𝓛 (LendsLeafAt T.row self.entry at result) }
        ensures decor { option_map (λ slot. slot.key.leaf) (slice_get self.old at)
            ≡ Some result.now }
    {
        let slot = &mut self.entries[at];
        slot.key.leaf_decor_mut()
    }

    /// Returns a mutable reference to the decor that the key at the place has before a dot.
    pub fn dotted_decor_mut(&mut self, at: usize) -> &mut Decor
        requires { at < length self.old }
        ensures* writes_back { sem 𝓛 (LendsDottedAt T.row self.entry at result) }
        ensures decor { option_map (λ slot. slot.key.dotted) (slice_get self.old at)
            ≡ Some result.now }
    {
        let slot = &mut self.entries[at];
        slot.key.dotted_decor_mut()
    }

    /// Returns a mutable view of the key at the place. Its name cannot be changed.
    pub fn key_mut(&mut self, at: usize) -> KeyMut<'_>
        requires { at < length self.old }
        ensures* writes_back { sem 𝓛 (LendsKeyAt T.row self.entry at result) }
        ensures key { option_map (λ slot. slot.key) (slice_get self.old at) ≡ Some (key_of result) }
    {
        let slot = &mut self.entries[at];
        slot.key.as_mut()
    }

    /// Removes the formatting of the key at the place: its spelling and its decors.
    pub fn fmt_key(&mut self, at: usize)
        requires { at < length self.old }
        ensures { self.new ≡ on_key at reset_key self.old }
    {
        let slot = &mut self.entries[at];
        slot.key.fmt();
    }

    /// Removes the decors of the key at the place, which keeps its spelling. Allocates nothing.
    pub fn clear_decors(&mut self, at: usize)
        requires { at < length self.old }
        ensures { self.new ≡ on_key at cleared_key self.old }
    {
        let slot = &mut self.entries[at];
        clear_key(&mut slot.key);
    }
}

/// Makes room for one more slot. Fails only if memory runs out.
///
/// Where there is no slot yet, there is room for just one then: most tables of dotted keys and of
/// headers hold one.
fn make_room<T>(entries: &mut Vec<Slot<T>>) -> Mem<()>
    ensures items { entries.new.items ≡ entries.old.items }
    ensures len { vec_len entries.new ≡ vec_len entries.old }
    ensures ok { OnOk result (vec_len entries.new < vec_capacity entries.new) }
{
    if entries.is_empty() {
        return entries.reserve_exact(1);
    }
    entries.reserve(1)
}

/// Removes the decors of a key.
fn clear_key(key: &mut Key)
    ensures { key.new ≡ cleared_key key.old }
{
    key.leaf_decor_mut().clear();
    key.dotted_decor_mut().clear();
}
