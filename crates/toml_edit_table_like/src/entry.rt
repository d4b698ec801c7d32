//! An entry: the slot of a key in a table of either kind, or the place for a new one.
use crate::HasSlots;
use crate::put::{find_or_add, find_or_add_key};
use toml_edit_key::Key;
use toml_edit_slots::NoMemory;
use toml_edit_tree::Item;

/// The key of an entry: a name alone, or a key with its spelling and its decor.
#[derive(Clone, Copy)]
pub(crate) enum EntryKey<'a> {
    Text(&'a str),
    Formatted(&'a Key),
}

/// The slot of a key in a table of either kind, or the place for a new one at the end.
///
/// Returned by [`AnyTable::entry`](crate::AnyTable::entry) and
/// [`AnyTable::entry_format`](crate::AnyTable::entry_format). It borrows the key, and copies it
/// when a new slot is added.
///
/// # Examples
///
/// ```rust,ignore
/// !table.entry(key).is_occupied()
/// ```
///
/// From `is_new` of the crate `example_calls`.
#[derive(Drop)]
pub struct TableLikeEntry<'a, T: HasSlots> {
    pub(crate) table: &'a mut T,
    pub(crate) key: EntryKey<'a>,
}

impl<'a, T: HasSlots> TableLikeEntry<'a, T> {
    ghost use Rattle.std.specs.Borrow.{sem};
    ghost use Rattle.std.specs.Option.{unwrap_or, UnwrapsOrElse};
    ghost use Rattle.std.specs.Prelude.{◌≡◌, ◌<◌, IfErr, IfOk, IfSome, IsOk, IsTrue, None, OnErr, Some, length, option_map};
    ghost use Rattle.toml_edit_model.specs.Slots.{place as place_seen, AreApart};
    ghost use Rattle.toml_edit_slots.specs.Slots.{place};
    ghost use Rattle.toml_edit_table_like.specs.Entries.{entry_key, entry_ref, is_occupied, item_at, item_of, with_table, EntryLends, IsViewOf};
    ghost use Rattle.toml_edit_table_like.specs.Lending.{with_item_at};
    ghost use Rattle.toml_edit_table_like.specs.Putting.{with_item_put, KeepsBeside, ShowsItemPut};
    ghost use Rattle.toml_edit_tree.specs.View.{item_view};
    ghost use Rattle.toml_edit_tree.specs.declared.item.Item.{Item};

    /// Returns the name of the key, present or new.
    pub fn key(&self) -> &str
        ensures { result.now ≡ (entry_key self.now).name }
    {
        match self.key {
            EntryKey::Text(text) => text,
            EntryKey::Formatted(key) => key.get(),
        }
    }

    /// Returns `true` if the key has a slot, which may be a placeholder.
    pub fn is_occupied(&self) -> bool
        ensures { result ≡ is_occupied T.slots_of self.now }
    {
        self.find().is_some()
    }

    /// Returns the item of the key, a placeholder too, or `None` if the key is missing.
    pub fn get(&self) -> Option<&Item>
        ensures { option_map (λ x. item_view x.now) result ≡ item_of T.slots_of self.now }
    {
        self.table.as_slots().get(self.key())
    }

    /// Returns a mutable reference to the item of the key, after inserting `item` if the key is
    /// missing.
    ///
    /// An existing item stays, a placeholder too, and `item` is dropped. A new key is added at the
    /// end. In an inline table no item is made a value.
    ///
    /// # Errors
    ///
    /// Returns a [`NoMemory`] with `item` if out of memory. An existing key takes no memory.
    pub fn or_insert(&mut self, item: Item) -> Result<&mut Item, NoMemory<Item>>
        ensures* writes_back { sem 𝓛 (EntryLends T.row T.entries T.with_entries self.entry result) }
        ensures item { IfOk result
            (λ lent. item_view lent.now
            ≡ unwrap_or (item_of T.slots_of self.old) (item_view item)) }
        // What the table is after a write through the reference.
        ensures leaves { ShowsItemPut T.slots_of T.entries T.with_entries (entry_key self.old)
            (entry_ref self.old).now }
        ensures keeps { KeepsBeside T.beside T.entries T.with_entries (entry_key self.old)
            (entry_ref self.old).now }
        ensures present { IsTrue (is_occupied T.slots_of self.old) → IsOk result }
        ensures back { IfErr result (λ refused. refused.0 ≡ item) }
    {
        match self.find_or_add(item) {
            Ok(at) => Ok(self.table.item_at_mut(at)),
            Err(refused) => Err(refused),
        }
    }

    /// Returns a mutable reference to the item of the key, after inserting the result of `default`
    /// if the key is missing.
    ///
    /// The closure is called only then. An existing item stays, a placeholder too. A new key is
    /// added at the end.
    ///
    /// # Errors
    ///
    /// Returns a [`NoMemory`] with the result of `default` if out of memory. An existing key takes
    /// no memory.
    pub fn or_insert_with<F: FnOnce() -> Item>(
        &mut self,
        default: F,
    ) -> Result<&mut Item, NoMemory<Item>>
    where
        F: Drop,
        requires { item_of T.slots_of self.old ≡ None → F.pre default }
        ensures* writes_back { sem 𝓛 (EntryLends T.row T.entries T.with_entries self.entry result) }
        ensures item { IfOk result
            (λ lent. UnwrapsOrElse (item_of T.slots_of self.old)
            (IsViewOf (F.post default)) (item_view lent.now)) }
        // What the table is after a write through the reference.
        ensures leaves { ShowsItemPut T.slots_of T.entries T.with_entries (entry_key self.old)
            (entry_ref self.old).now }
        ensures keeps { KeepsBeside T.beside T.entries T.with_entries (entry_key self.old)
            (entry_ref self.old).now }
        ensures present { IsTrue (is_occupied T.slots_of self.old) → IsOk result }
        ensures back { IfErr result (λ refused. F.post default refused.0) }
    {
        match self.find_or_add_with(default) {
            Ok(at) => Ok(self.table.item_at_mut(at)),
            Err(refused) => Err(refused),
        }
    }

    /// Finds the slot of the key.
    fn find(&self) -> Option<usize>
        ensures place { result
            ≡ place (entry_key self.now).name (T.entries (entry_ref self.now).now) }
        ensures there { result
            ≡ place_seen (entry_key self.now).name (T.slots_of (entry_ref self.now).now) }
        ensures within { IfSome result (λ at. at < length (T.entries (entry_ref self.now).now)) }
        ensures apart { AreApart (T.slots_of (entry_ref self.now).now) }
    {
        self.table.place_of(self.key())
    }

    /// Finds the slot of the key, after adding one with `item` if the key is missing.
    fn find_or_add(&mut self, item: Item) -> Result<usize, NoMemory<Item>>
        ensures same { self.new ≡ with_table (entry_ref self.new).now self.old }
        ensures within { IfOk result (λ at. at < length (T.entries (entry_ref self.new).now)) }
        ensures item { IfOk result
            (λ at. option_map item_view (item_at T.entries self.new at)
            ≡ Some (unwrap_or (item_of T.slots_of self.old) (item_view item))) }
        ensures rest { IfOk result
            (λ at. (w : Item) → with_item_at T.entries T.with_entries at w (entry_ref self.new).now
            ≡ with_item_put T.entries T.with_entries (entry_key self.old) w
            (entry_ref self.old).now) }
        ensures leaves { ShowsItemPut T.slots_of T.entries T.with_entries (entry_key self.old)
            (entry_ref self.old).now }
        ensures present { IsTrue (is_occupied T.slots_of self.old) → IsOk result }
        ensures back { IfErr result (λ refused. refused.0 ≡ item) }
        ensures err { OnErr result ((entry_ref self.new).now ≡ (entry_ref self.old).now) }
    {
        match self.key {
            EntryKey::Text(key) => find_or_add(self.table.as_slots_mut(), key, item),
            EntryKey::Formatted(key) => find_or_add_key(self.table.as_slots_mut(), key, item),
        }
    }

    /// Finds the slot of the key, after adding one with the result of `default` if the key is
    /// missing.
    fn find_or_add_with<F: FnOnce() -> Item>(&mut self, default: F) -> Result<usize, NoMemory<Item>>
    where
        F: Drop,
        requires { item_of T.slots_of self.old ≡ None → F.pre default }
        ensures same { self.new ≡ with_table (entry_ref self.new).now self.old }
        ensures within { IfOk result (λ at. at < length (T.entries (entry_ref self.new).now)) }
        ensures item { IfOk result
            (λ at. IfSome (item_at T.entries self.new at)
            (λ x. UnwrapsOrElse (item_of T.slots_of self.old)
            (IsViewOf (F.post default)) (item_view x))) }
        ensures rest { IfOk result
            (λ at. (w : Item) → with_item_at T.entries T.with_entries at w (entry_ref self.new).now
            ≡ with_item_put T.entries T.with_entries (entry_key self.old) w
            (entry_ref self.old).now) }
        ensures leaves { ShowsItemPut T.slots_of T.entries T.with_entries (entry_key self.old)
            (entry_ref self.old).now }
        ensures present { IsTrue (is_occupied T.slots_of self.old) → IsOk result }
        ensures back { IfErr result (λ refused. F.post default refused.0) }
        ensures err { OnErr result ((entry_ref self.new).now ≡ (entry_ref self.old).now) }
    {
        match self.find() {
            Some(at) => {
                drop(default);
                Ok(at)
            }
            None => self.find_or_add(default()),
        }
    }
}
