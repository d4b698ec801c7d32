//! `AnyTable` of a `TableRefMut`.
ghost use Rattle.std.specs.Prelude.{◌≡◌};
ghost use Rattle.toml_edit_table_like.specs.MutRefs.{mut_node, mut_slots};
ghost use Rattle.toml_edit_table_like.specs.Refs.{ref_node, ref_slots};

use super::TableRefMut;
use super::change::{format_in, insert_in, remove_in, set_dotted_in, sort_in};
use super::made_of::own_slots_mut;
use crate::put::{find_or_add, find_or_add_key};
use crate::{AnyTable, AsTableLike, HasSlots, TableRef};
use std::alloc::Global;
use toml_edit_key::Key;
use toml_edit_repr::Mem;
use toml_edit_slots::NoMemory;
use toml_edit_tree::{Item, Value, filled_place};

impl<'a> TableRefMut<'a> {
    /// Returns a shared reference to the table.
    pub fn as_table_ref(&self) -> TableRef<'_>
        ensures node { ref_node result ≡ mut_node self.now }
        ensures slots { ref_slots result ≡ mut_slots self.now }
    {
        match self.item.as_table_like() {
            Some(table) => table,
            None => unreachable!(),
        }
    }
}

impl<'a> AnyTable for TableRefMut<'a> {
    fn get_mut(&mut self, key: &str) -> Option<&mut Item> {
        match filled_place(self.as_slots(), key) {
            Some(at) => {
                let slots = own_slots_mut(self.item);
                Some(slots.item_mut(at))
            }
            None => None,
        }
    }

    fn or_insert(&mut self, key: &str, item: Item) -> Result<&mut Item, NoMemory<Item>> {
        let slots = own_slots_mut(self.item);
        match find_or_add(slots, key, item) {
            Ok(at) => Ok(slots.item_mut(at)),
            Err(refused) => Err(refused),
        }
    }

    fn or_insert_format(&mut self, key: &Key, item: Item) -> Result<&mut Item, NoMemory<Item>> {
        let slots = own_slots_mut(self.item);
        match find_or_add_key(slots, key, item) {
            Ok(at) => Ok(slots.item_mut(at)),
            Err(refused) => Err(refused),
        }
    }

    fn contains_key(&self, key: &str) -> bool {
        self.as_table_ref().contains_key(key)
    }

    fn get_values(&self, alloc: Global) -> Mem<Vec<(Vec<&Key>, &Value)>> {
        self.as_table_ref().get_values(alloc)
    }

    fn is_dotted(&self) -> bool {
        self.as_table_ref().is_dotted()
    }

    fn set_dotted(&mut self, dotted: bool) {
        set_dotted_in(self.item, dotted);
    }

    fn insert(&mut self, key: &str, item: Item) -> Result<Option<Item>, NoMemory<Item>> {
        insert_in(self.item, key, item)
    }

    fn remove(&mut self, key: &str) -> Option<Item> {
        remove_in(self.item, key)
    }

    fn fmt(&mut self) {
        format_in(self.item);
    }

    fn sort_values(&mut self) -> Mem<()> {
        sort_in(self.item)
    }
}
