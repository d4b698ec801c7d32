//! A table of a program's own that is a `TableLike`, written with what `toml_edit` gives out.
ghost use Rattle.std.specs.Prelude.{None};
ghost use Rattle.std.proofs.Common.{refl, ap};
ghost use Rattle.toml_edit.specs.table_like.Kinds.{table_beside, table_entries, table_keeps, table_shows, table_stays, table_takes};
ghost use Rattle.toml_edit.specs.tree.ContainerParts.{table_holding};
ghost use Rattle.toml_edit.specs.tree.SlotsOf.{slots_of as table_slots_of};

use crate::holding::{holds_changed, is_text};
use std::alloc::Global;
use std::mem;
use toml_edit::{
    AnyTable, HasSlots, Item, Key, Mem, NoMemory, RawString, Slots, Table, TableLike,
    TableLikeSlot, Value, value,
};

/// A table with a label.
#[derive(Drop)]
pub struct Labelled {
    /// The label.
    pub label: u8,
    /// The table.
    pub table: Table,
}

impl HasSlots for Labelled {
    ghost slots_of = { λ m. table_slots_of m.table };

    ghost beside = { λ m. table_beside m.table };

    ghost entries = { λ m. table_entries m.table };

    ghost with_entries = { λ es m. record m { table = table_holding es m.table } };

    ghost shows = { λ m. table_shows m.table };

    ghost takes = { λ es m. table_takes es m.table };

    ghost keeps = { λ es m. table_keeps es m.table };

    ghost again = { λ es fs m. refl };

    ghost stays = { λ m. ap (λ t. record m { table = t }) (table_stays m.table) };

    ghost origin = { λ m. None };

    ghost holds = { λ es m. refl };

    fn as_slots(&self) -> &Slots<Item> {
        self.table.as_slots()
    }

    fn as_slots_mut(&mut self) -> &mut Slots<Item> {
        self.table.as_slots_mut()
    }
}

impl AnyTable for Labelled {
    fn contains_key(&self, key: &str) -> bool {
        AnyTable::contains_key(&self.table, key)
    }

    fn get_values(&self, alloc: Global) -> Mem<Vec<(Vec<&Key>, &Value)>> {
        AnyTable::get_values(&self.table, alloc)
    }

    fn is_dotted(&self) -> bool {
        AnyTable::is_dotted(&self.table)
    }

    fn set_dotted(&mut self, dotted: bool) {
        AnyTable::set_dotted(&mut self.table, dotted);
    }

    fn insert(&mut self, key: &str, item: Item) -> Result<Option<Item>, NoMemory<Item>> {
        AnyTable::insert(&mut self.table, key, item)
    }

    fn remove(&mut self, key: &str) -> Option<Item> {
        AnyTable::remove(&mut self.table, key)
    }

    fn fmt(&mut self) {
        AnyTable::fmt(&mut self.table);
    }

    fn sort_values(&mut self) -> Mem<()> {
        AnyTable::sort_values(&mut self.table)
    }
}

impl TableLike for Labelled {
    fn get_key_value_mut(&mut self, key: &str) -> Option<TableLikeSlot<'_, Labelled>> {
        match self.filled_place_of(key) {
            Some(at) => Some(self.slot_at(at)),
            None => None,
        }
    }

    fn slot_mut(&mut self, key: &str) -> Option<TableLikeSlot<'_, Labelled>> {
        match self.place_of(key) {
            Some(at) => Some(self.slot_at(at)),
            None => None,
        }
    }

    fn key_value_at_mut(&mut self, at: usize) -> Option<TableLikeSlot<'_, Labelled>> {
        if self.has_place(at) {
            Some(self.slot_at(at))
        } else {
            None
        }
    }
}

/// Returns `true` if a table of any kind has this integer under the key.
fn has<T: TableLike>(table: &T, key: &str, integer: i64) -> bool {
    table.get(key).and_then(Item::as_integer) == Some(integer)
}

fn inserts(labelled: &mut Labelled) -> bool {
    match labelled.insert("a", value(1)) {
        Ok(old) => old.is_none() && labelled.len() == 1 && has(labelled, "a", 1),
        Err(_) => false,
    }
}

fn replaces(labelled: &mut Labelled) -> bool {
    if let Some(item) = labelled.get_mut("a") {
        drop(mem::replace(item, value(2)));
    }
    has(labelled, "a", 2)
}

fn comments(labelled: &mut Labelled, comment: RawString) -> bool {
    if let Some(key) = labelled.key_mut("a") {
        let mut key = key;
        key.leaf_decor_mut().set_prefix(comment);
        return true;
    }
    false
}

fn is_like_a_table(alloc: Global, labelled: &mut Labelled) -> bool {
    let is_commented = match RawString::from_text(alloc, "# one\n") {
        Ok(comment) => inserts(labelled) && comments(labelled, comment),
        Err(_) => false,
    };
    let is_changed = is_commented
        && is_text(labelled.table.to_string(alloc), "# one\na = 1\n")
        && replaces(labelled)
        && is_text(labelled.table.to_string(alloc), "# one\na = 2\n");
    labelled.clear();
    is_changed && labelled.is_empty() && labelled.label == 7
}

#[test]
fn a_table_with_a_label_is_like_a_table(rt: HostRuntime) {
    let labelled = Labelled {
        label: 7,
        table: Table::new(rt.alloc()),
    };
    assert!(rt; holds_changed(rt.alloc(), labelled, is_like_a_table));
}
