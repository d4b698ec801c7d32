//! Sorts of a table and of the dotted tables inside it.
ghost use Rattle.std.specs.Prelude.{◌≡◌, IsPermutation, OnErr, OnOk};
ghost use Rattle.toml_edit_model.specs.Lists.{is_dotted_table, slots_from};
ghost use Rattle.toml_edit_model.specs.Sorting.{IsDeepReorder, IsDeepSort, ReordersItem, name_lt, sorted_slots};
ghost use Rattle.toml_edit_slots.specs.Seen.{seen, slot_seen};
ghost use Rattle.toml_edit_tree.specs.Containers.{table_node};
ghost use Rattle.toml_edit_tree.specs.SlotsOf.{slots_of};
ghost use Rattle.toml_edit_tree.specs.Sorts.{AnswersItems, SortsDeeplyAs, SortsItemAs, SortsItemsAs, SortsTableAs, items_seen};
ghost use Rattle.toml_edit_tree.specs.View.{fields_view, item_view, table_view};

use crate::item::Item;
use crate::table::Table;
use std::cmp::Ordering;
use toml_edit_key::Key;
use toml_edit_repr::Mem;
use toml_edit_slots::{Slot, Slots};

impl Table {
    /// Sorts the slots by the bytes of the names of their keys, and those of dotted tables inside
    /// likewise.
    ///
    /// Each slot moves with its decors. Tables inside that have a header keep their order of slots.
    /// Headers that have a position are printed by that, whatever the order of slots.
    ///
    /// # Errors
    ///
    /// Returns an `AllocError` if out of memory. Some of the tables may be sorted then and others
    /// not, but no slot is lost.
    pub fn sort_values(&mut self) -> Mem<()>
        ensures reorders { IsDeepReorder is_dotted_table (slots_of self.old) (slots_of self.new) }
        ensures sorted { OnOk result
            (IsDeepSort is_dotted_table name_lt (slots_of self.old) (slots_of self.new)) }
        // The order of names is a lawful one, so exactly one list is in order.
        ensures in_order { OnOk result
            (slots_of self.new ≡ sorted_slots is_dotted_table (slots_from (slots_of self.old))) }
        ensures fields { fields_view self.new ≡ fields_view self.old }
    {
        sort_slots(
            &mut self.slots,
            &|key: &Key, _: &Item, other: &Key, _: &Item| key.cmp(other),
        )
    }

    /// Sorts the slots by `compare`, and those of dotted tables inside likewise. The sort is
    /// stable.
    ///
    /// The closure is passed the key and the item of two slots, and sees placeholders as
    /// `Item::None`. Where the closure is not a strict weak order, the order is any.
    ///
    /// # Errors
    ///
    /// Returns an `AllocError` if out of memory. Some of the tables may be sorted then and others
    /// not, but no slot is lost.
    pub fn sort_values_by<F: Fn(&Key, &Item, &Key, &Item) -> Ordering>(
        &mut self,
        compare: F,
    ) -> Mem<()>
    where
        F: Drop,
        requires { F.IsAlwaysCallable compare }
        ensures reorders { IsDeepReorder is_dotted_table (slots_of self.old) (slots_of self.new) }
        ensures sorted { OnOk result
            (SortsTableAs F.FnMut compare (slots_of self.old) (slots_of self.new)) }
        ensures fields { fields_view self.new ≡ fields_view self.old }
    {
        sort_slots(&mut self.slots, &compare)
    }
}

/// Sorts these slots, and those of dotted tables inside. On an error some tables may be sorted.
#[cycle(sort)]
fn sort_slots<F: Fn(&Key, &Item, &Key, &Item) -> Ordering>(
    slots: &mut Slots<Item>,
    compare: &F,
) -> Mem<()>
    requires { F.IsAlwaysCallable compare.now }
    ensures reorders { IsDeepReorder is_dotted_table (items_seen slots.old) (items_seen slots.new) }
    ensures sorted { OnOk result
        (SortsDeeplyAs is_dotted_table F.FnMut compare.now (items_seen slots.old)
        (items_seen slots.new)) }
{
    sort_items(slots, compare)?;
    for at in 0..slots.len() {
        let item = slots.item_mut(at);
        sort_item(item, compare)?;
    }
    Ok(())
}

/// Sorts the slots of the item, if it is a dotted table.
#[cycle(sort)]
fn sort_item<F: Fn(&Key, &Item, &Key, &Item) -> Ordering>(item: &mut Item, compare: &F) -> Mem<()>
    requires { F.IsAlwaysCallable compare.now }
    ensures reorders { ReordersItem is_dotted_table IsPermutation (item_view item.old)
        (item_view item.new) }
    ensures sorted { OnOk result
        (SortsItemAs is_dotted_table F.FnMut compare.now (item_view item.old)
        (item_view item.new)) }
{
    match item {
        Item::None => Ok(()),
        Item::Value(_) => Ok(()),
        Item::Table(table) => sort_table(table, compare),
        Item::ArrayOfTables(_) => Ok(()),
    }
}

/// Sorts the slots of the table, if it is dotted.
#[cycle(sort)]
fn sort_table<F: Fn(&Key, &Item, &Key, &Item) -> Ordering>(
    table: &mut Table,
    compare: &F,
) -> Mem<()>
    requires { F.IsAlwaysCallable compare.now }
    ensures reorders { ReordersItem is_dotted_table IsPermutation
        (table_node (table_view table.old)) (table_node (table_view table.new)) }
    ensures sorted { OnOk result
        (SortsItemAs is_dotted_table F.FnMut compare.now (table_node (table_view table.old))
        (table_node (table_view table.new))) }
{
    if table.is_dotted() {
        sort_slots(&mut table.slots, compare)
    } else {
        Ok(())
    }
}

/// Sorts these slots, and none inside.
pub(crate) fn sort_items<F: Fn(&Key, &Item, &Key, &Item) -> Ordering>(
    slots: &mut Slots<Item>,
    compare: &F,
) -> Mem<()>
    requires { F.IsAlwaysCallable compare.now }
    ensures permutation { IsPermutation (seen slots.old) (seen slots.new) }
    ensures sorted { OnOk result
        (SortsItemsAs F.FnMut compare.now (items_seen slots.old) (items_seen slots.new)) }
    ensures err { OnErr result (slots.new ≡ slots.old) }
{
    slots.sort_by(
        |one: &Slot<Item>, other: &Slot<Item>| -> Ordering
            requires { F.IsAlwaysCallable compare.now }
            ensures { AnswersItems F.FnMut compare.entry.now (slot_seen item_view one.now)
                (slot_seen item_view other.now) result }
        { compare(&one.key, &one.item, &other.key, &other.item) },
    )
}
