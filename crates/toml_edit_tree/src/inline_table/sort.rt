//! Sorting the slots of an inline table and of the dotted inline tables inside it.
ghost use Rattle.std.specs.Prelude.{◌≡◌, IsPermutation, OnOk};
ghost use Rattle.toml_edit_model.specs.Lists.{is_dotted_inline, slots_from};
ghost use Rattle.toml_edit_model.specs.Sorting.{IsDeepReorder, IsDeepSort, ReordersItem, name_lt, sorted_slots};
ghost use Rattle.toml_edit_tree.specs.Containers.{inline_node};
ghost use Rattle.toml_edit_tree.specs.InlineSlots.{inline_fields};
ghost use Rattle.toml_edit_tree.specs.SlotsOf.{inline_slots_of, slot_taken};
ghost use Rattle.toml_edit_tree.specs.Sorts.{AnswersPairs, SortsDeeplyAs, SortsInlineAs, SortsItemAs, items_seen};
ghost use Rattle.toml_edit_tree.specs.View.{inline_view, item_view, value_view};

use crate::inline_table::InlineTable;
use crate::item::Item;
use crate::sort::sort_items;
use crate::value::Value;
use std::cmp::Ordering;
use toml_edit_key::Key;
use toml_edit_repr::Mem;
use toml_edit_slots::Slots;

impl InlineTable {
    /// Sorts the slots by the bytes of the names of their keys, and those of dotted inline tables
    /// inside likewise.
    ///
    /// Each slot moves with its decors, so its comments and its line break move too. Inline tables
    /// in braces inside keep their order of slots.
    ///
    /// # Errors
    ///
    /// Returns an `AllocError` if out of memory. Some of the inline tables may be sorted then and
    /// others not, but no slot is lost.
    pub fn sort_values(&mut self) -> Mem<()>
        ensures reorders { IsDeepReorder is_dotted_inline (inline_slots_of self.old)
            (inline_slots_of self.new) }
        ensures sorted { OnOk result
            (IsDeepSort is_dotted_inline name_lt (inline_slots_of self.old)
            (inline_slots_of self.new)) }
        // The order of names is a lawful one, so exactly one list is in order.
        ensures in_order { OnOk result
            (inline_slots_of self.new
            ≡ sorted_slots is_dotted_inline (slots_from (inline_slots_of self.old))) }
        ensures fields { inline_fields self.new ≡ inline_fields self.old }
    {
        sort_slots(
            &mut self.items,
            &|key: &Key, _: &Item, other: &Key, _: &Item| key.cmp(other),
        )
    }

    /// Sorts the slots by `compare`, and those of dotted inline tables inside likewise. The sort is
    /// stable.
    ///
    /// The closure is passed the key and the value of two slots. Slots without a value come first.
    /// Where the closure is not a strict weak order, the order is any.
    ///
    /// # Errors
    ///
    /// Returns an `AllocError` if out of memory. Some of the inline tables may be sorted then and
    /// others not, but no slot is lost.
    pub fn sort_values_by<F: Fn(&Key, &Value, &Key, &Value) -> Ordering>(
        &mut self,
        compare: F,
    ) -> Mem<()>
    where
        F: Drop,
        requires { F.IsAlwaysCallable compare }
        ensures reorders { IsDeepReorder is_dotted_inline (inline_slots_of self.old)
            (inline_slots_of self.new) }
        ensures sorted { OnOk result
            (SortsInlineAs F.FnMut compare (inline_slots_of self.old) (inline_slots_of self.new)) }
        ensures fields { inline_fields self.new ≡ inline_fields self.old }
    {
        sort_slots(
            &mut self.items,
            &|key: &Key, item: &Item, other_key: &Key, other: &Item| -> Ordering
                requires { F.IsAlwaysCallable compare }
                ensures { AnswersPairs F.FnMut compare (slot_taken (key.now, item.now))
                    (slot_taken (other_key.now, other.now)) result }
            { compare_values(key, item, other_key, other, &compare) },
        )
    }
}

/// Compares two slots by the closure where both have a value. One without a value is less.
pub(crate) fn compare_values<F: Fn(&Key, &Value, &Key, &Value) -> Ordering>(
    key: &Key,
    item: &Item,
    other_key: &Key,
    other: &Item,
    compare: &F,
) -> Ordering
    requires { F.IsAlwaysCallable compare.now }
    ensures { AnswersPairs F.FnMut compare.now (slot_taken (key.now, item.now))
        (slot_taken (other_key.now, other.now)) result }
{
    match (item.as_value(), other.as_value()) {
        (Some(value), Some(other_value)) => compare(key, value, other_key, other_value),
        (Some(_), None) => Ordering::Greater,
        (None, Some(_)) => Ordering::Less,
        (None, None) => Ordering::Equal,
    }
}

/// Sorts these slots, and those of dotted inline tables inside. On an error some may be sorted.
#[cycle(sort)]
pub(crate) fn sort_slots<F: Fn(&Key, &Item, &Key, &Item) -> Ordering>(
    slots: &mut Slots<Item>,
    compare: &F,
) -> Mem<()>
    requires { F.IsAlwaysCallable compare.now }
    ensures reorders { IsDeepReorder is_dotted_inline (items_seen slots.old)
        (items_seen slots.new) }
    ensures sorted { OnOk result
        (SortsDeeplyAs is_dotted_inline F.FnMut compare.now (items_seen slots.old)
        (items_seen slots.new)) }
{
    sort_items(slots, compare)?;
    for at in 0..slots.len() {
        let item = slots.item_mut(at);
        sort_item(item, compare)?;
    }
    Ok(())
}

/// Sorts the slots of the item, if it is a dotted inline table.
#[cycle(sort)]
fn sort_item<F: Fn(&Key, &Item, &Key, &Item) -> Ordering>(item: &mut Item, compare: &F) -> Mem<()>
    requires { F.IsAlwaysCallable compare.now }
    ensures reorders { ReordersItem is_dotted_inline IsPermutation (item_view item.old)
        (item_view item.new) }
    ensures sorted { OnOk result
        (SortsItemAs is_dotted_inline F.FnMut compare.now (item_view item.old)
        (item_view item.new)) }
{
    match item {
        Item::None => Ok(()),
        Item::Value(value) => sort_value(value, compare),
        Item::Table(_) => Ok(()),
        Item::ArrayOfTables(_) => Ok(()),
    }
}

/// Sorts the slots of the value, if it is a dotted inline table.
#[cycle(sort)]
fn sort_value<F: Fn(&Key, &Item, &Key, &Item) -> Ordering>(
    value: &mut Value,
    compare: &F,
) -> Mem<()>
    requires { F.IsAlwaysCallable compare.now }
    ensures reorders { ReordersItem is_dotted_inline IsPermutation (value_view value.old)
        (value_view value.new) }
    ensures sorted { OnOk result
        (SortsItemAs is_dotted_inline F.FnMut compare.now (value_view value.old)
        (value_view value.new)) }
{
    match value {
        Value::String(_) => Ok(()),
        Value::Integer(_) => Ok(()),
        Value::Float(_) => Ok(()),
        Value::Boolean(_) => Ok(()),
        Value::Datetime(_) => Ok(()),
        Value::Array(_) => Ok(()),
        Value::InlineTable(table) => sort_inline(table, compare),
    }
}

/// Sorts the slots of the inline table, if it is dotted.
#[cycle(sort)]
fn sort_inline<F: Fn(&Key, &Item, &Key, &Item) -> Ordering>(
    table: &mut InlineTable,
    compare: &F,
) -> Mem<()>
    requires { F.IsAlwaysCallable compare.now }
    ensures reorders { ReordersItem is_dotted_inline IsPermutation
        (inline_node (inline_view table.old)) (inline_node (inline_view table.new)) }
    ensures sorted { OnOk result
        (SortsItemAs is_dotted_inline F.FnMut compare.now (inline_node (inline_view table.old))
        (inline_node (inline_view table.new))) }
{
    if table.is_dotted() {
        sort_slots(&mut table.items, compare)
    } else {
        Ok(())
    }
}
