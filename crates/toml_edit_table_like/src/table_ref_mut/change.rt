//! The calls that change an item which is a table of either kind.
ghost use Rattle.std.specs.Prelude.{◌≡◌, true, IfErr, IfOk, IsOk, IsTrue, OnErr, OnOk, is_some, option_map};
ghost use Rattle.toml_edit_model.specs.Conversions.{formatted};
ghost use Rattle.toml_edit_model.specs.Lists.{slots_from};
ghost use Rattle.toml_edit_model.specs.Slots.{has_slot, without};
ghost use Rattle.toml_edit_model.specs.Sorting.{IsDeepReorder, sorted_slots};
ghost use Rattle.toml_edit_model.specs.TableLike.{like_inserted, like_old, LikeSorted};
ghost use Rattle.toml_edit_table_like.specs.InItems.{beside_in, entries_in, slots_seen};
ghost use Rattle.toml_edit_table_like.specs.Kinds.{differences_of, with_dotted};
ghost use Rattle.toml_edit_tree.specs.View.{item_view};

use crate::AnyTable;
use toml_edit_repr::Mem;
use toml_edit_slots::NoMemory;
use toml_edit_tree::Item;

/// Inserts the item under the key, as `AnyTable::insert` does.
pub(crate) fn insert_in(
    table: &mut Item,
    key: &str,
    item: Item,
) -> Result<Option<Item>, NoMemory<Item>>
    requires table { is_some (entries_in table.old) ≡ true }
    requires takes { (differences_of (beside_in table.old)).insertion.takes (item_view item)
        ≡ true }
    ensures old { IfOk result
        (λ old. option_map item_view old
        ≡ like_old (differences_of (beside_in table.old)) key.now (slots_seen table.old)) }
    ensures slots { OnOk result
        (slots_seen table.new
        ≡ like_inserted (differences_of (beside_in table.old)) key.now (item_view item)
        (slots_seen table.old)) }
    ensures present { IsTrue (has_slot key.now (slots_seen table.old)) → IsOk result }
    ensures beside { beside_in table.new ≡ beside_in table.old }
    ensures back { IfErr result (λ refused. refused.0 ≡ item) }
    ensures err { OnErr result (slots_seen table.new ≡ slots_seen table.old) }
    ensures stays { is_some (entries_in table.new) ≡ true }
{
    match table.as_table_mut() {
        Some(lent) => AnyTable::insert(lent, key, item),
        None => match table.as_inline_table_mut() {
            Some(lent) => AnyTable::insert(lent, key, item),
            None => unreachable!(),
        },
    }
}

/// Removes the slot of the key, as `AnyTable::remove` does.
pub(crate) fn remove_in(table: &mut Item, key: &str) -> Option<Item>
    requires { is_some (entries_in table.old) ≡ true }
    ensures item { option_map item_view result
        ≡ like_old (differences_of (beside_in table.old)) key.now (slots_seen table.old) }
    ensures slots { slots_seen table.new ≡ without key.now (slots_seen table.old) }
    ensures beside { beside_in table.new ≡ beside_in table.old }
    ensures stays { is_some (entries_in table.new) ≡ true }
{
    match table.as_table_mut() {
        Some(lent) => AnyTable::remove(lent, key),
        None => match table.as_inline_table_mut() {
            Some(lent) => AnyTable::remove(lent, key),
            None => unreachable!(),
        },
    }
}

/// Unsets the decor of each value and of its key.
pub(crate) fn format_in(table: &mut Item)
    requires { is_some (entries_in table.old) ≡ true }
    ensures slots { slots_seen table.new ≡ formatted (slots_seen table.old) }
    ensures beside { beside_in table.new ≡ beside_in table.old }
    ensures stays { is_some (entries_in table.new) ≡ true }
{
    match table.as_table_mut() {
        Some(lent) => AnyTable::fmt(lent),
        None => match table.as_inline_table_mut() {
            Some(lent) => AnyTable::fmt(lent),
            None => unreachable!(),
        },
    }
}

/// Sorts the slots by name, as `AnyTable::sort_values` does.
pub(crate) fn sort_in(table: &mut Item) -> Mem<()>
    requires { is_some (entries_in table.old) ≡ true }
    ensures reorders { IsDeepReorder (differences_of (beside_in table.old)).enters
        (slots_seen table.old) (slots_seen table.new) }
    ensures sorted { OnOk result
        (LikeSorted (differences_of (beside_in table.old)) (slots_seen table.old)
        (slots_seen table.new)) }
    ensures in_order { OnOk result
        (slots_seen table.new
        ≡ sorted_slots (differences_of (beside_in table.old)).enters
        (slots_from (slots_seen table.old))) }
    ensures beside { beside_in table.new ≡ beside_in table.old }
    ensures stays { is_some (entries_in table.new) ≡ true }
{
    match table.as_table_mut() {
        Some(lent) => AnyTable::sort_values(lent),
        None => match table.as_inline_table_mut() {
            Some(lent) => AnyTable::sort_values(lent),
            None => unreachable!(),
        },
    }
}

/// Sets whether the table is written by dotted keys.
pub(crate) fn set_dotted_in(table: &mut Item, dotted: bool)
    requires { is_some (entries_in table.old) ≡ true }
    ensures slots { slots_seen table.new ≡ slots_seen table.old }
    ensures beside { beside_in table.new ≡ with_dotted dotted (beside_in table.old) }
    ensures stays { is_some (entries_in table.new) ≡ true }
{
    match table.as_table_mut() {
        Some(lent) => AnyTable::set_dotted(lent, dotted),
        None => match table.as_inline_table_mut() {
            Some(lent) => AnyTable::set_dotted(lent, dotted),
            None => unreachable!(),
        },
    }
}
