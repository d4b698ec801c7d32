//! Taking out the slots of the table that key lines are added to, and putting them back.
ghost use Rattle.std.specs.Prelude.{◌≡◌, ◌<◌, IfSome, length, option_map};
ghost use Rattle.toml_edit_parser.specs.BlockRead.{names, split_name, SwapsBelow, SwapsInItem, SwapsInTable, SwapsInTables, SwapsInLast};
ghost use Rattle.toml_edit_slots.specs.Slots.{place};
ghost use Rattle.toml_edit_tree.specs.View.{item_view, slots_view, table_view, tables_view};

use std::borrow::CowStr;
use std::mem;
use toml_edit_slots::Slots;
use toml_edit_tree::{ArrayOfTables, Item, Table};

/// Splits off the first name.
fn split_name<'b, 's>(block: &'b [CowStr<'s>]) -> Option<(&'b str, &'b [CowStr<'s>])>
    ensures { option_map (λ p. (p.0.now, names p.1.now)) result ≡ split_name (names block.now) }
{
    let [first, rest @ ..] = block else {
        return None;
    };
    Some((first.as_str(), rest))
}

/// Returns the place of the slot whose key has the name, or `None` if no key has it.
///
/// Looks at the last slot first: a header's table is mostly there.
#[inline]
pub(crate) fn place_of(slots: &Slots<Item>, name: &str) -> Option<usize>
    ensures place { result ≡ place name.now slots.now }
    ensures within { IfSome result (λ at. at < length slots.now) }
{
    let entries = slots.as_slice();
    match entries.last() {
        Some(last) => {
            if last.key.get() == name {
                return Some(entries.len() - 1);
            }
            slots.find(name)
        }
        None => None,
    }
}

/// Swaps `others` with the slots of the table at these names. If there is no such table, both stay.
#[cycle(swap)]
pub(crate) fn swap_block(block: &[CowStr<'_>], others: &mut Slots<Item>, slots: &mut Slots<Item>)
    ensures { SwapsBelow (names block.now) (slots_view others.old) (slots_view slots.old)
        (slots_view others.new) (slots_view slots.new) }
{
    match split_name(block) {
        None => mem::swap(others, slots),
        Some((first, rest)) => match place_of(slots, first) {
            None => {}
            Some(at) => swap_item(rest, others, slots.item_mut(at)),
        },
    }
}

/// Swaps `others` with the slots of the table at these names in the item.
#[cycle(swap)]
fn swap_item(block: &[CowStr<'_>], others: &mut Slots<Item>, holder: &mut Item)
    ensures { SwapsInItem (names block.now) (slots_view others.old) (item_view holder.old)
        (slots_view others.new) (item_view holder.new) }
{
    match holder {
        Item::Table(table) => swap_table(block, others, table),
        Item::ArrayOfTables(tables) => swap_tables(block, others, tables),
        _ => {}
    }
}

/// Swaps `others` with the slots of the table at these names in the table.
#[cycle(swap)]
fn swap_table(block: &[CowStr<'_>], others: &mut Slots<Item>, table: &mut Table)
    ensures { SwapsInTable (names block.now) (slots_view others.old) (table_view table.old)
        (slots_view others.new) (table_view table.new) }
{
    swap_block(block, others, table.slots_mut())
}

/// Swaps `others` with the slots of the table at these names in the last element.
#[cycle(swap)]
fn swap_tables(block: &[CowStr<'_>], others: &mut Slots<Item>, tables: &mut ArrayOfTables)
    ensures { SwapsInTables (names block.now) (slots_view others.old) (tables_view tables.old)
        (slots_view others.new) (tables_view tables.new) }
{
    match tables.values.last_mut() {
        None => {}
        Some(last) => swap_last(block, others, last),
    }
}

/// Swaps `others` with the slots of the table at these names in the element, if it is a table.
#[cycle(swap)]
fn swap_last(block: &[CowStr<'_>], others: &mut Slots<Item>, holder: &mut Item)
    ensures { SwapsInLast (names block.now) (slots_view others.old) (item_view holder.old)
        (slots_view others.new) (item_view holder.new) }
{
    match holder {
        Item::Table(table) => swap_table(block, others, table),
        _ => {}
    }
}
