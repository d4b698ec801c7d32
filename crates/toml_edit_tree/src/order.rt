//! Putting the slots of parsed tables in the order of their keys in the source.
ghost use Rattle.std.specs.Prelude.{◌≡◌, OnOk};
ghost use Rattle.toml_edit_laws.specs.PlaceOrder.{items_by_place, node_by_place, slots_by_place};
ghost use Rattle.toml_edit_tree.specs.Containers.{table_node, tables_node};
ghost use Rattle.toml_edit_tree.specs.View.{item_view, items_view, slots_view, table_view, tables_view};

use crate::array_of_tables::ArrayOfTables;
use crate::item::Item;
use crate::table::Table;
use toml_edit_repr::Mem;
use toml_edit_slots::Slots;

/// Sorts these slots, and those of each table below them, by where the spellings of their keys
/// begin in the source.
///
/// Values stay as they are.
///
/// # Errors
///
/// Returns an `AllocError` if out of memory. Some tables may be sorted then and others not.
#[cycle(order)]
pub fn put_in_order(slots: &mut Slots<Item>) -> Mem<()>
    ensures { OnOk result (slots_view slots.new ≡ slots_by_place (slots_view slots.old)) }
{
    for at in 0..slots.len() {
        let item = slots.item_mut(at);
        order_item(item)?;
    }
    slots.sort_by_place()?;
    Ok(())
}

/// Sorts the slots of a table or of the tables of an array, and of those below.
#[cycle(order)]
fn order_item(item: &mut Item) -> Mem<()>
    ensures { OnOk result (item_view item.new ≡ node_by_place (item_view item.old)) }
{
    match item {
        Item::None => Ok(()),
        Item::Value(_) => Ok(()),
        Item::Table(table) => order_table(table),
        Item::ArrayOfTables(tables) => order_tables(tables),
    }
}

/// Sorts the slots of a table and of those below it.
#[cycle(order)]
fn order_table(table: &mut Table) -> Mem<()>
    ensures { OnOk result
        (table_node (table_view table.new) ≡ node_by_place (table_node (table_view table.old))) }
{
    put_in_order(&mut table.slots)
}

/// Sorts the slots of each table of an array of tables, and of those below.
#[cycle(order)]
fn order_tables(tables: &mut ArrayOfTables) -> Mem<()>
    ensures { OnOk result
        (tables_node (tables_view tables.new)
        ≡ node_by_place (tables_node (tables_view tables.old))) }
{
    order_items(&mut tables.values)
}

/// Sorts the slots of each item that is or has tables.
#[cycle(order)]
fn order_items(items: &mut Vec<Item>) -> Mem<()>
    ensures { OnOk result
        (items_view items.new.items ≡ items_by_place (items_view items.old.items)) }
{
    for at in 0..items.len() {
        order_item(&mut items[at])?;
    }
    Ok(())
}
