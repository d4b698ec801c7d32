//! Tables without their positions.
ghost use Rattle.std.specs.Prelude.{◌≡◌};
ghost use Rattle.toml_edit_model.specs.Positions.{items_without_positions, slots_without_positions, without_positions};
ghost use Rattle.toml_edit_tree.specs.Containers.{table_node, tables_node};
ghost use Rattle.toml_edit_tree.specs.View.{item_view, items_view, slots_view, table_view, tables_view};

use crate::array_of_tables::ArrayOfTables;
use crate::item::Item;
use crate::table::Table;
use toml_edit_slots::Slots;

impl Table {
    /// Unsets the position of the table, and of all tables in it.
    ///
    /// The tables of a copy keep their positions, so they print among the headers of a document
    /// with other numbers. Without positions they come after the table before them in the tree.
    pub fn forget_positions(&mut self)
        ensures { table_node (table_view self.new)
            ≡ without_positions (table_node (table_view self.old)) }
    {
        forget_table(self);
    }
}

/// Unsets the positions of tables in the item.
#[cycle(forget)]
fn forget_item(item: &mut Item)
    ensures { item_view item.new ≡ without_positions (item_view item.old) }
{
    match item {
        Item::None | Item::Value(_) => {}
        Item::Table(table) => forget_table(table),
        Item::ArrayOfTables(tables) => forget_tables(tables),
    }
}

/// Unsets the position of the table, and of the tables in it.
#[cycle(forget)]
fn forget_table(table: &mut Table)
    ensures { table_node (table_view table.new)
        ≡ without_positions (table_node (table_view table.old)) }
{
    table.position = None;
    forget_slots(&mut table.slots);
}

/// Unsets the positions of the tables of an array, and of those in them.
#[cycle(forget)]
fn forget_tables(tables: &mut ArrayOfTables)
    ensures { tables_node (tables_view tables.new)
        ≡ without_positions (tables_node (tables_view tables.old)) }
{
    forget_items(&mut tables.values);
}

/// Unsets the positions of tables in the items.
#[cycle(forget)]
fn forget_items(items: &mut Vec<Item>)
    ensures { items_view items.new.items ≡ items_without_positions (items_view items.old.items) }
{
    for at in 0..items.len() {
        forget_item(&mut items[at]);
    }
}

/// Unsets the positions of tables in the slots.
#[cycle(forget)]
fn forget_slots(slots: &mut Slots<Item>)
    ensures { slots_view slots.new ≡ slots_without_positions (slots_view slots.old) }
{
    for at in 0..slots.len() {
        let item = slots.item_mut(at);
        forget_item(item);
    }
}
