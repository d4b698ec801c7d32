//! The root of a document, which is held as an item.
ghost use Rattle.std.specs.Prelude.{◌≡◌, true};
ghost use Rattle.toml_edit.specs.Roots.{is_table};
ghost use Rattle.toml_edit_tree.specs.declared.item.Item.TheVariants as items;

use toml_edit_tree::{Item, Table};

/// Returns the table that the item is.
pub(crate) fn table_of(root: Item) -> Table
    requires { is_table root ≡ true }
    ensures { root ≡ items.Table result }
{
    match root {
        Item::Table(table) => table,
        _ => unreachable!(),
    }
}
