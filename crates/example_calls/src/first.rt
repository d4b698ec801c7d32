//! The first element of each container, by reference and by value.
ghost use Rattle.std.specs.Prelude.{◌≡◌, option_map, slice_get};
ghost use Rattle.toml_edit.specs.model.Iterating.{elements, value_pairs, values};
ghost use Rattle.toml_edit.specs.model.Slots.{pairs};
ghost use Rattle.toml_edit.specs.tree.ContainerParts.{pair_read, table_read, value_read};
ghost use Rattle.toml_edit.specs.tree.ElementParts.{table_owned};
ghost use Rattle.toml_edit.specs.tree.Elements.{items_of, tables_of};
ghost use Rattle.toml_edit.specs.tree.InlineParts.{pair_owned};
ghost use Rattle.toml_edit.specs.tree.SlotsOf.{inline_slots_of, pair_taken, slots_of};
ghost use Rattle.toml_edit.specs.tree.View.{value_view};

use toml_edit::{Array, ArrayOfTables, InlineTable, Item, Table, Value};

/// Returns the first value of an array.
pub fn first_value(array: &Array) -> Option<&Value>
    ensures { option_map value_read result ≡ slice_get (values (items_of array.now)) 0 }
{
    array.iter().next()
}

/// Returns the first key of an inline table and its value.
pub fn first_pair(table: &InlineTable) -> Option<(&str, &Value)>
    ensures { option_map pair_read result ≡ slice_get (value_pairs (inline_slots_of table.now)) 0 }
{
    table.iter().next()
}

/// Returns the first table of an array of tables.
pub fn first_table(tables: &ArrayOfTables) -> Option<&Table>
    ensures { option_map table_read result ≡ slice_get (elements (tables_of tables.now)) 0 }
{
    tables.iter().next()
}

/// Takes an array apart, and returns its first value.
pub fn into_value(array: Array) -> Option<Value>
    ensures { option_map value_view result ≡ slice_get (values (items_of array)) 0 }
{
    array.into_iter().next()
}

/// Takes an inline table apart, and returns the name of its first key and its value.
pub fn into_pair(table: InlineTable) -> Option<(String, Value)>
    ensures { option_map pair_owned result ≡ slice_get (value_pairs (inline_slots_of table)) 0 }
{
    table.into_iter().next()
}

/// Takes an array of tables apart, and returns its first table.
pub fn into_table(tables: ArrayOfTables) -> Option<Table>
    ensures { option_map table_owned result ≡ slice_get (elements (tables_of tables)) 0 }
{
    tables.into_iter().next()
}

/// Takes a table apart, and returns the name of its first slot and the item.
pub fn into_slot(table: Table) -> Option<(String, Item)>
    ensures { option_map pair_taken result ≡ slice_get (pairs (slots_of table)) 0 }
{
    table.into_iter().next()
}
