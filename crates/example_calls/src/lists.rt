//! The elements of arrays and of arrays of tables, by place.
ghost use Rattle.std.specs.Prelude.{◌≡◌, ◌↔◌, [], if◌then◌else◌, IfErr, IfOk, IfSome, IsTrue, OnErr, OnOk, Some, filter, is_some, length, nat_lt, option_map};
ghost use Rattle.example_calls.specs.Elements.{is_other};
ghost use Rattle.toml_edit.specs.model.ArrayCalls.{inserted_at, pushed, removed_at, replaced_at, value_at, written_at};
ghost use Rattle.toml_edit.specs.model.Iterating.{values};
ghost use Rattle.toml_edit.specs.model.TablesCalls.{table_at};
ghost use Rattle.toml_edit.specs.tree.Containers.{table_node, table_with_position};
ghost use Rattle.toml_edit.specs.tree.Elements.{array_fields, items_of, tables_of};
ghost use Rattle.toml_edit.specs.tree.View.{array_view, fields_view, table_view, value_view};

use crate::adding::no_memory;
use toml_edit::{Array, ArrayOfTables, Mem, NoMemory, Table, Value};

/// Replaces the value at a place, in its whitespace and comments, or adds one at the end.
pub fn replace_or_push(array: &mut Array, at: usize, value: Value) -> Mem<()>
    ensures ok { OnOk result (items_of array.new
        ≡ (if is_some (value_at at (items_of array.old))
        then replaced_at at (value_view value) (items_of array.old)
        else pushed (value_view value) (items_of array.old))) }
    ensures err { OnErr result (array_view array.new ≡ array_view array.old) }
{
    if array.get(at).is_none() {
        return array.push(value).map_err(no_memory);
    }
    drop(array.replace(at, value).map_err(no_memory)?);
    Ok(())
}

/// Replaces the value at a place and the comments around it, or inserts one before all others.
pub fn put_formatted(array: &mut Array, at: usize, value: Value) -> Mem<()>
    ensures ok { OnOk result (items_of array.new
        ≡ (if is_some (value_at at (items_of array.old))
        then written_at at (value_view value) (items_of array.old)
        else inserted_at 0 (value_view value) (items_of array.old))) }
    ensures err { OnErr result (array_view array.new ≡ array_view array.old) }
{
    if array.get(at).is_none() {
        return array.insert_formatted(0, value).map_err(no_memory);
    }
    drop(array.replace_formatted(at, value));
    Ok(())
}

/// Inserts a value before what is at a place, or adds it at the end of a shorter array.
pub fn insert_or_push(array: &mut Array, at: usize, value: Value) -> Mem<()>
    ensures ok { OnOk result (items_of array.new
        ≡ (if nat_lt at (length (items_of array.old))
        then inserted_at at (value_view value) (items_of array.old)
        else pushed (value_view value) (items_of array.old))) }
    ensures err { OnErr result (array_view array.new ≡ array_view array.old) }
{
    if at >= array.len() {
        return array.push(value).map_err(no_memory);
    }
    array.insert(at, value).map_err(no_memory)
}

/// Moves a value with its comments to the end of another array, or returns `false`.
pub fn move_value(from: &mut Array, at: usize, to: &mut Array) -> Result<bool, NoMemory<Value>>
    ensures found { IfOk result (λ found. found ≡ is_some (value_at at (items_of from.old))) }
    ensures removed { IfOk result (λ found. IsTrue found
        → items_of from.new ≡ removed_at at (items_of from.old)) }
    ensures added { IfOk result (λ _. IfSome (value_at at (items_of from.old)) (λ value.
        items_of to.new ≡ pushed value (items_of to.old))) }
    ensures back { IfErr result (λ refused.
        Some (value_view refused.0) ≡ value_at at (items_of from.old)) }
    ensures err { OnErr result (array_view to.new ≡ array_view to.old) }
{
    if from.get(at).is_none() {
        return Ok(false);
    }
    let value = from.remove(at);
    to.push_formatted(value)?;
    Ok(true)
}

/// Removes each string of this text from an array. Returns `true` if the array is empty then.
pub fn remove_string(array: &mut Array, text: &str) -> bool
    ensures kept { items_of array.new ≡ filter (is_other text.now) (values (items_of array.old)) }
    ensures fields { array_fields array.new ≡ array_fields array.old }
    ensures empty { IsTrue result ↔ (items_of array.new ≡ []) }
{
    array.retain(|value| value.as_str() != Some(text));
    array.is_empty()
}

/// Replaces an element of an array of tables, with its header in the same position.
pub fn replace_element(tables: &mut ArrayOfTables, at: usize, mut element: Table) -> Option<Table>
    ensures old { option_map (λ old. table_node (table_view old)) result
        ≡ table_at at (tables_of tables.old) }
    ensures replaced { IfSome result (λ old. tables_of tables.new ≡ written_at at
        (table_node (table_with_position (fields_view old).position (table_view element)))
        (tables_of tables.old)) }
{
    let Some(old) = tables.get(at) else {
        drop(element);
        return None;
    };
    element.set_position(old.position());
    Some(tables.replace(at, element))
}
