//! Edits of arrays, by the line, and of arrays of tables.
ghost use Rattle.std.specs.Prelude.{◌≡◌, ◌≤◌, IfOk, IfSome, IsSome, None, Ok, Some, length};
ghost use Rattle.toml_edit_model.specs.ArrayCalls.{value_at};
ghost use Rattle.toml_edit_model.specs.Keys.{names};
ghost use Rattle.toml_edit_tree.specs.Containers.{array_node};
ghost use Rattle.toml_edit_tree.specs.Elements.{items_of};
ghost use Rattle.toml_edit_tree.specs.View.{array_view, value_view};
ghost use Rattle.toml_edit.specs.DocumentView.{IsPrintedAs, tree_owned};
ghost use Rattle.toml_edit_edits.specs.Effects as effects;
ghost use Rattle.toml_edit_edits.specs.Effects.{at_end};
ghost use Rattle.toml_edit_edits.specs.Elements as elements;
ghost use Rattle.toml_edit_edits.specs.Elements.{on_kind};
ghost use Rattle.toml_edit_edits.specs.Outcomes.{FindsArray, Makes};

use crate::elements::{append_table, has_tables, insert_table, take_table};
use crate::fault::EditFault;
use crate::same::same_value;
use std::alloc::{AllocError, Global};
use toml_edit::{Array, DocumentMut, Key, Mem, Value};
use toml_edit_paths::number_of;

/// Adds a value at the end of the array at the path, with a line where the others have one, or a
/// table at the end of the array of tables there.
pub(crate) fn append(
    alloc: Global,
    document: &mut DocumentMut,
    path: &[Key],
    value: &Value,
) -> Result<(), EditFault>
    ensures makes { Makes
        (on_kind (elements.inserted None (value_view value.now))
        (effects.appended path.now (value_view value.now) (tree_owned document.old))
        (names path.now) (tree_owned document.old))
        (tree_owned document.old) (tree_owned document.new) result }
    ensures printed { IsPrintedAs document.new document.old }
{
    if has_tables(document, path) {
        append_table(alloc, document, path, value)
    } else {
        append_value(alloc, document, path, value)
    }
}

/// Adds a value at the end of the array at the path.
fn append_value(
    alloc: Global,
    document: &mut DocumentMut,
    path: &[Key],
    value: &Value,
) -> Result<(), EditFault>
    ensures makes { Makes
        (effects.appended path.now (value_view value.now) (tree_owned document.old))
        (tree_owned document.old) (tree_owned document.new) result }
    ensures printed { IsPrintedAs document.new document.old }
{
    let array = array_at(alloc, document, path)?;
    let array = with_last_line(alloc, array, value)?;
    Ok(document.set_at(path, Value::from(array))?)
}

/// Inserts a value before the element at the path, with a line where the others have one, or a
/// table.
pub(crate) fn insert(
    alloc: Global,
    document: &mut DocumentMut,
    path: &[Key],
    value: &Value,
) -> Result<(), EditFault>
    ensures makes { Makes
        (at_end (λ above k.
        on_kind (elements.inserted (Some k.name) (value_view value.now))
        (effects.inserted_before above k.name (value_view value.now) (tree_owned document.old))
        (names above) (tree_owned document.old)) path.now)
        (tree_owned document.old) (tree_owned document.new) result }
    ensures printed { IsPrintedAs document.new document.old }
{
    match path.split_last() {
        Some((last, above)) => insert_before(alloc, document, above, last, value),
        None => Err(EditFault::NoSuchPath),
    }
}

/// Inserts a value or a table before the element of this number.
fn insert_before(
    alloc: Global,
    document: &mut DocumentMut,
    path: &[Key],
    number: &Key,
    value: &Value,
) -> Result<(), EditFault>
    ensures makes { Makes
        (on_kind (elements.inserted (Some number.now.name) (value_view value.now))
        (effects.inserted_before path.now number.now.name (value_view value.now)
        (tree_owned document.old)) (names path.now) (tree_owned document.old))
        (tree_owned document.old) (tree_owned document.new) result }
    ensures printed { IsPrintedAs document.new document.old }
{
    if has_tables(document, path) {
        insert_table(alloc, document, path, number.get(), value)
    } else {
        insert_value(alloc, document, path, number, value)
    }
}

/// Inserts a value before the element of this number.
fn insert_value(
    alloc: Global,
    document: &mut DocumentMut,
    path: &[Key],
    number: &Key,
    value: &Value,
) -> Result<(), EditFault>
    ensures makes { Makes
        (effects.inserted_before path.now number.now.name (value_view value.now)
        (tree_owned document.old))
        (tree_owned document.old) (tree_owned document.new) result }
    ensures printed { IsPrintedAs document.new document.old }
{
    let array = array_at(alloc, document, path)?;
    let Some(at) = place_up_to(number.get(), array.len()) else {
        drop(array);
        return Err(EditFault::NoSuchPath);
    };
    let array = with_line(alloc, array, at, value)?;
    Ok(document.set_at(path, Value::from(array))?)
}

/// Removes the first equal value of the array at the path, with its line, or the first equal table
/// of the array of tables there.
pub(crate) fn take(
    alloc: Global,
    document: &mut DocumentMut,
    path: &[Key],
    value: &Value,
) -> Result<(), EditFault>
    ensures makes { Makes
        (on_kind (elements.taken (value_view value.now))
        (effects.taken path.now (value_view value.now) (tree_owned document.old))
        (names path.now) (tree_owned document.old))
        (tree_owned document.old) (tree_owned document.new) result }
    ensures printed { IsPrintedAs document.new document.old }
{
    if has_tables(document, path) {
        take_table(alloc, document, path, value)
    } else {
        take_value(alloc, document, path, value)
    }
}

/// Removes the first equal value of the array at the path, with its line.
fn take_value(
    alloc: Global,
    document: &mut DocumentMut,
    path: &[Key],
    value: &Value,
) -> Result<(), EditFault>
    ensures makes { Makes
        (effects.taken path.now (value_view value.now) (tree_owned document.old))
        (tree_owned document.old) (tree_owned document.new) result }
    ensures printed { IsPrintedAs document.new document.old }
{
    let array = array_at(alloc, document, path)?;
    let Some(at) = first_same(&array, value) else {
        drop(array);
        return Err(EditFault::NoSuchElement);
    };
    let array = without_line(array, at)?;
    Ok(document.set_at(path, Value::from(array))?)
}

/// Returns a copy of the array at the path.
fn array_at(alloc: Global, document: &DocumentMut, path: &[Key]) -> Result<Array, EditFault>
    ensures { FindsArray (effects.array_at (names path.now) (tree_owned document.now)) result }
{
    let Some(item) = document.get_at(path) else {
        return Err(EditFault::NoSuchPath);
    };
    let Some(array) = item.as_array() else {
        return Err(EditFault::WrongKind);
    };
    Ok(array.clone(alloc)?)
}

/// Returns the array with a copy of the value at the end, and its line.
fn with_last_line(alloc: Global, array: Array, value: &Value) -> Mem<Array>
    ensures { IfOk result (λ more. array_node (array_view more)
        ≡ effects.with_line (length (items_of array)) (value_view value.now) (array_view array)) }
{
    let at = array.len();
    with_line(alloc, array, at, value)
}

/// Returns the array with a copy of the value at the place, and its line.
fn with_line(alloc: Global, mut array: Array, at: usize, value: &Value) -> Mem<Array>
    requires { at ≤ length (items_of array) }
    ensures { IfOk result (λ more. array_node (array_view more)
        ≡ effects.with_line at (value_view value.now) (array_view array)) }
{
    let Ok(copy) = value.clone(alloc) else {
        drop(array);
        return Err(AllocError);
    };
    match array.insert_line(at, copy) {
        Ok(()) => Ok(array),
        Err(refused) => {
            drop(refused);
            drop(array);
            Err(AllocError)
        }
    }
}

/// Returns the array without the value at the place, and its line.
fn without_line(mut array: Array, at: usize) -> Mem<Array>
    requires { IsSome (value_at at (items_of array)) }
    ensures { IfOk result (λ less. array_node (array_view less)
        ≡ effects.without_line at (array_view array)) }
{
    match array.remove_line(at) {
        Ok(value) => {
            drop(value);
            Ok(array)
        }
        Err(_) => {
            drop(array);
            Err(AllocError)
        }
    }
}

/// Returns the number that the text is, if it is at most the count.
pub(crate) fn place_up_to(number: &str, count: usize) -> Option<usize>
    ensures place { result ≡ effects.place_up_to count number.now }
    ensures within { IfSome result (λ at. at ≤ count) }
{
    match number_of(number) {
        Some(at) if at <= count => Some(at),
        _ => None,
    }
}

/// Returns the place of the first value that is equal, if there is one.
fn first_same(array: &Array, value: &Value) -> Option<usize>
    ensures place { result ≡ effects.first_same (value_view value.now) (items_of array.now) }
    ensures value { IfSome result (λ at. IsSome (value_at at (items_of array.now))) }
{
    for at in 0..array.len() {
        if let Some(other) = array.get(at) {
            if same_value(other, value) {
                return Some(at);
            }
        }
    }
    None
}
