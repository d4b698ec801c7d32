//! Edits of the elements of arrays of tables.
ghost use Rattle.std.specs.Prelude.{◌≡◌, ◌<◌, ◌≤◌, IfOk, IfSome, IsSome, None, OnErr, OnOk, Some, length, map, option_and_then, slice_get};
ghost use Rattle.std.specs.Option.{option_copied};
ghost use Rattle.toml_edit_model.specs.Conversions.{made_value};
ghost use Rattle.toml_edit_model.specs.Keys.{names};
ghost use Rattle.toml_edit_model.specs.TablesCalls.{table_at};
ghost use Rattle.toml_edit_tree.specs.Containers.{table_node, tables_node};
ghost use Rattle.toml_edit_tree.specs.Elements.{extent_of, listed, tables_of};
ghost use Rattle.toml_edit_tree.specs.View.{item_view, table_view, tables_view, value_view};
ghost use Rattle.toml_edit.specs.DocumentView.{IsPrintedAs, tree_owned};
ghost use Rattle.toml_edit_edits.specs.Effects as effects;
ghost use Rattle.toml_edit_edits.specs.Effects.{changed_below};
ghost use Rattle.toml_edit_edits.specs.Elements as elements;
ghost use Rattle.toml_edit_edits.specs.Outcomes.{FindsElements, FindsTable, Makes};
ghost use Rattle.toml_edit_edits.specs.Same.{same_node};

use crate::along::open_along;
use crate::arrays::place_up_to;
use crate::fault::EditFault;
use crate::same::same_value;
use std::alloc::{AllocError, Global};
use std::mem;
use toml_edit::{ArrayOfTables, DocumentMut, Item, Key, Mem, Table, Value};

/// Returns `true` if an array of tables is at the path.
pub(crate) fn has_tables(document: &DocumentMut, path: &[Key]) -> bool
    ensures { result ≡ elements.is_tables_at (names path.now) (tree_owned document.now) }
{
    match document.get_at(path) {
        Some(item) => item.is_array_of_tables(),
        None => false,
    }
}

// ---- a table more

/// Puts a table of the pairs of an inline table at the end of the array at the path.
pub(crate) fn append_table(
    alloc: Global,
    document: &mut DocumentMut,
    path: &[Key],
    value: &Value,
) -> Result<(), EditFault>
    ensures makes { Makes
        (changed_below (elements.inserted None (value_view value.now)) (names path.now)
        (tree_owned document.old))
        (tree_owned document.old) (tree_owned document.new) result }
    ensures printed { IsPrintedAs document.new document.old }
{
    open_along(document.as_item(), path);
    match document.change_at(path, |item| insert_in_item(alloc, item, None, value)) {
        Some(done) => done,
        None => Err(EditFault::NoSuchPath),
    }
}

/// Puts a table of the pairs of an inline table before the element of this number.
pub(crate) fn insert_table(
    alloc: Global,
    document: &mut DocumentMut,
    path: &[Key],
    number: &str,
    value: &Value,
) -> Result<(), EditFault>
    ensures makes { Makes
        (changed_below (elements.inserted (Some number.now) (value_view value.now))
        (names path.now) (tree_owned document.old))
        (tree_owned document.old) (tree_owned document.new) result }
    ensures printed { IsPrintedAs document.new document.old }
{
    open_along(document.as_item(), path);
    // Nothing is known of a closure that holds an `Option` of a reference, so it is made inside.
    match document.change_at(
        path,
        |item| insert_in_item(alloc, item, Some(number), value),
    ) {
        Some(done) => done,
        None => Err(EditFault::NoSuchPath),
    }
}

/// Puts the table into the item, if that is an array of tables.
fn insert_in_item(
    alloc: Global,
    item: &mut Item,
    number: Option<&str>,
    value: &Value,
) -> Result<(), EditFault>
    ensures { Makes
        (elements.inserted (option_copied number.entry) (value_view value.now) (item_view item.old))
        (item_view item.old) (item_view item.new) result }
{
    match item {
        Item::ArrayOfTables(tables) => insert_in(alloc, tables, number, value),
        Item::None | Item::Value(_) | Item::Table(_) => Err(EditFault::WrongKind),
    }
}

/// Puts the table into the array.
fn insert_in(
    alloc: Global,
    tables: &mut ArrayOfTables,
    number: Option<&str>,
    value: &Value,
) -> Result<(), EditFault>
    ensures { Makes
        (elements.inserted (option_copied number.entry) (value_view value.now)
        (tables_node (tables_view tables.old)))
        (tables_node (tables_view tables.old)) (tables_node (tables_view tables.new)) result }
{
    let Some(at) = place_in(number, tables.len()) else {
        return Err(EditFault::NoSuchPath);
    };
    let table = table_of(alloc, value)?;
    Ok(put_before(tables, at, table)?)
}

/// Returns the number if it is at most the count, and the count if there is none.
fn place_in(number: Option<&str>, count: usize) -> Option<usize>
    ensures place { result ≡ elements.place_in count (option_copied number.entry) }
    ensures within { IfSome result (λ at. at ≤ count) }
{
    match number {
        Some(number) => place_up_to(number, count),
        None => Some(count),
    }
}

/// Returns a table of the pairs of an inline table.
pub(crate) fn table_of(alloc: Global, value: &Value) -> Result<Table, EditFault>
    ensures { FindsTable (elements.table_of (value_view value.now)) result }
{
    match value.as_inline_table() {
        Some(table) => Ok(table.clone(alloc)?.into_table()),
        None => Err(EditFault::WrongKind),
    }
}

/// Puts the table before what is at the place, so that it is printed there.
fn put_before(tables: &mut ArrayOfTables, at: usize, mut table: Table) -> Mem<()>
    requires { at ≤ length (tables_of tables.old) }
    ensures items { OnOk result (tables_of tables.new
        ≡ elements.with_element at (table_node (table_view table)) (tables_of tables.old)) }
    ensures extent { extent_of tables.new ≡ extent_of tables.old }
    ensures err { OnErr result (tables_view tables.new ≡ tables_view tables.old) }
{
    table.set_position(position_at(tables, at));
    match tables.insert(at, table) {
        Ok(()) => Ok(()),
        Err(refused) => {
            drop(refused);
            Err(AllocError)
        }
    }
}

/// Returns the position of the table at the place, if there is one.
fn position_at(tables: &ArrayOfTables, at: usize) -> Option<isize>
    ensures { result
        ≡ option_and_then elements.position_of (slice_get (tables_of tables.now) at) }
{
    match tables.get(at) {
        Some(table) => table.position(),
        None => None,
    }
}

// ---- a table less

/// Removes the first table of the array at the path that has the meaning of the inline table.
pub(crate) fn take_table(
    alloc: Global,
    document: &mut DocumentMut,
    path: &[Key],
    value: &Value,
) -> Result<(), EditFault>
    ensures makes { Makes
        (changed_below (elements.taken (value_view value.now)) (names path.now)
        (tree_owned document.old))
        (tree_owned document.old) (tree_owned document.new) result }
    ensures printed { IsPrintedAs document.new document.old }
{
    open_along(document.as_item(), path);
    match document.change_at(path, |item| take_in_item(alloc, item, value)) {
        Some(done) => done,
        None => Err(EditFault::NoSuchPath),
    }
}

/// Removes the table from the item, if that is an array of tables.
fn take_in_item(alloc: Global, item: &mut Item, value: &Value) -> Result<(), EditFault>
    ensures { Makes (elements.taken (value_view value.now) (item_view item.old))
        (item_view item.old) (item_view item.new) result }
{
    match item {
        Item::ArrayOfTables(tables) => take_in(alloc, tables, value),
        Item::None | Item::Value(_) | Item::Table(_) => Err(EditFault::WrongKind),
    }
}

/// Removes the table from the array.
fn take_in(alloc: Global, tables: &mut ArrayOfTables, value: &Value) -> Result<(), EditFault>
    ensures { Makes (elements.taken (value_view value.now) (tables_node (tables_view tables.old)))
        (tables_node (tables_view tables.old)) (tables_node (tables_view tables.new)) result }
{
    if !value.is_inline_table() {
        return Err(EditFault::WrongKind);
    }
    match first_same(alloc, &tables.values, value)? {
        Some(at) => {
            drop(tables.values.remove(at));
            Ok(())
        }
        None => Err(EditFault::NoSuchElement),
    }
}

/// Returns the place of the first item that is equal once it is made a value, if there is one.
fn first_same(alloc: Global, items: &Vec<Item>, value: &Value) -> Mem<Option<usize>>
    ensures place { IfOk result (λ place. place
        ≡ effects.first_same (value_view value.now) (map made_value (listed items.now.items))) }
    ensures within { IfOk result (λ place. IfSome place (λ at. at < length items.now.items)) }
{
    for at in 0..items.len() {
        if is_same(alloc, &items[at], value)? {
            return Ok(Some(at));
        }
    }
    Ok(None)
}

/// Returns `true` if the item is equal once it is made a value.
fn is_same(alloc: Global, item: &Item, value: &Value) -> Mem<bool>
    ensures { IfOk result (λ is. is
        ≡ same_node (made_value (item_view item.now)) (value_view value.now)) }
{
    match item.clone(alloc)?.into_value() {
        Ok(other) => {
            let is = same_value(&other, value);
            drop(other);
            Ok(is)
        }
        Err(placeholder) => {
            drop(placeholder);
            Ok(false)
        }
    }
}

// ---- a table elsewhere

/// Moves an element of the array of tables at the path to another place in it.
pub(crate) fn move_table(
    alloc: Global,
    document: &mut DocumentMut,
    path: &[Key],
    from: &str,
    to: &str,
) -> Result<(), EditFault>
    ensures makes { Makes
        (changed_below (elements.moved_among from.now to.now) (names path.now)
        (tree_owned document.old))
        (tree_owned document.old) (tree_owned document.new) result }
    ensures printed { IsPrintedAs document.new document.old }
{
    open_along(document.as_item(), path);
    match document.change_at(path, |item| move_in_item(alloc, item, from, to)) {
        Some(done) => done,
        None => Err(EditFault::NoSuchPath),
    }
}

/// Moves an element of the item, if that is an array of tables.
fn move_in_item(alloc: Global, item: &mut Item, from: &str, to: &str) -> Result<(), EditFault>
    ensures { Makes (elements.moved_among from.now to.now (item_view item.old))
        (item_view item.old) (item_view item.new) result }
{
    match item {
        Item::ArrayOfTables(tables) => move_in(alloc, tables, from, to),
        Item::None | Item::Value(_) | Item::Table(_) => Err(EditFault::WrongKind),
    }
}

/// Moves an element of the array.
fn move_in(alloc: Global, tables: &mut ArrayOfTables, from: &str, to: &str) -> Result<(), EditFault>
    ensures { Makes (elements.moved_among from.now to.now (tables_node (tables_view tables.old)))
        (tables_node (tables_view tables.old)) (tables_node (tables_view tables.new)) result }
{
    let Some(at) = place_of_table(tables, from) else {
        return Err(EditFault::NoSuchPath);
    };
    // A copy is changed, so that nothing changes if memory runs out.
    let mut copy = tables.clone(alloc)?;
    match move_at(&mut copy, at, to) {
        Ok(()) => {
            drop(mem::replace(tables, copy));
            Ok(())
        }
        Err(fault) => {
            drop(copy);
            Err(fault)
        }
    }
}

/// Moves the element at the place before the one of this number among the others.
fn move_at(tables: &mut ArrayOfTables, at: usize, to: &str) -> Result<(), EditFault>
    requires { IsSome (table_at at (tables_of tables.old)) }
    ensures items { FindsElements
        (elements.moved_from at (tables_of tables.old) to.now) (tables_of tables.new) result }
    ensures extent { extent_of tables.new ≡ extent_of tables.old }
{
    let mut table = tables.remove(at);
    table.forget_positions();
    match place_up_to(to, tables.len()) {
        Some(place) => Ok(put_before(tables, place, table)?),
        None => {
            drop(table);
            Err(EditFault::NoSuchPath)
        }
    }
}

/// Returns the number, if it is that of a table.
fn place_of_table(tables: &ArrayOfTables, number: &str) -> Option<usize>
    ensures place { result ≡ elements.place_of_table number.now (tables_of tables.now) }
    ensures table { IfSome result (λ at. IsSome (table_at at (tables_of tables.now))) }
{
    let at = place_up_to(number, tables.len())?;
    if tables.get(at).is_some() {
        Some(at)
    } else {
        None
    }
}
