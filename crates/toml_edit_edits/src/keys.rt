//! Edits of keys: their names, their order and the comments on their lines.
ghost use Rattle.std.specs.Prelude.{◌≡◌, ◌∷◌, IfOk, string_bytes};
ghost use Rattle.std.specs.Option.{option_copied};
ghost use Rattle.toml_edit_model.specs.Keys.{names};
ghost use Rattle.toml_edit_model.specs.Text.{space};
ghost use Rattle.toml_edit_tree.specs.Containers.{inline_node, table_node};
ghost use Rattle.toml_edit_tree.specs.Indexed.{shown_slots};
ghost use Rattle.toml_edit_tree.specs.View.{fields_view, inline_view, item_view, table_view, value_view};
ghost use Rattle.toml_edit.specs.DocumentView.{IsPrintedAs, tree_owned};
ghost use Rattle.toml_edit_edits.specs.Effects as effects;
ghost use Rattle.toml_edit_edits.specs.Effects.{at_end, in_order, on_table, slots_renamed, with_comment};
ghost use Rattle.toml_edit_edits.specs.Outcomes.{Makes};

use crate::along::open_along;
use crate::fault::EditFault;
use std::alloc::Global;
use std::mem;
use toml_edit::{DocumentMut, InlineTable, Item, Key, Mem, Renamed, Slots, Table, Value};

/// Gives the key at the end of the path another name.
pub(crate) fn rename(document: &mut DocumentMut, path: &[Key], name: &str) -> Result<(), EditFault>
    ensures makes { Makes
        (at_end (λ above k. effects.renamed above k name.now (tree_owned document.old))
        (names path.now))
        (tree_owned document.old) (tree_owned document.new) result }
    ensures printed { IsPrintedAs document.new document.old }
{
    match path.split_last() {
        Some((last, above)) => rename_at(document, above, last.get(), name),
        None => Err(EditFault::NoSuchPath),
    }
}

/// Gives a key of the table at the path another name.
pub(crate) fn rename_at(
    document: &mut DocumentMut,
    path: &[Key],
    from: &str,
    to: &str,
) -> Result<(), EditFault>
    ensures makes { Makes
        (effects.renamed (names path.now) from.now to.now (tree_owned document.old))
        (tree_owned document.old) (tree_owned document.new) result }
    ensures printed { IsPrintedAs document.new document.old }
{
    if path.is_empty() {
        return rename_in_table(document.as_table_mut(), from, to);
    }
    open_along(document.as_item(), path);
    match document.change_at(path, |item| rename_in_item(item, from, to)) {
        Some(done) => done,
        None => Err(EditFault::NoSuchPath),
    }
}

/// Gives a key of the table another name.
fn rename_in_table(table: &mut Table, from: &str, to: &str) -> Result<(), EditFault>
    ensures makes { Makes
        (on_table (slots_renamed from.now to.now) (table_node (table_view table.old)))
        (table_node (table_view table.old)) (table_node (table_view table.new)) result }
    ensures fields { fields_view table.new ≡ fields_view table.old }
{
    rename_slot(table.slots_mut(), from, to)
}

/// Gives a key of the item another name, if it is a table or an inline table.
fn rename_in_item(item: &mut Item, from: &str, to: &str) -> Result<(), EditFault>
    ensures { Makes (on_table (slots_renamed from.now to.now) (item_view item.old))
        (item_view item.old) (item_view item.new) result }
{
    match item.as_slots_mut() {
        Some(slots) => rename_slot(slots, from, to),
        None => Err(EditFault::WrongKind),
    }
}

/// Gives the key of a slot another name.
fn rename_slot(slots: &mut Slots<Item>, from: &str, to: &str) -> Result<(), EditFault>
    ensures { Makes (slots_renamed from.now to.now (shown_slots slots.old)) (shown_slots slots.old)
        (shown_slots slots.new) result }
{
    match slots.rename(from, to)? {
        Renamed::Done => Ok(()),
        Renamed::Absent => Err(EditFault::NoSuchPath),
        Renamed::Taken => Err(EditFault::Taken),
    }
}

/// Sorts the keys of the table at the path, or of the root, by their names.
pub(crate) fn sort(alloc: Global, document: &mut DocumentMut, path: &[Key]) -> Result<(), EditFault>
    ensures makes { Makes (effects.sorted (names path.now) (tree_owned document.old))
        (tree_owned document.old) (tree_owned document.new) result }
    ensures printed { IsPrintedAs document.new document.old }
{
    if path.is_empty() {
        return sort_root(alloc, document.as_table_mut());
    }
    open_along(document.as_item(), path);
    match document.change_at(path, |item| sort_item(alloc, item)) {
        Some(done) => done,
        None => Err(EditFault::NoSuchPath),
    }
}

/// Sorts the keys of the table, which keeps what it has beside them.
fn sort_root(alloc: Global, table: &mut Table) -> Result<(), EditFault>
    ensures makes { Makes (in_order (table_node (table_view table.old)))
        (table_node (table_view table.old)) (table_node (table_view table.new)) result }
    ensures fields { fields_view table.new ≡ fields_view table.old }
{
    sort_table(alloc, table)
}

/// Sorts the keys of the item, if it is a table or an inline table.
fn sort_item(alloc: Global, item: &mut Item) -> Result<(), EditFault>
    ensures { Makes (in_order (item_view item.old)) (item_view item.old) (item_view item.new)
        result }
{
    match item {
        Item::Table(table) => sort_table(alloc, table),
        Item::Value(value) => match value {
            Value::InlineTable(table) => sort_inline_table(alloc, table),
            _ => Err(EditFault::WrongKind),
        },
        Item::None | Item::ArrayOfTables(_) => Err(EditFault::WrongKind),
    }
}

/// Sorts the keys of the table.
fn sort_table(alloc: Global, table: &mut Table) -> Result<(), EditFault>
    ensures { Makes (in_order (table_node (table_view table.old)))
        (table_node (table_view table.old)) (table_node (table_view table.new)) result }
{
    // A copy is sorted, so that nothing changes if memory runs out.
    let mut copy = table.clone(alloc)?;
    copy.sort_values()?;
    drop(mem::replace(table, copy));
    Ok(())
}

/// Sorts the keys of the inline table.
fn sort_inline_table(alloc: Global, table: &mut InlineTable) -> Result<(), EditFault>
    ensures { Makes (in_order (inline_node (inline_view table.old)))
        (inline_node (inline_view table.old)) (inline_node (inline_view table.new)) result }
{
    let mut copy = table.clone(alloc)?;
    copy.sort_values()?;
    drop(mem::replace(table, copy));
    Ok(())
}

/// Sets the comment after the value or the header at the path, or removes it if it is empty.
pub(crate) fn comment(
    alloc: Global,
    document: &mut DocumentMut,
    path: &[Key],
    text: &str,
) -> Result<(), EditFault>
    ensures makes { Makes
        (effects.commented (names path.now) text.now (tree_owned document.old))
        (tree_owned document.old) (tree_owned document.new) result }
    ensures printed { IsPrintedAs document.new document.old }
{
    open_along(document.as_item(), path);
    match document.change_at(path, |item| comment_item(alloc, item, text)) {
        Some(done) => done,
        None => Err(EditFault::NoSuchPath),
    }
}

/// Sets the comment after the item, if it is a value or a table with a header.
fn comment_item(alloc: Global, item: &mut Item, text: &str) -> Result<(), EditFault>
    ensures { Makes (with_comment text.now (item_view item.old)) (item_view item.old)
        (item_view item.new) result }
{
    match item {
        Item::Value(value) => comment_value(alloc, value, text),
        Item::Table(table) => comment_table(alloc, table, text),
        Item::None | Item::ArrayOfTables(_) => Err(EditFault::WrongKind),
    }
}

/// Sets the comment after the value.
fn comment_value(alloc: Global, value: &mut Value, text: &str) -> Result<(), EditFault>
    ensures { Makes (with_comment text.now (value_view value.old)) (value_view value.old)
        (value_view value.new) result }
{
    Ok(value.decor_mut().set_comment_after(alloc, body_of(text))?)
}

/// Sets the comment after the header of the table, if it has one.
fn comment_table(alloc: Global, table: &mut Table, text: &str) -> Result<(), EditFault>
    ensures { Makes (with_comment text.now (table_node (table_view table.old)))
        (table_node (table_view table.old)) (table_node (table_view table.new)) result }
{
    if table.is_dotted() || table.is_implicit() {
        return Err(EditFault::WrongKind);
    }
    Ok(table.decor_mut().set_comment_after(alloc, body_of(text))?)
}

/// Returns the text, or `None` if it is empty.
fn body_of(text: &str) -> Option<&str>
    ensures { option_copied result ≡ effects.body_of text.now }
{
    if text.is_empty() { None } else { Some(text) }
}

/// Returns what stands after the `#` of a comment that is asked for by this text, as
/// [`Edit::Comment`](crate::Edit::Comment) wants it.
///
/// A text that begins with `#` is the comment as it stands, and any other is put behind `# `. The
/// empty text asks for no comment, and so does a `#` alone.
///
/// # Errors
///
/// Returns an `AllocError` if out of memory.
pub fn comment_text(alloc: Global, text: &str) -> Mem<String>
    ensures { IfOk result (λ made. string_bytes made ≡ effects.comment_text text.now) }
{
    if text.is_empty() {
        return Ok(String::new(alloc));
    }
    match text.strip_prefix('#') {
        Some(rest) => String::from_str(alloc, rest),
        None => spaced(alloc, text),
    }
}

/// Returns the text behind a space.
fn spaced(alloc: Global, text: &str) -> Mem<String>
    ensures { IfOk result (λ made. string_bytes made ≡ space ∷ text.now) }
{
    let mut made = String::new(alloc);
    made.push(' ')?;
    made.push_str(text)?;
    Ok(made)
}
