//! Removing many keys of one table at once.
ghost use Rattle.std.specs.Prelude.{◌≡◌, ◌≤◌, length, not, string_bytes, take, Ok, IfSome};
ghost use Rattle.std.specs.Bool.{OnFalse, OnTrue};
ghost use Rattle.toml_edit_model.specs.Keys.{names as names_of};
ghost use Rattle.toml_edit_model.specs.Tree.{Tree};
ghost use Rattle.indexmap.specs.IndexSet.{IsUnchanged, index_set_len};
ghost use Rattle.toml_edit_tree.specs.Containers.{table_node};
ghost use Rattle.toml_edit_tree.specs.Indexed.{shown_slots};
ghost use Rattle.toml_edit_tree.specs.View.{fields_view, item_view, table_view};
ghost use Rattle.toml_edit.specs.DocumentView.{IsPrintedAs, tree_owned};
ghost use Rattle.toml_edit_edits.specs.Effects as effects;
ghost use Rattle.toml_edit_edits.specs.Effects.{on_table};
ghost use Rattle.toml_edit_edits.specs.Lists.{applied, effect};
ghost use Rattle.toml_edit_edits.specs.Outcomes.{Makes};
ghost use Rattle.toml_edit_edits.specs.Removes.{AddsName, AddsText, RemoveAll, all_removed, is_among, slots_without, texts, without_all};

use crate::along::open_along;
use crate::edit::Edit;
use crate::fault::EditFault;
use indexmap::IndexSet;
use std::alloc::Global;
use toml_edit::{DocumentMut, Item, Key, Slots, Table};

/// Removes the keys of one table that the edits at the front remove, and returns how many edits these
/// are.
///
/// They end before an edit of another kind, of another table, or of a key that is not there. If memory
/// runs out, they are fewer.
pub(crate) fn remove_first(alloc: Global, document: &mut DocumentMut, edits: &[Edit]) -> usize
    ensures within { result ≤ length edits.now }
    ensures applied { applied (take result edits.now) (tree_owned document.old)
        ≡ Ok (tree_owned document.new) }
    ensures printed { IsPrintedAs document.new document.old }
{
    let Some(first) = edits.first() else {
        return 0;
    };
    let Some(path) = removed_path(first) else {
        return 0;
    };
    let Some((_, above)) = path.split_last() else {
        return 0;
    };
    if !has_keys(document, above) {
        return 0;
    }
    let names = names_there(alloc, document, edits, above);
    if names.len() < 2 {
        return 0;
    }
    match drop_keys(document, above, &names) {
        Ok(()) => names.len(),
        Err(_) => 0,
    }
}

/// Returns `true` if a table or an inline table is at the path.
fn has_keys(document: &DocumentMut, path: &[Key]) -> bool {
    match document.get_at(path) {
        Some(item) => item.as_slots().is_some(),
        None => false,
    }
}

/// Returns the path of an edit that removes.
fn removed_path(edit: &Edit) -> Option<&[Key]>
    ensures { IfSome result (λ path. (t : Tree)
        → effect edit.now t ≡ effects.removed (names_of path.now) t) }
{
    match edit {
        Edit::Remove(path) => Some(path.as_slice()),
        _ => None,
    }
}

/// Returns the names of the keys that the edits at the front remove below the path, if they are all
/// there.
fn names_there(
    alloc: Global,
    document: &DocumentMut,
    edits: &[Edit],
    above: &[Key],
) -> IndexSet<String>
    ensures within { index_set_len result ≤ length edits.now }
    ensures removed { RemoveAll (take (index_set_len result) edits.now) (names_of above.now)
        (texts result) (tree_owned document.now) }
{
    open_along(document.as_item(), above);
    let mut names = IndexSet::new(alloc);
    for at in 0..edits.len() {
        if !add_name(alloc, &mut names, document, &edits[at], above) {
            return names;
        }
    }
    names
}

/// Adds the name of the key that the edit removes below the path. Returns `false` if it removes none
/// that is there, or one of these names again, or if memory runs out.
fn add_name(
    alloc: Global,
    names: &mut IndexSet<String>,
    document: &DocumentMut,
    edit: &Edit,
    above: &[Key],
) -> bool
    ensures added { OnTrue result (AddsName edit.now (names_of above.now)
        (tree_owned document.now) (texts names.old) (texts names.new)) }
    ensures stays { OnFalse result (IsUnchanged names.old names.new) }
{
    let Some(path) = removed_path(edit) else {
        return false;
    };
    let Some((key, table)) = path.split_last() else {
        return false;
    };
    if table == above && document.get_at(path).is_some() {
        match String::from_str(alloc, key.get()) {
            Ok(name) => add_text(names, name),
            Err(_) => false,
        }
    } else {
        false
    }
}

/// Adds the name. Returns `false` if it is there, or if memory runs out.
fn add_text(names: &mut IndexSet<String>, name: String) -> bool
    ensures added { OnTrue result (AddsText (string_bytes name) (texts names.old) (texts names.new)) }
    ensures stays { OnFalse result (IsUnchanged names.old names.new) }
{
    names.insert(name).unwrap_or(false)
}

/// Removes the keys of these names from the table at the path.
fn drop_keys(
    document: &mut DocumentMut,
    path: &[Key],
    names: &IndexSet<String>,
) -> Result<(), EditFault>
    ensures makes { Makes
        (all_removed (texts names.now) (names_of path.now) (tree_owned document.old))
        (tree_owned document.old) (tree_owned document.new) result }
    ensures printed { IsPrintedAs document.new document.old }
{
    if path.is_empty() {
        return drop_in_table(document.as_table_mut(), names);
    }
    open_along(document.as_item(), path);
    match document.change_at(path, |item| drop_in_item(item, names)) {
        Some(done) => done,
        None => Err(EditFault::NoSuchPath),
    }
}

/// Removes the keys of these names from the table.
fn drop_in_table(table: &mut Table, names: &IndexSet<String>) -> Result<(), EditFault>
    ensures makes { Makes
        (on_table (slots_without (texts names.now)) (table_node (table_view table.old)))
        (table_node (table_view table.old)) (table_node (table_view table.new)) result }
    ensures fields { fields_view table.new ≡ fields_view table.old }
{
    drop_slots(table.slots_mut(), names);
    Ok(())
}

/// Removes the keys of these names from the item, if it is a table or an inline table.
fn drop_in_item(item: &mut Item, names: &IndexSet<String>) -> Result<(), EditFault>
    ensures { Makes
        (on_table (slots_without (texts names.now)) (item_view item.old))
        (item_view item.old) (item_view item.new) result }
{
    match item.as_slots_mut() {
        Some(slots) => {
            drop_slots(slots, names);
            Ok(())
        }
        None => Err(EditFault::WrongKind),
    }
}

/// Removes the slots that have one of these names.
fn drop_slots(slots: &mut Slots<Item>, names: &IndexSet<String>)
    ensures { shown_slots slots.new ≡ without_all (texts names.now) (shown_slots slots.old) }
{
    slots.retain(
        |name, _item|
            ensures { result ≡ not (is_among name.entry.now (texts names.entry.now)) }
        { !names.contains(name) },
    );
}
