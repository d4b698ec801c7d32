//! An empty table with a header, which is printed after all others.
ghost use Rattle.std.specs.Prelude.{◌≡◌, ℤ, IfOk};
ghost use Rattle.toml_edit_model.specs.Tree.{Node};
ghost use Rattle.toml_edit_tree.specs.Containers.{table_node};
ghost use Rattle.toml_edit_tree.specs.View.{item_view, items_view, slots_view, table_view};
ghost use Rattle.toml_edit.specs.DocumentView.{IsPrintedAs, tree_owned};
ghost use Rattle.toml_edit_edits.specs.Outcomes.{Makes};
ghost use Rattle.toml_edit_edits.specs.Sections as sections;
ghost use Rattle.toml_edit_edits.specs.Sections.{latest, latest_items, latest_slots, next_position, section};

use crate::fault::EditFault;
use crate::first_table::slot_below;
use crate::missing::{is_numbered, keys_there};
use crate::moves::put_slot;
use std::alloc::Global;
use toml_edit::{DocumentMut, Item, Key, Mem, RawString, Slots, Table};

/// Adds an empty table with a header at the path, where nothing is.
pub(crate) fn add_section(
    alloc: Global,
    document: &mut DocumentMut,
    path: &[Key],
) -> Result<(), EditFault>
    ensures makes { Makes (sections.sectioned path.now (tree_owned document.old))
        (tree_owned document.old) (tree_owned document.new) result }
    ensures printed { IsPrintedAs document.new document.old }
{
    let there = keys_there(document.as_item(), path);
    match path[there..].split_first() {
        None => Err(EditFault::Taken),
        Some((key, more)) => {
            if is_numbered(&path[there..]) {
                return Err(EditFault::NoSuchPath);
            }
            let section = section_of(alloc, document)?;
            let slot = slot_below(alloc, key, more, section)?;
            put_slot(document, &path[..there], slot)
        }
    }
}

/// Returns an empty table whose header is printed after all others of the document.
fn section_of(alloc: Global, document: &DocumentMut) -> Mem<Item>
    ensures { IfOk result (λ item. item_view item ≡ section (tree_owned document.now)) }
{
    let prefix = RawString::from_text(alloc, space_before(document))?;
    let mut table = Table::new(alloc);
    table.decor_mut().set_prefix(prefix);
    table.set_position(Some(position_in(document)));
    Ok(Item::Table(table))
}

/// Returns the position after all others of the document, or the last one if that is taken.
fn position_in(document: &DocumentMut) -> isize
    ensures { result ≡ next_position (tree_owned document.now) }
{
    let last = latest_in(document.as_item(), 0);
    if last < isize::MAX { last + 1 } else { last }
}

/// Returns what is printed before the header: an empty line, unless it is all that is printed.
fn space_before(document: &DocumentMut) -> &'static str
    ensures { result.now ≡ sections.space_before (tree_owned document.now) }
{
    if document.as_table().is_empty() {
        ""
    } else {
        "\n"
    }
}

/// Returns the position if it is greater than the number, which is returned else.
fn later(seen: isize, position: Option<isize>) -> isize
    ensures { result ≡ sections.later seen position }
{
    match position {
        Some(position) if position > seen => position,
        _ => seen,
    }
}

/// Returns the greatest of the number and the positions of all tables of the item.
#[cycle(latest)]
fn latest_in(item: &Item, seen: isize) -> isize
    ensures { result ≡ latest seen (item_view item.now) }
{
    match item {
        Item::None | Item::Value(_) => seen,
        Item::Table(table) => latest_in_table(table, seen),
        Item::ArrayOfTables(tables) => latest_in_items(&tables.values, seen),
    }
}

/// Returns the greatest of the number, the position of the table and those in it.
#[cycle(latest)]
fn latest_in_table(table: &Table, seen: isize) -> isize
    ensures { result ≡ latest seen (table_node (table_view table.now)) }
{
    latest_in_slots(&table.slots, later(seen, table.position()))
}

/// Returns the greatest of the number and the positions of all tables of the items.
#[cycle(latest)]
fn latest_in_items(items: &Vec<Item>, seen: isize) -> isize
    ensures { result ≡ latest_items seen (items_view items.now.items) }
{
    let mut last = seen;
    for at in 0..items.len() {
        last = latest_in(&items[at], last);
    }
    last
}

/// Returns the greatest of the number and the positions of all tables of the slots.
#[cycle(latest)]
fn latest_in_slots(slots: &Slots<Item>, seen: isize) -> isize
    ensures { result ≡ latest_slots seen (slots_view slots.now) }
{
    let entries = slots.as_slice();
    let mut last = seen;
    'slots: for slot in entries {
        last = latest_in(&slot.item, last);
    }
    last
}
