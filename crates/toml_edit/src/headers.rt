//! The tables of a document that have headers, in the order in which the headers are printed.
ghost use Rattle.std.specs.Prelude.{◌≡◌, ◌++◌, ◌∷◌, [], List, OnOk, IfOk, false, map};
ghost use Rattle.toml_edit_model.specs.Tree.{Key as KeyView};
ghost use Rattle.toml_edit_model.specs.Order.{sorted_by};
ghost use Rattle.toml_edit_laws.specs.PrintByVisits.{Walked, by_place, enter, headed_tables, walked, walked_items, walked_node};
ghost use Rattle.toml_edit_tree.specs.Printing.{keys_on};
ghost use Rattle.toml_edit_tree.specs.View.{fields_view, item_view, items_view, slots_view, table_slots};
ghost use Rattle.toml_edit.specs.HeadersView.{header_view, walk_view};

use bumpalo::Bump;
use std::alloc::AllocError;
use toml_edit_key::Key;
use toml_edit_repr::Mem;
use toml_edit_slots::Slots;
use toml_edit_tree::{Item, Path, Table, table_has_lines};

/// A table that has a header, with its place in the order of headers, the keys before its own, its
/// key, and whether it is an element of an array of tables.
#[derive(Clone, Copy)]
pub(crate) struct Header<'p, 'a> {
    pub(crate) place: isize,
    pub(crate) path: &'p Path<'p, 'a>,
    pub(crate) key: &'a Key,
    pub(crate) is_element: bool,
    pub(crate) table: &'a Table,
}

/// A walk over the tables of a document: those with headers until now, and the place of the last
/// table.
///
/// The arena holds a path for each table that has tables below it. It is its key and a reference to
/// the path of its parent, so no path is copied.
#[derive(Drop)]
struct Walk<'p, 'a> {
    arena: &'p Bump,
    headers: Vec<Header<'p, 'a>>,
    seen: isize,
}

/// Enters the tables of the slots, in order.
#[cycle(walk)]
fn enter_slots<'p, 'a>(
    walk: &mut Walk<'p, 'a>,
    slots: &'a Slots<Item>,
    path: &'p Path<'p, 'a>,
) -> Mem<()>
    ensures { OnOk result
        (walk_view walk.new
        ≡ walked (slots_view slots.now) (keys_on path.now) (walk_view walk.old)) }
{
    let entries = slots.as_slice();
    'slots: for slot in entries {
        enter_item(walk, &slot.item, &slot.key, path)?;
    }
    Ok(())
}

/// Enters the table of a slot, or the elements of its array of tables, and the tables below.
#[cycle(walk)]
fn enter_item<'p, 'a>(
    walk: &mut Walk<'p, 'a>,
    item: &'a Item,
    key: &'a Key,
    path: &'p Path<'p, 'a>,
) -> Mem<()>
    ensures { OnOk result
        (walk_view walk.new
        ≡ walked_node (item_view item.now) (keys_on path.now ++ (key.now ∷ []))
        (walk_view walk.old)) }
{
    match item {
        Item::Table(table) => enter_table(walk, table, false, key, path),
        Item::ArrayOfTables(tables) => enter_elements(walk, &tables.values, key, path),
        Item::None | Item::Value(_) => Ok(()),
    }
}

/// Enters the elements of an array of tables, in order, and the tables below them.
#[cycle(walk)]
fn enter_elements<'p, 'a>(
    walk: &mut Walk<'p, 'a>,
    items: &'a Vec<Item>,
    key: &'a Key,
    path: &'p Path<'p, 'a>,
) -> Mem<()>
    ensures { OnOk result (walk_view walk.new
        ≡ walked_items (items_view items.now.items) (keys_on path.now ++ (key.now ∷ []))
        (walk_view walk.old)) }
{
    'items: for item in items {
        if let Item::Table(table) = item {
            enter_table(walk, table, true, key, path)?;
        }
    }
    Ok(())
}

/// Enters a table, and those below it.
#[cycle(walk)]
fn enter_table<'p, 'a>(
    walk: &mut Walk<'p, 'a>,
    table: &'a Table,
    is_element: bool,
    key: &'a Key,
    path: &'p Path<'p, 'a>,
) -> Mem<()>
    ensures { OnOk result (walk_view walk.new
        ≡ walked (table_slots table.now) (keys_on path.now ++ (key.now ∷ []))
        (enter (walk_view walk.old) (keys_on path.now ++ (key.now ∷ [])) is_element
        (fields_view table.now) (table_slots table.now))) }
{
    add_table(walk, table, is_element, key, path)?;
    if !have_tables(&table.slots) {
        return Ok(());
    }
    let under = add_key(walk.arena, key, path)?;
    enter_slots(walk, &table.slots, under)
}

/// Returns `false` only if none of the slots holds a table or an array of tables.
fn have_tables(slots: &Slots<Item>) -> bool
    ensures { (keys : List KeyView) → (before : Walked) → result ≡ false
        → walked (slots_view slots.now) keys before ≡ before }
{
    let entries = slots.as_slice();
    'slots: for slot in entries {
        if holds_tables(&slot.item) {
            return true;
        }
    }
    false
}

/// Returns `true` if the item is a table or an array of tables.
fn holds_tables(item: &Item) -> bool
    ensures { (keys : List KeyView) → (before : Walked) → result ≡ false
        → walked_node (item_view item.now) keys before ≡ before }
{
    match item {
        Item::Table(_) | Item::ArrayOfTables(_) => true,
        Item::None | Item::Value(_) => false,
    }
}

/// Returns the path with `key` at its end.
fn add_key<'p, 'a>(arena: &'p Bump, key: &'a Key, path: &'p Path<'p, 'a>) -> Mem<&'p Path<'p, 'a>>
    ensures { IfOk result (λ under. keys_on under.now ≡ keys_on path.now ++ (key.now ∷ [])) }
{
    match arena.try_alloc(Path::Under(path, key)) {
        Ok(under) => Ok(under),
        Err(_) => Err(AllocError),
    }
}

/// Adds a table at the end if it has a header, and notes its place. One without a position has the
/// place of the table before it. A dotted table is passed over.
fn add_table<'p, 'a>(
    walk: &mut Walk<'p, 'a>,
    table: &'a Table,
    is_element: bool,
    key: &'a Key,
    path: &'p Path<'p, 'a>,
) -> Mem<()>
    ensures { OnOk result (walk_view walk.new
        ≡ enter (walk_view walk.old) (keys_on path.now ++ (key.now ∷ [])) is_element
        (fields_view table.now) (table_slots table.now)) }
{
    if table.is_dotted() {
        return Ok(());
    }
    let place = table.position().unwrap_or(walk.seen);
    walk.seen = place;
    if is_element || !table.is_implicit() || table_has_lines(table) {
        walk.headers.push(Header {
            place,
            path,
            key,
            is_element,
            table,
        })?;
    }
    Ok(())
}

/// Sorts the headers by their places. Those of one place stay in the order of the walk.
fn sort_headers(headers: &mut Vec<Header<'_, '_>>) -> Mem<()>
    ensures { OnOk result
        (map header_view headers.new.items
        ≡ sorted_by by_place (map header_view headers.old.items)) }
{
    headers.sort_by_key(|header| header.place)?;
    Ok(())
}

/// Returns the tables below the root that have headers, in the order in which the headers are
/// printed.
///
/// Fails only if out of memory. A document without tables takes no memory.
pub(crate) fn headers_in_order<'p, 'a>(
    arena: &'p Bump,
    root: &'a Table,
    top: &'p Path<'p, 'a>,
) -> Mem<Vec<Header<'p, 'a>>>
    requires { keys_on top.now ≡ [] }
    ensures { IfOk result (λ headers. map header_view headers.items
        ≡ sorted_by by_place (headed_tables (fields_view root.now) (table_slots root.now))) }
{
    let seen = if root.is_dotted() {
        0
    } else {
        root.position().unwrap_or(0)
    };
    let mut walk = Walk {
        arena,
        headers: Vec::new(root.slots.allocator()),
        seen,
    };
    enter_slots(&mut walk, &root.slots, top)?;
    let Walk { mut headers, .. } = walk;
    sort_headers(&mut headers)?;
    Ok(headers)
}
