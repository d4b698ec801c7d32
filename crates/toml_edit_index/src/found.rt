//! The nodes of an index: those of a tree, added one after another.
ghost use Rattle.std.specs.Prelude.{◌≡◌, ◌<◌, [], ◌∷◌, IfOk, OnOk, length, option_map, suc};
ghost use Rattle.toml_edit_index.specs.IndexSteps.{Adds, AddsName, Closes, entries_with, opened};
ghost use Rattle.toml_edit_index.specs.Indexed.{after, before, entries_below, entries_of_elements, entries_of_slots, key_span, name_of, node_of, nowhere, start_of};
ghost use Rattle.toml_edit_index.specs.Lines.{AreLines};
ghost use Rattle.toml_edit_tree.specs.View.{item_view, items_view, slots_view, value_view};

use crate::lines::Lines;
use crate::node::{NOWHERE, Node, Span, kind_of};
use toml_edit::{Item, Key, Mem, Slots, Value};
use toml_edit_tree::table::is_filled;

/// The nodes that were found, and the names of their keys and the characters of their strings.
#[derive(Drop)]
pub struct Found<'a> {
    pub lines: Lines<'a>,
    pub nodes: Vec<Node>,
    pub names: Vec<u8>,
}

/// Says of a node that all that is below it is there.
pub fn close(index: &mut Found<'_>, at: usize)
    requires { at < length index.old.nodes.items }
    ensures { Closes at index.old index.new }
{
    let next = index.nodes.len();
    let node = index.nodes[at];
    index.nodes[at] = Node { next, ..node };
}

/// Adds the nodes of the slots of a node, and those below them.
#[cycle(index)]
#[inline(never)]
pub fn put_slots(index: &mut Found<'_>, parent: usize, slots: &Slots<Item>) -> Mem<()>
    requires lines { AreLines index.old.lines.bytes.now index.old.lines }
    ensures { OnOk result (Adds (entries_of_slots parent (length index.old.nodes.items)
        (slots_view slots.now)) index.old index.new) }
{
    let entries = slots.as_slice();
    'slots: for slot in entries {
        if is_filled(slot) {
            put_item(index, parent, Some(&slot.key), &slot.item)?;
        }
    }
    Ok(())
}

/// Adds the nodes of the elements of a node, and those below them.
#[cycle(index)]
#[inline(never)]
fn put_elements(index: &mut Found<'_>, parent: usize, items: &Vec<Item>) -> Mem<()>
    requires lines { AreLines index.old.lines.bytes.now index.old.lines }
    ensures { OnOk result (Adds (entries_of_elements parent (length index.old.nodes.items)
        (items_view items.now.items)) index.old index.new) }
{
    'items: for item in items {
        put_item(index, parent, None, item)?;
    }
    Ok(())
}

/// Adds the node of an item under a key, or without one, and those below it.
#[cycle(index)]
#[inline(always)]
fn put_item(index: &mut Found<'_>, parent: usize, key: Option<&Key>, item: &Item) -> Mem<()>
    requires lines { AreLines index.old.lines.bytes.now index.old.lines }
    ensures { OnOk result (Adds (entries_with parent (length index.old.nodes.items)
        (option_map (λ k. k.now) key.entry) (item_view item.now)) index.old index.new) }
{
    let at = put_node(index, parent, key, item)?;
    put_below(index, at, item)?;
    close(index, at);
    Ok(())
}

/// Adds the nodes below that of an item.
#[cycle(index)]
#[inline(always)]
fn put_below(index: &mut Found<'_>, at: usize, item: &Item) -> Mem<()>
    requires lines { AreLines index.old.lines.bytes.now index.old.lines }
    requires last { length index.old.nodes.items ≡ suc at }
    ensures { OnOk result (Adds (entries_below at (item_view item.now)) index.old index.new) }
{
    match item {
        Item::None => Ok(()),
        Item::Value(value) => put_in_value(index, at, value),
        Item::Table(table) => put_slots(index, at, &table.slots),
        Item::ArrayOfTables(tables) => put_elements(index, at, &tables.values),
    }
}

/// Adds the nodes below that of a value.
#[cycle(index)]
#[inline(always)]
fn put_in_value(index: &mut Found<'_>, at: usize, value: &Value) -> Mem<()>
    requires lines { AreLines index.old.lines.bytes.now index.old.lines }
    requires last { length index.old.nodes.items ≡ suc at }
    ensures { OnOk result (Adds (entries_below at (value_view value.now)) index.old index.new) }
{
    match value {
        Value::Array(array) => put_elements(index, at, &array.values),
        Value::InlineTable(table) => put_slots(index, at, &table.items),
        _ => Ok(()),
    }
}

/// Adds the node of an item under a key, or without one, and returns its number.
#[inline(never)]
fn put_node(index: &mut Found<'_>, parent: usize, key: Option<&Key>, item: &Item) -> Mem<usize>
    requires lines { AreLines index.old.lines.bytes.now index.old.lines }
    ensures number { IfOk result (λ at. at ≡ length index.old.nodes.items) }
    ensures node { OnOk result (Adds
        (opened parent (option_map (λ k. k.now) key.entry) (item_view item.now) ∷ [])
        index.old index.new) }
{
    let at = index.nodes.len();
    let name = put_text(index, name_of(key))?;
    let content = put_text(index, item.as_str())?;
    let node = placed(&index.lines, parent, key, item);
    index.nodes.push(Node {
        name,
        content,
        ..node
    })?;
    Ok(at)
}

/// Returns the node of an item, without its names.
fn placed(lines: &Lines<'_>, parent: usize, key: Option<&Key>, item: &Item) -> Node
    requires { AreLines lines.now.bytes.now lines.now }
    ensures { result ≡ record (node_of lines.now.bytes.now 0
        (opened parent (option_map (λ k. k.now) key.entry) (item_view item.now)))
        { name = nowhere; content = nowhere } }
{
    let position = lines.position(start_of(key, item));
    Node {
        kind: kind_of(item),
        parent,
        next: 0,
        name: NOWHERE,
        content: NOWHERE,
        key: key_span(key),
        item: Span::of_range(item.span()),
        before: before(key, item),
        after: after(item),
        line: position.line,
        column: position.column,
    }
}

/// Returns the byte where an item begins: its key, if it has one.
fn start_of(key: Option<&Key>, item: &Item) -> usize
    ensures { result ≡ start_of (option_map (λ k. k.now) key.entry) (item_view item.now) }
{
    match key {
        Some(key) => Span::of_range(key.span()).start,
        None => Span::of_range(item.span()).start,
    }
}

/// Returns where a key is spelled.
fn key_span(key: Option<&Key>) -> Span
    ensures { result ≡ key_span (option_map (λ k. k.now) key.entry) }
{
    match key {
        Some(key) => Span::of_range(key.span()),
        None => NOWHERE,
    }
}

/// Returns what is before an item: before its header, before its key, or before an element.
fn before(key: Option<&Key>, item: &Item) -> Span
    ensures { result ≡ before (option_map (λ k. k.now) key.entry) (item_view item.now) }
{
    match item {
        Item::Table(table) => Span::of_raw(table.decor().prefix()),
        Item::Value(value) => before_value(key, value),
        _ => NOWHERE,
    }
}

/// Returns what is before the key of a value, or before an element.
fn before_value(key: Option<&Key>, value: &Value) -> Span
    ensures { result ≡ before (option_map (λ k. k.now) key.entry) (value_view value.now) }
{
    match key {
        Some(key) => Span::of_raw(key.leaf_decor().prefix()),
        None => Span::of_raw(value.decor().prefix()),
    }
}

/// Returns what is after an item or its header.
fn after(item: &Item) -> Span
    ensures { result ≡ after (item_view item.now) }
{
    match item {
        Item::Table(table) => Span::of_raw(table.decor().suffix()),
        Item::Value(value) => Span::of_raw(value.decor().suffix()),
        _ => NOWHERE,
    }
}

/// Returns the name of a key.
fn name_of<'k>(key: Option<&'k Key>) -> Option<&'k str>
    ensures { option_map (λ t. t.now) result ≡ name_of (option_map (λ k. k.now) key.entry) }
{
    match key {
        Some(key) => Some(key.get()),
        None => None,
    }
}

/// Adds a text to the names, if there is one, and returns where it is.
fn put_text(index: &mut Found<'_>, text: Option<&str>) -> Mem<Span>
    ensures { IfOk result (λ s. AddsName (option_map (λ t. t.now) text.entry) s index.old index.new) }
{
    let Some(text) = text else {
        return Ok(NOWHERE);
    };
    let start = index.names.len();
    index.names.extend_from_slice(text.as_bytes())?;
    Ok(Span {
        start,
        end: index.names.len(),
    })
}
