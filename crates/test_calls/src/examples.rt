//! The first example of each type in the documentation of the Rust crate, with the changes that
//! `docs/MIGRATING.md` lists.
use crate::holding::{holds_changed, is_text, no_memory};
use std::alloc::Global;
use std::mem;
use toml_edit::{
    Array, Document, DocumentMut, FromStr, IndexFault, InlineTable, Item, Key, Mem, Table, Value,
    value,
};

const HELLO: &str = "\n\"hello\" = 'toml!' # comment\n['a'.b]\n    ";

/// Returns `true` if the text is parsed, and the test holds that changes the document.
fn changes<F: Fn(Global, &mut DocumentMut) -> bool>(alloc: Global, text: &str, change: F) -> bool
    requires { F.IsAlwaysCallable change }
{
    match DocumentMut::from_str(alloc, text) {
        Ok(doc) => holds_changed(alloc, doc, change),
        Err(_) => false,
    }
}

fn add_pair(alloc: Global, doc: &mut DocumentMut) -> Result<(), IndexFault> {
    let a = doc.index_or_insert(alloc, "a")?;
    let c = a.index_or_insert(alloc, "b")?.index_or_insert(alloc, "c")?;
    let d = c.index_or_insert(alloc, "d")?;
    drop(mem::replace(d, value(Value::string(alloc, "hello")?)));
    c.as_inline_table_mut().map(|t| t.fmt());
    Ok(())
}

fn adds_pair(alloc: Global, doc: &mut DocumentMut) -> bool {
    let expected = "\n\"hello\" = 'toml!' # comment\n['a'.b]\nc = { d = \"hello\" }\n    ";
    is_text(doc.print(alloc), HELLO)
        && add_pair(alloc, doc).is_ok()
        && is_text(doc.print(alloc), expected)
}

#[test]
fn document_mut(rt: HostRuntime) {
    assert!(rt; changes(rt.alloc(), HELLO, adds_pair));
}

fn hides_a(alloc: Global, doc: &mut DocumentMut) -> bool {
    let a = doc.as_table_mut().get_mut("a");
    if let Some(a) = a.and_then(|item| item.as_table_mut()) {
        a.set_implicit(true);
    }
    is_text(doc.print(alloc), "[a.b]\n")
}

#[test]
fn table(rt: HostRuntime) {
    assert!(rt; changes(rt.alloc(), "[a]\n[a.b]\n", hides_a));
}

fn has_entry(_alloc: Global, map: &mut Table) -> bool {
    match map.entry("hello") {
        Ok(entry) => entry.key() == "hello",
        Err(_) => false,
    }
}

#[test]
fn entry(rt: HostRuntime) {
    assert!(rt; holds_changed(rt.alloc(), Table::new(rt.alloc()), has_entry));
}

fn has_inline_entry(_alloc: Global, map: &mut InlineTable) -> bool {
    match map.entry("hello") {
        Ok(entry) => entry.key() == "hello",
        Err(_) => false,
    }
}

#[test]
fn inline_table(rt: HostRuntime) {
    assert!(rt; holds_changed(rt.alloc(), InlineTable::new(rt.alloc()), has_inline_entry));
}

fn fill_array(alloc: Global, array: &mut Array) -> Mem<()> {
    array
        .push(Value::string(alloc, "hello")?)
        .map_err(no_memory)?;
    array
        .push(Value::string(alloc, "\\, world")?)
        .map_err(no_memory)
}

fn assign(alloc: Global, table: &mut Table, key: &str, item: Item) -> Result<(), IndexFault> {
    drop(mem::replace(table.index_or_insert(alloc, key)?, item));
    Ok(())
}

fn fill_table(alloc: Global, table: &mut Table) -> Result<(), IndexFault> {
    assign(alloc, table, "key1", value(Value::string(alloc, "value1")?))?;
    assign(alloc, table, "key2", value(42))?;
    let mut array = Array::new(alloc);
    fill_array(alloc, &mut array)?;
    assign(alloc, table, "key3", value(array))
}

fn fills_table(alloc: Global, table: &mut Table) -> bool {
    fill_table(alloc, table).is_ok()
        && is_text(
            table.to_string(alloc),
            "key1 = \"value1\"\nkey2 = 42\nkey3 = [\"hello\", '\\, world']\n",
        )
}

#[test]
fn item(rt: HostRuntime) {
    assert!(rt; holds_changed(rt.alloc(), Table::new(rt.alloc()), fills_table));
}

const KEYS: &str =
    "[dependencies.\"nom\"]\nversion = \"5.0\"\n'literal key' = \"nonsense\"\n\"basic string key\" = 42\n";

fn is_key(alloc: Global, text: &str, name: &str) -> bool {
    match Key::from_str(alloc, text) {
        Ok(key) => key.get() == name,
        Err(_) => false,
    }
}

fn has_keys(alloc: Global, doc: &mut DocumentMut) -> bool {
    let nom = doc
        .as_item()
        .get("dependencies")
        .and_then(|item| item.get("nom"));
    nom.and_then(|item| item.get("literal key"))
        .and_then(Item::as_str)
        == Some("nonsense")
        && nom
            .and_then(|item| item.get("basic string key"))
            .and_then(Item::as_integer)
            == Some(42)
        && is_text(doc.print(alloc), KEYS)
}

#[test]
fn key(rt: HostRuntime) {
    assert!(rt; is_key(rt.alloc(), "string", "string"));
    assert!(rt; is_key(rt.alloc(), "\"basic string key\"", "basic string key"));
    assert!(rt; is_key(rt.alloc(), "'literal key'", "literal key"));
    assert!(rt; changes(rt.alloc(), KEYS, has_keys));
}

fn is_hello(doc: &Document<&str>) -> bool {
    let hello = doc.as_table().get("hello");
    hello.and_then(Item::as_str) == Some("toml!") && doc.raw() == HELLO
}

#[test]
fn document(rt: HostRuntime) {
    match Document::parse(rt.alloc(), HELLO) {
        Ok(doc) => assert!(rt; is_hello(&doc)),
        Err(_) => assert!(rt; false),
    }
}
