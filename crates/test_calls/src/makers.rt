//! Calls that move their argument in or out, and errors that are made and not met.
use crate::holding::{holds, holds_moved, shows};
use std::alloc::Global;
use toml_edit::{Decor, Document, Formatted, Key, Mem, ParseFault, RawString, Value, value};

fn moves_text(_alloc: Global, text: String) -> bool {
    holds(Some(RawString::from(text)), is_moved)
}

fn is_moved(raw: &RawString) -> bool {
    raw.as_str() == Some("moved")
}

#[test]
fn moves_texts(rt: HostRuntime) {
    let text = String::from_str(rt.alloc(), "moved").ok();
    assert!(rt; holds_moved(rt.alloc(), text, moves_text));
}

fn moves_name(_alloc: Global, name: String) -> bool {
    String::from(Key::from(name)).as_str() == "a b"
}

#[test]
fn moves_names(rt: HostRuntime) {
    let name = String::from_str(rt.alloc(), "a b").ok();
    assert!(rt; holds_moved(rt.alloc(), name, moves_name));
}

#[test]
fn moves_scalars(rt: HostRuntime) {
    assert!(rt; Formatted::new(7i64).into_value() == 7);
}

fn takes_sides(_alloc: Global, key: Key) -> bool {
    let leaf = Decor::new(RawString::from_span(0, 1), RawString::default());
    let dotted = Decor::new(RawString::default(), RawString::from_span(2, 3));
    holds(
        Some(key.with_leaf_decor(leaf).with_dotted_decor(dotted)),
        has_sides,
    )
}

fn has_sides(key: &Key) -> bool {
    key.leaf_decor().prefix().and_then(RawString::span) == Some(0..1)
        && key.dotted_decor().suffix().and_then(RawString::span) == Some(2..3)
}

#[test]
fn moves_decors(rt: HostRuntime) {
    assert!(rt;
        holds_moved(
            rt.alloc(),
            Key::from_text(rt.alloc(), "k").ok(),
            takes_sides
        )
    );
}

fn takes_prefix(alloc: Global, before: RawString) -> bool {
    shows(
        alloc,
        Value::from(42).decorated(before, RawString::default()),
        " 42",
    )
}

fn takes_suffix(alloc: Global, after: RawString) -> bool {
    shows(
        alloc,
        Value::from(true).decorated(RawString::default(), after),
        "true ",
    )
}

#[test]
fn makes_items_of_what_converts_into_a_value(rt: HostRuntime) {
    assert!(rt; shows(rt.alloc(), value(42), "42"));
    assert!(rt; shows(rt.alloc(), value(true), "true"));
    assert!(rt; shows(rt.alloc(), value(Value::from(7)), "7"));
}

fn dependency(alloc: Global) -> Mem<Value> {
    let version = Value::string(alloc, "1.0")?;
    let features = Value::strings(alloc, &["derive", "rc"])?;
    let old = Value::from(0);
    let pairs = [
        ("version", old),
        ("features", features),
        ("version", version),
    ];
    Value::pairs(alloc, Vec::from_array(alloc, pairs)?)
}

#[test]
fn makes_values_of_names_and_strings(rt: HostRuntime) {
    assert!(rt; holds_moved(rt.alloc(), dependency(rt.alloc()).ok(), is_dependency));
}

fn is_dependency(alloc: Global, value: Value) -> bool {
    shows(
        alloc,
        value,
        "{ version = \"1.0\", features = [\"derive\", \"rc\"] }",
    )
}

#[test]
fn makes_paths_of_names(rt: HostRuntime) {
    let names = Key::path(rt.alloc(), &["a b", "c"]);
    assert!(rt; holds(names.ok(), has_both_names));
}

fn has_both_names(path: &Vec<Key>) -> bool {
    path.len() == 2 && path[0].get() == "a b" && path[1].get() == "c"
}

#[test]
fn moves_texts_around_a_value(rt: HostRuntime) {
    let alloc = rt.alloc();
    assert!(rt; holds_moved(alloc, RawString::from_text(alloc, " ").ok(), takes_prefix));
    assert!(rt; holds_moved(alloc, RawString::from_text(alloc, " ").ok(), takes_suffix));
}

fn keeps(alloc: Global, text: String) -> bool {
    holds(Document::parse(alloc, text).ok(), is_raw)
}

fn is_raw(document: &Document<String>) -> bool {
    document.raw() == "a = 1 # c\n"
}

#[test]
fn reads_a_text_of_its_own(rt: HostRuntime) {
    let text = String::from_str(rt.alloc(), "a = 1 # c\n").ok();
    assert!(rt; holds_moved(rt.alloc(), text, keeps));
}

#[test]
fn shows_that_memory_ran_out(rt: HostRuntime) {
    assert!(rt; shows(rt.alloc(), ParseFault::Memory, "out of memory\n"));
}
