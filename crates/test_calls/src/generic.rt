//! The functions of the guide on first elements, and on tables and streams of any kind.
ghost use Rattle.toml_edit.specs.model.Conversions.{value_display};
ghost use Rattle.toml_edit.specs.model.DefaultSpelling.{default_spelling};
ghost use Rattle.toml_edit.specs.model.Scalars.{boolean};
ghost use Rattle.toml_edit.specs.tree.View.{value_view};

use crate::guide::done;
use crate::holding::is_text;
use crate::streams::{Drip, Short};
use example_calls::adding::{make_slot, name_of};
use example_calls::first::{
    first_pair, first_table, first_value, into_pair, into_slot, into_table, into_value,
};
use example_calls::generic::{
    count_slots, default_of, first_key, has_key, is_new, item_in, key_in, print_to_writer,
    put_default, put_text, read_piece, read_value, source_of,
};
use std::alloc::{AllocError, Global};
use toml_edit::{
    Document, DocumentMut, Item, Mem, Printed, Sink, Table, TableLike, Value, Watched,
};
use toml_edit_io::print;

const TEXT: &str = "a = [ 1, 2 ]\nt = { 'x' = 3, y = 4 }\n\n[[w]]\nz = 0x5\n";

fn in_array(root: &Table) -> Option<i64> {
    first_value(root.get("a")?.as_array()?)?.as_integer()
}

fn in_inline_table(root: &Table) -> Option<i64> {
    let (name, value) = first_pair(root.get("t")?.as_inline_table()?)?;
    if name == "x" {
        value.as_integer()
    } else {
        None
    }
}

fn in_tables(root: &Table) -> Option<i64> {
    first_table(root.get("w")?.as_array_of_tables()?)?
        .get("z")?
        .as_integer()
}

/// Returns the integer of a value, and drops it.
fn integer_of(value: Option<Value>) -> Option<i64> {
    match value {
        Some(value) => value.as_integer(),
        None => None,
    }
}

/// Takes an item apart, and returns the integer that comes first.
fn taken(item: Option<Item>) -> Option<i64> {
    match item {
        Some(Item::Value(Value::Array(array))) => integer_of(into_value(array)),
        Some(Item::Value(Value::InlineTable(table))) => match into_pair(table) {
            Some((name, value)) => {
                drop(name);
                value.as_integer()
            }
            None => None,
        },
        Some(Item::ArrayOfTables(tables)) => match into_table(tables) {
            Some(table) => in_slot(table),
            None => None,
        },
        other => {
            drop(other);
            None
        }
    }
}

/// Takes a table apart, and returns the integer of its first slot.
fn in_slot(table: Table) -> Option<i64> {
    match into_slot(table) {
        Some((name, item)) => {
            drop(name);
            item.as_integer()
        }
        None => None,
    }
}

fn finds_the_first(root: &mut Table) -> bool {
    in_array(root) == Some(1)
        && in_inline_table(root) == Some(3)
        && in_tables(root) == Some(5)
        && taken(root.remove("a")) == Some(1)
        && taken(root.remove("t")) == Some(3)
        && taken(root.remove("w")) == Some(5)
}

#[test]
fn first_elements(rt: HostRuntime) {
    match DocumentMut::from_str(rt.alloc(), TEXT) {
        Ok(mut document) => assert!(rt; finds_the_first(document.as_table_mut())),
        Err(_) => assert!(rt; false),
    }
}

/// A value, put by the function of the guide.
#[derive(Drop)]
struct Put<'a>(&'a Value);

impl Printed for Put<'_> {
    ghost text = { λ put. value_display (value_view put.0.now) };

    fn put_into<S: Sink>(&self, out: &mut S) {
        put_text(self.0, out)
    }
}

/// The default spelling of a boolean, put by the function of the guide.
#[derive(Drop)]
struct Spelled(bool);

impl Printed for Spelled {
    ghost text = { λ spelled. default_spelling (boolean spelled.0) };

    fn put_into<S: Sink>(&self, out: &mut S) {
        put_default(&self.0, out)
    }
}

fn puts_array(alloc: Global, root: &Table) -> bool {
    match root.get("a").and_then(|item| item.as_value()) {
        Some(value) => is_text(print(alloc, &Put(value)), " [ 1, 2 ]"),
        None => false,
    }
}

/// Returns `true` if the default spelling of the integer is this text.
fn is_spelled(alloc: Global, item: Option<&Item>, wanted: &str) -> bool {
    match item {
        Some(Item::Value(Value::Integer(number))) => match default_of(alloc, number) {
            Ok(repr) => repr.as_raw().as_str() == Some(wanted),
            Err(_) => false,
        },
        _ => false,
    }
}

fn spells(alloc: Global, root: &Table) -> bool {
    match root.get("w").and_then(|item| item.as_array_of_tables()) {
        Some(tables) => match first_table(tables) {
            Some(table) => is_spelled(alloc, table.get("z"), "5"),
            None => false,
        },
        None => false,
    }
}

#[test]
fn puts_and_spells(rt: HostRuntime) {
    assert!(rt; is_text(print(rt.alloc(), &Spelled(true)), "true"));
    match DocumentMut::from_str(rt.alloc(), TEXT) {
        Ok(document) => {
            assert!(rt; puts_array(rt.alloc(), document.as_table()));
            assert!(rt; spells(rt.alloc(), document.as_table()));
        }
        Err(_) => assert!(rt; false),
    }
}

fn has_integer(root: &mut Table, key: &str, wanted: i64) -> bool {
    match TableLike::slot_mut(root, key) {
        Some(slot) => item_in(&slot).as_integer() == Some(wanted),
        None => false,
    }
}

fn has_spelling(root: &mut Table, wanted: &str) -> bool {
    match root
        .get_mut("t")
        .and_then(|item| item.as_inline_table_mut())
    {
        Some(table) => match table.slot_mut("x") {
            Some(slot) => match key_in(&slot).as_repr() {
                Some(repr) => repr.as_raw().as_str() == Some(wanted),
                None => false,
            },
            None => false,
        },
        None => false,
    }
}

fn names_entry(root: &mut Table, name: &str) -> Mem<bool> {
    let entry = root.entry(name)?;
    Ok(name_of(&entry) == name)
}

fn has_slots(alloc: Global, root: &mut Table) -> Mem<()> {
    let is_first = match first_key(root) {
        Some(key) => key.get() == "n",
        None => false,
    };
    let is_known = has_key(root, "n") && !has_key(root, "m") && !is_new(root, "n");
    let was_new = is_new(root, "m");
    let counted = count_slots(root) == 2;
    if make_slot(alloc, root, "m").is_err() {
        return Err(AllocError);
    }
    done(is_first && is_known && was_new && counted && count_slots(root) == 3)?;
    done(has_integer(root, "n", 7) && has_spelling(root, "'x'"))?;
    let is_named = names_entry(root, "n")? && names_entry(root, "o")?;
    done(is_named)
}

#[test]
fn slots_of_any_table(rt: HostRuntime) {
    match DocumentMut::from_str(rt.alloc(), "n = 7\nt = { 'x' = 3 }\n") {
        Ok(mut document) => {
            assert!(rt; has_slots(rt.alloc(), document.as_table_mut()).is_ok());
            // The new slot has a placeholder.
            assert!(rt; is_text(document.print(rt.alloc()), "n = 7\nt = { 'x' = 3 }\n"));
        }
        Err(_) => assert!(rt; false),
    }
}

#[test]
fn source_and_values(rt: HostRuntime) {
    match Document::parse(rt.alloc(), TEXT) {
        Ok(document) => assert!(rt; source_of(&document) == TEXT),
        Err(_) => assert!(rt; false),
    }
    match read_value(rt.alloc(), "[1, 2]") {
        Ok(value) => assert!(rt; value.is_array()),
        Err(_) => assert!(rt; false),
    }
    assert!(rt; read_value(rt.alloc(), "{ a = 1, }").is_err());
}

#[test]
fn reads_a_piece(rt: HostRuntime) {
    let mut buffer = [0u8; 4];
    let mut input = Watched::new(Drip::of(b"ab", 1));
    assert!(rt; read_piece(&mut input, &mut buffer) == Ok(1) && buffer[0] == b'a');
    assert!(rt; read_piece(&mut input, &mut buffer).is_err());
}

fn writes(alloc: Global, document: &DocumentMut) -> bool {
    let mut held = Vec::new(alloc);
    let is_written = print_to_writer(alloc, document, Short::of(&mut held, 6)).is_ok();
    let mut short = Vec::new(alloc);
    let is_short = print_to_writer(alloc, document, Short::of(&mut short, 5)).is_err();
    is_written && held.as_slice() == "a = 1\n".as_bytes() && is_short
}

#[test]
fn writes_to_a_writer(rt: HostRuntime) {
    match DocumentMut::from_str(rt.alloc(), "a = 1\n") {
        Ok(document) => assert!(rt; writes(rt.alloc(), &document)),
        Err(_) => assert!(rt; false),
    }
}
