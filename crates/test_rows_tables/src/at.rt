//! Items of a document that are found, set, removed, renamed and moved by their paths.
use crate::table;
use serde_json::Value as Json;
use std::mem;
use test_rows_read::steps::{behind, index, word};
use test_rows_read::tell::{Told, tell_renamed, tell_taken};
use test_rows_read::{Answer, make};
use toml_edit::{ChangeFault, DocumentMut, Item, Key, Value};

/// Writes the item at the path that the second word spells, or answers a question on it.
pub fn ask(document: &DocumentMut, words: &[Json], out: &mut Answer) {
    match make::path(word(words, 1), out) {
        Some(path) => tell(document.get_at(path.as_slice()), behind(words, 2), out),
        None => out.text("no path"),
    }
}

fn tell(found: Option<&Item>, words: &[Json], out: &mut Answer) {
    match found {
        Some(item) if words.is_empty() => item.tell(out),
        Some(item) => table::ask_item(item, words, out),
        None => out.text("none"),
    }
}

/// Sets, changes, removes, renames or moves what is at the path that the second word spells.
pub fn change(document: &mut DocumentMut, words: &[Json], out: &mut Answer) {
    match make::path(word(words, 1), out) {
        Some(path) => change_at(document, path.as_slice(), words, out),
        None => out.text("no path"),
    }
}

fn change_at(document: &mut DocumentMut, path: &[Key], words: &[Json], out: &mut Answer) {
    match word(words, 0) {
        "remove_at" => tell_changed(document.remove_at(path), out),
        "remove_line_at" => tell_changed(document.remove_line_at(path), out),
        "rename_at" => tell_renamed(document.rename_at(path, word(words, 2)), out),
        "move_at" => out.truth(document.move_at(path, index(behind(words, 1)))),
        "change_at" => tell_taken(document.change_at(path, |item| to_zero(item)), out),
        "set_at" => set(document, path, make::value(behind(words, 2), out), out),
        _ => set_with_headers(document, path, make::value(behind(words, 2), out), out),
    }
}

/// Writes the value 0 over the item, and returns the old one.
fn to_zero(item: &mut Item) -> Item {
    mem::replace(item, toml_edit::value(0_i64))
}

fn set(document: &mut DocumentMut, path: &[Key], made: Option<Value>, out: &mut Answer) {
    match made {
        Some(value) => tell_changed(document.set_at(path, value), out),
        None => out.text("no value"),
    }
}

fn set_with_headers(
    document: &mut DocumentMut,
    path: &[Key],
    made: Option<Value>,
    out: &mut Answer,
) {
    match made {
        Some(value) => tell_changed(document.set_at_with_headers(path, value), out),
        None => out.text("no value"),
    }
}

/// Writes why the change is refused, if it is. Notes it if memory ran out.
fn tell_changed(changed: Result<(), ChangeFault>, out: &mut Answer) {
    match changed {
        Ok(()) => {}
        Err(ChangeFault::Memory) => out.refuse(),
        Err(fault) => out.shown(&fault),
    }
}
