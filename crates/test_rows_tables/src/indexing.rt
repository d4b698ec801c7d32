//! Items inside of items, by a number or a key.
use crate::program::Tables;
use serde_json::Value as Json;
use test_rows_read::steps::{behind, word};
use test_rows_read::tell::{Told, tell_lent, write};
use test_rows_read::{Answer, make};
use toml_edit::{DocumentMut, IndexFault, Item, Mem, Table};

/// Answers a question on an item inside this one: by a number if the second word is one, else by it
/// as a key.
pub fn ask(item: &Item, words: &[Json], out: &mut Answer) {
    let place = word(words, 1);
    match word(words, 0) {
        "item_get_text" => by_text(item, String::from_str(out.alloc, place), out),
        "item_brackets" => read(item, place, out),
        _ => match place.parse::<usize>() {
            Ok(at) => tell_lent(item.get(at), out),
            Err(_) => tell_lent(item.get(place), out),
        },
    }
}

/// Finds the item by a text that is lent, and then by one that is owned.
fn by_text(item: &Item, key: Mem<String>, out: &mut Answer) {
    match key {
        Ok(key) => {
            tell_lent(item.get(&key), out);
            out.text(" ");
            tell_lent(item.get(key), out);
        }
        Err(_) => out.refuse(),
    }
}

/// Finds the item by brackets, if it is there.
fn read(item: &Item, place: &str, out: &mut Answer) {
    match place.parse::<usize>() {
        Ok(at) => read_at(item, at, out),
        Err(_) => read_under(item, place, out),
    }
}

fn read_at(item: &Item, at: usize, out: &mut Answer) {
    match item.get(at) {
        Some(_) => item[at].tell(out),
        None => out.text("none"),
    }
}

fn read_under(item: &Item, key: &str, out: &mut Answer) {
    match item.get(key) {
        Some(_) => item[key].tell(out),
        None => out.text("none"),
    }
}

/// Changes an item, or one inside it.
pub fn change(item: &mut Item, words: &[Json], out: &mut Answer) {
    match word(words, 0) {
        "item_get_mut" => write_found(item, words, out),
        "item_get_mut_text" | "item_get_mut_owned" => {
            write_by_text(
                item,
                words,
                String::from_str(out.alloc, word(words, 1)),
                out,
            );
        }
        "item_or_insert" => fill(item, make::item::<Tables>(word(words, 1), out), out),
        _ => go_on(item, words, out),
    }
}

/// Writes an item over the one that the second word finds.
fn write_found(item: &mut Item, words: &[Json], out: &mut Answer) {
    let place = word(words, 1);
    let made = make::item::<Tables>(word(words, 2), out);
    match place.parse::<usize>() {
        Ok(at) => write(item.get_mut(at), made, out),
        Err(_) => write(item.get_mut(place), made, out),
    }
}

/// Writes an item over the one that a text finds, which is lent or owned.
fn write_by_text(item: &mut Item, words: &[Json], key: Mem<String>, out: &mut Answer) {
    let made = make::item::<Tables>(word(words, 2), out);
    match key {
        Ok(key) if word(words, 0) == "item_get_mut_owned" => write(item.get_mut(key), made, out),
        Ok(key) => write(item.get_mut(&key), made, out),
        Err(_) => {
            drop(made);
            out.refuse();
        }
    }
}

/// Writes the item under a key of a table, found by brackets, if it is there.
pub fn read_of_table(table: &Table, key: &str, out: &mut Answer) {
    match table.get(key) {
        Some(_) => table[key].tell(out),
        None => out.text("none"),
    }
}

/// Writes the item under a key of the root, found by brackets, if it is there.
pub fn read_of_document(document: &DocumentMut, key: &str, out: &mut Answer) {
    match document.as_table().get(key) {
        Some(_) => document[key].tell(out),
        None => out.text("none"),
    }
}

/// Writes the item, once a placeholder is filled.
fn fill(item: &mut Item, made: Option<Item>, out: &mut Answer) {
    match made {
        Some(made) => item.or_insert(made).tell(out),
        None => out.text("no item"),
    }
}

/// Finds or makes the item under a key of an item, and goes on there by the words after the key.
fn go_on(item: &mut Item, words: &[Json], out: &mut Answer) {
    match item.index_or_insert(out.alloc, word(words, 1)) {
        Ok(found) => below(found, behind(words, 2), out),
        Err(fault) => tell_fault(fault, out),
    }
}

/// Finds or makes the item under a key of a table, and goes on there by the words after the key.
pub fn go_down(table: &mut Table, words: &[Json], out: &mut Answer) {
    match table.index_or_insert(out.alloc, word(words, 1)) {
        Ok(found) => below(found, behind(words, 2), out),
        Err(fault) => tell_fault(fault, out),
    }
}

/// Finds or makes the item under a key of a document, and goes on there by the words after the key.
pub fn go_into(document: &mut DocumentMut, words: &[Json], out: &mut Answer) {
    match document.index_or_insert(out.alloc, word(words, 1)) {
        Ok(found) => below(found, behind(words, 2), out),
        Err(fault) => tell_fault(fault, out),
    }
}

/// Follows the words after the key, or goes down by one key more after each word `below`, of which
/// there may be three.
fn below(item: &mut Item, words: &[Json], out: &mut Answer) {
    if word(words, 0) != "below" {
        return end(item, words, out);
    }
    match item.index_or_insert(out.alloc, word(words, 1)) {
        Ok(found) => below_again(found, behind(words, 2), out),
        Err(fault) => tell_fault(fault, out),
    }
}

fn below_again(item: &mut Item, words: &[Json], out: &mut Answer) {
    if word(words, 0) != "below" {
        return end(item, words, out);
    }
    match item.index_or_insert(out.alloc, word(words, 1)) {
        Ok(found) => below_last(found, behind(words, 2), out),
        Err(fault) => tell_fault(fault, out),
    }
}

fn below_last(item: &mut Item, words: &[Json], out: &mut Answer) {
    if word(words, 0) != "below" {
        return end(item, words, out);
    }
    match item.index_or_insert(out.alloc, word(words, 1)) {
        Ok(found) => end(found, behind(words, 2), out),
        Err(fault) => tell_fault(fault, out),
    }
}

/// Writes the item, or changes it.
fn end(item: &mut Item, words: &[Json], out: &mut Answer) {
    match word(words, 0) {
        "fmt" => match item.as_inline_table_mut() {
            Some(table) => table.fmt(),
            None => out.text("no inline table"),
        },
        "becomes" => write(Some(item), make::item::<Tables>(word(words, 1), out), out),
        "" => item.tell(out),
        call => out.no_such(call),
    }
}

fn tell_fault(fault: IndexFault, out: &mut Answer) {
    match fault {
        IndexFault::WrongKind => out.shown(&fault),
        IndexFault::Memory => out.refuse(),
    }
}
