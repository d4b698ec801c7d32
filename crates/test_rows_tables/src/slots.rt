//! Questions on the slots of a table, and steps that change them.
use crate::program::Tables;
use crate::{convert, entry, rearrange};
use serde_json::Value as Json;
use std::mem;
use test_rows_read::steps::{behind, word};
use test_rows_read::tell::{tell_found, tell_old, tell_taken};
use test_rows_read::{Answer, lines, make, steps};
use toml_edit::{Item, Key, Mem, Table};

/// Writes the number of slots, the slot at a place or under a key, or the lines.
pub fn tell(table: &Table, words: &[Json], out: &mut Answer) {
    let name = word(words, 1);
    match word(words, 0) {
        "len" => out.shown(&table.len()),
        "is_empty" => out.truth(table.is_empty()),
        "slots" => out.shown(&table.slots()),
        "get_key_value" => tell_found(table.get_key_value(name), out),
        "key_value_at" => match name.parse::<usize>() {
            Ok(at) => tell_found(table.key_value_at(at), out),
            Err(_) => out.no_such("key_value_at"),
        },
        "get_values" => lines::tell(table.get_values(out.alloc), out),
        "to_string" => out.shown(table),
        _ => tell_kind(table, words, out),
    }
}

fn tell_kind(table: &Table, words: &[Json], out: &mut Answer) {
    let name = word(words, 1);
    match word(words, 0) {
        "contains_key" => out.truth(table.contains_key(name)),
        "contains_value" => out.truth(table.contains_value(name)),
        "contains_table" => out.truth(table.contains_table(name)),
        "contains_array_of_tables" => out.truth(table.contains_array_of_tables(name)),
        "into_inline_table" => convert::into_inline_table(table.clone(out.alloc), out),
        "into_iter" => steps::given_up(table.clone(out.alloc), out),
        call => out.no_such(call),
    }
}

/// Inserts and removes slots, or resets their decors.
pub fn change(table: &mut Table, words: &[Json], out: &mut Answer) {
    let name = word(words, 1);
    match word(words, 0) {
        "insert" => insert(table, name, make::item::<Tables>(word(words, 2), out), out),
        "insert_formatted" => insert_formatted(table, behind(words, 1), out),
        "remove" => tell_taken(table.remove(name), out),
        "remove_entry" => tell_taken(table.remove_entry(name), out),
        "clear" => table.clear(),
        "retain" => table.retain(|key, _item| key != name),
        "fmt" => table.fmt(),
        "sort_values" => out.done(table.sort_values()),
        "sort_values_by" => out.done(sort_by_type(table)),
        "extend" | "from_iter" => add_pair(table, words, out),
        "rename" | "move_to" | "insert_at" => rearrange::change(table, words, out),
        _ => entry::change(table, words, out),
    }
}

fn insert(table: &mut Table, name: &str, made: Option<Item>, out: &mut Answer) {
    match made {
        Some(item) => tell_old(table.insert(name, item), out),
        None => out.text("no item"),
    }
}

/// Inserts an item under a key whose spelling and leaf decor the words say.
fn insert_formatted(table: &mut Table, words: &[Json], out: &mut Answer) {
    match make::key(words, out) {
        Some(key) => insert_under(table, &key, word(words, 3), out),
        None => out.text("no key"),
    }
}

fn insert_under(table: &mut Table, key: &Key, item: &str, out: &mut Answer) {
    match item_for(table.get_mut(key.get()), item, out) {
        Some(item) => tell_old(table.insert_formatted(key, item), out),
        None => out.text("no item"),
    }
}

/// Returns the item that the words say, or the one that is there, and leaves a placeholder in the
/// place of that.
fn item_for(there: Option<&mut Item>, said: &str, out: &mut Answer) -> Option<Item> {
    match there {
        Some(item) if said == "its own" => Some(out.handed(mem::replace(item, Item::None))),
        _ => make::item::<Tables>(said, out),
    }
}

/// Adds a pair, or makes a table of it alone: a key with its decor, and an item.
fn add_pair(table: &mut Table, words: &[Json], out: &mut Answer) {
    match (
        make::key(behind(words, 1), out),
        make::item::<Tables>(word(words, 4), out),
    ) {
        (Some(key), Some(item)) if word(words, 0) == "extend" => {
            out.done(table.extend(Some((key, item))));
        }
        (Some(key), Some(item)) => out.made(Table::from_iter(out.alloc, Some((key, item)))),
        _ => out.text("no pair"),
    }
}

/// Sorts the slots by the names of their items' types, and those of one type by their names, from
/// the last to the first.
fn sort_by_type(table: &mut Table) -> Mem<()> {
    table.sort_values_by(|one, item, other, other_item| {
        let types = item.type_name().cmp(other_item.type_name());
        types.then(other.get().cmp(one.get()))
    })
}
