//! Entries of a table, and slots that it lends.
use crate::program::Tables;
use crate::table;
use serde_json::Value as Json;
use test_rows_read::steps::{behind, index, word};
use test_rows_read::tell::{Told, tell_given, write};
use test_rows_read::{Answer, key, make, value};
use toml_edit::{Entry, Item, Key, Mem, OccupiedEntry, Table, VacantEntry};

/// Makes a step with an entry, or with a slot that is lent, or answers a question on the table.
pub fn change(table: &mut Table, words: &[Json], out: &mut Answer) {
    let name = word(words, 1);
    match word(words, 0) {
        "entry" => fill(
            table.entry(name),
            make::item::<Tables>(word(words, 2), out),
            out,
        ),
        "entry_with" => fill_with(table.entry(name), out),
        "entry_format" => enter_formatted(table, words, out),
        "entry_remove" => remove(table, name, out),
        "entry_into_mut" => write_over(table, name, make::item::<Tables>(word(words, 2), out), out),
        "vacant" => use_vacant(table.entry(name), behind(words, 2), out),
        _ => change_lent(table, words, out),
    }
}

/// Finds the entry of a key with its spelling and decor, and inserts an item if it is vacant.
fn enter_formatted(table: &mut Table, words: &[Json], out: &mut Answer) {
    enter_at(
        table,
        make::key(behind(words, 1), out),
        make::item::<Tables>(word(words, 4), out),
        out,
    );
}

fn enter_at(table: &mut Table, key: Option<Key>, made: Option<Item>, out: &mut Answer) {
    match key {
        Some(key) => fill(table.entry_format(&key), made, out),
        None => {
            drop(made);
            out.text("no key");
        }
    }
}

/// Writes the key of the entry, and its item after an insertion.
fn fill(entry: Mem<Entry<'_>>, made: Option<Item>, out: &mut Answer) {
    match (entry, made) {
        (Ok(entry), Some(item)) => or_insert(entry, item, out),
        (Ok(_), None) => out.text("no item"),
        (Err(_), made) => {
            drop(made);
            out.refuse();
        }
    }
}

fn or_insert(entry: Entry<'_>, item: Item, out: &mut Answer) {
    out.text(entry.key());
    out.text("=");
    match entry.or_insert(item) {
        Ok(there) => there.tell(out),
        Err(refused) => out.given_back(refused),
    }
}

/// Writes the item of the entry after the insertion of the value 0 of a closure.
fn fill_with(entry: Mem<Entry<'_>>, out: &mut Answer) {
    match entry {
        Ok(entry) => or_insert_with(entry, out),
        Err(_) => out.refuse(),
    }
}

fn or_insert_with(entry: Entry<'_>, out: &mut Answer) {
    drop(out.handed(toml_edit::value(0_i64)));
    match entry.or_insert_with(|| toml_edit::value(0_i64)) {
        Ok(there) => there.tell(out),
        Err(refused) => out.given_back(refused),
    }
}

/// Removes a slot by the entry of its key.
fn remove(table: &mut Table, name: &str, out: &mut Answer) {
    match table.slot_mut(name) {
        Some(entry) => tell_given(entry.remove(), out),
        None => out.text("none"),
    }
}

/// Writes what was made over the item, by the entry of its key.
fn write_over(table: &mut Table, name: &str, made: Option<Item>, out: &mut Answer) {
    match table.slot_mut(name) {
        Some(entry) => write(Some(entry.into_mut()), made, out),
        None => out.text("none"),
    }
}

/// Makes a step with the entry of a key that is missing.
fn use_vacant(entry: Mem<Entry<'_>>, words: &[Json], out: &mut Answer) {
    match entry {
        Ok(entry) => if_vacant(entry, words, out),
        Err(_) => out.refuse(),
    }
}

fn if_vacant(entry: Entry<'_>, words: &[Json], out: &mut Answer) {
    match entry {
        Entry::Vacant(entry) => fill_vacant(entry, words, out),
        Entry::Occupied(_) => out.text("none"),
    }
}

fn fill_vacant(entry: VacantEntry<'_>, words: &[Json], out: &mut Answer) {
    match word(words, 0) {
        "key" => out.text(entry.key()),
        _ => insert_vacant(entry, make::item::<Tables>(word(words, 1), out), out),
    }
}

fn insert_vacant(entry: VacantEntry<'_>, made: Option<Item>, out: &mut Answer) {
    let Some(item) = made else {
        return out.text("no item");
    };
    match entry.insert(item) {
        Ok(there) => there.tell(out),
        Err(refused) => out.given_back(refused),
    }
}

/// Makes a step with a slot that the table lends.
fn change_lent(table: &mut Table, words: &[Json], out: &mut Answer) {
    let name = word(words, 1);
    let rest = behind(words, 2);
    match word(words, 0) {
        "slot_mut" => match table.slot_mut(name) {
            Some(mut slot) => change_slot(&mut slot, rest, out),
            None => out.text("none"),
        },
        "get_key_value_mut" => match table.get_key_value_mut(name) {
            Some(mut slot) => change_slot(&mut slot, rest, out),
            None => out.text("none"),
        },
        "key_value_at_mut" => match table.key_value_at_mut(index(words)) {
            Some(mut slot) => change_slot(&mut slot, rest, out),
            None => out.text("none"),
        },
        "key_mut" => match table.key_mut(name) {
            Some(mut lent) => key::call_lent(&mut lent, rest, out),
            None => out.text("none"),
        },
        _ => table::ask(table, words, out),
    }
}

/// Changes the decor of the key, or the item. The answer to a call that returns nothing is empty.
fn change_slot(slot: &mut OccupiedEntry<'_>, words: &[Json], out: &mut Answer) {
    let rest = behind(words, 1);
    match word(words, 0) {
        "key" => out.text(slot.key()),
        "get" => slot.get().tell(out),
        "leaf_decor_mut" => value::change_decor(slot.leaf_decor_mut(), rest, out),
        "dotted_decor_mut" => value::change_decor(slot.dotted_decor_mut(), rest, out),
        "fmt_key" => slot.fmt_key(),
        "key_mut" => key::call_lent(&mut slot.key_mut(), rest, out),
        "get_mut" => write(
            Some(slot.get_mut()),
            make::item::<Tables>(word(words, 1), out),
            out,
        ),
        "insert" => insert(slot, make::item::<Tables>(word(words, 1), out), out),
        call => out.no_such(call),
    }
}

fn insert(slot: &mut OccupiedEntry<'_>, made: Option<Item>, out: &mut Answer) {
    match made {
        Some(item) => tell_given(slot.insert(item), out),
        None => out.text("no item"),
    }
}
