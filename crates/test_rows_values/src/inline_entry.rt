//! Entries of an inline table, and slots that it lends.
use crate::inline_slot;
use serde_json::Value as Json;
use test_rows_read::steps::{behind, word};
use test_rows_read::tell::{Told, tell_given, write};
use test_rows_read::{Answer, key, make, value};
use toml_edit::{
    InlineEntry, InlineOccupiedEntry, InlineTable, InlineVacantEntry, Key, Mem, Value,
};

/// Makes a step with an entry, or with a slot that is lent, or changes what is no slot.
pub fn change(table: &mut InlineTable, words: &[Json], out: &mut Answer) {
    let name = word(words, 1);
    let rest = behind(words, 2);
    match word(words, 0) {
        "entry" => fill(table.entry(name), make::value(rest, out), out),
        "entry_with" => fill_with(table.entry(name), out),
        "entry_format" => enter_formatted(table, words, out),
        "entry_remove" => remove(table.entry(name), out),
        "entry_into_mut" => write_over(table.entry(name), make::value(rest, out), out),
        "vacant" => use_vacant(table.entry(name), rest, out),
        "occupied" => use_occupied(table.entry(name), rest, out),
        _ => inline_slot::change(table, words, out),
    }
}

/// Finds the entry of a key with its spelling and decor, and inserts a value if it is vacant.
fn enter_formatted(table: &mut InlineTable, words: &[Json], out: &mut Answer) {
    enter_at(
        table,
        make::key(behind(words, 1), out),
        make::value(behind(words, 4), out),
        out,
    );
}

fn enter_at(table: &mut InlineTable, key: Option<Key>, made: Option<Value>, out: &mut Answer) {
    match key {
        Some(key) => fill(table.entry_format(&key), made, out),
        None => {
            drop(made);
            out.text("no key");
        }
    }
}

/// Writes the key of the entry, and its value after an insertion.
fn fill(entry: Mem<InlineEntry<'_>>, made: Option<Value>, out: &mut Answer) {
    match (entry, made) {
        (Ok(entry), Some(value)) => or_insert(entry, value, out),
        (Ok(_), None) => out.text("no value"),
        (Err(_), made) => {
            drop(made);
            out.refuse();
        }
    }
}

fn or_insert(entry: InlineEntry<'_>, value: Value, out: &mut Answer) {
    out.text(entry.key());
    out.text("=");
    match entry.or_insert(value) {
        Ok(there) => out.shown(there),
        Err(refused) => out.given_back(refused),
    }
}

/// Writes the value of the entry after the insertion of the value 0 of a closure.
fn fill_with(entry: Mem<InlineEntry<'_>>, out: &mut Answer) {
    match entry {
        Ok(entry) => or_insert_with(entry, out),
        Err(_) => out.refuse(),
    }
}

fn or_insert_with(entry: InlineEntry<'_>, out: &mut Answer) {
    drop(out.handed(Value::from(0_i64)));
    match entry.or_insert_with(|| Value::from(0_i64)) {
        Ok(there) => out.shown(there),
        Err(refused) => out.given_back(refused),
    }
}

/// Removes a slot by the entry of its key.
fn remove(entry: Mem<InlineEntry<'_>>, out: &mut Answer) {
    match entry {
        Ok(entry) => remove_occupied(entry, out),
        Err(_) => out.refuse(),
    }
}

fn remove_occupied(entry: InlineEntry<'_>, out: &mut Answer) {
    if let InlineEntry::Occupied(entry) = entry {
        tell_given(entry.remove(), out);
        return;
    }
    out.text("none");
}

/// Writes what was made over the value, by the entry of its key.
fn write_over(entry: Mem<InlineEntry<'_>>, made: Option<Value>, out: &mut Answer) {
    match entry {
        Ok(entry) => write_occupied(entry, made, out),
        Err(_) => {
            drop(made);
            out.refuse();
        }
    }
}

fn write_occupied(entry: InlineEntry<'_>, made: Option<Value>, out: &mut Answer) {
    if let InlineEntry::Occupied(entry) = entry {
        write(Some(entry.into_mut()), made, out);
        return;
    }
    drop(made);
    out.text("none");
}

/// Makes a step with the entry of an existing key.
fn use_occupied(entry: Mem<InlineEntry<'_>>, words: &[Json], out: &mut Answer) {
    match entry {
        Ok(mut entry) => if_occupied(&mut entry, words, out),
        Err(_) => out.refuse(),
    }
}

fn if_occupied(entry: &mut InlineEntry<'_>, words: &[Json], out: &mut Answer) {
    match entry {
        InlineEntry::Occupied(entry) => change_slot(entry, words, out),
        InlineEntry::Vacant(_) => out.text("none"),
    }
}

/// Makes a step with the entry of a key that is missing.
fn use_vacant(entry: Mem<InlineEntry<'_>>, words: &[Json], out: &mut Answer) {
    match entry {
        Ok(entry) => if_vacant(entry, words, out),
        Err(_) => out.refuse(),
    }
}

fn if_vacant(entry: InlineEntry<'_>, words: &[Json], out: &mut Answer) {
    match entry {
        InlineEntry::Vacant(entry) => fill_vacant(entry, words, out),
        InlineEntry::Occupied(_) => out.text("none"),
    }
}

fn fill_vacant(entry: InlineVacantEntry<'_>, words: &[Json], out: &mut Answer) {
    match word(words, 0) {
        "key" => out.text(entry.key()),
        _ => insert_vacant(entry, make::value(behind(words, 1), out), out),
    }
}

fn insert_vacant(entry: InlineVacantEntry<'_>, made: Option<Value>, out: &mut Answer) {
    let Some(value) = made else {
        return out.text("no value");
    };
    match entry.insert(value) {
        Ok(there) => out.shown(there),
        Err(refused) => out.given_back(refused),
    }
}

/// Changes the decor of the key, or the value. The answer to a call that returns nothing is empty.
fn change_slot(slot: &mut InlineOccupiedEntry<'_>, words: &[Json], out: &mut Answer) {
    let rest = behind(words, 1);
    match word(words, 0) {
        "key" => out.text(slot.key()),
        "get" => slot.get().tell(out),
        "leaf_decor_mut" => value::change_decor(slot.leaf_decor_mut(), rest, out),
        "dotted_decor_mut" => value::change_decor(slot.dotted_decor_mut(), rest, out),
        "fmt_key" => slot.fmt_key(),
        "key_mut" => key::call_lent(&mut slot.key_mut(), rest, out),
        "get_mut" => write(Some(slot.get_mut()), make::value(rest, out), out),
        "insert" => insert(slot, make::value(rest, out), out),
        call => out.no_such(call),
    }
}

fn insert(slot: &mut InlineOccupiedEntry<'_>, made: Option<Value>, out: &mut Answer) {
    match made {
        Some(value) => tell_given(slot.insert(value), out),
        None => out.text("no value"),
    }
}

/// Writes the value under a key, after one was inserted if there was none.
pub fn get_or_insert(table: &mut InlineTable, name: &str, made: Option<Value>, out: &mut Answer) {
    let Some(value) = made else {
        return out.text("no value");
    };
    match table.get_or_insert(name, value) {
        Ok(there) => out.shown(there),
        Err(refused) => out.given_back(refused),
    }
}
