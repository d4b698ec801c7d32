//! Steps that change inline tables.
use crate::{inline_entry, rearrange, table_like};
use serde_json::Value as Json;
use test_rows_read::steps::{behind, word};
use test_rows_read::tell::{tell_old, tell_taken, write};
use test_rows_read::{Answer, make};
use toml_edit::{InlineTable, Mem, Value};

/// Makes a step with an inline table, if there is one.
pub fn change_found(table: Option<&mut InlineTable>, words: &[Json], out: &mut Answer) {
    match table {
        Some(table) => change(table, words, out),
        None => out.text("none"),
    }
}

/// Changes an inline table. The answer to a call that returns nothing is empty.
fn change(table: &mut InlineTable, words: &[Json], out: &mut Answer) {
    let name = word(words, 1);
    match word(words, 0) {
        "insert" => insert(table, name, make::value(behind(words, 2), out), out),
        "insert_formatted" | "extend" | "from_iter" | "from_pairs" => add_pair(table, words, out),
        "remove" => tell_taken(table.remove(name), out),
        "remove_entry" => tell_taken(table.remove_entry(name), out),
        "retain" => table.retain(|key, _value| key != name),
        "clear" => table.clear(),
        "fmt" => table.fmt(),
        "sort_values" => out.done(table.sort_values()),
        "sort_values_by" => out.done(sort_by_type(table)),
        "rename" | "move_to" | "insert_at" => rearrange::change(table, words, out),
        "like" => table_like::change_inline(table, behind(words, 1), out),
        "get_or_insert" | "get_mut" => lend(table, words, make::value(behind(words, 2), out), out),
        _ => inline_entry::change(table, words, out),
    }
}

/// Inserts a value if there is none; for `get_mut`, writes it over the one that is there.
fn lend(table: &mut InlineTable, words: &[Json], made: Option<Value>, out: &mut Answer) {
    let name = word(words, 1);
    match word(words, 0) {
        "get_mut" => write(table.get_mut(name), made, out),
        _ => inline_entry::get_or_insert(table, name, made, out),
    }
}

fn insert(table: &mut InlineTable, name: &str, made: Option<Value>, out: &mut Answer) {
    match made {
        Some(value) => tell_old(table.insert(name, value), out),
        None => out.text("no value"),
    }
}

/// Adds a pair, or makes an inline table of it alone: a key with its leaf decor, and a value.
fn add_pair(table: &mut InlineTable, words: &[Json], out: &mut Answer) {
    match (
        make::key(behind(words, 1), out),
        make::value(behind(words, 4), out),
    ) {
        (Some(key), Some(value)) if word(words, 0) == "extend" => {
            out.done(table.extend(Some((key, value))));
        }
        (Some(key), Some(value)) if word(words, 0) == "from_iter" => {
            out.made(InlineTable::from_iter(out.alloc, Some((key, value))));
        }
        (Some(key), Some(value)) if word(words, 0) == "from_pairs" => {
            out.made(Value::from_pairs(out.alloc, Some((key, value))));
        }
        (Some(key), Some(value)) => tell_old(table.insert_formatted(&key, value), out),
        _ => out.text("no pair"),
    }
}

/// Sorts the values by the names of their types.
fn sort_by_type(table: &mut InlineTable) -> Mem<()> {
    table.sort_values_by(|_, one, _, other| one.type_name().cmp(other.type_name()))
}
