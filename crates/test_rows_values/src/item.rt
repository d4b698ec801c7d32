//! Rows on items that hold a value, or a table of either kind.
use crate::program::Values;
use crate::{inline_table, table_like, value};
use serde_json::Value as Json;
use test_rows_read::steps::{Tries, behind, word};
use test_rows_read::tell::tell_old;
use test_rows_read::{Answer, Row, array, make, refusal, steps, value as asked};
use toml_edit::{AsTableLike, Item, Key, Table};

/// Answers rows on an item that is made from the row's words.
pub fn answer(row: Row<'_>, out: &mut Answer) {
    steps::found::<Values, _>(make::item::<Values>(row.text(), out), row, out);
}

impl Tries<Item> for Values {
    fn call(item: &mut Item, words: &[Json], out: &mut Answer) {
        match item {
            Item::Table(table) if word(words, 0) == "as_table_mut" => {
                change_table(table, behind(words, 1), out);
            }
            _ => change(item, words, out),
        }
    }

    fn answer(_: &Item, question: &str, out: &mut Answer) {
        if question != "steps" {
            refusal::of_accepted(question, out);
        }
    }
}

/// Makes a step with a table, or with an item of it.
pub fn change_table(table: &mut Table, words: &[Json], out: &mut Answer) {
    match word(words, 0) {
        "get_mut" => change_found(table.get_mut(word(words, 1)), behind(words, 2), out),
        _ => change_here(table, words, out),
    }
}

fn change_here(table: &mut Table, words: &[Json], out: &mut Answer) {
    match word(words, 0) {
        "like" => table_like::change_table(table, behind(words, 1), out),
        "insert_formatted" => insert_formatted(table, behind(words, 1), out),
        "insert" => match make::item::<Values>(word(words, 2), out) {
            Some(item) => tell_old(table.insert(word(words, 1), item), out),
            None => out.text("no item"),
        },
        _ => ask_table(table, words, out),
    }
}

fn insert_formatted(table: &mut Table, words: &[Json], out: &mut Answer) {
    match make::key(words, out) {
        Some(key) => insert_under(table, &key, word(words, 3), out),
        None => out.text("no key"),
    }
}

fn insert_under(table: &mut Table, key: &Key, item: &str, out: &mut Answer) {
    match make::item::<Values>(item, out) {
        Some(item) => tell_old(table.insert_formatted(key, item), out),
        None => out.text("no item"),
    }
}

fn change_found(item: Option<&mut Item>, words: &[Json], out: &mut Answer) {
    match item {
        Some(item) => change(item, words, out),
        None => out.text("none"),
    }
}

/// Makes a step with an item: with its table, its value, or the item itself.
fn change(item: &mut Item, words: &[Json], out: &mut Answer) {
    let rest = behind(words, 1);
    match word(words, 0) {
        "as_table_mut" => match item.as_table_mut() {
            Some(table) => change_here(table, rest, out),
            None => out.text("none"),
        },
        "as_value_mut" => match item.as_value_mut() {
            Some(value) => value::change(value, rest, out),
            None => out.text("none"),
        },
        "item_as_array_mut" => array::change_found(item.as_array_mut(), rest, out),
        "item_as_inline_table_mut" => inline_table::change_found(
            item.as_inline_table_mut(),
            rest,
            out,
        ),
        "as_table_like_mut" => match item.as_table_like_mut() {
            Some(mut table) => table_like::change_ref(&mut table, rest, out),
            None => out.text("none"),
        },
        "make_value" => item.make_value(),
        _ => ask(item, words, out),
    }
}

/// Answers a question on a table, or on an item of it.
pub fn ask_table(table: &Table, words: &[Json], out: &mut Answer) {
    match word(words, 0) {
        "len" => out.shown(&table.len()),
        "slots" => out.shown(&table.slots()),
        "get" => match table.get(word(words, 1)) {
            Some(item) => ask(item, behind(words, 2), out),
            None => out.text("none"),
        },
        call => out.no_such(call),
    }
}

/// Answers a question on an item as a table of either kind. Any other call is one of the value that
/// it holds.
fn ask(item: &Item, words: &[Json], out: &mut Answer) {
    let rest = behind(words, 1);
    match word(words, 0) {
        "is_table_like" => out.truth(item.is_table_like()),
        "as_table_like" => table_like::ask_lent(item.as_table_like(), rest, out),
        "type_name" => out.text(item.type_name()),
        "item_to_string" => out.shown(item),
        "as_value" => ask_value(item, rest, out),
        _ => ask_value(item, words, out),
    }
}

fn ask_value(item: &Item, words: &[Json], out: &mut Answer) {
    match item.as_value() {
        Some(value) => asked::ask(value, words, out),
        None => out.text("no value"),
    }
}
