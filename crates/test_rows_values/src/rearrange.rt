//! Keys of an inline table that get another name or place, and slots that are inserted at a place.
use crate::program::Values;
use serde_json::Value as Json;
use test_rows_read::steps::{behind, index, word};
use test_rows_read::tell::{tell_inserted, tell_renamed};
use test_rows_read::{Answer, make};
use toml_edit::{InlineTable, Item, Key, Slot};

/// Renames or moves a key, or inserts a slot. Reports a place where the call may not be made.
pub fn change(table: &mut InlineTable, words: &[Json], out: &mut Answer) {
    match word(words, 0) {
        "rename" => tell_renamed(table.rename(word(words, 1), word(words, 2)), out),
        "move_to" => move_to(table, word(words, 1), index(behind(words, 1)), out),
        _ => insert_at(
            table,
            index(words),
            make::lone_key(word(words, 2), out),
            make::item::<Values>(word(words, 3), out),
            out,
        ),
    }
}

fn move_to(table: &mut InlineTable, key: &str, at: usize, out: &mut Answer) {
    if at < table.slots() {
        out.truth(table.move_to(key, at));
    } else {
        out.text("none");
    }
}

fn insert_at(
    table: &mut InlineTable,
    at: usize,
    key: Option<Key>,
    made: Option<Item>,
    out: &mut Answer,
) {
    match (key, made) {
        (Some(key), Some(item)) if at <= table.slots() => {
            let Slot { key, item } = out.handed(Slot { key, item });
            match item {
                Item::Value(value) => tell_inserted(table.insert_at(at, key, value), out),
                other => {
                    drop(key);
                    drop(other);
                    out.text("none");
                }
            }
        }
        _ => out.text("none"),
    }
}
