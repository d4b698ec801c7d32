//! Conversions: of items in place, and of copies of tables and arrays of tables.
use serde_json::Value as Json;
use std::mem;
use test_rows_read::Answer;
use test_rows_read::steps::word;
use toml_edit::{ArrayOfTables, Item, Mem, Table};

/// Replaces the item by what the call returns, if it can be converted.
pub fn change(item: &mut Item, words: &[Json], out: &mut Answer) {
    let old = mem::replace(item, Item::None);
    match word(words, 0) {
        "into_value" => renew(item, old.into_value().map(Item::from), out),
        "into_table" => renew(item, old.into_table().map(Item::from), out),
        _ => renew(item, old.into_array_of_tables().map(Item::from), out),
    }
}

/// Puts the converted item in the place of the item, or the item that came back.
fn renew(item: &mut Item, made: Result<Item, Item>, out: &mut Answer) {
    match made {
        Ok(made) => put_back(item, made),
        Err(back) => {
            put_back(item, back);
            out.text("none");
        }
    }
}

fn put_back(item: &mut Item, back: Item) {
    drop(mem::replace(item, back));
}

/// Writes the inline table that was made of a copy.
pub fn into_inline_table(copy: Mem<Table>, out: &mut Answer) {
    match copy {
        Ok(copy) => out.shown(&copy.into_inline_table()),
        Err(_) => out.refuse(),
    }
}

/// Writes the array that was made of a copy.
pub fn into_array(copy: Mem<ArrayOfTables>, out: &mut Answer) {
    match copy {
        Ok(copy) => out.shown(&copy.into_array()),
        Err(_) => out.refuse(),
    }
}
