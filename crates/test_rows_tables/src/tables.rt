//! Steps that change arrays of tables.
use crate::program::Tables;
use crate::{convert, table};
use serde_json::Value as Json;
use test_rows_read::make::{Reads, item};
use test_rows_read::steps::{behind, word};
use test_rows_read::{Answer, tell};
use toml_edit::{ArrayOfTables, Item, Table};

/// Makes a step with an array of tables, if there is one. The answer to a call that returns nothing
/// is empty.
pub fn change_found(tables: Option<&mut ArrayOfTables>, words: &[Json], out: &mut Answer) {
    match tables {
        Some(tables) => change(tables, words, out),
        None => out.text("none"),
    }
}

fn change(tables: &mut ArrayOfTables, words: &[Json], out: &mut Answer) {
    let argument = word(words, 1);
    match word(words, 0) {
        "push" => push(tables, Tables::root(argument, out), out),
        "clear" => tables.clear(),
        "retain" => tables.retain(|table| table.get(argument).is_some()),
        "extend" => extend(tables, item::<Tables>(argument, out), out),
        "from_iter" => from_iter(item::<Tables>(argument, out), out),
        "insert" | "replace" | "remove" | "taken" | "slot_at_mut" | "get_mut" => change_at(
            tables, words, out,
        ),
        _ => table::ask_tables(tables, words, out),
    }
}

fn push(tables: &mut ArrayOfTables, made: Option<Table>, out: &mut Answer) {
    match made {
        Some(table) => out.put(tables.push(table)),
        None => out.text("no table"),
    }
}

/// Extends the array of tables by the tables of another one.
fn extend(tables: &mut ArrayOfTables, more: Option<Item>, out: &mut Answer) {
    match more {
        Some(Item::ArrayOfTables(more)) => out.done(tables.extend(more)),
        other => {
            drop(other);
            out.text("no array of tables");
        }
    }
}

/// Writes the array of a new array of tables, which is made of the tables of another one.
fn from_iter(tables: Option<Item>, out: &mut Answer) {
    match tables {
        Some(Item::ArrayOfTables(tables)) => {
            convert::into_array(ArrayOfTables::from_iter(out.alloc, tables), out);
        }
        other => {
            drop(other);
            out.text("no array of tables");
        }
    }
}

/// Changes an array of tables at a place. Reports a place where the call may not be made.
fn change_at(tables: &mut ArrayOfTables, words: &[Json], out: &mut Answer) {
    let at = word(words, 1).parse::<usize>().unwrap_or(usize::MAX);
    match word(words, 0) {
        "insert" | "replace" => put_at(tables, at, words, Tables::root(word(words, 2), out), out),
        "get_mut" => table::change_lent(tables.get_mut(at), behind(words, 2), out),
        "slot_at_mut" => tell::set_none(tables.slot_at_mut(at), out),
        _ if tables.get(at).is_none() => out.text("none"),
        "remove" => out.shown(&tables.remove(at)),
        _ => change_taken(tables, at, behind(words, 2), out),
    }
}

fn put_at(
    tables: &mut ArrayOfTables,
    at: usize,
    words: &[Json],
    made: Option<Table>,
    out: &mut Answer,
) {
    let Some(table) = made else {
        return out.text("no table");
    };
    let is_there = tables.get(at).is_some();
    match word(words, 0) {
        "insert" if at <= tables.len() => out.put(tables.insert(at, table)),
        "replace" if is_there => out.shown(&tables.replace(at, table)),
        _ => out.text("none"),
    }
}

/// Removes the table at the place, makes a step with it, and puts it back.
fn change_taken(tables: &mut ArrayOfTables, at: usize, words: &[Json], out: &mut Answer) {
    if tables.get(at).is_some() {
        let mut table = tables.remove(at);
        table::change_below(&mut table, words, out);
        if at <= tables.len() {
            let table = out.handed(table);
            out.put(tables.insert(at, table));
        }
    }
}
