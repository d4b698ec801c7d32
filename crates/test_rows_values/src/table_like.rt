//! Questions on tables of either kind, and steps that change them, by the calls of `TableLike`.
use crate::program::Values;
use serde_json::Value as Json;
use test_rows_read::steps::{behind, index, word};
use test_rows_read::tell::{Told, tell_found, tell_given, tell_lent, tell_old, tell_taken, write};
use test_rows_read::{Answer, key, lines, make, value};
use toml_edit::{
    AnyTable, InlineTable, Item, Key, Table, TableLike, TableLikeEntry, TableLikeSlot, TableRef,
    TableRefMut, Value,
};

/// Makes a step with a table. The answer to a call that returns nothing is empty.
pub fn change_table(table: &mut Table, words: &[Json], out: &mut Answer) {
    match word(words, 0) {
        "insert" => insert_in_table(
            table,
            word(words, 1),
            make::item::<Values>(word(words, 2), out),
            out,
        ),
        _ => change(table, words, out),
    }
}

fn insert_in_table(table: &mut Table, name: &str, made: Option<Item>, out: &mut Answer) {
    match made {
        Some(item) => tell_old(AnyTable::insert(table, name, item), out),
        None => out.text("no item"),
    }
}

/// Makes a step with an inline table. It gets no placeholder, since the call requires another item.
pub fn change_inline(table: &mut InlineTable, words: &[Json], out: &mut Answer) {
    match word(words, 0) {
        "insert" => insert_inline(
            table,
            word(words, 1),
            make::item::<Values>(word(words, 2), out),
            out,
        ),
        _ => change(table, words, out),
    }
}

fn insert_inline(table: &mut InlineTable, name: &str, made: Option<Item>, out: &mut Answer) {
    let Some(item) = made else {
        return out.text("no item");
    };
    if item.is_none() {
        drop(item);
        out.text("no item");
    } else {
        tell_old(AnyTable::insert(table, name, item), out);
    }
}

fn change<T: TableLike>(table: &mut T, words: &[Json], out: &mut Answer) {
    match word(words, 0) {
        "key_mut" | "slot_mut" | "get_key_value_mut" | "key_value_at_mut" | "slot_remove" => {
            change_lent(table, words, out);
        }
        _ => change_any(table, words, out),
    }
}

/// Makes a step with a table that an item lends. It gets no placeholder either.
pub fn change_ref(table: &mut TableRefMut<'_>, words: &[Json], out: &mut Answer) {
    match word(words, 0) {
        "insert" => insert_in_ref(
            table,
            word(words, 1),
            make::item::<Values>(word(words, 2), out),
            out,
        ),
        "as_table_ref" => ask_ref(table.as_table_ref(), behind(words, 1), out),
        _ => change_any(table, words, out),
    }
}

fn insert_in_ref(table: &mut TableRefMut<'_>, name: &str, made: Option<Item>, out: &mut Answer) {
    let Some(item) = made else {
        return out.text("no item");
    };
    if item.is_none() {
        drop(item);
        out.text("no item");
    } else {
        tell_old(AnyTable::insert(table, name, item), out);
    }
}

fn change_any<T: AnyTable>(table: &mut T, words: &[Json], out: &mut Answer) {
    let name = word(words, 1);
    match word(words, 0) {
        "remove" => tell_taken(table.remove(name), out),
        "clear" => table.clear(),
        "fmt" => table.fmt(),
        "sort_values" => out.done(table.sort_values()),
        "set_dotted" => table.set_dotted(name == "true"),
        "get_mut" => write(
            table.get_mut(name),
            make::item::<Values>(word(words, 2), out),
            out,
        ),
        "or_insert" => put(table, name, make::item::<Values>(word(words, 2), out), out),
        "or_insert_format" => put_formatted(table, words, out),
        "entry" => go_in(&mut table.entry(name), behind(words, 2), out),
        "entry_format" => go_in_formatted(table, words, out),
        "slot_at" => change_slot_at(table, words, out),
        _ => ask(table, words, out),
    }
}

/// Writes what an entry says, and its item after an insertion if it was vacant.
fn go_in<T: AnyTable>(entry: &mut TableLikeEntry<'_, T>, words: &[Json], out: &mut Answer) {
    match word(words, 0) {
        "key" => out.text(entry.key()),
        "is_occupied" => out.truth(entry.is_occupied()),
        "get" => tell_lent(entry.get(), out),
        "or_insert" => put_in(entry, make::item::<Values>(word(words, 1), out), out),
        "or_insert_with" => put_made(entry, out),
        call => out.no_such(call),
    }
}

fn put_in<T: AnyTable>(entry: &mut TableLikeEntry<'_, T>, made: Option<Item>, out: &mut Answer) {
    let Some(item) = made else {
        return out.text("no item");
    };
    match entry.or_insert(item) {
        Ok(there) => there.tell(out),
        Err(refused) => out.given_back(refused),
    }
}

/// Inserts the value 0 of a closure if the entry is vacant, and writes its item.
fn put_made<T: AnyTable>(entry: &mut TableLikeEntry<'_, T>, out: &mut Answer) {
    drop(out.handed(Item::from(Value::from(0_i64))));
    match entry.or_insert_with(|| Item::from(Value::from(0_i64))) {
        Ok(there) => there.tell(out),
        Err(refused) => out.given_back(refused),
    }
}

/// Inserts the item by the entry of a key with its spelling and decor, which comes after the item,
/// and writes what is there.
fn go_in_formatted<T: AnyTable>(table: &mut T, words: &[Json], out: &mut Answer) {
    match make::key(behind(words, 2), out) {
        Some(key) => put_in(
            &mut table.entry_format(&key),
            make::item::<Values>(word(words, 1), out),
            out,
        ),
        None => out.text("no key"),
    }
}

/// Inserts the item if the key is missing, and writes what is there.
fn put<T: AnyTable>(table: &mut T, name: &str, made: Option<Item>, out: &mut Answer) {
    let Some(item) = made else {
        return out.text("no item");
    };
    match table.or_insert(name, item) {
        Ok(there) => there.tell(out),
        Err(refused) => out.given_back(refused),
    }
}

/// Inserts the item under a key with its spelling and decor, which comes after the item, if that is
/// missing, and writes what is there.
fn put_formatted<T: AnyTable>(table: &mut T, words: &[Json], out: &mut Answer) {
    match make::key(behind(words, 2), out) {
        Some(key) => put_under(table, &key, make::item::<Values>(word(words, 1), out), out),
        None => out.text("no key"),
    }
}

fn put_under<T: AnyTable>(table: &mut T, key: &Key, made: Option<Item>, out: &mut Answer) {
    let Some(item) = made else {
        return out.text("no item");
    };
    match table.or_insert_format(key, item) {
        Ok(there) => there.tell(out),
        Err(refused) => out.given_back(refused),
    }
}

/// Makes a step with a slot that the table lends.
fn change_lent<T: TableLike>(table: &mut T, words: &[Json], out: &mut Answer) {
    let name = word(words, 1);
    let rest = behind(words, 2);
    match word(words, 0) {
        "slot_mut" => match table.slot_mut(name) {
            Some(mut slot) => change_slot(&mut slot, rest, out),
            None => out.text("none"),
        },
        "get_key_value_mut" => match table.get_key_value_mut(name) {
            Some(mut slot) => change_slot(&mut slot, rest, out),
            None => out.text("none"),
        },
        "key_value_at_mut" => match table.key_value_at_mut(index(words)) {
            Some(mut slot) => change_slot(&mut slot, rest, out),
            None => out.text("none"),
        },
        "key_mut" => match table.key_mut(name) {
            Some(mut lent) => key::call_lent(&mut lent, rest, out),
            None => out.text("none"),
        },
        _ => match table.slot_mut(name) {
            Some(slot) => tell_given(slot.remove(), out),
            None => out.text("none"),
        },
    }
}

/// Makes a step with the slot at a place. Reports a place where the call may not be made.
fn change_slot_at<T: AnyTable>(table: &mut T, words: &[Json], out: &mut Answer) {
    let at = index(words);
    if at < table.slots() {
        change_slot(&mut table.slot_at(at), behind(words, 2), out);
    } else {
        out.text("none");
    }
}

/// Changes the decor of the key, or the item. The answer to a call that returns nothing is empty.
fn change_slot<T: AnyTable>(slot: &mut TableLikeSlot<'_, T>, words: &[Json], out: &mut Answer) {
    let rest = behind(words, 1);
    match word(words, 0) {
        "key" => out.shown(slot.key()),
        "get" => slot.get().tell(out),
        "leaf_decor_mut" => value::change_decor(slot.leaf_decor_mut(), rest, out),
        "dotted_decor_mut" => value::change_decor(slot.dotted_decor_mut(), rest, out),
        "fmt_key" => slot.fmt_key(),
        "key_mut" => key::call_lent(&mut slot.key_mut(), rest, out),
        "get_mut" => write(
            Some(slot.get_mut()),
            make::item::<Values>(word(words, 1), out),
            out,
        ),
        "insert" => insert_at(slot, make::item::<Values>(word(words, 1), out), out),
        call => out.no_such(call),
    }
}

fn insert_at<T: AnyTable>(slot: &mut TableLikeSlot<'_, T>, made: Option<Item>, out: &mut Answer) {
    match made {
        Some(item) => tell_given(slot.insert(item), out),
        None => out.text("no item"),
    }
}

fn ask<T: AnyTable>(table: &T, words: &[Json], out: &mut Answer) {
    match word(words, 0) {
        "iter" => lines::names(table.iter(), out),
        "len" => out.shown(&table.len()),
        "is_empty" => out.truth(table.is_empty()),
        "slots" => out.shown(&table.slots()),
        "is_dotted" => out.truth(table.is_dotted()),
        "get_values" => lines::tell(table.get_values(out.alloc), out),
        _ => ask_slot(table, words, out),
    }
}

fn ask_slot<T: AnyTable>(table: &T, words: &[Json], out: &mut Answer) {
    let name = word(words, 1);
    match word(words, 0) {
        "get" => tell_lent(table.get(name), out),
        "get_key_value" => tell_found(table.get_key_value(name), out),
        "key_value_at" => tell_found(table.key_value_at(index(words)), out),
        "contains_key" => out.truth(table.contains_key(name)),
        "key" => key::ask_found(table.key(name), behind(words, 2), out),
        call => out.no_such(call),
    }
}

/// Answers a question on a table that an item lends.
pub fn ask_lent(table: Option<TableRef<'_>>, words: &[Json], out: &mut Answer) {
    match table {
        Some(table) => ask_ref(table, words, out),
        None => out.text("none"),
    }
}

fn ask_ref(table: TableRef<'_>, words: &[Json], out: &mut Answer) {
    match word(words, 0) {
        "iter" => lines::names(table.iter(), out),
        "len" => out.shown(&table.len()),
        "is_empty" => out.truth(table.is_empty()),
        "slots" => out.shown(&table.slots()),
        "is_dotted" => out.truth(table.is_dotted()),
        "get_values" => lines::tell(table.get_values(out.alloc), out),
        _ => ask_ref_slot(table, words, out),
    }
}

fn ask_ref_slot(table: TableRef<'_>, words: &[Json], out: &mut Answer) {
    let name = word(words, 1);
    match word(words, 0) {
        "get" => tell_lent(table.get(name), out),
        "get_key_value" => tell_found(table.get_key_value(name), out),
        "key_value_at" => tell_found(table.key_value_at(index(words)), out),
        "contains_key" => out.truth(table.contains_key(name)),
        "key" => key::ask_found(table.key(name), behind(words, 2), out),
        call => out.no_such(call),
    }
}
