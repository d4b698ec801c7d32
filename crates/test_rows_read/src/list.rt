//! Questions on arrays and inline tables, and steps that change their decor.
use crate::answer::Answer;
use crate::steps::{behind, index, is_true, word};
use crate::tell::tell_found;
use crate::{key, lines, steps, value};
use serde_json::Value as Json;
use toml_edit_repr::{Mem, RawString};
use toml_edit_tree::{Array, InlineTable, Value};

/// Returns the value that the calls `get` at the front of the words lead to, and the words after
/// them.
pub fn place<'v, 'a>(value: &'v Value, words: &'a [Json]) -> Option<(&'v Value, &'a [Json])> {
    let mut value = value;
    let mut words = words;
    for _ in 0..words.len() {
        if word(words, 0) != "get" {
            break;
        }
        value = inner(value, word(words, 1))?;
        words = behind(words, 2);
    }
    Some((value, words))
}

fn inner<'v>(value: &'v Value, at: &str) -> Option<&'v Value> {
    match value {
        Value::Array(array) => array.get(at.parse::<usize>().ok()?),
        Value::InlineTable(table) => table.get(at),
        _ => None,
    }
}

/// Answers a question on an array or an inline table.
pub fn ask(value: &Value, words: &[Json], out: &mut Answer) {
    match value {
        Value::Array(array) => ask_array(array, words, out),
        Value::InlineTable(table) => ask_inline(table, words, out),
        _ => out.no_such(word(words, 0)),
    }
}

fn ask_array(array: &Array, words: &[Json], out: &mut Answer) {
    match word(words, 0) {
        "len" => out.shown(&array.len()),
        "is_empty" => out.truth(array.is_empty()),
        "iter" => values(array, out),
        "line_comment" => out.text_or_none(array.line_comment(index(words))),
        _ => ask_array_end(array, words, out),
    }
}

fn ask_array_end(array: &Array, words: &[Json], out: &mut Answer) {
    match word(words, 0) {
        "trailing" => out.raw(Some(array.trailing())),
        "trailing_comma" => out.truth(array.trailing_comma()),
        "list_decor" => value::ask_decor(array.decor(), word(words, 1), out),
        "list_span" => out.span(array.span()),
        "list_to_string" => out.shown(array),
        "list_clone" => out.made(array.clone(out.alloc)),
        "into_iter" => steps::given_up(array.clone(out.alloc), out),
        call => out.no_such(call),
    }
}

/// Writes the values, as they display.
fn values(array: &Array, out: &mut Answer) {
    for value in array.iter() {
        out.text("<");
        out.shown(value);
        out.text(">");
    }
}

fn ask_inline(table: &InlineTable, words: &[Json], out: &mut Answer) {
    match word(words, 0) {
        "len" => out.shown(&table.len()),
        "is_empty" => out.truth(table.is_empty()),
        "iter" => pairs(table, out),
        "slots" => out.shown(&table.slots()),
        "contains_key" => out.truth(table.contains_key(word(words, 1))),
        "is_dotted" => out.truth(table.is_dotted()),
        "key" => key::ask_found(table.key(word(words, 1)), behind(words, 2), out),
        "get_key_value" => tell_found(table.get_key_value(word(words, 1)), out),
        "key_value_at" => tell_found(table.key_value_at(index(words)), out),
        _ => ask_inline_end(table, words, out),
    }
}

fn ask_inline_end(table: &InlineTable, words: &[Json], out: &mut Answer) {
    match word(words, 0) {
        "trailing" => out.raw(Some(table.trailing())),
        "trailing_comma" => out.truth(table.trailing_comma()),
        "list_decor" => value::ask_decor(table.decor(), word(words, 1), out),
        "list_span" => out.span(table.span()),
        "list_to_string" => out.shown(table),
        "list_clone" => out.made(table.clone(out.alloc)),
        "get_values" => lines::tell(table.get_values(out.alloc), out),
        "into_iter" => steps::given_up(table.clone(out.alloc), out),
        "list_into_table" => lines_of(table.clone(out.alloc), out),
        "brackets" => read_brackets(table, word(words, 1), out),
        call => out.no_such(call),
    }
}

/// Writes the value under a key, found by brackets, if the key is there.
fn read_brackets(table: &InlineTable, key: &str, out: &mut Answer) {
    match table.get(key) {
        Some(_) => out.shown(&table[key]),
        None => out.text("none"),
    }
}

/// Writes the lines of the table that a copy can be made.
fn lines_of(copy: Mem<InlineTable>, out: &mut Answer) {
    match copy {
        Ok(copy) => out.shown(&copy.into_table()),
        Err(_) => out.refuse(),
    }
}

/// Writes the pairs: each key's name, and the value as it displays.
fn pairs(table: &InlineTable, out: &mut Answer) {
    for (name, value) in table.iter() {
        out.text("<");
        out.text(name);
        out.text("=");
        out.shown(value);
        out.text(">");
    }
}

/// Changes an array or an inline table.
pub fn change(value: &mut Value, words: &[Json], out: &mut Answer) {
    match value {
        Value::Array(array) => change_array(array, words, out),
        Value::InlineTable(table) => change_inline(table, words, out),
        _ => out.no_such(word(words, 0)),
    }
}

/// Changes the decor of the values of an array.
pub fn change_array(array: &mut Array, words: &[Json], out: &mut Answer) {
    match word(words, 0) {
        "list_decor_mut" => value::change_decor(array.decor_mut(), behind(words, 1), out),
        "set_trailing" => {
            if let Ok(raw) = out.given(RawString::from_text(out.alloc, word(words, 1))) {
                array.set_trailing(raw);
            }
        }
        "set_trailing_comma" => array.set_trailing_comma(is_true(words)),
        call => out.no_such(call),
    }
}

/// Changes the decor of the pairs of an inline table.
pub fn change_inline(table: &mut InlineTable, words: &[Json], out: &mut Answer) {
    match word(words, 0) {
        "list_decor_mut" => value::change_decor(table.decor_mut(), behind(words, 1), out),
        "set_trailing" => {
            if let Ok(raw) = out.given(RawString::from_text(out.alloc, word(words, 1))) {
                table.set_trailing(raw);
            }
        }
        "set_trailing_comma" => table.set_trailing_comma(is_true(words)),
        "set_dotted" => table.set_dotted(is_true(words)),
        call => out.no_such(call),
    }
}
