//! Steps that change arrays.
use crate::answer::Answer;
use crate::steps::{behind, index, word};
use crate::tell::{set_none, tell_given, write};
use crate::value::change_decor;
use crate::{array_lines, list, make};
use serde_json::Value as Json;
use std::alloc::Global;
use std::cmp::Ordering;
use toml_edit_repr::Mem;
use toml_edit_tree::{Array, Value};

/// Makes a step with an array, if there is one.
pub fn change_found(array: Option<&mut Array>, words: &[Json], out: &mut Answer) {
    match array {
        Some(array) => change(array, words, out),
        None => out.text("none"),
    }
}

/// Changes an array. The answer to a call that returns nothing is empty.
fn change(array: &mut Array, words: &[Json], out: &mut Answer) {
    let argument = word(words, 1);
    match word(words, 0) {
        "push" | "push_formatted" => push(array, words, out),
        "clear" => array.clear(),
        "retain" => array.retain(|value| value.type_name() == argument),
        "fmt" => array.fmt(),
        "sort_by" if argument == "less" => out.done(sort_by_nothing(array)),
        "sort_by" => out.done(sort_by_type(array)),
        "sort_by_key" => out.done(sort(array)),
        "from_iter" => from_iter(make::value(behind(words, 1), out), out),
        "value_from_iter" => value_from_iter(make::value(behind(words, 1), out), out),
        "value_from_texts" => value_from_texts(strings(out.alloc, behind(words, 1)), out),
        "extend" => extend(array, make::value(behind(words, 1), out), out),
        "insert" | "insert_formatted" | "replace" | "replace_formatted" => {
            put_at(array, words, make::value(behind(words, 2), out), out);
        }
        "remove" => remove(array, index(words), out),
        "push_line"
        | "insert_line"
        | "remove_line"
        | "set_line_comment"
        | "retain_lines"
        | "remove_comments_before" => array_lines::change(array, words, out),
        "get_mut" => lend(array, words, make::value(behind(words, 2), out), out),
        "slot_at_mut" => set_none(array.slot_at_mut(index(words)), out),
        "element_decor_mut" => change_decor_of(array.get_mut(index(words)), behind(words, 2), out),
        _ => list::change_array(array, words, out),
    }
}

/// Writes a value over the one at a place, if there is one.
fn lend(array: &mut Array, words: &[Json], made: Option<Value>, out: &mut Answer) {
    write(array.get_mut(index(words)), made, out);
}

/// Changes the decor of a value, if there is one.
fn change_decor_of(value: Option<&mut Value>, words: &[Json], out: &mut Answer) {
    match value {
        Some(value) => change_decor(value.decor_mut(), words, out),
        None => out.text("none"),
    }
}

fn push(array: &mut Array, words: &[Json], out: &mut Answer) {
    match make::value(behind(words, 1), out) {
        Some(value) if word(words, 0) == "push" => out.put(array.push(value)),
        Some(value) => out.put(array.push_formatted(value)),
        None => out.text("no value"),
    }
}

/// Sorts the values by the names of their types.
fn sort_by_type(array: &mut Array) -> Mem<()> {
    array.sort_by(|one, other| one.type_name().cmp(other.type_name()))
}

/// Sorts the values as if each were less than any other, which is no order.
fn sort_by_nothing(array: &mut Array) -> Mem<()> {
    array.sort_by(|_one, _other| Ordering::Less)
}

/// Sorts the values by the integers that they are. What is none comes last.
fn sort(array: &mut Array) -> Mem<()> {
    array.sort_by_key(|value| value.as_integer().unwrap_or(i64::MAX))
}

/// Extends the array by the elements of another one.
fn extend(array: &mut Array, more: Option<Value>, out: &mut Answer) {
    match more {
        Some(Value::Array(more)) => out.done(array.extend(more)),
        other => {
            drop(other);
            out.text("no array");
        }
    }
}

/// Writes an array that is made of the elements of another one.
fn from_iter(values: Option<Value>, out: &mut Answer) {
    match values {
        Some(Value::Array(values)) => out.made(Array::from_iter(out.alloc, values)),
        other => {
            drop(other);
            out.text("no array");
        }
    }
}

/// Writes a value that is made of the elements of an array.
fn value_from_iter(values: Option<Value>, out: &mut Answer) {
    match values {
        Some(Value::Array(values)) => out.made(Value::from_iter(out.alloc, values)),
        other => {
            drop(other);
            out.text("no array");
        }
    }
}

/// Makes values of these texts.
fn strings(alloc: Global, texts: &[Json]) -> Mem<Vec<Value>> {
    let mut values = Vec::new(alloc);
    for at in 0..texts.len() {
        values.push(Value::string(alloc, word(texts, at))?)?;
    }
    Ok(values)
}

/// Writes a value that is an array of these values.
fn value_from_texts(values: Mem<Vec<Value>>, out: &mut Answer) {
    match values {
        Ok(values) => out.made(Value::from_iter(out.alloc, values)),
        Err(_) => out.refuse(),
    }
}

/// Puts a value at a place. Reports a place where the call may not be made.
fn put_at(array: &mut Array, words: &[Json], made: Option<Value>, out: &mut Answer) {
    let Some(value) = made else {
        return out.text("no value");
    };
    let at = index(words);
    let is_there = array.get(at).is_some();
    match word(words, 0) {
        "insert" if at <= array.len() => out.put(array.insert(at, value)),
        "insert_formatted" if at <= array.len() => out.put(array.insert_formatted(at, value)),
        "replace" if is_there => out.old(array.replace(at, value)),
        "replace_formatted" if is_there => {
            tell_given(array.replace_formatted(at, value), out);
        }
        _ => {
            drop(value);
            out.text("none");
        }
    }
}

fn remove(array: &mut Array, at: usize, out: &mut Answer) {
    if array.get(at).is_some() {
        tell_given(array.remove(at), out);
    } else {
        out.text("none");
    }
}
