//! Values of an array that are put in and taken out with their lines, and their comments.
use crate::answer::Answer;
use crate::make;
use crate::steps::{behind, index, word};
use crate::value::commented;
use serde_json::Value as Json;
use toml_edit_repr::Mem;
use toml_edit_tree::{Array, Value};

/// Changes values with their lines. Reports a place where the call may not be made.
pub fn change(array: &mut Array, words: &[Json], out: &mut Answer) {
    match word(words, 0) {
        "push_line" => push(array, make::value(behind(words, 1), out), out),
        "insert_line" => insert(array, index(words), make::value(behind(words, 2), out), out),
        "set_line_comment" => set_comment(array, index(words), behind(words, 2), out),
        "remove_comments_before" => out.done(array.remove_comments_before(index(words))),
        "retain_lines" => out.done(retain(array, word(words, 1))),
        _ => remove(array, index(words), out),
    }
}

fn push(array: &mut Array, made: Option<Value>, out: &mut Answer) {
    match made {
        Some(value) => out.put(array.push_line(value)),
        None => out.text("no value"),
    }
}

fn insert(array: &mut Array, at: usize, made: Option<Value>, out: &mut Answer) {
    let Some(value) = made else {
        return out.text("no value");
    };
    if at <= array.len() {
        out.put(array.insert_line(at, value));
    } else {
        drop(value);
        out.text("none");
    }
}

/// Writes the value that is taken out.
fn remove(array: &mut Array, at: usize, out: &mut Answer) {
    if array.get(at).is_some() {
        out.made(array.remove_line(at));
    } else {
        out.text("none");
    }
}

/// Sets the comment that the words give, or removes it.
fn set_comment(array: &mut Array, at: usize, words: &[Json], out: &mut Answer) {
    let count = array.len();
    if at >= count || array.get(at).is_none() {
        return out.text("none");
    }
    let next = at + 1;
    if next < count && array.get(next).is_none() {
        return out.text("none");
    }
    let comment = if words.is_empty() {
        None
    } else {
        Some(word(words, 0))
    };
    commented(array.set_line_comment(at, comment), out);
}

/// Keeps the values of that type.
fn retain(array: &mut Array, kind: &str) -> Mem<()> {
    array.retain_lines(|value| value.type_name() == kind)
}
