//! Making values, keys, tables and items from the words of a row.
use crate::answer::Answer;
use crate::steps::word;
use serde_json::Value as Json;
use toml_edit_error::ParseFault;
use toml_edit_key::Key;
use toml_edit_parser::{FromStr, ParsePath};
use toml_edit_repr::{Decor, RawString};
use toml_edit_tree::{Item, Table, Value, item};

/// Returns what was parsed, if it was. Notes it if memory ran out.
pub fn read<T: Drop>(read: Result<T, ParseFault>, out: &mut Answer) -> Option<T> {
    match read {
        Ok(read) => Some(read),
        Err(ParseFault::Memory) => {
            out.refuse();
            None
        }
        Err(ParseFault::Toml(_)) => None,
    }
}

/// Makes the value that the first word says, if it is one. Two more words are its decor.
pub fn value(words: &[Json], out: &mut Answer) -> Option<Value> {
    let value = said_value(word(words, 0), out)?;
    if words.len() < 3 {
        return Some(out.handed(value));
    }
    match decorated(value, words, out) {
        Some(value) => Some(out.handed(value)),
        None => None,
    }
}

/// Gives the value the second and the third word as decor.
fn decorated(value: Value, words: &[Json], out: &mut Answer) -> Option<Value> {
    let before = RawString::from_text(out.alloc, word(words, 1));
    match (before, RawString::from_text(out.alloc, word(words, 2))) {
        (Ok(before), Ok(after)) => Some(value.decorated(before, after)),
        _ => {
            drop(value);
            out.refuse();
            None
        }
    }
}

/// Makes a value from the text, the number or the boolean after the name of its kind, or else
/// parses it.
fn said_value(text: &str, out: &mut Answer) -> Option<Value> {
    if let Some(text) = text.strip_prefix("string ") {
        return out.given(Value::string(out.alloc, text)).ok();
    }
    match text.strip_prefix("integer ") {
        Some(number) => number.parse::<i64>().ok().map(Value::from),
        None => match text.strip_prefix("boolean ") {
            Some(truth) => Some(Value::from(truth == "true")),
            None => read(Value::from_str(out.alloc, text), out),
        },
    }
}

/// Makes the key that the text spells, if it is one.
pub fn lone_key(text: &str, out: &mut Answer) -> Option<Key> {
    read(Key::from_str(out.alloc, text), out)
}

/// Makes the key that the first word is, if it is one. Two more words are its leaf decor.
pub fn key(words: &[Json], out: &mut Answer) -> Option<Key> {
    let mut key = lone_key(word(words, 0), out)?;
    if words.len() < 3 || decorate(key.leaf_decor_mut(), words, out) {
        return Some(key);
    }
    drop(key);
    None
}

/// Makes the path that the text spells, if it is one. The empty text is the empty path.
pub fn path(text: &str, out: &mut Answer) -> Option<Vec<Key>> {
    if text.is_empty() {
        return Some(Vec::new(out.alloc));
    }
    read(Key::parse(out.alloc, text), out)
}

/// Sets both sides of a decor to the second and the third word, if there is memory for them.
fn decorate(decor: &mut Decor, words: &[Json], out: &mut Answer) -> bool {
    let before = RawString::from_text(out.alloc, word(words, 1));
    match (before, RawString::from_text(out.alloc, word(words, 2))) {
        (Ok(before), Ok(after)) => {
            decor.set_prefix(before);
            decor.set_suffix(after);
            true
        }
        _ => {
            out.refuse();
            false
        }
    }
}

/// A program of rows that parses documents.
pub trait Reads {
    /// Returns the root of the document that the text is, if it is one.
    fn root(text: &str, out: &mut Answer) -> Option<Table>;
}

/// Makes an item: an empty one of a kind, a new table of the pairs after `new`, a value, or the
/// item under `t` in a document.
pub fn item<P: Reads>(text: &str, out: &mut Answer) -> Option<Item> {
    match said_item::<P>(text, out) {
        Some(item) => Some(out.handed(item)),
        None => None,
    }
}

fn said_item<P: Reads>(text: &str, out: &mut Answer) -> Option<Item> {
    match text {
        "none" => Some(Item::default()),
        "table" => Some(item::table(out.alloc)),
        "array of tables" => Some(item::array(out.alloc)),
        _ => match text.strip_prefix("new ") {
            Some(pairs) => new_table(read(Value::from_str(out.alloc, pairs), out)),
            None => item_read::<P>(text, out),
        },
    }
}

fn new_table(made: Option<Value>) -> Option<Item> {
    match made? {
        Value::InlineTable(pairs) => Some(Item::from(pairs.into_table())),
        other => {
            drop(other);
            None
        }
    }
}

fn item_read<P: Reads>(text: &str, out: &mut Answer) -> Option<Item> {
    match said_value(text, out) {
        Some(value) => Some(Item::from(value)),
        None if out.is_call_refused() => None,
        None => under_t(P::root(text, out)),
    }
}

fn under_t(root: Option<Table>) -> Option<Item> {
    let mut root = root?;
    root.remove("t")
}
