//! Questions on keys, and steps with them.
use crate::answer::Answer;
use crate::steps::{Asks, behind, word};
use crate::value::{self, Plain};
use serde_json::Value as Json;
use toml_edit_key::{Key, KeyMut};
use toml_edit_repr::Repr;

/// Answers a question on a key, if there is one.
pub fn ask_found(key: Option<&Key>, words: &[Json], out: &mut Answer) {
    match key {
        Some(key) => ask(key, words, out),
        None => out.text("none"),
    }
}

/// Answers a question on a key.
pub fn ask(key: &Key, words: &[Json], out: &mut Answer) {
    match word(words, 0) {
        "get" => out.text(key.get()),
        "as_repr" => out.raw(key.as_repr().map(Repr::as_raw)),
        "span" => out.span(key.span()),
        "leaf_decor" => value::ask_decor(key.leaf_decor(), word(words, 1), out),
        "dotted_decor" => value::ask_decor(key.dotted_decor(), word(words, 1), out),
        call => out.no_such(call),
    }
}

/// Makes the call of a step on the lent key.
pub fn call_lent(lent: &mut KeyMut<'_>, words: &[Json], out: &mut Answer) {
    let rest = behind(words, 1);
    match word(words, 0) {
        "leaf_decor_mut" => value::change_decor(lent.leaf_decor_mut(), rest, out),
        "dotted_decor_mut" => value::change_decor(lent.dotted_decor_mut(), rest, out),
        "fmt" => lent.fmt(),
        _ => ask_lent(lent, words, out),
    }
}

fn ask_lent(lent: &KeyMut<'_>, words: &[Json], out: &mut Answer) {
    match word(words, 0) {
        "get" => out.text(lent.get()),
        "as_repr" => out.raw(lent.as_repr().map(Repr::as_raw)),
        "leaf_decor" => value::ask_decor(lent.leaf_decor(), word(words, 1), out),
        "dotted_decor" => value::ask_decor(lent.dotted_decor(), word(words, 1), out),
        "default_repr" => out.repr(lent.default_repr(out.alloc)),
        "display_repr" => out.made(lent.display_repr(out.alloc)),
        "to_string" => out.shown(lent),
        call => out.no_such(call),
    }
}

impl Asks<Key> for Plain {
    fn ask(copy: &Key, words: &[Json], out: &mut Answer) {
        ask(copy, words, out);
    }
}
