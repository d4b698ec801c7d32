//! Rows on keys and paths.
use crate::program::Texts;
use serde_json::Value as Json;
use test_rows_read::key::{ask, ask_found, call_lent};
use test_rows_read::steps::{Tries, behind, copied, word};
use test_rows_read::value::{Plain, change_decor};
use test_rows_read::{Answer, Row, refusal, steps};
use toml_edit::{FromStr, Key, ParsePath};

/// Answers rows on a key or a path.
pub fn answer(row: Row<'_>, out: &mut Answer) {
    match row.kind {
        "path" => steps::read::<Texts, _>(Key::parse(out.alloc, row.text()), row, out),
        "name" => steps::made::<Texts, _>(Key::from_text(out.alloc, row.text()), row, out),
        _ => steps::read::<Texts, _>(Key::from_str(out.alloc, row.text()), row, out),
    }
}

impl Tries<Key> for Texts {
    fn call(key: &mut Key, words: &[Json], out: &mut Answer) {
        call(key, words, out);
    }

    fn answer(key: &Key, question: &str, out: &mut Answer) {
        match question {
            "steps" => {}
            "says" => out.text(key.get()),
            "shown" => out.shown(key),
            "default_repr" => out.repr(key.default_repr(out.alloc)),
            "display_repr" => out.made(key.display_repr(out.alloc)),
            _ => refusal::of_accepted(question, out),
        }
    }
}

/// Makes a step with the key. The answer to a call that changes it is empty.
fn call(key: &mut Key, words: &[Json], out: &mut Answer) {
    let rest = behind(words, 1);
    match word(words, 0) {
        "leaf_decor_mut" => change_decor(key.leaf_decor_mut(), rest, out),
        "dotted_decor_mut" => change_decor(key.dotted_decor_mut(), rest, out),
        "fmt" => key.fmt(),
        "as_mut" => call_lent(&mut key.as_mut(), rest, out),
        "clone" => copied::<Plain, _>(key.clone(out.alloc), rest, out),
        _ => ask(key, words, out),
    }
}

impl Tries<Vec<Key>> for Texts {
    fn call(keys: &mut Vec<Key>, words: &[Json], out: &mut Answer) {
        ask_path(keys.as_slice(), words, out);
    }

    fn answer(keys: &Vec<Key>, question: &str, out: &mut Answer) {
        match question {
            "steps" => {}
            "len" => out.shown(&keys.len()),
            _ => refusal::of_accepted(question, out),
        }
    }
}

/// Answers a question on the key at the place that the first word is.
fn ask_path(keys: &[Key], words: &[Json], out: &mut Answer) {
    match word(words, 0).parse::<usize>() {
        Ok(at) => ask_found(keys.get(at), behind(words, 1), out),
        Err(_) => out.no_such(word(words, 0)),
    }
}
