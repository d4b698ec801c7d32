//! Paths in words and in messages.
ghost use Rattle.std.specs.Prelude.{IfOk};
ghost use Rattle.toml_edit_files.specs.Steps.{Mistakes};
ghost use Rattle.toml_edit_model.specs.Keys.{names};
ghost use Rattle.toml_edit_edits.specs.Said.{IsNoKeys, SpellsKeys};
ghost use Rattle.toml_edit_words.specs.Spelled.{IsNoPath, SpellsPath};

use crate::messages::mistaken;
use crate::stop::{Step, Stop};
use std::alloc::Global;
use toml_edit::{DocumentMut, Item, Key, Mem, ParseFault, TomlError};
use toml_edit_edits::keys_of;
use toml_edit_words::path_in;

/// Parses PATH. A message about it begins with `place`: the file, or an edit of it.
pub fn path_of(alloc: Global, place: &str, text: &str) -> Step<Vec<Key>>
    ensures spelled { IfOk result (λ keys. SpellsPath text.now (names keys.items)) }
    ensures stops { Mistakes (IsNoPath text.now) result }
{
    match path_in(alloc, text) {
        Ok(path) => Ok(path),
        Err(ParseFault::Toml(error)) => {
            Err(mistaken(alloc, bad_path(alloc, place, text, &error)))
        }
        Err(ParseFault::Memory) => Err(Stop::Memory),
    }
}

/// Parses the PATH of a sort, for which the empty text is the root.
pub fn sort_path_of(alloc: Global, place: &str, text: &str) -> Step<Vec<Key>>
    ensures spelled { IfOk result (λ keys. SpellsKeys text.now keys.items) }
    ensures stops { Mistakes (IsNoKeys text.now) result }
{
    match keys_of(alloc, text) {
        Ok(path) => Ok(path),
        Err(ParseFault::Toml(error)) => {
            Err(mistaken(alloc, bad_path(alloc, place, text, &error)))
        }
        Err(ParseFault::Memory) => Err(Stop::Memory),
    }
}

/// Returns the message that a path is none, and why.
fn bad_path(alloc: Global, place: &str, text: &str, error: &TomlError) -> Mem<String> {
    let why = why_of(alloc, error)?;
    let why = why.as_str();
    format!(in alloc; "{place}: bad path {text}{why}")
}

/// Returns why a path or a value is none: ` at column 3: unclosed array`.
pub fn why_of(alloc: Global, error: &TomlError) -> Mem<String> {
    let message = error.message();
    match error.column() {
        Some(column) => format!(in alloc; " at column {column}: {message}"),
        None => format!(in alloc; ": {message}"),
    }
}

/// Returns the text of a path: its keys as they are spelled, with dots between them.
pub fn path_text(alloc: Global, path: &[Key]) -> Mem<String> {
    let mut text = String::new(alloc);
    for key in path {
        if !text.is_empty() {
            text.push('.')?;
        }
        text.push_str(key.display_repr(alloc)?.as_str())?;
    }
    Ok(text)
}

/// Returns ` (nearest key: ..)` for a path that leads nowhere, or nothing if no key is near.
pub fn hint(alloc: Global, document: &DocumentMut, path: &[Key]) -> Mem<String> {
    for at in 0..path.len() {
        let (above, rest) = path.split_at(path.len() - at - 1);
        if let (Some(item), [missing, ..]) = (document.get_at(above), rest) {
            return nearest(alloc, item, above, missing);
        }
    }
    Ok(String::new(alloc))
}

/// Returns the hint at the key of an item whose name is nearest.
fn nearest(alloc: Global, item: &Item, above: &[Key], missing: &Key) -> Mem<String> {
    let Some(slots) = item.as_slots() else {
        return Ok(String::new(alloc));
    };
    let mut least = most_others(missing.get());
    let mut found = None;
    for slot in slots.as_slice() {
        if is_nearer(alloc, missing.get(), slot.key.get(), &mut least)? {
            found = Some(&slot.key);
        }
    }
    match found {
        Some(key) => {
            let mut text = String::from_str(alloc, " (nearest key: ")?;
            for key in above {
                text.push_str(key.display_repr(alloc)?.as_str())?;
                text.push('.')?;
            }
            text.push_str(key.display_repr(alloc)?.as_str())?;
            text.push(')')?;
            Ok(text)
        }
        None => Ok(String::new(alloc)),
    }
}

/// Returns ` (nearest: NAME)` for the nearest of some names, or nothing if none is near.
pub fn near(alloc: Global, word: &str, names: &[&str]) -> Mem<String> {
    let mut least = most_others(word);
    let mut found = None;
    for name in names {
        if is_nearer(alloc, word, *name, &mut least)? {
            found = Some(*name);
        }
    }
    match found {
        Some(name) => format!(in alloc; " (nearest: {name})"),
        None => Ok(String::new(alloc)),
    }
}

/// Returns how many letters of a word are too many others: more than half of them.
fn most_others(word: &str) -> usize {
    word.len() / 2 + 1
}

/// Returns `true` if a name is nearer to a word than so many letters, and how near.
fn is_nearer(alloc: Global, word: &str, name: &str, least: &mut usize) -> Mem<bool> {
    let distance = strsim::osa_distance(alloc, name, word)?;
    let is_nearer = distance < *least;
    if is_nearer {
        *least = distance;
    }
    Ok(is_nearer)
}
