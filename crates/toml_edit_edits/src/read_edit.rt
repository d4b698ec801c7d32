//! Reading the words of edits.
ghost use Rattle.std.specs.Prelude.{◌≡◌, ◌≤◌, ◌<◌, ◌∷◌, [], IfErr, IfOk, List, MatchOption, length, map, string_bytes, take};
ghost use Rattle.toml_edit_error.specs.Fault.{IfToml};
ghost use Rattle.toml_edit_model.specs.Text.{Text};
ghost use Rattle.toml_edit_model.specs.Version.{Version};
ghost use Rattle.toml_edit_parser.specs.Options.{version_of};
ghost use Rattle.toml_edit_tree.specs.View.{value_view};
ghost use Rattle.toml_edit_words.specs.Spelled.{SpellsValue};
ghost use Rattle.toml_edit_edits.specs.Said.{AreKeys, IsNoKeys, IsNoName, IsWrong, SaysEdit, SaysEdits, SpellsKeys, SpellsName, StopsEdit, StopsEdits, StopsOperands, Takes, name_of, operands, text_name, value_name};
ghost use Rattle.toml_edit_edits.specs.declared.edit.Verb.TheVariants as verbs;

use crate::edit::{Edit, PathVerb, TextVerb, ValueVerb, Verb};
use crate::fault::{WordFault, WordsFault};
use crate::keys::comment_text;
use std::alloc::Global;
use toml_edit::{Key, ParseFault, ParseOptions, Value};
use toml_edit_paths::reset_keys;
use toml_edit_words::{path_in, value_in};

/// Reads the edits that the words say, one after another.
///
/// # Errors
///
/// Returns which of them is refused first, and why.
pub fn edits_of(
    alloc: Global,
    options: ParseOptions,
    words: &[&str],
) -> Result<Vec<Edit>, WordsFault>
    ensures said { IfOk result (λ edits. SaysEdits (version_of options)
        (map (λ w. w.now) words.now) edits.items) }
    ensures stops { IfErr result (StopsEdits (version_of options) (map (λ w. w.now) words.now)) }
{
    let mut edits = Vec::new(alloc);
    let mut rest = words;
    while !rest.is_empty() {
        let number = edits.len() + 1;
        let count = match next_edit(alloc, options, rest) {
            Ok((edit, count)) => match edits.push(edit) {
                Ok(()) => count,
                Err(_) => {
                    return Err(WordsFault {
                        number,
                        fault: WordFault::Memory,
                    });
                }
            },
            Err(fault) => return Err(WordsFault { number, fault }),
        };
        rest = &rest[count..];
    }
    Ok(edits)
}

/// Reads the edit that the words begin with, and returns how many of them it has.
///
/// A path may be empty, as that of the root is. The keys of paths get their default spelling, since
/// TOML 1.0 may not allow the one that they have.
///
/// # Errors
///
/// Returns why the words begin with none.
pub fn next_edit(
    alloc: Global,
    options: ParseOptions,
    words: &[&str],
) -> Result<(Edit, usize), WordFault>
    ensures said { IfOk result (λ r. SaysEdit (version_of options)
        (take r.1 (map (λ w. w.now) words.now)) r.0) }
    ensures count { IfOk result (λ r. (0 < r.1) × (r.1 ≤ length words.now)) }
    ensures stops { IfErr result (StopsEdit (version_of options) (map (λ w. w.now) words.now)) }
{
    match words {
        [name, operands @ ..] => match Verb::named(*name) {
            Some(verb) => match edit_of(alloc, options, verb, operands) {
                Ok(edit) => Ok((edit, verb.count() + 1)),
                Err(fault) => Err(fault),
            },
            None => Err(WordFault::Name),
        },
        [] => Err(WordFault::Name),
    }
}

/// Reads the edit of this verb of the words that follow its name.
fn edit_of(
    alloc: Global,
    options: ParseOptions,
    verb: Verb,
    words: &[&str],
) -> Result<Edit, WordFault>
    ensures said { IfOk result (λ edit. SaysEdit (version_of options)
        (name_of verb ∷ take (operands verb) (map (λ w. w.now) words.now)) edit) }
    ensures count { IfOk result (λ _. operands verb ≤ length words.now) }
    ensures stops { IfErr result
        (StopsOperands (version_of options) verb (map (λ w. w.now) words.now)) }
{
    match words {
        [path, operand, ..] => edit_with(alloc, options, verb, *path, *operand),
        [path] => match verb {
            Verb::Path(_) => edit_with(alloc, options, verb, *path, ""),
            _ => Err(WordFault::Operands(verb)),
        },
        [] => Err(WordFault::Operands(verb)),
    }
}

/// Reads the edit of this verb of a path and another word, if it takes one.
fn edit_with(
    alloc: Global,
    options: ParseOptions,
    verb: Verb,
    path: &str,
    operand: &str,
) -> Result<Edit, WordFault>
    ensures said { IfOk result (λ edit. SaysEdit (version_of options)
        (name_of verb ∷ take (operands verb) (path.now ∷ operand.now ∷ [])) edit) }
    ensures stops { IfErr result (λ fault. IsWrong (version_of options) fault verb
        (take (operands verb) (path.now ∷ operand.now ∷ []))) }
{
    let keys = match keys_of(alloc, path) {
        Ok(keys) => keys,
        Err(ParseFault::Toml(error)) => return Err(WordFault::Path(error)),
        Err(ParseFault::Memory) => return Err(WordFault::Memory),
    };
    match verb {
        Verb::Path(PathVerb::Section) => Ok(Edit::Section(keys)),
        Verb::Path(PathVerb::Remove) => Ok(Edit::Remove(keys)),
        Verb::Path(PathVerb::Sort) => Ok(Edit::Sort(keys)),
        Verb::Value(verb) => value_edit(alloc, options, verb, keys, operand),
        Verb::Text(verb) => text_edit(alloc, verb, keys, operand),
        Verb::Rename => rename_edit(alloc, keys, operand),
        Verb::Move => move_edit(alloc, keys, operand),
    }
}

fn value_edit(
    alloc: Global,
    options: ParseOptions,
    verb: ValueVerb,
    keys: Vec<Key>,
    value: &str,
) -> Result<Edit, WordFault>
    ensures said { (path : Text) → SpellsKeys path keys.items → IfOk result
        (SaysEdit (version_of options) (value_name verb ∷ path ∷ value.now ∷ [])) }
    ensures stops { (path : Text) → AreKeys path → IfErr result
        (λ fault. IsWrong (version_of options) fault (verbs.Value verb) (path ∷ value.now ∷ [])) }
{
    match value_in(alloc, value, options) {
        Ok(value) => Ok(valued(verb, keys, value)),
        Err(ParseFault::Toml(error)) => Err(WordFault::Value(error)),
        Err(ParseFault::Memory) => Err(WordFault::Memory),
    }
}

fn valued(verb: ValueVerb, keys: Vec<Key>, value: Value) -> Edit
    ensures { (version : Version) (ws : List Text) → Takes (λ t. SpellsValue version t
        (value_view value)) (value_name verb) ws keys.items → SaysEdit version ws result }
{
    match verb {
        ValueVerb::Set => Edit::Set(keys, value),
        ValueVerb::Header => Edit::Header(keys, value),
        ValueVerb::Table => Edit::Table(keys, value),
        ValueVerb::Append => Edit::Append(keys, value),
        ValueVerb::Insert => Edit::Insert(keys, value),
        ValueVerb::Take => Edit::Take(keys, value),
    }
}

fn text_edit(alloc: Global, verb: TextVerb, keys: Vec<Key>, text: &str) -> Result<Edit, WordFault>
    ensures said { (version : Version) (path : Text) → SpellsKeys path keys.items → IfOk result
        (SaysEdit version (text_name verb ∷ path ∷ text.now ∷ [])) }
    ensures stops { (version : Version) (path : Text) → IfErr result
        (λ fault. IsWrong version fault (verbs.Text verb) (path ∷ text.now ∷ [])) }
{
    match verb {
        TextVerb::String => match Value::string(alloc, text) {
            Ok(value) => Ok(Edit::Set(keys, value)),
            Err(_) => Err(WordFault::Memory),
        },
        TextVerb::Comment => match comment_text(alloc, text) {
            Ok(text) => Ok(Edit::Comment(keys, text)),
            Err(_) => Err(WordFault::Memory),
        },
    }
}

/// Reads a renaming, whose key is spelled as in a path.
fn rename_edit(alloc: Global, keys: Vec<Key>, key: &str) -> Result<Edit, WordFault>
    ensures said { (version : Version) (path : Text) → SpellsKeys path keys.items → IfOk result
        (SaysEdit version (name_of verbs.Rename ∷ path ∷ key.now ∷ [])) }
    ensures stops { (version : Version) (path : Text) → AreKeys path → IfErr result
        (λ fault. IsWrong version fault verbs.Rename (path ∷ key.now ∷ [])) }
{
    match key_name(alloc, key) {
        Ok(Some(name)) => Ok(Edit::Rename(keys, name)),
        Ok(None) => Err(WordFault::Key(None)),
        Err(ParseFault::Toml(error)) => Err(WordFault::Key(Some(error))),
        Err(ParseFault::Memory) => Err(WordFault::Memory),
    }
}

fn move_edit(alloc: Global, keys: Vec<Key>, to: &str) -> Result<Edit, WordFault>
    ensures said { (version : Version) (path : Text) → SpellsKeys path keys.items → IfOk result
        (SaysEdit version (name_of verbs.Move ∷ path ∷ to.now ∷ [])) }
    ensures stops { (version : Version) (path : Text) → AreKeys path → IfErr result
        (λ fault. IsWrong version fault verbs.Move (path ∷ to.now ∷ [])) }
{
    match keys_of(alloc, to) {
        Ok(to) => Ok(Edit::Move(keys, to)),
        Err(ParseFault::Toml(error)) => Err(WordFault::To(error)),
        Err(ParseFault::Memory) => Err(WordFault::Memory),
    }
}

/// Parses a path, which may be the empty one, and gives each key its default spelling.
///
/// # Errors
///
/// Returns `ParseFault::Toml` if the text is no path, and `ParseFault::Memory` if out of memory.
pub fn keys_of(alloc: Global, path: &str) -> Result<Vec<Key>, ParseFault>
    ensures spelled { IfOk result (λ keys. SpellsKeys path.now keys.items) }
    ensures stops { IfErr result (λ fault. IfToml fault (λ _. IsNoKeys path.now)) }
{
    if path.is_empty() {
        return Ok(Vec::new(alloc));
    }
    match path_in(alloc, path) {
        Ok(mut keys) => {
            reset_keys(keys.as_mut_slice());
            Ok(keys)
        }
        Err(fault) => Err(fault),
    }
}

/// Parses a path, and returns the name of its key, or `None` if it has several.
fn key_name(alloc: Global, key: &str) -> Result<Option<String>, ParseFault>
    ensures spelled { IfOk result (λ name. MatchOption name (IsNoName key.now)
        (λ name. SpellsName key.now (string_bytes name))) }
    ensures stops { IfErr result (λ fault. IfToml fault (λ _. IsNoName key.now)) }
{
    match path_in(alloc, key) {
        Ok(keys) => match keys.as_slice() {
            [only] => match String::from_str(alloc, only.get()) {
                Ok(name) => Ok(Some(name)),
                Err(_) => Err(ParseFault::Memory),
            },
            _ => Ok(None),
        },
        Err(fault) => Err(fault),
    }
}
