//! Parsing a text that is one key or one path.
ghost use Rattle.std.specs.Prelude.{◌≡◌, ◌<◌, ◌^◌, List, length, IfErr, IfOk, MatchResult, option_map};
ghost use Rattle.toml_edit_model.specs.Text.{Text};
ghost use Rattle.toml_edit_model.specs.Syntax.{Segment};
ghost use Rattle.toml_edit_model.specs.Spelling.{SpellsKey};
ghost use Rattle.toml_edit_model.specs.Lone.{IsLonePath, IsLongPath, MayRefuseKey, MayRefusePath, lone_keys, some_text};
ghost use Rattle.toml_edit_model.specs.OwnedForm.{KeyFits, owned_key, owned_raw};
ghost use Rattle.toml_edit_model.specs.Tree.{HasTrueSpelling};
ghost use Rattle.toml_edit_error.specs.Fault.{IfToml};
ghost use Rattle.toml_edit_error.specs.Report.{fault_of};
ghost use Rattle.toml_edit_syntax.specs.LonePath.{ArePathEvents, IsPathText};
ghost use Rattle.toml_edit_parser.specs.ReadKeys.{AreLoneKeys, GivesValue, ReadsLoneKey, ReadsLonePath, limit_fault, lone_key};
ghost use Rattle.toml_edit_parser.specs.ValueRead.{AreIn};

use crate::fault::{refusal_of_all, refusal_with};
use crate::from_str::FromStr;
use crate::key::{KeyPath, MOST_PATH_EVENTS, PathKey, next_key};
use crate::reader::{Reader, is_short};
use std::alloc::Global;
use toml_edit_error::ParseFault;
use toml_edit_key::Key;
use toml_edit_repr::{Decor, Mem, Mode, RawString};
use toml_edit_syntax::{LonePath, Span, SyntaxFault, Version, key_mistake, lone_path};
use toml_edit_text::SharedText;
use toml_edit_token::decode_key;

/// A type such that a text that holds one path can be parsed to a list of it, key by key.
///
/// It is implemented for [`Key`], and has to be imported.
///
/// # Examples
///
/// ```rust,ignore
/// let path = Key::parse(alloc, "package.version")?;
/// if document.get_at(&path).is_none() {
///     bail!("package.version is missing");
/// }
/// ```
///
/// From `set_version` of the crate `example`.
pub trait ParsePath: Sized {
    ghost use Rattle.std.specs.Prelude.{List, ℕ, Result, Vec};
    ghost use Rattle.std.specs.declared.alloc.Global.{Global};
    ghost use Rattle.toml_edit_error.specs.declared.toml_error.ParseFault.{ParseFault};

    /// What parsing a text may return.
    ghost answers_path: { List ℕ → Result (Vec Self Global) ParseFault → Type 0 };

    /// Parses a text that holds one path, with nothing but whitespace around it.
    ///
    /// # Errors
    ///
    /// Returns [`ParseFault::Toml`] if the text is refused, with a span in bytes in most cases, and
    /// [`ParseFault::Memory`] if out of memory.
    fn parse(alloc: Global, text: &str) -> Result<Vec<Self>, ParseFault>
        ensures { answers_path text.now result };
}

/// Parses a lone key, such as `"a b"`.
impl FromStr for Key {
    ghost answers = { ReadsLoneKey };

    /// Parses a key from its spelling, bare or quoted, and keeps that spelling. It gets no decor.
    ///
    /// For a dotted path use [`parse`](ParsePath::parse). To make a key of a name, use
    /// [`new`](Key::new) or [`from_text`](Key::from_text). (TOML, "Keys".)
    ///
    /// # Errors
    ///
    /// `ParseFault::Toml` if the text is not exactly one key: whitespace around it is refused too.
    /// The span, in bytes, marks the first character that does not belong there, or the quote of a
    /// string that does not end. `ParseFault::Memory` if out of memory.
    fn from_str(alloc: Global, text: &str) -> Result<Key, ParseFault>
        ensures key { IfOk result
            (λ key. SpellsKey key.name text.now × (key ≡ lone_key key.name text.now)) }
        ensures every { (k : Text) → SpellsKey k text.now
            → GivesValue (λ key. key) result (lone_key k text.now) }
        ensures refused { IfErr result
            (λ e. IfToml e (λ r. MayRefuseKey (fault_of r) × (r.input ≡ text.now))) }
    {
        if !is_short(text) {
            return Err(ParseFault::Memory);
        }
        match decode_key(alloc, text)? {
            Some(name) => {
                let key = Key::spanned(name, 0, text.len(), Decor::default(), Decor::default());
                Ok(with_texts(alloc, text, key)?)
            }
            None => {
                let (mistake, span) = key_mistake(text);
                Err(refusal_with(&lone_reader(alloc, text), mistake.message(), span))
            }
        }
    }
}

/// Parses a lone path, such as `a."b c".d`.
impl ParsePath for Key {
    ghost answers_path = { ReadsLonePath };

    /// Parses a dotted path of 1 to 80 keys, with whitespace around it, and keeps each key's
    /// spelling.
    ///
    /// Whitespace beside a dot becomes dotted decor of the keys on its two sides. Whitespace around
    /// the path becomes leaf decor of the last key, where a side without any stays unset. (TOML,
    /// "Keys".)
    ///
    /// # Errors
    ///
    /// `ParseFault::Toml` if the text is not a path, with a span in bytes that marks the first
    /// character that does not belong there, or the quote of a string that does not end. A path of
    /// more than 80 keys is refused with `recursion limit` and no span. `ParseFault::Memory` if out
    /// of memory.
    fn parse(alloc: Global, text: &str) -> Result<Vec<Key>, ParseFault>
        ensures keys { IfOk result (λ keys. AreLoneKeys text.now keys.items) }
        ensures every { (before : Text) (p : List Segment) (after : Text)
            → IsLonePath text.now before p after
            → GivesValue (λ keys. keys.items) result (lone_keys before p after) }
        ensures long { (before : Text) (p : List Segment) (after : Text)
            → IsLongPath text.now before p after
            → MatchResult result (λ _. ⊥) (λ e. IfToml e (λ r. r ≡ limit_fault text.now)) }
        ensures refused { IfErr result
            (λ e. IfToml e (λ r. MayRefusePath text.now (fault_of r) × (r.input ≡ text.now))) }
    {
        if !is_short(text) {
            return Err(ParseFault::Memory);
        }
        let reader = lone_reader(alloc, text);
        match lone_path(alloc, text) {
            Ok(path) => {
                if MOST_PATH_EVENTS < path.events.len() {
                    return Err(refusal_of_all(&reader));
                }
                read_keys(&reader, &path)
            }
            Err(SyntaxFault::Memory) => Err(ParseFault::Memory),
            Err(SyntaxFault::Text(mistake, span)) => {
                Err(refusal_with(&reader, mistake.message(), span))
            }
        }
    }
}

/// Returns a reader of a lone text. What keys mean is the same in each version and mode.
fn lone_reader(alloc: Global, text: &str) -> Reader<'_>
    requires { length text.now < 2 ^ 56 }
    ensures { result.source.now ≡ text.now }
{
    Reader {
        alloc,
        source: text,
        version: Version::V1_1,
        mode: Mode::Plain,
    }
}

/// Makes the key own its texts.
fn with_texts(alloc: Global, source: &str, key: Key) -> Mem<Key>
    requires fits { KeyFits source.now key }
    requires spelled { ∥ HasTrueSpelling (SpellsKey key.name)
        (option_map (owned_raw source.now) key.spelling) ∥₁ }
    ensures { IfOk result (λ k. k ≡ owned_key source.now key) }
{
    let mut key = key;
    let shared = SharedText::from_text(alloc, source)?;
    key.despan(alloc, &shared)?;
    Ok(key)
}

/// Makes a decor with a side set wherever its text is not empty.
fn outer_decor(alloc: Global, before: &str, after: &str) -> Mem<Decor>
    ensures { IfOk result
        (λ d. d ≡ record { prefix = some_text before.now; suffix = some_text after.now }) }
{
    let mut decor = Decor::default();
    if !before.is_empty() {
        decor.set_prefix(RawString::from_text(alloc, before)?);
    }
    if !after.is_empty() {
        decor.set_suffix(RawString::from_text(alloc, after)?);
    }
    Ok(decor)
}

/// Reads the keys of a lone path, one after another. They own their texts.
fn read_keys(reader: &Reader<'_>, path: &LonePath<'_>) -> Result<Vec<Key>, ParseFault>
    requires cut { ArePathEvents reader.now.source.now path.now.before.now path.now.events.items
        path.now.after.now }
    requires spans { AreIn reader.now.source.now path.now.events.items }
    ensures { (p : List Segment) → IsPathText reader.now.source.now path.now.before.now p path.now.after.now
        → GivesValue (λ keys. keys.items) result
        (lone_keys path.now.before.now p path.now.after.now) }
{
    let start = path.before.len();
    let start = Span { start, end: start };
    // The last key gets another leaf decor than the one of these spans.
    let mut left = KeyPath {
        prefix: start,
        suffix: start,
        before: start,
        events: path.events.as_slice(),
    };
    let mut keys = Vec::new(reader.alloc);
    'segments: loop {
        let PathKey { key, rest, .. } = next_key(reader, left)?;
        match rest {
            Some(inside) => {
                keys.push(with_texts(reader.alloc, reader.source, key)?)?;
                left = inside;
            }
            None => {
                let key = key.with_leaf_decor(outer_decor(reader.alloc, path.before, path.after)?);
                keys.push(with_texts(reader.alloc, reader.source, key)?)?;
                return Ok(keys);
            }
        }
    }
}
