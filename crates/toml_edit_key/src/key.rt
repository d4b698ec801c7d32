//! Keys, and mutable references to all of a key but its name.
ghost use Rattle.std.specs.Prelude.{◌≡◌, ◌<◌, ◌^◌, Some, IsSome, IsOkAnd, IfOk, OnOk, IfSome, map, option_map, option_and_then, refl, bytes_eq, string_bytes};
ghost use Rattle.std.specs.Option.{option_copied};
ghost use Rattle.std.specs.Cow.{cow_str_bytes, IsBorrowedStr};
ghost use Rattle.std.specs.Fmt.{WritesInCalls};
ghost use Rattle.std.specs.Hash as fed;
ghost use Rattle.std.specs.Ordering.{nat_cmp};
ghost use Rattle.std.specs.Cmp.{on_equiv, on_total, on_po, on_per, partial_equiv_from_equiv};
ghost use Rattle.std.specs.Cmp.Lexicographic.{slice_cmp, nat_list_eq_equiv, nat_list_cmp_total, texts_ties, texts_po};
ghost use Rattle.toml_edit_model.specs.Tree.{owned, key_text, shown_spelling, span};
ghost use Rattle.toml_edit_model.specs.OwnedForm.{RawFits, cut_out};
ghost use Rattle.toml_edit_model.specs.Text.{Text};
ghost use Rattle.toml_edit_model.specs.DefaultSpelling.{key_spelling};
ghost use Rattle.toml_edit_model.specs.Keys.{new_key, reset_key};
ghost use Rattle.toml_edit_model.specs.Spelling.{SpellsKey};
ghost use Rattle.toml_edit_repr.specs.Views.{text_of};
ghost use Rattle.toml_edit_key.specs.Keys.{name_of, spanned_key};

use std::alloc::Global;
use std::borrow::CowStr;
use std::cmp::Ordering;
use std::fmt;
use std::fmt::{Formatter, Write};
use std::hash::{Hash, Hasher};
use std::marker::Model;
use std::ops::Range;
use toml_edit_io::{Printed, Sink, print, show};
use toml_edit_repr::repr::{clone_spelling, despan_spelling, detach_spelling};
use toml_edit_repr::{Decor, Mem, RawString, Repr, spelling_text};
use toml_edit_text::SharedText;
use toml_edit_token::put_key;
use toml_edit_token::run::{byte_at, is_bare};

/// A key: its name, its spelling, its *leaf* decor, and its *dotted* decor.
///
/// The leaf decor is what is around the key where it ends a path: the comments above it, and the
/// space before `=`. The dotted decor is the whitespace beside the dots of a dotted key or a
/// header. (TOML, "Keys".)
///
/// Keys are equal, ordered and hashed by their names. The spelling always spells the name:
/// `Table::rename` gives the key of a slot another one.
///
/// # Examples
///
/// ```rust,ignore
/// let leaf = key.leaf_decor().clone(alloc)?;
/// let dotted = key.dotted_decor().clone(alloc)?;
/// let key = Key::from_text(alloc, name)?;
/// Ok(key.with_leaf_decor(leaf).with_dotted_decor(dotted))
/// ```
///
/// From `renamed` of the crate `example_calls`.
#[derive(Debug)]
pub struct Key {
    text: String,
    // Not read if the parts say that the key has the default spelling.
    repr: Option<Repr>,
    parts: KeyParts,
}

/// The parts of a key that a `KeyMut` can change.
#[derive(Debug, Drop)]
pub(crate) struct KeyParts {
    leaf: Decor,
    dotted: Decor,
    is_default: bool,
}

impl Drop for Key {
    // Inlined, so that a row of slots that is dropped copies no key first.
    #[inline(always)]
    fn drop(self) {
        let Key { text, repr, parts } = self;
        drop(parts);
        drop(repr);
        drop(text);
    }
}

impl Model for Key {
    ghost use Rattle.toml_edit_model.specs.Tree.{Key as KeyView, HasTrueSpelling};
    ghost use Rattle.toml_edit_model.specs.Spelling.{SpellsKey};
    ghost use Rattle.toml_edit_key.specs.Kept.{kept};
    ghost use Rattle.std.specs.Prelude.{string_bytes};

    ghost Value = { KeyView };

    ghost view = { λ a. record {
      name = string_bytes a.text;
      spelling = kept a.parts.is_default a.repr;
      leaf = a.parts.leaf;
      dotted = a.parts.dotted;
    } };

    ghost invariant = { λ a. ∥ HasTrueSpelling (SpellsKey (string_bytes a.text)) a.repr ∥₁ };
}

impl Key {
    ghost use Rattle.std.specs.Borrow.{sem};
    ghost use Rattle.toml_edit_model.specs.Tree.{span, HasTrueSpelling};
    ghost use Rattle.toml_edit_model.specs.OwnedForm.{KeyFits, owned_raw, owned_key};
    ghost use Rattle.toml_edit_repr.specs.Views.{range_of};
    ghost use Rattle.toml_edit_key.specs.KeyLending.{LendsKeyMut};
    ghost use Rattle.toml_edit_key.specs.KeyMutView.{key_of};
    ghost use Rattle.toml_edit_key.specs.LendingParts.{LendsLeaf, LendsDotted};

    /// Returns the name, and drops the rest.
    fn into_text(self) -> String
        ensures { string_bytes result ≡ self.name }
    {
        let Key { text, repr, parts } = self;
        drop(repr);
        drop(parts);
        text
    }

    /// Makes a key of this name, with the default spelling and no decor.
    ///
    /// Any text is a name; its spelling gets quotes and escapes where it needs them. To make a key
    /// of a spelling, use `from_str` of the trait `FromStr`.
    pub fn new(text: String) -> Key
        ensures { result ≡ new_key (string_bytes text) }
    {
        Key {
            text,
            repr: None,
            parts: KeyParts {
                leaf: Decor::default(),
                dotted: Decor::default(),
                is_default: false,
            },
        }
    }

    /// Makes a key of a copy of this name, with the default spelling and no decor.
    ///
    /// # Errors
    ///
    /// Returns an `AllocError` if out of memory.
    pub fn from_text(alloc: Global, text: &str) -> Mem<Key>
        ensures { IfOk result (λ key. key ≡ new_key text.now) }
    {
        Ok(Key::new(String::from_str(alloc, text)?))
    }

    /// Makes a path of these names: a key of each, with the default spelling and no decor.
    ///
    /// To read a path as TOML spells it, use `parse` of the trait `ParsePath`.
    ///
    /// # Errors
    ///
    /// Returns an `AllocError` if out of memory.
    pub fn path(alloc: Global, names: &[&str]) -> Mem<Vec<Key>>
        ensures { IfOk result (λ path. path.items ≡ map (λ name. new_key name.now) names.now) }
    {
        let mut path = Vec::new(alloc);
        'names: for name in names {
            path.push(Key::from_text(alloc, *name)?)?;
        }
        Ok(path)
    }

    /// Makes a key that was parsed, spelled by the bytes of the source from `start` up to `end`.
    pub fn spanned(text: String, start: usize, end: usize, leaf: Decor, dotted: Decor) -> Key
        requires { start < 2 ^ 56 }
        ensures { result ≡ spanned_key (string_bytes text) start end leaf dotted }
    {
        Key {
            text,
            repr: Some(Repr::new(RawString::from_span(start, end))),
            parts: KeyParts {
                leaf,
                dotted,
                is_default: false,
            },
        }
    }

    /// Returns the name, without quotes and escapes.
    pub fn get(&self) -> &str
        ensures name { result.now ≡ self.now.name }
        ensures spelled { ∥ HasTrueSpelling (SpellsKey self.now.name) self.now.spelling ∥₁ }
    {
        self.text.as_str()
    }

    /// Returns the key's own spelling, or `None` if it has none and prints in the default one.
    ///
    /// A key that was parsed has one, even where it is spelled by default. See
    /// [`display_repr`](Self::display_repr) for what prints.
    pub fn as_repr(&self) -> Option<&Repr>
        ensures { option_copied result ≡ self.now.spelling }
    {
        if self.parts.is_default {
            None
        } else {
            self.repr.as_ref()
        }
    }

    /// Returns the default spelling of the name, whatever the key's own one is.
    ///
    /// It is bare if it can be, else in double quotes if it needs no escapes there, else in single
    /// quotes if it can be, else in double quotes with escapes. (TOML, "Keys".)
    ///
    /// # Errors
    ///
    /// Returns an `AllocError` if out of memory.
    pub fn default_repr(&self, alloc: Global) -> Mem<Repr>
        ensures default { IfOk result (λ repr. repr ≡ owned (key_spelling self.now.name)) }
        ensures spelled { SpellsKey self.now.name (key_spelling self.now.name) }
    {
        default_spelling(alloc, self.get())
    }

    /// Returns the spelling that prints: the key's own one if it is a text, else the default one.
    ///
    /// # Errors
    ///
    /// Returns an `AllocError` if out of memory. A spelling of the key's own takes none.
    pub fn display_repr(&self, alloc: Global) -> Mem<CowStr<'_>>
        ensures text { IfOk result (λ text. cow_str_bytes text ≡ key_text self.now) }
        ensures free { IsSome (option_and_then text_of self.now.spelling)
            → IsOkAnd result IsBorrowedStr }
    {
        displayed(alloc, self.get(), self.as_repr())
    }

    /// Returns the whitespace and the comments around the key where it ends a path.
    ///
    /// The comment above a line is in the prefix, the whitespace before `=` in the suffix.
    pub fn leaf_decor(&self) -> &Decor
        ensures { result.now ≡ self.now.leaf }
    {
        &self.parts.leaf
    }

    /// Returns a mutable reference to the whitespace and the comments around the key where it ends
    /// a path.
    ///
    /// The comment above a line is in the prefix, the whitespace before `=` in the suffix.
    pub fn leaf_decor_mut(&mut self) -> &mut Decor
        ensures* writes_back { sem 𝓛 (LendsLeaf self.entry result) }
        ensures decor { result.now ≡ self.old.leaf }
    {
        let parts = &mut self.parts;
        &mut parts.leaf
    }

    /// Returns the decor of the key beside dots: the whitespace between the key and the dots before
    /// and after it.
    pub fn dotted_decor(&self) -> &Decor
        ensures { result.now ≡ self.now.dotted }
    {
        &self.parts.dotted
    }

    /// Returns a mutable reference to the decor of the key beside dots: the whitespace between the
    /// key and the dots before and after it.
    pub fn dotted_decor_mut(&mut self) -> &mut Decor
        ensures* writes_back { sem 𝓛 (LendsDotted self.entry result) }
        ensures decor { result.now ≡ self.old.dotted }
    {
        let parts = &mut self.parts;
        &mut parts.dotted
    }

    /// Returns a mutable reference to all of the key but its name.
    pub fn as_mut(&mut self) -> KeyMut<'_>
        ensures* writes_back { sem 𝓛 (LendsKeyMut self.entry result) }
        ensures same { key_of result ≡ self.old }
    {
        if self.parts.is_default {
            self.repr = None;
        }
        KeyMut {
            name: self.text.as_str(),
            repr: self.repr.as_ref(),
            parts: &mut self.parts,
        }
    }

    /// Resets the key to its default spelling, and unsets both of its decors.
    pub fn fmt(&mut self)
        ensures { self.new ≡ reset_key self.old }
    {
        self.repr = None;
        self.parts.leaf.clear();
        self.parts.dotted.clear();
    }

    /// Returns the bytes of the source that the spelling covers, or `None` if it is not a span.
    ///
    /// Only keys of a `Document` have one, not those of a `DocumentMut`.
    pub fn span(&self) -> Option<Range<usize>>
        ensures { result ≡ option_and_then range_of self.now.spelling }
    {
        self.as_repr()?.span()
    }

    /// Returns an equal copy, with its name, its spelling and its decors.
    ///
    /// # Errors
    ///
    /// Returns an `AllocError` if out of memory.
    pub fn clone(&self, alloc: Global) -> Mem<Key>
        ensures { IfOk result (λ copy. copy ≡ self.now) }
    {
        Ok(Key {
            text: String::from_str(alloc, self.text.as_str())?,
            repr: clone_spelling(alloc, &self.repr)?,
            parts: KeyParts {
                leaf: self.parts.leaf.clone(alloc)?,
                dotted: self.parts.dotted.clone(alloc)?,
                is_default: self.parts.is_default,
            },
        })
    }

    /// Returns the key with another leaf decor: the comment above its line, and the whitespace
    /// before `=`.
    pub fn with_leaf_decor(self, decor: Decor) -> Key
        ensures { result ≡ record self { leaf = decor } }
    {
        let mut key = self;
        key.parts.leaf = decor;
        key
    }

    /// Returns the key with another dotted decor: the whitespace between it and the dots beside it.
    pub fn with_dotted_decor(self, decor: Decor) -> Key
        ensures { result ≡ record self { dotted = decor } }
    {
        let mut key = self;
        key.parts.dotted = decor;
        key
    }

    /// Replaces spans of `source` by the texts that they cut.
    ///
    /// # Errors
    ///
    /// Returns an `AllocError` if out of memory. Spans may be left then: drop the document.
    #[doc(hidden)]
    pub fn despan(&mut self, alloc: Global, source: &SharedText) -> Mem<()>
        requires fits { KeyFits source.now self.old }
        requires spelled { ∥ HasTrueSpelling (SpellsKey self.old.name)
            (option_map (owned_raw source.now) self.old.spelling) ∥₁ }
        ensures name { self.new.name ≡ self.old.name }
        ensures ok { OnOk result (self.new ≡ owned_key source.now self.old) }
    {
        if self.parts.is_default {
            self.repr = None;
        }
        despan_spelling(alloc, &mut self.repr, source)?;
        self.parts.leaf.despan(alloc, source)?;
        self.parts.dotted.despan(alloc, source)
    }

    /// Copies the texts that are parts of a document's source, so that it does not keep the source.
    ///
    /// # Errors
    ///
    /// Returns an `AllocError` if out of memory, and then keeps the source.
    #[doc(hidden)]
    pub fn detach(&mut self, alloc: Global) -> Mem<()>
        ensures { self.new ≡ self.old }
    {
        detach_spelling(alloc, &mut self.repr)?;
        self.parts.leaf.detach(alloc)?;
        self.parts.dotted.detach(alloc)
    }
}

/// Returns the name of the key that the text spells from `start` up to `end`, or `None` if it does
/// not begin as a bare key.
///
/// # Errors
///
/// Returns an `AllocError` if out of memory.
#[doc(hidden)]
#[inline(always)]
pub fn bare_name(alloc: Global, text: &str, start: usize, end: usize) -> Mem<Option<String>>
    requires { RawFits text.now (span start end) }
    ensures { IfOk result (λ o. IfSome o
        (λ name. (k : Text) → SpellsKey k (cut_out text.now start end) → string_bytes name ≡ k)) }
{
    if is_bare(byte_at(text, start)) {
        Ok(Some(String::from_str(alloc, &text[start..end])?))
    } else {
        Ok(None)
    }
}

/// Writes the spelling: the key's own one if it is a text, else the default one.
impl fmt::Display for Key {
    ghost output = { λ key. Some (key_text key) };

    fn fmt<W: Write>(&self, f: &mut Formatter<W>) -> fmt::Result {
        show(f, self)
    }
}

impl Printed for Key {
    ghost text = { key_text };

    fn put_into<S: Sink>(&self, out: &mut S) {
        put_spelling(out, self.get(), self.as_repr())
    }
}

/// Makes a key of this name, with the default spelling and no decor.
impl From<String> for Key {
    ghost from_gives = { λ text key. key ≡ new_key (string_bytes text) };

    fn from(text: String) -> Key {
        Key::new(text)
    }
}

/// Returns the name.
impl From<Key> for String {
    ghost from_gives = { λ key text. string_bytes text ≡ key.name };

    fn from(key: Key) -> String {
        key.into_text()
    }
}

impl PartialEq for Key {
    ghost eq = { λ a b. bytes_eq (name_of a) (name_of b) };

    ghost laws = { on_per name_of (partial_equiv_from_equiv nat_list_eq_equiv) };

    fn eq(&self, other: &Key) -> bool {
        self.get() == other.get()
    }
}

impl Eq for Key {
    ghost laws = { on_equiv name_of nat_list_eq_equiv };
}

/// Orders keys by the bytes of their names.
impl PartialOrd for Key {
    ghost partial_cmp = { λ a b. Some (slice_cmp nat_cmp (name_of a) (name_of b)) };

    ghost laws = { on_po name_of texts_po };

    fn partial_cmp(&self, other: &Key) -> Option<Ordering> {
        Some(self.cmp(other))
    }
}

/// Orders keys by the bytes of their names.
impl Ord for Key {
    ghost cmp = { λ a b. slice_cmp nat_cmp (name_of a) (name_of b) };

    ghost total = { on_total name_of nat_list_cmp_total };

    ghost matches_partial_cmp = { λ a b. refl };

    ghost matches_eq = { λ a b. texts_ties (name_of a) (name_of b) };

    fn cmp(&self, other: &Key) -> Ordering {
        self.get().cmp(other.get())
    }
}

impl Hash for Key {
    ghost use Rattle.std.proofs.Common.{rules};
    ghost use Rattle.std.specs.Cmp.Rules.{hashing};

    ghost hash_input = { λ key. fed.str (name_of key) };

    ghost respects_eq = { Prim.search (hashing, rules) };

    fn hash<H: Hasher>(&self, state: &mut H) {
        self.get().hash(state);
    }
}

/// A mutable reference to all of a key but its name.
///
/// It changes the decors of the key, and [`fmt`](Self::fmt) resets its spelling. The name stays, so
/// that a table finds the key. `key_mut` of a table or an entry gives one, and [`Key::as_mut`].
///
/// # Examples
///
/// ```rust,ignore
/// if let Some(key) = labelled.key_mut("a") {
///     let mut key = key;
///     key.leaf_decor_mut().set_prefix(comment);
/// ```
///
/// From `comments` of the crate `test_calls`.
#[derive(Debug, Drop)]
pub struct KeyMut<'k> {
    name: &'k str,
    repr: Option<&'k Repr>,
    parts: &'k mut KeyParts,
}

impl<'k> KeyMut<'k> {
    ghost use Rattle.std.specs.Borrow.{sem};
    ghost use Rattle.toml_edit_key.specs.KeyLending.{LendsLeafMut, LendsDottedMut};
    ghost use Rattle.toml_edit_key.specs.KeyMutView.{lent_parts, key_of};

    /// Returns the name, without quotes and escapes.
    pub fn get(&self) -> &str
        ensures { result.now ≡ (key_of self.now).name }
    {
        self.name
    }

    /// Returns the key's own spelling, or `None` if it has none and prints in the default one.
    ///
    /// A key that was parsed has one, even where it is spelled by default.
    pub fn as_repr(&self) -> Option<&Repr>
        ensures { option_copied result ≡ (key_of self.now).spelling }
    {
        if self.parts.is_default {
            None
        } else {
            self.repr
        }
    }

    /// Returns the default spelling of the name, whatever the key's own one is.
    ///
    /// It is bare if it can be, and else in quotes, as [`Key::default_repr`] says.
    ///
    /// # Errors
    ///
    /// Returns an `AllocError` if out of memory.
    pub fn default_repr(&self, alloc: Global) -> Mem<Repr>
        ensures default { IfOk result (λ repr. repr ≡ owned (key_spelling (key_of self.now).name)) }
        ensures spelled { SpellsKey (key_of self.now).name (key_spelling (key_of self.now).name) }
    {
        default_spelling(alloc, self.name)
    }

    /// Returns the spelling that prints: the key's own one if it is a text, else the default one.
    ///
    /// # Errors
    ///
    /// Returns an `AllocError` if out of memory. A spelling of the key's own takes none.
    pub fn display_repr(&self, alloc: Global) -> Mem<CowStr<'_>>
        ensures free { IsSome (option_and_then text_of (key_of self.now).spelling)
            → IsOkAnd result IsBorrowedStr }
        ensures text { IfOk result (λ text. cow_str_bytes text ≡ key_text (key_of self.now)) }
    {
        displayed(alloc, self.name, self.as_repr())
    }

    /// Returns the whitespace and the comments around the key where it ends a path.
    ///
    /// The comment above a line is in the prefix, the whitespace before `=` in the suffix.
    pub fn leaf_decor(&self) -> &Decor
        ensures { result.now ≡ (key_of self.now).leaf }
    {
        &self.parts.leaf
    }

    /// Returns a mutable reference to the whitespace and the comments around the key where it ends
    /// a path.
    ///
    /// The comment above a line is in the prefix, the whitespace before `=` in the suffix.
    pub fn leaf_decor_mut(&mut self) -> &mut Decor
        ensures* writes_back { sem 𝓛 (LendsLeafMut self.entry result) }
        ensures decor { result.now ≡ (key_of self.old).leaf }
    {
        let parts = &mut *self.parts;
        &mut parts.leaf
    }

    /// Returns the decor of the key beside dots: the whitespace between the key and the dots before
    /// and after it.
    pub fn dotted_decor(&self) -> &Decor
        ensures { result.now ≡ (key_of self.now).dotted }
    {
        &self.parts.dotted
    }

    /// Returns a mutable reference to the decor of the key beside dots: the whitespace between the
    /// key and the dots before and after it.
    pub fn dotted_decor_mut(&mut self) -> &mut Decor
        ensures* writes_back { sem 𝓛 (LendsDottedMut self.entry result) }
        ensures decor { result.now ≡ (key_of self.old).dotted }
    {
        let parts = &mut *self.parts;
        &mut parts.dotted
    }

    /// Resets the key to its default spelling, and unsets both of its decors.
    pub fn fmt(&mut self)
        ensures same_reference { (lent_parts self.new).ghost_name
            ≡ (lent_parts self.old).ghost_name }
        ensures key { key_of self.new ≡ reset_key (key_of self.old) }
    {
        self.parts.leaf.clear();
        self.parts.dotted.clear();
        self.parts.is_default = true;
    }
}

/// Writes the spelling: the key's own one if it is a text, else the default one.
impl fmt::Display for KeyMut<'_> {
    ghost use Rattle.toml_edit_key.specs.KeyMutView.{key_of};

    ghost output = { λ m. Some (key_text (key_of m)) };

    fn fmt<W: Write>(&self, f: &mut Formatter<W>) -> fmt::Result {
        show(f, self)
    }
}

impl Printed for KeyMut<'_> {
    ghost use Rattle.toml_edit_key.specs.KeyMutView.{key_of};

    ghost text = { λ m. key_text (key_of m) };

    fn put_into<S: Sink>(&self, out: &mut S) {
        put_spelling(out, self.name, self.as_repr())
    }
}

/// Returns the default spelling of the name.
fn default_spelling(alloc: Global, name: &str) -> Mem<Repr>
    ensures default { IfOk result (λ repr. repr ≡ owned (key_spelling name.now)) }
    ensures spelled { SpellsKey name.now (key_spelling name.now) }
{
    let spelling = print(alloc, &DefaultSpelling { name })?;
    Ok(Repr::new(RawString::from_string(spelling)?))
}

/// Returns the spelling if it is a text, else the default one of the name.
fn displayed<'a>(alloc: Global, name: &'a str, repr: Option<&'a Repr>) -> Mem<CowStr<'a>>
    ensures text { IfOk result
        (λ text. cow_str_bytes text
        ≡ shown_spelling (key_spelling name.now) (option_copied repr.entry)) }
    ensures free { IsSome (option_and_then text_of (option_copied repr.entry))
        → IsOkAnd result IsBorrowedStr }
{
    match spelling_text(repr) {
        Some(spelling) => Ok(CowStr::Borrowed(spelling)),
        None => Ok(CowStr::Owned(print(alloc, &DefaultSpelling { name })?)),
    }
}

/// Puts the spelling if it is a text, else the default one of the name.
fn put_spelling<S: Sink>(out: &mut S, name: &str, repr: Option<&Repr>)
    ensures { WritesInCalls S.puts out.old
        (shown_spelling (key_spelling name.now) (option_copied repr.entry)) out.new }
{
    match spelling_text(repr) {
        Some(spelling) => out.put(spelling),
        None => put_key(out, name),
    }
}

/// A name that is printed in its default spelling.
#[derive(Drop)]
struct DefaultSpelling<'a> {
    name: &'a str,
}

impl Printed for DefaultSpelling<'_> {
    ghost text = { λ s. key_spelling s.name.now };

    fn put_into<S: Sink>(&self, out: &mut S) {
        put_key(out, self.name)
    }
}
