//! Documents: as they were parsed, over their source, and as they can be changed and printed.
ghost use Rattle.std.specs.Prelude.{◌≡◌, true};
ghost use Rattle.toml_edit.specs.Roots.{is_table, tree_under};
ghost use Rattle.toml_edit_model.specs.OwnedForm.{IsOver};

use crate::root::table_of;
use std::alloc::Global;
use toml_edit_edit_laws::others_stay;
use toml_edit_error::ParseFault;
use toml_edit_fits::{Misfit, first_misfit, tree_fits};
use toml_edit_parser::{ParseOptions, parse_with};
use toml_edit_repr::{Mem, Mode, RawString};
use toml_edit_text::SharedText;
use toml_edit_tree::{Item, Iter, Table};

mod at;
mod index;
mod print;

pub use print::PrintFault;

/// A type that holds the text of a document, and gives the same text each time.
///
/// It is implemented for `&str`, which takes no copy, and for `String`.
///
/// # Examples
///
/// A function over documents of any source:
///
/// ```rust,ignore
/// pub fn source_of<S: SourceText>(document: &Document<S>) -> &str
/// ```
///
/// From `source_of` of the crate `example_calls`.
pub trait SourceText: Drop {
    ghost use Rattle.std.specs.Prelude.{◌≡◌, IfOk, List, ℕ};

    /// The text.
    ghost content: { Self → List ℕ };

    /// Returns the text.
    fn text(&self) -> &str
        ensures { result.now ≡ content self.now };

    /// Converts the source into a text that a tree can hold parts of. A `String` is not copied.
    ///
    /// # Errors
    ///
    /// Returns an `AllocError` if out of memory.
    #[doc(hidden)]
    fn into_shared(self, alloc: Global) -> Mem<SharedText>
    where
        Self: Sized,
        ensures { IfOk result (λ shared. shared ≡ content self) }
    {
        SharedText::from_text(alloc, self.text())
    }
}

impl SourceText for &str {
    ghost content = { λ s. s.now };

    fn text(&self) -> &str {
        *self
    }
}

impl SourceText for String {
    ghost use Rattle.std.specs.Prelude.{string_bytes};

    ghost content = { λ s. string_bytes s };

    fn text(&self) -> &str {
        self.as_str()
    }

    fn into_shared(self, alloc: Global) -> Mem<SharedText> {
        SharedText::new(alloc, self)
    }
}

/// A document as it was parsed: a tree whose spellings and decors are spans of its source.
///
/// Its items and keys can be read, and say where they are in the source. To change or print it, use
/// [`into_mut`](Self::into_mut), or parse with [`DocumentMut::from_str`] from the start.
///
/// # Examples
///
/// Where a value is in the source, with `document.as_item()` as `root`:
///
/// ```rust,ignore
/// root.get(key)?.span()
/// ```
///
/// From `span_at` of the crate `example_calls`.
#[derive(Debug)]
pub struct Document<S: SourceText> {
    raw: S,
    root: Item,
    trailing: RawString,
    mode: Mode,
    open_end: bool,
    ghost rooted: { is_table root ≡ true },
    // Each span cuts a text from the source, and a spelling that is cut spells its key or scalar.
    ghost over: { ∥ IsOver (S.content raw) (tree_under root trailing) ∥₁ },
}

impl<S: SourceText> Drop for Document<S> {
    fn drop(self) {
        let Document {
            raw,
            root,
            trailing,
            mode: _,
            open_end: _,
        } = self;
        drop(raw);
        drop(root);
        drop(trailing);
    }
}

impl<S: SourceText> Document<S> {
    ghost use Rattle.std.specs.Prelude.{◌≡◌, ◌⊎◌, [], IfOk, IfErr, IsOk, IsErrOf};
    ghost use Rattle.toml_edit_model.specs.Mode as model;
    ghost use Rattle.toml_edit_model.specs.Syntax.{Document as Cut};
    ghost use Rattle.toml_edit_model.specs.Accepted.{AcceptedAs, AcceptedIn};
    ghost use Rattle.toml_edit_model.specs.Tree.{owned};
    ghost use Rattle.toml_edit_model.specs.TreeOf.{spanned_in, IsTreeOf};
    ghost use Rattle.toml_edit_model.specs.OwnedForm.{owned_tree};
    ghost use Rattle.toml_edit_error.specs.Fault.{IfToml};
    ghost use Rattle.toml_edit.specs.DocumentView.{IsPlainRead, mode_owned, mode_read, open_owned, open_read, source, tree_owned, tree_read};
    ghost use Rattle.toml_edit.specs.Documents.{IsOwnedTreeWith, IsReading, IsReadingIn, IsRefusal, IsRefusalIn, PrintsMeaningOf};
    ghost use Rattle.toml_edit_parser.specs.Options.{mode_of, version_of};
    ghost use Rattle.toml_edit_edit_laws.specs.Commands.{root_item};
    ghost use Rattle.toml_edit_tree.specs.Held.{held_left};
    ghost use Rattle.toml_edit_model.specs.Iterating.{filled_pairs};
    ghost use Rattle.toml_edit_model.specs.Lists.{slot_list};
    ghost use Rattle.toml_edit_tree.specs.View.{item_view, table_slots, tree_view, fields_view};

    /// Parses a text as TOML 1.1, into a tree with spans of the text. Line endings are not kept.
    ///
    /// For TOML 1.0, or to keep line endings, use [`parse_with`](Self::parse_with).
    ///
    /// # Errors
    ///
    /// Returns [`ParseFault::Toml`] if the text is refused. Its message and span are about the
    /// first statement that is wrong by itself or conflicts with one before it, or about the
    /// mistake if the syntax is wrong. The span is in bytes and lies in the text; a message about a
    /// limit may have none. Returns [`ParseFault::Memory`] if out of memory.
    pub fn parse(alloc: Global, raw: S) -> Result<Document<S>, ParseFault>
        ensures accepted { IfOk result (λ x. IsReading (S.content raw) (tree_read x)) }
        ensures source { IfOk result (λ x. source x ≡ S.content raw) }
        ensures plain { IfOk result (λ x. IsPlainRead x) }
        // An accepted text is never refused.
        ensures every { (d : Cut) → AcceptedAs (S.content raw) d
            → IsOk result ⊎ IsErrOf result ParseFault.Memory }
        ensures refused { IfErr result (λ e. IfToml e (IsRefusal (S.content raw))) }
    {
        Document::parse_with(alloc, raw, ParseOptions::new())
    }

    /// Parses a text by the options: in which version of TOML, and whether line endings are kept.
    ///
    /// In TOML 1.0, what only 1.1 has is refused as a fault of its statement. Where line endings
    /// are kept, the carriage return (CR) of a statement's newline becomes the end of the decor
    /// after that statement, and a last statement without newline leaves the end open (see
    /// [`DocumentMut::open_end`]).
    ///
    /// # Errors
    ///
    /// As [`parse`](Self::parse). What TOML 1.0 lacks has the message `needs TOML 1.1`, and its
    /// span.
    pub fn parse_with(
        alloc: Global,
        raw: S,
        options: ParseOptions,
    ) -> Result<Document<S>, ParseFault>
        ensures accepted { IfOk result
            (λ x. IsReadingIn (mode_of options) (version_of options) (S.content raw) (tree_read x)
            (open_read x)) }
        ensures mode { IfOk result (λ x. mode_read x ≡ mode_of options) }
        ensures source { IfOk result (λ x. source x ≡ S.content raw) }
        // A text that the version accepts is never refused.
        ensures every { (d : Cut) → AcceptedIn (version_of options) (S.content raw) d
            → IsOk result ⊎ IsErrOf result ParseFault.Memory }
        ensures refused { IfErr result
            (λ e. IfToml e (IsRefusalIn (version_of options) (S.content raw))) }
    {
        let version = options.get_version();
        let mode = options.get_mode();
        let (slots, trailing, is_open) = parse_with(alloc, raw.text(), version, mode)?;
        Ok(Document {
            raw,
            root: Item::Table(Table::root(slots)),
            trailing,
            mode,
            open_end: options.is_exact() && is_open,
        })
    }

    /// Returns the root table, as an item.
    pub fn as_item(&self) -> &Item
        ensures { item_view result.now ≡ root_item (tree_read self.now) }
    {
        &self.root
    }

    /// Returns the root table.
    pub fn as_table(&self) -> &Table
        ensures fields { fields_view result.now ≡ (tree_read self.now).root }
        ensures slots { table_slots result.now ≡ (tree_read self.now).slots }
    {
        match &self.root {
            Item::Table(table) => table,
            _ => unreachable!(),
        }
    }

    /// Returns an iterator over the names of the root's keys and their items, in order.
    ///
    /// Placeholders are skipped.
    pub fn iter(&self) -> Iter<'_>
        ensures { held_left result ≡ filled_pairs (slot_list (tree_read self.now).slots) }
    {
        self.as_table().iter()
    }

    /// Returns the whitespace and the comments after the last statement.
    ///
    /// A comment after the last value, on its line, is not among them: it is in the decor of the
    /// value.
    pub fn trailing(&self) -> &RawString
        ensures { result.now ≡ (tree_read self.now).trailing }
    {
        &self.trailing
    }

    /// Returns the text that was parsed.
    pub fn raw(&self) -> &str
        ensures { result.now ≡ source self.now }
    {
        self.raw.text()
    }

    /// Returns the root table as an item, and drops the source and the trailing text.
    ///
    /// Its spellings and decors stay spans, so what is printed of it has default ones. To keep
    /// them, call [`into_mut`](Self::into_mut) first. As the root of a document it fits and prints
    /// a text that means what the source means, whether or not the document keeps line endings.
    pub fn into_item(self) -> Item
        ensures root { item_view result ≡ root_item (tree_read self) }
        // As the root of a document, in either mode, its print means what the source means.
        ensures print { (printed : model.Mode) (d : Cut) → AcceptedAs (source self) d
            → IsTreeOf (spanned_in (mode_read self)) d (tree_read self)
            → PrintsMeaningOf printed d (record (tree_read self) { trailing = owned [] }) }
    {
        let Document {
            raw,
            root,
            trailing,
            mode: _,
            open_end: _,
        } = self;
        drop(raw);
        drop(trailing);
        root
    }

    /// Returns the root table, and drops the source and the trailing text.
    ///
    /// Its spellings and decors stay spans, so what is printed of it has default ones. To keep
    /// them, call [`into_mut`](Self::into_mut) first. As the root of a document it fits and prints
    /// a text that means what the source means, whether or not the document keeps line endings.
    pub fn into_table(self) -> Table
        ensures fields { fields_view result ≡ (tree_read self).root }
        ensures slots { table_slots result ≡ (tree_read self).slots }
        // As the root of a document, in either mode, its print means what the source means.
        ensures print { (printed : model.Mode) (d : Cut) → AcceptedAs (source self) d
            → IsTreeOf (spanned_in (mode_read self)) d (tree_read self)
            → PrintsMeaningOf printed d (tree_view result (owned [])) }
    {
        let Document {
            raw,
            root,
            trailing,
            mode: _,
            open_end: _,
        } = self;
        drop(raw);
        drop(trailing);
        table_of(root)
    }

    /// Converts the document into one that owns its texts and can be changed.
    ///
    /// Each span is replaced by the text that it cuts, so no span is left: ask for spans before. Long
    /// texts are parts of the source, which is kept until the last of them is dropped; one that is
    /// borrowed is copied first. It keeps line endings and an open end if this document does.
    ///
    /// # Errors
    ///
    /// Returns an `AllocError` if out of memory, and then drops the document.
    pub fn into_mut(self, alloc: Global) -> Mem<DocumentMut>
        ensures owned { IfOk result
            (λ m. tree_owned m ≡ owned_tree (source self) (tree_read self)) }
        ensures kept { IfOk result
            (λ m. (mode_owned m ≡ mode_read self) × (open_owned m ≡ open_read self)) }
        // The tree of an accepted text stays its tree, fits and is steady. It prints as the normal
        // form, which is accepted, means what the text means, and prints as itself. A version of
        // TOML that accepts the text accepts the print. The tree fits and is steady in each mode;
        // the rest is of the mode of reading.
        ensures normal { IfOk result (λ m. (d : Cut) → AcceptedAs (source self) d
            → IsTreeOf (spanned_in (mode_read self)) d (tree_read self)
            → IsOwnedTreeWith (mode_read self) (source self) d (tree_owned m)) }
    {
        let Document {
            raw,
            root,
            mut trailing,
            mode,
            open_end,
        } = self;
        let mut table = table_of(root);
        let source = raw.into_shared(alloc)?;
        table.despan(alloc, &source)?;
        trailing.despan(alloc, &source)?;
        Ok(DocumentMut {
            root: Item::Table(table),
            trailing,
            mode,
            open_end,
        })
    }
}

impl Document<&'static str> {
    ghost use Rattle.std.specs.Prelude.{◌≡◌, []};
    ghost use Rattle.toml_edit.specs.DocumentView.{IsPlainRead, source, tree_read};
    ghost use Rattle.toml_edit.specs.Documents.{new_tree};

    /// Returns the document of an empty text. Its root has no slots and the position 0.
    pub fn new(alloc: Global) -> Document<&'static str>
        ensures source { source result ≡ [] }
        ensures tree { tree_read result ≡ new_tree }
        ensures plain { IsPlainRead result }
    {
        let mut root = Table::new(alloc);
        root.set_position(Some(0));
        Document {
            raw: "",
            root: Item::Table(root),
            trailing: RawString::default(),
            mode: Mode::Plain,
            open_end: false,
        }
    }
}

impl Document<String> {
    ghost use Rattle.std.specs.Prelude.{◌≡◌, ◌⊎◌, IfOk, IfErr, IsOk, IsErrOf};
    ghost use Rattle.toml_edit_model.specs.Syntax.{Document as Cut};
    ghost use Rattle.toml_edit_model.specs.Accepted.{AcceptedAs};
    ghost use Rattle.toml_edit_error.specs.Fault.{IfToml};
    ghost use Rattle.toml_edit.specs.DocumentView.{IsPlainRead, source, tree_read};
    ghost use Rattle.toml_edit.specs.Documents.{IsReading, IsRefusal};

    /// Parses a copy of the text, which the document holds.
    ///
    /// # Errors
    ///
    /// As [`parse`](Self::parse).
    pub fn from_str(alloc: Global, text: &str) -> Result<Document<String>, ParseFault>
        ensures accepted { IfOk result (λ x. IsReading text.now (tree_read x)) }
        ensures source { IfOk result (λ x. source x ≡ text.now) }
        ensures plain { IfOk result (λ x. IsPlainRead x) }
        // An accepted text is never refused.
        ensures every { (d : Cut) → AcceptedAs text.now d
            → IsOk result ⊎ IsErrOf result ParseFault.Memory }
        ensures refused { IfErr result (λ e. IfToml e (IsRefusal text.now)) }
    {
        let raw = String::from_str(alloc, text)?;
        Document::parse(alloc, raw)
    }
}

/// A document that owns its texts, and can be changed and printed.
///
/// # Examples
///
/// ```rust,ignore
/// let mut document = DocumentMut::from_str(rt.alloc(), text.as_str())?;
/// set_version(rt.alloc(), &mut document, "0.4.0")?;
/// print!(rt; "{document}")?;
/// ```
///
/// From `main` of the crate `example`.
#[derive(Debug)]
pub struct DocumentMut {
    root: Item,
    pub(crate) trailing: RawString,
    pub(crate) mode: Mode,
    pub(crate) open_end: bool,
    ghost rooted: { is_table root ≡ true },
}

impl Drop for DocumentMut {
    fn drop(self) {
        let DocumentMut {
            root,
            trailing,
            mode: _,
            open_end: _,
        } = self;
        drop(root);
        drop(trailing);
    }
}

impl DocumentMut {
    ghost use Rattle.std.specs.Prelude.{◌≡◌, ◌↔◌, ◌⊎◌, [], if◌then◌else◌, IfOk, IfErr, IsNone, IsOk, IsErrOf, IsTrue, option_map, slice_get, string_bytes};
    ghost use Rattle.toml_edit_model.specs.Fits.{FitsIn};
    ghost use Rattle.toml_edit_fits.specs.Misfits.{misfits};
    ghost use Rattle.toml_edit_fits.specs.MisfitViews.{misfit_view};
    ghost use Rattle.toml_edit_model.specs.Tree.{SlotsAreWellMade};
    ghost use Rattle.toml_edit_model.specs.Mode as model;
    ghost use Rattle.toml_edit_model.specs.Version.{v1_1};
    ghost use Rattle.toml_edit_model.specs.Syntax.{Document as Cut};
    ghost use Rattle.toml_edit_model.specs.Accepted.{AcceptedAs, AcceptedIn};
    ghost use Rattle.std.specs.Borrow.{sem};
    ghost use Rattle.toml_edit_error.specs.Fault.{IfToml};
    ghost use Rattle.toml_edit.specs.DocumentLending.{LendsRoot};
    ghost use Rattle.toml_edit.specs.DocumentView.{IsPlain, IsPrintedAs, mode_owned, open_owned, print_of, tree_owned};
    ghost use Rattle.toml_edit.specs.Edited.{IsEditedFrom};
    ghost use Rattle.toml_edit.specs.Documents.{IsOwnedReadingIn, IsRefusal, IsRefusalIn, MeansWhatIsShown, new_tree};
    ghost use Rattle.toml_edit_parser.specs.Options.{mode_of, version_of};
    ghost use Rattle.toml_edit_edit_laws.specs.Commands.{root_item};
    ghost use Rattle.toml_edit_tree.specs.Held.{held_left};
    ghost use Rattle.toml_edit_model.specs.Iterating.{filled_pairs};
    ghost use Rattle.toml_edit_model.specs.Lists.{slot_list};
    ghost use Rattle.toml_edit_tree.specs.View.{item_view, table_slots, fields_view};

    /// Returns an empty document. Its root has no slots and the position 0.
    pub fn new(alloc: Global) -> DocumentMut
        ensures tree { tree_owned result ≡ new_tree }
        ensures plain { IsPlain result }
    {
        let mut root = Table::new(alloc);
        root.set_position(Some(0));
        DocumentMut::from(root)
    }

    /// Parses a text as TOML 1.1 into a document that owns its texts. Line endings are not kept.
    ///
    /// For TOML 1.0, or to keep line endings, use [`from_str_with`](Self::from_str_with). For
    /// spans, use [`Document::parse`].
    ///
    /// # Errors
    ///
    /// Returns [`ParseFault::Toml`] if the text is refused, as [`Document::parse`] says, and
    /// [`ParseFault::Memory`] if out of memory.
    ///
    /// # Examples
    ///
    /// ```rust,ignore
    /// match DocumentMut::from_str(alloc, text) {
    ///     Ok(_document) => Ok(String::new(alloc)),
    ///     Err(ParseFault::Toml(error)) => error.to_string(alloc),
    ///     Err(ParseFault::Memory) => Err(AllocError),
    /// }
    /// ```
    ///
    /// From `report` of the crate `example_calls`.
    pub fn from_str(alloc: Global, text: &str) -> Result<DocumentMut, ParseFault>
        ensures accepted { IfOk result
            (λ m. IsOwnedReadingIn model.plain v1_1 text.now (tree_owned m) (open_owned m)) }
        ensures plain { IfOk result (λ m. IsPlain m) }
        ensures edits { IfOk result (λ m. IsEditedFrom text.now (tree_owned m) [] m) }
        // An accepted text is never refused.
        ensures every { (d : Cut) → AcceptedAs text.now d
            → IsOk result ⊎ IsErrOf result ParseFault.Memory }
        ensures refused { IfErr result (λ e. IfToml e (IsRefusal text.now)) }
    {
        others_stay();
        DocumentMut::from_str_with(alloc, text, ParseOptions::new())
    }

    /// Parses a text by the options into a document that owns its texts.
    ///
    /// # Errors
    ///
    /// As [`Document::parse_with`].
    ///
    /// # Examples
    ///
    /// ```rust,ignore
    /// DocumentMut::from_str_with(alloc, text, ParseOptions::new().version(Version::V1_0))
    /// ```
    ///
    /// From `read_strictly` of the crate `example_calls`.
    pub fn from_str_with(
        alloc: Global,
        text: &str,
        options: ParseOptions,
    ) -> Result<DocumentMut, ParseFault>
        ensures accepted { IfOk result
            (λ m. IsOwnedReadingIn (mode_of options) (version_of options) text.now (tree_owned m)
            (open_owned m)) }
        ensures mode { IfOk result (λ m. mode_owned m ≡ mode_of options) }
        // A text that the version accepts is never refused.
        ensures every { (d : Cut) → AcceptedIn (version_of options) text.now d
            → IsOk result ⊎ IsErrOf result ParseFault.Memory }
        ensures refused { IfErr result (λ e. IfToml e (IsRefusalIn (version_of options) text.now)) }
    {
        let document = Document::parse_with(alloc, text, options)?;
        let owned = document.into_mut(alloc)?;
        Ok(owned)
    }

    /// Returns the root table, as an item.
    pub fn as_item(&self) -> &Item
        ensures { item_view result.now ≡ root_item (tree_owned self.now) }
    {
        &self.root
    }

    /// Returns the root table.
    pub fn as_table(&self) -> &Table
        ensures fields { fields_view result.now ≡ (tree_owned self.now).root }
        ensures slots { table_slots result.now ≡ (tree_owned self.now).slots }
    {
        match &self.root {
            Item::Table(table) => table,
            _ => unreachable!(),
        }
    }

    /// Returns a mutable reference to the root table.
    ///
    /// The trailing text and how the document is printed stay, whatever is written.
    pub fn as_table_mut(&mut self) -> &mut Table
        ensures* writes_back { sem 𝓛 (LendsRoot self.entry result) }
        ensures fields { fields_view result.now ≡ (tree_owned self.old).root }
        ensures slots { table_slots result.now ≡ (tree_owned self.old).slots }
    {
        match &mut self.root {
            Item::Table(table) => table,
            _ => unreachable!(),
        }
    }

    /// Returns the root table as an item, and drops the trailing text.
    pub fn into_item(self) -> Item
        ensures { item_view result ≡ root_item (tree_owned self) }
    {
        let DocumentMut {
            root,
            trailing,
            mode: _,
            open_end: _,
        } = self;
        drop(trailing);
        root
    }

    /// Returns the root table, and drops the trailing text.
    pub fn into_table(self) -> Table
        ensures fields { fields_view result ≡ (tree_owned self).root }
        ensures slots { table_slots result ≡ (tree_owned self).slots }
    {
        let DocumentMut {
            root,
            trailing,
            mode: _,
            open_end: _,
        } = self;
        drop(trailing);
        table_of(root)
    }

    /// Returns an iterator over the names of the root's keys and their items, in order.
    ///
    /// Placeholders are skipped.
    pub fn iter(&self) -> Iter<'_>
        ensures { held_left result ≡ filled_pairs (slot_list (tree_owned self.now).slots) }
    {
        self.as_table().iter()
    }

    /// Returns the whitespace and the comments after the last statement.
    ///
    /// A comment after the last value, on its line, is not among them: it is in the decor of the
    /// value.
    pub fn trailing(&self) -> &RawString
        ensures { result.now ≡ (tree_owned self.now).trailing }
    {
        &self.trailing
    }

    /// Sets the whitespace and the comments after the last statement.
    ///
    /// With any other text the document no longer [`fits`](Self::fits).
    pub fn set_trailing(&mut self, trailing: RawString)
        ensures tree { tree_owned self.new ≡ record (tree_owned self.old) { trailing = trailing } }
        ensures printed { IsPrintedAs self.new self.old }
    {
        self.trailing = trailing;
    }

    /// Returns `true` if line endings are kept: decors and the trailing text print with their
    /// carriage returns (CR).
    pub fn is_exact(&self) -> bool
        ensures { result ≡ model.is_exact (mode_owned self.now) }
    {
        self.mode.is_exact()
    }

    /// Sets whether line endings are kept from now on.
    ///
    /// The texts that the document holds stay, and so does [`open_end`](Self::open_end). What was
    /// parsed without [`ParseOptions::exact`] has lost the CR of each statement's newline.
    pub fn set_exact(&mut self, exact: bool)
        ensures mode { mode_owned self.new ≡ (if exact then model.exact else model.plain) }
        ensures open_end { open_owned self.new ≡ open_owned self.old }
        ensures tree { tree_owned self.new ≡ tree_owned self.old }
    {
        self.mode = if exact { Mode::Exact } else { Mode::Plain };
    }

    /// Returns `true` if the end is open: the last statement is printed without its newline.
    ///
    /// It has an effect only where line endings are kept ([`is_exact`](Self::is_exact)) and nothing
    /// is printed after the last statement.
    pub fn open_end(&self) -> bool
        ensures { result ≡ open_owned self.now }
    {
        self.open_end
    }

    /// Sets whether the end is open. See [`open_end`](Self::open_end).
    ///
    /// The texts that the document holds stay, and so does [`is_exact`](Self::is_exact).
    pub fn set_open_end(&mut self, open_end: bool)
        ensures open_end { open_owned self.new ≡ open_end }
        ensures mode { mode_owned self.new ≡ mode_owned self.old }
        ensures tree { tree_owned self.new ≡ tree_owned self.old }
    {
        self.open_end = open_end;
    }

    /// Returns an equal copy, which prints as this document does.
    ///
    /// # Errors
    ///
    /// Returns an `AllocError` if out of memory.
    pub fn clone(&self, alloc: Global) -> Mem<DocumentMut>
        ensures tree { IfOk result (λ copy. tree_owned copy ≡ tree_owned self.now) }
        ensures printed { IfOk result (λ copy. IsPrintedAs copy self.now) }
    {
        let root = self.as_table().clone(alloc)?;
        let trailing = self.trailing.clone(alloc)?;
        Ok(DocumentMut {
            root: Item::Table(root),
            trailing,
            mode: self.mode,
            open_end: self.open_end,
        })
    }

    /// Returns `true` if the document prints as valid TOML that means what its tree shows.
    ///
    /// Documents that were parsed fit. An edit can break that:
    ///
    /// - by a decor that does not suit its place: it holds `x`, say, or a comment above a key with
    ///   no newline after it, or, where line endings are kept, a CR that no line feed (LF) follows;
    /// - by a root or an element of an array of tables that is dotted;
    /// - by positions that mix the headers of two elements of one array of tables;
    /// - by a path of more than 80 keys, or a value with more than 80 brackets open at once.
    ///
    /// (TOML, "Key/Value Pair" to "Array of Tables".)
    ///
    /// # Errors
    ///
    /// None: it takes no memory, and the allocator is unused.
    ///
    /// # Examples
    ///
    /// ```rust,ignore
    /// if document.fits(alloc)? {
    ///     Ok(Some(document.print(alloc)?))
    /// } else {
    ///     Ok(None)
    /// }
    /// ```
    ///
    /// From `print_if_fits` of the crate `example_calls`.
    pub fn fits(&self, _alloc: Global) -> Mem<bool>
        ensures fits { IfOk result
            (λ fits. IsTrue fits ↔ FitsIn (mode_owned self.now) (tree_owned self.now)) }
        // The print is accepted then, and means what the tree shows.
        ensures reparse { IfOk result (λ fits. IsTrue fits
            → ∥ MeansWhatIsShown (mode_owned self.now) (open_owned self.now)
            (tree_owned self.now) ∥₁) }
        // The tree is well made, as its types ensure.
        ensures made { ∥ SlotsAreWellMade (tree_owned self.now).slots ∥₁ }
        ensures free { IsOk result }
    {
        Ok(tree_fits(self.mode, self.as_table(), &self.trailing))
    }

    /// Returns the first place where the document doesn't fit, or `None` if it [fits](Self::fits).
    ///
    /// What a table or a value has of its own comes before what is below it, and the lines of a
    /// table come before the tables below it. Headers that are printed too early come last, in the
    /// order of the tree. Of two rules that one place breaks, `Dotted` is named first, and too long
    /// a path before a decor. Takes memory only for the path of the place.
    ///
    /// # Errors
    ///
    /// Returns an `AllocError` if out of memory.
    pub fn first_misfit(&self, alloc: Global) -> Mem<Option<Misfit>>
        ensures fits { IfOk result
            (λ misfit. IsNone misfit ↔ FitsIn (mode_owned self.now) (tree_owned self.now)) }
        ensures first { IfOk result
            (λ misfit. option_map misfit_view misfit
            ≡ slice_get (misfits (mode_owned self.now) (tree_owned self.now)) 0) }
    {
        first_misfit(alloc, self.mode, self.as_table(), &self.trailing)
    }
}

/// Returns a document with this root and no trailing text. Line endings are not kept.
impl From<Table> for DocumentMut {
    ghost use Rattle.std.specs.Prelude.{◌≡◌, []};
    ghost use Rattle.toml_edit_model.specs.Tree.{owned};
    ghost use Rattle.toml_edit.specs.DocumentView.{IsPlain, tree_owned};
    ghost use Rattle.toml_edit_tree.specs.View.{tree_view};

    ghost from_gives = { λ root document. (tree_owned document ≡ tree_view root (owned []))
        × IsPlain document };

    fn from(root: Table) -> DocumentMut {
        DocumentMut {
            root: Item::Table(root),
            trailing: RawString::default(),
            mode: Mode::Plain,
            open_end: false,
        }
    }
}
