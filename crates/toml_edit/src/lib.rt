//! Read, change and write TOML documents, and keep the comments, the spacing and the spelling of
//! what is not changed.
//!
//! [`DocumentMut::from_str`] parses a text (TOML 1.1.0; 1.0 by [`ParseOptions`]) into a tree of
//! [`Table`], [`Array`] and [`Value`]. The tree can be changed, and [`DocumentMut::print`] or
//! `Display` writes it. This is a port of the Rust crate `toml_edit` 0.25.18; docs/MIGRATING.md
//! lists what differs, and docs/GUIDE.md shows common tasks.
//!
//! ```rust,ignore
//! let path = Key::parse(alloc, "package.version")?;
//! if document.get_at(&path).is_none() {
//!     bail!("package.version is missing");
//! }
//! document.set_at(&path, Value::string(alloc, version)?)?;
//! ```
//!
//! From `set_version` of the crate `example`, which the README quotes.
//!
//! # Conventions
//!
//! What holds of every call unless its comment says otherwise.
//!
//! - **Memory.** A call that needs memory for a new value takes an allocator, first after `self`. A
//!   container keeps the allocator that it was made with; its calls that take none, such as
//!   `insert`, `push` and `sort_by`, use that one. A call that can run out of memory returns
//!   [`Mem<T>`](Mem), whose error is `AllocError`, or a `Result` whose error
//!   [`NoMemory<T>`](NoMemory) gives back what found no memory. Those that can fail in other ways
//!   too have the errors [`ParseFault`], [`IndexFault`], [`ChangeFault`], [`CommentFault`] and
//!   [`PrintFault`].
//! - **Failure.** A call that fails leaves its receiver unchanged, with these exceptions. `extend`
//!   keeps a beginning of what it adds. `sort_values` and `sort_values_by` of a [`Table`] or an
//!   [`InlineTable`] may leave some tables sorted and others not, but lose nothing. `print_to` may
//!   have written a beginning. A call that takes its receiver by value gives it back in the error,
//!   as [`Item::into_value`] does, or drops it, as [`Document::into_mut`] does. No call panics:
//!   what must hold of an argument, such as an index in range, is a `requires` clause.
//! - **Spans.** A *span* is a range of bytes of the source. Keys, scalars, decors, arrays and
//!   tables of a [`Document`] have one where they were read. [`Document::into_mut`] replaces spans
//!   by texts, so nothing of the [`DocumentMut`] that it gives has a span. A long text is a part of
//!   the source, which is kept until the last such text is dropped ([`Item::detach`]).
//! - **Decor.** The whitespace and the comments before and after a key, a value or a header are its
//!   *decor* ([`Decor`]). A comment above a key belongs to the key, one after a value to the value;
//!   in an array, one after a comma belongs to the next value. A side that is unset prints as the
//!   default for its place, such as one space beside `=`; an empty one prints as nothing. A key has
//!   two decors: the *leaf* decor where it ends a path, and the *dotted* decor beside dots.
//! - **Spelling.** The *representation* ([`Repr`]) or spelling of a key or a scalar is how it is
//!   written, as `0xFF` for 255. What was parsed keeps its own; what is made prints in the default
//!   one. `fmt` of a [`Key`] or a [`Formatted`] resets it.
//! - **Slots.** A table has *slots* in order, each a key with an item. A slot whose item is
//!   [`Item::None`] is a *placeholder*: it keeps its place and is not printed. `iter` and `get`
//!   skip placeholders, `slots` counts them.
//! - **Headers.** A table is *implicit* if it came about by the header of a table inside it
//!   (`[a.b]` makes `a`); its own header is printed only if it has lines. A table is *dotted* if it
//!   came about by a dotted key (`a.b = 1`); its lines are printed in the table around it. The
//!   *position* of a table orders its header among all headers; without one it comes after the
//!   table before it in the tree.
//! - **Versions and modes.** A text is read as TOML 1.1 or 1.0 ([`Version`]). A document keeps line
//!   endings (the *exact* mode), or it prints line feeds (LF) alone (the *plain* mode, the
//!   default).
//! - **Printing.** `Display` and [`DocumentMut::print`] write what the tree holds, whatever was
//!   done to it. A document that was parsed prints in its *normal form*: no byte order mark, no
//!   carriage return (CR) outside strings, a newline after every statement, the lines of a dotted
//!   key together, and one spelling for each key. That is valid TOML and means what the text meant;
//!   a text in normal form comes back byte for byte. [`ParseOptions::exact`] and
//!   [`DocumentMut::set_exact`] keep line endings.
//! - **Fits.** A document *fits* if its print is valid TOML that means what the tree shows.
//!   Parsed documents fit. An edit can break that, by a decor that is neither whitespace nor a
//!   comment, say; [`DocumentMut::fits`] checks it, and [`DocumentMut::first_misfit`] says where it
//!   is broken.
#![tactic(auto)]

pub mod document;
mod encode;
mod headers;
mod item;
mod last_line;
pub mod laws;
mod open_end;
mod promise;
mod root;
mod tail;
pub mod visit;

pub use document::{Document, DocumentMut, PrintFault, SourceText};
pub use item::value;
pub use promise::headline;
pub use toml_edit_datetime::{Date, Datetime, DatetimeFault, FloatText, Offset, Time};
pub use toml_edit_error::{Excerpt, ParseFault, TomlError, line_column};
pub use toml_edit_fits::{FitRule, Misfit};
pub use toml_edit_io::{Broken, Input, Output, Printed, Sink, Watched, print_to};
pub use toml_edit_key::{Key, KeyMut};
pub use toml_edit_parser::{FromStr, FromStrWith, ParseOptions, ParsePath, Version};
pub use toml_edit_paths::ChangeFault;
pub use toml_edit_repr::{
    CommentFault, Comments, Decor, Formatted, Mem, RawString, Repr, ScalarValue, ValueRepr,
};
pub use toml_edit_slots::{NoMemory, Refused, Renamed, Slot, Slots};
pub use toml_edit_table_like::{
    AnyTable, AsTableLike, HasSlots, TableLike, TableLikeEntry, TableLikeSlot, TableRef,
    TableRefMut,
};
pub use toml_edit_tree::item::{array, table};
pub use toml_edit_tree::{
    Array, ArrayIntoIter, ArrayIter, ArrayOfTables, ArrayOfTablesIntoIter, ArrayOfTablesIter,
    Entry, Index, IndexFault, InlineEntry, InlineOccupiedEntry, InlineSlotMut, InlineTable,
    InlineTableIntoIter, InlineTableIter, InlineVacantEntry, IntoIter, Item, Iter, OccupiedEntry,
    Table, VacantEntry, Value,
};
