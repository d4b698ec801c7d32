//! Inline tables of a parsed text, with their spans.
ghost use Rattle.std.specs.Prelude.{◌≡◌, Some};
ghost use Rattle.toml_edit_laws.specs.InlineTree.{path_fields};
ghost use Rattle.toml_edit_tree.specs.Containers.{range_in, spanned_inline};
ghost use Rattle.toml_edit_tree.specs.View.{inline_view, slots_view};

use crate::inline_table::InlineTable;
use crate::item::Item;
use std::ops::Range;
use toml_edit_repr::{Decor, RawString};
use toml_edit_slots::Slots;

impl InlineTable {
    /// Makes an inline table of these slots that spans the bytes from `start` to `end` of the
    /// source, with what is after the last pair.
    #[doc(hidden)]
    pub fn spanned(
        items: Slots<Item>,
        trailing_comma: bool,
        trailing: RawString,
        start: usize,
        end: usize,
    ) -> InlineTable
        ensures { inline_view result
            ≡ spanned_inline trailing_comma trailing start end (slots_view items) }
    {
        InlineTable {
            items,
            decor: Decor::default(),
            dotted: false,
            trailing,
            trailing_comma,
            is_read: true,
            span: (start, end),
        }
    }

    /// Makes the dotted inline table that a key implies, which spans the bytes from `start` to
    /// `end` of the source.
    #[doc(hidden)]
    pub fn below_key(items: Slots<Item>, start: usize, end: usize) -> InlineTable
        ensures { inline_view result
            ≡ record { fields = path_fields (Some (start, end)); slots = slots_view items } }
    {
        InlineTable {
            items,
            decor: Decor::default(),
            dotted: true,
            trailing: RawString::default(),
            trailing_comma: false,
            is_read: true,
            span: (start, end),
        }
    }

    /// Returns the byte range of the inline table in the source, both braces included.
    ///
    /// A dotted one spans its key. It is `None` for an inline table that was made, and in a
    /// `DocumentMut`: read it before `into_mut`.
    pub fn span(&self) -> Option<Range<usize>>
        ensures { result ≡ range_in (inline_view self.now).fields.extent }
    {
        if !self.is_read {
            return None;
        }
        let (start, end) = self.span;
        Some(start..end)
    }
}
