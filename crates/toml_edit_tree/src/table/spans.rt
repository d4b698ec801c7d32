//! Tables of a parsed text, with their spans.
ghost use Rattle.std.specs.Prelude.{◌≡◌, OnOk};
ghost use Rattle.toml_edit_model.specs.OwnedForm.{DecorFits, SlotsFit, owned_fields, owned_slots};
ghost use Rattle.toml_edit_model.specs.Tree.{SlotsAreWellMade};
ghost use Rattle.toml_edit_model.specs.TreeOf.{root_fields, spanned_form};
ghost use Rattle.toml_edit_tree.specs.Containers.{headed, implied, range_in};
ghost use Rattle.toml_edit_tree.specs.View.{fields_view, slots_view, table_slots, table_view};

use crate::despan::despan_table;
use crate::item::Item;
use crate::table::Table;
use std::alloc::Global;
use std::ops::Range;
use toml_edit_repr::{Decor, Mem};
use toml_edit_slots::Slots;
use toml_edit_text::SharedText;

impl Table {
    /// Makes the root of a parsed document of these slots.
    #[doc(hidden)]
    pub fn root(slots: Slots<Item>) -> Table
        ensures fields { fields_view result ≡ root_fields spanned_form }
        ensures slots { table_slots result ≡ slots_view slots }
    {
        Table {
            slots,
            decor: Decor::default(),
            implicit: false,
            dotted: false,
            position: None,
            span: Some((0, 0)),
        }
    }

    /// Makes the table that a path implies: below a dotted key, or below a key of a header before
    /// the last. The key spans the bytes from `start` to `end` of the source.
    #[doc(hidden)]
    pub fn new_implied(slots: Slots<Item>, dotted: bool, start: usize, end: usize) -> Table
        ensures { table_view result
            ≡ record { fields = implied dotted start end; slots = slots_view slots } }
    {
        Table {
            slots,
            decor: Decor::default(),
            implicit: true,
            dotted,
            position: None,
            span: Some((start, end)),
        }
    }

    /// Makes the table of a header, whose brackets span the bytes from `start` to `end` of the
    /// source. `position` counts headers.
    #[doc(hidden)]
    pub fn headed(
        slots: Slots<Item>,
        decor: Decor,
        position: isize,
        start: usize,
        end: usize,
    ) -> Table
        ensures { table_view result
            ≡ record { fields = headed decor position start end; slots = slots_view slots } }
    {
        Table {
            slots,
            decor,
            implicit: false,
            dotted: false,
            position: Some(position),
            span: Some((start, end)),
        }
    }

    /// Returns the byte range of the header in the source, both brackets included.
    ///
    /// A table that has no header of its own spans the key that implied it, and the root has an
    /// empty range. It is `None` for a table that was made, and in a `DocumentMut`: read it before
    /// `into_mut`.
    pub fn span(&self) -> Option<Range<usize>>
        ensures { result ≡ range_in (fields_view self.now).extent }
    {
        let (start, end) = self.span?;
        Some(start..end)
    }

    /// Replaces each span of `source` by the text there.
    ///
    /// # Errors
    ///
    /// Returns an `AllocError` if out of memory. Some spans may be left then, so the document has
    /// to be dropped.
    #[doc(hidden)]
    pub fn despan(&mut self, alloc: Global, source: &SharedText) -> Mem<()>
        requires decor { DecorFits source.now (fields_view self.old).decor }
        requires slots { SlotsFit source.now (table_slots self.old) }
        requires spelled { ∥ SlotsAreWellMade (owned_slots source.now (table_slots self.old)) ∥₁ }
        ensures fields { OnOk result
            (fields_view self.new ≡ owned_fields source.now (fields_view self.old)) }
        ensures slots { OnOk result
            (table_slots self.new ≡ owned_slots source.now (table_slots self.old)) }
    {
        despan_table(self, alloc, source)
    }
}
