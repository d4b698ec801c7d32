//! Adding slots at the end of a table.
ghost use Rattle.std.specs.Prelude.{◌≡◌, None, OnOk};
ghost use Rattle.toml_edit_model.specs.OwnedForm.{KeyFits, NodeFits, SlotsFit};
ghost use Rattle.toml_edit_laws.specs.FlatTree.{with_slot};
ghost use Rattle.toml_edit_slots.specs.Slots.{place};
ghost use Rattle.toml_edit_syntax.specs.Events.{IsSpanOf};
ghost use Rattle.toml_edit_tree.specs.View.{item_view, slots_view};
ghost use Rattle.toml_edit_parser.specs.PairRead.{AddsLast};
ghost use Rattle.toml_edit_parser.specs.Listed.{Refuses};

use crate::fault::{Fault, refusal};
use crate::reader::Reader;
use std::alloc::AllocError;
use toml_edit_error::ParseFault;
use toml_edit_key::Key;
use toml_edit_repr::Mem;
use toml_edit_slots::Slots;
use toml_edit_syntax::Span;
use toml_edit_tree::Item;

/// Adds a slot at the end, and leaves a placeholder in the place of its item.
///
/// Fails with `duplicate key` at the span if the key exists, and if out of memory. The slots are
/// unchanged then.
#[inline(always)]
pub(crate) fn add_last(
    reader: &Reader<'_>,
    key: Key,
    span: Span,
    item: &mut Item,
    slots: &mut Slots<Item>,
) -> Result<(), ParseFault>
    requires span { IsSpanOf reader.now.source.now span }
    ensures last { AddsLast reader.now.source.now span key (item_view item.old)
        (slots_view slots.old) (slots_view slots.new) result }
    ensures fits { KeyFits reader.now.source.now key
        → NodeFits reader.now.source.now (item_view item.old)
        → SlotsFit reader.now.source.now (slots_view slots.old)
        → OnOk result (SlotsFit reader.now.source.now (slots_view slots.new)) }
    ensures refused { Refuses reader.now.source.now result }
{
    let added = slots.add(key, item);
    match added {
        Ok(()) => Ok(()),
        Err(there) => match there {
            Some(_) => Err(refusal(reader, Fault::DuplicateKey, span)),
            None => Err(ParseFault::from(AllocError)),
        },
    }
}

/// Adds a slot with a new key at the end, and leaves a placeholder in the place of its item. If out
/// of memory, the slots are unchanged, and the key is dropped.
#[inline(always)]
pub(crate) fn push_item(slots: &mut Slots<Item>, key: Key, item: &mut Item) -> Mem<()>
    requires { place key.name slots.old ≡ None }
    ensures { OnOk result
        (slots_view slots.new ≡ with_slot (slots_view slots.old) key (item_view item.old)) }
{
    match slots.add(key, item) {
        Ok(()) => Ok(()),
        Err(_) => Err(AllocError),
    }
}
