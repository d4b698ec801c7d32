//! The tree of a text between two of its statements.
ghost use Rattle.std.specs.Prelude.{◌≡◌, ◌∷◌, [], ℕ, Bool, is_some};
ghost use Rattle.toml_edit_model.specs.Text.{Text};
ghost use Rattle.toml_edit_model.specs.TreeOf.{span_of};
ghost use Rattle.toml_edit_laws.specs.Building.{Builder, first_builder};
ghost use Rattle.toml_edit_laws.specs.PlaceOrder.{slots_by_place};
ghost use Rattle.toml_edit_syntax.specs.ValueEvents.{event};
ghost use Rattle.toml_edit_syntax.specs.declared.event.EventKind.TheVariants.{Final};
ghost use Rattle.toml_edit_tree.specs.View.{slots_view};
ghost use Rattle.toml_edit_parser.specs.ValueRead.{AreIn, split_leading};
ghost use Rattle.toml_edit_parser.specs.StatementRead.{IsHeld};

use crate::document::block::swap_block;
use crate::events::raw;
use crate::reader::Reader;
use std::alloc::Global;
use std::borrow::CowStr;
use toml_edit_repr::RawString;
use toml_edit_slots::Slots;
use toml_edit_syntax::{Event, EventKind};
use toml_edit_tree::Item;

/// The tree between two statements: the slots of the root, without those of the table that key
/// lines are added to, which are held apart, with the names of that table's path and the number of
/// headers.
///
/// So a key line costs nothing for the path of its table. The item is the one that is being read,
/// and is unspecified between statements. The text ahead is the one after the batch of events that
/// is being read.
#[derive(Drop)]
pub(crate) struct Building<'s> {
    pub(crate) root: Slots<Item>,
    pub(crate) current: Slots<Item>,
    pub(crate) block: Vec<CowStr<'s>>,
    pub(crate) headers: usize,
    pub(crate) item: Item,
    pub(crate) ahead: &'s str,
}

impl<'s> Building<'s> {
    /// Makes a tree without statements, with room for so many slots of the root, if there is the
    /// memory.
    pub(crate) fn new(alloc: Global, room: usize) -> Building<'s>
        ensures { (m : Bool) → IsHeld (first_builder m) result }
    {
        Building {
            root: Slots::new(alloc),
            current: Slots::with_room(alloc, room),
            block: Vec::new(alloc),
            headers: 0,
            item: Item::None,
            ahead: "",
        }
    }
}

/// Returns `true` if a statement comes first.
pub(crate) fn starts_statement(events: &[Event]) -> bool
    ensures { result ≡ is_some (split_leading events.now) }
{
    match events.first() {
        Some(first) => matches!(first.kind, EventKind::Leading),
        None => false,
    }
}

/// Returns the slots of the root, which are still to be put in order.
pub(crate) fn whole(building: Building<'_>) -> Slots<Item>
    ensures { (b : Builder) → IsHeld b building.entry → slots_by_place
        (slots_view result) ≡ b.slots }
{
    let Building {
        mut root,
        mut current,
        block,
        item,
        ..
    } = building;
    swap_block(block.as_slice(), &mut current, &mut root);
    drop(item);
    root
}

/// Returns the text after the last statement, which alone is left.
pub(crate) fn trailing(reader: &Reader<'_>, events: &[Event]) -> RawString
    requires { AreIn reader.now.source.now events.now }
    ensures { (start : ℕ) (t : Text) → events.now ≡ event Final start t ∷ []
        → result ≡ span_of start t }
{
    match events.first() {
        Some(last) => raw(last.span),
        None => RawString::default(),
    }
}
