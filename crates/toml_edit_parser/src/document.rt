//! From a text to its tree.
ghost use Rattle.std.specs.Prelude.{◌≡◌, ◌⊎◌, ◌+◌, ◌∷◌, ◌++◌, [], List, ℕ, length, map, IfOk, IfErr, IsOk, IsErrOf};
ghost use Rattle.toml_edit_model.specs.Accepted.{AcceptedIn};
ghost use Rattle.toml_edit_model.specs.Normal.{has_open_end};
ghost use Rattle.toml_edit_model.specs.Syntax.{Document, Statement, statement_text};
ghost use Rattle.toml_edit_model.specs.Text.{joined};
ghost use Rattle.toml_edit_error.specs.Fault.{IfToml};
ghost use Rattle.toml_edit_syntax.specs.Events.{events_from};
ghost use Rattle.toml_edit_syntax.specs.Grammar.{grammar};
ghost use Rattle.toml_edit_tree.specs.View.{slots_view};
ghost use Rattle.toml_edit_repr.specs.Modes.{mode_of};
ghost use Rattle.toml_edit_parser.specs.DocumentRead.{IsParsedWith, IsRefusalIn};

mod batch;
mod block;
mod building;
mod last_key;
mod parts;
mod path;
mod room;
mod statement;

use crate::document::batch::{next_batch, refused_in, text_ahead};
use crate::document::building::{Building, starts_statement, trailing, whole};
use crate::document::room::room_for_root;
use crate::document::statement::read_in_version;
use crate::fault::refusal_of_all;
use crate::reader::{Reader, is_short};
use std::alloc::Global;
use toml_edit_error::ParseFault;
use toml_edit_repr::{Mode, RawString};
use toml_edit_slots::Slots;
use toml_edit_syntax::{BatchEnd, Event, Version, statements_of};
use toml_edit_tree::{Item, put_in_order};

/// Returns `true` if the last statement has no newline: the text after the statements begins right
/// where the last statement's own text ends.
fn ends_open(events: &[Event]) -> bool
    ensures { (start : ℕ) (ss : List Statement) (final : Event)
        → events.now ≡ events_from start ss ++ final ∷ []
        → final.span.start ≡ start + length (joined (map statement_text ss))
        → result ≡ has_open_end ss }
{
    match events {
        [.., line_end, last] => line_end.span.end == last.span.start,
        // A text without statements has one event.
        _ => false,
    }
}

/// Parses a text in this version of the grammar, with its line endings in this mode.
///
/// Returns the slots of the root, whose keys and values are spans of the text, the text after the
/// last statement, and whether that statement has no newline. Fails if the text is refused, or if
/// out of memory.
#[doc(hidden)]
pub fn parse_with(
    alloc: Global,
    source: &str,
    version: Version,
    mode: Mode,
) -> Result<(Slots<Item>, RawString, bool), ParseFault>
    ensures parsed { IfOk result
        (λ r. IsParsedWith (mode_of mode) (grammar version) source.now (slots_view r.0) r.1 r.2) }
    // A text that the version accepts is never refused.
    ensures every { (d : Document) → AcceptedIn (grammar version) source.now d
        → IsOk result ⊎ IsErrOf result ParseFault.Memory }
    ensures refused { IfErr result (λ e. IfToml e (IsRefusalIn (grammar version) source.now)) }
{
    if !is_short(source) {
        return Err(ParseFault::Memory);
    }
    let reader = Reader {
        alloc,
        source,
        version,
        mode,
    };
    let mut events = Vec::new(alloc);
    let mut batch = next_batch(&reader, &mut events, statements_of(source))?;
    let room = room_for_root(source, events.as_slice(), text_ahead(batch));
    let mut building = Building::new(alloc, room);
    'batches: loop {
        building.ahead = text_ahead(batch);
        let mut left = events.as_slice();
        'statements: while starts_statement(left) {
            match read_in_version(&reader, &mut building, left) {
                Ok(after) => left = after,
                Err(fault) => {
                    drop(building);
                    return Err(refused_in(&reader, batch, fault));
                }
            }
        }
        match batch.end {
            BatchEnd::MoreStatements => batch = next_batch(&reader, &mut events, batch.rest)?,
            BatchEnd::WholeText => {
                let after = trailing(&reader, left);
                let open_end = ends_open(events.as_slice());
                let mut slots = whole(building);
                put_in_order(&mut slots)?;
                return Ok((slots, after, open_end));
            }
            BatchEnd::TooManyBrackets => {
                drop(building);
                return Err(refusal_of_all(&reader));
            }
        }
    }
}
