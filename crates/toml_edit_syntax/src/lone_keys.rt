//! The events of a text that is one path, and what is wrong with a text that is not a key.
ghost use Rattle.std.specs.Prelude.{◌⊎◌, List, IfOk, IsOk, IsErrOf};
ghost use Rattle.std.specs.List.{AllByRecursion};
ghost use Rattle.toml_edit_model.specs.Text.{Text};
ghost use Rattle.toml_edit_model.specs.Syntax.{Segment};
ghost use Rattle.toml_edit_syntax.specs.Events.{IsSpanOf};
ghost use Rattle.toml_edit_syntax.specs.Faults.{HasSpanIn};
ghost use Rattle.toml_edit_syntax.specs.LonePath.{ArePathEvents, IsPathText};

use crate::event::{Event, Span};
use crate::lexer::{Stop, SyntaxFault, stop_span};
use crate::mistake::{Mistake, mistake_at, no_key};
use crate::value::path;
use std::alloc::Global;
use toml_edit_token::after_key;
use toml_edit_token::run::{Class, split_run};

/// The parts of a text that is one path.
#[derive(Drop)]
pub struct LonePath<'s> {
    /// The whitespace before the path.
    pub before: &'s str,
    /// The events of the path.
    pub events: Vec<Event>,
    /// The whitespace after the path.
    pub after: &'s str,
}

/// Returns the parts of a path with whitespace around it, however many keys it has.
///
/// # Errors
///
/// As [`read_batch`](crate::lexer::read_batch).
pub fn lone_path<'s>(alloc: Global, text: &'s str) -> Result<LonePath<'s>, SyntaxFault>
    ensures cut { IfOk result
        (λ r. ArePathEvents text.now r.before.now r.events.items r.after.now) }
    ensures spans { IfOk result
        (λ r. AllByRecursion (λ e. IsSpanOf text.now e.span) r.events.items) }
    // A text that is a path is read, unless out of memory.
    ensures every { (before : Text) (p : List Segment) (after : Text)
        → IsPathText text.now before p after → IsOk result ⊎ IsErrOf result SyntaxFault.Memory }
    ensures fault { HasSpanIn text.now result }
{
    let (before, start) = split_run(text, Class::Blank);
    let mut events = Vec::new(alloc);
    match path(&mut events, text.len(), start) {
        Ok(rest) => {
            let (after, end) = split_run(rest, Class::Blank);
            if !end.is_empty() {
                let mistake = mistake_at(end, Mistake::UnexpectedCharacter);
                return Err(SyntaxFault::Text(mistake, stop_span(text, end.len())));
            }
            Ok(LonePath {
                before,
                events,
                after,
            })
        }
        Err(Stop::Before(mistake, left)) => Err(SyntaxFault::Text(mistake, stop_span(text, left))),
        // A path has no brackets, so none is one too many.
        Err(Stop::Memory | Stop::TooDeep) => Err(SyntaxFault::Memory),
    }
}

/// Returns what is wrong with a text that is not exactly one key, and where.
pub fn key_mistake(text: &str) -> (Mistake, Span)
    ensures { IsSpanOf text.now result.1 }
{
    let (mistake, left) = match after_key(text) {
        Some(rest) => (mistake_at(rest, Mistake::UnexpectedCharacter), rest.len()),
        None => no_key(text),
    };
    (mistake, stop_span(text, left))
}
