//! The events of a text that is one value.
ghost use Rattle.std.specs.Prelude.{◌≡◌, ◌⊎◌, ◌≤◌, length, IfOk, IsOk, IsErrOf};
ghost use Rattle.std.specs.List.{AllByRecursion};
ghost use Rattle.toml_edit_model.specs.Syntax.{Value};
ghost use Rattle.toml_edit_model.specs.Lone.{IsLoneValue};
ghost use Rattle.toml_edit_syntax.specs.Events.{IsSpanOf};
ghost use Rattle.toml_edit_syntax.specs.Faults.{HasSpanIn};
ghost use Rattle.toml_edit_syntax.specs.Gives.{Adds};
ghost use Rattle.toml_edit_syntax.specs.LoneEvents.{AreLoneEvents};
ghost use Rattle.toml_edit_syntax.specs.StatementReading as read;

use crate::event::Event;
use crate::lexer::{Stop, SyntaxFault, stop_span};
use crate::mistake::{Mistake, mistake_at};
use crate::value::value;
use std::alloc::Global;
use toml_edit_token::run::{Class, split_run};

/// Adds the parts of the value that the text is but for whitespace around it.
fn lone_value<'a>(events: &mut Vec<Event>, s: &'a str) -> Result<&'a str, Stop>
    ensures { Adds events.old.items events.new.items result (read.lone_value_read s.now) }
{
    let (_, start) = split_run(s, Class::Blank);
    let rest = value(events, s.len(), 0, start)?;
    let (_, end) = split_run(rest, Class::Blank);
    if !end.is_empty() {
        return Err(Stop::Before(mistake_at(end, Mistake::UnexpectedCharacter), end.len()));
    }
    Ok(rest)
}

/// Returns the events of a value with whitespace around it, up to a bracket that is one too many.
///
/// # Errors
///
/// As [`read_batch`](crate::lexer::read_batch).
pub fn lone_events(alloc: Global, text: &str) -> Result<Vec<Event>, SyntaxFault>
    ensures cut { IfOk result (λ es. AreLoneEvents text.now es.items) }
    ensures spans { IfOk result (λ es. AllByRecursion (λ e. IsSpanOf text.now e.span) es.items) }
    // A text that is a value is read, unless out of memory.
    ensures every { (v : Value) → IsLoneValue text.now v
        → IsOk result ⊎ IsErrOf result SyntaxFault.Memory }
    ensures fault { HasSpanIn text.now result }
{
    let mut events = Vec::new(alloc);
    match lone_value(&mut events, text) {
        Ok(_) => Ok(events),
        Err(Stop::TooDeep) => Ok(events),
        Err(Stop::Memory) => Err(SyntaxFault::Memory),
        Err(Stop::Before(mistake, left)) => Err(SyntaxFault::Text(mistake, stop_span(text, left))),
    }
}
