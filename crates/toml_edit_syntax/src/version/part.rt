//! The late part of one event.
ghost use Rattle.std.specs.Prelude.{◌≡◌, IfSome};
ghost use Rattle.toml_edit_syntax.specs.Events.{IsSpanOf};
ghost use Rattle.toml_edit_syntax.specs.LateEvents as spec;

use crate::event::{Event, EventKind, Span, text_at};
use crate::version::spelling::{late_escape, late_in_scalar};
use crate::version::trivia::late_in_trivia;

/// Returns `true` if what is before these events belongs to an inline table, as its own trivia or
/// as its comma.
fn is_in_inline_table(events: &[Event]) -> bool
    ensures { result ≡ spec.is_in_inline_table events.now }
{
    'events: for event in events {
        match event.kind {
            EventKind::Comma | EventKind::Inner => {}
            EventKind::Leading | EventKind::InlineTableClose => return true,
            _ => return false,
        }
    }
    false
}

/// Returns the late part of this event, before these events.
pub(crate) fn late_in_event(source: &str, event: Event, behind: &[Event]) -> Option<Span>
    requires { IsSpanOf source.now event.span }
    ensures part { result ≡ spec.late_in_event source.now event behind.now }
    ensures span { IfSome result (λ span. IsSpanOf source.now span) }
{
    let span = event.span;
    let text = text_at(source, span);
    match event.kind {
        EventKind::Key => late_escape(span.start, text),
        EventKind::Scalar => late_in_scalar(span.start, text),
        EventKind::Leading => late_in_trivia(span.start, text),
        EventKind::After | EventKind::Inner if is_in_inline_table(behind) => {
            late_in_trivia(span.start, text)
        }
        EventKind::Comma if is_in_inline_table(behind) => Some(span),
        _ => None,
    }
}
