//! The late part of a statement or a value.
ghost use Rattle.std.specs.Prelude.{◌≡◌, [], false, IfSome, IsNone};
ghost use Rattle.toml_edit_model.specs.Version.{late_places, late_value};
ghost use Rattle.toml_edit_syntax.specs.Events.{IsSpanOf, has_deep_value, statement_events};
ghost use Rattle.toml_edit_syntax.specs.ValueEvents.{are_deep, shortened};
ghost use Rattle.toml_edit_syntax.specs.LateEvents as spec;
ghost use Rattle.toml_edit_syntax.specs.LateEvents.{AreIn, ForStatementNext, ForValueIn, NamesLate};

use crate::event::{Event, EventKind, Span};
use crate::version::part::late_in_event;

pub mod grammar;
mod part;
mod spelling;
mod trivia;

/// Returns the first late part of these events, up to the end of a statement.
fn late_in_events(source: &str, events: &[Event]) -> Option<Span>
    requires { AreIn source.now events.now }
    ensures part { result ≡ spec.late_in_events source.now events.now }
    ensures span { IfSome result (λ span. IsSpanOf source.now span) }
{
    let mut rest = events;
    'events: while let [event, behind @ ..] = rest {
        if matches!(event.kind, EventKind::LineEnd) {
            return None;
        }
        if let Some(span) = late_in_event(source, *event, behind) {
            return Some(span);
        }
        rest = behind;
    }
    None
}

/// Returns the span in bytes of the first part of the statement at the front that TOML 1.0 lacks,
/// if there is one.
///
/// That is an escape `\e` or `\xHH` (TOML 1.1.0, "String"), a time without seconds ("Local Time"),
/// and in an inline table a newline, a comment or a comma after the last pair ("Inline Table"). If
/// the events are cut short at a bracket that is one too many, only what is before it counts.
pub fn late_part_of_statement(source: &str, events: &[Event]) -> Option<Span>
    requires { AreIn source.now events.now }
    ensures found { ForStatementNext source.now events.now
        (λ s start. IfSome result (NamesLate (late_places start s))) }
    ensures none { ForStatementNext source.now events.now
        (λ s start. has_deep_value s ≡ false → IsNone result → late_places start s ≡ []) }
    // So it is if the events show that none of the statement's is cut off.
    ensures none_whole { ForStatementNext source.now events.now
        (λ s start. are_deep (shortened 0 (statement_events start s)) ≡ false → IsNone result
        → late_places start s ≡ []) }
    ensures span { IfSome result (λ span. IsSpanOf source.now span) }
{
    match events {
        [_, behind @ ..] => late_in_events(source, behind),
        [] => None,
    }
}

/// Returns the span in bytes of the first part of a value that TOML 1.0 lacks, if there is one,
/// from all of its events.
///
/// See [`late_part_of_statement`].
pub fn late_part_of_value(source: &str, events: &[Event]) -> Option<Span>
    requires { AreIn source.now events.now }
    ensures found { ForValueIn source.now events.now
        (λ v start. IfSome result (NamesLate (late_value v start))) }
    ensures none { ForValueIn source.now events.now
        (λ v start. are_deep events.now ≡ false → IsNone result → late_value v start ≡ []) }
    ensures span { IfSome result (λ span. IsSpanOf source.now span) }
{
    late_in_events(source, events)
}
