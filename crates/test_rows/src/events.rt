//! The events of a text, and of a lone value.
use std::alloc::Global;
use test_rows_read::Answer;
use toml_edit_syntax::{Event, SyntaxFault, lone_events, read_batch, statements_of};

type Found = Result<Vec<Event>, SyntaxFault>;

/// Returns the events of a text, or of the first batch of its statements if it is a long one.
fn events(alloc: Global, text: &str) -> Found {
    let mut events = Vec::new(alloc);
    read_batch(&mut events, text, statements_of(text))?;
    Ok(events)
}

/// Writes the events of a text.
pub fn all(text: &str, out: &mut Answer) {
    shown(events(out.alloc, text), out);
}

/// Writes the events of a lone value.
pub fn all_lone(text: &str, out: &mut Answer) {
    shown(lone_events(out.alloc, text), out);
}

/// Writes the last event of a text.
pub fn last(text: &str, out: &mut Answer) {
    last_shown(events(out.alloc, text), out);
}

/// Writes the last event of a lone value.
pub fn last_lone(text: &str, out: &mut Answer) {
    last_shown(lone_events(out.alloc, text), out);
}

/// Writes the events: the kind and the span of each.
fn shown(found: Found, out: &mut Answer) {
    match found {
        Ok(events) => list(events.as_slice(), out),
        Err(fault) => refused(fault, out),
    }
}

fn last_shown(found: Found, out: &mut Answer) {
    match found {
        Ok(events) => last_of(events.as_slice(), out),
        Err(fault) => refused(fault, out),
    }
}

fn list(events: &[Event], out: &mut Answer) {
    let mut between = "";
    for event in events {
        out.text(between);
        one(event, out);
        between = ", ";
    }
}

fn last_of(events: &[Event], out: &mut Answer) {
    match events.last() {
        Some(event) => one(event, out),
        None => out.text("none"),
    }
}

fn one(event: &Event, out: &mut Answer) {
    out.debugged(&event.kind);
    out.text(" ");
    out.range(event.span.start, event.span.end);
}

fn refused(fault: SyntaxFault, out: &mut Answer) {
    match fault {
        SyntaxFault::Memory => out.refuse(),
        SyntaxFault::Text(_, span) => {
            out.text("refused ");
            out.range(span.start, span.end);
        }
    }
}
