//! How much room a table, and an array of tables, is made with.
//!
//! It is counted in the events that follow, and estimated for what is after their batch. Nothing
//! but memory depends on it.
use memchr::memchr_iter;
use toml_edit_syntax::{Event, EventKind, Span};

/// What follows a header.
#[derive(Clone, Copy)]
pub(crate) struct Behind<'a> {
    /// The whole text.
    pub(crate) source: &'a str,
    /// The number of keys in the header, or 0 for the root, which has none.
    pub(crate) keys: usize,
    /// The events up to the end of the batch.
    pub(crate) events: &'a [Event],
    /// The text after the batch, or the empty one if that is not a part of the text's statements.
    pub(crate) ahead: &'a str,
}

impl<'a> Behind<'a> {
    /// Returns what follows a key line, for which no room is made.
    pub(crate) fn nothing(source: &'a str) -> Behind<'a> {
        Behind {
            source,
            keys: 0,
            events: &[],
            ahead: "",
        }
    }
}

/// What a batch of events says of the slots of a table.
#[derive(Clone, Copy)]
struct SlotCount {
    /// The least number of slots, unless two keys are one.
    slots: usize,
    /// Whether headers of tables below it follow.
    has_headers: bool,
    /// Whether the header of another table follows.
    is_whole: bool,
}

/// Returns the number of slots that a table is to have room for: one for each key line without a
/// dot, and one for each table right below it whose header follows.
///
/// If the table goes on after the batch, it is taken to go on in the same way: up to the next
/// header, or for a root with headers to the end.
#[inline(never)]
pub(crate) fn room_for(behind: Behind<'_>) -> usize {
    let Behind { keys, events, .. } = behind;
    // Most tables are such lines, before a header of one key.
    let lines = plain_lines(events);
    let Some(rest) = events.get(lines.saturating_mul(5)..) else {
        return lines;
    };
    if keys > 0 && opens_short_header(rest) {
        return lines;
    }
    let count = count_slots(rest, keys);
    let slots = lines.saturating_add(count.slots);
    if count.is_whole {
        return slots;
    }
    let goes_on = if !count.has_headers {
        block_len(behind.ahead)
    } else if keys == 0 {
        behind.ahead.len()
    } else {
        0
    };
    with_share(slots, behind, goes_on)
}

/// Returns the number of slots that the root is to have room for, whose first batch has these
/// events.
pub(crate) fn room_for_root(source: &str, events: &[Event], ahead: &str) -> usize {
    room_for(Behind {
        source,
        keys: 0,
        events,
        ahead,
    })
}

/// Returns the number of elements that an array of tables of this name is to have room for after
/// its first, whose header has these brackets: one for each header of it that follows before any of
/// another table beside it.
///
/// If the array goes on after the batch, it is taken to go on in the same way.
#[inline(never)]
pub(crate) fn elements_behind(name: &str, brackets: Span, behind: Behind<'_>) -> usize {
    let Elements { count, is_whole } = count_elements(name, behind);
    if is_whole {
        return count;
    }
    let header = part(behind.source.as_bytes(), brackets.start, brackets.end);
    with_share(count, behind, reach_of(behind.ahead.as_bytes(), header))
}

/// What a batch of events says of the elements of an array of tables.
#[derive(Clone, Copy)]
struct Elements {
    /// The number of headers that follow.
    count: usize,
    /// Whether the header of another table beside it follows.
    is_whole: bool,
}

/// Counts the headers of an array of tables of this name.
fn count_elements(name: &str, behind: Behind<'_>) -> Elements {
    let mut count: usize = 0;
    let mut depth: usize = 0;
    let mut is_array = false;
    let mut last = Span { start: 0, end: 0 };
    for event in behind.events {
        match event.kind {
            EventKind::HeaderOpen | EventKind::ArrayHeaderOpen => {
                is_array = matches!(event.kind, EventKind::ArrayHeaderOpen);
                depth = 0;
            }
            EventKind::Key => {
                depth = depth.saturating_add(1);
                last = event.span;
            }
            EventKind::HeaderClose if depth <= behind.keys => {
                if !is_array || depth != behind.keys || !is_name(behind.source, last, name) {
                    return Elements {
                        count,
                        is_whole: true,
                    };
                }
                count = count.saturating_add(1);
            }
            _ => {}
        }
    }
    Elements {
        count,
        is_whole: false,
    }
}

/// How far a text is read on from a header to the next one that is looked at.
const STEP: usize = 1024;

/// Returns about how far the text goes on with headers of this spelling, in double brackets, and of
/// tables below it.
///
/// No part of a text is read for many arrays, but for those inside one another.
fn reach_of(text: &[u8], header: &[u8]) -> usize {
    let path = part(header, 2, header.len().saturating_sub(2));
    let mut reach: usize = 0;
    'steps: while reach < text.len() {
        let Some(at) = header_from(text, reach) else {
            return text.len();
        };
        let line = part(text, at, text.len());
        if !line.starts_with(header) && !is_below(line, path) {
            return at;
        }
        reach = reach.max(at).saturating_add(STEP);
    }
    text.len()
}

/// Returns where the first bracket from this place on is that begins a line, after whitespace.
fn header_from(text: &[u8], from: usize) -> Option<usize> {
    for ahead in memchr_iter(b'[', part(text, from, text.len())) {
        let at = from.saturating_add(ahead);
        if begins_line(text, at) {
            return Some(at);
        }
    }
    None
}

/// Returns `true` if the line begins with the header of a table below this path.
fn is_below(line: &[u8], path: &[u8]) -> bool {
    let keys = match line {
        [b'[', b'[', keys @ ..] => keys,
        [_, keys @ ..] => keys,
        [] => line,
    };
    keys.starts_with(path) && keys.get(path.len()) == Some(&b'.')
}

/// Returns `true` if only whitespace is between this place and the start of its line.
fn begins_line(text: &[u8], at: usize) -> bool {
    for byte in part(text, 0, at).iter().rev() {
        match *byte {
            b' ' | b'\t' => {}
            b'\n' => return true,
            _ => return false,
        }
    }
    true
}

/// Returns `true` if the name is at the span of the text.
fn is_name(source: &str, span: Span, name: &str) -> bool {
    match source.get(span.start..span.end) {
        Some(text) => text == name,
        None => false,
    }
}

/// Returns `true` if these are the events of a line of one key and a scalar.
fn is_plain_line(events: &[Event]) -> bool {
    match events {
        [leading, _, _, value, _] => {
            matches!(leading.kind, EventKind::Leading) && matches!(value.kind, EventKind::Scalar)
        }
        _ => false,
    }
}

/// Returns the number of lines of one key and a scalar at the front.
fn plain_lines(events: &[Event]) -> usize {
    events
        .chunks(5)
        .take_while(|line| is_plain_line(*line))
        .count()
}

/// Returns `true` if a header of one key comes first.
fn opens_short_header(events: &[Event]) -> bool {
    match events.get(5) {
        Some(closing) => matches!(closing.kind, EventKind::HeaderClose),
        None => false,
    }
}

/// Counts the slots of a table whose header has so many keys.
fn count_slots(events: &[Event], keys: usize) -> SlotCount {
    let mut count = SlotCount {
        slots: 0,
        has_headers: false,
        is_whole: false,
    };
    let mut depth: usize = 0;
    let mut is_array = false;
    let mut was_array = false;
    for event in events {
        match event.kind {
            EventKind::LineEnd if !count.has_headers => count.slots = count.slots.saturating_add(1),
            EventKind::BeforeDot if !count.has_headers => {
                count.slots = count.slots.saturating_sub(1)
            }
            EventKind::HeaderOpen | EventKind::ArrayHeaderOpen => {
                count.has_headers = true;
                is_array = matches!(event.kind, EventKind::ArrayHeaderOpen);
                depth = 0;
            }
            EventKind::Key => depth = depth.saturating_add(1),
            EventKind::HeaderClose if depth <= keys => {
                count.is_whole = true;
                return count;
            }
            // An array of tables has many headers, and one slot.
            EventKind::HeaderClose if depth == keys.saturating_add(1) => {
                if !(is_array && was_array) {
                    count.slots = count.slots.saturating_add(1);
                }
                was_array = is_array;
            }
            _ => {}
        }
    }
    count
}

/// Returns the number of bytes before the next header, or before a line of a value that begins with
/// a bracket.
///
/// So no part of a text is read for two tables.
fn block_len(text: &str) -> usize {
    let bytes = text.as_bytes();
    header_from(bytes, 0).unwrap_or(bytes.len())
}

/// Returns the number of slots or elements that are counted in the batch, and so many more as it
/// lets expect in the first `goes_on` bytes of the text after it.
fn with_share(counted: usize, behind: Behind<'_>, goes_on: usize) -> usize {
    if goes_on == 0 {
        return counted;
    }
    let covered = covered(behind.source, behind.events);
    let here = lines_in(covered, covered.len());
    if here == 0 {
        return counted;
    }
    let ahead = lines_in(behind.ahead.as_bytes(), goes_on);
    let more = counted.saturating_mul(ahead) / here;
    // A list that outgrows its room doubles, so there is some to spare.
    counted.saturating_add(more).saturating_add(more / 32)
}

/// Returns the bytes from the first of the events to the last.
fn covered<'a>(source: &'a str, events: &[Event]) -> &'a [u8] {
    match (events.first(), events.last()) {
        (Some(first), Some(last)) => part(source.as_bytes(), first.span.start, last.span.end),
        _ => &[],
    }
}

/// Returns the bytes from `start` up to `end`, or none if they are not all there.
fn part(bytes: &[u8], start: usize, end: usize) -> &[u8] {
    match bytes.get(start..end) {
        Some(part) => part,
        None => &[],
    }
}

/// The most bytes in which lines are counted to estimate their number in all.
const SAMPLE: usize = 2048;

/// Returns about how many lines are in the first `len` bytes, as those in their middle tell.
fn lines_in(bytes: &[u8], len: usize) -> usize {
    let start = len.saturating_sub(SAMPLE) / 2;
    let sample = part(bytes, start, start.saturating_add(SAMPLE.min(len)));
    if sample.is_empty() {
        return 0;
    }
    let lines = memchr_iter(b'\n', sample).count();
    lines.saturating_mul(len) / sample.len()
}
