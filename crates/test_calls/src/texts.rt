//! Packed texts: that they cross threads, that there is memory, and what is printed.
use std::alloc::Global;
use std::fmt::Debug;
use std::marker::{Send, Sync};
use toml_edit_text::{PackedText, SharedText};

const TEXTS: &[&str] = &[
    "",
    "a",
    "key = \"schlüssel\"",
    "日本語, and more than a few bytes",
];

fn crosses<T: Send + Sync>(_value: &T) {}

fn is_copied(alloc: Global, text: &str) -> bool {
    let Ok(packed) = PackedText::from_text(alloc, text) else {
        return false;
    };
    crosses(&packed);
    packed.as_str() == Some(text)
}

/// Cuts the text from `start` up to `end`, if these are boundaries of characters.
fn cut(alloc: Global, shared: &SharedText, start: u32, end: u32) -> Option<PackedText> {
    let (text, start, end) = (shared.as_str(), start as usize, end as usize);
    if start <= end && text.is_char_boundary(start) && text.is_char_boundary(end) {
        let mut packed = PackedText::from_span(start, end);
        packed.despan(alloc, shared).ok()?;
        Some(packed)
    } else {
        None
    }
}

fn holds(packed: &Option<PackedText>, text: &str) -> bool {
    match packed {
        Some(packed) => packed.as_str() == Some(text),
        None => false,
    }
}

// A part outlives the text that it was cut from, and the other parts of it.
fn outlives(alloc: Global, shared: SharedText) -> bool {
    crosses(&shared);
    let key = cut(alloc, &shared, 0, 3);
    let value = cut(alloc, &shared, 7, 26);
    drop(shared);
    holds(&key, "key") && holds(&value, "schlüssel zum Haus")
}

#[test]
fn texts_are_given_back(rt: HostRuntime) {
    for text in TEXTS {
        assert!(rt; is_copied(rt.alloc(), text));
    }
}

#[test]
fn parts_keep_their_text(rt: HostRuntime) {
    match SharedText::from_text(rt.alloc(), "key = \"schlüssel zum Haus\"") {
        Ok(shared) => assert!(rt; outlives(rt.alloc(), shared)),
        Err(_) => assert!(rt; false),
    }
}

/// Returns `true` if its `Debug` writes this.
fn debugs<T: Debug>(alloc: Global, made: &T, shown: &str) -> bool {
    match format!(in alloc; "{made:?}") {
        Ok(text) => text.as_str() == shown,
        Err(_) => false,
    }
}

fn packed_debugs(alloc: Global, text: &str, shown: &str) -> bool {
    match PackedText::from_text(alloc, text) {
        Ok(packed) => debugs(alloc, &packed, shown),
        Err(_) => false,
    }
}

#[test]
fn texts_are_printed_as_a_str(rt: HostRuntime) {
    assert!(rt; packed_debugs(rt.alloc(), "a \"b\"\n", "\"a \\\"b\\\"\\n\""));
}
