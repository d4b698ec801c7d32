//! Spans that are replaced by the texts that they cut.
use std::alloc::Global;
use toml_edit::{Decor, Formatted, Key, Mem, RawString};
use toml_edit_text::SharedText;

/// Returns `true` if it was done, and right.
pub fn is_done(answer: Mem<bool>) -> bool {
    answer.unwrap_or(false)
}

fn is_decor(decor: &Decor, before: &str, after: &str) -> bool {
    decor.prefix().and_then(RawString::as_str) == Some(before)
        && decor.suffix().and_then(RawString::as_str) == Some(after)
}

fn cuts_text(alloc: Global) -> Mem<bool> {
    let source = SharedText::from_text(alloc, "k = text")?;
    let mut raw = RawString::from_span(4, 8);
    raw.despan(alloc, &source)?;
    Ok(raw.as_str() == Some("text"))
}

#[test]
fn cuts_texts(rt: HostRuntime) {
    assert!(rt; is_done(cuts_text(rt.alloc())));
}

fn cuts_decor(alloc: Global) -> Mem<bool> {
    let source = SharedText::from_text(alloc, "k =  1 # a")?;
    let mut decor = Decor::new(RawString::from_span(3, 5), RawString::from_span(6, 10));
    decor.despan(alloc, &source)?;
    Ok(is_decor(&decor, "  ", " # a"))
}

#[test]
fn cuts_decors(rt: HostRuntime) {
    assert!(rt; is_done(cuts_decor(rt.alloc())));
}

fn is_cut_key(key: &Key) -> bool {
    key.as_repr().and_then(|repr| repr.as_raw().as_str()) == Some("k")
        && is_decor(key.leaf_decor(), "  ", "\t\t")
}

fn cuts_key(alloc: Global) -> Mem<bool> {
    let name = String::from_str(alloc, "k")?;
    let source = SharedText::from_text(alloc, "  k\t\t= 1")?;
    let leaf = Decor::new(RawString::from_span(0, 2), RawString::from_span(3, 5));
    let mut key = Key::spanned(name, 2, 3, leaf, Decor::default());
    match key.despan(alloc, &source) {
        Ok(()) => Ok(is_cut_key(&key)),
        Err(refused) => Err(refused),
    }
}

#[test]
fn cuts_keys(rt: HostRuntime) {
    assert!(rt; is_done(cuts_key(rt.alloc())));
}

fn cuts_scalar(alloc: Global) -> Mem<bool> {
    let source = SharedText::from_text(alloc, "k =  true # a")?;
    let decor = Decor::new(RawString::from_span(3, 5), RawString::from_span(9, 13));
    let mut scalar = Formatted::spanned(true, 5, 9, decor);
    scalar.despan(alloc, &source)?;
    Ok(scalar.span().is_none() && is_decor(scalar.decor(), "  ", " # a"))
}

#[test]
fn cuts_scalars(rt: HostRuntime) {
    assert!(rt; is_done(cuts_scalar(rt.alloc())));
}

/// Returns `true` if a span is read where it lies in the text, and cuts no character.
fn reads_spans() -> bool {
    let (lies, beyond) = (RawString::from_span(4, 8), RawString::from_span(4, 9));
    let inside = RawString::from_span(1, 2);
    lies.text_in("k = text") == Some("text")
        && beyond.text_in("k = text").is_none()
        && inside.text_in("\u{e9}").is_none()
        && lies.text_in("").is_none()
}

#[test]
fn reads_texts_of_spans(rt: HostRuntime) {
    assert!(rt; reads_spans());
}
