//! Calls that only this library has, on documents whose texts before and after are written by hand.
use crate::holding::is_text;
use crate::spans::is_done;
use example_tasks::paths::{set_string_at, string_at};
use std::alloc::{AllocError, Global};
use toml_edit::{ChangeFault, DocumentMut, Item, Key, Mem, ParsePath, Value};

/// Returns the path that the text spells.
pub fn path(alloc: Global, text: &str) -> Mem<Vec<Key>> {
    match Key::parse(alloc, text) {
        Ok(path) => Ok(path),
        Err(fault) => {
            drop(fault);
            Err(AllocError)
        }
    }
}

/// Sets a string at a path. Returns `false` if it cannot go there.
pub fn sets(alloc: Global, document: &mut DocumentMut, at: &str, text: &str) -> Mem<bool> {
    set_string_at(alloc, document, &path(alloc, at)?, text)
}

/// Returns `true` if this is the string at a path.
fn is_string(alloc: Global, document: &DocumentMut, at: &str, wanted: Option<&str>) -> Mem<bool> {
    Ok(string_at(document, &path(alloc, at)?) == wanted)
}

/// Removes what is at a path. Returns `false` if nothing is.
fn removes(alloc: Global, document: &mut DocumentMut, at: &str) -> Mem<bool> {
    Ok(document.remove_at(&path(alloc, at)?).is_ok())
}

/// Returns `true` if a string is replaced, one is added, and one is refused below a missing element
/// and in the place of a table.
fn sets_strings(alloc: Global, document: &mut DocumentMut) -> bool {
    is_done(sets(alloc, document, "package.version", "2.0"))
        && is_done(sets(alloc, document, "bin.1.name", "b"))
        && matches!(sets(alloc, document, "bin.2.name", "c"), Ok(false))
        && matches!(sets(alloc, document, "package", "d"), Ok(false))
        && is_done(is_string(alloc, document, "package.version", Some("2.0")))
        && is_done(is_string(alloc, document, "bin.2.name", None))
        && is_done(removes(alloc, document, "package"))
        && matches!(removes(alloc, document, "package"), Ok(false))
}

const BINARIES: &str = "[package]\nversion = '1.0' # kept\n\n[[bin]]\nname = 'a' # a\n\n[[bin]]\n";

#[test]
fn sets_and_removes_at_paths(rt: HostRuntime) {
    let wanted = "\n[[bin]]\nname = 'a' # a\n\n[[bin]]\nname = \"b\"\n";
    match DocumentMut::from_str(rt.alloc(), BINARIES) {
        Ok(mut document) => {
            assert!(rt; sets_strings(rt.alloc(), &mut document));
            assert!(rt; is_text(document.print(rt.alloc()), wanted));
        }
        Err(_) => assert!(rt; false),
    }
}

/// Returns `true` if a value may be put at the path.
fn may_put(alloc: Global, document: &DocumentMut, at: &str) -> Mem<bool> {
    Ok(document.may_put(&path(alloc, at)?))
}

/// Returns the fault of a value that replaces what is at the path, if it is refused.
fn replaces(alloc: Global, document: &mut DocumentMut, at: &str) -> Mem<Option<ChangeFault>> {
    Ok(document.replace_at(&path(alloc, at)?, Value::from(2)).err())
}

const LAYERS: &str = "a = { b.c = 1, d = [1] } # a\n[e]\nf.g = 1\n[h.i]\n[[j]]\n[[j]]\nk = 1\n";

#[test]
fn tells_where_values_may_be_put(rt: HostRuntime) {
    match DocumentMut::from_str(rt.alloc(), LAYERS) {
        Ok(document) => {
            for at in "a a.d a.d.0 a.b.c new e.new e.f.new h.i.new j.0.new".split(' ') {
                assert!(rt; is_done(may_put(rt.alloc(), &document, at)));
            }
            for at in "a.b a.new a.d.1 e h.new j j.0 j.2.new new.new".split(' ') {
                assert!(rt; matches!(may_put(rt.alloc(), &document, at), Ok(false)));
            }
        }
        Err(_) => assert!(rt; false),
    }
}

#[test]
fn replaces_values_alone(rt: HostRuntime) {
    let wanted = "a = { b.c = 1, d = [2] } # a\n[e]\nf.g = 1\n[h.i]\n[[j]]\n[[j]]\nk = 2\n";
    match DocumentMut::from_str(rt.alloc(), LAYERS) {
        Ok(mut document) => {
            assert!(rt; matches!(replaces(rt.alloc(), &mut document, "a.d.0"), Ok(None)));
            assert!(rt; matches!(replaces(rt.alloc(), &mut document, "j.1.k"), Ok(None)));
            let missing = replaces(rt.alloc(), &mut document, "e.new");
            assert!(rt; matches!(missing, Ok(Some(ChangeFault::NoSuchPath))));
            let dotted = replaces(rt.alloc(), &mut document, "a.b");
            assert!(rt; matches!(dotted, Ok(Some(ChangeFault::WrongKind))));
            assert!(rt; is_text(document.print(rt.alloc()), wanted));
        }
        Err(_) => assert!(rt; false),
    }
}

#[test]
fn forgets_positions(rt: HostRuntime) {
    let text = "[a]\n[b]\n[[c]]\n[a.d]\n[c.e]\n[f.g.h]\n[f.x]\n[f.g]\n";
    let wanted = "[a]\n[a.d]\n[b]\n[[c]]\n[c.e]\n[f.x]\n[f.g]\n[f.g.h]\n";
    match DocumentMut::from_str(rt.alloc(), text) {
        Ok(mut document) => {
            document.as_table_mut().forget_positions();
            assert!(rt; is_text(document.print(rt.alloc()), wanted));
        }
        Err(_) => assert!(rt; false),
    }
}

/// Returns the integer that was replaced.
fn replace(document: &mut DocumentMut, key: &str, value: Value) -> Option<i64> {
    let item = document.as_table_mut().get_mut(key);
    match item.and_then(|item| item.as_value_mut()) {
        Some(value_there) => {
            let old = value_there.replace_with(value);
            let integer = old.as_integer();
            drop(old);
            integer
        }
        None => None,
    }
}

#[test]
fn replaces_under_a_comment(rt: HostRuntime) {
    match DocumentMut::from_str(rt.alloc(), "a =  1 # one\nb = 3\n") {
        Ok(mut document) => {
            assert!(rt; replace(&mut document, "a", Value::from(2)) == Some(1));
            assert!(rt; is_text(document.print(rt.alloc()), "a =  2 # one\nb = 3\n"));
        }
        Err(_) => assert!(rt; false),
    }
}

/// Sets a value at a path, with headers above it. Returns `false` if it cannot go there.
pub fn puts(alloc: Global, document: &mut DocumentMut, at: &str, value: Value) -> Mem<bool> {
    Ok(
        document
            .set_at_with_headers(&path(alloc, at)?, value)
            .is_ok(),
    )
}

/// Returns `true` if lines and tables with headers are set, and a value below a scalar is refused.
fn sets_with_headers(alloc: Global, document: &mut DocumentMut) -> bool {
    is_done(puts(alloc, document, "a.c", Value::from(2024)))
        && is_done(puts(alloc, document, "a.e.f.g", Value::from(true)))
        && matches!(puts(alloc, document, "a.b.x.y", Value::from(3)), Ok(false))
        && is_done(puts(alloc, document, "tool.x.y", Value::from(1)))
        && is_done(puts(alloc, document, "tool.x.y", Value::from(2)))
}

#[test]
fn makes_headers(rt: HostRuntime) {
    let text = "[a]\nb = '1.0'\n\n[d]\n";
    let wanted = "[a]\nb = '1.0'\nc = 2024\n\n[a.e.f]\ng = true\n\n[d]\n\n[tool.x]\ny = 2\n";
    match DocumentMut::from_str(rt.alloc(), text) {
        Ok(mut document) => {
            assert!(rt; sets_with_headers(rt.alloc(), &mut document));
            assert!(rt; is_text(document.print(rt.alloc()), wanted));
        }
        Err(_) => assert!(rt; false),
    }
}

/// Adds one to an integer, and returns the old one.
fn raise(item: &mut Item) -> Option<i64> {
    let old = item.as_integer()?;
    drop(
        item.as_value_mut()?
            .replace_with(Value::from(old.wrapping_add(1))),
    );
    Some(old)
}

/// Adds one to the integer at a path, and returns the old one.
fn raises(alloc: Global, document: &mut DocumentMut, at: &str) -> Mem<Option<Option<i64>>> {
    Ok(document.change_at(&path(alloc, at)?, |item| raise(item)))
}

/// Returns `true` if one item is changed, and others are not found.
fn changes_items(alloc: Global, document: &mut DocumentMut) -> bool {
    matches!(raises(alloc, document, "a.1.b"), Ok(Some(Some(7))))
        && matches!(raises(alloc, document, "c"), Ok(Some(None)))
        && matches!(raises(alloc, document, "a.2.b"), Ok(None))
        && document.change_at(&[], |item| raise(item)).is_none()
}

#[test]
fn changes_at_paths(rt: HostRuntime) {
    let text = "a = [1, { b = 7 }] # a\nc = ''\n";
    match DocumentMut::from_str(rt.alloc(), text) {
        Ok(mut document) => {
            assert!(rt; changes_items(rt.alloc(), &mut document));
            assert!(rt;
                is_text(
                    document.print(rt.alloc()),
                    "a = [1, { b = 8 }] # a\nc = ''\n"
                )
            );
        }
        Err(_) => assert!(rt; false),
    }
}
