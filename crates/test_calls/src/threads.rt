//! Documents in several threads.
use std::marker::{Send, Sync};
use toml_edit::{Document, DocumentMut, Item, Key, Table, TomlError, Value};

/// Takes only a type whose values can be moved to another thread, and shared with one.
fn crosses<T: Send + Sync>(_value: Option<&T>) {}

#[test]
fn documents_cross(rt: HostRuntime) {
    crosses::<DocumentMut>(None);
    crosses::<Document<&str>>(None);
    crosses::<Document<String>>(None);
    crosses::<Item>(None);
    crosses::<Table>(None);
    crosses::<Value>(None);
    crosses::<Key>(None);
    crosses::<TomlError>(None);
    assert!(rt; true);
}
