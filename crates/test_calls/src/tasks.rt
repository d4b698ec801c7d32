//! The functions of the guide on dates, spellings, lists, entries, and tables of either kind.
use crate::guide::{array_mut, done};
use crate::holding::is_text;
use crate::streams::Short;
use example_calls::adding::{add_dotted, add_nested, describe, describe_inline, no_memory};
use example_calls::dates::{float_of, set_date_time, utc, year_of};
use example_calls::documents::write_to;
use example_calls::either_table::{remove_from, sort_keys, version_of};
use example_calls::lists::{
    insert_or_push, move_value, put_formatted, remove_string, replace_element, replace_or_push,
};
use example_calls::spelling::{make_decimal, set_comment, set_spelled, spelling_of};
use std::alloc::{AllocError, Global};
use toml_edit::{
    Array, DocumentMut, Entry, InlineEntry, InlineTable, Item, Mem, ParseFault, Table, Value,
    Watched,
};

fn insert_utc(root: &mut Table) -> Mem<()> {
    let is_refused = utc(2023, 2, 29, 7, 30).is_none() && utc(2024, 2, 29, 24, 0).is_none();
    match utc(2024, 2, 29, 7, 30) {
        Some(at) if is_refused => {
            let item = Item::Value(Value::from(at));
            drop(root.insert("at", item).map_err(no_memory)?);
            Ok(())
        }
        _ => Err(AllocError),
    }
}

fn has_year(root: &Table, key: &str, wanted: Option<u16>) -> bool {
    match root.get(key).and_then(|item| item.as_value()) {
        Some(value) => year_of(value) == wanted,
        None => false,
    }
}

fn set_dates(root: &mut Table) -> Mem<()> {
    let has_years = has_year(root, "day", Some(1979))
        && has_year(root, "hour", None)
        && has_year(root, "one", None);
    let is_set = set_date_time(root, "day", "2024-02-29")?;
    let is_real = set_date_time(root, "hour", "24:00:00")?;
    done(has_years && is_set && !is_real)
}

fn insert_float(alloc: Global, root: &mut Table) -> Mem<()> {
    done(float_of(alloc, "1")?.is_none())?;
    match float_of(alloc, "1e-9")? {
        Some(value) => {
            drop(root.insert("x", Item::Value(value)).map_err(no_memory)?);
            Ok(())
        }
        None => Err(AllocError),
    }
}

fn value_mut<'a>(root: &'a mut Table, key: &str) -> Option<&'a mut Value> {
    root.get_mut(key).and_then(|item| item.as_value_mut())
}

fn reset_spelling(root: &mut Table) -> Mem<()> {
    match value_mut(root, "a") {
        Some(value) => {
            let was_hexadecimal = spelling_of(value) == Some("0xFF");
            make_decimal(value);
            done(was_hexadecimal && spelling_of(value).is_none())
        }
        None => Err(AllocError),
    }
}

fn set_mask(alloc: Global, root: &mut Table) -> Mem<()> {
    let is_set = set_spelled(alloc, root, "mask", "0xFF").is_ok();
    let is_refused = matches!(
        set_spelled(alloc, root, "b", "0x"),
        Err(ParseFault::Toml(_))
    );
    done(is_set && is_refused)
}

fn set_comments(alloc: Global, root: &mut Table) -> Mem<()> {
    let is_found = set_comment(alloc, root, "b", "two")?;
    let was_there = set_comment(alloc, root, "c", "three")?;
    done(is_found && !was_there)
}

fn change_places(root: &mut Table) -> Mem<()> {
    match array_mut(root, "a") {
        Some(array) => {
            replace_or_push(array, 1, Value::from(9))?;
            replace_or_push(array, 7, Value::from(4))
        }
        None => Err(AllocError),
    }
}

fn put_places(root: &mut Table) -> Mem<()> {
    match array_mut(root, "a") {
        Some(array) => {
            put_formatted(array, 1, Value::from(8))?;
            put_formatted(array, 7, Value::from(0))
        }
        None => Err(AllocError),
    }
}

fn insert_places(root: &mut Table) -> Mem<()> {
    match array_mut(root, "a") {
        Some(array) => {
            insert_or_push(array, 1, Value::from(5))?;
            insert_or_push(array, 7, Value::from(6))
        }
        None => Err(AllocError),
    }
}

fn moves(from: &mut Array, to: &mut Array) -> bool {
    match move_value(from, 1, to).map_err(no_memory) {
        Ok(is_moved) => is_moved,
        Err(_) => false,
    }
}

fn move_second(alloc: Global, root: &mut Table) -> Mem<()> {
    let mut to = Array::new(alloc);
    let is_moved = match array_mut(root, "a") {
        Some(from) => moves(from, &mut to),
        None => false,
    };
    drop(
        root.insert("b", Item::Value(Value::from(to)))
            .map_err(no_memory)?,
    );
    done(is_moved)
}

fn removes(root: &mut Table, key: &str, leaves_none: bool) -> bool {
    match array_mut(root, key) {
        Some(array) => remove_string(array, "x") == leaves_none,
        None => false,
    }
}

fn replace_second(alloc: Global, root: &mut Table) -> Mem<()> {
    if let Some(Item::ArrayOfTables(tables)) = root.get_mut("a") {
        let is_old = match replace_element(tables, 1, Table::new(alloc)) {
            Some(old) => {
                let is_second = has_integer(&old, "x", 2);
                drop(old);
                is_second
            }
            None => false,
        };
        return done(is_old && replace_element(tables, 2, Table::new(alloc)).is_none());
    }
    Err(AllocError)
}

fn has_integer(table: &Table, key: &str, wanted: i64) -> bool {
    match table.get(key).and_then(|item| item.as_integer()) {
        Some(number) => number == wanted,
        None => false,
    }
}

fn inline_mut<'a>(root: &'a mut Table, key: &str) -> Option<&'a mut InlineTable> {
    root.get_mut(key)
        .and_then(|item| item.as_inline_table_mut())
}

fn describes(alloc: Global, entry: Mem<Entry<'_>>, wanted: &str) -> bool {
    match entry {
        Ok(entry) => is_text(describe(alloc, &entry), wanted),
        Err(_) => false,
    }
}

fn describes_inline(alloc: Global, entry: Mem<InlineEntry<'_>>, wanted: &str) -> bool {
    match entry {
        Ok(entry) => is_text(describe_inline(alloc, &entry), wanted),
        Err(_) => false,
    }
}

fn describe_entries(alloc: Global, root: &mut Table) -> Mem<()> {
    let are_described = describes(alloc, root.entry("t"), "replaces t")
        && describes(alloc, root.entry("u"), "adds u");
    match inline_mut(root, "t") {
        Some(table) => done(
            are_described
                && describes_inline(alloc, table.entry("a"), "replaces a")
                && describes_inline(alloc, table.entry("b"), "adds b"),
        ),
        None => Err(AllocError),
    }
}

fn add_to_inline(alloc: Global, root: &mut Table) -> Mem<()> {
    match inline_mut(root, "t") {
        Some(table) => add_dotted(alloc, table, "b", "c", Value::from(2)),
        None => Err(AllocError),
    }
}

fn has_version(root: &Table, key: &str, wanted: Option<&str>) -> bool {
    match root.get(key) {
        Some(item) => version_of(item) == wanted,
        None => false,
    }
}

fn remove_version(root: &mut Table, key: &str) -> bool {
    match root.get_mut(key) {
        Some(item) => remove_from(item, "version").is_some(),
        None => false,
    }
}

fn remove_versions(root: &mut Table) -> Mem<()> {
    let has_versions = has_version(root, "z", Some("1"))
        && has_version(root, "b", Some("2"))
        && has_version(root, "c", Some("3"))
        && has_version(root, "d", None);
    let are_removed = remove_version(root, "b") && remove_version(root, "c");
    done(has_versions && are_removed && !remove_version(root, "z"))
}

fn sort(root: &mut Table) -> Mem<()> {
    done(sort_keys(root)? == 2)
}

/// Makes the change of this name.
fn change(alloc: Global, root: &mut Table, name: &str) -> Mem<()> {
    match name {
        "utc" => insert_utc(root),
        "dates" => set_dates(root),
        "float" => insert_float(alloc, root),
        "decimal" => reset_spelling(root),
        "mask" => set_mask(alloc, root),
        "comment" => set_comments(alloc, root),
        "replace" => change_places(root),
        "put" => put_places(root),
        "insert" => insert_places(root),
        "move" => move_second(alloc, root),
        "remove" => done(removes(root, "a", false) && removes(root, "b", true)),
        "element" => replace_second(alloc, root),
        "describe" => describe_entries(alloc, root),
        "nested" => add_nested(alloc, root, "a", "b", Table::new(alloc)),
        "dotted" => add_to_inline(alloc, root),
        "versions" => remove_versions(root),
        "sort" => sort(root),
        _ => Err(AllocError),
    }
}

/// Returns `true` if the document prints so after a change.
fn gives(alloc: Global, before: &str, name: &str, after: &str) -> bool {
    match DocumentMut::from_str(alloc, before) {
        Ok(mut document) => {
            change(alloc, document.as_table_mut(), name).is_ok()
                && is_text(document.print(alloc), after)
        }
        Err(_) => false,
    }
}

/// Names of changes, and texts before and after.
const EDITS: &[(&str, &str, &str)] = &[
    ("utc", "", "at = 2024-02-29T07:30:00Z\n"),
    (
        "dates",
        "day = 1979-05-27T07:32:00Z\nhour = 07:32:00\none = 1\n",
        "day = 2024-02-29\nhour = 07:32:00\none = 1\n",
    ),
    ("float", "", "x = 1e-9\n"),
    ("decimal", "a = 0xFF # mask\n", "a = 255 # mask\n"),
    ("mask", "b = 1\n", "b = 1\nmask = 0xFF\n"),
    ("comment", "a = 1\nb = 2\n", "a = 1\n# two\nb = 2\n"),
    ("replace", "a = [1, 2 , 3]\n", "a = [1, 9 , 3, 4]\n"),
    ("put", "a = [1, 2 , 3]\n", "a = [0,1, 8, 3]\n"),
    ("insert", "a = [1, 2]\n", "a = [1, 5, 2, 6]\n"),
    ("move", "a = [1, 2 , 3]\n", "a = [1, 3]\nb = [ 2 ]\n"),
    (
        "remove",
        "a = ['a', 'x', 'b', 'x']\nb = ['x']\n",
        "a = ['a', 'b']\nb = []\n",
    ),
    (
        "element",
        "[[a]]\nx = 1\n\n[b]\n\n[[a]]\nx = 2\n",
        "[[a]]\nx = 1\n\n[b]\n\n[[a]]\n",
    ),
    ("describe", "t = {a = 1}\n", "t = {a = 1}\n"),
    ("nested", "x = 1\n", "x = 1\n\n[a.b]\n"),
    ("dotted", "t = {}\n", "t = { b.c = 2 }\n"),
    (
        "versions",
        "z = '1'\nb = {version = '2'}\n[c]\nversion = '3'\n[d]\nx = 1\n",
        "z = '1'\nb = {}\n[c]\n[d]\nx = 1\n",
    ),
    ("sort", "b = 1 # b\na = 2\n", "a = 2\nb = 1 # b\n"),
];

#[test]
fn edits(rt: HostRuntime) {
    for (name, before, after) in EDITS {
        assert!(rt; gives(rt.alloc(), before, name, after), "{name}");
    }
}

/// Returns `true` if the document is written whole, and not where there is too little room.
fn writes(alloc: Global, document: &DocumentMut) -> bool {
    let mut held = Vec::new(alloc);
    let is_written = write_to(alloc, document, &mut Watched::new(Short::of(&mut held, 6))).is_ok();
    let mut short = Vec::new(alloc);
    let is_short = write_to(alloc, document, &mut Watched::new(Short::of(&mut short, 5))).is_err();
    is_written
        && held.as_slice() == "a = 1\n".as_bytes()
        && is_short
        && short.as_slice() == "a = 1".as_bytes()
}

#[test]
fn writes_to_an_output(rt: HostRuntime) {
    match DocumentMut::from_str(rt.alloc(), "a = 1\n") {
        Ok(document) => assert!(rt; writes(rt.alloc(), &document)),
        Err(_) => assert!(rt; false),
    }
}
