//! Each job of tools for manifests, on documents whose texts before and after are written by hand.
use crate::guide::{array_mut, done};
use crate::holding::is_text;
use crate::paths::{path, sets};
use example_tasks::add::add_sorted;
use example_tasks::comments::{comment_of, explain};
use example_tasks::convert::give_header;
use example_tasks::lines::append;
use example_tasks::lint::{empty_strings, misfit};
use example_tasks::paths::configure;
use example_tasks::relocate::move_table;
use example_tasks::rename::rename;
use std::alloc::{AllocError, Global};
use toml_edit::{Document, DocumentMut, Item, Mem, ParseFault, RawString, Table, Value};

/// Returns the table under a key.
pub fn table_mut<'a>(root: &'a mut Table, key: &str) -> Option<&'a mut Table> {
    root.get_mut(key).and_then(|item| item.as_table_mut())
}

fn bump(alloc: Global, document: &mut DocumentMut) -> Mem<()> {
    let is_set = sets(alloc, document, "package.version", "2.0")?;
    let is_below = sets(alloc, document, "package.version.x", "2.0")?;
    done(is_set && !is_below)
}

fn add_key(alloc: Global, root: &mut Table, name: &str, wanted: bool) -> Mem<()> {
    match table_mut(root, "dependencies") {
        Some(table) => done(add_sorted(alloc, table, name, Value::from(2))? == wanted),
        None => Err(AllocError),
    }
}

fn rename_old(root: &mut Table) -> Mem<()> {
    done(rename(root, "old", "new").is_ok())
}

fn append_alan(alloc: Global, root: &mut Table) -> Mem<()> {
    match array_mut(root, "all") {
        Some(all) => done(append(alloc, all, "Alan").is_ok()),
        None => Err(AllocError),
    }
}

fn give_headers(alloc: Global, root: &mut Table) -> Mem<()> {
    match table_mut(root, "dependencies") {
        Some(table) => {
            let is_given = give_header(alloc, table, "log")?;
            let is_value = give_header(alloc, table, "serde")?;
            let is_missing = give_header(alloc, table, "none")?;
            done(is_given && !is_value && !is_missing)
        }
        None => Err(AllocError),
    }
}

fn configure_tool(alloc: Global, document: &mut DocumentMut) -> Mem<()> {
    done(configure(document, &path(alloc, "tool.x.y")?, Value::from(1)).is_ok())
}

fn explain_port(alloc: Global, root: &mut Table) -> Mem<()> {
    match root.get_mut("port").and_then(|item| item.as_value_mut()) {
        Some(port) => {
            let is_old = comment_of(port) == Some(" old");
            let is_refused = explain(alloc, port, "a\nb").is_err();
            done(is_old && is_refused && explain(alloc, port, " for tests").is_ok())
        }
        None => Err(AllocError),
    }
}

/// Makes the change of this name.
fn change(alloc: Global, document: &mut DocumentMut, name: &str) -> Mem<()> {
    match name {
        "bump" => bump(alloc, document),
        "add b" => add_key(alloc, document.as_table_mut(), "b", true),
        "add z" => add_key(alloc, document.as_table_mut(), "z", true),
        "keep a" => add_key(alloc, document.as_table_mut(), "a", false),
        "rename" => rename_old(document.as_table_mut()),
        "append" => append_alan(alloc, document.as_table_mut()),
        "give a header" => give_headers(alloc, document.as_table_mut()),
        "configure" => configure_tool(alloc, document),
        "explain" => explain_port(alloc, document.as_table_mut()),
        _ => Err(AllocError),
    }
}

/// Returns `true` if the parsed document prints so after a change.
fn gives(alloc: Global, read: Result<DocumentMut, ParseFault>, name: &str, wanted: &str) -> bool {
    match read {
        Ok(mut document) => {
            change(alloc, &mut document, name).is_ok() && is_text(document.print(alloc), wanted)
        }
        Err(fault) => is_text(fault.to_string(alloc), wanted),
    }
}

const SORTED: &str = "[dependencies]\n# the first\na = '1'\nc = '3' # three\n\n[features]\n";

/// Names of jobs, and texts before and after.
const JOBS: &[(&str, &str, &str)] = &[
    (
        "bump",
        "[package]\n# by hand\nversion = '1.0' # kept\n",
        "[package]\n# by hand\nversion = \"2.0\" # kept\n",
    ),
    (
        "add b",
        SORTED,
        "[dependencies]\n# the first\na = '1'\nb = 2\nc = '3' # three\n\n[features]\n",
    ),
    (
        "add z",
        SORTED,
        "[dependencies]\n# the first\na = '1'\nc = '3' # three\nz = 2\n\n[features]\n",
    ),
    ("keep a", SORTED, SORTED),
    (
        "rename",
        "a = 1\n[old] # o\nx = 1\n\n[old.sub]\n[b]\n",
        "a = 1\n[new] # o\nx = 1\n\n[new.sub]\n[b]\n",
    ),
    (
        "rename",
        "# above\nold = 1 # behind\nb = 2\n",
        "# above\nnew = 1 # behind\nb = 2\n",
    ),
    (
        "append",
        "all = [\n  'Ada', # wrote it\n  'George', # logic\n]\n",
        "all = [\n  'Ada', # wrote it\n  'George', # logic\n  \"Alan\",\n]\n",
    ),
    (
        "append",
        "all = [\n  'Ada', # wrote it\n  'George' # logic\n]\n",
        "all = [\n  'Ada', # wrote it\n  'George', # logic\n  \"Alan\"\n]\n",
    ),
    (
        "append",
        "all = ['Ada'] # one\n",
        "all = ['Ada', \"Alan\"] # one\n",
    ),
    (
        "give a header",
        "[dependencies]\n# logs\nlog = { version = '1' } # l\nserde = '2'\n\n[lib]\n",
        "[dependencies]\nserde = '2'\n\n# logs\n[dependencies.log] # l\nversion = '1'\n\n[lib]\n",
    ),
    ("configure", "a = 1\n", "a = 1\n\n[tool.x]\ny = 1\n"),
    (
        "configure",
        "[tool.x]\nz = 2 # z\n\n[b]\n",
        "[tool.x]\nz = 2 # z\ny = 1\n\n[b]\n",
    ),
    (
        "explain",
        "# the port\nport = 80  # old\n",
        "# the port\nport = 80  # for tests\n",
    ),
];

#[test]
fn does_jobs(rt: HostRuntime) {
    for (name, before, after) in JOBS {
        let read = DocumentMut::from_str(rt.alloc(), before);
        assert!(rt; gives(rt.alloc(), read, name, after));
    }
}

/// Moves the table `log` from the table `a` to the root of another document.
fn moves(alloc: Global, from: &mut DocumentMut, to: &mut DocumentMut) -> Mem<()> {
    match table_mut(from.as_table_mut(), "a") {
        Some(a) => {
            let is_moved = move_table(alloc, a, to.as_table_mut(), "log")?;
            let is_gone = !move_table(alloc, a, to.as_table_mut(), "log")?;
            done(is_moved && is_gone)
        }
        None => Err(AllocError),
    }
}

#[test]
fn moves_a_table(rt: HostRuntime) {
    let before = "[a]\n# about logs\n[a.log] # l\nlevel = 1 # one\n[a.log.sub]\n[b]\n";
    let after = "[x]\n# about logs\n[log] # l\nlevel = 1 # one\n[log.sub]\n";
    let read = DocumentMut::from_str(rt.alloc(), before);
    let other = DocumentMut::from_str(rt.alloc(), "[x]\n");
    match (read, other) {
        (Ok(mut from), Ok(mut to)) => {
            assert!(rt; moves(rt.alloc(), &mut from, &mut to).is_ok());
            assert!(rt; is_text(from.print(rt.alloc()), "[a]\n[b]\n"));
            assert!(rt; is_text(to.print(rt.alloc()), after));
        }
        _ => assert!(rt; false),
    }
}

#[test]
fn reports_lines_and_columns(rt: HostRuntime) {
    match Document::parse(rt.alloc(), "a = ''\n\n  b = \"\"\nc = 'x'\n'd' = '' # d\n") {
        Ok(document) => {
            let wanted = "1:5: a is empty\n3:7: b is empty\n5:7: d is empty\n";
            assert!(rt; is_text(empty_strings(rt.alloc(), &document), wanted));
        }
        Err(_) => assert!(rt; false),
    }
}

/// Puts a newline after the value under `b` in the element 1 of `a`.
fn spoils(alloc: Global, document: &mut DocumentMut) -> Mem<()> {
    let path = path(alloc, "a.1.b")?;
    let newline = RawString::from_text(alloc, "\n")?;
    done(document.change_at(&path, |item| spoil(item, newline)) == Some(true))
}

/// Puts a text after a value.
fn spoil(item: &mut Item, after: RawString) -> bool {
    match item.as_value_mut() {
        Some(value) => {
            value.decor_mut().set_suffix(after);
            true
        }
        None => {
            drop(after);
            false
        }
    }
}

/// Returns `true` if the misfit is reported so, or if there is none and the text is empty.
fn is_report(report: Mem<Option<String>>, wanted: &str) -> bool {
    match report {
        Ok(Some(report)) => is_text(Ok(report), wanted),
        Ok(None) => wanted.is_empty(),
        Err(_) => false,
    }
}

#[test]
fn reports_a_misfit(rt: HostRuntime) {
    match DocumentMut::from_str(rt.alloc(), "[[a]]\n[[a]]\nb = 1\n") {
        Ok(mut document) => {
            assert!(rt; is_report(misfit(rt.alloc(), &document), ""));
            assert!(rt; spoils(rt.alloc(), &mut document).is_ok());
            let wanted = "a: 1: b: whitespace or comment out of place";
            assert!(rt; is_report(misfit(rt.alloc(), &document), wanted));
        }
        Err(_) => assert!(rt; false),
    }
}
