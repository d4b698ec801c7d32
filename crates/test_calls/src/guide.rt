//! Each function of the guide, on documents whose texts before and after are written by hand.
use crate::holding::is_text;
use example_calls::adding::{
    add_dependency, add_element, add_table, push_line, set_default, try_insert,
};
use example_calls::arranging::{insert_first, sort_strings};
use example_calls::changing::set_value;
use example_calls::documents::{print_if_fits, read_exactly, read_strictly, report};
use example_calls::editing::set_string;
use example_calls::edits::set_version;
use example_calls::exchanging::exchange;
use example_calls::fault::EditFault;
use example_calls::normalizing::{normalize, reload};
use example_calls::reading::{integer_at, names, span_at};
use example_calls::removing::remove_key;
use std::alloc::{AllocError, Global};
use toml_edit::{Array, Document, DocumentMut, Item, Mem, ParseFault, Renamed, Table, Value};

const SERVER: &str = "title = 'x'\n\n# two servers\n[server]\nport = 80  # http\nhost = 'a'\n";

fn reads_server(alloc: Global, document: &Document<&str>) -> bool {
    let root = document.as_item();
    integer_at(root, "server", "port") == Some(80)
        && integer_at(root, "server", "host").is_none()
        && integer_at(root, "title", "port").is_none()
        && span_at(root, "title") == Some(8..11)
        && is_text(names(alloc, document.as_table()), "title\nserver\n")
}

#[test]
fn reads(rt: HostRuntime) {
    match Document::parse(rt.alloc(), SERVER) {
        Ok(document) => assert!(rt; reads_server(rt.alloc(), &document)),
        Err(_) => assert!(rt; false),
    }
}

#[test]
fn has_no_spans_without_its_source(rt: HostRuntime) {
    match DocumentMut::from_str(rt.alloc(), SERVER) {
        Ok(document) => assert!(rt; span_at(document.as_item(), "title").is_none()),
        Err(_) => assert!(rt; false),
    }
}

/// Fails if it was not done.
pub fn done(is_done: bool) -> Mem<()> {
    if is_done { Ok(()) } else { Err(AllocError) }
}

fn set_port(root: &mut Table) -> Mem<()> {
    let is_set = set_value(root, "server", "port", Value::from(8080));
    let has_name = set_value(root, "server", "name", Value::from(1));
    let is_table = set_value(root, "title", "port", Value::from(1));
    done(is_set && !has_name && !is_table)
}

fn set_defaults(root: &mut Table) -> Mem<()> {
    set_default(root, "a", Item::Value(Value::from(5)))?;
    set_default(root, "b", Item::Value(Value::from(5)))
}

fn insert_a(root: &mut Table) -> Mem<()> {
    match try_insert(root, "a", Item::Value(Value::from(2))) {
        None => Ok(()),
        Some(item) => {
            drop(item);
            Err(AllocError)
        }
    }
}

/// Returns the array under the key.
pub fn array_mut<'a>(root: &'a mut Table, key: &str) -> Option<&'a mut Array> {
    root.get_mut(key).and_then(|item| item.as_array_mut())
}

fn push_alan(alloc: Global, root: &mut Table) -> Mem<()> {
    match array_mut(root, "all") {
        Some(all) => push_line(alloc, all, "Alan"),
        None => Err(AllocError),
    }
}

fn rename_keys(root: &mut Table) -> Mem<()> {
    let is_done = root.rename("b", "x")? == Renamed::Done;
    let is_absent = root.rename("missing", "y")? == Renamed::Absent;
    let is_taken = root.rename("a", "c")? == Renamed::Taken;
    done(is_done && is_absent && is_taken)
}

fn sort_all(root: &mut Table) -> Mem<()> {
    if let Some(array) = array_mut(root, "z") {
        sort_strings(array)?;
    }
    root.sort_values()
}

/// Makes the change of this name.
fn change(alloc: Global, root: &mut Table, name: &str) -> Mem<()> {
    match name {
        "set port" => set_port(root),
        "set b" => done(set_value(root, "a", "b", Value::from(3))),
        "set defaults" => set_defaults(root),
        "insert a" => insert_a(root),
        "insert a first" => insert_first(alloc, root, "a", Item::Value(Value::from(0))),
        "add serde" => add_dependency(alloc, root, "serde", "1.0", &["derive", "rc"]),
        "add lib" => add_table(alloc, root, "lib", "bench", Value::from(false)),
        "add bin" => add_element(alloc, root, "bin", Table::new(alloc)),
        "push" => push_alan(alloc, root),
        "rename" => rename_keys(root),
        "sort" => sort_all(root),
        _ => Err(AllocError),
    }
}

/// Returns `true` if the parsed document prints so after a change.
fn gives(alloc: Global, read: Result<DocumentMut, ParseFault>, name: &str, wanted: &str) -> bool {
    match read {
        Ok(mut document) => {
            change(alloc, document.as_table_mut(), name).is_ok()
                && is_text(document.print(alloc), wanted)
        }
        Err(fault) => is_text(fault.to_string(alloc), wanted),
    }
}

/// Names of changes, and texts before and after.
const EDITS: &[(&str, &str, &str)] = &[
    (
        "set port",
        SERVER,
        "title = 'x'\n\n# two servers\n[server]\nport = 8080  # http\nhost = 'a'\n",
    ),
    ("set defaults", "a = 1 # one\n", "a = 1 # one\nb = 5\n"),
    (
        "insert a",
        "a = 1 # one\nb = 2 # two\n",
        "a = 2\nb = 2 # two\n",
    ),
    ("insert a", "b = 2 # two\n", "b = 2 # two\na = 2\n"),
    (
        "insert a first",
        "b = 1 # b\n\"c\".x = 2\nc.y = 3\n",
        "a = 0\nb = 1 # b\n\"c\".x = 2\n\"c\".y = 3\n",
    ),
    ("insert a first", "b = 1 # b\na = 2\n", "a = 0\nb = 1 # b\n"),
    (
        "add serde",
        "log = '0.4'\n",
        "log = '0.4'\nserde = { version = \"1.0\", features = [\"derive\", \"rc\"] }\n",
    ),
    (
        "add lib",
        "[package]\nname = 'x'\n",
        "[package]\nname = 'x'\n\n[lib]\nbench = false\n",
    ),
    (
        "add bin",
        "[[bin]]\nname = 'a' # one\n\n[lib]\n",
        "[[bin]]\nname = 'a' # one\n\n[[bin]]\n\n[lib]\n",
    ),
    ("add bin", "a = 1\n", "a = 1\n\n[[bin]]\n"),
    (
        "push",
        "all = [\n  'Ada', # wrote it\n  'George',\n]\n",
        "all = [\n  'Ada', # wrote it\n  'George',\n  \"Alan\",\n]\n",
    ),
    (
        "push",
        "all = [\n\t# the first\n\t'Ada', # wrote it\n]\n",
        "all = [\n\t# the first\n\t'Ada', # wrote it\n\t\"Alan\",\n]\n",
    ),
    (
        "push",
        "all = [\n  'Ada' # wrote it\n]\n",
        "all = [\n  'Ada', # wrote it\n  \"Alan\",\n]\n",
    ),
    ("push", "all = []\n", "all = [\n    \"Alan\",\n]\n"),
    (
        "rename",
        "a = 1\n# about b\nb  = 2 # b\nc = 3\n\n[t]\n",
        "a = 1\n# about b\nx  = 2 # b\nc = 3\n\n[t]\n",
    ),
    (
        "sort",
        "z = [\n  'b',\n  'a',\n]\n# about b\nb = 1 # b\na = 2\n",
        "a = 2\n# about b\nb = 1 # b\nz = [\n  'a',\n  'b',\n]\n",
    ),
    (
        "set b",
        "[a]\r\nb = 1 # one\r\nc = 2",
        "[a]\nb = 3 # one\nc = 2\n",
    ),
];

#[test]
fn edits(rt: HostRuntime) {
    for (name, before, after) in EDITS {
        let read = DocumentMut::from_str(rt.alloc(), before);
        assert!(rt; gives(rt.alloc(), read, name, after), "{name}");
    }
}

#[test]
fn reads_as_asked(rt: HostRuntime) {
    let exact = read_exactly(rt.alloc(), "[a]\r\nb = 1 # one\r\nc = 2");
    assert!(rt; gives(rt.alloc(), exact, "set b", "[a]\r\nb = 3 # one\r\nc = 2"));
    let strict = read_strictly(rt.alloc(), "[a]\nb = 1\n");
    assert!(rt; gives(rt.alloc(), strict, "set b", "[a]\nb = 3\n"));
    let refused = read_strictly(rt.alloc(), "a = { b = 1, }\n");
    let why =
        "TOML parse error at line 1, column 12\n  |\n1 | a = { b = 1, }\n  |            ^\nneeds TOML 1.1\n";
    assert!(rt; gives(rt.alloc(), refused, "set b", why));
}

#[test]
fn reports(rt: HostRuntime) {
    let why = "TOML parse error at line 2, column 1\n  |\n2 | a = 2\n  | ^\nduplicate key\n";
    assert!(rt; is_text(report(rt.alloc(), "a = 1\na = 2\n"), why));
    assert!(rt; is_text(report(rt.alloc(), "a = 1\nb = 2\n"), ""));
}

/// Returns `true` if the document prints so, or with `None` does not fit.
fn prints(alloc: Global, document: &DocumentMut, wanted: Option<&str>) -> bool {
    match print_if_fits(alloc, document) {
        Ok(Some(text)) => wanted == Some(text.as_str()),
        Ok(None) => wanted.is_none(),
        Err(_) => false,
    }
}

fn fits_until_it_is_dotted(alloc: Global, document: &mut DocumentMut) -> bool {
    let fits = prints(alloc, document, Some("a = 1\n"));
    document.as_table_mut().set_dotted(true);
    fits && prints(alloc, document, None)
}

#[test]
fn prints_what_fits(rt: HostRuntime) {
    match DocumentMut::from_str(rt.alloc(), "a = 1\n") {
        Ok(mut document) => assert!(rt; fits_until_it_is_dotted(rt.alloc(), &mut document)),
        Err(_) => assert!(rt; false),
    }
}

/// Returns `true` if this text came of an edit.
pub fn is_edited(edited: Result<String, EditFault>, wanted: &str) -> bool {
    match edited {
        Ok(text) => text.as_str() == wanted,
        Err(_) => false,
    }
}

/// Returns `true` if there was nothing to be edited.
pub fn is_missing(edited: Result<String, EditFault>) -> bool {
    matches!(edited, Err(EditFault::Missing))
}

/// Returns `true` if the text that was to be edited is refused.
pub fn is_refused(edited: Result<String, EditFault>) -> bool {
    matches!(edited, Err(EditFault::Toml(_)))
}

/// Returns `true` if the key that was to be added is there.
pub fn is_present(edited: Result<String, EditFault>) -> bool {
    matches!(edited, Err(EditFault::Present))
}

const TWICE: &str = "a = 1\na = 2\n";

#[test]
fn sets_a_version(rt: HostRuntime) {
    let before =
        "# a crate\n[package]\nname = 'x'  # its name\n# by hand\nversion  = '0.1.0' # the first\n\n[lib]\na.c = 1\nb = 2\n";
    let after =
        "# a crate\n[package]\nname = 'x'  # its name\n# by hand\nversion  = \"0.2.0\" # the first\n\n[lib]\na.c = 1\nb = 2\n";
    assert!(rt; is_edited(set_version(rt.alloc(), before, "0.2.0"), after));
    assert!(rt; is_missing(set_version(rt.alloc(), SERVER, "0.2.0")));
    let named = "title = 'x'\n\n# two servers\n[server]\nport = 80  # http\nhost = \"b\"\n";
    assert!(rt; is_edited(set_string(rt.alloc(), SERVER, "server", "host", "b"), named));
    assert!(rt; is_missing(set_string(rt.alloc(), SERVER, "server", "name", "b")));
    assert!(rt; is_missing(set_string(rt.alloc(), SERVER, "title", "host", "b")));
    assert!(rt; is_refused(set_string(rt.alloc(), TWICE, "a", "b", "c")));
}

const TABLES: &str =
    "# all\ntitle = 'x' # short\n\n# old\n[a]\nb = 1 # one\n\n# below it\n[a.c]\n\n# kept\n[d]\ne = 2 # two\n";

#[test]
fn exchanges_a_table_for_a_key(rt: HostRuntime) {
    let after = "# all\ntitle = 'x' # short\na = \"moved\"\n\n# kept\n[d]\ne = 2 # two\n";
    assert!(rt; is_edited(exchange(rt.alloc(), TABLES, "a", "a", "moved"), after));
    assert!(rt; is_present(exchange(rt.alloc(), TABLES, "a", "title", "moved")));
    assert!(rt; is_missing(exchange(rt.alloc(), TABLES, "title", "f", "moved")));
    assert!(rt; is_missing(exchange(rt.alloc(), TABLES, "g", "title", "moved")));
    let moved = "# two\ntitle = 'x'\nserver = \"s\"\n";
    assert!(rt;
        is_edited(
            exchange(rt.alloc(), "# two\ntitle = 'x'\n[t]\n", "t", "server", "s"),
            moved
        )
    );
    assert!(rt; is_refused(exchange(rt.alloc(), TWICE, "a", "b", "c")));
}

#[test]
fn removes_a_key(rt: HostRuntime) {
    let without_a = "# all\ntitle = 'x' # short\n\n# kept\n[d]\ne = 2 # two\n";
    assert!(rt; is_edited(remove_key(rt.alloc(), TABLES, "a"), without_a));
    let without_title =
        "\n# old\n[a]\nb = 1 # one\n\n# below it\n[a.c]\n\n# kept\n[d]\ne = 2 # two\n";
    assert!(rt; is_edited(remove_key(rt.alloc(), TABLES, "title"), without_title));
    assert!(rt; is_missing(remove_key(rt.alloc(), TABLES, "b")));
    assert!(rt; is_refused(remove_key(rt.alloc(), TWICE, "a")));
}

/// Returns `true` if this is the normal form of the text.
fn is_normalized(alloc: Global, text: &str, wanted: &str) -> bool {
    match normalize(alloc, text) {
        Ok(normal) => normal.as_str() == wanted,
        Err(_) => false,
    }
}

#[test]
fn normalizes(rt: HostRuntime) {
    let gathered = "a.x = 1 # one\na.y = 3\nb = 2\n";
    assert!(rt; is_normalized(rt.alloc(), "a.x = 1 # one\r\nb = 2\r\na.y = 3", gathered));
    assert!(rt; is_normalized(rt.alloc(), gathered, gathered));
    assert!(rt; normalize(rt.alloc(), TWICE).is_err());
}

/// Returns `true` if the document is read from its print, and prints this then.
fn is_reloaded(alloc: Global, document: &DocumentMut, wanted: &str) -> bool {
    match reload(alloc, document) {
        Ok(Some(again)) => is_text(again.print(alloc), wanted),
        Ok(None) => false,
        Err(_) => false,
    }
}

fn is_unfit(reloaded: Result<Option<DocumentMut>, ParseFault>) -> bool {
    matches!(reloaded, Ok(None))
}

fn reloads_until_it_is_dotted(alloc: Global, document: &mut DocumentMut) -> bool {
    let is_set = set_defaults(document.as_table_mut()).is_ok();
    let fits = is_reloaded(alloc, document, "# one\na = 1\nb = 5\n");
    document.as_table_mut().set_dotted(true);
    is_set && fits && is_unfit(reload(alloc, document))
}

#[test]
fn reloads_what_fits(rt: HostRuntime) {
    match DocumentMut::from_str(rt.alloc(), "# one\na = 1\n") {
        Ok(mut document) => assert!(rt; reloads_until_it_is_dotted(rt.alloc(), &mut document)),
        Err(_) => assert!(rt; false),
    }
}
