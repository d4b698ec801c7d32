//! The tasks of the guide, on documents whose texts before and after are written by hand.
use crate::guide::{array_mut, done};
use crate::holding::is_text;
use crate::paths::{path, puts};
use crate::spans::is_done;
use example_tasks::comments::explain_key;
use example_tasks::float::float_in;
use example_tasks::headers::set_width;
use example_tasks::json::to_json;
use example_tasks::removing::{remove, remove_member};
use example_tasks::rename::rename;
use example_tasks::sorting::sort_dependencies;
use example_tasks::version::set_version;
use example_tasks::visiting::lint;
use std::alloc::{AllocError, Global};
use toml_edit::{Document, DocumentMut, FromStr, Mem, ParseFault, Table, Value};

fn drop_two(root: &mut Table) -> Mem<()> {
    match array_mut(root, "all") {
        Some(all) => {
            let is_found = matches!(remove_member(all, "two"), Ok(true));
            let is_there = matches!(remove_member(all, "two"), Ok(true));
            done(is_found && !is_there)
        }
        None => Err(AllocError),
    }
}

fn explain_a(alloc: Global, root: &mut Table) -> Mem<()> {
    let is_added = explain_key(alloc, root, "a", " why").is_ok();
    let is_refused = explain_key(alloc, root, "a", "why\nevil = true").is_err();
    let is_missing = explain_key(alloc, root, "b", " why").is_err();
    done(is_added && is_refused && is_missing)
}

fn rename_others(root: &mut Table) -> Mem<()> {
    let is_missing = rename(root, "none", "new").is_err();
    let is_taken = rename(root, "a", "b").is_err();
    done(is_missing && is_taken)
}

/// Makes the change of this name.
fn change(alloc: Global, document: &mut DocumentMut, name: &str) -> Mem<()> {
    match name {
        "version" => done(set_version(alloc, document, "2.0").is_ok()),
        "no version" => done(set_version(alloc, document, "2.0").is_err()),
        "width" => done(set_width(alloc, document, 100).is_ok()),
        "sort" => done(sort_dependencies(document).is_ok()),
        "remove" => done(remove(alloc, document, "a.b").is_ok()),
        "remove none" => done(remove(alloc, document, "a.x").is_err()),
        "member" => drop_two(document.as_table_mut()),
        "comment" => explain_a(alloc, document.as_table_mut()),
        "rename" => rename_others(document.as_table_mut()),
        _ => Err(AllocError),
    }
}

/// Returns `true` if the parsed document prints so after a change.
fn gives(alloc: Global, read: Result<DocumentMut, ParseFault>, name: &str, wanted: &str) -> bool {
    match read {
        Ok(mut document) => {
            change(alloc, &mut document, name).is_ok() && is_text(document.print(alloc), wanted)
        }
        Err(fault) => is_text(fault.to_string(alloc), wanted),
    }
}

/// Names of tasks, and texts before and after.
const TASKS: &[(&str, &str, &str)] = &[
    (
        "version",
        "[package]\n# by hand\nversion = '1.0' # kept\n",
        "[package]\n# by hand\nversion = \"2.0\" # kept\n",
    ),
    ("no version", "[package]\n", "[package]\n"),
    ("width", "a = 1\n", "a = 1\n\n[tool.fmt]\nwidth = 100\n"),
    (
        "sort",
        "[dependencies]\n# about z\nz = 1 # z\na = 2\n",
        "[dependencies]\na = 2\n# about z\nz = 1 # z\n",
    ),
    (
        "remove",
        "[a]\n# about b\nb = 1 # b\nc = 2\n",
        "[a]\nc = 2\n",
    ),
    ("remove none", "[a]\nb = 1\n", "[a]\nb = 1\n"),
    (
        "member",
        "all = [\n  'one', # 1\n  'two', # 2\n  'three', # 3\n]\n",
        "all = [\n  'one', # 1\n  'three', # 3\n]\n",
    ),
    ("comment", "\na = 1\n", "\n# why\na = 1\n"),
    ("rename", "a = 1\nb = 2\n", "a = 1\nb = 2\n"),
];

#[test]
fn does_tasks(rt: HostRuntime) {
    for (name, before, after) in TASKS {
        let read = DocumentMut::from_str(rt.alloc(), before);
        assert!(rt; gives(rt.alloc(), read, name, after), "{name}");
    }
}

/// Returns `true` if the report of the document is this.
fn is_linted(alloc: Global, document: &Document<&str>, wanted: &str) -> bool {
    match lint(alloc, document) {
        Ok(report) => report.as_str() == wanted,
        Err(_) => false,
    }
}

#[test]
fn visits_all_values(rt: HostRuntime) {
    let text = "a = ''\nb = [1, '', { c = '' }]\n[d]\n\"é\" = ''\n[[e]]\nf.g = ''\n";
    let wanted =
        "1:5: a is empty\n2:9: b.1 is empty\n2:19: b.2.c is empty\n4:7: d.\"é\" is empty\n6:7: e.0.f.g is empty\n";
    match Document::parse(rt.alloc(), text) {
        Ok(document) => assert!(rt; is_linted(rt.alloc(), &document, wanted)),
        Err(_) => assert!(rt; false),
    }
}

/// Returns `true` if the JSON of the document is this, or with an empty text if it has none.
fn is_json(alloc: Global, read: Result<DocumentMut, ParseFault>, wanted: &str) -> bool {
    match read {
        Ok(document) => match to_json(alloc, &document) {
            Ok(text) => text.as_str() == wanted,
            Err(_) => wanted.is_empty(),
        },
        Err(_) => false,
    }
}

/// Texts, and their JSON.
const JSON: &[(&str, &str)] = &[
    ("", "{}"),
    (
        "z = \"a\\\"b\\\\c\\u0001é\"\na = [+1_0.5e+1_0, -0.0, 0xF, []]\n",
        "{\"z\":\"a\\\"b\\\\c\\u0001é\",\"a\":[10.5e+10,-0.0,15,[]]}",
    ),
    (
        "t = { b = true, d = 1979-05-27 }\n[[e]]\n[[e]]\nf.g = 2\n",
        "{\"t\":{\"b\":true,\"d\":\"1979-05-27\"},\"e\":[{},{\"f\":{\"g\":2}}]}",
    ),
    ("a = -inf\n", ""),
];

#[test]
fn writes_json(rt: HostRuntime) {
    for (text, wanted) in JSON {
        let read = DocumentMut::from_str(rt.alloc(), text);
        assert!(rt; is_json(rt.alloc(), read, wanted), "{text}");
    }
}

/// Returns `true` if the value of this spelling is this number.
fn is_float(alloc: Global, text: &str, wanted: f64) -> bool {
    match Value::from_str(alloc, text) {
        Ok(value) => matches!(float_in(alloc, &value), Ok(number) if number == wanted),
        Err(_) => false,
    }
}

#[test]
fn reads_floats(rt: HostRuntime) {
    assert!(rt; is_float(rt.alloc(), "6.626e-34", 6.626e-34));
    assert!(rt; is_float(rt.alloc(), "+1_000.5", 1000.5));
    assert!(rt; is_float(rt.alloc(), "-inf", f64::NEG_INFINITY));
    assert!(rt; !is_float(rt.alloc(), "1", 1.0));
}

/// Sets the value 1 at a path. Returns `false` if it cannot go there.
fn adds(alloc: Global, document: &mut DocumentMut, at: &str) -> Mem<bool> {
    Ok(document.set_at(&path(alloc, at)?, Value::from(1)).is_ok())
}

/// Returns `true` if keys and tables are added at paths that are missing.
fn adds_all(alloc: Global, document: &mut DocumentMut) -> bool {
    is_done(adds(alloc, document, "k"))
        && is_done(adds(alloc, document, "new.table.k"))
        && is_done(adds(alloc, document, "package.k"))
        && is_done(adds(alloc, document, "package.deep.k"))
        && is_done(puts(alloc, document, "tool.fmt.k", Value::from(1)))
        && is_done(puts(alloc, document, "package.sub.k", Value::from(1)))
}

#[test]
fn lands(rt: HostRuntime) {
    let text =
        "edition = 1\n\n# about the package\n[package]\nname = 'x'\n\n[package.meta]\ny = 2\n\n[dependencies]\n";
    let wanted =
        "edition = 1\nk = 1\nnew = { table = { k = 1 } }\n\n# about the package\n[package]\nname = 'x'\nk = 1\ndeep = { k = 1 }\n\n[package.meta]\ny = 2\n\n[package.sub]\nk = 1\n\n[dependencies]\n\n[tool.fmt]\nk = 1\n";
    match DocumentMut::from_str(rt.alloc(), text) {
        Ok(mut document) => {
            assert!(rt; adds_all(rt.alloc(), &mut document));
            assert!(rt; is_text(document.print(rt.alloc()), wanted));
        }
        Err(_) => assert!(rt; false),
    }
}
