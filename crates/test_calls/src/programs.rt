//! Each program on a document, with the text that it has to leave.
use crate::guide::done;
use crate::holding::is_text;
use example_tools::add_member::add_member;
use example_tools::bump::bump;
use example_tools::count_values::count_values;
use example_tools::lint::lint;
use example_tools::merge::merge;
use example_tools::migrate::migrate;
use example_tools::sort_deps::sort_deps;
use std::alloc::{AllocError, Global};
use toml_edit::{Document, DocumentMut, Mem, ParseFault};

/// Runs the migration of this name.
fn migrates(alloc: Global, document: &mut DocumentMut, name: &str) -> bool {
    let migrated = match name {
        "migrate" => migrate(
            alloc,
            document,
            &[
                ("old", "new"),
                ("package.dep.default-features", "default_features"),
                ("last", "end"),
            ],
            &[
                ("tool.x", "moved.x"),
                ("deps.log", "deps.log"),
                ("deps.serde", "deps.serde"),
            ],
        ),
        "rename a missing key" => migrate(alloc, document, &[("a.x", "y")], &[]),
        "rename to a taken key" => migrate(alloc, document, &[("a.b", "c")], &[]),
        "move to a taken path" => migrate(alloc, document, &[], &[("a", "d")]),
        "move into itself" => migrate(alloc, document, &[], &[("a", "a.e")]),
        _ => migrate(alloc, document, &[], &[("a.b", "e")]),
    };
    migrated.is_ok()
}

/// Overlays a document by the one of a text.
fn merge_text(alloc: Global, document: &mut DocumentMut, over: &str) -> Mem<()> {
    match DocumentMut::from_str(alloc, over) {
        Ok(over) => done(merge(alloc, document, &over).is_ok()),
        Err(_) => Err(AllocError),
    }
}

/// Runs the program of this name.
fn run(alloc: Global, document: &mut DocumentMut, name: &str) -> Mem<()> {
    match name {
        "sort" => sort_deps(document),
        "bump" => done(bump(alloc, document, "serde", "2")? == 4),
        "bump none" => done(bump(alloc, document, "none", "2")? == 0),
        "count" => done(count_values(document.as_table()) == 3),
        "add" => done(add_member(alloc, document, "c").is_ok()),
        "add again" => done(add_member(alloc, document, "a").is_err()),
        "merge" => merge_text(alloc, document, OVER),
        "migrate" | "move into itself" => done(migrates(alloc, document, name)),
        _ => done(!migrates(alloc, document, name)),
    }
}

/// Returns `true` if the parsed document prints so after the program of this name, and fits.
fn gives(alloc: Global, read: Result<DocumentMut, ParseFault>, name: &str, wanted: &str) -> bool {
    match read {
        Ok(mut document) => {
            run(alloc, &mut document, name).is_ok()
                && matches!(document.fits(alloc), Ok(true))
                && is_text(document.print(alloc), wanted)
        }
        Err(_) => false,
    }
}

const FIRST: &str =
    "# about the first\nname = 'x' # name\n[a]\n# about k\nk = 1 # k\n[a.sub]\nv = { x = 1, y = 2 }\n[z]\n";

const OVER: &str =
    "name = 'y' # second\nnew = 3 # n\n[a]\nk = 2 # other\n# about l\nl = 4 # l\n[a.sub]\nv = { y = 5 }\n# about b\n[b] # b\nc = 1\n[[e]]\nf = 1\n[[e]]\nf = 2\n";

const MERGED: &str =
    "# about the first\nname = 'y' # name\nnew = 3 # n\n[a]\n# about k\nk = 2 # k\n# about l\nl = 4 # l\n[a.sub]\nv = { x = 1, y = 5 }\n[z]\n# about b\n[b] # b\nc = 1\n[[e]]\nf = 1\n[[e]]\nf = 2\n";

const OLD: &str =
    "# about old\nold = 1 # o\n[package]\ndep = { default-features = false } # d\n[tool.x]\n# about k\nk = 1\n[tool.x.sub]\nv = 2\n[deps]\n# about log\nlog = { version = '1' } # l\nserde.version = '2' # s\nserde.features = []\n[last]\n";

const NEW: &str =
    "# about old\nnew = 1 # o\n[package]\ndep = { default_features = false } # d\n[deps]\n\n# about log\n[deps.log] # l\nversion = '1'\n\n[deps.serde]\nversion = '2' # s\nfeatures = []\n[end]\n[moved.x]\n# about k\nk = 1\n[moved.x.sub]\nv = 2\n";

const TABLES: &str = "[a]\nb = 1\nc = 2\n[d]\n";

/// Names of programs, and texts before and after.
const PROGRAMS: &[(&str, &str, &str)] = &[
    (
        "sort",
        "[dependencies]\n# about z\nz = '1' # z\na = { version = '2' }\n\n[target.'cfg(unix)'.dev-dependencies]\ny = 1\nb = 2\n\n[other]\ny = 1\nb = 2\n",
        "[dependencies]\na = { version = '2' }\n# about z\nz = '1' # z\n\n[target.'cfg(unix)'.dev-dependencies]\nb = 2\ny = 1\n\n[other]\ny = 1\nb = 2\n",
    ),
    (
        "sort",
        "[dependencies.z]\nversion = '1'\n\n# about a\n[dependencies.a]\nversion = '2'\n[package]\nname = 'x'\n",
        "\n# about a\n[dependencies.a]\nversion = '2'\n[dependencies.z]\nversion = '1'\n[package]\nname = 'x'\n",
    ),
    (
        "bump",
        "[dependencies]\nserde = '1' # s\nlog = '1'\n[dev-dependencies]\nserde = { version = '1', features = ['x'] } # i\n[build-dependencies.serde]\nversion = '1' # h\n[target.x.dependencies]\nserde.version = '1' # d\n",
        "[dependencies]\nserde = \"2\" # s\nlog = '1'\n[dev-dependencies]\nserde = { version = \"2\", features = ['x'] } # i\n[build-dependencies.serde]\nversion = \"2\" # h\n[target.x.dependencies]\nserde.version = \"2\" # d\n",
    ),
    (
        "bump none",
        "[dependencies]\nlog = '1'\n",
        "[dependencies]\nlog = '1'\n",
    ),
    (
        "count",
        "a = 1\nb = []\nc = {}\n[d]\ne = 1\n",
        "a = 1\nb = []\nc = {}\n[d]\ne = 1\n",
    ),
    (
        "add",
        "[workspace]\nmembers = [\n  'a', # first\n  'b' # second\n]\n",
        "[workspace]\nmembers = [\n  'a', # first\n  'b', # second\n  \"c\"\n]\n",
    ),
    (
        "add again",
        "workspace.members = ['a']\n",
        "workspace.members = ['a']\n",
    ),
    ("merge", FIRST, MERGED),
    ("migrate", OLD, NEW),
    ("rename a missing key", TABLES, TABLES),
    ("rename to a taken key", TABLES, TABLES),
    ("move to a taken path", TABLES, TABLES),
    ("move into itself", TABLES, "[d]\n[a.e]\nb = 1\nc = 2\n"),
    ("move a number", TABLES, TABLES),
];

#[test]
fn changes_documents(rt: HostRuntime) {
    for (name, before, after) in PROGRAMS {
        let read = DocumentMut::from_str(rt.alloc(), before);
        assert!(rt; gives(rt.alloc(), read, name, after), "{name}");
    }
}

/// Returns `true` if the first document prints so after the second one is laid over it, and fits.
fn merges(alloc: Global, read: Result<DocumentMut, ParseFault>, over: &str, wanted: &str) -> bool {
    match read {
        Ok(mut document) => {
            merge_text(alloc, &mut document, over).is_ok()
                && matches!(document.fits(alloc), Ok(true))
                && is_text(document.print(alloc), wanted)
        }
        Err(_) => false,
    }
}

/// Texts, what lies over them, and what comes of both.
const MERGES: &[(&str, &str, &str)] = &[
    (
        "v = { x = 1 } # v\n",
        "v = { y = 2 } # w\n",
        "v = { x = 1 , y = 2 } # v\n",
    ),
    (
        "v = { x = 1 } # v\n",
        "[v]\n# y\ny = 2 # y\n",
        "v = { x = 1 , y = 2 } # v\n",
    ),
    (
        "[v]\nx = 1 # x\n",
        "v = { y = 2 } # w\n",
        "[v]\nx = 1 # x\ny = 2\n",
    ),
    (
        "v.x = 1 # x\n",
        "[v]\n# y\ny = 2 # y\n",
        "v.x = 1 # x\n# y\nv.y = 2 # y\n",
    ),
    (
        "v = {}\n",
        "[v.w]\n# k\nk = 1 # k\n",
        "v = { w = { k = 1 } }\n",
    ),
    (
        "# v\nv = 1 # v\n[w]\n",
        "v = { x = 1 }\n",
        "# v\nv = { x = 1 } # v\n[w]\n",
    ),
    (
        "# v\nv = { x = 1 } # v\n",
        "v = 1 # w\n",
        "# v\nv = 1 # v\n",
    ),
    (
        "v = 1 # v\nw = 2\n[x]\n",
        "# t\n[v] # w\na = 1\n",
        "w = 2\n# t\n[v] # w\na = 1\n[x]\n",
    ),
    (
        "[[v]]\nx = 1\n",
        "[[v]]\nx = 2\n[[v]]\nx = 3\n",
        "[[v]]\nx = 2\n[[v]]\nx = 3\n",
    ),
];

#[test]
fn merges_tables_of_either_kind(rt: HostRuntime) {
    for (under, over, wanted) in MERGES {
        let read = DocumentMut::from_str(rt.alloc(), under);
        assert!(rt; merges(rt.alloc(), read, over, wanted), "{over}");
    }
}

/// Returns `true` if the document is parsed and has this report.
fn is_linted(alloc: Global, read: Result<Document<&str>, ParseFault>, wanted: &str) -> bool {
    match read {
        Ok(document) => matches!(lint(alloc, &document), Ok(report) if report.as_str() == wanted),
        Err(_) => false,
    }
}

#[test]
fn reports_versions(rt: HostRuntime) {
    let text =
        "[dependencies]\na = '*'\nb = { path = 'b' }\nc = '1'\n[dependencies.d]\ngit = 'x'\n[target.'cfg(unix)'.build-dependencies]\ne = { version = '*' }\nf.version = '2'\n";
    let wanted =
        "2:5: a: any version\n3:1: b: no version\n5:15: d: no version\n8:17: e: any version\n";
    let read = Document::parse(rt.alloc(), text);
    assert!(rt; is_linted(rt.alloc(), read, wanted));
}
