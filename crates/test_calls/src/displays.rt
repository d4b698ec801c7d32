//! What each `Display` writes, into a text and to writers that fail. No contract can say that it
//! fails only if its writer does, and a text fails only if out of memory.
use crate::holding::{holds_changed, holds_moved, shows, writes};
use std::alloc::Global;
use std::fmt::Display;
use std::str::FromStr;
use toml_edit::{
    Broken, Date, Datetime, DatetimeFault, Document, DocumentMut, Excerpt, FloatText, Formatted,
    Item, Key, NoMemory, ParseFault, ParseOptions, ParsePath, PrintFault, Time, Value, ValueRepr,
};
use toml_edit_io::ReadFault;

/// A path of 81 keys.
const LONG_PATH: &str = "a.a.a.a.a.a.a.a.a.a.a.a.a.a.a.a.a.a.a.a.a.a.a.a.a.a.a.a.a.a.\
    a.a.a.a.a.a.a.a.a.a.a.a.a.a.a.a.a.a.a.a.a.a.a.a.a.a.a.a.a.a.\
    a.a.a.a.a.a.a.a.a.a.a.a.a.a.a.a.a.a.a.a.a";

/// Returns `true` if it was made, and displays so.
fn shows_made<T: Display + Drop>(alloc: Global, made: Option<T>, shown: &str) -> bool {
    match made {
        Some(made) => shows(alloc, made, shown),
        None => false,
    }
}

#[test]
fn shows_dates(rt: HostRuntime) {
    let alloc = rt.alloc();
    assert!(rt; shows_made(alloc, Date::new(1979, 5, 27), "1979-05-27"));
    assert!(rt; shows_made(alloc, Time::new(7, 32, None, None), "07:32"));
    assert!(rt;
        shows_made(
            alloc,
            Datetime::from_str("1979-05-27t07:32z").ok(),
            "1979-05-27T07:32Z"
        )
    );
    assert!(rt; shows(alloc, DatetimeFault, "invalid date-time"));
}

fn float(alloc: Global, text: &str) -> Option<FloatText> {
    FloatText::from_text(alloc, text).ok()?
}

fn scalar<T: ValueRepr + Drop>(made: Option<T>) -> Option<Formatted<T>> {
    made.map(Formatted::new)
}

#[test]
fn shows_scalars(rt: HostRuntime) {
    let alloc = rt.alloc();
    assert!(rt; shows_made(alloc, float(alloc, "1e400"), "1e400"));
    assert!(rt; shows(alloc, Formatted::new(-7i64), "-7"));
    assert!(rt; shows(alloc, Formatted::new(true), "true"));
    assert!(rt; shows_made(alloc, scalar(float(alloc, "6.626e-34")), "6.626e-34"));
}

#[test]
fn shows_strings(rt: HostRuntime) {
    let alloc = rt.alloc();
    let lines = String::from_str(alloc, "a\n'\"\r\n").ok();
    assert!(rt; shows_made(alloc, scalar(lines), "\"\"\"\na\n'\\\"\\r\n\"\"\""));
    let path = String::from_str(alloc, "\\d").ok();
    assert!(rt; shows_made(alloc, scalar(path), "'\\d'"));
}

#[test]
fn shows_formatted_dates(rt: HostRuntime) {
    assert!(rt;
        shows_made(
            rt.alloc(),
            scalar(Datetime::from_str("2024-02-29 07:32:00.5-01:30").ok()),
            "2024-02-29T07:32:00.5-01:30"
        )
    );
}

fn shows_lent_key(alloc: Global, key: &mut Key) -> bool {
    shows(alloc, key.as_mut(), "'a'")
}

fn lends_key(alloc: Global, key: Key) -> bool {
    holds_changed(alloc, key, shows_lent_key)
}

fn read_key(alloc: Global, text: &str) -> Option<Key> {
    <Key as toml_edit::FromStr>::from_str(alloc, text).ok()
}

#[test]
fn shows_keys(rt: HostRuntime) {
    let alloc = rt.alloc();
    assert!(rt; shows_made(alloc, read_key(alloc, "'a'"), "'a'"));
    assert!(rt; holds_moved(alloc, read_key(alloc, "'a'"), lends_key));
}

/// The name of a key, and its default spelling.
const NAME: &str = "it's\na \"b\"";

const SPELLED: &str = "\"it's\\na \\\"b\\\"\"";

fn shows_lent_name(alloc: Global, key: &mut Key) -> bool {
    shows(alloc, key.as_mut(), SPELLED)
}

fn lends_name(alloc: Global, key: Key) -> bool {
    holds_changed(alloc, key, shows_lent_name)
}

#[test]
fn shows_keys_that_are_made(rt: HostRuntime) {
    let alloc = rt.alloc();
    assert!(rt; shows_made(alloc, Key::from_text(alloc, NAME).ok(), SPELLED));
    assert!(rt; holds_moved(alloc, Key::from_text(alloc, NAME).ok(), lends_name));
}

fn shows_array(alloc: Global, value: Value) -> bool {
    match value.as_array() {
        Some(array) => writes(alloc, array, "[1, 0x2]"),
        None => false,
    }
}

fn shows_inline_table(alloc: Global, value: Value) -> bool {
    match value.as_inline_table() {
        Some(table) => writes(alloc, table, "{ a = 1 }"),
        None => false,
    }
}

#[test]
fn shows_values(rt: HostRuntime) {
    let alloc = rt.alloc();
    assert!(rt; shows_made(alloc, read_value(alloc, "'b'"), "'b'"));
    assert!(rt; holds_moved(alloc, read_value(alloc, "[1, 0x2]"), shows_array));
    assert!(rt; holds_moved(alloc, read_value(alloc, "{ a = 1 }"), shows_inline_table));
}

fn read_value(alloc: Global, text: &str) -> Option<Value> {
    <Value as toml_edit::FromStr>::from_str(alloc, text).ok()
}

const DOCUMENT: &str = "a = 1 # c\n[[b]]\nx = 1\n[[b]]\n";

fn shows_document(alloc: Global, document: Document<&str>) -> bool {
    shows_made(alloc, document.into_mut(alloc).ok(), DOCUMENT)
}

/// Returns `true` if the lines of the root display, and its array of tables as an array.
fn shows_parts(alloc: Global, document: DocumentMut) -> bool {
    let root = document.as_table();
    writes(alloc, root, "a = 1 # c\n")
        && match root.get("b") {
            Some(item) => shows_tables(alloc, item),
            None => false,
        }
}

fn shows_tables(alloc: Global, item: &Item) -> bool {
    writes(alloc, item, "[{ x = 1 }, {}]")
        && match item.as_array_of_tables() {
            Some(tables) => writes(alloc, tables, "[{ x = 1 }, {}]"),
            None => false,
        }
}

#[test]
fn shows_documents(rt: HostRuntime) {
    let alloc = rt.alloc();
    assert!(rt; holds_moved(alloc, Document::parse(alloc, DOCUMENT).ok(), shows_document));
    assert!(rt;
        holds_moved(
            alloc,
            DocumentMut::from_str(alloc, DOCUMENT).ok(),
            shows_parts
        )
    );
}

/// A document whose end is open, and one whose end is not. Line endings are kept.
const OPEN: &str = "# a\r\na = 1 # c\r\n[[t]]\r\nb = ['x',\r\n]\r\n# end";

const CLOSED: &str = "# a\r\na = 1 # c\r\n[[t]]\r\nb = ['x',\r\n]\r\n\r\n";

const OPEN_LINE: &str = "a = 1\nb = { c = 'd' }";

fn exact(alloc: Global, text: &str) -> Option<DocumentMut> {
    DocumentMut::from_str_with(alloc, text, ParseOptions::new().exact(true)).ok()
}

#[test]
fn shows_exact_documents(rt: HostRuntime) {
    let alloc = rt.alloc();
    assert!(rt; shows_made(alloc, exact(alloc, OPEN), OPEN));
    assert!(rt; shows_made(alloc, exact(alloc, OPEN_LINE), OPEN_LINE));
    assert!(rt; shows_made(alloc, exact(alloc, CLOSED), CLOSED));
}

/// The order of these headers is not that of their tables.
const HEADERS: &str = "[a.x]\nk = 1\n[b]\n[a.y]\n[a]\nz = 2\n";

#[test]
fn shows_headers_in_the_order_of_the_text(rt: HostRuntime) {
    let alloc = rt.alloc();
    assert!(rt; shows_made(alloc, DocumentMut::from_str(alloc, HEADERS).ok(), HEADERS));
}

fn shows_error(alloc: Global, fault: &ParseFault, shown: &str) -> bool {
    match fault {
        ParseFault::Toml(error) => writes(alloc, error, shown),
        ParseFault::Memory => false,
    }
}

fn shows_fault_so(alloc: Global, fault: &ParseFault, shown: &str) -> bool {
    shows_error(alloc, fault, shown) && writes(alloc, fault, shown)
}

fn shows_fault(alloc: Global, fault: ParseFault) -> bool {
    shows_fault_so(alloc, &fault, "recursion limit\n")
}

/// A text that is refused, and its excerpt.
const REFUSED: &str = "a = 1\n\"é\" = 24:00 # é\n";

const EXCERPT: &str = "TOML parse error at line 2, column 7\n  |\n2 | \"é\" = 24:00 # é\n  |       \
    ^^^^^\ninvalid date-time\n";

fn shows_excerpt(alloc: Global, fault: ParseFault) -> bool {
    shows_fault_so(alloc, &fault, EXCERPT)
}

#[test]
fn shows_excerpts(rt: HostRuntime) {
    let alloc = rt.alloc();
    assert!(rt; holds_moved(alloc, Document::parse(alloc, REFUSED).err(), shows_excerpt));
    let excerpt = Excerpt {
        title: "warning",
        source: "a = 1\nb=2\n",
        span: (7, 8),
        message: "no space before =",
    };
    let shown = "warning at line 2, column 2\n  |\n2 | b=2\n  |  ^\nno space before =\n";
    assert!(rt; shows(alloc, excerpt, shown));
}

#[test]
fn shows_errors(rt: HostRuntime) {
    let alloc = rt.alloc();
    assert!(rt; holds_moved(alloc, Key::parse(alloc, LONG_PATH).err(), shows_fault));
    assert!(rt; shows(alloc, Broken, "broken"));
    assert!(rt; shows(alloc, ReadFault::Memory, "out of memory"));
    assert!(rt; shows(alloc, PrintFault::Device, "write failed"));
    assert!(rt; shows(alloc, NoMemory(7u8), "out of memory"));
}
