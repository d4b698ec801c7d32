//! The nodes of an index.
ghost use Rattle.std.specs.Prelude.{[], ◌≡◌, option_map};
ghost use Rattle.toml_edit_index.specs.Indexed.{kind_of, kind_of_datetime, raw_span, root_node, span_of};
ghost use Rattle.toml_edit_datetime.specs.DatetimeView.{datetime_view};
ghost use Rattle.toml_edit_model.specs.Tree.{owned};
ghost use Rattle.toml_edit_tree.specs.Containers.{inline_node, table_node};
ghost use Rattle.toml_edit_tree.specs.View.{inline_view, item_view, table_view, value_view};

use std::ops::Range;
use toml_edit::{Datetime, InlineTable, Item, RawString, Table, Value};

/// The bytes from `start` up to `end`. Both numbers are 0 where there are none.
#[repr(C)]
#[derive(Clone, Copy, Debug)]
pub struct Span {
    pub start: usize,
    pub end: usize,
}

/// The place where nothing is.
pub const NOWHERE: Span = Span { start: 0, end: 0 };

impl Span {
    /// Returns the bytes of a range, if there is one.
    pub fn of_range(range: Option<Range<usize>>) -> Span
        ensures { result ≡ span_of range }
    {
        match range {
            Some(range) => Span {
                start: range.start,
                end: range.end,
            },
            None => NOWHERE,
        }
    }

    /// Returns the bytes of a raw text that is a span of the source.
    pub fn of_raw(raw: Option<&RawString>) -> Span
        ensures { result ≡ raw_span (option_map (λ r. r.now) raw.entry) }
    {
        match raw {
            Some(raw) => Span::of_range(raw.span()),
            None => NOWHERE,
        }
    }
}

/// An item of a document: what it is, and where it stands in the text and in the index.
#[repr(C)]
#[derive(Clone, Copy, Debug)]
pub struct Node {
    pub kind: usize,
    /// The number of the node that holds it; that of the root is 0.
    pub parent: usize,
    /// The number of the first node behind it and what is below it.
    pub next: usize,
    /// The name of its key, in the names.
    pub name: Span,
    /// The characters of a string, in the names.
    pub content: Span,
    /// The key, in the text.
    pub key: Span,
    /// The value, or the header, or from the first header of an array of tables to the last.
    pub item: Span,
    /// White space and comments before it.
    pub before: Span,
    /// White space and the comment after it.
    pub after: Span,
    /// The line and the column where its key begins, or itself if it has none, from 1.
    pub line: usize,
    pub column: usize,
}

impl Node {
    /// Returns the node of the root, before any below it, with what is after the last statement.
    pub fn root(after: Span) -> Node
        ensures { result ≡ record (root_node 1 (owned [])) { after = after } }
    {
        Node {
            kind: ROOT,
            parent: 0,
            next: 1,
            name: NOWHERE,
            content: NOWHERE,
            key: NOWHERE,
            item: NOWHERE,
            before: NOWHERE,
            after,
            line: 1,
            column: 1,
        }
    }
}

const ROOT: usize = 0;

const STRING: usize = 1;

const INTEGER: usize = 2;

const FLOAT: usize = 3;

const BOOLEAN: usize = 4;

const OFFSET_DATETIME: usize = 5;

const LOCAL_DATETIME: usize = 6;

const LOCAL_DATE: usize = 7;

const LOCAL_TIME: usize = 8;

const ARRAY: usize = 9;

const INLINE_TABLE: usize = 10;

const DOTTED_INLINE_TABLE: usize = 11;

const TABLE: usize = 12;

const IMPLICIT_TABLE: usize = 13;

const DOTTED_TABLE: usize = 14;

const ARRAY_OF_TABLES: usize = 15;

/// Returns the number of an item's kind.
pub fn kind_of(item: &Item) -> usize
    ensures { result ≡ kind_of (item_view item.now) }
{
    match item {
        Item::None => ROOT,
        Item::Value(value) => kind_of_value(value),
        Item::Table(table) => kind_of_table(table),
        Item::ArrayOfTables(_) => ARRAY_OF_TABLES,
    }
}

/// Returns the number of a value's kind.
fn kind_of_value(value: &Value) -> usize
    ensures { result ≡ kind_of (value_view value.now) }
{
    match value {
        Value::String(_) => STRING,
        Value::Integer(_) => INTEGER,
        Value::Float(_) => FLOAT,
        Value::Boolean(_) => BOOLEAN,
        Value::Datetime(datetime) => kind_of_datetime(datetime.value()),
        Value::Array(_) => ARRAY,
        Value::InlineTable(table) => kind_of_inline(table),
    }
}

/// Returns the number of the kind of a date or a time.
fn kind_of_datetime(datetime: &Datetime) -> usize
    ensures { result ≡ kind_of_datetime (datetime_view datetime.now) }
{
    if datetime.offset().is_some() {
        OFFSET_DATETIME
    } else if datetime.time().is_none() {
        LOCAL_DATE
    } else if datetime.date().is_none() {
        LOCAL_TIME
    } else {
        LOCAL_DATETIME
    }
}

/// Returns the number of the kind of an inline table.
fn kind_of_inline(table: &InlineTable) -> usize
    ensures { result ≡ kind_of (inline_node (inline_view table.now)) }
{
    if table.is_dotted() {
        DOTTED_INLINE_TABLE
    } else {
        INLINE_TABLE
    }
}

/// Returns the number of the kind of a table that is not the root.
fn kind_of_table(table: &Table) -> usize
    ensures { result ≡ kind_of (table_node (table_view table.now)) }
{
    if table.is_dotted() {
        DOTTED_TABLE
    } else if table.is_implicit() {
        IMPLICIT_TABLE
    } else {
        TABLE
    }
}
