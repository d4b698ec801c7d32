//! The kinds of rows on values.
use crate::{document, item, value};
use test_rows_read::make::{self, Reads};
use test_rows_read::{Answer, Program, Row};
use toml_edit::{DocumentMut, Table};

const KINDS: &[&str] = &[
    "text",
    "exact_text",
    "item",
    "value",
    "array",
    "inline_table",
];

/// The program that tries rows on values.
pub struct Values;

impl Program for Values {
    fn knows(kind: &str) -> bool {
        KINDS.contains(&kind)
    }

    fn answer(row: Row<'_>, out: &mut Answer) {
        match row.kind {
            "text" => document::answer(row, out),
            "exact_text" => document::exact(row, out),
            "item" => item::answer(row, out),
            _ => value::answer(row, out),
        }
    }
}

impl Reads for Values {
    fn root(text: &str, out: &mut Answer) -> Option<Table> {
        let document = make::read(DocumentMut::from_str(out.alloc, text), out)?;
        Some(document.into_table())
    }
}
