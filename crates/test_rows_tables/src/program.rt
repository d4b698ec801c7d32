//! The kinds of rows on tables.
use crate::{document, table};
use test_rows_read::make::{self, Reads};
use test_rows_read::{Answer, Program, Row};
use toml_edit::{DocumentMut, ParseOptions, Table, Version};

const KINDS: &[&str] = &[
    "text",
    "exact_text",
    "strict_text",
    "document",
    "item",
    "value",
];

/// The program that tries rows on tables.
pub struct Tables;

impl Program for Tables {
    fn knows(kind: &str) -> bool {
        KINDS.contains(&kind)
    }

    fn answer(row: Row<'_>, out: &mut Answer) {
        match row.kind {
            "text" => document::answer(row, out),
            "exact_text" => document::by_options(ParseOptions::new().exact(true), row, out),
            "strict_text" => {
                document::by_options(ParseOptions::new().version(Version::V1_0), row, out);
            }
            "document" => document::empty(row, out),
            "item" => table::answer(row, out),
            _ => table::read(row, out),
        }
    }
}

impl Reads for Tables {
    fn root(text: &str, out: &mut Answer) -> Option<Table> {
        let document = make::read(DocumentMut::from_str(out.alloc, text), out)?;
        Some(out.handed(document.into_table()))
    }
}
