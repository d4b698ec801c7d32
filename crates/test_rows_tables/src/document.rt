//! Rows on documents: those that are parsed, and empty ones.
use crate::program::Tables;
use crate::{at, indexing, misfit, table};
use serde_json::Value as Json;
use test_rows_read::steps::{Asks, Tries, behind, copied, is_true, word};
use test_rows_read::{Answer, Row, lines, prints, refusal, steps};
use toml_edit::{
    Document, DocumentMut, Item, Mem, ParseFault, ParseOptions, RawString, SourceText, Table,
};

/// Answers rows on the text of a document.
pub fn answer(row: Row<'_>, out: &mut Answer) {
    match row.question {
        "from_str_prints" => {
            steps::read::<Tables, _>(DocumentMut::from_str(out.alloc, row.text()), row, out);
        }
        _ => read(Document::parse(out.alloc, row.text()), row, out),
    }
}

/// Answers rows on the text of a document that is parsed by these options.
pub fn by_options(options: ParseOptions, row: Row<'_>, out: &mut Answer) {
    match row.question {
        "from_str_prints" => steps::read::<Tables, _>(
            DocumentMut::from_str_with(out.alloc, row.text(), options),
            row,
            out,
        ),
        _ => read(
            Document::parse_with(out.alloc, row.text(), options),
            row,
            out,
        ),
    }
}

/// Answers rows on an empty document.
pub fn empty(row: Row<'_>, out: &mut Answer) {
    match row.question {
        "reads" => steps::stepped::<Tables, _>(Document::new(out.alloc), row, out),
        _ => steps::stepped::<Tables, _>(DocumentMut::new(out.alloc), row, out),
    }
}

/// Answers a question on the document as it was parsed, on its root, or on the document after it
/// owns its texts.
fn read(read: Result<Document<&str>, ParseFault>, row: Row<'_>, out: &mut Answer) {
    match row.question {
        "reads" => steps::read::<Tables, _>(read, row, out),
        _ => match read {
            Ok(document) => root(document, row, out),
            Err(fault) => refusal::answer(&fault, row.question, out),
        },
    }
}

/// Answers a question on the root as an item, or on the document that is made of it, whose texts
/// are spans.
fn root(document: Document<&str>, row: Row<'_>, out: &mut Answer) {
    match row.question {
        "into_item" => steps::stepped::<Tables, _>(document.into_item(), row, out),
        "root_prints" | "root_fits" => {
            steps::stepped::<Tables, _>(DocumentMut::from(document.into_table()), row, out);
        }
        _ => owning(document.into_mut(out.alloc), row, out),
    }
}

impl<S: SourceText> Tries<Document<S>> for Tables {
    fn call(document: &mut Document<S>, words: &[Json], out: &mut Answer) {
        match word(words, 0) {
            "raw" => out.text(document.raw()),
            "as_item" => table::ask_item(document.as_item(), behind(words, 1), out),
            "trailing" => out.raw(Some(document.trailing())),
            "iter" => lines::names(document.iter(), out),
            _ => table::ask(document.as_table(), words, out),
        }
    }

    fn answer(_: &Document<S>, question: &str, out: &mut Answer) {
        if question != "reads" {
            refusal::of_accepted(question, out);
        }
    }
}

/// Answers a question on the document, on its root as an item, or on the document that is made of
/// its root.
fn owning(made: Mem<DocumentMut>, row: Row<'_>, out: &mut Answer) {
    match made {
        Ok(document) if row.question == "owned_into_item" => {
            steps::stepped::<Tables, _>(document.into_item(), row, out);
        }
        Ok(document) if row.question == "owned_root_prints" => {
            steps::stepped::<Tables, _>(DocumentMut::from(document.into_table()), row, out);
        }
        Ok(document) => steps::stepped::<Tables, _>(document, row, out),
        Err(_) => out.refuse(),
    }
}

impl Tries<DocumentMut> for Tables {
    fn call(document: &mut DocumentMut, words: &[Json], out: &mut Answer) {
        let rest = behind(words, 1);
        match word(words, 0) {
            "clone" => copied::<Tables, _>(document.clone(out.alloc), rest, out),
            "as_table_mut" => table::change(document.as_table_mut(), rest, out),
            "index_or_insert" => indexing::go_into(document, words, out),
            "set_at"
            | "set_at_with_headers"
            | "remove_at"
            | "remove_line_at"
            | "change_at"
            | "rename_at"
            | "move_at" => {
                at::change(document, words, out);
            }
            "set_exact" => document.set_exact(is_true(words)),
            "set_open_end" => document.set_open_end(is_true(words)),
            "set_trailing" => {
                if let Ok(raw) = out.given(RawString::from_text(out.alloc, word(words, 1))) {
                    document.set_trailing(raw);
                }
            }
            _ => ask(document, words, out),
        }
    }

    fn answer(document: &DocumentMut, question: &str, out: &mut Answer) {
        match question {
            "steps" => {}
            "settles" => prints::settles(document, out),
            "fits" | "root_fits" => out.told(document.fits(out.alloc)),
            _ if question.ends_with("prints") => prints::answer(document, out),
            _ => refusal::of_accepted(question, out),
        }
    }
}

impl Asks<DocumentMut> for Tables {
    fn ask(copy: &DocumentMut, words: &[Json], out: &mut Answer) {
        ask(copy, words, out);
    }
}

fn ask(document: &DocumentMut, words: &[Json], out: &mut Answer) {
    match word(words, 0) {
        "iter" => lines::names(document.iter(), out),
        "trailing" => out.raw(Some(document.trailing())),
        "is_exact" => out.truth(document.is_exact()),
        "open_end" => out.truth(document.open_end()),
        "to_string" => out.shown(document),
        "print" => out.made(document.print(out.alloc)),
        "as_item" => table::ask_item(document.as_item(), behind(words, 1), out),
        "get_at" => at::ask(document, words, out),
        "brackets" => indexing::read_of_document(document, word(words, 1), out),
        "first_misfit" => misfit::tell(document.first_misfit(out.alloc), out),
        _ => table::ask(document.as_table(), words, out),
    }
}

/// Puts a copy of an item into a new document, under the key that the first word is, and answers a
/// question on that.
pub fn ask_alone(copy: Mem<Item>, words: &[Json], out: &mut Answer) {
    match copy {
        Ok(item) => tell_alone(item, words, out),
        Err(_) => out.refuse(),
    }
}

fn tell_alone(item: Item, words: &[Json], out: &mut Answer) {
    tell_document(&alone(item, word(words, 0), out), word(words, 1), out);
}

/// Makes a new document that has the item under the key.
fn alone(item: Item, key: &str, out: &mut Answer) -> DocumentMut {
    let mut document = DocumentMut::new(out.alloc);
    put_in(document.as_table_mut(), key, item, out);
    document
}

fn put_in(table: &mut Table, key: &str, item: Item, out: &mut Answer) {
    let item = out.handed(item);
    out.tried(table.insert(key, item));
}

fn tell_document(document: &DocumentMut, call: &str, out: &mut Answer) {
    match call {
        "print" => out.made(document.print(out.alloc)),
        "fits" => out.told(document.fits(out.alloc)),
        _ => out.no_such(call),
    }
}
