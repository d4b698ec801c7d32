//! Rows on documents that hold a value, or a table of either kind.
use crate::item;
use crate::program::Values;
use serde_json::Value as Json;
use test_rows_read::steps::{Tries, behind, word};
use test_rows_read::{Answer, Row, prints, refusal, steps};
use toml_edit::{Document, DocumentMut, ParseFault, ParseOptions};

/// Answers rows on the text of a document.
pub fn answer(row: Row<'_>, out: &mut Answer) {
    owned(Document::parse(out.alloc, row.text()), row, out);
}

/// Answers rows on the text of a document whose line endings are kept.
pub fn exact(row: Row<'_>, out: &mut Answer) {
    let options = ParseOptions::new().exact(true);
    owned(
        Document::parse_with(out.alloc, row.text(), options),
        row,
        out,
    );
}

/// Answers a question on the document after it owns its texts.
fn owned(read: Result<Document<&str>, ParseFault>, row: Row<'_>, out: &mut Answer) {
    match read {
        Ok(document) => steps::made::<Values, _>(document.into_mut(out.alloc), row, out),
        Err(fault) => refusal::answer(&fault, row.question, out),
    }
}

impl Tries<DocumentMut> for Values {
    fn call(document: &mut DocumentMut, words: &[Json], out: &mut Answer) {
        match word(words, 0) {
            "as_table_mut" => {
                item::change_table(document.as_table_mut(), behind(words, 1), out);
            }
            _ => item::ask_table(document.as_table(), words, out),
        }
    }

    fn answer(document: &DocumentMut, question: &str, out: &mut Answer) {
        match question {
            "steps" => {}
            "prints" => prints::answer(document, out),
            "settles" => prints::settles(document, out),
            "fits" => out.told(document.fits(out.alloc)),
            _ => refusal::of_accepted(question, out),
        }
    }
}
