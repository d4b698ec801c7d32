//! Visiting all items of a document, as a linter does.
use anyhow::{Result, ensure};
use std::alloc::Global;
use std::fmt::Write;
use toml_edit::visit::{Path, Visit, visit_table};
use toml_edit::{Document, Item, line_column};

/// Collects a line for each empty string.
#[derive(Drop)]
struct EmptyStrings<'s> {
    source: &'s str,
    report: String,
}

impl Visit for EmptyStrings<'_> {
    ghost visits = { λ _ _ _ _. Unit {0} };

    fn visit(&mut self, path: &Path<'_, '_>, item: &Item) -> bool {
        if let (Some(""), Some(span)) = (item.as_str(), item.span()) {
            let (line, column) = line_column(self.source, span.start);
            return write!(self.report, "{line}:{column}: {path} is empty\n").is_ok();
        }
        true
    }
}

/// Returns a line for each empty string of a document, with its line, its column and its path.
pub fn lint(alloc: Global, document: &Document<&str>) -> Result<String> {
    let mut lint = EmptyStrings {
        source: document.raw(),
        report: String::new(alloc),
    };
    ensure!(visit_table(&mut lint, document.as_table()), "out of memory");
    Ok(lint.report)
}
