//! Reporting dependencies without a version.
use anyhow::Result;
use std::alloc::Global;
use std::fmt::Write;
use toml_edit::{AsTableLike, Document, Item, Key, line_column};

/// Returns a line for each dependency without a version requirement, and for each version `*`, with
/// its line and column.
pub fn lint(alloc: Global, document: &Document<&str>) -> Result<String> {
    let mut report = String::new(alloc);
    lint_in(document.raw(), document.as_item(), &mut report)?;
    let item = document.as_table().get("target");
    if let Some(targets) = item.and_then(|item| item.as_table_like()) {
        for (_name, target) in targets.iter() {
            lint_in(document.raw(), target, &mut report)?;
        }
    }
    Ok(report)
}

/// Reports on the tables of dependencies right in an item.
fn lint_in(source: &str, item: &Item, report: &mut String) -> Result<()> {
    for section in ["dependencies", "dev-dependencies", "build-dependencies"] {
        let table = item.get(section);
        let Some(table) = table.and_then(|table| table.as_table_like()) else {
            continue;
        };
        for at in 0..table.slots() {
            if let Some((key, dependency)) = table.key_value_at(at) {
                lint_one(source, key, dependency, report)?;
            }
        }
    }
    Ok(())
}

/// Reports on one dependency.
fn lint_one(source: &str, key: &Key, item: &Item, report: &mut String) -> Result<()> {
    let version = if item.is_str() {
        Some(item)
    } else {
        item.get("version")
    };
    let (span, fault) = match version.and_then(|version| version.as_str()) {
        None => (key.span(), "no version"),
        Some("*") => (version.and_then(|version| version.span()), "any version"),
        Some(_) => return Ok(()),
    };
    let (line, column) = line_column(source, span.map_or(0, |span| span.start));
    write!(report, "{line}:{column}: {}: {fault}\n", key.get())?;
    Ok(())
}
