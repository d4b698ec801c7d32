//! Sorting a table.
use anyhow::{Result, bail};
use toml_edit::DocumentMut;

/// Sorts the keys of `[dependencies]`, with their comments.
pub fn sort_dependencies(document: &mut DocumentMut) -> Result<()> {
    let item = document.as_table_mut().get_mut("dependencies");
    match item.and_then(|item| item.as_table_mut()) {
        Some(table) => Ok(table.sort_values()?),
        None => bail!("[dependencies] is missing"),
    }
}
