//! Keeping one value of a document.
use anyhow::{Result, bail};
use std::alloc::Global;
use std::mem;
use toml_edit::{Document, Item};

/// Keeps the value of the key `kept` of a document, drops the rest, and returns its text. If its
/// texts are to be detached, they are copied first.
///
/// The value is not dropped, so that what it keeps is left at the end of the process.
pub fn text_of_kept(alloc: Global, mut text: String, detaches: bool) -> Result<String> {
    text.shrink_to_fit();
    let mut item = kept(alloc, text)?;
    if detaches {
        item.detach(alloc)?;
    }
    let text = format!(in alloc; "{item}\n");
    mem::forget(item);
    Ok(text?)
}

/// Returns the value of a document, all else of which is dropped.
fn kept(alloc: Global, text: String) -> Result<Item> {
    let document = Document::parse(alloc, text)?;
    let mut document = document.into_mut(alloc)?;
    match document.as_table_mut().remove("kept") {
        Some(item) => Ok(item),
        None => bail!("no key `kept`"),
    }
}
