//! Edits of two documents that share one source.
//!
//! The document has the tables `server` and `client`. The second one is moved into a document of its
//! own, whose texts stay parts of the first one's source. `tools/threads.py` calls the same functions
//! from two threads.
use anyhow::{Result, bail};
use std::alloc::Global;
use toml_edit::{DocumentMut, Mem, Table, Value};

/// How many edits a document gets.
const ROUNDS: usize = 6;

/// Moves the table `client` of a document into a second document, and returns both.
fn moved(alloc: Global, text: &str) -> Result<(DocumentMut, DocumentMut)> {
    let mut first = DocumentMut::from_str(alloc, text)?;
    let mut second = DocumentMut::new(alloc);
    let Some((key, item)) = first.as_table_mut().remove_entry("client") else {
        bail!("no table `client`");
    };
    drop(second.as_table_mut().insert_formatted(&key, item)?);
    Ok((first, second))
}

/// Puts the two documents of a text in place of these, and returns `false` if that fails.
pub fn split(alloc: Global, text: &str, first: &mut DocumentMut, second: &mut DocumentMut) -> bool {
    match moved(alloc, text) {
        Ok((one, other)) => {
            *first = one;
            *second = other;
            true
        }
        Err(_) => false,
    }
}

/// Returns the table that is edited.
fn table_of(document: &mut DocumentMut) -> Option<&mut Table> {
    let root = document.as_table_mut();
    let name = if root.contains_key("client") {
        "client"
    } else {
        "server"
    };
    root.get_mut(name)?.as_table_mut()
}

/// Sets the value of `name`.
fn set(alloc: Global, table: &mut Table) -> Result<()> {
    let value = Value::string(alloc, "a name that was set by an edit")?;
    match table.get_mut("name").and_then(|item| item.as_value_mut()) {
        Some(old) => drop(old.replace_with(value)),
        None => bail!("no value `name`"),
    }
    Ok(())
}

/// Inserts a copy of `words` as `copy`.
fn copy(alloc: Global, table: &mut Table) -> Result<()> {
    let Some(item) = table.get("words") else {
        bail!("no value `words`");
    };
    let copy = item.clone(alloc)?;
    drop(table.insert("copy", copy)?);
    Ok(())
}

/// Detaches the value of `pair`.
fn detach(alloc: Global, table: &mut Table) -> Result<()> {
    match table.get_mut("pair") {
        Some(item) => Ok(item.detach(alloc)?),
        None => bail!("no value `pair`"),
    }
}

/// Puts a copy of a table in its place.
fn remake(alloc: Global, table: &mut Table) -> Mem<()> {
    *table = table.clone(alloc)?;
    Ok(())
}

/// Puts a copy of a document in its place, if both print the same.
fn remake_all(alloc: Global, document: &mut DocumentMut) -> Result<()> {
    let copy = document.clone(alloc)?;
    let text = document.print(alloc)?;
    if !prints(alloc, &copy, text.as_str()) {
        bail!("a copy prints another text");
    }
    *document = copy;
    Ok(())
}

/// Makes the edit of a round.
fn change(alloc: Global, document: &mut DocumentMut, round: usize) -> Result<()> {
    let Some(table) = table_of(document) else {
        bail!("no table");
    };
    match round {
        0 => set(alloc, table),
        1 => copy(alloc, table),
        2 => {
            drop(table.remove("words"));
            Ok(())
        }
        3 => detach(alloc, table),
        4 => Ok(remake(alloc, table)?),
        _ => remake_all(alloc, document),
    }
}

/// Makes the edit of a round, and returns `false` if that fails.
pub fn edit(alloc: Global, document: &mut DocumentMut, round: usize) -> bool {
    change(alloc, document, round).is_ok()
}

/// Returns `true` if a document prints as this text.
pub fn prints(alloc: Global, document: &DocumentMut, text: &str) -> bool {
    match document.print(alloc) {
        Ok(printed) => printed.as_str() == text,
        Err(_) => false,
    }
}

/// Edits the two documents of a text by turns, and returns both with a line `---` between them.
pub fn edited_by_turns(alloc: Global, text: &str) -> Result<String> {
    let mut first = DocumentMut::new(alloc);
    let mut second = DocumentMut::new(alloc);
    if !split(alloc, text, &mut first, &mut second) {
        bail!("the text is no document with a table `client`");
    }
    for round in 0..ROUNDS {
        if !edit(alloc, &mut first, round) || !edit(alloc, &mut second, round) {
            bail!("round {round} failed");
        }
    }
    Ok(format!(in alloc; "{first}---\n{second}")?)
}
