//! Makes the call that the last word names on the TOML document on standard input, and drops what it
//! gives, so that `tools/stack.py` can measure the stack.
#![tactic(auto)]

use anyhow::{Result, ensure};
use std::alloc::Global;
use std::fmt::Write;
use std::{env, io};
use toml_edit::visit::{Path, Visit, visit_table};
use toml_edit::{Document, DocumentMut, Item, Mem};
use toml_edit_edits::same_value;
use toml_edit_fmt::{Indentation, Rules, format};

/// Drops what a call gave.
fn gave<T: Drop>(given: Mem<T>) -> Mem<bool> {
    drop(given?);
    Ok(true)
}

/// Tells that a call was made.
fn done(made: Mem<()>) -> Mem<bool> {
    made?;
    Ok(true)
}

/// Makes a call that asks the document. Returns `false` if there is no such call.
fn ask(alloc: Global, word: &str, document: &DocumentMut) -> Mem<bool> {
    match word {
        "clone" => gave(document.clone(alloc)),
        "debug" => gave(format!(in alloc; "{document:?}")),
        "print" => gave(document.print(alloc)),
        "display" => display(alloc, document.as_table().get("a")),
        "fits" => gave(document.fits(alloc)),
        "first_misfit" => gave(document.first_misfit(alloc)),
        "get_values" => gave(document.as_table().get_values(alloc)),
        "visit" => gave(Ok(visit(alloc, document))),
        "same" => same(document, document.clone(alloc)),
        _ => Ok(false),
    }
}

fn display(alloc: Global, item: Option<&Item>) -> Mem<bool> {
    match item {
        Some(item) => gave(format!(in alloc; "{item}")),
        None => Ok(true),
    }
}

/// Returns rules that ask for all that there is.
fn all_rules() -> Rules {
    let mut rules = Rules::default();
    rules.keys = true;
    rules.indentation = Indentation::ByDepth;
    rules
}

/// Writes the path of each integer.
#[derive(Drop)]
struct Integers {
    paths: String,
}

impl Visit for Integers {
    ghost visits = { λ _ _ _ _. Unit {0} };

    fn visit(&mut self, path: &Path<'_, '_>, item: &Item) -> bool {
        item.as_integer().is_none() || write!(self.paths, "{path}").is_ok()
    }
}

/// Visits all items.
fn visit(alloc: Global, document: &DocumentMut) -> bool {
    let mut integers = Integers {
        paths: String::new(alloc),
    };
    visit_table(&mut integers, document.as_table())
}

/// Compares the first items, as values.
fn same(document: &DocumentMut, copy: Mem<DocumentMut>) -> Mem<bool> {
    gave(Ok(are_same(document, &copy?)))
}

/// Returns whether the first items are equal, as values.
fn are_same(document: &DocumentMut, copy: &DocumentMut) -> bool {
    match (document.as_table().get("a"), copy.as_table().get("a")) {
        (Some(Item::Value(value)), Some(Item::Value(other))) => same_value(value, other),
        _ => false,
    }
}

/// Makes a call that changes the document, or one that asks it.
fn change(alloc: Global, word: &str, document: &mut DocumentMut) -> Mem<bool> {
    let root = document.as_table_mut();
    match word {
        "sort_values" => done(root.sort_values()),
        "fmt" => done(Ok(root.fmt())),
        "forget_positions" => done(Ok(root.forget_positions())),
        "detach" => detach(alloc, root.remove("a")),
        "make_value" => make_value(root.get_mut("a")),
        _ => ask(alloc, word, document),
    }
}

fn detach(alloc: Global, item: Option<Item>) -> Mem<bool> {
    match item {
        Some(mut item) => done(item.detach(alloc)),
        None => Ok(true),
    }
}

fn make_value(item: Option<&mut Item>) -> Mem<bool> {
    if let Some(item) = item {
        item.make_value();
    }
    Ok(true)
}

/// Makes a call that takes the document, or one that only lends it.
fn take(alloc: Global, word: &str, mut document: DocumentMut) -> Mem<bool> {
    match word {
        "into_inline_table" => gave(Ok(document.into_table().into_inline_table())),
        "into_item" => gave(Ok(document.into_item())),
        "format" => Ok(format(alloc, document, &all_rules()).is_ok()),
        _ => change(alloc, word, &mut document),
    }
}

/// Makes the call of this name on the document, if it is one.
fn call(alloc: Global, word: &str, document: Mem<DocumentMut>) -> Mem<bool> {
    take(alloc, word, document?)
}

fn main(rt: HostRuntime) -> Result<()> {
    let mut word = String::new(rt.alloc());
    for next in env::args(&rt)? {
        word = next;
    }
    let text = io::read_to_string(rt.alloc(), rt.stdin())?;
    let document = Document::parse(rt.alloc(), text)?;
    if word.as_str() == "parse" {
        drop(document);
        return Ok(());
    }
    let is_call = call(rt.alloc(), word.as_str(), document.into_mut(rt.alloc()))?;
    ensure!(is_call, "no such call");
    Ok(())
}
