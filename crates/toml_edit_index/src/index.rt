//! The index of a document.
ghost use Rattle.std.specs.Prelude.{IfOk};
ghost use Rattle.toml_edit.specs.DocumentView.{source, tree_read};
ghost use Rattle.toml_edit_index.specs.Indexed.{IsIndexOf};

use crate::found::{Found, close, put_slots};
use crate::lines::Lines;
use crate::node::{Node, Span};
use std::alloc::Global;
use toml_edit::{Document, Mem};

/// A node for the root of a document, for each slot and for each element, and the names of the keys
/// and the characters of the strings, one behind another.
#[derive(Drop)]
pub struct DocumentIndex {
    pub nodes: Vec<Node>,
    pub names: Vec<u8>,
}

/// Returns the index of a document: each node before those below it, in the order of the tree.
pub fn index_of(alloc: Global, document: &Document<&str>) -> Mem<DocumentIndex>
    ensures { IfOk result (λ made. IsIndexOf (source document.now) (tree_read document.now)
        made.nodes.items made.names.items) }
{
    let mut found = Found {
        lines: Lines::new(alloc, document.raw())?,
        nodes: Vec::new(alloc),
        names: Vec::new(alloc),
    };
    found
        .nodes
        .push(Node::root(Span::of_raw(Some(document.trailing()))))?;
    put_slots(&mut found, 0, &document.as_table().slots)?;
    close(&mut found, 0);
    Ok(DocumentIndex {
        nodes: found.nodes,
        names: found.names,
    })
}
