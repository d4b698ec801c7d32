//! A test of the index of a document.
use crate::{Node, index_of};
use std::alloc::Global;
use toml_edit::{Document, Mem};

fn is_node(node: &Node, kind: usize, parent: usize, item: (usize, usize)) -> bool {
    node.kind == kind && node.parent == parent && (node.item.start, node.item.end) == item
}

fn lists_items(alloc: Global) -> Mem<bool> {
    let Ok(document) = Document::parse(alloc, "[a]\nb.c = \"x\" # y\n") else {
        return Ok(false);
    };
    let index = index_of(alloc, &document)?;
    let [root, a, b, c] = index.nodes.as_slice() else {
        return Ok(false);
    };
    let are_nodes = is_node(root, 0, 0, (0, 0))
        && is_node(a, 12, 0, (0, 3))
        && is_node(b, 14, 1, (4, 5))
        && is_node(c, 1, 2, (10, 13));
    Ok(
        are_nodes
            && (c.line, c.column, c.after.end) == (2, 3, 17)
            && index.names.as_slice() == b"abcx".as_slice(),
    )
}

#[test]
fn lists_an_index(rt: HostRuntime) {
    assert!(rt; lists_items(rt.alloc()).unwrap_or(false));
}
