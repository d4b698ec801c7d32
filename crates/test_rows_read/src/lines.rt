//! Writing the names and the lines of tables and of inline tables.
use crate::answer::Answer;
use toml_edit_key::Key;
use toml_edit_repr::Mem;
use toml_edit_tree::{Iter, Value};

/// Writes the names of what an iterator gives.
pub fn names(items: Iter<'_>, out: &mut Answer) {
    let mut is_first = true;
    for (name, _item) in items {
        if !is_first {
            out.text(", ");
        }
        is_first = false;
        out.text(name);
    }
}

/// Writes the lines in order, if there was memory for them.
pub fn tell(lines: Mem<Vec<(Vec<&Key>, &Value)>>, out: &mut Answer) {
    match lines {
        Ok(lines) => {
            for line in &lines {
                tell_line(&line.0, line.1, out);
            }
        }
        Err(_) => out.refuse(),
    }
}

/// Writes a line: the names of its keys, with dots between them, and the value as it displays.
fn tell_line(keys: &[&Key], value: &Value, out: &mut Answer) {
    out.text("<");
    let mut is_first = true;
    for key in keys {
        if !is_first {
            out.text(".");
        }
        is_first = false;
        out.text(key.get());
    }
    out.text("=");
    out.shown(value);
    out.text(">");
}
