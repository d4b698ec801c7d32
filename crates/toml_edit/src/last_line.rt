//! The newline of the last of the statements that are printed of a document.
ghost use Rattle.std.specs.Prelude.{◌≡◌, [], Option, Some, length, map};
ghost use Rattle.std.specs.Option.{option_copied};
ghost use Rattle.toml_edit_model.specs.Mode.{ends_in_return, exact};
ghost use Rattle.toml_edit_model.specs.Tree.{Decor as DecorView, shown_raw, shown_side};
ghost use Rattle.toml_edit_tree.specs.View.{fields_view, table_slots};
ghost use Rattle.toml_edit.specs.HeadersView.{header_view};
ghost use Rattle.toml_edit.specs.LastLines.{last_headed, last_line, last_of_root, newline_of};

use crate::headers::Header;
use toml_edit_key::Key;
use toml_edit_repr::{Decor, RawString};
use toml_edit_tree::{LineVisitor, Path, Table, Value, visit_lines};

/// Returns the length in bytes of the newline of a document's last statement, or 0 if it has no
/// statement. `headers` are in the order in which they are printed.
pub(crate) fn last_newline_length(root: &Table, headers: &[Header<'_, '_>]) -> usize
    ensures { result ≡ length (newline_of exact (last_headed (map header_view headers.now)
        (last_of_root (fields_view root.now) (table_slots root.now)))) }
{
    match headers.last() {
        Some(header) => length_in_table(header.table, newline_length(header.table.decor())),
        None => length_in_root(root),
    }
}

/// Returns the length of the newline of the root's last line. A dotted root has none.
fn length_in_root(root: &Table) -> usize
    ensures { result ≡ length (newline_of exact
        (last_of_root (fields_view root.now) (table_slots root.now))) }
{
    if root.is_dotted() {
        0
    } else {
        length_in_table(root, 0)
    }
}

/// Returns the length of the newline of the table's last line, or `before` if it has no lines.
fn length_in_table(table: &Table, before: usize) -> usize
    ensures { (decor : Option DecorView) → before ≡ length (newline_of exact decor)
        → result ≡ length (newline_of exact (last_line (table_slots table.now) decor)) }
{
    let mut last = LastNewline { length: before };
    visit_lines(&mut last, table);
    last.length
}

/// Keeps the length of the newline of the line that it visited last.
#[derive(Drop)]
struct LastNewline {
    length: usize,
}

impl LineVisitor for LastNewline {
    ghost use Rattle.std.specs.Prelude.{◌≡◌, Some, length, true};
    ghost use Rattle.toml_edit_model.specs.Mode.{exact};
    ghost use Rattle.toml_edit_model.specs.Tree.{node_decor};
    ghost use Rattle.toml_edit.specs.LastLines.{newline_of};

    ghost visits = { λ _ line goes after. (goes ≡ true)
        × (after.length ≡ length (newline_of exact (Some (node_decor line.1)))) };

    fn visit(&mut self, _path: &Path<'_, '_>, _key: &Key, value: &Value) -> bool {
        self.length = newline_length(value.decor());
        true
    }
}

/// Returns the length in bytes of the newline after a statement of this decor: the line feed (LF),
/// and the carriage return (CR) before it if the suffix ends in one.
fn newline_length(decor: &Decor) -> usize
    ensures { result ≡ length (newline_of exact (Some decor.now)) }
{
    if ends_in_carriage_return(decor.suffix()) {
        2
    } else {
        1
    }
}

/// Returns `true` if the side of a decor ends in a carriage return in exact mode.
fn ends_in_carriage_return(side: Option<&RawString>) -> bool
    ensures { result ≡ ends_in_return (shown_side exact [] (option_copied side.entry)) }
{
    match side {
        Some(raw) => raw_ends_in_carriage_return(raw),
        None => false,
    }
}

/// Returns `true` if the text ends in a carriage return. A span has no text here.
fn raw_ends_in_carriage_return(raw: &RawString) -> bool
    ensures { result ≡ ends_in_return (shown_raw exact raw.now) }
{
    match raw.as_str() {
        Some(text) => text.ends_with('\r'),
        None => false,
    }
}
