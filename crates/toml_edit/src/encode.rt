//! Putting documents into sinks.
#![tactic(auto, using(toml_edit_io::proofs::Puts::put_steps))]

ghost use Rattle.std.specs.Prelude.{◌≡◌, false, ◌++◌, [], map, if◌then◌else◌};
ghost use Rattle.std.specs.Fmt.{WritesInCalls};
ghost use Rattle.std.specs.Option.{option_copied};
ghost use Rattle.toml_edit_model.specs.Mode.{Mode as LineMode};
ghost use Rattle.toml_edit_model.specs.Syntax.{closing_brackets, opening_brackets};
ghost use Rattle.toml_edit_model.specs.Text.{has_byte, line_feed};
ghost use Rattle.toml_edit_model.specs.Tree.{shown_prefix, shown_raw, shown_side, shown_suffix};
ghost use Rattle.toml_edit_model.specs.Print.{header_default, print_in};
ghost use Rattle.toml_edit_laws.specs.PrintByVisits.{begins, header_text, headers_text, holds_newline, root_lines};
ghost use Rattle.toml_edit_repr.specs.Modes.{mode_of};
ghost use Rattle.toml_edit_tree.specs.View.{fields_view, table_slots, tree_view};
ghost use Rattle.toml_edit.specs.HeadersView.{header_view, keys_in_brackets};
ghost use Rattle.toml_edit.specs.Ordered.{ArePrintedInOrder};

use crate::headers::Header;
use toml_edit_io::Sink;
use toml_edit_key::Key;
use toml_edit_repr::{Mode, RawString, put_raw, put_side};
use toml_edit_tree::{Path, Table, put_path, put_table_lines, table_has_lines};

/// Puts the document with these headers in order, with a newline after each statement.
///
/// In order: the prefix of the root's decor, the lines of the root, the headers with their lines,
/// the suffix of that decor, and the trailing text.
pub(crate) fn put_document<S: Sink>(
    out: &mut S,
    mode: Mode,
    root: &Table,
    headers: &[Header<'_, '_>],
    trailing: &RawString,
)
    requires { ArePrintedInOrder (mode_of mode) (fields_view root.now) (table_slots root.now)
        (map header_view headers.now) }
    ensures { WritesInCalls S.puts out.old
        (print_in (mode_of mode) false (tree_view root.now trailing.now)) out.new }
{
    put_side(out, mode, root.decor().prefix(), "");
    put_root_lines(out, mode, root);
    put_headers(out, mode, headers, headers_begin(root));
    put_side(out, mode, root.decor().suffix(), "");
    put_raw(out, mode, trailing)
}

/// Puts the lines of the root. A dotted root has none.
fn put_root_lines<S: Sink>(out: &mut S, mode: Mode, root: &Table)
    ensures { WritesInCalls S.puts out.old
        (root_lines (mode_of mode) (fields_view root.now) (table_slots root.now)) out.new }
{
    if root.is_dotted() {
        return;
    }
    put_table_lines(out, mode, root)
}

/// Returns `true` if the root has no lines, so that the first header is the first statement.
fn headers_begin(root: &Table) -> bool
    ensures { result ≡ begins (fields_view root.now) (table_slots root.now) }
{
    root.is_dotted() || !table_has_lines(root)
}

/// Puts the headers in this order, each with the lines of its table after it. `begins` says that
/// the first one is the first statement.
fn put_headers<S: Sink>(out: &mut S, mode: Mode, headers: &[Header<'_, '_>], begins: bool)
    ensures { WritesInCalls S.puts out.old
        (headers_text (mode_of mode) begins (map header_view headers.now)) out.new }
{
    let mut is_first = begins;
    'headers: for header in headers {
        put_header(out, mode, header, is_first);
        put_table_lines(out, mode, header.table);
        is_first = false;
    }
}

/// Puts a header with its decors and its newline.
///
/// If the prefix of its last key has a line feed (LF), it is put before the header, since it can't
/// be inside the brackets.
fn put_header<S: Sink>(out: &mut S, mode: Mode, header: &Header<'_, '_>, is_first: bool)
    ensures { WritesInCalls S.puts out.old
        (header_text (mode_of mode) is_first (header_view header.now)) out.new }
{
    let leaf = header.key.leaf_decor();
    let decor = header.table.decor();
    let lifted = has_newline(leaf.prefix());
    put_side_if(out, mode, lifted, leaf.prefix());
    put_side(out, mode, decor.prefix(), before_header(is_first));
    put_brackets(out, mode, header, lifted);
    put_side(out, mode, decor.suffix(), "");
    out.put("\n")
}

/// Returns the text of an unset prefix of a header.
fn before_header(is_first: bool) -> &'static str
    ensures { result.now ≡ header_default is_first }
{
    if is_first { "" } else { "\n" }
}

/// Puts the brackets of a header, and the keys in them.
fn put_brackets<S: Sink>(out: &mut S, mode: Mode, header: &Header<'_, '_>, lifted: bool)
    requires { lifted ≡ holds_newline (mode_of mode) header.now.key.now.leaf }
    ensures { WritesInCalls S.puts out.old
        (opening_brackets header.now.is_element
        ++ (keys_in_brackets (mode_of mode) header.now.path.now header.now.key.now
        ++ closing_brackets header.now.is_element)) out.new }
{
    out.put(if header.is_element { "[[" } else { "[" });
    put_inside_brackets(out, mode, header.path, header.key, lifted);
    out.put(if header.is_element { "]]" } else { "]" })
}

/// Puts the keys of a header, inside the leaf decor of the last one. That decor is left out if its
/// prefix was `lifted` before the header.
fn put_inside_brackets<S: Sink>(
    out: &mut S,
    mode: Mode,
    path: &Path<'_, '_>,
    key: &Key,
    lifted: bool,
)
    requires { lifted ≡ holds_newline (mode_of mode) key.now.leaf }
    ensures { WritesInCalls S.puts out.old
        (keys_in_brackets (mode_of mode) path.now key.now) out.new }
{
    let leaf = key.leaf_decor();
    put_side_if(out, mode, !lifted, leaf.prefix());
    put_path(out, mode, path, key);
    put_side_if(out, mode, !lifted, leaf.suffix())
}

/// Puts the side of a decor if `stands` is set, and nothing if not.
// Usually there is nothing here.
#[inline(always)]
fn put_side_if<S: Sink>(out: &mut S, mode: Mode, stands: bool, side: Option<&RawString>)
    ensures { WritesInCalls S.puts out.old
        (if stands then shown_side (mode_of mode) [] (option_copied side.entry) else []) out.new }
{
    if stands {
        put_side(out, mode, side, "")
    }
}

/// Returns `true` if the side of a decor has a line feed, which is the same in both modes.
fn has_newline(side: Option<&RawString>) -> bool
    ensures { (mode : LineMode)
        → result ≡ has_byte line_feed (shown_side mode [] (option_copied side.entry)) }
{
    match side {
        Some(raw) => raw_has_newline(raw),
        None => false,
    }
}

/// Returns `true` if the text has a line feed. A span has no text here.
fn raw_has_newline(raw: &RawString) -> bool
    ensures { (mode : LineMode) → result ≡ has_byte line_feed (shown_raw mode raw.now) }
{
    match raw.as_str() {
        Some(text) => text.as_bytes().contains(&b'\n'),
        None => false,
    }
}
