//! The text of a document. If its end is open, the last statement has no newline.
#![tactic(auto, using(toml_edit_io::proofs::Puts::put_steps))]

ghost use Rattle.std.specs.Prelude.{◌≡◌, [], IfOk, map};
ghost use Rattle.std.specs.Fmt.{WritesInCalls};
ghost use Rattle.std.specs.Option.{option_copied};
ghost use Rattle.toml_edit_model.specs.Mode.{exact};
ghost use Rattle.toml_edit_model.specs.Text.{is_empty};
ghost use Rattle.toml_edit_model.specs.Tree.{shown_raw, shown_side};
ghost use Rattle.toml_edit_model.specs.Print.{leaves_open, print_in};
ghost use Rattle.toml_edit_repr.specs.Modes.{mode_of};
ghost use Rattle.toml_edit_tree.specs.View.{fields_view, table_slots, tree_view};
ghost use Rattle.toml_edit_tree.specs.Printing.{keys_on};
ghost use Rattle.toml_edit.specs.HeadersView.{header_view};
ghost use Rattle.toml_edit.specs.Ordered.{ArePrintedInOrder, EndInOrder};

use crate::encode::put_document;
use crate::headers::{Header, headers_in_order};
use crate::last_line::last_newline_length;
use crate::tail::put_but_newline;
use bumpalo::Bump;
use toml_edit_io::{Printed, Sink};
use toml_edit_repr::{Mem, Mode, RawString};
use toml_edit_tree::{Path, Table};

/// A document with its headers in the order of the print.
///
/// They are put in order once, for the text and for the last statement.
#[derive(Drop)]
pub(crate) struct Laid<'a> {
    mode: Mode,
    open_end: bool,
    root: &'a Table,
    trailing: &'a RawString,
    headers: Vec<Header<'a, 'a>>,
    ghost ordered: { ArePrintedInOrder (mode_of mode) (fields_view root.now) (table_slots root.now) (map header_view headers.items) },
    ghost last: { EndInOrder (fields_view root.now) (table_slots root.now) (map header_view headers.items) },
}

impl<'a> Laid<'a> {
    ghost use Rattle.toml_edit.specs.LaidView.{closed_text, laid_text};

    /// Lays out the document with this root and this trailing text. The arena holds the paths of
    /// its headers.
    ///
    /// # Errors
    ///
    /// Fails if memory runs out.
    pub(crate) fn new(
        arena: &'a Bump,
        top: &'a Path<'a, 'a>,
        mode: Mode,
        open_end: bool,
        root: &'a Table,
        trailing: &'a RawString,
    ) -> Mem<Laid<'a>>
        requires { keys_on top.now ≡ [] }
        ensures { IfOk result
            (λ laid. laid_text laid
            ≡ print_in (mode_of mode) open_end (tree_view root.now trailing.now)) }
    {
        let headers = headers_in_order(arena, root, top)?;
        Ok(Laid {
            mode,
            open_end,
            root,
            trailing,
            headers,
        })
    }

    /// Puts the document with a newline after each of its statements.
    fn put_closed<S: Sink>(&self, out: &mut S)
        ensures { WritesInCalls S.puts out.old (closed_text self.now) out.new }
    {
        put_document(
            out,
            self.mode,
            self.root,
            self.headers.as_slice(),
            self.trailing,
        )
    }
}

impl Printed for Laid<'_> {
    ghost use Rattle.toml_edit.specs.LaidView.{laid_text};

    ghost text = { laid_text };

    fn put_into<S: Sink>(&self, out: &mut S) {
        if is_left_open(self.mode, self.open_end, self.root, self.trailing) {
            let length = last_newline_length(self.root, self.headers.as_slice());
            put_but_newline(out, &Closed { laid: self }, length)
        } else {
            self.put_closed(out)
        }
    }
}

/// A laid-out document that is printed with a newline after each of its statements.
#[derive(Drop)]
struct Closed<'l, 'a> {
    laid: &'l Laid<'a>,
}

impl Printed for Closed<'_, '_> {
    ghost use Rattle.toml_edit.specs.LaidView.{closed_text};

    ghost text = { λ closed. closed_text closed.laid.now };

    fn put_into<S: Sink>(&self, out: &mut S) {
        self.laid.put_closed(out)
    }
}

/// Returns `true` if the last statement is printed without its newline: in exact mode, if
/// `open_end` is set and nothing is printed after the statements.
fn is_left_open(mode: Mode, open_end: bool, root: &Table, trailing: &RawString) -> bool
    ensures { result ≡ leaves_open (mode_of mode) open_end (tree_view root.now trailing.now) }
{
    mode == Mode::Exact
        && open_end
        && shows_nothing(root.decor().suffix())
        && raw_shows_nothing(trailing)
}

/// Returns `true` if the side of a decor is printed as nothing in exact mode.
fn shows_nothing(side: Option<&RawString>) -> bool
    ensures { result ≡ is_empty (shown_side exact [] (option_copied side.entry)) }
{
    match side {
        Some(raw) => raw_shows_nothing(raw),
        None => true,
    }
}

/// Returns `true` if the text is empty, or a span.
fn raw_shows_nothing(raw: &RawString) -> bool
    ensures { result ≡ is_empty (shown_raw exact raw.now) }
{
    match raw.as_str() {
        Some(text) => text.is_empty(),
        None => true,
    }
}
