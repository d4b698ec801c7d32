//! Checking that a side of a decor is trivia that suits its place. Carriage returns (CR) do not
//! print in the plain mode, so they are skipped there; in the exact mode each has to begin a
//! newline.
ghost use Rattle.std.specs.Prelude.{◌≡◌, false, [], ◌∷◌};
ghost use Rattle.std.specs.Option.{option_copied};
ghost use Rattle.toml_edit_model.specs.Mode.{Mode as ModelMode, exact, line_end, shown_text};
ghost use Rattle.toml_edit_model.specs.Text.{has_byte, line_feed};
ghost use Rattle.toml_edit_model.specs.Tree.{shown_side};
ghost use Rattle.toml_edit_repr.specs.Modes.{mode_of};
ghost use Rattle.toml_edit_fits.specs.TriviaTests as tests;

use toml_edit_repr::{Mode, RawString};
use toml_edit_token::run::{is_blank, is_visible};

/// Returns the text of a side. One that is unset, or a span, prints as its default, and so suits
/// its place as the empty text does.
fn text_of(side: Option<&RawString>) -> &str
    ensures { (mode : ModelMode)
        → shown_text mode result.now ≡ shown_side mode [] (option_copied side.entry) }
{
    match side {
        Some(raw) => raw.as_str().unwrap_or(""),
        None => "",
    }
}

/// Returns the text of a line's suffix without a CR at its end, which is that of the line's
/// newline. In the plain mode it does not print there either.
fn line_text(text: &str) -> &str
    ensures { result.now ≡ line_end exact text.now }
{
    text.strip_suffix('\r').unwrap_or(text)
}

/// Returns `true` if the text has a line feed (LF).
fn has_feed(text: &str) -> bool
    ensures { result ≡ has_byte line_feed text.now }
{
    text.as_bytes().contains(&b'\n')
}

/// Returns `true` if a CR before these bytes is skipped.
fn passes_return(mode: Mode, after: &[u8]) -> bool
    ensures { result ≡ tests.passes_return (mode_of mode) after.now }
{
    match mode {
        Mode::Plain => true,
        Mode::Exact => matches!(after, [b'\n', ..]),
    }
}

/// Returns whether a comment is open after one more byte of trivia, or `None` if the byte may not
/// be there.
fn after_byte(is_open: bool, byte: u8) -> Option<bool>
    ensures { result ≡ tests.open_after is_open (byte ∷ []) }
{
    if byte == b'\n' {
        Some(false)
    } else if is_open {
        if is_visible(byte) { Some(true) } else { None }
    } else if byte == b'#' {
        Some(true)
    } else if is_blank(byte) {
        Some(false)
    } else {
        None
    }
}

/// Returns whether a comment is open at the end of the trivia, or `None` if the text is not
/// trivia.
fn open_after(mode: Mode, text: &str) -> Option<bool>
    ensures { result ≡ tests.open_after false (shown_text (mode_of mode) text.now) }
{
    let mut is_open = false;
    let mut rest = text.as_bytes();
    'bytes: while let [byte, after @ ..] = rest {
        if *byte != b'\r' {
            is_open = after_byte(is_open, *byte)?;
        } else if !passes_return(mode, after) {
            return None;
        }
        rest = after;
    }
    Some(is_open)
}

/// Returns `true` if the side has a newline. Its LF prints in each mode.
pub(crate) fn has_newline(side: Option<&RawString>) -> bool
    ensures { (mode : ModelMode)
        → result ≡ has_byte line_feed (shown_side mode [] (option_copied side.entry)) }
{
    has_feed(text_of(side))
}

/// Returns `true` if the side is whitespace alone.
pub(crate) fn is_white(mode: Mode, side: Option<&RawString>) -> bool
    ensures { result ≡ tests.is_white (shown_side (mode_of mode) [] (option_copied side.entry)) }
{
    let bytes = text_of(side).as_bytes();
    'bytes: for byte in bytes {
        let is_shown = *byte != b'\r' || mode == Mode::Exact;
        if is_shown && !is_blank(*byte) {
            return false;
        }
    }
    true
}

/// Returns `true` if the side is whitespace, newlines, and comments that each end in a newline.
pub(crate) fn is_whole(mode: Mode, side: Option<&RawString>) -> bool
    ensures { result ≡ tests.is_whole (shown_side (mode_of mode) [] (option_copied side.entry)) }
{
    matches!(open_after(mode, text_of(side)), Some(false))
}

/// Returns `true` if the side is whitespace, newlines, and comments that each end in a newline,
/// except perhaps one at the end.
pub(crate) fn is_final(mode: Mode, side: Option<&RawString>) -> bool
    ensures { result ≡ tests.is_final (shown_side (mode_of mode) [] (option_copied side.entry)) }
{
    open_after(mode, text_of(side)).is_some()
}

/// Returns `true` if the side is whitespace, and then perhaps a comment. In the exact mode it may
/// end in the CR of the line's newline.
pub(crate) fn ends_line(mode: Mode, side: Option<&RawString>) -> bool
    ensures { result ≡ tests.ends_line (mode_of mode)
        (shown_side (mode_of mode) [] (option_copied side.entry)) }
{
    let text = line_text(text_of(side));
    !has_feed(text) && open_after(mode, text).is_some()
}
