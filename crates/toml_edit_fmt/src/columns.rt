//! Columns of a terminal.
ghost use Rattle.std.specs.Prelude.{◌≡◌, ◌+◌, ℕ};
ghost use Rattle.toml_edit_fmt_laws.specs.Laying.{columns, last_line};
ghost use Rattle.toml_edit_fmt_laws.specs.Formatted.{is_over};
ghost use Rattle.toml_edit_fmt.specs.ValueBits.{counted};

use memchr::memrchr;
use unicode_width::UnicodeWidthStr;

/// Returns a text after its last newline.
pub(crate) fn last_line(text: &str) -> &str
    ensures { result.now ≡ last_line text.now }
{
    match memrchr(b'\n', text.as_bytes()) {
        Some(at) => text.split_at(at + 1).1,
        None => text,
    }
}

/// Returns the number of columns that a text takes.
pub(crate) fn columns(text: &str) -> usize
    ensures { result ≡ columns text.now }
{
    text.width()
}

/// Returns so many columns more, or `None` if they are too many to count.
pub(crate) fn plus(columns: Option<usize>, more: usize) -> Option<usize>
    ensures { (n : ℕ) → columns ≡ counted n → result ≡ counted (n + more) }
{
    match columns {
        Some(count) => count.checked_add(more),
        None => None,
    }
}

/// Returns `true` if there are more columns than a line may have.
pub(crate) fn is_over(width: Option<usize>, columns: Option<usize>) -> bool
    ensures { (n : ℕ) → columns ≡ counted n → result ≡ is_over width n }
{
    match (width, columns) {
        (None, _) => false,
        (Some(_), None) => true,
        (Some(most), Some(count)) => most < count,
    }
}
