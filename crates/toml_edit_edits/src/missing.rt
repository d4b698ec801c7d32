//! Where a path leads to nothing.
ghost use Rattle.std.specs.Prelude.{◌≡◌, ◌≤◌, length};
ghost use Rattle.std.specs.Char.{is_ascii_digit};
ghost use Rattle.std.specs.List.{list_all};
ghost use Rattle.toml_edit_model.specs.Keys.{names};
ghost use Rattle.toml_edit_tree.specs.View.{item_view};
ghost use Rattle.toml_edit_edits.specs.Missing as missing;

use toml_edit::{Item, Key};

/// Returns how many keys of the path lead to an item, one after another.
pub(crate) fn keys_there(item: &Item, path: &[Key]) -> usize
    ensures there { result ≡ missing.keys_there (names path.now) (item_view item.now) }
    ensures within { result ≤ length path.now }
{
    let Some((_, rest)) = path.split_first() else {
        return 0;
    };
    match toml_edit_paths::get(item, &path[..1]) {
        Some(below) => keys_there(below, rest) + 1,
        None => 0,
    }
}

/// Returns `true` if a key after the first is a number.
pub(crate) fn is_numbered(path: &[Key]) -> bool
    ensures { result ≡ missing.is_numbered path.now }
{
    match path.split_first() {
        Some((_, more)) => has_number(more),
        None => false,
    }
}

/// Returns `true` if a key is a number.
fn has_number(path: &[Key]) -> bool
    ensures { result ≡ missing.has_number path.now }
{
    match path.split_first() {
        Some((key, more)) => is_number(key.get()) || has_number(more),
        None => false,
    }
}

/// Returns `true` if the text has decimal digits alone, and is not empty.
fn is_number(text: &str) -> bool
    ensures { result ≡ missing.is_number text.now }
{
    !text.is_empty() && are_digits(text.as_bytes())
}

/// Returns `true` if the bytes are decimal digits.
fn are_digits(digits: &[u8]) -> bool
    ensures { result ≡ list_all is_ascii_digit digits.now }
{
    'digits: for byte in digits {
        if !byte.is_ascii_digit() {
            return false;
        }
    }
    true
}
