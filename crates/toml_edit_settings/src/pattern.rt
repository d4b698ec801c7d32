//! Patterns of paths.
ghost use Rattle.std.specs.Prelude.{◌≡◌, ◌+◌, ◌<◌, ◌==◌, ◌&&◌, ◌||◌, IfOk, drop, if◌then◌else◌, length, not};
ghost use Rattle.toml_edit_model.specs.Excerpt.{is_continuation};
ghost use Rattle.toml_edit_settings.specs.Patterns.{AreRests, Test, any_rest, begins_with_star, itself, matches, one_character, slash};

use std::alloc::Global;
use toml_edit::Mem;

/// Returns `true` if the path matches the pattern.
///
/// In a pattern `*` stands for any text without `/`, `**` for any text, `?` for one character but
/// `/`, and all else for itself. It takes time in the product of the lengths.
///
/// # Errors
///
/// Returns an `AllocError` if out of memory.
pub fn matches(alloc: Global, pattern: &str, path: &str) -> Mem<bool>
    ensures { IfOk result (λ yes. yes ≡ matches pattern.now path.now) }
{
    let pattern = pattern.as_bytes();
    let path = path.as_bytes();
    // Whether what is left of the path at each byte matches what is left of the pattern.
    let mut row = vec![in alloc; false; path.len() + 1]?;
    row[path.len()] = true;
    let mut at = pattern.len();
    while at > 0 {
        at -= 1;
        put_at(&mut row, path, pattern, at);
    }
    Ok(row[0])
}

/// Puts what the pattern has at this byte before what matches.
fn put_at(row: &mut [bool], path: &[u8], pattern: &[u8], at: usize)
    requires row { length row.old ≡ length path.now + 1 }
    requires at { at < length pattern.now }
    ensures { AreRests (matches (drop (at + 1) pattern.now)) path.now row.old
        → AreRests (matches (drop at pattern.now)) path.now row.new }
{
    match pattern[at] {
        b'*' => put_any(row, path, is_star(pattern, at + 1)),
        b'?' => put_one(row, path),
        byte => put_itself(row, path, byte),
    }
}

/// Returns `true` if a star is at this byte.
fn is_star(pattern: &[u8], at: usize) -> bool
    ensures { result ≡ begins_with_star (drop at pattern.now) }
{
    at < pattern.len() && pattern[at] == b'*'
}

/// Puts some text before what matches, without `/` unless it crosses that.
fn put_any(row: &mut [bool], path: &[u8], crosses: bool)
    requires { length row.old ≡ length path.now + 1 }
    ensures { (is_such : Test) → AreRests is_such path.now row.old
        → AreRests (any_rest crosses is_such) path.now row.new }
{
    let mut at = path.len();
    while at > 0 {
        at -= 1;
        row[at] = any_at(crosses, row[at], path[at], row[at + 1]);
    }
}

/// Returns `true` if some text and what matches are at a byte: where it matches here, or at the next
/// byte.
fn any_at(crosses: bool, here: bool, byte: u8, next: bool) -> bool
    ensures { result ≡ here || ((crosses || not (byte == slash)) && next) }
{
    here || (crosses || byte != b'/') && next
}

/// Puts one character before what matches.
fn put_one(row: &mut [bool], path: &[u8])
    requires { length row.old ≡ length path.now + 1 }
    ensures { (is_such : Test) → AreRests is_such path.now row.old
        → AreRests (one_character is_such) path.now row.new }
{
    let mut at = path.len();
    // Whether what is after the character that the byte is in matches.
    let mut after = row[at];
    row[at] = false;
    while at > 0 {
        at -= 1;
        let here = row[at];
        row[at] = one_at(path[at], after);
        after = after_at(path[at], here, after);
    }
}

/// Returns `true` if one character and what matches are at a byte.
fn one_at(byte: u8, after: bool) -> bool
    ensures { result ≡ not (byte == slash) && after }
{
    byte != b'/' && after
}

/// Returns whether what is after the character that the byte before is in matches.
fn after_at(byte: u8, here: bool, after: bool) -> bool
    ensures { result ≡ if is_continuation byte then after else here }
{
    if is_continuation(byte) { after } else { here }
}

/// Returns `true` if no character begins with the byte.
fn is_continuation(byte: u8) -> bool
    ensures { result ≡ is_continuation byte }
{
    byte >= 0x80 && byte < 0xC0
}

/// Puts a byte before what matches.
fn put_itself(row: &mut [bool], path: &[u8], byte: u8)
    requires { length row.old ≡ length path.now + 1 }
    ensures { (is_such : Test) → AreRests is_such path.now row.old
        → AreRests (itself byte is_such) path.now row.new }
{
    'bytes: for (at, here) in path.iter().enumerate() {
        row[at] = itself_at(*here, byte, row[at + 1]);
    }
    row[path.len()] = false;
}

/// Returns `true` if this byte and what matches are at a byte.
fn itself_at(here: u8, byte: u8, next: bool) -> bool
    ensures { result ≡ (here == byte) && next }
{
    here == byte && next
}
