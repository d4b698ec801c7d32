//! Judging what a call leaves that ran out of memory.
use crate::answer::Answer;
use crate::row;
use serde_json::Value as Json;
use std::alloc::Global;
use std::fmt::Debug;
use toml_edit_repr::Mem;

/// Returns all that can be seen of a subject: what `Debug` writes of it.
pub fn seen<S: Debug>(subject: &S, alloc: Global) -> Mem<String> {
    format!(in alloc; "{subject:?}")
}

/// Reports a step whose call ran out of memory and did not leave the subject as it was, if there
/// was memory to see that.
///
/// A sort of a table and of the dotted tables inside may leave a permutation, and `extend` a
/// beginning of what it adds. Steps that make two calls are skipped.
pub fn judge(before: &str, after: Mem<String>, words: &[Json], out: &mut Answer) {
    match after {
        Ok(after) if !is_left(before, after.as_str(), words) => {
            out.wrong("a refused call has changed what it was asked of");
        }
        _ => {}
    }
}

fn is_left(before: &str, after: &str, words: &[Json]) -> bool {
    if has(words, "extend") {
        is_grown(before.as_bytes(), after.as_bytes())
    } else if has(words, "sort_values") || has(words, "sort_values_by") {
        is_permuted(before.as_bytes(), after.as_bytes())
    } else {
        before == after || is_of_two(words)
    }
}

/// Returns `true` if the step makes two changing calls, of which the second may run out of memory.
fn is_of_two(words: &[Json]) -> bool {
    has(words, "below") || has(words, "becomes") || has(words, "taken") || has(words, "its own")
}

fn has(words: &[Json], wanted: &str) -> bool {
    for word in words {
        if row::text_of(Some(word)) == wanted {
            return true;
        }
    }
    false
}

/// Returns `true` if the second is the first with something inserted at one place.
fn is_grown(before: &[u8], after: &[u8]) -> bool {
    let at = difference(before, after);
    match (before.get(at..), after.get(at..)) {
        (Some(rest), Some(grown)) => grown.ends_with(rest),
        _ => false,
    }
}

/// Returns the place of the first byte that differs, or the end of the first.
fn difference(before: &[u8], after: &[u8]) -> usize {
    for at in 0..before.len() {
        if before.get(at) != after.get(at) {
            return at;
        }
    }
    before.len()
}

/// Returns `true` if each byte is as often in the one as in the other.
fn is_permuted(before: &[u8], after: &[u8]) -> bool {
    for byte in 0..=255u8 {
        if count(before, byte) != count(after, byte) {
            return false;
        }
    }
    true
}

fn count(bytes: &[u8], wanted: u8) -> usize {
    let mut count = 0_usize;
    for byte in bytes {
        if *byte == wanted {
            count = count.saturating_add(1);
        }
    }
    count
}
