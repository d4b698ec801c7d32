//! Questions on any value, and steps that change its decor.
use crate::answer::Answer;
use crate::steps::{Asks, behind, copied, word};
use crate::{date_time, list, scalar};
use serde_json::Value as Json;
use toml_edit_repr::{CommentFault, Comments, Decor, Mem, RawString};
use toml_edit_tree::Value;

/// Makes a step with the value. The answer to a call that changes it is empty.
pub fn change(value: &mut Value, words: &[Json], out: &mut Answer) {
    match word(words, 0) {
        "decor_mut" => change_decor(value.decor_mut(), behind(words, 1), out),
        "fmt" => scalar::forget_spelling(value, out),
        "set_trailing" | "set_trailing_comma" | "set_dotted" | "list_decor_mut" => {
            list::change(value, words, out);
        }
        _ => ask(value, words, out),
    }
}

/// Changes a decor.
pub fn change_decor(decor: &mut Decor, words: &[Json], out: &mut Answer) {
    let text = word(words, 1);
    match word(words, 0) {
        "set_prefix" => {
            if let Ok(raw) = out.given(RawString::from_text(out.alloc, text)) {
                decor.set_prefix(raw);
            }
        }
        "set_suffix" => {
            if let Ok(raw) = out.given(RawString::from_text(out.alloc, text)) {
                decor.set_suffix(raw);
            }
        }
        "clear" => decor.clear(),
        _ => change_comments(decor, words, out),
    }
}

/// Changes the comments of a decor, or answers a question on it.
fn change_comments(decor: &mut Decor, words: &[Json], out: &mut Answer) {
    let comment = word(words, 1);
    match word(words, 0) {
        "set_comment_after" if words.len() < 2 => {
            commented(decor.set_comment_after(out.alloc, None), out);
        }
        "set_comment_after" => commented(decor.set_comment_after(out.alloc, Some(comment)), out),
        "add_comment_before" => commented(decor.add_comment_before(out.alloc, comment), out),
        "remove_comments_before" => out.done(decor.remove_comments_before(out.alloc)),
        side => ask_decor(decor, side, out),
    }
}

/// Writes why the comment is refused, if it is. Notes it if memory ran out.
pub(crate) fn commented(changed: Result<(), CommentFault>, out: &mut Answer) {
    match changed {
        Ok(()) => {}
        Err(CommentFault::Text) => out.shown(&CommentFault::Text),
        Err(CommentFault::Memory) => out.refuse(),
    }
}

/// Answers a question on a side of a decor, or on its comments.
pub fn ask_decor(decor: &Decor, side: &str, out: &mut Answer) {
    match side {
        "prefix" => out.raw(decor.prefix()),
        "suffix" => out.raw(decor.suffix()),
        "comments_before" => comments(decor.comments_before(), out),
        "comment_after" => out.text_or_none(decor.comment_after()),
        "decor_clone" => decor_copied(decor.clone(out.alloc), out),
        "prefix_clone" => side_copied(decor.prefix(), out),
        _ => out.no_such(side),
    }
}

/// Writes both sides of a copy.
fn decor_copied(copy: Mem<Decor>, out: &mut Answer) {
    match copy {
        Ok(copy) => {
            out.raw(copy.prefix());
            out.text("|");
            out.raw(copy.suffix());
        }
        Err(_) => out.refuse(),
    }
}

/// Writes a copy of a side.
fn side_copied(side: Option<&RawString>, out: &mut Answer) {
    match side {
        Some(raw) => raw_copied(raw.clone(out.alloc), out),
        None => out.text("none"),
    }
}

fn raw_copied(copy: Mem<RawString>, out: &mut Answer) {
    match copy {
        Ok(copy) => out.raw(Some(&copy)),
        Err(_) => out.refuse(),
    }
}

/// Writes the comments in order.
fn comments(comments: Comments<'_>, out: &mut Answer) {
    for comment in comments {
        out.text("<");
        out.text(comment);
        out.text(">");
    }
}

/// Answers a question on a value, or on one inside it: `get` leads to a value of an array or of an
/// inline table.
pub fn ask(value: &Value, words: &[Json], out: &mut Answer) {
    match list::place(value, words) {
        Some((value, words)) => ask_here(value, words, out),
        None => out.text("none"),
    }
}

fn ask_here(value: &Value, words: &[Json], out: &mut Answer) {
    match word(words, 0) {
        "clone" => copied::<Plain, _>(value.clone(out.alloc), behind(words, 1), out),
        _ => ask_plain(value, words, out),
    }
}

/// Answers questions on copies of values and of keys.
pub struct Plain;

impl Asks<Value> for Plain {
    fn ask(copy: &Value, words: &[Json], out: &mut Answer) {
        ask_plain(copy, words, out);
    }
}

fn ask_plain(value: &Value, words: &[Json], out: &mut Answer) {
    match word(words, 0) {
        "decor" => ask_decor(value.decor(), word(words, 1), out),
        "span" => out.span(value.span()),
        "to_string" => out.shown(value),
        "type_name" => out.text(value.type_name()),
        "as_datetime" => date_time::ask(value.as_datetime(), behind(words, 1), out),
        _ => ask_more(value, words, out),
    }
}

fn ask_more(value: &Value, words: &[Json], out: &mut Answer) {
    let call = word(words, 0);
    match call {
        "as_repr" | "default_repr" | "display_repr" | "repr_span" | "repr_clone" | "scalar_clone" =>
            scalar::ask(value, call, out),
        "float_clone" => scalar::float_copied(value.as_float_text(), out),
        _ => {
            if !scalar::cast(value, call, out) {
                list::ask(value, words, out);
            }
        }
    }
}
