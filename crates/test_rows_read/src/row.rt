//! A row: its questions, and the answers that it wants.
use crate::answer::{self, Answer};
use serde_json::{Map, Value as Json};

/// A program that tries rows of some kinds. A row is of a kind if it has a member of this name,
/// whose value is the subject.
pub trait Program {
    /// Returns `true` if the program tries rows of this kind.
    fn knows(kind: &str) -> bool;

    /// Answers a question of a row.
    fn answer(row: Row<'_>, out: &mut Answer);
}

/// A row, its kind, and one of its questions.
#[derive(Clone, Copy)]
pub struct Row<'a> {
    pub kind: &'a str,
    pub json: &'a Json,
    pub question: &'a str,
}

impl<'a> Row<'a> {
    /// Returns the subject of the row.
    pub fn subject(self) -> Option<&'a Json> {
        self.json.get(self.kind)
    }

    /// Returns the subject of the row, if that is a text.
    pub fn text(self) -> &'a str {
        text_of(self.json.get(self.kind))
    }

    /// Returns the steps that come before the question.
    pub fn steps(self) -> &'a [Json] {
        match self.question {
            "reads" | "into_item" | "owned_into_item" | "as_item" => items_of(
                self.json.get(self.question),
            ),
            _ => items_of(self.json.get("steps")),
        }
    }
}

/// Returns the text, or the empty one if there is none.
pub fn text_of(found: Option<&Json>) -> &str {
    match found {
        Some(json) => json.as_str().unwrap_or(""),
        None => "",
    }
}

/// Returns the items of a list, or none.
pub fn items_of(found: Option<&Json>) -> &[Json] {
    match found {
        Some(Json::Array(items)) => items.as_slice(),
        _ => &[],
    }
}

/// Returns `true` if the row of the line holds. If not, writes what came instead.
pub fn holds<P: Program>(line: &str, came: &mut Answer) -> bool {
    match Json::from_str(came.alloc, line) {
        Ok(json) => json_holds::<P>(line, &json, came),
        Err(error) => {
            if error.is_memory() {
                came.refuse();
            }
            came.text("this is not JSON");
            false
        }
    }
}

fn json_holds<P: Program>(line: &str, json: &Json, came: &mut Answer) -> bool {
    let Some(members) = json.as_object() else {
        came.text("no row");
        return false;
    };
    if colons(line) != held(members) {
        came.text("a member is doubled");
        return false;
    }
    match kind::<P>(members) {
        Some(kind) => row_holds::<P>(kind, json, members, came),
        None => {
            came.text("no kind of row");
            false
        }
    }
}

/// Returns the number of colons of the line outside of its texts: one for each member that is
/// written.
fn colons(line: &str) -> usize {
    let mut count = 0_usize;
    let mut is_text = false;
    let mut is_escaped = false;
    for byte in line.as_bytes() {
        if is_escaped {
            is_escaped = false;
        } else if *byte == b'\\' {
            is_escaped = true;
        } else if *byte == b'"' {
            is_text = !is_text;
        } else if *byte == b':' && !is_text {
            count = count.saturating_add(1);
        }
    }
    count
}

/// Returns the number of members of the row, and of the objects in it.
fn held(members: &Map<String, Json>) -> usize {
    let mut count = members.len();
    for (_, inner) in members {
        if let Json::Object(inner) = inner {
            count = count.saturating_add(inner.len());
        }
    }
    count
}

fn kind<P: Program>(members: &Map<String, Json>) -> Option<&str> {
    for (member, _) in members {
        if P::knows(member.as_str()) {
            return Some(member.as_str());
        }
    }
    None
}

fn row_holds<P: Program>(
    kind: &str,
    json: &Json,
    members: &Map<String, Json>,
    came: &mut Answer,
) -> bool {
    let mut is_asked = false;
    for (member, wanted) in members {
        let question = member.as_str();
        if is_question(kind, question) {
            is_asked = true;
            if !is_answered::<P>(
                Row {
                    kind,
                    json,
                    question,
                },
                wanted,
                came,
            ) {
                return false;
            }
        }
    }
    is_asked
}

/// Returns `true` for a member that is a question: all but the one that names the kind, and the
/// input of a run.
fn is_question(kind: &str, member: &str) -> bool {
    member != kind && (kind != "run" || (member != "input" && member != "bytes"))
}

/// Returns `true` if the question gets the wanted answer. The answer stays in `came`.
fn is_answered<P: Program>(row: Row<'_>, wanted: &Json, came: &mut Answer) -> bool {
    came.clear();
    P::answer(row, came);
    if came.is_refused() {
        came.is_to_begin(beginning_of(wanted));
        return false;
    }
    if is_wanted(came.as_str(), wanted) {
        return true;
    }
    came.text(" (");
    came.text(row.question);
    came.text(")");
    false
}

/// Returns the text that an answer begins for which memory ran out. Of steps this is judged at
/// each, and of a number it is nothing.
fn beginning_of(wanted: &Json) -> &str {
    match wanted {
        Json::String(text) => text.as_str(),
        Json::Bool(holds) => answer::truth(*holds),
        _ => "",
    }
}

/// Returns `true` if this is the wanted answer. For steps that is the empty one.
fn is_wanted(came: &str, wanted: &Json) -> bool {
    match wanted {
        Json::String(text) => came == text.as_str(),
        Json::Bool(holds) => came == answer::truth(*holds),
        Json::Array(_) => came.is_empty(),
        _ => match (came.parse::<u64>(), wanted.as_u64()) {
            (Ok(came), Some(wanted)) => came == wanted,
            _ => false,
        },
    }
}
