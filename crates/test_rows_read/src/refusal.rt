//! Questions on a refusal.
use crate::answer::Answer;
use toml_edit_error::{ParseFault, TomlError};

/// Answers a question on a text that was refused.
pub fn answer(fault: &ParseFault, question: &str, out: &mut Answer) {
    match fault {
        ParseFault::Memory => out.refuse(),
        ParseFault::Toml(_) if question == "fault" => out.shown(fault),
        ParseFault::Toml(error) => error_answer(error, question, out),
    }
}

fn error_answer(error: &TomlError, question: &str, out: &mut Answer) {
    match question {
        "is_refused" => out.truth(true),
        "refused" => out.text(error.message()),
        "at" | "from_str_at" => out.span(error.span()),
        "line" => out.shown_or_none(error.line().as_ref()),
        "column" => out.shown_or_none(error.column().as_ref()),
        "error" | "from_str_error" => out.shown(error),
        "error_clone" => out.made(error.clone(out.alloc)),
        _ => {
            out.text("refused: ");
            out.text(error.message());
        }
    }
}

/// Answers a question if nothing was made, for a reason that is no `TomlError`.
pub fn none(question: &str, out: &mut Answer) {
    if question == "is_refused" {
        out.truth(true);
    } else {
        out.text("refused");
    }
}

/// Answers a question on refusals if nothing was refused.
pub fn of_accepted(question: &str, out: &mut Answer) {
    match question {
        "is_refused" => out.truth(false),
        "refused"
        | "at"
        | "line"
        | "column"
        | "error"
        | "error_clone"
        | "fault"
        | "from_str_at"
        | "from_str_error" => out.text("not refused"),
        _ => out.no_such(question),
    }
}
