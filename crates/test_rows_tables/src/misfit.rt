//! The first place where a document doesn't fit.
use test_rows_read::Answer;
use toml_edit::{Mem, Misfit};

/// Writes the path of the place and the rule that is broken there, or that there is none.
pub fn tell(found: Mem<Option<Misfit>>, out: &mut Answer) {
    match found {
        Ok(Some(misfit)) => tell_place(misfit, out),
        Ok(None) => out.text("none"),
        Err(_) => out.refuse(),
    }
}

/// Writes the keys of the path, with dots between them, and the rule.
fn tell_place(misfit: Misfit, out: &mut Answer) {
    let rule = misfit.rule();
    let path = misfit.into_path();
    let mut is_first = true;
    for key in path.as_slice() {
        if !is_first {
            out.text(".");
        }
        is_first = false;
        out.shown(key);
    }
    out.text(": ");
    out.shown(&rule);
}
