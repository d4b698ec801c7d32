//! The difference of two texts by lines, in the unified form that `patch` takes.
#![tactic(auto)]

ghost use Rattle.std.specs.Prelude.{IfOk, string_bytes};
ghost use Rattle.line_diff.specs.Diff.{IsDiff};

mod hunks;
mod lines;
mod pairs;
mod script;

use hunks::{write_heading, write_hunks};
use lines::lines_of;
use script::script_of;
use std::alloc::{AllocError, Global};

/// Returns the unified diff of two texts under a file's name, with three lines of context. It is
/// empty if the texts are equal.
///
/// The name is written as it is, and before a tab if it has a space. `patch` takes no name with a tab
/// or a line feed, or one that begins with a quotation mark: it has to be told the file.
///
/// # Errors
///
/// Returns an error if memory runs out.
pub fn unified_diff(alloc: Global, name: &str, old: &str, new: &str) -> Result<String, AllocError>
    ensures { IfOk result (λ s. IsDiff name.now old.now new.now (string_bytes s)) }
{
    let mut out = String::new(alloc);
    if old == new {
        return Ok(out);
    }
    let (olds, news) = (lines_of(alloc, old)?, lines_of(alloc, new)?);
    let script = script_of(alloc, olds.as_slice(), news.as_slice())?;
    write_heading(&mut out, name)?;
    write_hunks(&mut out, script.as_slice())?;
    Ok(out)
}

#[cfg(test)]
mod tests {
    use super::*;
    use std::test::Fail;

    #[test]
    fn tells(rt: HostRuntime) -> Result<(), Fail> {
        let diff = unified_diff(rt.alloc(), "a.toml", "a\nb\nc", "a\nB\nc")?;
        assert_eq!(rt;
            diff.as_str(),
            "--- a.toml\n+++ a.toml\n@@ -1,3 +1,3 @@\n a\n-b\n+B\n c\n\\ No newline at end of file\n"
        );
        Ok(())
    }
}
