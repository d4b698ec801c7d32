//! Reporting by lines and columns, and what does not fit.
ghost use Rattle.std.specs.Prelude.{◌≡◌, IfOk, option_map, slice_get, string_bytes};
ghost use Rattle.std.specs.Option.{option_copied};
ghost use Rattle.toml_edit.specs.DocumentView.{mode_owned, source, tree_owned, tree_read};
ghost use Rattle.toml_edit.specs.model.Iterating.{filled_pairs};
ghost use Rattle.toml_edit.specs.model.Lists.{slot_list};
ghost use Rattle.toml_edit.specs.fits.Misfits.{misfits};
ghost use Rattle.example_tasks.specs.Findings.{finding, findings};
ghost use Rattle.example_tasks.specs.Misfit.{report_of};

use std::alloc::Global;
use std::ops::Range;
use toml_edit::{Document, DocumentMut, Mem, line_column};

/// Returns a line for each key of the root that has an empty string, with the line and the column
/// of the string.
pub fn empty_strings(alloc: Global, document: &Document<&str>) -> Mem<String>
    ensures { IfOk result (λ s. string_bytes s
        ≡ findings (source document.now)
        (filled_pairs (slot_list (tree_read document.now).slots))) }
{
    let mut report = String::new(alloc);
    for (key, item) in document.as_table().iter() {
        let line = finding(alloc, document.raw(), key, item.as_str(), item.span())?;
        report.push_str(line.as_str())?;
    }
    Ok(report)
}

/// Returns the line of a key with an empty string, or an empty text for any other.
fn finding(
    alloc: Global,
    source: &str,
    key: &str,
    text: Option<&str>,
    span: Option<Range<usize>>,
) -> Mem<String>
    ensures { IfOk result (λ s. string_bytes s
        ≡ finding source.now key.now (option_copied text.entry) span) }
{
    match (text, span) {
        (Some(""), Some(span)) => {
            let (line, column) = line_column(source, span.start);
            format!(in alloc; "{line}:{column}: {key} is empty\n")
        }
        _ => Ok(String::new(alloc)),
    }
}

/// Returns the path of the first place that doesn't fit and the rule that is broken there, as
/// `bin: 0: name: whitespace or comment out of place`, or `None` if the document fits.
pub fn misfit(alloc: Global, document: &DocumentMut) -> Mem<Option<String>>
    ensures { IfOk result (λ report. option_map (λ s. string_bytes s) report
        ≡ option_map report_of (slice_get
        (misfits (mode_owned document.now) (tree_owned document.now)) 0)) }
{
    let Some(misfit) = document.first_misfit(alloc)? else {
        return Ok(None);
    };
    let mut report = String::new(alloc);
    for key in misfit.path() {
        report.push_str(key.get())?;
        report.push_str(": ")?;
    }
    let rule = misfit.rule();
    Ok(Some(format!(in alloc; "{report}{rule}")?))
}
