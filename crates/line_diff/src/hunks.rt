//! The hunks of a script.
ghost use Rattle.std.specs.Prelude.{◌≡◌, ◌==◌, ◌++◌, ◌+◌, ◌<◌, ◌≤◌, ℕ, List, MatchOption, OnOk, length, string_bytes};
ghost use Rattle.std.specs.Bool.{OnFalse, OnTrue};
ghost use Rattle.std.specs.List.{flat_map, list_any};
ghost use Rattle.line_diff.specs.Diff.{AreHunks, Hunk, IsChange, IsShown, end_of_name, heading, hunk_after, hunk_text, line_text, mark, name_text, new_lines, old_lines, range};
ghost use Rattle.line_diff.specs.Steps.{line_of, lines_of};

use crate::script::{Kind, Step};
use std::alloc::AllocError;

/// How many kept lines are shown around a change.
const CONTEXT: usize = 3;

/// Writes the lines before the hunks.
pub fn write_heading(out: &mut String, name: &str) -> Result<(), AllocError>
    ensures { OnOk result (string_bytes out.new ≡ string_bytes out.old ++ heading name.now) }
{
    out.push_str("--- ")?;
    write_name(out, name)?;
    out.push_str("\n+++ ")?;
    write_name(out, name)?;
    out.push_str("\n")
}

/// Writes a name, which ends at a tab if it has a space.
fn write_name(out: &mut String, name: &str) -> Result<(), AllocError>
    ensures { OnOk result (string_bytes out.new ≡ string_bytes out.old ++ name_text name.now) }
{
    out.push_str(name)?;
    out.push_str(end_of_name(name))
}

fn end_of_name(name: &str) -> &'static str
    ensures { result.now ≡ end_of_name name.now }
{
    if has_space(name) { "\t" } else { "" }
}

fn has_space(name: &str) -> bool
    ensures { result ≡ list_any (λ b. b == 32) name.now }
{
    name.as_bytes().iter().any(|byte| *byte == b' ')
}

/// Writes the hunks of a script.
pub fn write_hunks(out: &mut String, script: &[Step<'_>]) -> Result<(), AllocError>
    ensures { OnOk result ((hunks : List Hunk) × AreHunks (lines_of script.now) 0 hunks
        × (string_bytes out.new ≡ string_bytes out.old
        ++ flat_map (hunk_text (lines_of script.now)) hunks)) }
{
    let (mut at, mut olds, mut news) = (0, 0, 0);
    'hunks: while let Some(first) = next_change(script, at) {
        let from = first.saturating_sub(CONTEXT);
        let to = end_of(script, first);
        let gap = &script[at..from];
        let hunk = &script[from..to];
        olds += old_count(gap);
        news += new_count(gap);
        write_hunk(out, olds, news, hunk)?;
        olds += old_count(hunk);
        news += new_count(hunk);
        at = to;
    }
    Ok(())
}

/// Returns the place of the next line that is a change.
fn next_change(script: &[Step<'_>], at: usize) -> Option<usize>
    ensures { MatchOption result
        ((other : ℕ) → at ≤ other → IsChange (lines_of script.now) other → ⊥)
        (λ place. (at ≤ place) × IsChange (lines_of script.now) place
        × ((other : ℕ) → at ≤ other → other < place → IsChange (lines_of script.now) other → ⊥)) }
{
    'steps: for place in at..script.len() {
        if is_change(script, place) {
            return Some(place);
        }
    }
    None
}

fn is_change(script: &[Step<'_>], place: usize) -> bool
    ensures is { OnTrue result (IsChange (lines_of script.now) place) }
    ensures none { OnFalse result (IsChange (lines_of script.now) place → ⊥) }
{
    match script.get(place) {
        Some(step) => !matches!(step.kind, Kind::Kept),
        None => false,
    }
}

/// Returns where the hunk ends that has this change.
fn end_of(script: &[Step<'_>], first: usize) -> usize
    requires { IsChange (lines_of script.now) first }
    ensures after { first < result }
    ensures within { result ≤ length script.now }
    ensures shown { (at : ℕ) → first ≤ at → at < result → IsShown (lines_of script.now) at }
    ensures ended { IsShown (lines_of script.now) result → ⊥ }
{
    let mut last = first;
    'steps: for place in first + 1..script.len() {
        if place - last > 2 * CONTEXT + 1 {
            break 'steps;
        }
        if is_change(script, place) {
            last = place;
        }
    }
    script.len().min(last + CONTEXT + 1)
}

/// Counts the lines that are kept or removed.
fn old_count(steps: &[Step<'_>]) -> usize
    ensures is { result ≡ length (old_lines (lines_of steps.now)) }
    ensures within { result ≤ length steps.now }
{
    let kept_or_removed = |step: &&Step<'_>| !matches!(step.kind, Kind::Added);
    steps.iter().filter(kept_or_removed).count()
}

/// Counts the lines that are kept or added.
fn new_count(steps: &[Step<'_>]) -> usize
    ensures is { result ≡ length (new_lines (lines_of steps.now)) }
    ensures within { result ≤ length steps.now }
{
    let kept_or_added = |step: &&Step<'_>| !matches!(step.kind, Kind::Removed);
    steps.iter().filter(kept_or_added).count()
}

/// Writes a hunk after so many lines of the old and of the new text.
fn write_hunk(
    out: &mut String,
    olds: usize,
    news: usize,
    hunk: &[Step<'_>],
) -> Result<(), AllocError>
    requires olds { olds + length hunk.now ≤ usize.MAX }
    requires news { news + length hunk.now ≤ usize.MAX }
    ensures { OnOk result (string_bytes out.new ≡ string_bytes out.old
        ++ hunk_after olds news (lines_of hunk.now)) }
{
    out.push_str("@@ -")?;
    write_range(out, olds, old_count(hunk))?;
    out.push_str(" +")?;
    write_range(out, news, new_count(hunk))?;
    out.push_str(" @@\n")?;
    'steps: for step in hunk {
        write_line(out, *step)?;
    }
    Ok(())
}

/// Writes the number of the first line and how many there are. With no line, it is the number of
/// the line before.
fn write_range(out: &mut String, before: usize, count: usize) -> Result<(), AllocError>
    requires { before + count ≤ usize.MAX }
    ensures { OnOk result (string_bytes out.new ≡ string_bytes out.old ++ range before count) }
{
    let first = if count == 0 { before } else { before + 1 };
    write!(out, "{first},{count}")
}

fn write_line(out: &mut String, step: Step<'_>) -> Result<(), AllocError>
    ensures { OnOk result
        (string_bytes out.new ≡ string_bytes out.old ++ line_text (line_of step.entry)) }
{
    let Step { kind, line } = step;
    out.push_str(mark_of(kind))?;
    out.push_str(line)?;
    if !line.ends_with("\n") {
        out.push_str("\n\\ No newline at end of file\n")?;
    }
    Ok(())
}

fn mark_of(kind: Kind) -> &'static str
    ensures { result.now ≡ mark kind }
{
    match kind {
        Kind::Kept => " ",
        Kind::Removed => "-",
        Kind::Added => "+",
    }
}
