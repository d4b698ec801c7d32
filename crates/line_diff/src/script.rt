//! The script that makes one text of another.
ghost use Rattle.std.specs.Prelude.{◌≡◌, ◌++◌, ◌<◌, IfOk, IsTrue, OnOk, length, slice_get};
ghost use Rattle.line_diff.specs.Diff.{new_lines, old_lines};
ghost use Rattle.line_diff.specs.Steps.{lines_of, marked, texts};
ghost use Rattle.line_diff.specs.declared.script.Kind.TheVariants as kinds;

use crate::pairs::pairs_of;
use std::alloc::{AllocError, Global};

/// What becomes of a line.
#[derive(Clone, Copy)]
pub enum Kind {
    Kept,
    Removed,
    Added,
}

/// A line with what becomes of it.
#[derive(Clone, Copy)]
pub struct Step<'t> {
    pub kind: Kind,
    pub line: &'t str,
}

/// Returns a script that makes the new lines of the old ones.
pub fn script_of<'t>(
    alloc: Global,
    olds: &[&'t str],
    news: &[&'t str],
) -> Result<Vec<Step<'t>>, AllocError>
    ensures olds { IfOk result (λ steps. old_lines (lines_of steps.items) ≡ texts olds.now) }
    ensures news { IfOk result (λ steps. new_lines (lines_of steps.items) ≡ texts news.now) }
{
    let pairs = pairs_of(alloc, olds, news)?;
    let mut steps = Vec::new(alloc);
    let (mut old, mut new) = (0, 0);
    'pairs: for pair in pairs.as_slice() {
        let (next_old, next_new) = *pair;
        if old <= next_old && new <= next_new && are_equal(olds, news, next_old, next_new) {
            push_change(&mut steps, &olds[old..next_old], &news[new..next_new])?;
            push_all(&mut steps, Kind::Kept, &olds[next_old..next_old + 1])?;
            old = next_old + 1;
            new = next_new + 1;
        }
    }
    push_change(&mut steps, &olds[old..olds.len()], &news[new..news.len()])?;
    Ok(steps)
}

/// Returns `true` if these places have the same line.
fn are_equal(olds: &[&str], news: &[&str], old: usize, new: usize) -> bool
    ensures old { IsTrue result → old < length olds.now }
    ensures new { IsTrue result → new < length news.now }
    ensures same { IsTrue result
        → slice_get (texts olds.now) old ≡ slice_get (texts news.now) new }
{
    match (olds.get(old), news.get(new)) {
        (Some(line), Some(other)) => line == other,
        _ => false,
    }
}

/// Removes and adds lines.
fn push_change<'t>(
    steps: &mut Vec<Step<'t>>,
    olds: &[&'t str],
    news: &[&'t str],
) -> Result<(), AllocError>
    ensures { OnOk result (lines_of steps.new.items ≡ lines_of steps.old.items
        ++ (marked kinds.Removed (texts olds.now) ++ marked kinds.Added (texts news.now))) }
{
    push_all(steps, Kind::Removed, olds)?;
    push_all(steps, Kind::Added, news)
}

fn push_all<'t>(steps: &mut Vec<Step<'t>>, kind: Kind, lines: &[&'t str]) -> Result<(), AllocError>
    ensures { OnOk result
        (lines_of steps.new.items ≡ lines_of steps.old.items ++ marked kind (texts lines.now)) }
{
    'lines: for line in lines {
        steps.push(Step { kind, line: *line })?;
    }
    Ok(())
}
