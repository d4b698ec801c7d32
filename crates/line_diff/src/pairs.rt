//! Lines of two texts that are likely to be one line. Nothing is promised of them: who takes a
//! pair compares its lines.

use std::alloc::{AllocError, Global};
use std::collections::HashMap;

/// Places of lines of the old and of the new text, in order.
pub type Pairs = Vec<(usize, usize)>;

/// Where a line stands.
#[derive(Clone, Copy)]
struct Seen {
    olds: usize,
    news: usize,
    /// The first place in the new text that is in no pair.
    next: Option<usize>,
}

/// Returns pairs of places, found in three passes: lines that each text has once, lines that a gap
/// between pairs has once, and then those that it has more often.
pub fn pairs_of(alloc: Global, olds: &[&str], news: &[&str]) -> Result<Pairs, AllocError> {
    let first = refined(alloc, olds, news, &[], true)?;
    let second = refined(alloc, olds, news, first.as_slice(), true)?;
    refined(alloc, olds, news, second.as_slice(), false)
}

/// Adds pairs from the gaps between these.
fn refined(
    alloc: Global,
    olds: &[&str],
    news: &[&str],
    pairs: &[(usize, usize)],
    once: bool,
) -> Result<Pairs, AllocError> {
    let mut all = Vec::new(alloc);
    let (mut old, mut new) = (0, 0);
    'pairs: for pair in pairs {
        let (next_old, next_new) = *pair;
        let gap = (part(olds, old, next_old), part(news, new, next_new));
        push_gap(alloc, &mut all, (old, new), gap, once)?;
        all.push(*pair)?;
        old = next_old.saturating_add(1);
        new = next_new.saturating_add(1);
    }
    let gap = (part(olds, old, olds.len()), part(news, new, news.len()));
    push_gap(alloc, &mut all, (old, new), gap, once)?;
    Ok(all)
}

fn part<'s, 't>(lines: &'s [&'t str], from: usize, to: usize) -> &'s [&'t str] {
    if from <= to && to <= lines.len() {
        &lines[from..to]
    } else {
        &[]
    }
}

/// Adds the pairs of a gap that begins at these places: equal lines at both its ends, and what
/// is found between them.
fn push_gap(
    alloc: Global,
    all: &mut Pairs,
    (old, new): (usize, usize),
    (olds, news): (&[&str], &[&str]),
    once: bool,
) -> Result<(), AllocError> {
    let front = equal_front(olds, news);
    push_run(all, old, new, front)?;
    let (olds, news) = (part(olds, front, olds.len()), part(news, front, news.len()));
    let (old, new) = (old.saturating_add(front), new.saturating_add(front));
    let back = equal_back(olds, news);
    let (old_end, new_end) = (
        olds.len().saturating_sub(back),
        news.len().saturating_sub(back),
    );
    let found = found_in(alloc, part(olds, 0, old_end), part(news, 0, new_end), once)?;
    'found: for pair in found.as_slice() {
        let (in_olds, in_news) = *pair;
        all.push((old.saturating_add(in_olds), new.saturating_add(in_news)))?;
    }
    push_run(
        all,
        old.saturating_add(old_end),
        new.saturating_add(new_end),
        back,
    )
}

/// Returns the number of lines at the front that are equal.
fn equal_front(olds: &[&str], news: &[&str]) -> usize {
    let pairs = olds.iter().zip(news);
    pairs.take_while(|(old, new)| old == new).count()
}

/// Returns the number of lines at the end that are equal.
fn equal_back(olds: &[&str], news: &[&str]) -> usize {
    let pairs = olds.iter().rev().zip(news.iter().rev());
    pairs.take_while(|(old, new)| old == new).count()
}

fn push_run(all: &mut Pairs, old: usize, new: usize, count: usize) -> Result<(), AllocError> {
    'run: for at in 0..count {
        all.push((old.saturating_add(at), new.saturating_add(at)))?;
    }
    Ok(())
}

/// Returns pairs of equal lines, by `once` of those that both texts have once.
fn found_in(alloc: Global, olds: &[&str], news: &[&str], once: bool) -> Result<Pairs, AllocError> {
    let mut seen: HashMap<&str, Seen> = HashMap::new(alloc);
    let mut later = vec![in alloc; None; news.len()]?;
    'news: for (place, line) in news.iter().enumerate().rev() {
        let new = Seen {
            olds: 0,
            news: 0,
            next: None,
        };
        let seen = seen.entry(*line)?.or_insert(new);
        seen.news = seen.news.saturating_add(1);
        if let Some(later) = later.get_mut(place) {
            *later = seen.next;
        }
        seen.next = Some(place);
    }
    'olds: for line in olds {
        if let Some(seen) = seen.get_mut(*line) {
            seen.olds = seen.olds.saturating_add(1);
        }
    }
    let mut pairs = Vec::new(alloc);
    'pairs: for (place, line) in olds.iter().enumerate() {
        let Some(seen) = seen.get_mut(*line) else {
            continue 'pairs;
        };
        if once && (seen.olds > 1 || seen.news > 1) {
            continue 'pairs;
        }
        if let Some(new) = seen.next {
            seen.next = later.get(new).copied().flatten();
            pairs.push((place, new))?;
        }
    }
    increasing(alloc, pairs.as_slice())
}

/// Returns the longest run of pairs, of which the first places increase, whose second ones do too.
fn increasing(alloc: Global, pairs: &[(usize, usize)]) -> Result<Pairs, AllocError> {
    // For each length the run whose last place is the least: that place, and the pair's.
    let mut ends: Vec<(usize, usize)> = Vec::new(alloc);
    let mut before = Vec::new(alloc);
    'pairs: for (at, pair) in pairs.iter().enumerate() {
        let place = pair.1;
        let shorter = ends.as_slice().partition_point(|end| end.0 < place);
        before.push(match shorter.checked_sub(1) {
            Some(last) => ends.get(last).map(|end| end.1),
            None => None,
        })?;
        match ends.get_mut(shorter) {
            Some(end) => *end = (place, at),
            None => ends.push((place, at))?,
        }
    }
    let mut run = Vec::new(alloc);
    let mut last = ends.as_slice().last().map(|end| end.1);
    'run: for _ in 0..ends.len() {
        let Some(at) = last else {
            break 'run;
        };
        if let Some(pair) = pairs.get(at) {
            run.push(*pair)?;
        }
        last = before.get(at).copied().flatten();
    }
    run.reverse();
    Ok(run)
}
