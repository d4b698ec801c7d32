//! Steps: chains of calls, in the library's names, each with its arguments after it.
ghost use Rattle.std.specs.Prelude.{IfOk};
ghost use Rattle.std.specs.Iterator.{IsFinite};

use crate::answer::Answer;
use crate::out_of_memory::{judge, seen};
use crate::refusal;
use crate::row::{self, Row};
use crate::tell::Told;
use serde_json::Value as Json;
use std::fmt::Debug;
use toml_edit_error::ParseFault;
use toml_edit_repr::Mem;

/// A program that makes steps with subjects of a type, and answers questions on them.
pub trait Tries<S> {
    /// Makes the calls of a step, and writes what they return: nothing if they only change
    /// something.
    fn call(subject: &mut S, words: &[Json], out: &mut Answer);

    /// Answers a question. If this is a list of steps, they are made, and nothing is left to write.
    fn answer(subject: &S, question: &str, out: &mut Answer);
}

/// A program that answers questions on copies of a type.
pub trait Asks<S> {
    /// Makes the calls of a step on a copy, and writes what they return.
    fn ask(copy: &S, words: &[Json], out: &mut Answer);
}

/// Answers a question on what was parsed, or on the refusal. Whatever is parsed, made or copied is
/// owned and dropped here.
pub fn read<P: Tries<S>, S: Debug + Drop>(
    read: Result<S, ParseFault>,
    row: Row<'_>,
    out: &mut Answer,
) {
    match read {
        Ok(subject) => stepped::<P, S>(subject, row, out),
        Err(fault) => refusal::answer(&fault, row.question, out),
    }
}

/// Answers a question on what was made, if there was memory for it.
pub fn made<P: Tries<S>, S: Debug + Drop>(made: Mem<S>, row: Row<'_>, out: &mut Answer) {
    match made {
        Ok(subject) => stepped::<P, S>(subject, row, out),
        Err(_) => out.refuse(),
    }
}

/// Answers a question on what was made, if it was.
pub fn found<P: Tries<S>, S: Debug + Drop>(made: Option<S>, row: Row<'_>, out: &mut Answer) {
    match made {
        Some(subject) => stepped::<P, S>(subject, row, out),
        None => refusal::none(row.question, out),
    }
}

/// Answers a question on a copy, if there was memory for it.
pub fn copied<P: Asks<S>, S: Drop>(copy: Mem<S>, words: &[Json], out: &mut Answer) {
    match copy {
        Ok(copy) => P::ask(&copy, words, out),
        Err(_) => out.refuse(),
    }
}

/// Writes each element of a copy that is consumed, in order, if there was memory for it.
pub fn given_up<T: Told + Drop, U: IntoIterator<Item = T>>(copy: Mem<U>, out: &mut Answer)
    requires { IfOk copy
        (λ given. (it : U.IntoIter) → U.into_iter_gives given it
        → U.IntoIter.can_next it × IsFinite (U.IntoIter.remaining it)) }
{
    match copy {
        Ok(copy) => {
            for given in copy {
                out.text("<");
                given.tell(out);
                out.text(">");
            }
        }
        Err(_) => out.refuse(),
    }
}

/// Makes the steps and answers the question, or reports the first step that does not give what it
/// wants.
pub fn stepped<P: Tries<S>, S: Debug + Drop>(subject: S, row: Row<'_>, out: &mut Answer) {
    let mut subject = subject;
    for step in row.steps() {
        if !gives::<P, S>(&mut subject, row::items_of(Some(step)), out) {
            return;
        }
    }
    P::answer(&subject, row.question, out);
}

/// Returns `true` if the step gives what it wants. If not, writes what it gave.
fn gives<P: Tries<S>, S: Debug>(subject: &mut S, step: &[Json], out: &mut Answer) -> bool {
    let calls = calls(step);
    call::<P, S>(subject, calls, out);
    let wanted = word(step, calls.len().saturating_add(1));
    if out.is_refused() {
        out.is_to_begin(wanted);
        return false;
    }
    if out.as_str() == wanted {
        out.clear();
        return true;
    }
    out.text(" for ");
    out.text(wanted);
    false
}

/// Makes the calls of a step. After `take_no_memory` nothing else is done that takes some.
fn call<P: Tries<S>, S: Debug>(subject: &mut S, calls: &[Json], out: &mut Answer) {
    match word(calls, 0) {
        "take_no_memory" => out.make_room(),
        _ if out.is_roomy() => P::call(subject, calls, out),
        _ => watched::<P, S>(subject, calls, out),
    }
}

/// Makes the calls of a step, and judges what is left if one runs out of memory.
fn watched<P: Tries<S>, S: Debug>(subject: &mut S, calls: &[Json], out: &mut Answer) {
    match seen(subject, out.alloc) {
        Ok(before) => {
            P::call(subject, calls, out);
            if out.is_call_refused() {
                judge(before.as_str(), seen(subject, out.alloc), calls, out);
            }
        }
        Err(_) => out.cut_short(),
    }
}

/// Returns the calls of a step, without the result that it wants.
fn calls(step: &[Json]) -> &[Json] {
    match step {
        [calls @ .., gives, _wanted] if gives.as_str() == Some("gives") => calls,
        _ => step,
    }
}

/// Returns a word of a chain, or the empty text.
pub fn word(words: &[Json], at: usize) -> &str {
    row::text_of(words.get(at))
}

/// Returns `true` if the second word says so.
pub fn is_true(words: &[Json]) -> bool {
    word(words, 1) == "true"
}

/// Returns the place that the second word is, or one that no list reaches.
pub fn index(words: &[Json]) -> usize {
    word(words, 1).parse::<usize>().unwrap_or(usize::MAX)
}

/// Returns the words after so many, or none.
pub fn behind(words: &[Json], count: usize) -> &[Json] {
    &words[count.min(words.len())..]
}
