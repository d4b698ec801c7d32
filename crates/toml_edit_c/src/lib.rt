//! Short calls on TOML texts for programs in C and in languages that call C.
//!
//! Each call reads a whole text and gives a text back. The caller lends the room for it, and learns
//! how many bytes it has: if they do not fit, nothing is written and the call can be made again
//! with more room. No call keeps anything, so any thread may make it.
//!
//! The header `bindings/c/toml_edit.h` says how C declares these functions. A slice is a pointer
//! and a length there, and an allocator is nothing.
//!
//! There is no handle of a document: an export takes no pointer to what holds a `Vec` (`cell-in-c`).
#![tactic(auto)]

ghost use Rattle.std.specs.Prelude.{◌≡◌, ◌≤◌, ◌<◌};
ghost use Rattle.toml_edit_c.specs.Answers.{Answers, Gives};
ghost use Rattle.toml_edit_c.specs.Asks.{ask, get_words, print_words, remove_words, set_words};
ghost use Rattle.toml_edit_c.specs.Formats.{IsFormattedBy};
ghost use Rattle.toml_edit_c.specs.Items.{IsJsonBy, StopsItemBy};
ghost use Rattle.toml_edit_c.specs.Made.{IsMadeBy, StopsReadingBy, StopsWith};
ghost use Rattle.toml_edit_c.specs.Scripts.{IsEditedBy, StopsEditWith};
ghost use Rattle.toml_edit_c.specs.Statuses.{IsStatusOf};

mod answer;
mod calls;
pub mod check;
mod given;
pub mod index;
pub mod list;
pub mod run;
pub mod spelled;

pub use answer::Answer;
use answer::{give, give_edited};
use calls::{Call, make};
use std::alloc::Global;

/// Gives the print of the text.
///
/// It is what `tomled print` writes. For the flags and the statuses see `bindings/c/toml_edit.h`.
#[unsafe(no_mangle)]
pub extern "C" fn toml_edit_print(alloc: Global, flags: u32, text: &[u8], room: &mut [u8]) -> Answer
    ensures { Answers (IsMadeBy (ask flags print_words) text.now)
        (StopsWith (ask flags print_words) text.now) result room.old room.new }
{
    give(make(alloc, flags, Call::Print, text), room)
}

/// Gives the text of the item at the path.
///
/// It is what `tomled get` writes: a value as it is spelled, the lines of a table, or an array of
/// tables as an array.
#[unsafe(no_mangle)]
pub extern "C" fn toml_edit_get(
    alloc: Global,
    flags: u32,
    text: &[u8],
    path: &[u8],
    room: &mut [u8],
) -> Answer
    ensures { Answers (IsMadeBy (ask flags (get_words path.now)) text.now)
        (StopsWith (ask flags (get_words path.now)) text.now) result room.old room.new }
{
    give(make(alloc, flags, Call::Get(path), text), room)
}

/// Gives the text with the value at the path.
///
/// It is what `tomled set` writes.
#[unsafe(no_mangle)]
pub extern "C" fn toml_edit_set(
    alloc: Global,
    flags: u32,
    text: &[u8],
    path: &[u8],
    value: &[u8],
    room: &mut [u8],
) -> Answer
    ensures { Answers (IsMadeBy (ask flags (set_words path.now value.now)) text.now)
        (StopsWith (ask flags (set_words path.now value.now)) text.now) result room.old room.new }
{
    give(make(alloc, flags, Call::Set(path, value), text), room)
}

/// Gives the text without the item at the path.
///
/// It is what `tomled remove` writes.
#[unsafe(no_mangle)]
pub extern "C" fn toml_edit_remove(
    alloc: Global,
    flags: u32,
    text: &[u8],
    path: &[u8],
    room: &mut [u8],
) -> Answer
    ensures { Answers (IsMadeBy (ask flags (remove_words path.now)) text.now)
        (StopsWith (ask flags (remove_words path.now)) text.now) result room.old room.new }
{
    give(make(alloc, flags, Call::Remove(path), text), room)
}

/// Gives the JSON text of the item at the path. The empty path leads to the root.
#[unsafe(no_mangle)]
pub extern "C" fn toml_edit_json(
    alloc: Global,
    flags: u32,
    text: &[u8],
    path: &[u8],
    room: &mut [u8],
) -> Answer
    ensures { Answers (IsJsonBy flags text.now path.now)
        (IsStatusOf (StopsItemBy flags text.now path.now)) result room.old room.new }
{
    give(calls::json(alloc, flags, text, path), room)
}

/// Gives the text formatted by the default rules.
///
/// It means the same, and has the same comments in the same order, each with what it belongs to.
/// Where line endings are kept, lines that are made end as the first line of the text does.
#[unsafe(no_mangle)]
pub extern "C" fn toml_edit_format(
    alloc: Global,
    flags: u32,
    text: &[u8],
    room: &mut [u8],
) -> Answer
    ensures { Answers (IsFormattedBy flags text.now)
        (IsStatusOf (StopsReadingBy flags text.now)) result room.old room.new }
{
    give(calls::format(alloc, flags, text), room)
}

/// Gives the text with the edits of the script, which are made one after another or not at all.
///
/// Where there is none, the answer has the number of the first edit that is refused.
#[unsafe(no_mangle)]
pub extern "C" fn toml_edit_edit(
    alloc: Global,
    flags: u32,
    text: &[u8],
    script: &[u8],
    room: &mut [u8],
) -> Answer
    ensures given { result.status ≤ 1
        → Gives (IsEditedBy flags text.now script.now) result room.old room.new }
    ensures stopped { 1 < result.status
        → StopsEditWith flags text.now script.now result.status result.needed }
    ensures unanswered { 1 < result.status → room.new ≡ room.old }
{
    give_edited(calls::edit(alloc, flags, text, script), room)
}
