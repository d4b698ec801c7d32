//! What a caller is given, and why there is no text.
ghost use Rattle.std.specs.Prelude.{◌≡◌, IfErr, IfOk};
ghost use Rattle.toml_edit_c.specs.Answers.{Holds, IsUnanswered};
ghost use Rattle.toml_edit_c.specs.Statuses.{status_of, of_edit, of_none, stop_for};

use toml_edit_command::{CommandError, RunError};

/// How a call ended.
#[repr(C)]
#[derive(Clone, Copy, Debug)]
pub struct Answer {
    /// 0 if the text is in the room, 1 if it does not fit there, and else why there is none.
    pub status: u32,
    /// How many bytes the text has. If there is none, the number of the edit of a script that is
    /// refused, from 1, or 0.
    pub needed: usize,
}

/// The text is in the room.
pub const DONE: u32 = 0;

/// The text does not fit in the room.
pub const SHORT: u32 = 1;

/// Writes the text that was made to the front of the room, if it fits, and says how it went.
pub fn give(made: Result<Vec<u8>, Stop>, room: &mut [u8]) -> Answer
    ensures text { IfOk made (λ s. Holds s.items result room.old room.new) }
    ensures status { IfErr made (λ stop. result.status ≡ status_of stop) }
    ensures none { IfErr made (λ stop. IsUnanswered result room.old room.new) }
{
    give_edited(made.map_err(EditStop::from), room)
}

/// Does so with what a script made, and gives the number of the edit that is refused.
pub fn give_edited(made: Result<Vec<u8>, EditStop>, room: &mut [u8]) -> Answer
    ensures text { IfOk made (λ s. Holds s.items result room.old room.new) }
    ensures status { IfErr made (λ r. result.status ≡ status_of r.stop) }
    ensures number { IfErr made (λ r. result.needed ≡ r.number) }
    ensures none { IfErr made (λ r. room.new ≡ room.old) }
{
    match made {
        Ok(text) => put(text.as_slice(), room),
        Err(refused) => Answer {
            status: refused.stop.status(),
            needed: refused.number,
        },
    }
}

/// Writes the text to the front of the room, if it fits.
pub fn put(text: &[u8], room: &mut [u8]) -> Answer
    ensures { Holds text.now result room.old room.new }
{
    let needed = text.len();
    let status = if needed > room.len() {
        SHORT
    } else {
        room[..needed].copy_from_slice(text);
        DONE
    };
    Answer { status, needed }
}

/// Returns an answer without a text.
pub fn silent(status: u32) -> Answer
    ensures status { result.status ≡ status }
    ensures none { result.needed ≡ 0 }
{
    Answer { status, needed: 0 }
}

/// Why a call has no text for its caller. Its number is the status that the caller is given.
#[derive(Clone, Copy, Debug)]
pub enum Stop {
    /// The text is not TOML.
    Refused = 2,
    /// The text is not UTF-8.
    NotUtf8 = 3,
    /// The path is not valid.
    Path = 4,
    /// The value is not valid.
    Value = 5,
    NoSuchPath = 6,
    WrongKind = 7,
    /// The changed document does not fit.
    Unfit = 8,
    Memory = 9,
    /// The flags are not valid.
    Flags = 10,
    /// The script is not UTF-8, or its words are not edits.
    Script = 11,
    /// No element of the array is equal.
    NoSuchElement = 12,
    /// A key has the new name already.
    Taken = 13,
    /// The comment has a control character.
    Comment = 14,
}

impl Stop {
    /// Returns the status that the caller is given.
    pub fn status(self) -> u32
        ensures { result ≡ status_of self }
    {
        self as u32
    }
}

/// Says why a call stops where a command ends so. A text in memory is read without a fault, and an
/// output in memory fails if that runs out.
impl From<RunError> for Stop {
    ghost from_gives = { λ error stop. stop ≡ stop_for error };

    fn from(error: RunError) -> Stop {
        match error {
            RunError::NotUtf8 => Stop::NotUtf8,
            RunError::Refused(_) => Stop::Refused,
            RunError::Mistaken(CommandError::Words) => Stop::Script,
            RunError::Mistaken(CommandError::Path) => Stop::Path,
            RunError::Mistaken(CommandError::Value) => Stop::Value,
            RunError::Mistaken(CommandError::NoSuchPath) => Stop::NoSuchPath,
            RunError::Mistaken(CommandError::WrongKind) => Stop::WrongKind,
            RunError::Mistaken(CommandError::Unfit) => Stop::Unfit,
            RunError::Memory | RunError::ReadFailed | RunError::WriteFailed => Stop::Memory,
        }
    }
}

/// Why a script gives no text, and the number of the edit that is refused, from 1. It is 0 where
/// the reason is not about one edit.
#[derive(Clone, Copy, Debug)]
pub struct EditStop {
    pub stop: Stop,
    pub number: usize,
}

/// Says that it is about no edit.
impl From<Stop> for EditStop {
    ghost from_gives = { λ stop refused. refused ≡ of_none stop };

    fn from(stop: Stop) -> EditStop {
        EditStop { stop, number: 0 }
    }
}

impl EditStop {
    /// Returns that it is about the edit of this number, unless memory ran out.
    pub fn of_edit(stop: Stop, number: usize) -> EditStop
        ensures { result ≡ of_edit stop number }
    {
        match stop {
            Stop::Memory => EditStop::from(stop),
            _ => EditStop { stop, number },
        }
    }
}
