//! Runs over streams that fail, or that give and take one byte at a time.
use std::alloc::{AllocError, Global};
use std::io;
use std::io::{ErrorKind, Read, Write};
use toml_edit::{Mem, Watched};
use toml_edit_command::{Ending, run};

/// A reader that gives one byte at a time, and fails at one of its calls.
#[derive(Drop)]
struct Drip<'a> {
    rest: &'a [u8],
    calls_until_fault: usize,
}

impl Read for Drip<'_> {
    fn read(&mut self, buf: &mut [u8]) -> io::Result<usize> {
        if self.calls_until_fault == 0 {
            return Err(io::Error::from(ErrorKind::Other));
        }
        self.calls_until_fault -= 1;
        let count = buf.len().min(1);
        self.rest.read(&mut buf[..count])
    }
}

/// A writer that takes one byte at a time, and fails once its room is full.
#[derive(Drop)]
struct Narrow<'a> {
    held: &'a mut Vec<u8>,
    room: usize,
}

impl Write for Narrow<'_> {
    fn write(&mut self, buf: &[u8]) -> io::Result<usize> {
        if self.room == 0 {
            return Err(io::Error::from(ErrorKind::Other));
        }
        let count = buf.len().min(1);
        self.held.extend_from_slice(&buf[..count])?;
        self.room -= count;
        Ok(count)
    }

    fn flush(&mut self) -> io::Result<()> {
        Ok(())
    }
}

/// How a run ends over streams of its own, and what it leaves.
#[derive(Drop)]
pub struct Ended {
    pub status: u8,
    pub output: Vec<u8>,
    pub errors: Vec<u8>,
}

impl Ended {
    fn is(&self, status: u8, output: &[u8], errors: &[u8]) -> bool {
        self.status == status
            && self.output.as_slice() == output
            && self.errors.as_slice() == errors
    }

    /// Returns the end, or `Err` if it is that of a run that ran out of memory: its status says so,
    /// its message is written as far as there is room, and it has no output.
    fn unless_refused(self, room: usize) -> Mem<Ended> {
        let line = REFUSED.get(..room).unwrap_or(REFUSED);
        if self.is(3, b"", line) {
            Err(AllocError)
        } else {
            Ok(self)
        }
    }
}

/// The message of a run that ran out of memory.
const REFUSED: &[u8] = b"tomled: out of memory\n";

/// More room than a row's run fills, so that its own streams never fill up.
const ROOM: usize = 4096;

/// Runs the program on the input, over streams that give and take all at once.
pub fn run_whole(alloc: Global, words: &[String], input: &[u8]) -> Mem<Ended> {
    let mut output = Vec::with_capacity(alloc, ROOM)?;
    let mut errors = Vec::with_capacity(alloc, ROOM)?;
    let status = run(
        alloc,
        Ending::Call,
        words,
        &mut Watched::new(input),
        &mut Watched::new(&mut output),
        &mut Watched::new(&mut errors),
    );
    let ended = Ended {
        status,
        output,
        errors,
    };
    ended.unless_refused(usize::MAX)
}

/// The limits of the streams of a run: how many reads there are before the fault, and how many
/// bytes find room.
#[derive(Clone, Copy)]
struct Limits {
    reads: usize,
    output: usize,
    errors: usize,
}

const NO_LIMITS: Limits = Limits {
    reads: usize::MAX,
    output: usize::MAX,
    errors: usize::MAX,
};

/// Runs the program on the input within the limits of its streams.
fn run_within(alloc: Global, words: &[String], input: &[u8], limits: Limits) -> Mem<Ended> {
    let mut output = Vec::with_capacity(alloc, ROOM)?;
    let mut errors = Vec::with_capacity(alloc, ROOM)?;
    let status = run(
        alloc,
        Ending::Call,
        words,
        &mut Watched::new(Drip {
            rest: input,
            calls_until_fault: limits.reads,
        }),
        &mut Watched::new(Narrow {
            held: &mut output,
            room: limits.output,
        }),
        &mut Watched::new(Narrow {
            held: &mut errors,
            room: limits.errors,
        }),
    );
    let ended = Ended {
        status,
        output,
        errors,
    };
    ended.unless_refused(limits.errors)
}

/// Returns `true` if a run ends the same byte by byte, ends with status 4 wherever a read or a
/// write fails, with at most a beginning of the output, and ends the same if its messages find no
/// room.
pub fn hold(alloc: Global, words: &[String], input: &[u8], whole: &Ended) -> Mem<bool> {
    let slow = run_within(alloc, words, input, NO_LIMITS)?;
    Ok(
        slow.is(
            whole.status,
            whole.output.as_slice(),
            whole.errors.as_slice(),
        ) && reads_hold(alloc, words, input)?
            && writes_hold(alloc, words, input, whole.output.as_slice())?
            && errors_hold(alloc, words, input, whole)?,
    )
}

/// The last of these reads finds the end.
fn reads_hold(alloc: Global, words: &[String], input: &[u8]) -> Mem<bool> {
    for reads in 0..=input.len() {
        let limits = Limits { reads, ..NO_LIMITS };
        let ended = run_within(alloc, words, input, limits)?;
        if !ended.is(4, b"", b"tomled: read failed\n") {
            return Ok(false);
        }
    }
    Ok(true)
}

fn writes_hold(alloc: Global, words: &[String], input: &[u8], output: &[u8]) -> Mem<bool> {
    for room in 0..output.len() {
        let limits = Limits {
            output: room,
            ..NO_LIMITS
        };
        let held = output.get(..room).unwrap_or(&[]);
        let ended = run_within(alloc, words, input, limits)?;
        if !ended.is(4, held, b"tomled: write failed\n") {
            return Ok(false);
        }
    }
    Ok(true)
}

fn errors_hold(alloc: Global, words: &[String], input: &[u8], whole: &Ended) -> Mem<bool> {
    for room in 0..=whole.errors.len() {
        let limits = Limits {
            errors: room,
            ..NO_LIMITS
        };
        let held = whole.errors.get(..room).unwrap_or(&[]);
        let ended = run_within(alloc, words, input, limits)?;
        if !ended.is(whole.status, whole.output.as_slice(), held) {
            return Ok(false);
        }
    }
    Ok(true)
}
