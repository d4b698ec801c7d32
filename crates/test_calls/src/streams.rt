//! Readers and writers that fail.
use std::alloc::Global;
use std::io;
use std::io::{ErrorKind, Read, Write};
use toml_edit_io::{Broken, Input, Output, ReadFault, Watched, read_to_end, write_all};

/// A reader that gives one byte at a time, and fails at one of its calls, but not at the next.
#[derive(Drop)]
pub struct Drip<'a> {
    rest: &'a [u8],
    calls_until_fault: usize,
    fault: ErrorKind,
}

impl<'a> Drip<'a> {
    /// Makes a reader of these bytes that fails after so many calls.
    pub fn of(rest: &'a [u8], calls_until_fault: usize) -> Drip<'a> {
        Drip {
            rest,
            calls_until_fault,
            fault: ErrorKind::Other,
        }
    }
}

impl Read for Drip<'_> {
    fn read(&mut self, buf: &mut [u8]) -> io::Result<usize> {
        if self.calls_until_fault == 0 {
            self.calls_until_fault = usize::MAX;
            return Err(io::Error::from(self.fault));
        }
        self.calls_until_fault -= 1;
        let count = buf.len().min(1);
        self.rest.read(&mut buf[..count])
    }
}

/// A writer that takes so many bytes, and then fails, or takes nothing.
#[derive(Drop)]
pub struct Short<'a> {
    held: &'a mut Vec<u8>,
    room: usize,
    answers_zero: bool,
}

impl<'a> Short<'a> {
    /// Makes a writer with so much room, whose bytes go to `held`.
    pub fn of(held: &'a mut Vec<u8>, room: usize) -> Short<'a> {
        Short {
            held,
            room,
            answers_zero: false,
        }
    }
}

impl Write for Short<'_> {
    fn write(&mut self, buf: &[u8]) -> io::Result<usize> {
        if self.room == 0 && !self.answers_zero {
            return Err(io::Error::from(ErrorKind::Other));
        }
        let count = self.room.min(buf.len());
        self.held.extend_from_slice(&buf[..count])?;
        self.room -= count;
        Ok(count)
    }

    fn flush(&mut self) -> io::Result<()> {
        Ok(())
    }
}

fn reads<R: Read + Drop>(alloc: Global, reader: R, bytes: &[u8]) -> bool {
    match read_to_end(alloc, &mut Watched::new(reader)) {
        Ok(found) => found.as_slice() == bytes,
        Err(_) => false,
    }
}

#[test]
fn reads_a_slice(rt: HostRuntime) {
    let text = b"a slice".as_slice();
    assert!(rt; reads(rt.alloc(), text, text));
}

#[test]
fn reads_more_than_a_chunk(rt: HostRuntime) {
    let text = [7u8; 10000];
    assert!(rt; reads(rt.alloc(), text.as_slice(), text.as_slice()));
}

#[test]
fn reads_byte_by_byte(rt: HostRuntime) {
    let text = b"drop by drop".as_slice();
    assert!(rt; reads(rt.alloc(), Drip::of(text, 100), text));
}

#[test]
fn tries_again_after_a_signal(rt: HostRuntime) {
    let interrupted = Drip {
        rest: b"signal",
        calls_until_fault: 3,
        fault: ErrorKind::Interrupted,
    };
    assert!(rt; reads(rt.alloc(), interrupted, b"signal".as_slice()));
}

/// Returns `true` if the reader fails, and fails ever after.
fn stays_broken<R: Read + Drop>(alloc: Global, reader: R) -> bool {
    let mut input = Watched::new(reader);
    let is_broken = matches!(read_to_end(alloc, &mut input), Err(ReadFault::Broken));
    is_broken && Input::failed(&input) && input.read(&mut [0u8; 1]) == Err(Broken)
}

#[test]
fn remembers_a_failed_read(rt: HostRuntime) {
    for calls in 0..5 {
        assert!(rt; stays_broken(rt.alloc(), Drip::of(b"four", calls)));
    }
    assert!(rt; stays_broken(rt.alloc(), Drip::of(b"", 0)));
}

fn writes_twice<W: Write + Drop>(writer: W) -> bool {
    let mut output = Watched::new(writer);
    write_all(&mut output, b"one ") == Ok(())
        && write_all(&mut output, b"two") == Ok(())
        && !Output::failed(&output)
}

#[test]
fn writes_to_a_vec(rt: HostRuntime) {
    let mut held = Vec::new(rt.alloc());
    assert!(rt; writes_twice(&mut held));
    assert!(rt; held.as_slice() == b"one two".as_slice());
}

/// Returns `true` if the writer, which has room for three bytes, fails at a fourth, and fails ever
/// after.
fn stays_full<W: Write + Drop>(writer: W) -> bool {
    let mut output = Watched::new(writer);
    output.write(b"") == Ok(0)
        && write_all(&mut output, b"four") == Err(Broken)
        && Output::failed(&output)
        && output.write(b"more") == Err(Broken)
        && output.write(b"") == Err(Broken)
}

fn remembers(alloc: Global, answers_zero: bool) -> bool {
    let mut held = Vec::new(alloc);
    stays_full(Short {
        held: &mut held,
        room: 3,
        answers_zero,
    })
}

#[test]
fn remembers_a_failed_write(rt: HostRuntime) {
    assert!(rt; remembers(rt.alloc(), false));
    assert!(rt; remembers(rt.alloc(), true));
}
