//! The arguments of a process.
use std::env::{Env, FillError};
use std::io::ErrorKind;
use std::{env, io};

/// Why the arguments are not known.
#[derive(Clone, Copy, Debug, PartialEq, Eq)]
pub enum ArgumentFault {
    /// Out of memory.
    Memory,
    /// The argument of this number, from 1, is not UTF-8.
    NotUtf8(usize),
}

/// Returns the arguments after the program's name.
pub fn arguments(rt: &HostRuntime) -> Result<Vec<String>, ArgumentFault> {
    let mut words = Vec::new(rt.alloc());
    for number in 1..usize::MAX {
        match word_at(rt, number) {
            Ok(Some(word)) => {
                if words.push(word).is_err() {
                    return Err(ArgumentFault::Memory);
                }
            }
            Ok(None) => break,
            Err(error) if error.kind() == ErrorKind::OutOfMemory => return Err(
                ArgumentFault::Memory,
            ),
            Err(_) => return Err(ArgumentFault::NotUtf8(number)),
        }
    }
    Ok(words)
}

/// Returns the argument of this number, if there is one.
fn word_at(rt: &HostRuntime, number: usize) -> io::Result<Option<String>> {
    let mut words = env::args(&(Only(rt, number), rt.alloc()))?;
    Ok(words.next())
}

/// The environment of the host with one argument alone, since no other says which is not UTF-8.
#[derive(Drop)]
struct Only<'a, R>(&'a R, usize);

impl<R: Env> Env for Only<'_, R> {
    fn arg(&self, i: usize, buf: &mut [u8]) -> Result<usize, FillError> {
        if i == 0 {
            self.0.arg(self.1, buf)
        } else {
            Err(FillError::NotPresent)
        }
    }

    fn var(&self, name: &str, buf: &mut [u8]) -> Result<usize, FillError> {
        self.0.var(name, buf)
    }

    fn var_at(&self, i: usize, buf: &mut [u8]) -> Result<usize, FillError> {
        self.0.var_at(i, buf)
    }
}
