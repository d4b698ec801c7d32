//! An output that takes a few bytes at a time.
use std::io;
use std::io::Write;

/// An output that takes so many bytes at a time.
#[derive(Drop)]
pub struct Bites<'a> {
    pub held: &'a mut Vec<u8>,
    pub most: usize,
}

impl Write for Bites<'_> {
    fn write(&mut self, buf: &[u8]) -> io::Result<usize> {
        let count = self.most.min(buf.len());
        self.held.extend_from_slice(&buf[..count])?;
        Ok(count)
    }

    fn flush(&mut self) -> io::Result<()> {
        Ok(())
    }
}
