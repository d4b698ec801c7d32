//! How `tomled` ends where it cannot write its messages, or has no memory.
use std::alloc::Global;
use std::io::{self, ErrorKind, Write};
use toml_edit_command::{Ending, end_without_memory, run};
use toml_edit_io::Watched;

/// A writer that takes nothing.
#[derive(Drop)]
struct Full;

impl Write for Full {
    fn write(&mut self, _buf: &[u8]) -> io::Result<usize> {
        Err(io::Error::from(ErrorKind::Other))
    }

    fn flush(&mut self) -> io::Result<()> {
        Ok(())
    }
}

/// Returns `true` if a run of no command that cannot say so ends with status 2 and has no output.
fn passes_over(alloc: Global, rest: &mut &[u8]) -> bool {
    let mut output = Vec::new(alloc);
    let status = run(
        alloc,
        Ending::Call,
        &[],
        &mut Watched::new(rest),
        &mut Watched::new(&mut output),
        &mut Watched::new(Full),
    );
    status == 2 && output.is_empty()
}

#[test]
fn passes_over_a_fault_in_telling(rt: HostRuntime) {
    let mut rest = b"a = 1\n".as_slice();
    assert!(rt; passes_over(rt.alloc(), &mut rest));
    assert!(rt; rest.len() == 6);
}

/// Returns `true` if the end without memory has its status and its message.
fn ends_so(alloc: Global) -> bool {
    let mut told = Vec::new(alloc);
    let status = end_without_memory(&mut Watched::new(&mut told));
    status == 3 && told.as_slice() == b"tomled: out of memory\n".as_slice()
}

#[test]
fn ends_without_memory(rt: HostRuntime) {
    assert!(rt; ends_so(rt.alloc()));
}
