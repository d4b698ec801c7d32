//! The report on all rows.
use crate::answer::Answer;
use crate::row::{self, Program};
use std::alloc::Global;
use std::io;
use std::process::ExitCode;

/// Tries the rows of standard input, one a line, and prints the report. The status is 0 if all
/// hold, 1 if some do not, and 2 if memory ran out or a stream failed.
pub fn run<P: Program>(rt: HostRuntime) -> ExitCode {
    match io::read_to_string(rt.alloc(), rt.reader()) {
        Ok(rows) => tell::<P>(&rt, rows.as_str()),
        Err(_) => ExitCode::from(2),
    }
}

fn tell<P: Program>(rt: &HostRuntime, rows: &str) -> ExitCode {
    let mut report = Report::new(rt.alloc());
    report.try_all::<P>(rows);
    let status = report.end();
    match rt.print(report.as_str()) {
        Ok(()) => ExitCode::from(status),
        Err(_) => ExitCode::from(2),
    }
}

/// The report on the rows that do not hold, and the number of those that do. A row for which memory
/// ran out is neither.
#[derive(Drop)]
struct Report {
    told: Answer,
    held: u64,
    failed: u64,
    is_refused: bool,
}

impl Report {
    /// Makes the empty report, with room for the number of rows that hold.
    fn new(alloc: Global) -> Report {
        let mut told = Answer::new(alloc);
        told.reserve(64);
        Report {
            told,
            held: 0,
            failed: 0,
            is_refused: false,
        }
    }

    /// Returns the report as it stands.
    fn as_str(&self) -> &str {
        self.told.as_str()
    }

    /// Tries each line. Empty lines and those that begin with `#` are no rows.
    fn try_all<P: Program>(&mut self, lines: &str) {
        for line in lines.lines() {
            if !line.is_empty() && !line.starts_with("#") {
                self.try_row::<P>(line);
            }
        }
    }

    fn try_row<P: Program>(&mut self, line: &str) {
        let mut came = Answer::new(self.told.alloc);
        if row::holds::<P>(line, &mut came) {
            self.held = self.held.saturating_add(1);
        } else if came.is_refused() && !came.is_wrong() {
            self.is_refused = true;
        } else {
            self.failed = self.failed.saturating_add(1);
            self.tell(line, came.as_str());
        }
    }

    /// Reports a row that does not hold, and what came instead.
    fn tell(&mut self, line: &str, came: &str) {
        self.told.text(line);
        self.told.text("\n    ");
        self.told.text(came);
        self.told.text("\n");
    }

    /// Ends the report, and returns the exit status of the program.
    fn end(&mut self) -> u8 {
        if self.failed > 0 {
            self.told.shown(&self.failed);
            self.told.text(" rows don't hold\n");
        }
        self.told.shown(&self.held);
        self.told.text(" rows hold\n");
        if self.is_refused || self.told.is_refused() {
            2
        } else {
            u8::from(self.failed > 0)
        }
    }
}
