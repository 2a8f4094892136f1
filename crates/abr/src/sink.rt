//! The output of a command: standard output, or the file of a page.
use crate::output::Output;
use abr_cli::{Job, Usage};
use std::io;
use std::io::{IsTerminal, Stderr, Stdout, Write};

/// The output of a command.
#[derive(Drop)]
pub enum Sink<'a> {
    Standard(Stdout),
    File(Output<'a>),
}

impl<'a> Sink<'a> {
    /// Returns the file that the job names for a page, or standard output for `-` and all other
    /// jobs.
    pub fn of(rt: &'a HostRuntime, job: &Result<Job<'a>, Usage>) -> Sink<'a> {
        match job {
            Ok(
                Job::Page {
                    output: Some(name),
                    ..
                },
            ) if !is_standard(name) => Sink::File(Output::new(rt, name)),
            _ => Sink::Standard(rt.stdout()),
        }
    }

    /// Returns true if the output is a terminal.
    pub fn is_terminal(&self) -> bool {
        match self {
            Sink::Standard(out) => out.is_terminal(),
            Sink::File(_) => false,
        }
    }

    /// Ends the writing, and returns the status.
    ///
    /// If the status is 0, a file gets the output, or else it is unchanged. If it cannot get the
    /// output, a line on `faults` says so.
    pub fn end(self, status: u8, faults: &mut Stderr) -> u8 {
        match self {
            Sink::Standard(_) => status,
            Sink::File(output) => output.end(status, faults),
        }
    }
}

// Returns true if the name is a name of standard output.
fn is_standard(name: &str) -> bool {
    name == "-" || name == "/dev/stdout" || name == "/dev/fd/1" || name == "/proc/self/fd/1"
}

impl Write for Sink<'_> {
    fn write(&mut self, bytes: &[u8]) -> io::Result<usize> {
        match self {
            Sink::Standard(out) => out.write(bytes),
            Sink::File(output) => output.write(bytes),
        }
    }

    fn flush(&mut self) -> io::Result<()> {
        match self {
            Sink::Standard(out) => out.flush(),
            Sink::File(output) => output.flush(),
        }
    }
}
