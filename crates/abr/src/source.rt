//! The input of a command: a file, or standard input.
use abr_cli::{Job, Usage};
use std::fs::File;
use std::io;
use std::io::{Read, Stdin};

/// The input of a command: a recording or a capture.
#[derive(Drop)]
pub enum Source {
    File(File),
    Standard(Stdin),
    /// No input, or one that could not be opened. Every read fails.
    Missing,
}

impl Source {
    /// Returns the file that the job names, or standard input for `-` and for `follow`.
    pub fn of(rt: &HostRuntime, job: &Result<Job<'_>, Usage>) -> Source {
        match job {
            Ok(Job::Follow { .. }) => Source::Standard(rt.stdin()),
            Ok(
                Job::Replay { file, .. }
                | Job::Changes { file, .. }
                | Job::Explain { file, .. }
                | Job::Page { file, .. },
            ) => Source::named(rt, file),
            Ok(Job::Capture(words)) => Source::named(rt, words.file),
            _ => Source::Missing,
        }
    }

    // Returns the file of this name, or standard input for `-`.
    fn named(rt: &HostRuntime, name: &str) -> Source {
        if name == "-" {
            return Source::Standard(rt.stdin());
        }
        match File::open(rt, name) {
            Ok(file) => Source::File(file),
            Err(_) => Source::Missing,
        }
    }
}

impl Read for Source {
    fn read(&mut self, buf: &mut [u8]) -> io::Result<usize> {
        match self {
            Source::File(file) => file.read(buf),
            Source::Standard(input) => input.read(buf),
            Source::Missing => Err(io::Error::from(io::ErrorKind::NotFound)),
        }
    }
}
