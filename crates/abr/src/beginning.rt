//! The file with the beginning of a capture's recording.
use abr_cli::{Job, Usage};
use std::fs;

/// Returns the contents of the file with the beginning of a capture's recording, if the job names
/// one and it can be read.
pub fn beginning_of(rt: &HostRuntime, job: &Result<Job<'_>, Usage>) -> Option<Vec<u8>> {
    match job {
        Ok(Job::Capture(words)) => fs::read(rt, words.begin?).ok(),
        _ => None,
    }
}
