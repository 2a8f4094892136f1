//! The progress of a command, and the number of lines of its recording.

use crate::counting::count_lines;
use crate::sink::Sink;
use abr_cli::{Job, Progress, Usage};
use std::fs;
use std::fs::File;
use std::io::IsTerminal;

// The number of bytes that are read at a time.
const WINDOW: usize = 65_536;

/// Returns the progress of the job.
///
/// It is set to be shown if standard error is a terminal and the output is not. If the progress of
/// `changes` is shown, the lines of its file are counted first.
pub fn progress_of(rt: &HostRuntime, job: &Result<Job<'_>, Usage>, out: &Sink<'_>) -> Progress {
    let is_shown = rt.stderr().is_terminal() && !out.is_terminal();
    let all = match job {
        Ok(Job::Changes { file, progress, .. }) if *progress || is_shown => lines_of(rt, file),
        _ => None,
    };
    Progress { is_shown, all }
}

// Returns the number of lines of the file. It is not known for standard input, pipes and devices,
// whose bytes come only once.
fn lines_of(rt: &HostRuntime, name: &str) -> Option<usize> {
    if name == "-" || !fs::metadata(rt, name).ok()?.is_file() {
        return None;
    }
    let mut file = File::open(rt, name).ok()?;
    let mut window = Vec::new(rt.alloc());
    window.resize(WINDOW, 0).ok()?;
    count_lines(&mut file, window.as_mut_slice())
}
