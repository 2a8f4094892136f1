//! Changes by events, over readers and writers that fail.

use crate::replays::{RECORDING, some_device};
use crate::trial::UNSHOWN;
use abr_cli::Format;
use anyhow::{Result, ensure};
use change_log::{ChangeFilter, ChangeOptions, print_changes};
use recording::{Fault, LineFault};
use replay::ReplayFault;
use std::alloc::Global;
use std::hash::RandomState;
use std::io;
use std::random::RandomSource;

const CHANGES: &str = "5 set 192.0.2.0/24 intra 0.0.0.0 10 0 direct:1
";

// The changes of all networks, as text.
const WANTED: ChangeFilter = ChangeFilter {
    only: None,
    format: Format::Text,
};

// Options that print all changes but no answers, and end at the first fault.
const ALL: ChangeOptions = ChangeOptions {
    wanted: WANTED,
    answers: false,
    skips_faults: false,
    progress: UNSHOWN,
};

// Options that print answers too, and skip faults.
const ANSWERS: ChangeOptions = ChangeOptions {
    wanted: WANTED,
    answers: true,
    skips_faults: true,
    progress: UNSHOWN,
};

// Prints the changes with these numbers of reads and writes. Returns the result, if the output is a
// prefix of the changes, and if it is all of them.
fn tells(
    alloc: Global,
    hashing: RandomState,
    text: &str,
    calls: (u8, u8),
    failure: Option<io::ErrorKind>,
) -> (Result<(), ReplayFault>, bool, bool) {
    let mut input = some_device(alloc, text, calls.0, None);
    let mut out = some_device(alloc, "", calls.1, failure);
    let mut faults = Vec::new(alloc);
    let answer = print_changes(alloc, hashing, ALL, &mut input, &mut out, &mut faults);
    let written = out.taken.as_slice();
    let begins = CHANGES.as_bytes().starts_with(written);
    (answer, begins, written.len() == CHANGES.len())
}

pub fn run<R: AllocGlobal + RandomSource>(rt: &R) -> Result<()> {
    let (alloc, hashing) = (rt.alloc(), RandomState::new(rt)?);
    ensure!(
        fails_by_its_reader(alloc, hashing),
        "another end by reads that fail"
    );
    ensure!(
        fails_by_its_writer(alloc, hashing),
        "another end by writes that fail"
    );
    ensure!(
        fails_by_its_input(alloc, hashing),
        "another end by a fault of the input"
    );
    ensure!(
        reads_line_by_line(alloc, hashing),
        "a line is answered too late"
    );
    Ok(())
}

// The recording is read in 15 calls, the last of which gives no bytes.
fn fails_by_its_reader(alloc: Global, hashing: RandomState) -> bool {
    let mut all = true;
    for calls in 0..15 {
        let (answer, begins, _) = tells(alloc, hashing, RECORDING, (calls, 255), None);
        all &= answer == Err(ReplayFault::Read) && begins;
    }
    let whole = tells(alloc, hashing, RECORDING, (255, 255), None);
    all && whole == (Ok(()), true, true)
}

// The line is written in 3 calls.
fn fails_by_its_writer(alloc: Global, hashing: RandomState) -> bool {
    let (full, closed) = (io::ErrorKind::StorageFull, io::ErrorKind::BrokenPipe);
    let mut all = true;
    for calls in 0..3 {
        for (failure, fault) in [
            (Some(full), ReplayFault::Write),
            (Some(closed), ReplayFault::Closed),
            (None, ReplayFault::Write),
        ] {
            let found = tells(alloc, hashing, RECORDING, (255, calls), failure);
            all &= found == (Err(fault), true, false);
        }
    }
    all
}

// Nothing is written for a fault of the input.
fn fails_by_its_input(alloc: Global, hashing: RandomState) -> bool {
    let (line, fault) = (2, Fault::Truncated);
    let line_fault = ReplayFault::Line(LineFault { line, fault });
    let found = tells(alloc, hashing, "abr 1\n", (255, 0), None);
    found == (Err(line_fault), true, false)
}

/// A reader that gives one line a call, and counts the calls.
#[derive(Drop)]
struct LineByLine<'a> {
    left: &'a [u8],
    calls: usize,
}

impl io::Read for LineByLine<'_> {
    fn read(&mut self, buf: &mut [u8]) -> io::Result<usize> {
        self.calls = self.calls.saturating_add(1);
        let end = self.left.iter().position(|byte| *byte == b'\n');
        let most = end.map_or(0, |place| place + 1).min(buf.len());
        self.left.read(&mut buf[..most])
    }
}

// Nothing can be written. The run ends with the first line that prints something, before the next
// line is read.
fn reads_line_by_line(alloc: Global, hashing: RandomState) -> bool {
    let mut input = LineByLine {
        left: RECORDING.as_bytes(),
        calls: 0,
    };
    let closed = Some(io::ErrorKind::BrokenPipe);
    let mut out = some_device(alloc, "", 0, closed);
    let mut faults = Vec::new(alloc);
    let answer = print_changes(alloc, hashing, ANSWERS, &mut input, &mut out, &mut faults);
    answer == Err(ReplayFault::Closed) && input.calls == 5
}
