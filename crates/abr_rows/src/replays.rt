//! Replays over readers and writers that fail.

use abr_cli::Format;
use anyhow::{Result, ensure};
use recording::{Fault, LineFault};
use replay::{PrintOptions, ReplayFault, Show, replay_one};
use std::alloc::Global;
use std::hash::RandomState;
use std::io;
use std::random::RandomSource;

/// The recording of a router with one network.
pub const RECORDING: &str = "abr 1
router 10.0.0.1
area 0.0.0.0 normal
interface 1 0.0.0.0 192.0.2.1 0.0.0.0 up
install 0.0.0.0 000102010a0000010a00000180000001e986002400000001c0000200ffffff000300000a
lookup 192.0.2.77
flush 0.0.0.1 1 10.0.0.1 10.0.0.1
";

const ROUTES: &str = "6 lookup 192.0.2.77 2 route 192.0.2.0/24 intra 0.0.0.0 10 0 direct:1
7 refused 20 NoArea
serial 2 built 2
route 192.0.2.0/24 intra 0.0.0.0 10 0 direct:1
";

/// A device that reads or writes at most 16 bytes a call, for some calls, and then fails.
#[derive(Drop)]
pub struct Device<'a> {
    left: &'a [u8],
    /// The bytes that were written to it.
    pub taken: Vec<u8>,
    calls: u8,
    // The kind of error of a later write, or `None` if a later write takes no bytes.
    failure: Option<io::ErrorKind>,
}

impl Device<'_> {
    fn is_over(&mut self) -> bool {
        let is_over = self.calls == 0;
        self.calls = self.calls.saturating_sub(1);
        is_over
    }
}

impl io::Read for Device<'_> {
    fn read(&mut self, buf: &mut [u8]) -> io::Result<usize> {
        if self.is_over() {
            return Err(io::Error::from(io::ErrorKind::ConnectionReset));
        }
        let most = buf.len().min(16);
        self.left.read(&mut buf[..most])
    }
}

impl io::Write for Device<'_> {
    fn write(&mut self, buf: &[u8]) -> io::Result<usize> {
        if !self.is_over() {
            return self.taken.write(&buf[..buf.len().min(16)]);
        }
        match self.failure {
            Some(kind) => Err(io::Error::from(kind)),
            None => Ok(0),
        }
    }

    fn flush(&mut self) -> io::Result<()> {
        Ok(())
    }
}

/// Creates a device with this text to read, which fails after `calls` calls.
pub fn some_device(
    alloc: Global,
    text: &str,
    calls: u8,
    failure: Option<io::ErrorKind>,
) -> Device<'_> {
    let (left, taken) = (text.as_bytes(), Vec::new(alloc));
    Device {
        left,
        taken,
        calls,
        failure,
    }
}

/// The options that print the routing table as text, without progress.
pub const PRINTING: PrintOptions = PrintOptions {
    show: Show::Routes,
    format: Format::Text,
    progress: false,
};

// Replays the recording with these numbers of reads and writes. Returns the result, if the output
// is a prefix of the routes, and if it is all of them.
fn replays(
    alloc: Global,
    hashing: RandomState,
    text: &str,
    calls: (u8, u8),
    failure: Option<io::ErrorKind>,
) -> (Result<(), ReplayFault>, bool, bool) {
    let mut input = some_device(alloc, text, calls.0, None);
    let mut out = some_device(alloc, "", calls.1, failure);
    let mut faults = Vec::new(alloc);
    let answer = replay_one(alloc, hashing, PRINTING, &mut input, &mut out, &mut faults);
    let written = out.taken.as_slice();
    let begins = ROUTES.as_bytes().starts_with(written);
    (answer, begins, written.len() == ROUTES.len())
}

pub fn run<R: AllocGlobal + RandomSource>(rt: &R) -> Result<()> {
    let (alloc, hashing) = (rt.alloc(), RandomState::new(rt)?);
    ensure!(
        fails_by_its_reader(alloc, hashing),
        "another end by reads that fail"
    );
    ensure!(
        fails_by_its_writer(alloc, hashing),
        "another end by writes that fail"
    );
    ensure!(
        fails_by_its_input(alloc, hashing),
        "another end by a fault of the input"
    );
    Ok(())
}

// The recording is read in 15 calls, the last of which gives no bytes.
fn fails_by_its_reader(alloc: Global, hashing: RandomState) -> bool {
    let mut all = true;
    for calls in 0..15 {
        let (answer, begins, _) = replays(alloc, hashing, RECORDING, (calls, 255), None);
        all &= answer == Err(ReplayFault::Read) && begins;
    }
    let whole = replays(alloc, hashing, RECORDING, (255, 255), None);
    all && whole == (Ok(()), true, true)
}

fn fails_by_its_writer(alloc: Global, hashing: RandomState) -> bool {
    let (full, closed) = (io::ErrorKind::StorageFull, io::ErrorKind::BrokenPipe);
    let mut all = true;
    for calls in 0..10 {
        for (failure, fault) in [
            (Some(full), ReplayFault::Write),
            (Some(closed), ReplayFault::Closed),
            (None, ReplayFault::Write),
        ] {
            let found = replays(alloc, hashing, RECORDING, (255, calls), failure);
            all &= found == (Err(fault), true, false);
        }
    }
    all
}

// A fault of the input is returned although nothing can be written.
fn fails_by_its_input(alloc: Global, hashing: RandomState) -> bool {
    let (line, fault) = (2, Fault::Truncated);
    let line_fault = ReplayFault::Line(LineFault { line, fault });
    let found = replays(alloc, hashing, "abr 1\n", (255, 0), None);
    found.0 == Err(line_fault)
}
