//! Records a capture with an input or an output that fails, and prints the results.
mod device;
pub mod samples;

use anyhow::Result;
use capture_recording::{Capturing, Options, Preamble, record_capture};
use device::{InputDevice, OutputDevice};
use samples::{CAPTURE, FIRST, FRONT, HEADER};
use std::hash::RandomState;
use std::io;

/// The default options.
const OPTIONS: Options = Options {
    keeps_all: false,
    without_seconds: false,
};

/// A greater number of bytes than are written.
const AMPLE: usize = 1_000;

/// A capture, and the devices with which it is recorded.
#[derive(Clone, Copy)]
struct Trial<'a> {
    name: &'a str,
    beginning: Preamble<'a>,
    /// The number of bytes of the capture that can be read.
    length: usize,
    /// True if a read fails after them.
    fails: bool,
    /// The number of bytes of the recording that can be written. `failure` is the error of a write
    /// after them.
    room: usize,
    failure: io::ErrorKind,
    /// The number of bytes that can be written to standard error.
    told: usize,
}

/// A trial in which nothing fails.
const WHOLE: Trial<'static> = Trial {
    name: "nothing fails",
    beginning: Preamble::Given(FRONT),
    length: CAPTURE.len(),
    fails: false,
    room: AMPLE,
    failure: io::ErrorKind::StorageFull,
    told: AMPLE,
};

pub fn run(rt: &HostRuntime) -> Result<()> {
    let hashing = RandomState::new(rt)?;
    for trial in trials() {
        trial.run(rt, hashing)?;
    }
    Ok(())
}

fn trials() -> [Trial<'static>; 7] {
    [
        WHOLE,
        Trial {
            name: "a read fails behind the first packet",
            length: FIRST,
            fails: true,
            ..WHOLE
        },
        Trial {
            name: "10 bytes can be written",
            room: 10,
            ..WHOLE
        },
        Trial {
            name: "the output is closed behind 46 bytes",
            room: 46,
            failure: io::ErrorKind::BrokenPipe,
            ..WHOLE
        },
        Trial {
            name: "5 bytes can be said",
            told: 5,
            ..WHOLE
        },
        Trial {
            name: "the beginning is no recording",
            beginning: Preamble::Given(b"abr 1\n"),
            ..WHOLE
        },
        Trial {
            name: "the capture has no packet",
            beginning: Preamble::Router(0x0a00_0001),
            length: HEADER,
            ..WHOLE
        },
    ]
}

impl Trial<'_> {
    fn run(self, rt: &HostRuntime, hashing: RandomState) -> Result<()> {
        let alloc = rt.alloc();
        let bytes = CAPTURE.get(..self.length).unwrap_or(&CAPTURE);
        let mut input = InputDevice::new(bytes, self.fails);
        let mut out = OutputDevice::new(alloc, self.room, self.failure);
        let mut faults = OutputDevice::new(alloc, self.told, self.failure);
        let capturing = Capturing {
            options: OPTIONS,
            beginning: self.beginning,
        };
        let answer = record_capture(alloc, hashing, capturing, &mut input, &mut out, &mut faults);
        println!(rt; "{}: {answer:?}", self.name)?;
        println!(rt; "{}", std::str::from_utf8(out.taken())?)?;
        println!(rt; "{}", std::str::from_utf8(faults.taken())?)?;
        Ok(())
    }
}
