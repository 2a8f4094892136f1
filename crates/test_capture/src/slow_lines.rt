//! Tests of lines that are read from an input with few bytes a read, with an interrupted read
//! before each.
//!
//! The name of each test is printed. The first line that is not the expected one ends the run with
//! an error.
mod long;
mod trial;

use crate::slow_input::SlowInput;
use anyhow::{Result, ensure};
use input_reading::ReadFault;
use long::long_lines;
use std::alloc::Global;
use std::io;
use trial::{ExpectedResult, STEPS, Trial, do_come};

pub fn run(rt: &HostRuntime) -> Result<()> {
    for trial in short_lines() {
        trial.run(rt.alloc(), &STEPS)?;
        println!(rt; "{}", trial.name)?;
    }
    try_fault(rt.alloc(), io::ErrorKind::PermissionDenied, ReadFault::Read)?;
    println!(rt; "a failed read")?;
    try_fault(rt.alloc(), io::ErrorKind::OutOfMemory, ReadFault::Memory)?;
    println!(rt; "a read for which memory runs out")?;
    for line in long_lines() {
        line.run(rt.alloc())?;
        println!(rt; "{}", line.name)?;
    }
    Ok(())
}

fn short_lines() -> [Trial<'static>; 3] {
    [
        Trial {
            name: "nothing",
            text: b"",
            wanted: &[ExpectedResult::End, ExpectedResult::End],
        },
        Trial {
            name: "empty lines",
            text: b"\n\n",
            wanted: &[
                ExpectedResult::Line(b""),
                ExpectedResult::Line(b""),
                ExpectedResult::End,
            ],
        },
        Trial {
            name: "short lines",
            text: b"1 up\n\r\n\xff\0 2",
            wanted: &[
                ExpectedResult::Line(b"1 up"),
                ExpectedResult::Line(b"\r"),
                ExpectedResult::Cut(b"\xff\0 2"),
                ExpectedResult::End,
                ExpectedResult::End,
            ],
        },
    ]
}

// A read that fails: the bytes of the line are lost, and the rest of the line comes next.
fn try_fault(alloc: Global, kind: io::ErrorKind, fault: ReadFault) -> Result<()> {
    let wanted = [
        ExpectedResult::Line(b"ab"),
        ExpectedResult::Fault(fault),
        ExpectedResult::Line(b"ef"),
        ExpectedResult::Line(b"gh"),
        ExpectedResult::End,
    ];
    for step in STEPS {
        let mut input = SlowInput::new(b"ab\ncd", step)
            .with_interrupts()
            .with_fault(kind, b"ef\ngh\n");
        let are_so = do_come(alloc, &mut input, &wanted)?;
        ensure!(are_so, "{fault:?}: something else comes by reads of {step}");
    }
    Ok(())
}
