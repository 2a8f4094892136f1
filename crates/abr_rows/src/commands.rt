//! Commands over writers that fail.

use crate::trial::UNSHOWN;
use abr_cli::{Invocation, job};
use anyhow::{Result, ensure};
use std::alloc::Global;
use std::hash::RandomState;
use std::io;
use std::random::RandomSource;
use std::sync::Wait;
use std::thread::Threads;

// The router-LSA of 10.0.0.1 with one stub link, to 192.0.2.0/24 at metric 10.
const STUB: &str = "000102010a0000010a00000180000001e986002400000001c0000200ffffff000300000a";

// The arguments of `abr one`.
const ONE: [&str; 7] = [
    "abr",
    "one",
    "10.0.0.1",
    "0.0.0.0",
    "192.0.2.1",
    STUB,
    "192.0.2.77",
];

// Returns the status of the command with these arguments, with a recording as its input.
fn status<S: Threads + Wait + Sync, W: io::Write, F: io::Write>(
    rt: &S,
    alloc: Global,
    hashing: RandomState,
    words: &[&str],
    out: &mut W,
    faults: &mut F,
) -> u8 {
    let mut input: &[u8] = b"abr 1\nrouter 1.2.3.4\narea 0.0.0.0 normal\n";
    let job = job(alloc, words);
    let called = Invocation {
        job,
        hashing,
        progress: UNSHOWN,
        beginning: None,
    };
    called.run(rt, alloc, &mut input, out, faults)
}

// A device that fails at each write, with an error of this kind.
#[derive(Drop)]
struct Failing {
    kind: io::ErrorKind,
}

impl io::Write for Failing {
    fn write(&mut self, _buf: &[u8]) -> io::Result<usize> {
        Err(io::Error::from(self.kind))
    }

    fn flush(&mut self) -> io::Result<()> {
        Ok(())
    }
}

fn cannot_print<S: Threads + Wait + Sync>(
    rt: &S,
    alloc: Global,
    hashing: RandomState,
    words: &[&str],
) -> bool {
    cannot_write(rt, alloc, hashing, words, "abr: cannot write\n")
}

// Returns true if the command prints this line for a full disk, and nothing for a closed pipe.
fn cannot_write<S: Threads + Wait + Sync>(
    rt: &S,
    alloc: Global,
    hashing: RandomState,
    words: &[&str],
    line: &str,
) -> bool {
    let mut all = true;
    for (kind, said) in [
        (io::ErrorKind::StorageFull, line),
        (io::ErrorKind::BrokenPipe, ""),
    ] {
        let (mut out, mut faults) = (Failing { kind }, Vec::new(alloc));
        all &= status(rt, alloc, hashing, words, &mut out, &mut faults) == 1
            && faults.as_slice() == said.as_bytes();
    }
    all
}

fn cannot_tell_the_fault<S: Threads + Wait + Sync>(
    rt: &S,
    alloc: Global,
    hashing: RandomState,
    words: &[&str],
) -> bool {
    let kind = io::ErrorKind::StorageFull;
    let (mut out, mut faults) = (Vec::new(alloc), Failing { kind });
    status(rt, alloc, hashing, words, &mut out, &mut faults) == 1 && out.is_empty()
}

// The arguments of commands that print.
const PRINTING: [&[&str]; 7] = [
    &ONE,
    &["abr", "decode", STUB],
    &["abr", "replay", "-"],
    &["abr", "explain", "-", "192.0.2.1"],
    &["abr", "page", "-"],
    &["abr", "replay", "-", "--workers", "2"],
    &["abr", "--help"],
];

// The arguments of a command that writes to a file, and the line that it prints if it cannot.
const WRITING: [&str; 5] = ["abr", "page", "-", "-o", "network.html"];

const UNWRITTEN: &str = "abr: cannot write network.html\n";

// Arguments that are not valid.
const FAULTY: [&[&str]; 3] = [
    &["abr", "one", "", "", "", "", ""],
    &["abr", "decode", "0"],
    &["abr", "two"],
];

// Runs commands that cannot write. Their status has to be 1.
pub fn run<R: AllocGlobal + RandomSource + Threads + Wait + Sync>(rt: &R) -> Result<()> {
    let (alloc, hashing) = (rt.alloc(), RandomState::new(rt)?);
    for words in PRINTING {
        ensure!(
            cannot_print(rt, alloc, hashing, words),
            "another end: {words:?}"
        );
    }
    let is_told = cannot_write(rt, alloc, hashing, &WRITING, UNWRITTEN);
    ensure!(is_told, "another end: {WRITING:?}");
    for words in FAULTY {
        ensure!(
            cannot_tell_the_fault(rt, alloc, hashing, words),
            "another end: {words:?}"
        );
    }
    Ok(())
}
