//! The program `abr`: the databases and the routing table of an OSPF area border router (RFC 2328)
//! from the command line.
//!
//! `abr_cli` has the meaning of its words, and its output. This crate has what it needs of the
//! system.
#![tactic(auto)]

mod beginning;
mod counting;
mod output;
mod progress;
mod sink;
mod source;

use abr_cli::{CommandAnswer, Invocation, job, print_answer};
use beginning::beginning_of;
use progress::progress_of;
use sink::Sink;
use source::Source;
use std::hash::RandomState;
use std::io;
use std::process::ExitCode;
use std::sync::Wait;
use std::thread::Threads;

fn main(rt: HostRuntime) -> io::Result<ExitCode> {
    let status = match status(&rt, &rt) {
        Ok(status) => status,
        Err(error) if error.kind() == io::ErrorKind::OutOfMemory => {
            print_answer(&CommandAnswer::NoMemory, &mut rt.stdout(), &mut rt.stderr())
        }
        Err(error) => return Err(error),
    };
    Ok(ExitCode::from(status))
}

// Carries out what the words ask for, with threads from `threads`. Returns the status.
fn status<S: Threads + Wait + Sync>(rt: &HostRuntime, threads: &S) -> io::Result<u8> {
    let all: Vec<String> = std::env::args(rt)?.collect(rt.alloc())?;
    let mut words = Vec::new(rt.alloc());
    for word in all.as_slice() {
        words.push(word.as_str())?;
    }
    let job = job(rt.alloc(), words.as_slice());
    let hashing = RandomState::new(rt)?;
    let mut input = Source::of(rt, &job);
    let (mut out, mut faults) = (Sink::of(rt, &job), rt.stderr());
    let progress = progress_of(rt, &job, &out);
    let given = beginning_of(rt, &job);
    let beginning = match &given {
        Some(bytes) => Some(bytes.as_slice()),
        None => None,
    };
    let called = Invocation {
        job,
        hashing,
        progress,
        beginning,
    };
    let status = called.run(threads, rt.alloc(), &mut input, &mut out, &mut faults);
    Ok(out.end(status, &mut faults))
}
