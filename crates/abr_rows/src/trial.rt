//! One row, and how it is run.

use crate::input::Input;
use crate::row::TestRow;
use abr_cli::{Invocation, Progress, job};
use std::alloc::{AllocError, Global};
use std::hash::RandomState;
use std::sync::Wait;
use std::thread::Threads;

/// Progress that is not shown, unless the arguments ask for it.
pub const UNSHOWN: Progress = Progress {
    is_shown: false,
    all: None,
};

/// Returns true if the command has the expected results of the row.
///
/// # Errors
///
/// Returns an error if memory runs out.
pub fn is_as_wanted<S: Threads + Wait + Sync>(
    rt: &S,
    alloc: Global,
    hashing: RandomState,
    row: &TestRow<'_>,
) -> Result<bool, AllocError> {
    let mut input = if row.is_readable {
        Input::Bytes(row.input.as_slice())
    } else {
        Input::Unreadable
    };
    let (mut out, mut faults) = (Vec::new(alloc), Vec::new(alloc));
    let job = job(alloc, row.words.as_slice());
    let beginning = if row.has_beginning {
        Some(row.beginning.as_slice())
    } else {
        None
    };
    let called = Invocation {
        job,
        hashing,
        progress: UNSHOWN,
        beginning,
    };
    let status = called.run(rt, alloc, &mut input, &mut out, &mut faults);
    let is_text = row.is_any_text
        || (out.as_slice() == row.output.as_slice() && faults.as_slice() == row.faults.as_slice());
    Ok(status == row.status && is_text)
}
