//! Writes that go on until all bytes are written.
ghost use Rattle.std.specs.Prelude.{◌≡◌, ◌↔◌, ◌≤◌, [], take, length, Some, IsTrue, IfOk, IfErr};
ghost use Rattle.std.specs.Prelude.{OnOk, OnErr};
ghost use Rattle.std.specs.declared.io.ErrorKind.TheVariants as io_kind;
ghost use Rattle.std.specs.Io.KnownBytes.{Appends};
ghost use Rattle.replay.specs.Writing.{AppendsPart, IsWriteStep, IsWriteEnd, IsErrorEnd};

use std::io;

/// The reason why not all bytes were written.
#[derive(Clone, Copy, Debug, PartialEq, Eq)]
pub enum WriteError {
    /// A write that failed, or that took no bytes.
    Failed,
    /// A write that failed with `io::ErrorKind::BrokenPipe`: the reading end of the pipe was
    /// closed.
    Closed,
}

// Returns true if the write was interrupted. Only then is it tried again.
fn is_interrupted(kind: io::ErrorKind) -> bool
    ensures { IsTrue result ↔ (kind ≡ io_kind.Interrupted) }
{
    kind == io::ErrorKind::Interrupted
}

// Returns true if the write failed because the reading end of a pipe was closed.
fn is_closed_pipe(kind: io::ErrorKind) -> bool
    ensures { IsTrue result ↔ (kind ≡ io_kind.BrokenPipe) }
{
    kind == io::ErrorKind::BrokenPipe
}

// The outcome of a write: the number of bytes that it took. It is 0 only after an interruption.
#[derive(Clone, Copy)]
struct WriteOutcome {
    count: usize,
    // proof: the kind of the error, so that only an interrupted write can be tried again.
    failed: Option<io::ErrorKind>,
    ghost why: { count ≡ 0 → failed ≡ Some io_kind.Interrupted },
}

/// Writes all bytes. A write that was interrupted is tried again.
///
/// # Errors
///
/// Returns `Closed` if the writer's error is of the kind `BrokenPipe`, and `Failed` if it is of
/// another kind or the writer takes no bytes. A beginning of the bytes may be written then, but not
/// all of them.
pub fn write_whole<W: io::Write>(out: &mut W, bytes: &[u8]) -> Result<(), WriteError>
    ensures ok { OnOk result (Appends (W.contents out.old) (W.contents out.new) bytes.now) }
    ensures err { OnErr result (AppendsPart (W.contents out.old) (W.contents out.new) bytes.now) }
{
    let mut rest = bytes;
    for _ in 0..u64::MAX {
        if rest.is_empty() {
            return Ok(());
        }
        let step = write_some(out, rest)?;
        rest = &rest[step.count..];
    }
    if rest.is_empty() {
        Ok(())
    } else {
        Err(WriteError::Failed)
    }
}

// Makes one write.
fn write_some<W: io::Write>(out: &mut W, bytes: &[u8]) -> Result<WriteOutcome, WriteError>
    ensures bound { IfOk result (λ step. step.count ≤ length bytes.now) }
    ensures ok { IfOk result (λ step. Appends (W.contents out.old) (W.contents out.new)
        (take step.count bytes.now)) }
    ensures err { OnErr result (Appends (W.contents out.old) (W.contents out.new) []) }
{
    step_of(out.write(bytes))
}

// Returns the outcome of a write by its result, or the reason why no more is written.
fn step_of(answer: io::Result<usize>) -> Result<WriteOutcome, WriteError>
    ensures step { IfOk result (λ step. IsWriteStep answer step.count) }
    ensures end { IfErr result (IsWriteEnd answer) }
{
    match answer {
        Ok(0) => Err(WriteError::Failed),
        Ok(count) => Ok(WriteOutcome {
            count,
            failed: None,
        }),
        Err(error) => step_of_error(error.kind()),
    }
}

// Returns the outcome of a write that failed with this error.
fn step_of_error(kind: io::ErrorKind) -> Result<WriteOutcome, WriteError>
    ensures step { IfOk result (λ step. (step.count ≡ 0) × (kind ≡ io_kind.Interrupted)) }
    ensures end { IfErr result (IsErrorEnd kind) }
{
    if is_interrupted(kind) {
        return Ok(WriteOutcome {
            count: 0,
            failed: Some(kind),
        });
    }
    if is_closed_pipe(kind) {
        return Err(WriteError::Closed);
    }
    Err(WriteError::Failed)
}
