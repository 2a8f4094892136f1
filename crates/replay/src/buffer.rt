//! The buffer: printed lines are collected in it, and written when it is full.
ghost use Rattle.std.specs.Prelude.{IfOk, IfErr, OnOk, [], ◌≡◌, string_bytes};
ghost use Rattle.replay.specs.Pages.{AddsLines, AddsPart};
ghost use Rattle.replay.specs.Stops.{fault_of, stop_of};

use crate::fault::ReplayFault;
use crate::writing::{WriteError, write_whole};
use ospf_types::memory::Memory;
use std::alloc::Global;
use std::io;

/// The reason why printing stopped.
#[derive(Clone, Copy)]
pub enum PrintError {
    /// A write that failed.
    Write,
    /// A write to a pipe whose reading end was closed.
    Closed,
    /// A lack of memory.
    Memory,
}

impl From<WriteError> for PrintError {
    ghost use Rattle.std.specs.Prelude.{◌≡◌};
    ghost use Rattle.replay.specs.Stops.{stop_of};

    ghost from_gives = { λ why given. given ≡ stop_of why };

    fn from(why: WriteError) -> PrintError {
        match why {
            WriteError::Failed => PrintError::Write,
            WriteError::Closed => PrintError::Closed,
        }
    }
}

impl From<Memory> for PrintError {
    ghost use Rattle.std.specs.Prelude.{◌≡◌};
    ghost use Rattle.replay.specs.declared.buffer.PrintError.TheVariants.{Memory as OutOfMemory};

    ghost from_gives = { λ _ given. given ≡ OutOfMemory };

    fn from(_e: Memory) -> PrintError {
        PrintError::Memory
    }
}

/// Returns the fault of a replay whose printing stopped for this reason.
pub fn fault_of(stop: PrintError) -> ReplayFault
    ensures { result ≡ fault_of stop }
{
    match stop {
        PrintError::Write => ReplayFault::Write,
        PrintError::Closed => ReplayFault::Closed,
        PrintError::Memory => ReplayFault::Memory,
    }
}

// The number of bytes from which on a buffer is full. Its capacity is twice as large, to have room
// for a last line.
const LENGTH: usize = 8192;

/// Creates an empty buffer, with room for twice as many bytes as make it full.
pub fn new_buffer(alloc: Global) -> Result<String, Memory>
    ensures { IfOk result (λ buffer. string_bytes buffer ≡ []) }
{
    Ok(String::with_capacity(alloc, 2 * LENGTH)?)
}

/// Writes the buffer and empties it, if it has 8,192 bytes or more.
///
/// # Errors
///
/// Returns the `WriteError` of the write. A beginning of the buffer may be written then, but not
/// all of it, and the buffer is unchanged.
pub fn flush_if_full<W: io::Write>(out: &mut W, buffer: &mut String) -> Result<(), WriteError>
    ensures ok { OnOk result (AddsLines (W.contents out.old) (W.contents out.new) (string_bytes buffer.old)
        (string_bytes buffer.new) []) }
    ensures err { IfErr result (λ why. AddsPart (stop_of why) (W.contents out.old)
        (W.contents out.new) (string_bytes buffer.old)) }
{
    if buffer.len() < LENGTH {
        return Ok(());
    }
    flush_buffer(out, buffer)
}

/// Writes the buffer and empties it.
///
/// # Errors
///
/// Returns the `WriteError` of the write. A beginning of the buffer may be written then, but not
/// all of it, and the buffer is unchanged.
pub fn flush_buffer<W: io::Write>(out: &mut W, buffer: &mut String) -> Result<(), WriteError>
    ensures ok { OnOk result (AddsLines (W.contents out.old) (W.contents out.new) (string_bytes buffer.old)
        (string_bytes buffer.new) []) }
    ensures empty { OnOk result (string_bytes buffer.new ≡ []) }
    ensures err { IfErr result (λ why. AddsPart (stop_of why) (W.contents out.old)
        (W.contents out.new) (string_bytes buffer.old)) }
{
    write_whole(out, buffer.as_bytes())?;
    buffer.clear();
    Ok(())
}
