//! A single read of an input.
ghost use Rattle.std.specs.Prelude.{◌≡◌, ◌≢◌, ◌≤◌, ◌<◌, OnErr, IfOk, IfErr, length, take};
ghost use Rattle.std.specs.IoError.{error_kind};
ghost use Rattle.std.specs.declared.io.ErrorKind.TheVariants as ErrorKind;
ghost use Rattle.std.specs.Io.KnownBytes.{Consumes, IsAtEnd, Keeps};

use std::io;

/// Reads once into the buffer, and again if the read was interrupted. Returns the number of bytes
/// read: 0 only if the input is at its end or the buffer is empty.
///
/// # Errors
///
/// Returns the error of the input, unless it is of the kind `Interrupted`, or an error of the kind
/// `TimedOut` after `usize::MAX` interrupted reads. No bytes are lost.
pub fn read_once<R: io::Read>(input: &mut R, buffer: &mut [u8]) -> io::Result<usize>
    ensures bound { IfOk result (λ n. n ≤ length buffer.new) }
    ensures bytes { IfOk result (λ n.
        Consumes (R.remaining input.old) (R.remaining input.new) (take n buffer.new)) }
    ensures end { IfOk result (λ n.
        n ≡ 0 → 0 < length buffer.old → IsAtEnd (R.remaining input.new)) }
    ensures kept { OnErr result (Keeps (R.remaining input.old) (R.remaining input.new)) }
    ensures retried { IfErr result (λ e. error_kind e ≢ ErrorKind.Interrupted) }
{
    for _ in 0..usize::MAX {
        match input.read(buffer) {
            Ok(count) => return Ok(count),
            Err(error) if error.kind() == io::ErrorKind::Interrupted => {}
            Err(error) => return Err(error),
        }
    }
    Err(io::Error::from(io::ErrorKind::TimedOut))
}
