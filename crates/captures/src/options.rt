//! The options of an interface of a pcapng.

ghost use Rattle.std.specs.Prelude.{◌≡◌, ◌+◌, ◌≤◌, false, length};
ghost use Rattle.captures.specs.Options.{padded, code_of, length_of, size_of, is_end, is_cut};
ghost use Rattle.captures.specs.Options.{with_option, timing_of};

use crate::fault::FaultKind;
use crate::order::Order;
use crate::time::{Timing, USUAL_TIMING, offset_in, resolution_in};

/// The code of the option for the resolution of times. Its value has 1 byte.
const RESOLUTION: u16 = 9;

/// The code of the option for the offset of times. Its value has 8 bytes.
const OFFSET: u16 = 14;

/// Reads the timing from the options. If an option occurs twice, the last one counts.
pub(crate) fn timing_in(order: Order, options: &[u8]) -> Result<Timing, FaultKind>
    ensures { result ≡ timing_of order options.now }
{
    let mut timing = USUAL_TIMING;
    let mut rest = options;
    for _ in 0..options.len() {
        if is_last(order, rest) {
            return Ok(timing);
        }
        if is_cut_off(order, rest) {
            return Err(FaultKind::Options);
        }
        timing = timing_with(order, rest, timing)?;
        rest = &rest[size(order, rest)..];
    }
    Ok(timing)
}

// Returns true if no option is left, or if the next one ends the options.
fn is_last(order: Order, rest: &[u8]) -> bool
    ensures { result ≡ is_end order rest.now }
{
    rest.is_empty() || (rest.len() >= 4 && order.u16_at(rest, 0) == 0)
}

// Returns true if the next option extends past the end.
fn is_cut_off(order: Order, rest: &[u8]) -> bool
    ensures { result ≡ is_cut order rest.now }
{
    rest.len() < 4 || rest.len() < size(order, rest)
}

// Returns the size of the next option: its code and length, and its value padded to a multiple of 4
// bytes.
fn size(order: Order, rest: &[u8]) -> usize
    requires { 4 ≤ length rest.now }
    ensures { result ≡ size_of order rest.now }
{
    4 + usize::from(order.u16_at(rest, 2)).div_ceil(4) * 4
}

// Returns the timing, changed as the next option says.
fn timing_with(order: Order, rest: &[u8], timing: Timing) -> Result<Timing, FaultKind>
    requires { is_cut order rest.now ≡ false }
    ensures { result ≡ with_option order rest.now timing }
{
    match (order.u16_at(rest, 0), order.u16_at(rest, 2)) {
        (RESOLUTION, 1) => Ok(Timing {
            resolution: resolution_in(rest[4]),
            ..timing
        }),
        (OFFSET, 8) => Ok(Timing {
            offset: offset_in(order.u64_at(rest, 4)),
            ..timing
        }),
        (RESOLUTION | OFFSET, _) => Err(FaultKind::Options),
        _ => Ok(timing),
    }
}
