//! The first bytes of a capture.

ghost use Rattle.std.specs.Prelude.{◌≡◌, ◌≤◌, IfOk, length};
ghost use Rattle.captures.specs.Opening.{is_section, opening_front};
ghost use Rattle.captures.specs.Fronts.{IsInReach};

use crate::block::block_front_in;
use crate::fault::FaultKind;
use crate::frame::SECTION;
use crate::front::Front;
use crate::order::Order;
use crate::pcap::{file_front_in, magic_in};

/// The length of the magic number of a pcap, or of the type of a block.
const MAGIC: usize = 4;

/// Reads the first header of a capture.
pub(crate) fn opening_front_in(bytes: &[u8]) -> Result<Front, FaultKind>
    ensures front { result ≡ opening_front bytes.now }
    ensures reach { IfOk result (IsInReach bytes.now) }
{
    if bytes.len() < MAGIC {
        return Ok(Front::Short(MAGIC));
    }
    if begins_section(bytes) {
        return block_front_in(Order::Big, &[], bytes);
    }
    match magic_in(bytes) {
        Some(magic) => file_front_in(magic, bytes),
        None => Err(FaultKind::NoCapture),
    }
}

// Returns true if the bytes begin with the first block of a pcapng.
fn begins_section(bytes: &[u8]) -> bool
    requires { 4 ≤ length bytes.now }
    ensures { result ≡ is_section bytes.now }
{
    Order::Big.u32_at(bytes, 0) == SECTION
}
