//! The interfaces of a section of a pcapng.

ghost use Rattle.std.specs.Prelude.{◌≡◌, ◌≤◌, IfOk, length};
ghost use Rattle.captures.specs.Interfaces.{interface_front};
ghost use Rattle.captures.specs.Fronts.{IsInReach};

use crate::fault::FaultKind;
use crate::front::Front;
use crate::options::timing_in;
use crate::order::Order;
use crate::time::Timing;

/// An interface that a section has declared.
#[derive(Clone, Copy)]
pub(crate) struct CaptureInterface {
    /// The LINKTYPE_ number of its packets.
    pub(crate) link: u16,
    /// The greatest number of bytes of a packet that are captured, or 0 for no limit.
    pub(crate) snap_length: u32,
    pub(crate) timing: Timing,
}

/// Reads the declaration of an interface from a whole block.
pub(crate) fn interface_front_in(order: Order, block: &[u8]) -> Result<Front, FaultKind>
    requires { 20 ≤ length block.now }
    ensures front { result ≡ interface_front order block.now }
    ensures reach { IfOk result (IsInReach block.now) }
{
    let timing = timing_in(order, &block[16..block.len() - 4])?;
    let interface = CaptureInterface {
        link: order.u16_at(block, 8),
        snap_length: order.u32_at(block, 12),
        timing,
    };
    Ok(Front::Declared(interface, block.len()))
}
