//! The blocks of a pcapng.

ghost use Rattle.std.specs.Prelude.{◌≡◌, ◌≤◌, IfOk, length};
ghost use Rattle.captures.specs.Blocks.{block_front, framed_front, content_front, section_front};
ghost use Rattle.captures.specs.Frames.{least_length, IsFrame};
ghost use Rattle.captures.specs.Fronts.{IsInReach};

use crate::fault::FaultKind;
use crate::frame::{BlockKind, FRAME, Frame, frame_in};
use crate::front::{CaptureFormat, Front};
use crate::interface::{CaptureInterface, interface_front_in};
use crate::order::Order;
use crate::packets::{simple_front_in, timed_front_in};

/// Reads the block at the start of the bytes, in a section of this byte order.
pub(crate) fn block_front_in(
    order: Order,
    interfaces: &[CaptureInterface],
    bytes: &[u8],
) -> Result<Front, FaultKind>
    ensures front { result ≡ block_front order interfaces.now bytes.now }
    ensures reach { IfOk result (IsInReach bytes.now) }
{
    if bytes.len() < FRAME {
        return Ok(Front::Short(FRAME));
    }
    let frame = frame_in(order, bytes)?;
    framed_front_in(frame, interfaces, bytes)
}

// Reads the block at the start of the bytes, whose frame is known.
fn framed_front_in(
    frame: Frame,
    interfaces: &[CaptureInterface],
    bytes: &[u8],
) -> Result<Front, FaultKind>
    requires { IsFrame frame }
    ensures front { result ≡ framed_front frame interfaces.now bytes.now }
    ensures reach { IfOk result (IsInReach bytes.now) }
{
    let Frame {
        kind,
        order,
        length,
    } = frame;
    if let BlockKind::Other = kind {
        return Ok(Front::Other(length));
    }
    if bytes.len() < length {
        return Ok(Front::Short(length));
    }
    if order.u32_at(bytes, length - 4) as usize != length {
        return Err(FaultKind::BlockLength);
    }
    content_front_in(frame, interfaces, &bytes[..length])
}

// Reads the content of a whole block.
fn content_front_in(
    frame: Frame,
    interfaces: &[CaptureInterface],
    block: &[u8],
) -> Result<Front, FaultKind>
    requires { least_length frame.kind ≤ length block.now }
    ensures front { result ≡ content_front frame.kind frame.order interfaces.now block.now }
    ensures reach { IfOk result (IsInReach block.now) }
{
    let order = frame.order;
    match frame.kind {
        BlockKind::Section => section_front_in(order, block),
        BlockKind::Interface => interface_front_in(order, block),
        BlockKind::Obsolete => {
            timed_front_in(
                order,
                usize::from(order.u16_at(block, 8)),
                interfaces,
                block,
            )
        }
        BlockKind::Simple => simple_front_in(order, interfaces, block),
        BlockKind::Enhanced => {
            timed_front_in(order, order.u32_at(block, 8) as usize, interfaces, block)
        }
        BlockKind::Other => Ok(Front::Other(block.len())),
    }
}

// Reads the header of a section from a whole block.
fn section_front_in(order: Order, block: &[u8]) -> Result<Front, FaultKind>
    requires { 28 ≤ length block.now }
    ensures front { result ≡ section_front order block.now }
    ensures reach { IfOk result (IsInReach block.now) }
{
    if order.u16_at(block, 12) != 1 {
        return Err(FaultKind::Version);
    }
    Ok(Front::Header(CaptureFormat::Section(order), block.len()))
}
