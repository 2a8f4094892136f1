//! The packets of a pcapng.

ghost use Rattle.std.specs.Prelude.{◌≡◌, ◌≤◌, IfOk, length};
ghost use Rattle.std.specs.List.{slice_get};
ghost use Rattle.captures.specs.Packets.{is_too_long, units_in, snapped, simple_front, timed_front};
ghost use Rattle.captures.specs.Packets.{timed_in, simple_in};
ghost use Rattle.captures.specs.Fronts.{IsInReach};

use crate::fault::FaultKind;
use crate::front::{Front, MOST_CAPTURED, PacketHeader};
use crate::interface::CaptureInterface;
use crate::order::Order;

/// The length of an enhanced or obsolete packet without bytes and without options.
const EMPTY_TIMED: usize = 32;

/// The length of a simple packet without bytes.
const EMPTY_SIMPLE: usize = 16;

// Returns the interface with this number.
fn interface_at(interfaces: &[CaptureInterface], number: usize) -> Option<CaptureInterface>
    ensures { result ≡ slice_get interfaces.now number }
{
    interfaces.get(number).copied()
}

// Returns true if a packet has more bytes than its block has room for, or than any packet may have.
fn is_past(captured: usize, room: usize) -> bool
    ensures { result ≡ is_too_long captured room }
{
    captured > room || captured > MOST_CAPTURED
}

/// Reads the packet of a whole enhanced or obsolete block. `number` is its interface.
pub(crate) fn timed_front_in(
    order: Order,
    number: usize,
    interfaces: &[CaptureInterface],
    block: &[u8],
) -> Result<Front, FaultKind>
    requires { 32 ≤ length block.now }
    ensures front { result ≡ timed_front order number interfaces.now block.now }
    ensures reach { IfOk result (IsInReach block.now) }
{
    match interface_at(interfaces, number) {
        Some(interface) => timed_packet(order, interface, block),
        None => Err(FaultKind::NoInterface),
    }
}

// Reads the packet of a whole enhanced or obsolete block. The fields before the time give its
// interface.
fn timed_packet(order: Order, interface: CaptureInterface, block: &[u8]) -> Result<Front, FaultKind>
    requires { 32 ≤ length block.now }
    ensures front { result ≡ timed_in order interface block.now }
    ensures reach { IfOk result (IsInReach block.now) }
{
    let captured = order.u32_at(block, 20) as usize;
    if is_past(captured, block.len() - EMPTY_TIMED) {
        return Err(FaultKind::PacketLength);
    }
    let Some(time) = interface.timing.time(time_units(order, block)) else {
        return Err(FaultKind::Resolution);
    };
    let header = PacketHeader {
        time: Some(time),
        link: interface.link,
        wire_length: order.u32_at(block, 24),
        start: 28,
        captured,
    };
    Ok(Front::Captured(header, block.len()))
}

// Returns the time in units of the interface. Its high 4 bytes come first in either byte order.
fn time_units(order: Order, block: &[u8]) -> u64
    requires { 32 ≤ length block.now }
    ensures { result ≡ units_in order block.now }
{
    u64::from(order.u32_at(block, 12)) * 0x1_0000_0000 + u64::from(order.u32_at(block, 16))
}

/// Reads the packet of a whole simple block, which belongs to the first interface.
pub(crate) fn simple_front_in(
    order: Order,
    interfaces: &[CaptureInterface],
    block: &[u8],
) -> Result<Front, FaultKind>
    requires { 16 ≤ length block.now }
    ensures front { result ≡ simple_front order interfaces.now block.now }
    ensures reach { IfOk result (IsInReach block.now) }
{
    match interface_at(interfaces, 0) {
        Some(interface) => simple_packet(order, interface, block),
        None => Err(FaultKind::NoInterface),
    }
}

// Reads the packet of a whole simple block, cut to the snap length of its interface.
fn simple_packet(
    order: Order,
    interface: CaptureInterface,
    block: &[u8],
) -> Result<Front, FaultKind>
    requires { 16 ≤ length block.now }
    ensures front { result ≡ simple_in order interface block.now }
    ensures reach { IfOk result (IsInReach block.now) }
{
    let wire_length = order.u32_at(block, 8);
    let captured = cut_to(interface.snap_length, wire_length) as usize;
    if is_past(captured, block.len() - EMPTY_SIMPLE) {
        return Err(FaultKind::PacketLength);
    }
    let header = PacketHeader {
        time: None,
        link: interface.link,
        wire_length,
        start: 12,
        captured,
    };
    Ok(Front::Captured(header, block.len()))
}

// Returns the number of bytes that are captured of a packet.
fn cut_to(snap_length: u32, wire_length: u32) -> u32
    ensures { result ≡ snapped snap_length wire_length }
{
    if snap_length == 0 {
        wire_length
    } else {
        snap_length.min(wire_length)
    }
}
