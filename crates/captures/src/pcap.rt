//! The header and the packets of a pcap.

ghost use Rattle.std.specs.Prelude.{◌≡◌, ◌+◌, ◌*◌, ◌≤◌, IfOk, length};
ghost use Rattle.captures.specs.Pcap.{fraction_of, link_of, magic_of, file_front, packet_front};
ghost use Rattle.captures.specs.Pcap.{nanoseconds_of};
ghost use Rattle.captures.specs.Fronts.{IsInReach};

use crate::fault::FaultKind;
use crate::front::{CaptureFormat, Front, MOST_CAPTURED, PacketHeader};
use crate::order::Order;

/// The length of the header of a pcap.
const FILE_HEADER: usize = 24;

/// The length of the header before each packet.
const PACKET_HEADER: usize = 16;

/// The unit of the fraction of a second.
#[derive(Clone, Copy)]
pub(crate) enum Fraction {
    /// Microseconds.
    Micro,
    /// Nanoseconds.
    Nano,
}

/// The meaning of the magic number of a pcap.
#[derive(Clone, Copy)]
pub(crate) struct Magic {
    pub(crate) order: Order,
    pub(crate) fraction: Fraction,
}

/// The fields of the header of a pcap that are used.
#[derive(Clone, Copy)]
pub(crate) struct PcapFile {
    pub(crate) magic: Magic,
    /// The LINKTYPE_ number of each packet.
    pub(crate) link: u16,
}

// Returns the unit of the magic number in this byte order, or `None` if it is not one.
fn fraction_in(order: Order, bytes: &[u8]) -> Option<Fraction>
    requires { 4 ≤ length bytes.now }
    ensures { result ≡ fraction_of order bytes.now }
{
    match order.u32_at(bytes, 0) {
        0xA1B2_C3D4 => Some(Fraction::Micro),
        0xA1B2_3C4D => Some(Fraction::Nano),
        _ => None,
    }
}

/// Reads the magic number of a pcap, or returns `None` if the bytes do not begin with one.
pub(crate) fn magic_in(bytes: &[u8]) -> Option<Magic>
    requires { 4 ≤ length bytes.now }
    ensures { result ≡ magic_of bytes.now }
{
    if let Some(fraction) = fraction_in(Order::Big, bytes) {
        return Some(Magic {
            order: Order::Big,
            fraction,
        });
    }
    if let Some(fraction) = fraction_in(Order::Little, bytes) {
        return Some(Magic {
            order: Order::Little,
            fraction,
        });
    }
    None
}

/// Reads the header of a pcap, whose magic number is known.
pub(crate) fn file_front_in(magic: Magic, bytes: &[u8]) -> Result<Front, FaultKind>
    ensures front { result ≡ file_front magic bytes.now }
    ensures reach { IfOk result (IsInReach bytes.now) }
{
    if bytes.len() < FILE_HEADER {
        return Ok(Front::Short(FILE_HEADER));
    }
    if magic.order.u16_at(bytes, 4) != 2 {
        return Err(FaultKind::Version);
    }
    let link = link_in(magic.order.u32_at(bytes, 20));
    let file = PcapFile { magic, link };
    Ok(Front::Header(CaptureFormat::Pcap(file), FILE_HEADER))
}

// Returns the LINKTYPE_ number, which is the low 16 bits of its field.
fn link_in(field: u32) -> u16
    ensures { result ≡ link_of field }
{
    (field % 0x1_0000) as u16
}

/// Reads the packet at the start of the bytes.
pub(crate) fn packet_front_in(file: PcapFile, bytes: &[u8]) -> Result<Front, FaultKind>
    ensures front { result ≡ packet_front file bytes.now }
    ensures reach { IfOk result (IsInReach bytes.now) }
{
    let order = file.magic.order;
    if bytes.len() < PACKET_HEADER {
        return Ok(Front::Short(PACKET_HEADER));
    }
    let captured = order.u32_at(bytes, 8) as usize;
    if captured > MOST_CAPTURED {
        return Err(FaultKind::PacketLength);
    }
    let length = PACKET_HEADER + captured;
    if bytes.len() < length {
        return Ok(Front::Short(length));
    }
    let header = PacketHeader {
        time: Some(nanoseconds(
            file.magic.fraction,
            order.u32_at(bytes, 0),
            order.u32_at(bytes, 4),
        )),
        link: file.link,
        wire_length: order.u32_at(bytes, 12),
        start: PACKET_HEADER,
        captured,
    };
    Ok(Front::Captured(header, length))
}

// Returns the seconds and the fraction in nanoseconds.
fn nanoseconds(unit: Fraction, seconds: u32, fraction: u32) -> u64
    ensures { result ≡ nanoseconds_of unit seconds fraction }
{
    let behind = match unit {
        Fraction::Micro => 1_000 * u64::from(fraction),
        Fraction::Nano => u64::from(fraction),
    };
    1_000_000_000 * u64::from(seconds) + behind
}
