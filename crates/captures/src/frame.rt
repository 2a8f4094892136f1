//! The frames of the blocks of a pcapng.

ghost use Rattle.std.specs.Prelude.{◌≡◌, ◌≤◌, IfOk, length};
ghost use Rattle.captures.specs.Frames.{kind_of_number, least_length, most_length, is_wrong_length};
ghost use Rattle.captures.specs.Frames.{section_order, order_of, frame_of, IsFrame};

use crate::fault::FaultKind;
use crate::order::Order;

/// The number of bytes of a block that determine its frame. No block is shorter.
pub(crate) const FRAME: usize = 12;

/// The type of the block that begins a section. It is the same number in either byte order.
pub(crate) const SECTION: u32 = 0x0A0D_0D0A;

/// The greatest length, in bytes, of a block that is read.
const LONGEST_READ: usize = 1_048_576;

/// The number that shows the byte order of a section.
const BYTE_ORDER_MAGIC: u32 = 0x1A2B_3C4D;

/// The kind of a block, by its type.
#[derive(Clone, Copy)]
pub(crate) enum BlockKind {
    /// The header of a section.
    Section,
    /// The declaration of an interface, type 1.
    Interface,
    /// A packet in the form that was used before the enhanced packet, type 2.
    Obsolete,
    /// A packet with its length on the wire and no other fields, type 3.
    Simple,
    /// A packet with its interface and time, type 6.
    Enhanced,
    /// A block of another type, which is not read.
    Other,
}

/// The frame of a block.
#[derive(Clone, Copy)]
pub(crate) struct Frame {
    pub(crate) kind: BlockKind,
    /// The byte order of the block. The header of a section has that of the section.
    pub(crate) order: Order,
    /// The number of bytes of the whole block.
    pub(crate) length: usize,
}

/// Returns the frame of the block at the start of the bytes, in a section of this byte order.
pub(crate) fn frame_in(order: Order, bytes: &[u8]) -> Result<Frame, FaultKind>
    requires { 12 ≤ length bytes.now }
    ensures frame { result ≡ frame_of order bytes.now }
    ensures fits { IfOk result IsFrame }
{
    let kind = block_kind(order.u32_at(bytes, 0));
    let order = block_order(kind, order, bytes)?;
    let length = order.u32_at(bytes, 4) as usize;
    if is_wrong(kind, length) {
        return Err(FaultKind::BlockLength);
    }
    Ok(Frame {
        kind,
        order,
        length,
    })
}

fn block_kind(number: u32) -> BlockKind
    ensures { result ≡ kind_of_number number }
{
    match number {
        SECTION => BlockKind::Section,
        1 => BlockKind::Interface,
        2 => BlockKind::Obsolete,
        3 => BlockKind::Simple,
        6 => BlockKind::Enhanced,
        _ => BlockKind::Other,
    }
}

// Returns the byte order of the block: for the header of a section, the order of its own magic.
fn block_order(kind: BlockKind, order: Order, bytes: &[u8]) -> Result<Order, FaultKind>
    requires { 12 ≤ length bytes.now }
    ensures { result ≡ order_of kind order bytes.now }
{
    match kind {
        BlockKind::Section => order_of_section(bytes),
        _ => Ok(order),
    }
}

fn order_of_section(bytes: &[u8]) -> Result<Order, FaultKind>
    requires { 12 ≤ length bytes.now }
    ensures { result ≡ section_order bytes.now }
{
    if Order::Big.u32_at(bytes, 8) == BYTE_ORDER_MAGIC {
        return Ok(Order::Big);
    }
    if Order::Little.u32_at(bytes, 8) == BYTE_ORDER_MAGIC {
        return Ok(Order::Little);
    }
    Err(FaultKind::NoCapture)
}

// Returns true if blocks of the kind cannot have this length.
fn is_wrong(kind: BlockKind, length: usize) -> bool
    ensures { result ≡ is_wrong_length kind length }
{
    length % 4 != 0 || length < least(kind) || length > most(kind)
}

// Returns the length of a block of the kind without options and without bytes of a packet.
fn least(kind: BlockKind) -> usize
    ensures { result ≡ least_length kind }
{
    match kind {
        BlockKind::Section => 28,
        BlockKind::Interface => 20,
        BlockKind::Obsolete => 32,
        BlockKind::Simple => 16,
        BlockKind::Enhanced => 32,
        BlockKind::Other => FRAME,
    }
}

// Returns the greatest length of a block of the kind. A block that is not read has no limit.
fn most(kind: BlockKind) -> usize
    ensures { result ≡ most_length kind }
{
    match kind {
        BlockKind::Other => u32::MAX as usize,
        _ => LONGEST_READ,
    }
}
