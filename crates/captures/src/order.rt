//! Numbers in either byte order.

ghost use Rattle.std.specs.Prelude.{◌≡◌, ◌+◌, ◌≤◌, length};
ghost use Rattle.captures.specs.Numbers.{number_at};

use byteorder::{BigEndian, ByteOrder, LittleEndian};

/// A byte order.
#[derive(Clone, Copy, Debug, PartialEq, Eq)]
pub(crate) enum Order {
    /// The highest byte comes first.
    Big,
    /// The lowest byte comes first.
    Little,
}

impl Order {
    /// Returns the number in the 2 bytes at the index.
    pub(crate) fn u16_at(self, bytes: &[u8], place: usize) -> u16
        requires { place + 2 ≤ length bytes.now }
        ensures { result ≡ number_at self 2 place bytes.now }
    {
        match self {
            Order::Big => BigEndian::read_u16(&bytes[place..]),
            Order::Little => LittleEndian::read_u16(&bytes[place..]),
        }
    }

    /// Returns the number in the 4 bytes at the index.
    pub(crate) fn u32_at(self, bytes: &[u8], place: usize) -> u32
        requires { place + 4 ≤ length bytes.now }
        ensures { result ≡ number_at self 4 place bytes.now }
    {
        match self {
            Order::Big => BigEndian::read_u32(&bytes[place..]),
            Order::Little => LittleEndian::read_u32(&bytes[place..]),
        }
    }

    /// Returns the number in the 8 bytes at the index.
    pub(crate) fn u64_at(self, bytes: &[u8], place: usize) -> u64
        requires { place + 8 ≤ length bytes.now }
        ensures { result ≡ number_at self 8 place bytes.now }
    {
        match self {
            Order::Big => BigEndian::read_u64(&bytes[place..]),
            Order::Little => LittleEndian::read_u64(&bytes[place..]),
        }
    }
}
