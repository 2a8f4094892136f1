//! Addresses in dotted form, written from the last digit to the first.
//!
//! An address or network is printed in one piece. A line of changes has up to three, and each piece
//! that is written costs more than its digits.
ghost use Rattle.std.specs.Prelude.{◌≡◌, ◌+◌, ◌≤◌, ◌++◌, length, drop, codes, decimal};
ghost use Rattle.ospf_types.specs.Text.{address_text};

use itoa::write_digits;

/// The most bytes that an address takes, as in `255.255.255.255`.
pub(crate) const MOST: usize = 15;

/// Writes the address so that its text ends before index `end`, and returns the index at which the
/// text starts. The address is in host order.
pub(crate) fn write_dotted(address: u32, text: &mut [u8], end: usize) -> usize
    requires { (MOST ≤ end) × (end ≤ length text.old) }
    ensures end { result ≤ end }
    ensures text { drop result text.new ≡ address_text address ++ drop end text.old }
{
    let [first, second, third, last] = address.to_be_bytes();
    let start = write_digits(u64::from(last), text, end);
    let start = write_octet(third, text, start);
    let start = write_octet(second, text, start);
    write_octet(first, text, start)
}

// Writes a dot and the octet, so that they end before index `end`. Returns their start.
fn write_octet(octet: u8, text: &mut [u8], end: usize) -> usize
    requires { (4 ≤ end) × (end ≤ length text.old) }
    ensures start { (result ≤ end) × (end ≤ result + 4) }
    ensures text { drop result text.new ≡ decimal octet ++ codes "." ++ drop end text.old }
{
    text[end - 1] = b'.';
    write_digits(u64::from(octet), text, end - 1)
}
