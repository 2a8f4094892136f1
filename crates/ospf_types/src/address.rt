//! Addresses, Router IDs and Area IDs, and their dotted form.
ghost use Rattle.std.specs.Prelude.{◌≡◌, ◌≢◌, ◌^◌, ◌<◌, ℕ, Some, IfSome, IsNone};
ghost use Rattle.ospf_types.specs.Text.{address_text};

use crate::dotted::{MOST, write_dotted};
use std::net::Ipv4Addr;
use std::{fmt, str};

/// The Area ID of the backbone (RFC 2328, 3.1).
pub const BACKBONE: u32 = 0;

/// An address, Router ID or Area ID, in host order. It prints in dotted form.
#[derive(Clone, Copy, Debug, PartialEq, Eq, Hash, PartialOrd, Ord)]
pub struct Address(pub u32);

impl Address {
    /// Returns the address written by the text: four decimal numbers up to 255 without leading
    /// zeros, separated by dots. Returns `None` for any other text.
    pub fn parse(text: &str) -> Option<Address>
        ensures spelled { IfSome result (λ a. text.now ≡ address_text a.0) }
        ensures refused { IsNone result → (address : ℕ) → address < 2 ^ 32 → text.now ≢ address_text address }
    {
        let address: Ipv4Addr = text.parse().ok()?;
        Some(Address(address.to_bits()))
    }
}

impl fmt::Display for Address {
    ghost output = { λ a. Some (address_text a.0) };

    fn fmt<W: fmt::Write>(&self, f: &mut fmt::Formatter<W>) -> fmt::Result {
        let mut text = [0; MOST];
        let start = write_dotted(self.0, &mut text, MOST);
        // SAFETY: Digits and dots are ASCII.
        f.pad(unsafe { str::from_utf8_unchecked(&text[start..]) })
    }
}
