//! The faults of bytes that are not a valid LSA, with their numbers and names.
ghost use Rattle.std.specs.Prelude.{◌≡◌, Some};
ghost use Rattle.lsa_codec.specs.Text.{wire_fault_text};

use std::alloc::AllocError;
use std::fmt;
use thiserror::Error;

/// The reason why bytes are not a valid LSA. `read` returns the first one in this order. `Memory`
/// says nothing about the bytes.
#[derive(Clone, Copy, Debug, PartialEq, Eq, Error)]
pub enum WireFault {
    /// There are fewer than 20 bytes, or the length field is not the number of bytes.
    Length,
    /// The checksum does not fit the bytes, or is zero (RFC 2328, 12.1.7).
    Checksum,
    /// The LS age is above MaxAge, 3600 seconds (RFC 2328, 12.1.1).
    Age,
    /// The LS sequence number is the reserved 0x80000000 (RFC 2328, 12.1.6).
    Sequence,
    /// The LS type is not 1 to 5 (RFC 2328, A.4.1).
    Kind,
    /// A reserved byte is not zero, or the first record of an AS-external-LSA has a TOS (RFC 2328,
    /// A.4.2, A.4.4, A.4.5).
    Reserved,
    /// A mask is not valid (RFC 2328, A.4.2 to A.4.5).
    ///
    /// The mask of an LSA, or the Link Data of a stub link, is not ones and then zeros. Or the mask
    /// of a summary-LSA for an AS boundary router is not zero.
    Mask,
    /// The Link State ID of a router-LSA is not its Advertising Router (RFC 2328, 12.1.4).
    RouterId,
    /// The type of a link is not 1 to 4 (RFC 2328, A.4.2).
    LinkType,
    /// The body is cut off, has fewer links than it counts or no external record, or has bytes left
    /// over.
    Shape,
    /// Memory ran out.
    Memory,
}

/// Prints the number and the name, as in `2 Checksum`.
impl fmt::Display for WireFault {
    ghost output = { λ fault. Some (wire_fault_text fault) };

    fn fmt<W: fmt::Write>(&self, f: &mut fmt::Formatter<W>) -> fmt::Result {
        f.write_str(match self {
            WireFault::Length => "1 Length",
            WireFault::Checksum => "2 Checksum",
            WireFault::Age => "3 Age",
            WireFault::Sequence => "4 Sequence",
            WireFault::Kind => "5 Kind",
            WireFault::Reserved => "6 Reserved",
            WireFault::Mask => "7 Mask",
            WireFault::RouterId => "8 RouterId",
            WireFault::LinkType => "9 LinkType",
            WireFault::Shape => "10 Shape",
            WireFault::Memory => "30 Memory",
        })
    }
}

impl From<AllocError> for WireFault {
    ghost use Rattle.lsa_codec.specs.declared.fault.WireFault.TheVariants.{Memory};

    ghost from_gives = { λ _ e. e ≡ Memory };

    fn from(_e: AllocError) -> WireFault {
        WireFault::Memory
    }
}
