//! The faults of the bytes of a capture, with their numbers and names.
ghost use Rattle.std.specs.Prelude.{◌≡◌, Some};
ghost use Rattle.captures.specs.Text.{fault_text, error_text};

use std::alloc::AllocFailed;
use std::fmt;
use thiserror::Error;

/// The reason why bytes are not a valid capture, or not a valid part of one.
#[derive(Clone, Copy, Debug, PartialEq, Eq, Error)]
pub enum FaultKind {
    /// The first bytes are not the magic number of a pcap or the type of a section, or a section
    /// has no byte-order magic.
    NoCapture,
    /// The major version is not 2 in a pcap, or not 1 in a section of a pcapng.
    Version,
    /// The total length of a block is not a multiple of 4, or is below the least length of its
    /// type. In a block that is read, also: it is above 1 MiB, or the end of the block does not
    /// repeat it.
    BlockLength,
    /// A packet has more captured bytes than its block has room for, or more than 262,144.
    PacketLength,
    /// A packet belongs to an interface that the section has not declared.
    NoInterface,
    /// An option of an interface extends past the end of its block, or an option for times has the
    /// wrong length.
    Options,
    /// The time of a packet is before 1970, or 2^64 nanoseconds or more after its beginning.
    Resolution,
    /// The input ended within a part, or before the first header. Only callers return it, as they
    /// know where their input ends.
    CutOff,
}

/// Prints the number and the name, as `62 NoCapture`.
impl fmt::Display for FaultKind {
    ghost output = { λ fault. Some (fault_text fault) };

    fn fmt<W: fmt::Write>(&self, f: &mut fmt::Formatter<W>) -> fmt::Result {
        f.write_str(match self {
            FaultKind::NoCapture => "62 NoCapture",
            FaultKind::Version => "63 Version",
            FaultKind::BlockLength => "64 BlockLength",
            FaultKind::PacketLength => "65 PacketLength",
            FaultKind::NoInterface => "66 NoInterface",
            FaultKind::Options => "67 Options",
            FaultKind::Resolution => "68 Resolution",
            FaultKind::CutOff => "69 CutOff",
        })
    }
}

/// The reason why a part was not read.
#[derive(Clone, Copy, Debug, PartialEq, Eq, Error)]
pub enum ReadError {
    /// The bytes are not valid.
    Fault(FaultKind),
    /// Memory ran out.
    Memory,
}

/// Prints the text of the fault, or `30 Memory`.
impl fmt::Display for ReadError {
    ghost output = { λ error. Some (error_text error) };

    fn fmt<W: fmt::Write>(&self, f: &mut fmt::Formatter<W>) -> fmt::Result {
        match self {
            ReadError::Fault(kind) => kind.fmt(f),
            ReadError::Memory => f.write_str("30 Memory"),
        }
    }
}

impl From<FaultKind> for ReadError {
    ghost use Rattle.captures.specs.declared.fault.ReadError.TheVariants.{Fault};

    ghost from_gives = { λ kind error. error ≡ Fault kind };

    fn from(kind: FaultKind) -> ReadError {
        ReadError::Fault(kind)
    }
}

impl<T: Drop> From<AllocFailed<T>> for ReadError {
    ghost use Rattle.captures.specs.declared.fault.ReadError.TheVariants.{Memory};

    ghost from_gives = { λ _ error. error ≡ Memory };

    fn from(_error: AllocFailed<T>) -> ReadError {
        ReadError::Memory
    }
}
