//! The place of a fault in a capture: the time and the sender of its packet.
ghost use Rattle.std.specs.Prelude.{◌++◌, Some, codes};
ghost use Rattle.capture_recording.specs.Notes.{time_text, when_text, sender_text};

use ospf_types::address::Address;
use std::fmt;

/// A second in nanoseconds.
const SECOND: u64 = 1_000_000_000;

/// The place of a packet in a capture.
#[derive(Clone, Copy)]
pub(crate) struct Place {
    /// The time of the packet in nanoseconds since the beginning of 1970, UTC.
    pub(crate) when: Option<u64>,
    /// The address of the sender, in host order.
    pub(crate) sender: Option<u32>,
}

/// Prints the time and the sender, with a dash for each that is `None`.
impl fmt::Display for Place {
    ghost output = { λ p. Some (when_text p.when ++ codes " " ++ sender_text p.sender) };

    fn fmt<W: fmt::Write>(&self, f: &mut fmt::Formatter<W>) -> fmt::Result {
        let (when, sender) = (WhenField(self.when), SenderField(self.sender));
        write!(f, "{when} {sender}")
    }
}

// A time that is printed as seconds, or as a dash if it is `None`.
#[derive(Clone, Copy)]
struct WhenField(Option<u64>);

impl fmt::Display for WhenField {
    ghost output = { λ when. Some (when_text when.0) };

    fn fmt<W: fmt::Write>(&self, f: &mut fmt::Formatter<W>) -> fmt::Result {
        match self.0 {
            Some(time) => TimeField(time).fmt(f),
            None => f.write_str("-"),
        }
    }
}

// An address that is printed as a dash if it is `None`.
#[derive(Clone, Copy)]
struct SenderField(Option<u32>);

impl fmt::Display for SenderField {
    ghost output = { λ sender. Some (sender_text sender.0) };

    fn fmt<W: fmt::Write>(&self, f: &mut fmt::Formatter<W>) -> fmt::Result {
        match self.0 {
            Some(address) => Address(address).fmt(f),
            None => f.write_str("-"),
        }
    }
}

// A time in nanoseconds, printed in seconds with nine digits after the point.
#[derive(Clone, Copy)]
struct TimeField(u64);

impl fmt::Display for TimeField {
    ghost output = { λ time. Some (time_text time.0) };

    fn fmt<W: fmt::Write>(&self, f: &mut fmt::Formatter<W>) -> fmt::Result {
        let (seconds, nanoseconds) = (self.0 / SECOND, self.0 % SECOND);
        write!(f, "{seconds}.{nanoseconds:09}")
    }
}
