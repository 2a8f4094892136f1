//! The content of a captured packet: the payload of a datagram of OSPF, or the reason why there is
//! none.
ghost use Rattle.std.specs.Prelude.{◌≡◌};
ghost use Rattle.captured_lsas.specs.Payloads.{bytes_of};

use packets::DatagramFault;

/// The content of a captured packet.
#[derive(Debug, Drop)]
pub enum Heard<'a> {
    /// No IPv4 packet of OSPF's protocol, 89, or a packet of an unknown link type.
    Other,
    /// An IPv4 datagram that is not valid: its header or a length is wrong.
    Fault(DatagramFault),
    /// A fragment that does not complete its datagram.
    Part,
    /// The payload of a whole datagram.
    Whole {
        /// The source address of the datagram, in host order.
        sender: u32,
        payload: Payload<'a>,
    },
}

/// The payload of a datagram.
#[derive(Debug, Drop)]
pub enum Payload<'a> {
    /// The payload of a datagram that was captured whole.
    Lent(&'a [u8]),
    /// The payload of a datagram that was put together from fragments.
    Joined(Vec<u8>),
}

impl<'a> Payload<'a> {
    /// Returns the bytes of the payload.
    pub fn bytes(&self) -> &[u8]
        ensures { result.now ≡ bytes_of self.now }
    {
        match self {
            Payload::Lent(bytes) => bytes,
            Payload::Joined(bytes) => bytes,
        }
    }
}
