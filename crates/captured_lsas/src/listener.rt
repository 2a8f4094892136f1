//! The payloads of OSPF's datagrams.

ghost use Rattle.std.specs.Prelude.{◌≡◌, [], IfOk, OnErr};
ghost use Rattle.packets.specs.Frames.{Finds};
ghost use Rattle.captured_lsas.specs.Hearing.{is_of_other_protocol as is_of_other_protocol_test};
ghost use Rattle.captured_lsas.specs.Hearing.{CarriesOspf, IsHeard, IsPayloadGiven};

use crate::heard::{Heard, Payload};
use captures::CapturedPacket;
use ospf_types::memory::Memory;
use packets::{Datagram, Fragments, LinkType, read_datagram};
use std::alloc::Global;
use std::marker::Model;

/// OSPF's number among the protocols of IPv4 (RFC 2328, A.1).
const OSPF: u8 = 89;

/// A collector of OSPF's datagrams, which is given the packets of a capture in order. It keeps the
/// fragments of datagrams that are not whole yet, within the limits of `Fragments`.
#[derive(Drop)]
pub struct Listener {
    fragments: Fragments,
}

/// Contracts see the fragments kept of the datagrams that are not whole.
impl Model for Listener {
    ghost use Rattle.std.specs.Prelude.{List};
    ghost use Rattle.packets.specs.Kept.{Kept};

    ghost Value = { List Kept };

    ghost view = { λ l. l.fragments };
}

impl Listener {
    /// Creates a listener that keeps no fragments.
    pub fn new(alloc: Global) -> Listener
        ensures { result ≡ [] }
    {
        Listener {
            fragments: Fragments::new(alloc),
        }
    }

    /// Takes a captured packet, and returns its content.
    ///
    /// # Errors
    ///
    /// Returns `Memory` if memory runs out. The listener is then unchanged.
    pub fn hear<'a>(
        &mut self,
        alloc: Global,
        packet: &CapturedPacket<'a>,
    ) -> Result<Heard<'a>, Memory>
        ensures heard { IfOk result (IsHeard packet.now.link packet.now.bytes.now self.old self.new) }
        // If memory runs out, nothing changes.
        ensures unchanged { OnErr result (self.new ≡ self.old) }
    {
        let Some(bytes) = ospf_in(packet) else {
            return Ok(Heard::Other);
        };
        match read_datagram(bytes) {
            Ok(datagram) => self.take(alloc, &datagram),
            Err(fault) => Ok(Heard::Fault(fault)),
        }
    }

    // Takes a datagram of OSPF.
    fn take<'a>(&mut self, alloc: Global, datagram: &Datagram<'a>) -> Result<Heard<'a>, Memory>
        ensures given { IfOk result (IsPayloadGiven datagram.now self.old self.new) }
        ensures unchanged { OnErr result (self.new ≡ self.old) }
    {
        let sender = datagram.source;
        if datagram.is_whole() {
            let payload = Payload::Lent(datagram.payload);
            return Ok(Heard::Whole { sender, payload });
        }
        match self.fragments.take(alloc, datagram)? {
            Some(bytes) => {
                let payload = Payload::Joined(bytes);
                Ok(Heard::Whole { sender, payload })
            }
            None => Ok(Heard::Part),
        }
    }
}

// Returns the IPv4 packet of OSPF that a captured packet carries.
fn ospf_in<'a>(packet: &CapturedPacket<'a>) -> Option<&'a [u8]>
    ensures { Finds result (CarriesOspf packet.now.link packet.now.bytes.now) }
{
    let bytes = LinkType::of_number(packet.link)?.ipv4_of(packet.bytes)?;
    if is_of_other_protocol(bytes) {
        return None;
    }
    Some(bytes)
}

// Returns true if the bytes have a protocol that is not OSPF.
fn is_of_other_protocol(bytes: &[u8]) -> bool
    ensures { result ≡ is_of_other_protocol_test bytes.now }
{
    bytes.len() > 9 && bytes[9] != OSPF
}
