//! The key by which the fragments of one datagram are found (RFC 791, 3.2).
ghost use Rattle.std.specs.Prelude.{◌≡◌};

use crate::datagram::Datagram;

/// The key of a datagram: the fields that all its fragments share (RFC 791, 3.2).
#[derive(Clone, Copy, Debug)]
pub(crate) struct FragmentKey {
    source: u32,
    destination: u32,
    identification: u16,
    protocol: u8,
}

impl FragmentKey {
    ghost use Rattle.packets.specs.Kept.{key_of, same_key};

    pub(crate) fn of(datagram: &Datagram<'_>) -> FragmentKey
        ensures { result ≡ key_of datagram.now }
    {
        FragmentKey {
            source: datagram.source,
            destination: datagram.destination,
            identification: datagram.identification,
            protocol: datagram.protocol,
        }
    }

    pub(crate) fn is_same(&self, other: &FragmentKey) -> bool
        ensures { result ≡ same_key self.now other.now }
    {
        self.source == other.source
            && self.destination == other.destination
            && self.identification == other.identification
            && self.protocol == other.protocol
    }
}
