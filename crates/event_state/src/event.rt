//! The events that change a router's databases, interfaces or address ranges.
ghost use Rattle.std.specs.Prelude.{◌≡◌, IfOk};

use lsa_codec::Checked;
use ospf_types::key::{Key, Scope};
use ospf_types::memory::Memory;
use ospf_types::prefix::Prefix;
use std::alloc::Global;

/// A change to the router's databases, interfaces or address ranges. Area IDs and addresses are
/// `u32` in host order.
#[derive(Debug, Drop)]
pub enum Event {
    /// An LSA is installed in the database of its scope (RFC 2328, 13.2).
    Install {
        scope: Scope,
        lsa: Checked,
    },
    /// One of the router's own LSAs is flushed: its age becomes MaxAge at once (RFC 2328, 14.1).
    Flush {
        scope: Scope,
        key: Key,
    },
    /// An LSA at MaxAge is removed from its database, because no neighbour needs it any more (RFC
    /// 2328, 14).
    Purge {
        scope: Scope,
        key: Key,
    },
    /// An interface is set, in place of the previous one with this id. A peer of 0 means that there
    /// is none.
    Interface {
        id: u8,
        area: u32,
        address: u32,
        peer: u32,
        up: bool,
    },
    /// An area address range is configured (RFC 2328, C.2), in place of the previous one with its
    /// prefix. Without `advertise` it is hidden (DoNotAdvertise).
    RangeSet {
        area: u32,
        prefix: Prefix,
        advertise: bool,
    },
    /// An area address range is removed from the configuration (RFC 2328, C.2).
    RangeDrop {
        area: u32,
        prefix: Prefix,
    },
    /// A second passes: each age below MaxAge rises by one (RFC 2328, 14).
    Second,
}

impl Event {
    /// Returns a copy of the event.
    pub fn copy(&self, alloc: Global) -> Result<Event, Memory>
        ensures { IfOk result (λ event. event ≡ self.now) }
    {
        match *self {
            Event::Install { scope, ref lsa } => Ok(Event::Install {
                scope,
                lsa: lsa.copy(alloc)?,
            }),
            Event::Flush { scope, key } => Ok(Event::Flush { scope, key }),
            Event::Purge { scope, key } => Ok(Event::Purge { scope, key }),
            Event::Interface {
                id,
                area,
                address,
                peer,
                up,
            } => Ok(Event::Interface {
                id,
                area,
                address,
                peer,
                up,
            }),
            Event::RangeSet {
                area,
                prefix,
                advertise,
            } => Ok(Event::RangeSet {
                area,
                prefix,
                advertise,
            }),
            Event::RangeDrop { area, prefix } => Ok(Event::RangeDrop { area, prefix }),
            Event::Second => Ok(Event::Second),
        }
    }
}
