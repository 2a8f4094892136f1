//! The types that are passed to and from C.
ghost use Rattle.std.specs.Prelude.{◌≡◌};
ghost use Rattle.abr_c.specs.CTypes.{c_scope_of, key_of, network_in, scope_of};

use ospf_types::key::{Key, Scope};
use ospf_types::prefix::Prefix;

/// `abr_scope`: the database of an area (in host order), or the database of the AS.
#[repr(C)]
#[derive(Clone, Copy)]
pub struct CScope {
    pub is_as: bool,
    pub area: u32,
}

/// `abr_key`: the key of an LSA in its database, in host order.
#[repr(C)]
#[derive(Clone, Copy)]
pub struct CKey {
    pub kind: u8,
    pub id: u32,
    pub router: u32,
}

/// `abr_prefix`: a network, in host order. A value from C may not be valid.
#[repr(C)]
#[derive(Clone, Copy)]
pub struct CPrefix {
    pub address: u32,
    pub length: u8,
}

/// `abr_item`: the item of the table for a network.
///
/// Its kind is 0 for none, 1 for a discard (RFC 2328, 11.1), 2 for an intra-area route and 3 for an
/// inter-area route. It is 4 and 5 for external routes of type 1 and 2.
#[repr(C)]
#[derive(Clone, Copy)]
pub struct CItem {
    pub kind: u8,
    pub prefix: CPrefix,
    pub area: u32,
    pub cost: u32,
    pub cost2: u32,
    pub paths: u32,
}

/// `abr_hop`: a next hop, with addresses in host order.
///
/// Its kind is 0 for an attached network, 1 for the peer of a point-to-point link, and 2 for a
/// router.
#[repr(C)]
#[derive(Clone, Copy)]
pub struct CHop {
    pub kind: u8,
    pub interface: u8,
    pub has_advertiser: bool,
    pub address: u32,
    pub advertiser: u32,
}

/// `abr_due`: a due summary-LSA. An AS boundary router is given by its Router ID with length 32.
#[repr(C)]
#[derive(Clone, Copy)]
pub struct CDue {
    pub kind: u8,
    pub destination: CPrefix,
    pub metric: u32,
}

/// `abr_due_change`: a change that the last event made to a summary-LSA in an area. The metric is 0
/// if it is no longer due.
#[repr(C)]
#[derive(Clone, Copy)]
pub struct CDueChange {
    pub area: u32,
    pub is_due: bool,
    pub due: CDue,
}

/// `abr_base_interface`: an interface with its id, and addresses in host order.
#[repr(C)]
#[derive(Clone, Copy)]
pub struct CInterface {
    pub id: u8,
    pub up: bool,
    pub area: u32,
    pub address: u32,
    pub peer: u32,
}

impl CScope {
    pub(crate) fn scope(self) -> Scope
        ensures { result ≡ scope_of self }
    {
        if self.is_as {
            Scope::As
        } else {
            Scope::Area(self.area)
        }
    }

    pub(crate) fn of(scope: Scope) -> CScope
        ensures { result ≡ c_scope_of scope }
    {
        match scope {
            Scope::As => CScope {
                is_as: true,
                area: 0,
            },
            Scope::Area(area) => CScope { is_as: false, area },
        }
    }
}

impl CKey {
    pub(crate) fn key(self) -> Key
        ensures { result ≡ key_of self }
    {
        Key {
            kind: self.kind,
            id: self.id,
            router: self.router,
        }
    }
}

impl CPrefix {
    /// Returns the network, or `None` if the length is above 32, or a bit after the prefix is 1.
    pub(crate) fn network(self) -> Option<Prefix>
        ensures { result ≡ network_in self }
    {
        let network = Prefix::new(self.address, self.length)?;
        if network.address() == self.address {
            Some(network)
        } else {
            None
        }
    }

    pub(crate) fn of(network: Prefix) -> CPrefix
        ensures { (result.address ≡ network.address) × (result.length ≡ network.length) }
    {
        CPrefix {
            address: network.address(),
            length: network.length(),
        }
    }
}
