//! Offers: the networks that LSAs advertise.
ghost use Rattle.std.specs.Prelude.{◌≡◌};
ghost use Rattle.explanation.specs.Offers.{source_of};

use lsa_codec::Checked;
use ospf_types::key::{Key, Scope};
use ospf_types::lsa::ExternalFields;
use ospf_types::prefix::Prefix;

/// An instance of an LSA, and the database that has it.
#[derive(Clone, Copy, Debug, PartialEq, Eq)]
pub struct LsaInstance {
    /// The database.
    pub scope: Scope,
    /// The key of the LSA.
    pub key: Key,
    /// The LS sequence number: the 32 bits of a signed number.
    pub seq: u32,
}

impl LsaInstance {
    pub(crate) fn of(scope: Scope, lsa: &Checked) -> LsaInstance
        ensures { result ≡ source_of scope lsa.now }
    {
        let key = lsa.key();
        let seq = lsa.header().seq;
        LsaInstance { scope, key, seq }
    }
}

/// A network that an LSA offers.
#[derive(Clone, Copy, Debug, PartialEq, Eq)]
pub struct Offer {
    /// The network.
    pub network: Prefix,
    /// The instance of the LSA.
    pub source: LsaInstance,
    /// The LSA's present age, in seconds.
    pub age: u16,
    /// The part of the LSA that offers the network.
    pub kind: OfferKind,
}

/// The part of an LSA that offers a network (RFC 2328, A.4).
#[derive(Clone, Copy, Debug, PartialEq, Eq)]
pub enum OfferKind {
    /// A stub link of a router-LSA, with its metric.
    Stub(u16),
    /// A network-LSA, by its transit network.
    Transit,
    /// A summary-LSA, with its metric.
    Summary(u32),
    /// An AS-external-LSA, with its metric.
    AsExternal(u32, ExternalFields),
}
