//! An index of the routes that summary-LSAs and AS-external-LSAs advertise (RFC 2328, 12.4.3,
//! 12.4.4 and 16.2 to 16.4). It depends on the LSAs only.
//!
//! `AdvertisedIndex` has the route of each LSA at the LSA's key. It finds keys again by group: by
//! destination, by advertising router and by forwarding address. For this it has one ordered set of
//! pairs of group and key (`LsasByKey`), in which the keys of a group are adjacent. A key has at
//! most three pairs, as a route has one destination, one advertising router and at most one
//! forwarding address.
//!
//! The set is exact: a key is in the groups of its route and in no other. So a reader need not
//! check the routes of the keys that it finds. A change of a route has three steps:
//!
//! 1. The key is added to the groups of the new route, which may run out of memory.
//! 2. The route is set at the key, which may run out of memory too.
//! 3. The key is removed from the groups that only the old route is in, which needs no memory.
//!
//! If memory runs out, the key is removed from the groups that only the new route is in, and the
//! index is unchanged.
//!
//! Most destinations that an event names have no route here. So `KnownKeys` has the destinations
//! and the forwarding addresses that have a key. It is exact too. One access by hash shows if a
//! route leads to a destination, and the addresses in a network are found by a search among
//! addresses only. `IndexFilter` is a coarse filter before both.
//!
//! No event scans all AS-external-LSAs: the keys that it affects are found by destination, by
//! advertising router and by forwarding address.
#![tactic(auto)]

mod advertised;
mod affected_dests;
mod bloom_filter;
mod index;
mod index_filter;
mod index_key;
mod known_keys;
mod lsas_by_key;

pub use advertised::{AdvertisedRoute, ScopeDatabase};
pub use affected_dests::AffectedDests;
pub use index::AdvertisedIndex;
pub use index_key::IndexKey;
