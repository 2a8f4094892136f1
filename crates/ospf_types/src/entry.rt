//! Vertices of an area's graph (RFC 2328, 16.1), and the entries of the routing table (11).
ghost use Rattle.std.specs.Prelude.{◌≡◌, ◌↔◌, [], length, IsTrue, IfOk};
ghost use Rattle.std.specs.List.Sorted.{IsStrictlySortedBy};
ghost use Rattle.ospf_types.specs.Hops.{path_cmp};
ghost use Rattle.ospf_types.specs.Vertices.{vertex_cmp, vertex_word};

use crate::hop::Path;
use crate::memory::Memory;
use smallvec::SmallVec;
use std::alloc::Global;
use std::cmp::Ordering;
use std::hash::{Hash, Hasher};
use std::marker::Model;

/// A vertex of an area's graph (RFC 2328, 16.1).
#[derive(Clone, Copy, Debug, PartialEq, Eq, PartialOrd, Ord)]
pub enum Vertex {
    /// A router, by its Router ID.
    Router(u32),
    /// A transit network, by the address of its Designated Router.
    Network(u32),
}

impl Vertex {
    /// Compares two vertices: routers come before networks, and each kind is in ascending order.
    pub fn compare(self, other: Vertex) -> Ordering
        ensures { result ≡ vertex_cmp self other }
    {
        self.cmp(&other)
    }

    // Returns a number that no other vertex has.
    fn word(self) -> u64
        ensures { result ≡ vertex_word self }
    {
        match self {
            Vertex::Router(number) => u64::from(number),
            Vertex::Network(number) => NETWORKS + u64::from(number),
        }
    }
}

// The start of the numbers of networks. Those of routers are less.
const NETWORKS: u64 = 1 << 32;

// A vertex is hashed as one word: a shortest-path search hashes vertices more than anything else.
impl Hash for Vertex {
    ghost use Rattle.std.specs.Hash as fed;
    ghost use Rattle.std.specs.Cmp.Rules.{hashing};
    ghost use Rattle.std.proofs.Common.{rules};
    ghost use Rattle.ospf_types.specs.Vertices.{vertex_word};

    ghost hash_input = { λ v. fed.u64 (vertex_word v) };

    ghost respects_eq = { Prim.search (hashing, rules) };

    fn hash<H: Hasher>(&self, state: &mut H) {
        self.word().hash(state);
    }
}

/// The path type of a route, from the most to the least preferred (RFC 2328, 11).
#[derive(Clone, Copy, Debug, PartialEq, Eq, Hash)]
pub enum PathType {
    /// Intra-area.
    Intra,
    /// Inter-area.
    Inter,
    /// Type 1 external.
    External1,
    /// Type 2 external.
    External2,
}

/// A set of paths in the order of `Path::compare`, without duplicates.
///
/// A single path is stored in the value itself; more than one takes memory.
#[derive(Debug)]
pub struct Paths {
    items: SmallVec<Path, 1>,
}

// proof: a value is dropped by one call, not part by part at each exit of a function.
impl Drop for Paths {
    fn drop(self) {
        let Paths { items: _items } = self;
    }
}

impl Model for Paths {
    ghost use Rattle.std.specs.Prelude.{List};
    ghost use Rattle.std.specs.List.Sorted.{IsStrictlySortedBy};
    ghost use Rattle.ospf_types.specs.declared.hop.Path.{Path};
    ghost use Rattle.ospf_types.specs.Hops.{path_cmp};

    ghost Value = { List Path };

    ghost view = { λ p. p.items.items };

    ghost invariant = { λ p. IsStrictlySortedBy path_cmp p.items.items };
}

impl Paths {
    /// Creates the set from a list of paths that is in order and has no duplicates.
    pub fn new(items: SmallVec<Path, 1>) -> Paths
        requires { IsStrictlySortedBy path_cmp items.items }
        ensures { result ≡ items.items }
    {
        Paths { items }
    }

    /// Returns the paths as a slice, in order.
    pub fn as_slice(&self) -> &[Path]
        ensures value { result.now ≡ self.now }
        ensures in_order { IsStrictlySortedBy path_cmp self.now }
    {
        self.items.as_slice()
    }

    /// Returns true if both sets are equal.
    pub fn is_same(&self, other: &Paths) -> bool
        ensures { IsTrue result ↔ (self.now ≡ other.now) }
    {
        self.items == other.items
    }

    /// Returns the number of paths.
    pub fn len(&self) -> usize
        ensures { result ≡ length self.now }
    {
        self.items.len()
    }

    /// Returns true if there is no path.
    pub fn is_empty(&self) -> bool
        ensures { IsTrue result ↔ (self.now ≡ []) }
    {
        self.items.is_empty()
    }
}

/// The routing table entry of a destination (RFC 2328, 11). Costs have no unit.
#[derive(Debug)]
pub struct Entry {
    /// The path type.
    pub kind: PathType,
    /// The Area ID of the area that all paths share, or `None` for an external route.
    pub area: Option<u32>,
    /// The cost of the paths. For a type 2 external route it is the distance only.
    pub cost: u32,
    /// The type 2 metric, or 0 for any other path type.
    pub cost2: u32,
    /// The equal-cost paths.
    pub paths: Paths,
}

// proof: a value is dropped by one call, not part by part at each exit of a function.
impl Drop for Entry {
    fn drop(self) {
        let Entry {
            kind: _kind,
            area: _area,
            cost: _,
            cost2: _,
            paths: _paths,
        } = self;
    }
}

impl Entry {
    /// Returns true if both entries are equal.
    pub fn is_same(&self, other: &Entry) -> bool
        ensures { IsTrue result ↔ (self.now ≡ other.now) }
    {
        self.has_costs_of(other)
            && self.kind == other.kind
            && self.area == other.area
            && self.paths.is_same(&other.paths)
    }

    // Returns true if both costs are equal.
    fn has_costs_of(&self, other: &Entry) -> bool
        ensures { IsTrue result ↔ ((self.now.cost ≡ other.now.cost) × (self.now.cost2 ≡ other.now.cost2)) }
    {
        self.cost == other.cost && self.cost2 == other.cost2
    }

    /// Returns a copy of the entry.
    pub fn copy(&self, alloc: Global) -> Result<Entry, Memory>
        ensures { IfOk result (λ entry. entry ≡ self.now) }
    {
        Ok(Entry {
            kind: self.kind,
            area: self.area,
            cost: self.cost,
            cost2: self.cost2,
            paths: Paths::new(SmallVec::from_slice(alloc, self.paths.as_slice())?),
        })
    }
}
