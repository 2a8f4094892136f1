//! Vertices with a hint: the index at which a vertex is looked for before it is hashed.
ghost use Rattle.std.specs.Prelude.{◌≡◌};

use ospf_types::entry::Vertex;
use std::default::MadeWith;
use std::fmt;
use std::fmt::{Debug, Formatter};
use std::marker::Model;

/// The hint of a vertex whose place is not known.
pub(crate) const NOWHERE: u32 = u32::MAX;

/// A vertex with a hint: the index at which a map looks for it before it is hashed. Contracts see
/// only the vertex.
#[derive(Drop)]
pub struct HintedVertex {
    vertex: Vertex,
    place: u32,
}

impl Model for HintedVertex {
    ghost use Rattle.ospf_types.specs.declared.entry.Vertex.{Vertex};
    ghost use Rattle.ospf_types.specs.Vertices.{vertex_code};

    ghost Value = { Vertex };

    ghost coded = { vertex_code };

    ghost view = { λ p. p.vertex };
}

impl HintedVertex {
    /// Creates a vertex with the given hint.
    #[inline]
    pub fn new(vertex: Vertex, place: u32) -> HintedVertex
        ensures { result ≡ vertex }
    {
        HintedVertex { vertex, place }
    }

    /// Creates a vertex without a hint, so that it is found by its hash.
    #[inline]
    pub fn without_hint(vertex: Vertex) -> HintedVertex
        ensures { result ≡ vertex }
    {
        HintedVertex {
            vertex,
            place: NOWHERE,
        }
    }

    /// Returns a copy, with the same hint.
    #[inline]
    pub fn copy(&self) -> HintedVertex
        ensures { result ≡ self.now }
    {
        HintedVertex {
            vertex: self.vertex,
            place: self.place,
        }
    }

    /// Returns another vertex with the same hint.
    #[inline]
    pub fn with_vertex(&self, vertex: Vertex) -> HintedVertex
        ensures { result ≡ vertex }
    {
        HintedVertex {
            vertex,
            place: self.place,
        }
    }

    /// Returns the vertex.
    #[inline]
    pub fn vertex(&self) -> Vertex
        ensures { result ≡ self.now }
    {
        self.vertex
    }

    /// Returns the hint, as it was given.
    #[inline]
    pub fn number(&self) -> u32 {
        self.place
    }

    /// Returns the hint as an index.
    #[inline]
    pub fn place(&self) -> usize {
        self.place as usize
    }
}

/// Fills the unused slots of a collection.
impl<A: Drop> MadeWith<A> for HintedVertex {
    fn made_with(_alloc: A) -> HintedVertex {
        HintedVertex::without_hint(Vertex::Router(0))
    }
}

// Prints the vertex, without the hint.
impl Debug for HintedVertex {
    fn fmt<W: fmt::Write>(&self, f: &mut Formatter<W>) -> fmt::Result {
        self.vertex.fmt(f)
    }
}
