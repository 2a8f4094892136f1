//! The link ends at one vertex, in an ordered list of ends.
ghost use Rattle.std.specs.Prelude.{◌≤◌, length};
ghost use Rattle.std.specs.List.Sorted.{IsStrictlySortedBy};
ghost use Rattle.graph_links.specs.EndOrder.{AreEndsAt, IsCountBelow, IsCountUpTo, end_cmp};

use crate::link_end::LinkEnd;
use ospf_types::entry::Vertex;

/// Returns the ends at the vertex.
pub(crate) fn ends_at(ends: &[LinkEnd], vertex: Vertex) -> &[LinkEnd]
    requires { IsStrictlySortedBy end_cmp ends.now }
    ensures in_order { IsStrictlySortedBy end_cmp result.now }
    ensures exact { AreEndsAt vertex ends.now result.now }
{
    let first = first_at(ends, vertex);
    let past = past_from(ends, first, vertex);
    &ends[first..past]
}

/// Returns the number of ends below the vertex.
fn first_at(ends: &[LinkEnd], vertex: Vertex) -> usize
    requires { IsStrictlySortedBy end_cmp ends.now }
    ensures within { result ≤ length ends.now }
    ensures split { IsCountBelow vertex ends.now result }
{
    ends.partition_point(|end| end.to.compare(vertex).is_lt())
}

/// Returns the index past the ends at the vertex. `first` is the number of ends below it.
///
/// It steps over them one by one, because the caller reads them next.
pub(crate) fn past_from(ends: &[LinkEnd], first: usize, vertex: Vertex) -> usize
    requires in_order { IsStrictlySortedBy end_cmp ends.now }
    requires within { first ≤ length ends.now }
    requires split { IsCountBelow vertex ends.now first }
    ensures from { first ≤ result }
    ensures within { result ≤ length ends.now }
    ensures split { IsCountUpTo vertex ends.now result }
{
    let mut past = first;
    while past < ends.len() && ends[past].to == vertex {
        past += 1;
    }
    past
}
