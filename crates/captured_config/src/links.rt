//! The links of a router-LSA (RFC 2328, 12.4.1).
ghost use Rattle.std.specs.Prelude.{◌≡◌};
ghost use Rattle.captured_config.specs.Interfaces.{is_point_to_point as is_point_to_point_test};
ghost use Rattle.captured_config.specs.Interfaces.{is_attached as is_attached_test};
ghost use Rattle.captured_config.specs.Interfaces.{is_stub as is_stub_test};
ghost use Rattle.captured_config.specs.Interfaces.{lies_in as lies_in_test};

use ospf_types::lsa::{Link, LinkKind};

pub(crate) fn is_point_to_point(kind: LinkKind) -> bool
    ensures { result ≡ is_point_to_point_test kind }
{
    matches!(kind, LinkKind::PointToPoint)
}

/// Returns true if the Link Data of such a link is the address of an interface that has neighbours.
pub(crate) fn is_attached(kind: LinkKind) -> bool
    ensures { result ≡ is_attached_test kind }
{
    matches!(kind, LinkKind::PointToPoint | LinkKind::Transit)
}

pub(crate) fn is_stub(kind: LinkKind) -> bool
    ensures { result ≡ is_stub_test kind }
{
    matches!(kind, LinkKind::Stub)
}

/// Returns true if the address is in the network of the stub link: its Link ID, with its Link Data
/// as the mask.
pub(crate) fn lies_in(address: u32, stub: Link) -> bool
    ensures { result ≡ lies_in_test address stub }
{
    address & stub.detail == stub.id & stub.detail
}
