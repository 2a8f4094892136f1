//! The identity of an LSA among all databases of a network (RFC 2328, 12.1).
use ospf_types::key::{Key, Scope};

/// The identity of an LSA: its database and its key.
#[derive(Clone, Copy, PartialEq, Eq, Hash)]
pub(crate) struct LsaName {
    pub(crate) scope: Scope,
    pub(crate) key: Key,
}
