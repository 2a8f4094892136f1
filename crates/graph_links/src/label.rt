//! Link labels: the part of a link that determines next hops.
ghost use Rattle.std.specs.Prelude.{◌≡◌, ◌↔◌, [], ◌∷◌, IsTrue, IfOk};
ghost use Rattle.ospf_types.specs.declared.label.Label.TheVariants.{At};
ghost use Rattle.graph_links.specs.Labels.{addresses_of, interface_of};
ghost use Rattle.graph_links.specs.Pairs.{label_over};

use ospf_types::listed::Listed;
use ospf_types::memory::Memory;
use std::alloc::Global;
use std::marker::Model;
use std::slice::from_ref;

/// The part of a link that determines next hops (RFC 2328, 16.1.1). Contracts see it as a `Label`.
///
/// A label with one address allocates no memory.
#[derive(Debug)]
pub struct LinkLabel {
    kept: StoredLabel,
}

// The forms of a label. Several addresses are boxed, to keep links small.
#[derive(Debug, Drop)]
enum StoredLabel {
    Over(u8),
    Single(u32),
    Several(Box<Listed<u32>>),
    Plain,
}

// proof: a value is dropped by one call, not part by part at each exit of a function.
impl Drop for LinkLabel {
    fn drop(self) {
        let LinkLabel { kept: _kept } = self;
    }
}

impl Model for LinkLabel {
    ghost use Rattle.ospf_types.specs.declared.label.Label.{Label};
    ghost use Rattle.graph_links.specs.Labels.{label_of};

    ghost Value = { Label };

    ghost view = { λ l. label_of l.kept };
}

impl LinkLabel {
    /// Returns the label of a link from a router: over the given interface, or plain if there is
    /// none. Links from the root have an interface.
    pub(crate) fn over(interface: Option<u8>) -> LinkLabel
        ensures { result ≡ label_over interface }
    {
        let kept = match interface {
            Some(interface) => StoredLabel::Over(interface),
            None => StoredLabel::Plain,
        };
        LinkLabel { kept }
    }

    /// Returns the label of a link from a network to a router with one address there. It allocates
    /// nothing.
    pub(crate) fn at_one(address: u32) -> LinkLabel
        ensures { result ≡ At (address ∷ []) }
    {
        LinkLabel {
            kept: StoredLabel::Single(address),
        }
    }

    /// Returns the label of a link from a network to a router with these addresses there.
    pub(crate) fn at(alloc: Global, addresses: Listed<u32>) -> Result<LinkLabel, Memory>
        ensures { IfOk result (λ label. label ≡ At addresses) }
    {
        let addresses = Box::new(alloc, addresses)?;
        Ok(LinkLabel {
            kept: StoredLabel::Several(addresses),
        })
    }

    /// Returns the interface of a link from the root, or `None` for other links.
    pub fn interface(&self) -> Option<u8>
        ensures { result ≡ interface_of self.now }
    {
        match &self.kept {
            StoredLabel::Over(interface) => Some(*interface),
            StoredLabel::Single(_) | StoredLabel::Several(_) | StoredLabel::Plain => None,
        }
    }

    /// Returns the router's addresses (in host order) on the network that the link leaves from. The
    /// slice is empty if the link leaves from a router.
    pub fn addresses(&self) -> &[u32]
        ensures { result.now ≡ addresses_of self.now }
    {
        match &self.kept {
            StoredLabel::Single(address) => from_ref(address),
            StoredLabel::Several(addresses) => addresses.as_slice(),
            StoredLabel::Over(_) | StoredLabel::Plain => &[],
        }
    }

    /// Returns a copy of the label.
    pub(crate) fn copy(&self, alloc: Global) -> Result<LinkLabel, Memory>
        ensures { IfOk result (λ label. label ≡ self.now) }
    {
        let kept = match &self.kept {
            StoredLabel::Over(interface) => StoredLabel::Over(*interface),
            StoredLabel::Single(address) => StoredLabel::Single(*address),
            StoredLabel::Several(addresses) => {
                return LinkLabel::at(alloc, Listed::from_slice(alloc, addresses.as_slice())?);
            }
            StoredLabel::Plain => StoredLabel::Plain,
        };
        Ok(LinkLabel { kept })
    }

    /// Returns true if the labels are equal.
    pub(crate) fn is_same(&self, other: &LinkLabel) -> bool
        ensures { IsTrue result ↔ (self.now ≡ other.now) }
    {
        match (&self.kept, &other.kept) {
            (StoredLabel::Over(a), StoredLabel::Over(b)) => a == b,
            (StoredLabel::Plain, StoredLabel::Plain) => true,
            (StoredLabel::Over(_) | StoredLabel::Plain, _)
            | (_, StoredLabel::Over(_) | StoredLabel::Plain) => false,
            _ => self.addresses() == other.addresses(),
        }
    }
}
