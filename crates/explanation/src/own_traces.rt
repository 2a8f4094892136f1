//! The traces of the root's own stub networks (RFC 2328, 16.1): each is a single step over an
//! interface.
ghost use Rattle.std.specs.Prelude.{◌↔◌, IfOk, IsTrue, OnOk};
ghost use Rattle.explanation.specs.Giving.{AddsTraces};
ghost use Rattle.explanation.specs.Traces.{AreOwnTraces, GivesOwn, IsOver};

use crate::layers::Layers;
use crate::offer::Offer;
use crate::offered::is_on;
use crate::trace::{Trace, TraceNode};
use ospf_types::entry::Vertex;
use ospf_types::hop::{NextHop, Path};
use ospf_types::memory::Memory;
use std::alloc::Global;

impl Layers<'_, '_> {
    /// Returns a trace for each of the paths that leads over an interface of the area on the
    /// network.
    pub(crate) fn own_traces(
        self,
        alloc: Global,
        area: u32,
        offer: &Offer,
        paths: &[Path],
    ) -> Result<Vec<Trace>, Memory>
        ensures { IfOk result (λ traces.
            AreOwnTraces self.entry area offer.now paths.now traces.items) }
    {
        let mut traces = Vec::new(alloc);
        for path in paths {
            self.push_own(area, offer, path, &mut traces)?;
        }
        Ok(traces)
    }

    // Appends a trace for the path, if it leads over such an interface.
    fn push_own(
        self,
        area: u32,
        offer: &Offer,
        path: &Path,
        traces: &mut Vec<Trace>,
    ) -> Result<(), Memory>
        ensures { OnOk result (AddsTraces (GivesOwn self.entry area offer.now path.now)
            traces.old.items traces.new.items) }
    {
        if !self.is_over(area, offer, path) {
            return Ok(());
        }
        let last = offer.last_step(TraceNode::Vertex(offer.vertex()));
        let steps = Vec::from_slice(*traces.allocator(), &[last])?;
        traces.push(Trace { path: *path, steps })?;
        Ok(())
    }

    // Returns true if the path leads over an interface of the area that is up and lies in the
    // network.
    fn is_over(self, area: u32, offer: &Offer, path: &Path) -> bool
        ensures { IsTrue result ↔ IsOver self.entry area offer.now path.now }
    {
        let NextHop::Direct(wanted) = path.hop else {
            return false;
        };
        for (id, interface) in self.state.interfaces() {
            if *id == wanted && is_on(interface, area, offer.network) {
                return true;
            }
        }
        false
    }
}
