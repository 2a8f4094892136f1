//! The inputs of explanations: a state, the results calculated from it, and its areas with their
//! databases and trees.
ghost use Rattle.std.specs.Prelude.{◌≡◌, ◌<◌, IfSome, IfNone, option_copied};
ghost use Rattle.spf.specs.Maps.{most_distance};
ghost use Rattle.intra.specs.Intras.{most_cost, reached_at};
ghost use Rattle.explanation.specs.Layers.{AreAreas, HasArea, IsDistanceOf, IsKeyStanding};
ghost use Rattle.explanation.specs.Layers.{LacksArea, internal_at, is_examined};

use calculation::Calculation;
use event_state::State;
use intra::AreaInputs;
use ospf_types::address::BACKBONE;
use ospf_types::entry::{Entry, Vertex};
use ospf_types::key::{Dest, Key};
use ospf_types::prefix::Prefix;
use route_choice::ReachedRouter;

/// The inputs of explanations.
#[derive(Clone, Copy)]
pub(crate) struct Layers<'c, 'a> {
    pub(crate) state: &'c State,
    pub(crate) calculation: &'c Calculation,
    /// The areas with their databases and trees, in the order of the configuration.
    pub(crate) areas: &'a [AreaInputs<'c>],
    /// The Area IDs of the active areas.
    pub(crate) active: &'a [u32],
}

impl<'c, 'a> Layers<'c, 'a> {
    /// Returns the area with this Area ID, or `None`.
    pub(crate) fn area(self, id: u32) -> Option<&'a AreaInputs<'c>>
        ensures some { IfSome result (λ a. HasArea self.entry.areas.now id a.now) }
        ensures none { IfNone result (LacksArea self.entry.areas.now id) }
    {
        for area in self.areas {
            if area.id == id {
                return Some(area);
            }
        }
        None
    }

    /// Returns the Router ID of the root.
    pub(crate) fn root(self) -> u32
        ensures { result ≡ self.entry.state.now.config.router }
    {
        self.state.config().router
    }

    /// Returns true if the area's summary-LSAs are examined (16.2). The examined area is the
    /// backbone if two or more areas are active, or else the only active area.
    pub(crate) fn is_examined(self, area: u32) -> bool
        ensures { result ≡ is_examined self.entry.active.now area }
    {
        match self.active {
            [] => false,
            [only] => *only == area,
            _ => area == BACKBONE,
        }
    }

    /// Returns the distance of a vertex of the area, or `None` if it is not reached.
    pub(crate) fn distance(self, area: u32, vertex: Vertex) -> Option<u32>
        ensures value { IsDistanceOf self.entry.areas.now area vertex result }
        ensures bounded { IfSome result (λ distance. distance < most_distance) }
    {
        match self.area(area) {
            Some(area) => area.tree.distance(vertex),
            None => None,
        }
    }

    /// Returns the key of the LSA that describes a vertex of the area, or `None`.
    pub(crate) fn standing(self, area: u32, vertex: Vertex) -> Option<Key>
        requires { AreAreas self.areas.now }
        ensures { IsKeyStanding self.entry.areas.now area vertex result }
    {
        match self.area(area) {
            Some(area) => match area.tree.lsa_for_vertex(area.database, vertex) {
                Some(lsa) => Some(lsa.key()),
                None => None,
            },
            None => None,
        }
    }

    /// Returns the intra-area route to the network, else its inter-area route.
    pub(crate) fn internal(self, network: Prefix) -> Option<&'c Entry>
        ensures value { option_copied result ≡ internal_at self.entry.calculation.now network }
        ensures bounded { IfSome result (λ entry. entry.now.cost < most_cost) }
    {
        match self.calculation.intra().get(network) {
            Some(entry) => Some(entry),
            None => self.calculation.inter().get(Dest::Net(network)),
        }
    }

    /// Returns the area border router or AS boundary router, if it is reached in the area.
    pub(crate) fn reached(self, area: u32, router: u32) -> Option<&'c ReachedRouter>
        ensures { option_copied result ≡ reached_at self.entry.calculation.now.intra.areas area router }
    {
        self.calculation.intra().router(area, router)
    }
}
