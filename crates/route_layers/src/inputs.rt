//! The inputs of the route calculation, taken from the state and its trees.
ghost use Rattle.std.specs.Prelude.{◌≡◌, ◌↔◌, IsTrue, length, IfOk};
ghost use Rattle.route_layers.specs.Trees.{areas_with, AreUpsOf};

use area_trees::AreaTree;
use event_state::State;
use intra::AreaInputs;
use ospf_types::config::Interface;
use ospf_types::key::Scope;
use ospf_types::memory::Memory;
use std::alloc::Global;
use vertex_graph::Up;

/// Returns the areas with their databases and trees, in the order of the configuration.
pub fn area_inputs<'a>(
    alloc: Global,
    state: &'a State,
    trees: &'a [AreaTree],
) -> Result<Vec<AreaInputs<'a>>, Memory>
    requires { length trees.now ≡ length state.now.config.areas }
    ensures { IfOk result (λ areas.
        areas.items ≡ areas_with state.now state.now.config.areas trees.now) }
{
    let mut areas = Vec::with_capacity(alloc, trees.len())?;
    for (area, tree) in state.config().areas.as_slice().iter().zip(trees) {
        let Some(database) = state.database(Scope::Area(area.id)) else {
            unreachable!()
        };
        let id = area.id;
        areas.push(AreaInputs { id, database, tree })?;
    }
    Ok(areas)
}

/// Returns the interfaces of the area that are up.
pub(crate) fn ups(alloc: Global, state: &State, area: u32) -> Result<Vec<Up>, Memory>
    ensures { IfOk result (λ ups. AreUpsOf state.now area ups.items) }
{
    let mut ups = Vec::new(alloc);
    for (id, interface) in state.interfaces() {
        if is_up_in(interface, area) {
            let (id, address) = (*id, interface.address);
            ups.push(Up { id, address })?;
        }
    }
    Ok(ups)
}

/// Returns true if the interface is in the area and up.
pub fn is_up_in(interface: &Interface, area: u32) -> bool
    ensures { IsTrue result ↔ ((interface.now.area ≡ area) × IsTrue interface.now.up) }
{
    interface.area == area && interface.up
}
