//! The LSAs of a state in listing order, and the state as a base.
ghost use Rattle.std.specs.Prelude.{◌≡◌, ◌++◌, IfOk, OnOk, map as list_map};
ghost use Rattle.std.specs.FinMap.{entries};
ghost use Rattle.event_state.specs.Rolls.{IsBaseOf};
ghost use Rattle.event_state.specs.Listings.{AreAreaIds, AreLsas, lsas_at, lsas_of_areas};

use event_state::{Base, State};
use lsa_codec::Checked;
use ospf_types::config::{AreaConfig, Interface};
use ospf_types::key::Scope;
use ospf_types::listed::Listed;
use ospf_types::memory::Memory;
use std::alloc::Global;
use std::collections::BTreeSet;

/// Returns the present state as a base: each LSA at its present age.
pub(crate) fn base_of(alloc: Global, state: &State) -> Result<Base, Memory>
    ensures { IfOk result (IsBaseOf state.now) }
{
    Ok(Base {
        config: state.config().copy(alloc)?,
        serial: state.serial(),
        interfaces: interfaces(alloc, state)?,
        lsas: listed(alloc, lsas(alloc, state)?)?,
    })
}

// Returns the interfaces with their ids, in ascending order.
fn interfaces(alloc: Global, state: &State) -> Result<Listed<(u8, Interface)>, Memory>
    ensures { IfOk result (λ list. list ≡ entries state.now.interfaces) }
{
    let mut list = Listed::new(alloc);
    for (id, interface) in state.interfaces() {
        list.push((*id, *interface))?;
    }
    Ok(list)
}

fn listed(alloc: Global, lsas: Vec<(Scope, Checked)>) -> Result<Listed<(Scope, Checked)>, Memory>
    ensures { IfOk result (λ list. list ≡ lsas.items) }
{
    let mut list = Listed::new(alloc);
    for lsa in lsas {
        list.push(lsa)?;
    }
    Ok(list)
}

/// Returns copies of all LSAs with their scopes, at their present age: areas by Area ID and then
/// the AS, and within a database by LS type, Link State ID and Advertising Router.
pub(crate) fn lsas(alloc: Global, state: &State) -> Result<Vec<(Scope, Checked)>, Memory>
    ensures { IfOk result (λ found. AreLsas state.now found.items) }
{
    let ids = area_ids(alloc, state.config().areas.as_slice())?;
    let mut found = Vec::new(alloc);
    add_areas(&mut found, state, &ids)?;
    add_lsas(&mut found, state, Scope::As)?;
    Ok(found)
}

// Appends copies of the LSAs of these areas, in the order of their Area IDs.
fn add_areas(
    found: &mut Vec<(Scope, Checked)>,
    state: &State,
    ids: &BTreeSet<u32>,
) -> Result<(), Memory>
    ensures { OnOk result (found.new.items
        ≡ found.old.items ++ lsas_of_areas state.now ids.now.keys) }
{
    for id in ids {
        add_lsas(found, state, Scope::Area(*id))?;
    }
    Ok(())
}

// Returns the configured Area IDs.
fn area_ids(alloc: Global, areas: &[AreaConfig]) -> Result<BTreeSet<u32>, Memory>
    ensures { IfOk result (λ ids. AreAreaIds areas.now ids.keys) }
{
    let mut ids = BTreeSet::new(alloc);
    for area in areas {
        ids.insert(area.id)?;
    }
    prove!(ids.len() < usize::MAX);
    Ok(ids)
}

// Appends copies of the LSAs of a scope.
fn add_lsas(found: &mut Vec<(Scope, Checked)>, state: &State, scope: Scope) -> Result<(), Memory>
    ensures { OnOk result (found.new.items ≡ found.old.items ++ lsas_at state.now scope) }
{
    let Some(database) = state.database(scope) else {
        return Ok(());
    };
    add_rows(found, database.lsas()?, scope)
}

fn add_rows(
    found: &mut Vec<(Scope, Checked)>,
    lsas: Vec<Checked>,
    scope: Scope,
) -> Result<(), Memory>
    ensures { OnOk result (found.new.items
        ≡ found.old.items ++ list_map (λ l. (scope, l)) lsas.items) }
{
    for lsa in lsas {
        found.push((scope, lsa))?;
    }
    Ok(())
}
