//! Updates of the index by the LSAs of the examined area, and the destinations whose entry may
//! change.
ghost use Rattle.std.specs.Prelude.{◌≡◌, Contains, OnOk};
ghost use Rattle.advertised_index.specs.Indexes.{AreDestsAffected, IsLedTo, empty_index};
ghost use Rattle.advertised_index.specs.Lists.{KeepsAll};
ghost use Rattle.inter.specs.Following.{IsIndexBefore, IsIndexSince, AreLed, HasAllBehind};
ghost use Rattle.inter.specs.Following.{IsPushed, ArePushed};
ghost use Rattle.inter.specs.Inputs.{examined_area};
ghost use Rattle.inter.specs.Inters.{IsIndexFor};

use crate::inputs::InterInputs;
use advertised_index::{AdvertisedIndex, AffectedDests, IndexKey, ScopeDatabase};
use ospf_types::key::{Dest, Key, Scope};
use ospf_types::memory::Memory;

impl InterInputs<'_> {
    /// Updates the index by the LSAs of the examined area. `area` is the area that was examined
    /// before, which may be another one or none.
    pub(crate) fn follow_examined(
        &self,
        area: Option<u32>,
        index: &mut AdvertisedIndex,
        keys: &[(Scope, Key)],
        affected: &mut AffectedDests,
    ) -> Result<(), Memory>
        requires { IsIndexBefore self.now.root keys.now self.now.examined area index.old }
        ensures index { OnOk result (IsIndexFor self.now.root self.now.examined index.new) }
        ensures led { OnOk result
            (AreLed area (examined_area self.now) index.old index.new affected.new.dests) }
    {
        if area == self.area() {
            return self.follow_named(index, keys, affected);
        }
        index.clear(affected)?;
        self.follow_all(index, affected)
    }

    // Updates the index by the LSAs with these keys, if the same area was examined before.
    fn follow_named(
        &self,
        index: &mut AdvertisedIndex,
        keys: &[(Scope, Key)],
        affected: &mut AffectedDests,
    ) -> Result<(), Memory>
        requires { IsIndexSince self.now.root keys.now self.now.examined index.old }
        ensures index { OnOk result (IsIndexFor self.now.root self.now.examined index.new) }
        ensures touched { OnOk result (AreDestsAffected index.old index.new affected.old affected.new) }
    {
        match &self.examined {
            Some(examined) => {
                let from = ScopeDatabase {
                    root: self.root,
                    scope: Scope::Area(examined.area),
                    database: examined.database,
                };
                index.follow(from, keys, affected)
            }
            None => Ok(()),
        }
    }

    // Adds all LSAs of the examined area to an empty index.
    fn follow_all(
        &self,
        index: &mut AdvertisedIndex,
        affected: &mut AffectedDests,
    ) -> Result<(), Memory>
        requires { index.old ≡ empty_index }
        ensures index { OnOk result (IsIndexFor self.now.root self.now.examined index.new) }
        ensures touched { OnOk result (AreDestsAffected index.old index.new affected.old affected.new) }
    {
        match &self.examined {
            Some(examined) => {
                let from = ScopeDatabase {
                    root: self.root,
                    scope: Scope::Area(examined.area),
                    database: examined.database,
                };
                index.follow_all(from, affected)
            }
            None => Ok(()),
        }
    }
}

/// Appends the destinations in `named` to which a summary leads, and the destinations of the
/// summaries of the routers in `named`. The others have no offers, so they have no entry.
pub(crate) fn push_named(
    index: &AdvertisedIndex,
    named: &[Dest],
    dests: &mut Vec<Dest>,
) -> Result<(), Memory>
    ensures { OnOk result (ArePushed index.now named.now dests.old.items dests.new.items) }
{
    for dest in named {
        push_dest(index, dest, dests)?;
    }
    Ok(())
}

// Appends the destination if a summary leads to it, and the destinations of its summaries if it is
// a router.
fn push_dest(index: &AdvertisedIndex, dest: &Dest, dests: &mut Vec<Dest>) -> Result<(), Memory>
    ensures { OnOk result (IsPushed index.now dest.now dests.old.items dests.new.items) }
{
    push_led(index, dest, dests)?;
    push_behind(index, dest, dests)?;
    Ok(())
}

// Appends the destination if a summary leads to it.
fn push_led(index: &AdvertisedIndex, dest: &Dest, dests: &mut Vec<Dest>) -> Result<(), Memory>
    ensures kept { OnOk result (KeepsAll dests.old.items dests.new.items) }
    ensures itself { OnOk result (IsLedTo index.now dest.now → Contains dests.new.items dest.now) }
{
    if index.leads_to(*dest) {
        dests.push(*dest)?;
    }
    Ok(())
}

// Appends the destinations of the router's summaries, if the destination is a router.
fn push_behind(index: &AdvertisedIndex, dest: &Dest, dests: &mut Vec<Dest>) -> Result<(), Memory>
    ensures kept { OnOk result (KeepsAll dests.old.items dests.new.items) }
    ensures behind { OnOk result (HasAllBehind index.now dest.now dests.new.items) }
{
    match *dest {
        Dest::Router(router) => index.list_dests(IndexKey::By(router), dests),
        Dest::Net(_) => Ok(()),
    }
}
