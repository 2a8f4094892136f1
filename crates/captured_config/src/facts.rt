//! The facts that are kept of LSAs about the router. The LSAs themselves are not kept.
ghost use Rattle.std.specs.Prelude.{◌≡◌, ◌++◌, [], OnOk, OnErr};
ghost use Rattle.std.specs.List.{cons_option};
ghost use Rattle.captured_config.specs.Facts.{no_facts, with_facts, with_lists};
ghost use Rattle.captured_config.specs.Lsas.{lsa_in};

use crate::fact::{LinkBack, LsaFacts, OwnLink};
use crate::telling::{links_back_of, own_links_of, told_from};
use lsa_codec::Checked;
use ospf_types::memory::Memory;
use std::alloc::Global;
use std::marker::Model;

/// The facts that LSAs give about the router, in the order in which the LSAs were noted.
#[derive(Drop)]
pub(crate) struct FactLists {
    own: Vec<OwnLink>,
    back: Vec<LinkBack>,
    told: Vec<LsaFacts>,
}

/// Contracts see the lists.
impl Model for FactLists {
    ghost use Rattle.captured_config.specs.Facts.{FactLists as Lists};

    ghost Value = { Lists };

    ghost view = { λ f. record { own = f.own.items; back = f.back.items; told = f.told.items } };
}

impl FactLists {
    /// Creates empty lists.
    pub(crate) fn new(alloc: Global) -> FactLists
        ensures { result ≡ no_facts }
    {
        FactLists {
            own: Vec::new(alloc),
            back: Vec::new(alloc),
            told: Vec::new(alloc),
        }
    }

    /// Returns the links of the router's router-LSAs, of all areas.
    pub(crate) fn own(&self) -> &[OwnLink]
        ensures { result.now ≡ self.now.own }
    {
        self.own.as_slice()
    }

    /// Returns the links that lead to the router, of all areas.
    pub(crate) fn back(&self) -> &[LinkBack]
        ensures { result.now ≡ self.now.back }
    {
        self.back.as_slice()
    }

    /// Returns the other facts of the LSAs, of all areas.
    pub(crate) fn told(&self) -> &[LsaFacts]
        ensures { result.now ≡ self.now.told }
    {
        self.told.as_slice()
    }

    /// Notes the facts that an LSA of the area gives about the router.
    pub(crate) fn note(
        &mut self,
        alloc: Global,
        router: u32,
        area: u32,
        lsa: &Checked,
    ) -> Result<(), Memory>
        ensures ok { OnOk result (self.new ≡ with_facts router self.old (lsa_in area lsa.now)) }
        ensures err { OnErr result (self.new ≡ self.old) }
    {
        let own = own_links_of(alloc, router, area, lsa)?;
        let back = links_back_of(alloc, router, area, lsa)?;
        self.add(own, back, told_from(router, area, lsa))
    }

    // Appends to each list. Memory is reserved first, so that all of it is appended, or nothing.
    fn add(
        &mut self,
        mut own: Vec<OwnLink>,
        mut back: Vec<LinkBack>,
        told: Option<LsaFacts>,
    ) -> Result<(), Memory>
        ensures ok { OnOk result (self.new ≡ with_lists self.old own.items back.items told) }
        ensures err { OnErr result (self.new ≡ self.old) }
    {
        self.own.reserve(own.len())?;
        self.back.reserve(back.len())?;
        put_told(told, &mut self.told)?;
        self.own.append(&mut own)?;
        self.back.append(&mut back)?;
        Ok(())
    }
}

fn put_told(told: Option<LsaFacts>, all: &mut Vec<LsaFacts>) -> Result<(), Memory>
    ensures ok { OnOk result (all.new.items ≡ all.old.items ++ cons_option told []) }
    ensures err { OnErr result (all.new.items ≡ all.old.items) }
{
    let Some(told) = told else {
        return Ok(());
    };
    all.push(told)?;
    Ok(())
}
