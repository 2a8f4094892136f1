//! The inputs of inter-area routes, with the examined area (RFC 2328, 16.2).
ghost use Rattle.std.specs.Prelude.{◌≡◌};
ghost use Rattle.inter.specs.Inputs.{examined_area};

use active_ranges::ActiveRanges;
use intra::Intra;
use lsdb::Database;
use std::marker::Model;

/// The area whose summaries are examined: the backbone if two areas are active, or else the only
/// active one.
#[derive(Drop)]
pub struct ExaminedArea<'a> {
    /// The Area ID.
    pub area: u32,
    pub database: &'a Database,
}

impl<'a> Model for ExaminedArea<'a> {
    ghost use Rattle.std.specs.FinMap as map;
    ghost use Rattle.std.specs.Coded.{Coded, codes};
    ghost use Rattle.ospf_types.specs.Keys.{key_code};
    ghost use Rattle.lsdb.specs.Databases.{Database as Lsas};
    ghost use Rattle.inter.specs.Inputs.{ExaminedValue};

    ghost Value = { ExaminedValue };

    ghost coded = { let lsas : Coded Lsas = map.code key_code (Prim.hlevel codes) in Prim.hlevel (codes, lsas) };

    ghost view = { λ x. record { area = x.area; lsas = x.database.now.lsas } };
}

/// The inputs of inter-area routes.
#[derive(Drop)]
pub struct InterInputs<'a> {
    /// The Router ID of the calculating router.
    pub root: u32,
    /// The examined area, or `None` if no area is active.
    pub examined: Option<ExaminedArea<'a>>,
    pub intra: &'a Intra,
    pub active: &'a ActiveRanges,
}

impl<'a> Model for InterInputs<'a> {
    ghost use Rattle.std.specs.FinMap as map;
    ghost use Rattle.std.specs.Coded.{Coded, codes};
    ghost use Rattle.ospf_types.specs.Keys.{key_code};
    ghost use Rattle.lsdb.specs.Databases.{Database as Lsas};
    ghost use Rattle.intra.specs.contracts.intra.Intra as intra_routes;
    ghost use Rattle.active_ranges.specs.contracts.active.ActiveRanges as active_ranges;
    ghost use Rattle.inter.specs.Inputs.{InterInputsValue};

    ghost Value = { InterInputsValue };

    ghost coded = { let lsas : Coded Lsas = map.code key_code (Prim.hlevel codes) in Prim.hlevel (codes, lsas, intra_routes.the_row.coded, active_ranges.the_row.coded) };

    ghost view = { λ i. record { root = i.root; examined = i.examined; intra = i.intra.now; active = i.active.now } };
}

impl InterInputs<'_> {
    // Returns the Area ID of the examined area.
    pub(crate) fn area(&self) -> Option<u32>
        ensures { result ≡ examined_area self.now }
    {
        match &self.examined {
            Some(examined) => Some(examined.area),
            None => None,
        }
    }
}
