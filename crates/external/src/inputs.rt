//! The inputs of external routes.
use active_ranges::ActiveRanges;
use inter::Inter;
use intra::Intra;
use lsdb::Database;
use std::marker::Model;

/// The inputs of external routes.
#[derive(Drop)]
pub struct ExternalInputs<'a> {
    /// The Router ID of the calculating router.
    pub root: u32,
    /// True if RFC1583Compatibility is enabled (RFC 2328, 16.4.1 and C.1).
    pub compat: bool,
    /// The Area IDs.
    pub areas: &'a [u32],
    /// The database of AS-external-LSAs.
    pub database: &'a Database,
    pub intra: &'a Intra,
    pub active: &'a ActiveRanges,
    pub inter: &'a Inter,
}

impl<'a> Model for ExternalInputs<'a> {
    ghost use Rattle.std.specs.FinMap as map;
    ghost use Rattle.std.specs.Coded.{Coded, codes};
    ghost use Rattle.ospf_types.specs.Keys.{key_code};
    ghost use Rattle.lsdb.specs.Databases.{Database as Lsas};
    ghost use Rattle.intra.specs.contracts.intra.Intra as intra_routes;
    ghost use Rattle.active_ranges.specs.contracts.active.ActiveRanges as active_ranges;
    ghost use Rattle.inter.specs.contracts.inter.Inter as inter_routes;
    ghost use Rattle.external.specs.Inputs.{ExternalInputsValue};

    ghost Value = { ExternalInputsValue };

    ghost coded = { let lsas : Coded Lsas = map.code key_code (Prim.hlevel codes) in Prim.hlevel (codes, lsas, intra_routes.the_row.coded, active_ranges.the_row.coded, inter_routes.the_row.coded) };

    ghost view = { λ i. record { root = i.root; compat = i.compat; areas = i.areas.now; lsas = i.database.now.lsas; intra = i.intra.now; active = i.active.now; inter = i.inter.now } };
}
