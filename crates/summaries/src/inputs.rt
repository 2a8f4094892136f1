//! The inputs of due summaries.
use active_ranges::ActiveRanges;
use external::External;
use inter::Inter;
use intra::Intra;
use ospf_types::config::AreaConfig;
use std::marker::Model;

/// The inputs of due summaries.
#[derive(Drop)]
pub struct SummaryInputs<'a> {
    pub areas: &'a [AreaConfig],
    /// The Area IDs of the active areas, which have an interface that is up.
    pub active: &'a [u32],
    pub intra: &'a Intra,
    pub ranges: &'a ActiveRanges,
    pub inter: &'a Inter,
    pub external: &'a External,
}

impl<'a> Model for SummaryInputs<'a> {
    ghost use Rattle.std.specs.Coded.{Coded, codes};
    ghost use Rattle.intra.specs.contracts.intra.Intra as intra_routes;
    ghost use Rattle.active_ranges.specs.contracts.active.ActiveRanges as active_ranges;
    ghost use Rattle.inter.specs.contracts.inter.Inter as inter_routes;
    ghost use Rattle.external.specs.contracts.external.External as external_routes;
    ghost use Rattle.summaries.specs.Inputs.{SummaryInputsValue};

    ghost Value = { SummaryInputsValue };

    ghost coded = { Prim.hlevel (codes, intra_routes.the_row.coded, active_ranges.the_row.coded, inter_routes.the_row.coded, external_routes.the_row.coded) };

    ghost view = { λ i. record { areas = i.areas.now; active = i.active.now; intra = i.intra.now; ranges = i.ranges.now; inter = i.inter.now; external = i.external.now } };
}
