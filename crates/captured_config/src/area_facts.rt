//! The facts about one area.
ghost use Rattle.std.specs.Prelude.{◌≡◌};
ghost use Rattle.std.specs.List.{list_any};
ghost use Rattle.captured_config.specs.Finding.{default_cost_by, is_cost_unknown_by};
ghost use Rattle.captured_config.specs.Finding.{is_stub_area_by, stub_by};
ghost use Rattle.captured_config.specs.Finding.{tells_default as tells_default_of};
ghost use Rattle.captured_config.specs.Finding.{tells_no_externals as tells_no_externals_test};
ghost use Rattle.captured_config.specs.Finding.{tells_other, tells_own};

use crate::fact::LsaFacts;
use ospf_types::address::BACKBONE;
use ospf_types::config::Stub;

/// The default cost of a stub area if the capture has none.
const ASSUMED_COST: u32 = 1;

/// The facts that LSAs give, their links aside, and the area that is asked about.
#[derive(Clone, Copy)]
pub(crate) struct AreaFacts<'a> {
    /// Area ID.
    pub(crate) area: u32,
    /// The facts of the LSAs of all areas.
    pub(crate) told: &'a [LsaFacts],
}

impl<'a> AreaFacts<'a> {
    /// Returns true if the router has a router-LSA in the area.
    pub(crate) fn has_router_lsa(&self) -> bool
        ensures { result ≡ list_any (tells_own self.now.area) self.now.told.now }
    {
        let area = self.area;
        self.told
            .iter()
            .any(|told| told.area == area && told.is_own)
    }

    /// Returns the stub area settings of the area, or `None` if it is not a stub area.
    pub(crate) fn stub(&self) -> Option<Stub>
        ensures { result ≡ stub_by self.now.area self.now.told.now }
    {
        if !self.is_stub_area() {
            return None;
        }
        Some(Stub {
            cost: self.default_cost().unwrap_or(ASSUMED_COST),
            summaries: self.default_cost().is_none() || self.has_other_summary(),
        })
    }

    /// Returns true if it is a stub area whose default cost is not in the capture.
    pub(crate) fn is_cost_unknown(&self) -> bool
        ensures { result ≡ is_cost_unknown_by self.now.area self.now.told.now }
    {
        self.is_stub_area() && self.default_cost().is_none()
    }

    // Returns true if a router of the area clears the E-bit. The backbone cannot be a stub area
    // (RFC 2328, 3.6).
    fn is_stub_area(&self) -> bool
        ensures { result ≡ is_stub_area_by self.now.area self.now.told.now }
    {
        self.area != BACKBONE && self.lacks_externals()
    }

    fn lacks_externals(&self) -> bool
        ensures { result ≡ list_any (tells_no_externals_test self.now.area) self.now.told.now }
    {
        let area = self.area;
        self.told
            .iter()
            .any(|told| told.area == area && told.lacks_externals)
    }

    // Returns the last metric at which the router advertised a default route into the area.
    fn default_cost(&self) -> Option<u32>
        ensures { result ≡ default_cost_by self.now.area self.now.told.now }
    {
        let mut cost = None;
        for told in self.told {
            cost = default_told(self.area, *told).or(cost);
        }
        cost
    }

    // Returns true if the router advertises another network than the default route into the area.
    fn has_other_summary(&self) -> bool
        ensures { result ≡ list_any (tells_other self.now.area) self.now.told.now }
    {
        let area = self.area;
        self.told
            .iter()
            .any(|told| told.area == area && told.has_other_summary)
    }
}

fn default_told(area: u32, told: LsaFacts) -> Option<u32>
    ensures { result ≡ tells_default_of area told }
{
    if told.area != area {
        return None;
    }
    told.default
}
