//! The facts that one LSA gives about the router.
ghost use Rattle.std.specs.Prelude.{◌≡◌, ◌++◌, ◌∷◌, [], IfOk, OnOk};
ghost use Rattle.std.specs.List.{filter_map};
ghost use Rattle.captured_config.specs.Facts.{back_from, link_back_at, own_from, own_link};
ghost use Rattle.captured_config.specs.Facts.{tells as tells_anything, told_from as told_from_lsa};
ghost use Rattle.captured_config.specs.Facts.{told_of as told_of_lsa};
ghost use Rattle.captured_config.specs.Lsas.{is_counted as is_counted_test};
ghost use Rattle.captured_config.specs.Lsas.{is_own_router_lsa as is_own_router_lsa_test};
ghost use Rattle.captured_config.specs.Lsas.{lacks_externals as lacks_externals_test, links_within};
ghost use Rattle.captured_config.specs.Lsas.{lsa_in};
ghost use Rattle.captured_config.specs.StubAreas.{is_default as is_default_test};
ghost use Rattle.captured_config.specs.StubAreas.{is_own_summary as is_own_summary_test};
ghost use Rattle.captured_config.specs.StubAreas.{advertised_metric as advertised_metric_of};
ghost use Rattle.captured_config.specs.StubAreas.{default_route as default_route_of};
ghost use Rattle.captured_config.specs.StubAreas.{other_network as other_network_of};
ghost use Rattle.captured_config.specs.StubAreas.{reachable as reachable_of};

use crate::fact::{LinkBack, LsaFacts, OwnLink};
use crate::links::is_point_to_point;
use lsa_codec::Checked;
use ospf_types::lsa::{LS_INFINITY, Link, ROUTER_LSA, SUMMARY_LSA};
use ospf_types::memory::Memory;
use ospf_types::prefix::Prefix;
use std::alloc::Global;

/// The E-bit of Options: AS-external-LSAs are flooded into the area (RFC 2328, A.2).
const EXTERNALS: u8 = 0x02;

/// Returns true if the LSA counts: a router-LSA, or a summary-LSA of the router for a network.
pub(crate) fn is_counted(router: u32, lsa: &Checked) -> bool
    ensures { result ≡ is_counted_test router lsa.now }
{
    let key = lsa.key();
    key.kind == ROUTER_LSA || key.kind == SUMMARY_LSA && key.router == router
}

/// Returns the links of a router-LSA of the router.
pub(crate) fn own_links_of(
    alloc: Global,
    router: u32,
    area: u32,
    lsa: &Checked,
) -> Result<Vec<OwnLink>, Memory>
    ensures { IfOk result (λ own. own.items ≡ own_from router (lsa_in area lsa.now)) }
{
    let mut own = Vec::new(alloc);
    if !is_own_router_lsa(router, lsa) {
        return Ok(own);
    }
    for link in lsa.links() {
        own.push(OwnLink { area, link })?;
    }
    Ok(own)
}

/// Returns the links of a router-LSA that lead to the router.
pub(crate) fn links_back_of(
    alloc: Global,
    router: u32,
    area: u32,
    lsa: &Checked,
) -> Result<Vec<LinkBack>, Memory>
    ensures { IfOk result (λ back. back.items ≡ back_from router (lsa_in area lsa.now)) }
{
    let key = lsa.key();
    let mut back = Vec::new(alloc);
    if key.kind != ROUTER_LSA {
        return Ok(back);
    }
    for link in lsa.links() {
        put_if_back(router, area, key.router, link, &mut back)?;
    }
    Ok(back)
}

fn put_if_back(
    router: u32,
    area: u32,
    neighbour: u32,
    link: Link,
    back: &mut Vec<LinkBack>,
) -> Result<(), Memory>
    ensures { OnOk result (back.new.items
        ≡ back.old.items ++ filter_map (link_back_at router area neighbour) (link ∷ [])) }
{
    if !is_point_to_point(link.kind) || link.id != router {
        return Ok(());
    }
    back.push(LinkBack {
        area,
        router: neighbour,
        address: link.detail,
    })?;
    Ok(())
}

/// Returns the facts that the LSA gives, its links aside, or `None` if it gives none.
pub(crate) fn told_from(router: u32, area: u32, lsa: &Checked) -> Option<LsaFacts>
    ensures { result ≡ told_from_lsa router (lsa_in area lsa.now) }
{
    let told = told_of(router, area, lsa);
    if !tells(&told) {
        return None;
    }
    Some(told)
}

fn tells(told: &LsaFacts) -> bool
    ensures { result ≡ tells_anything told.now }
{
    told.is_own || told.lacks_externals || told.default.is_some() || told.has_other_summary
}

fn told_of(router: u32, area: u32, lsa: &Checked) -> LsaFacts
    ensures { result ≡ told_of_lsa router (lsa_in area lsa.now) }
{
    LsaFacts {
        area,
        is_own: is_own_router_lsa(router, lsa),
        lacks_externals: lacks_externals(lsa),
        default: default_route(router, lsa),
        has_other_summary: other_network(router, lsa).is_some(),
    }
}

fn is_own_router_lsa(router: u32, lsa: &Checked) -> bool
    ensures { result ≡ is_own_router_lsa_test router lsa.now }
{
    let key = lsa.key();
    key.kind == ROUTER_LSA && key.router == router
}

// Returns true if it is a router-LSA with the E-bit clear, as in a stub area (RFC 2328, 12.1.2).
fn lacks_externals(lsa: &Checked) -> bool
    ensures { result ≡ lacks_externals_test lsa.now }
{
    let header = lsa.header();
    header.kind == ROUTER_LSA && header.options & EXTERNALS == 0
}

// Returns the metric at which the router advertises a default route (RFC 2328, 12.4.3).
fn default_route(router: u32, lsa: &Checked) -> Option<u32>
    ensures { result ≡ default_route_of router lsa.now }
{
    if !is_default(lsa.prefix()) {
        return None;
    }
    advertised_metric(router, lsa)
}

// Returns the metric at which the router advertises another network.
fn other_network(router: u32, lsa: &Checked) -> Option<u32>
    ensures { result ≡ other_network_of router lsa.now }
{
    if is_default(lsa.prefix()) {
        return None;
    }
    advertised_metric(router, lsa)
}

// Returns the metric at which the router advertises a network.
fn advertised_metric(router: u32, lsa: &Checked) -> Option<u32>
    ensures { result ≡ advertised_metric_of router lsa.now }
{
    if !is_own_summary(router, lsa) {
        return None;
    }
    reachable(lsa.metric())
}

fn is_own_summary(router: u32, lsa: &Checked) -> bool
    ensures { result ≡ is_own_summary_test router lsa.now }
{
    let key = lsa.key();
    key.kind == SUMMARY_LSA && key.router == router
}

// Returns true if it is the default route, 0.0.0.0/0.
fn is_default(network: Option<Prefix>) -> bool
    ensures { result ≡ is_default_test network }
{
    match network {
        Some(network) => network.is_default(),
        None => false,
    }
}

// Returns the metric if it is below LSInfinity.
fn reachable(metric: Option<u32>) -> Option<u32>
    ensures { result ≡ reachable_of metric }
{
    match metric {
        Some(metric) if metric < LS_INFINITY => Some(metric),
        _ => None,
    }
}
