//! The links that a change removes and adds, by the rows before and after it.
ghost use Rattle.std.specs.Prelude.{◌≡◌, ◌↔◌, ◌≤◌, length, take, IsTrue, IfOk, OnOk, Contains};
ghost use Rattle.std.specs.Prelude.{option_copied};
ghost use Rattle.graph_links.specs.Differing.{AddsAtMost, AddsUnless, AddsUnlike, HaveSameBack};
ghost use Rattle.graph_links.specs.Differing.{HaveSameLinks, IsByCost, IsCountCheaper};
ghost use Rattle.graph_links.specs.Differing.{KeepsApartWith};
ghost use Rattle.graph_links.specs.Pairs.{AreApart};
ghost use Rattle.graph_links.specs.Sides.{AreOwn, HaveCome, HaveDifferentVertices, HaveGone};
ghost use Rattle.graph_links.specs.Sides.{out_of};

use crate::graph_view::find_row;
use crate::link::{GraphLink, LinkChanges};
use crate::row::{Row, Rows};
use crate::row_update::RowUpdate;
use ospf_types::memory::Memory;
use std::alloc::Global;

/// Returns the links that the row updates remove and add. `rows` are the rows before the change,
/// and only links from updated vertices are compared.
///
/// If no two updates are for one vertex, no list has duplicates.
///
/// Links are compared in ascending cost, or one by one if there are at most eight. So the thousands
/// of links of a router cost no quadratic time.
pub fn changed_links(alloc: Global, rows: &Rows, fresh: &[RowUpdate]) -> Result<LinkChanges, Memory>
    requires { AreOwn rows.now.entries fresh.now }
    ensures gone { IfOk result (λ changes. HaveGone rows.now.entries fresh.now changes.gone.items) }
    ensures came { IfOk result (λ changes. HaveCome rows.now.entries fresh.now changes.came.items) }
    ensures gone_once { HaveDifferentVertices fresh.now
        → IfOk result (λ changes. AreApart changes.gone.items) }
    ensures came_once { HaveDifferentVertices fresh.now
        → IfOk result (λ changes. AreApart changes.came.items) }
{
    let mut changes = LinkChanges {
        gone: Vec::new(alloc),
        came: Vec::new(alloc),
    };
    for one in fresh {
        let before = out_links(find_row(rows, &one.vertex).0);
        let after = out_links(one.row.as_ref());
        list_changes(alloc, before, after, &mut changes)?;
    }
    Ok(changes)
}

// Appends the links that are only in `before` to the removed links, and those only in `after` to
// the added links. The common links at the start and at the end are skipped first.
fn list_changes(
    alloc: Global,
    before: &[GraphLink],
    after: &[GraphLink],
    changes: &mut LinkChanges,
) -> Result<(), Memory>
    requires before { AreApart before.now }
    requires after { AreApart after.now }
    ensures gone { OnOk result
        (AddsUnlike before.now after.now changes.old.gone.items changes.new.gone.items) }
    ensures came { OnOk result
        (AddsUnlike after.now before.now changes.old.came.items changes.new.came.items) }
    ensures gone_once { OnOk result
        (KeepsApartWith before.now changes.old.gone.items changes.new.gone.items) }
    ensures came_once { OnOk result
        (KeepsApartWith after.now changes.old.came.items changes.new.came.items) }
{
    let front = same_front(before, after);
    let before = &before[front..];
    let after = &after[front..];
    let back = same_back(before, after);
    let before = &before[..before.len() - back];
    let after = &after[..after.len() - back];
    list_missing(alloc, before, after, &mut changes.gone)?;
    list_missing(alloc, after, before, &mut changes.came)?;
    Ok(())
}

/// Returns the links from a vertex by its row. The slice is empty if the vertex has no row.
pub fn out_links(row: Option<&Row>) -> &[GraphLink]
    ensures { result.now ≡ out_of (option_copied row.entry) }
{
    match row {
        Some(row) => row.out.as_slice(),
        None => &[],
    }
}

// Returns the number of equal links at the start of both lists.
fn same_front(one: &[GraphLink], other: &[GraphLink]) -> usize
    ensures within_one { result ≤ length one.now }
    ensures within_other { result ≤ length other.now }
    ensures same { take result one.now ≡ take result other.now }
{
    for (place, link) in one.iter().enumerate() {
        match other.get(place) {
            Some(same) if is_same(link, same) => {}
            _ => return place,
        }
    }
    one.len()
}

// Returns the number of equal links at the end of both lists.
fn same_back(one: &[GraphLink], other: &[GraphLink]) -> usize
    ensures within_one { result ≤ length one.now }
    ensures within_other { result ≤ length other.now }
    ensures same { HaveSameBack result one.now other.now }
{
    let mut same = 0;
    while same < one.len() && same < other.len() {
        let link = &one[one.len() - 1 - same];
        if !is_same(link, &other[other.len() - 1 - same]) {
            return same;
        }
        same += 1;
    }
    same
}

// The maximum number of links that are searched one by one, without sorting them.
const FEW: usize = 8;

// Appends copies of the links in `has` that are not in `others`. A few others are searched one by
// one.
fn list_missing(
    alloc: Global,
    has: &[GraphLink],
    others: &[GraphLink],
    links: &mut Vec<GraphLink>,
) -> Result<(), Memory>
    ensures missing { OnOk result (AddsUnlike has.now others.now links.old.items links.new.items) }
    ensures apart { OnOk result (KeepsApartWith has.now links.old.items links.new.items) }
{
    if has.is_empty() {
        return Ok(());
    }
    if others.len() > FEW {
        let others = by_cost(copies(alloc, others)?);
        return list_unlike(copies(alloc, has)?, others.as_slice(), links);
    }
    for link in has {
        list_unless_same(alloc, link, others, links)?;
    }
    Ok(())
}

// Appends a copy of the link, unless it is one of the few others.
fn list_unless_same(
    alloc: Global,
    link: &GraphLink,
    others: &[GraphLink],
    links: &mut Vec<GraphLink>,
) -> Result<(), Memory>
    ensures unlike { OnOk result (AddsUnless link.now others.now links.old.items links.new.items) }
    ensures once { OnOk result (AddsAtMost link.now links.old.items links.new.items) }
{
    if is_one_of(link, others) {
        return Ok(());
    }
    links.push(copy(alloc, link)?)?;
    Ok(())
}

// Returns true if the link is one of the few others.
fn is_one_of(link: &GraphLink, others: &[GraphLink]) -> bool
    ensures { IsTrue result ↔ Contains others.now link.now }
{
    for other in others {
        if is_same(link, other) {
            return true;
        }
    }
    false
}

fn copies(alloc: Global, links: &[GraphLink]) -> Result<Vec<GraphLink>, Memory>
    ensures { IfOk result (λ made. made.items ≡ links.now) }
{
    let mut made = Vec::with_capacity(alloc, links.len())?;
    for link in links {
        made.push(copy(alloc, link)?)?;
    }
    Ok(made)
}

fn copy(alloc: Global, link: &GraphLink) -> Result<GraphLink, Memory>
    ensures { IfOk result (λ made. made ≡ link.now) }
{
    Ok(GraphLink {
        from: link.from.copy(),
        to: link.to.copy(),
        cost: link.cost,
        label: link.label.copy(alloc)?,
    })
}

// Sorts the links by cost, because there may be thousands between two routers.
fn by_cost(links: Vec<GraphLink>) -> Vec<GraphLink>
    ensures same { HaveSameLinks links.items result.items }
    ensures ascending { IsByCost result.items }
{
    let mut links = links;
    links.sort_unstable_by_key(|link| link.cost);
    links
}

// Appends the links in `has` that are not in `others`, which is sorted by cost.
fn list_unlike(
    has: Vec<GraphLink>,
    others: &[GraphLink],
    links: &mut Vec<GraphLink>,
) -> Result<(), Memory>
    requires { IsByCost others.now }
    ensures unlike { OnOk result (AddsUnlike has.items others.now links.old.items links.new.items) }
    ensures apart { OnOk result (KeepsApartWith has.items links.old.items links.new.items) }
{
    for link in has {
        list_unless(link, others, links)?;
    }
    Ok(())
}

// Appends the link, unless it is in `others`, which is sorted by cost.
fn list_unless(
    link: GraphLink,
    others: &[GraphLink],
    links: &mut Vec<GraphLink>,
) -> Result<(), Memory>
    requires { IsByCost others.now }
    ensures unlike { OnOk result (AddsUnless link others.now links.old.items links.new.items) }
    ensures once { OnOk result (AddsAtMost link links.old.items links.new.items) }
{
    if is_among(&link, others) {
        return Ok(());
    }
    links.push(link)?;
    Ok(())
}

// Returns true if the link is in `others`, which is sorted by cost.
fn is_among(link: &GraphLink, others: &[GraphLink]) -> bool
    requires { IsByCost others.now }
    ensures { IsTrue result ↔ Contains others.now link.now }
{
    let first = first_at_cost(others, link.cost);
    is_among_first(link, &others[first..])
}

// Returns the number of links with a lower cost, which come first.
fn first_at_cost(links: &[GraphLink], cost: u16) -> usize
    requires { IsByCost links.now }
    ensures within { result ≤ length links.now }
    ensures split { IsCountCheaper cost links.now result }
{
    links.partition_point(|link| link.cost < cost)
}

// Returns true if the link is in `others`, which is sorted by cost. Links with a higher cost are
// not compared.
fn is_among_first(link: &GraphLink, others: &[GraphLink]) -> bool
    requires { IsByCost others.now }
    ensures { IsTrue result ↔ Contains others.now link.now }
{
    for other in others {
        if link.cost < other.cost {
            return false;
        }
        if is_same(link, other) {
            return true;
        }
    }
    false
}

// Returns true if the links are equal.
fn is_same(one: &GraphLink, other: &GraphLink) -> bool
    ensures { IsTrue result ↔ (one.now ≡ other.now) }
{
    one.from.vertex() == other.from.vertex()
        && one.to.vertex() == other.to.vertex()
        && one.cost == other.cost
        && one.label.is_same(&other.label)
}
