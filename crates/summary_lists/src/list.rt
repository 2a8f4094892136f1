//! The due summaries of one area.
ghost use Rattle.std.specs.Prelude.{◌≡◌, ◌≤◌, ◌<◌, ◌+◌, ◌++◌, [], length, IfOk, IfErr, OnOk};
ghost use Rattle.summary_lists.specs.Lists.{AreInOrder, IsMetricIn, IsPut, IsChangedBy};
ghost use Rattle.summary_lists.specs.Lists.{AreMetricsInOrder, AreOfKind};
ghost use Rattle.summary_lists.specs.Places.{IsSummaryAt, IsGapFor, those_before, those_at, those_after};

use crate::due::DueSummary;
use ospf_types::key::Dest;
use ospf_types::memory::Memory;
use std::alloc::Global;
use std::cmp::Ordering;
use std::marker::Model;

/// The summaries that are due in an area, ascending by LS type and destination.
pub struct AreaSummaries {
    area: u32,
    list: Vec<DueSummary>,
}

// proof: a value is dropped by one call, not part by part at each exit of a function.
impl Drop for AreaSummaries {
    fn drop(self) {
        let AreaSummaries {
            area: _,
            list: _list,
        } = self;
    }
}

impl Model for AreaSummaries {
    ghost use Rattle.std.specs.Prelude.{◌-◌, length};
    ghost use Rattle.summary_lists.specs.Lists.{AreaSummariesValue, AreInOrder, AreOfKind};

    ghost Value = { AreaSummariesValue };

    ghost view = { λ a. record { area = a.area; list = a.list.items; room = a.list.cap - length a.list.items } };

    ghost invariant = { λ a. AreInOrder a.list.items × AreOfKind a.list.items };
}

impl AreaSummaries {
    /// Creates the empty list of the area.
    pub fn none(alloc: Global, area: u32) -> AreaSummaries
        ensures area { result.area ≡ area }
        ensures list { result.list ≡ [] }
    {
        AreaSummaries {
            area,
            list: Vec::new(alloc),
        }
    }

    /// Returns the Area ID.
    pub fn area(&self) -> u32
        ensures { result ≡ self.now.area }
    {
        self.area
    }

    /// Returns the summaries, ascending by LS type and destination.
    pub fn as_slice(&self) -> &[DueSummary]
        ensures value { result.now ≡ self.now.list }
        ensures in_order { AreInOrder self.now.list }
        ensures of_kind { AreOfKind self.now.list }
    {
        self.list.as_slice()
    }

    /// Reserves room for `more` summaries.
    pub fn reserve(&mut self, more: usize) -> Result<(), Memory>
        ensures area { self.new.area ≡ self.old.area }
        ensures list { self.new.list ≡ self.old.list }
        ensures room { OnOk result (more ≤ self.new.room) }
    {
        self.list.reserve(more)?;
        Ok(())
    }

    /// Sets the metrics of these destinations in the list, one by one. A destination is removed if
    /// its metric is `None`.
    ///
    /// There must be room for as many summaries, so that nothing is allocated.
    pub fn put_all(&mut self, metrics: &[(Dest, Option<u32>)])
        requires in_order { AreMetricsInOrder metrics.now }
        requires room { length metrics.now ≤ self.old.room }
        ensures area { self.new.area ≡ self.old.area }
        ensures list { IsChangedBy metrics.now self.old.list self.new.list }
        ensures list_in_order { AreInOrder self.new.list }
        ensures list_of_kind { AreOfKind self.new.list }
    {
        let mut near = 0;
        for (dest, metric) in metrics {
            near = self.put(near, *dest, *metric);
        }
        // proof: the type keeps its list in order, and reading the list gives the prover this fact.
        let _ = self.list.len();
    }

    /// Returns the list with these changes, made in one pass, with room for an eighth more.
    pub fn merged(
        &self,
        alloc: Global,
        metrics: &[(Dest, Option<u32>)],
    ) -> Result<Vec<DueSummary>, Memory>
        requires { AreMetricsInOrder metrics.now }
        ensures changed { IfOk result (λ list. IsChangedBy metrics.now self.now.list list.items) }
        ensures in_order { IfOk result (λ list. AreInOrder list.items) }
        ensures of_kind { IfOk result (λ list. AreOfKind list.items) }
    {
        let most = self.list.len().saturating_add(metrics.len());
        let mut list = Vec::with_capacity(alloc, most.saturating_add(most / 8))?;
        let mut rest = self.list.as_slice();
        for (dest, metric) in metrics {
            rest = push_before(rest, dest, &mut list)?;
            push_at(*dest, *metric, &mut list)?;
        }
        list.extend_from_slice(rest)?;
        Ok(list)
    }

    /// Replaces the list.
    pub fn set(&mut self, list: Vec<DueSummary>)
        requires in_order { AreInOrder list.items }
        requires of_kind { AreOfKind list.items }
        ensures area { self.new.area ≡ self.old.area }
        ensures list { self.new.list ≡ list.items }
    {
        self.list = list;
    }
}

impl AreaSummaries {
    // Sets the metric of the destination, or removes the destination if `metric` is `None`. It may
    // be at the index `near`. Returns the index after it.
    fn put(&mut self, near: usize, dest: Dest, metric: Option<u32>) -> usize
        requires { 0 < self.old.room }
        ensures area { self.new.area ≡ self.old.area }
        ensures list { IsPut dest metric self.old.list self.new.list }
        ensures room { self.old.room ≤ self.new.room + 1 }
    {
        let place = self.place(near, &dest);
        let Some(metric) = metric else {
            match place {
                Ok(at) => {
                    self.list.remove(at);
                    return at;
                }
                Err(at) => return at,
            }
        };
        let due = DueSummary::of(dest, metric);
        match place {
            Ok(at) => {
                self.list[at] = due;
                at + 1
            }
            Err(at) => match self.list.insert(at, due) {
                Ok(()) => at + 1,
                Err(_) => unreachable!(),
            },
        }
    }

    // Returns the index of the destination as `Ok`, or the index at which to insert it as `Err`.
    // The index `near` is tried first.
    fn place(&self, near: usize, dest: &Dest) -> Result<usize, usize>
        ensures found { IfOk result (IsSummaryAt self.now.list dest.now) }
        ensures absent { IfErr result (IsGapFor self.now.list dest.now) }
    {
        let list = self.list.as_slice();
        let Some(due) = list.get(near) else {
            return place_by_search(list, dest);
        };
        match due.dest.cmp(dest) {
            Ordering::Equal => Ok(near),
            _ => place_by_search(list, dest),
        }
    }
}

/// Returns the metric at which the destination is due by this list, and the rest of the list after
/// it.
///
/// Callers that look up destinations in ascending order pass the rest of the previous call.
pub fn look_up<'a>(list: &'a [DueSummary], dest: &Dest) -> (Option<u32>, &'a [DueSummary])
    requires in_order { AreInOrder list.now }
    requires of_kind { AreOfKind list.now }
    ensures metric { IsMetricIn list.now dest.now result.0 }
    ensures after { result.1.now ≡ those_after dest.now list.now }
{
    match place_in(list, dest) {
        Ok(at) => (Some(list[at].metric), &list[at + 1..]),
        Err(at) => (None, &list[at..]),
    }
}

// Returns the index of the destination as `Ok`, or the index at which to insert it as `Err`.
// Destinations in order are usually adjacent, so the first summary is tried first.
fn place_in(list: &[DueSummary], dest: &Dest) -> Result<usize, usize>
    requires { AreInOrder list.now }
    ensures found { IfOk result (IsSummaryAt list.now dest.now) }
    ensures absent { IfErr result (IsGapFor list.now dest.now) }
{
    let Some(first) = list.first() else {
        return Err(0);
    };
    match first.dest.cmp(dest) {
        Ordering::Equal => Ok(0),
        Ordering::Greater => Err(0),
        Ordering::Less => place_by_search(list, dest),
    }
}

// Returns the index of the destination as `Ok`, or the index at which to insert it as `Err`.
fn place_by_search(list: &[DueSummary], dest: &Dest) -> Result<usize, usize>
    requires { AreInOrder list.now }
    ensures found { IfOk result (IsSummaryAt list.now dest.now) }
    ensures absent { IfErr result (IsGapFor list.now dest.now) }
{
    list.binary_search_by_key(dest, |due| due.dest)
}

// Appends the summaries before the destination to `list`. Returns the summaries after it.
fn push_before<'a>(
    rest: &'a [DueSummary],
    dest: &Dest,
    list: &mut Vec<DueSummary>,
) -> Result<&'a [DueSummary], Memory>
    requires { AreInOrder rest.now }
    ensures pushed { OnOk result
        (list.new.items ≡ list.old.items ++ those_before dest.now rest.now) }
    ensures left { IfOk result (λ left. left.now ≡ those_after dest.now rest.now) }
{
    let (end, begin) = match place_in(rest, dest) {
        Ok(at) => (at, at + 1),
        Err(at) => (at, at),
    };
    push_all(&rest[..end], list)?;
    Ok(&rest[begin..])
}

// Appends the summaries. Usually there are none, as changes are often adjacent.
fn push_all(summaries: &[DueSummary], list: &mut Vec<DueSummary>) -> Result<(), Memory>
    ensures { OnOk result (list.new.items ≡ list.old.items ++ summaries.now) }
{
    if summaries.is_empty() {
        return Ok(());
    }
    list.extend_from_slice(summaries)?;
    Ok(())
}

// Appends the summary for the destination, if it is due.
fn push_at(dest: Dest, metric: Option<u32>, list: &mut Vec<DueSummary>) -> Result<(), Memory>
    ensures { OnOk result (list.new.items ≡ list.old.items ++ those_at dest metric) }
{
    if let Some(metric) = metric {
        list.push(DueSummary::of(dest, metric))?;
    }
    Ok(())
}
