//! The longest match of a forwarding address, and the path there (RFC 2328, 16.4).
ghost use Rattle.std.specs.Prelude.{◌≡◌, ◌↔◌, ◌<◌, Some, IfOk, IfSome, IsSome, IsTrue};
ghost use Rattle.std.specs.Prelude.{option_copied};
ghost use Rattle.inter.specs.Inters.{most_cost};
ghost use Rattle.external.specs.Classes.{class_number};
ghost use Rattle.external.specs.Forwards.{HaveOneCost, IsForwardOf, IsMatchOf, IsWayBy, Matches};
ghost use Rattle.external.specs.Forwards.{class_at, hops_toward, internal_entry};

use crate::class::PathClass;
use crate::inputs::ExternalInputs;
use crate::preferred::class_of;
use ospf_types::entry::Entry;
use ospf_types::hop::{NextHop, Path};
use ospf_types::key::Dest;
use ospf_types::memory::Memory;
use ospf_types::prefix::Prefix;
use route_choice::{Same, are_same};
use std::alloc::Global;
use std::marker::Model;

/// A path to a forwarding address: its class, its cost, and its next hops, each toward the address.
pub struct ForwardingPath {
    class: PathClass,
    cost: u32,
    hops: Vec<NextHop>,
}

// proof: a value is dropped by one call, not part by part at each exit of a function.
impl Drop for ForwardingPath {
    fn drop(self) {
        let ForwardingPath {
            class: _,
            cost: _,
            hops: _hops,
        } = self;
    }
}

impl Model for ForwardingPath {
    ghost use Rattle.std.specs.Prelude.{◌<◌};
    ghost use Rattle.inter.specs.Inters.{most_cost};
    ghost use Rattle.external.specs.Classes.{class_number};
    ghost use Rattle.external.specs.Forwards.{WayValue};

    ghost Value = { WayValue };

    ghost view = { λ w. record { class = class_number w.class; cost = w.cost; hops = w.hops.items } };

    ghost invariant = { λ w. w.cost < most_cost };
}

impl ForwardingPath {
    /// Returns the class of the path.
    pub fn class(&self) -> PathClass
        ensures { class_number result ≡ self.now.class }
    {
        self.class
    }

    /// Returns the cost, the sum of metrics along the path.
    pub fn cost(&self) -> u32
        ensures value { result ≡ self.now.cost }
        ensures bounded { self.now.cost < most_cost }
    {
        self.cost
    }

    /// Returns the next hops, in the order of the entry's paths.
    pub fn hops(&self) -> &[NextHop]
        ensures { result.now ≡ self.now.hops }
    {
        self.hops.as_slice()
    }

    // Returns true if class and cost are equal.
    fn has_numbers_of(&self, other: &ForwardingPath) -> bool
        ensures { IsTrue result ↔ HaveOneCost self.now other.now }
    {
        self.class == other.class && self.cost == other.cost
    }
}

impl Same for ForwardingPath {
    fn is_same(&self, other: &ForwardingPath) -> bool {
        self.has_numbers_of(other) && self.hops == other.hops
    }
}

/// The longest match of a forwarding address, and the path there, if there is one.
pub struct ForwardingMatch {
    matched: Option<Prefix>,
    way: Option<ForwardingPath>,
}

// proof: a value is dropped by one call, not part by part at each exit of a function.
impl Drop for ForwardingMatch {
    fn drop(self) {
        let ForwardingMatch {
            matched: _matched,
            way: _way,
        } = self;
    }
}

impl Model for ForwardingMatch {
    ghost use Rattle.external.specs.Forwards.{ForwardValue};

    ghost Value = { ForwardValue };

    ghost view = { λ f. record { matched = f.matched; way = f.way } };
}

impl ForwardingMatch {
    /// Returns the longest match of the address, or `None` if there is no match.
    pub fn matched(&self) -> Option<Prefix>
        ensures { result ≡ self.now.matched }
    {
        self.matched
    }

    /// Returns the path to the address, or `None` if there is no match or the match is a discard.
    pub fn way(&self) -> Option<&ForwardingPath>
        ensures { option_copied result ≡ self.now.way }
    {
        self.way.as_ref()
    }
}

impl Same for ForwardingMatch {
    fn is_same(&self, other: &ForwardingMatch) -> bool {
        self.matched == other.matched && are_same(self.way.as_ref(), other.way.as_ref())
    }
}

/// Looks up the address (in host order) among the networks with an intra-area or inter-area entry
/// and the active ranges.
///
/// An active range counts by its prefix, also if the table has an external route for that prefix.
pub(crate) fn look_up(
    alloc: Global,
    inputs: &ExternalInputs<'_>,
    address: u32,
) -> Result<ForwardingMatch, Memory>
    ensures { IfOk result (IsForwardOf inputs.now address) }
{
    // 16.4 (3): the match of the forwarding address must be an intra-area or inter-area path.
    match longest_match(inputs, address) {
        Some(network) => Ok(ForwardingMatch {
            matched: Some(network),
            way: way_by(alloc, inputs, network, address)?,
        }),
        None => Ok(ForwardingMatch {
            matched: None,
            way: None,
        }),
    }
}

/// Returns true if the network has an intra-area or inter-area entry.
pub(crate) fn has_internal(inputs: &ExternalInputs<'_>, network: Prefix) -> bool
    ensures { IsTrue result ↔ IsSome (internal_entry inputs.now network) }
{
    internal(inputs, network).is_some()
}

// Returns the intra-area entry of the network, or else its inter-area entry.
fn internal<'a>(inputs: &ExternalInputs<'a>, network: Prefix) -> Option<&'a Entry>
    ensures value { option_copied result ≡ internal_entry inputs.now network }
    ensures bounded { IfSome result (λ e. e.now.cost < most_cost) }
{
    match inputs.intra.get(network) {
        Some(entry) => Some(entry),
        None => inputs.inter.get(Dest::Net(network)),
    }
}

// Returns the longest match of the address, or `None` if there is no match.
fn longest_match(inputs: &ExternalInputs<'_>, address: u32) -> Option<Prefix>
    ensures { IsMatchOf inputs.now address result }
{
    for length in (0..33).rev() {
        let network = Prefix::around(address, length);
        if is_match(inputs, network) {
            return Some(network);
        }
    }
    None
}

// Returns true if the network has an internal entry, or is the prefix of an active range.
fn is_match(inputs: &ExternalInputs<'_>, network: Prefix) -> bool
    ensures { IsTrue result ↔ Matches inputs.now network }
{
    has_internal(inputs, network) || inputs.active.contains(network)
}

// Returns the path to the address by the network's entry, or `None` if the network has no entry.
fn way_by(
    alloc: Global,
    inputs: &ExternalInputs<'_>,
    network: Prefix,
    address: u32,
) -> Result<Option<ForwardingPath>, Memory>
    ensures { IfOk result (IsWayBy inputs.now address (Some network)) }
{
    match internal(inputs, network) {
        Some(entry) => Ok(Some(ForwardingPath {
            class: class_at(inputs, network, entry.area),
            cost: entry.cost,
            hops: hops_toward(alloc, address, entry.paths.as_slice())?,
        })),
        None => Ok(None),
    }
}

// Returns the class of the network's entry. `area` is the area of the entry.
fn class_at(inputs: &ExternalInputs<'_>, network: Prefix, area: Option<u32>) -> PathClass
    ensures { class_number result ≡ class_at inputs.now network area }
{
    match inputs.intra.get(network) {
        Some(_) => class_of(inputs.compat, area),
        None => class_of(inputs.compat, None),
    }
}

// Returns the next hops of the paths, each toward the address.
fn hops_toward(alloc: Global, address: u32, paths: &[Path]) -> Result<Vec<NextHop>, Memory>
    ensures { IfOk result (λ hops. hops.items ≡ hops_toward address paths.now) }
{
    let mut hops = Vec::with_capacity(alloc, paths.len())?;
    for path in paths {
        hops.push(path.hop.toward(address))?;
    }
    Ok(hops)
}
