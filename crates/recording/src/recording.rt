//! A recording as a value.
ghost use Rattle.std.specs.Prelude.{◌≡◌, ◌↔◌, None, All, IfSome, IsNone, IsTrue, is_none, map};
ghost use Rattle.std.specs.List.Sorted.{IsStrictlySortedBy};
ghost use Rattle.std.specs.Ordering.{nat_cmp};
ghost use Rattle.event_state.specs.BaseFaults.{base_fault_of, unfit_of};
ghost use Rattle.event_state.specs.Steps.{standard_limits};
ghost use Rattle.recording.specs.Forms.{IsKind};
ghost use Rattle.recording.specs.Recordings.{IsRecording, IsBaseOrdered, IsConfigOrdered, AreByIds};
ghost use Rattle.recording.specs.Recordings.{AreByNetworks, AreByPlaces, CanSpell};
ghost use Rattle.recording.specs.Recordings.{HasKind, IsEventIn, IsLineIn, recording_of};

use crate::base_lines::compare_places;
use crate::line::Line;
use crate::version::Version;
use event_state::{Base, Event, Limits, entry_fault_in};
use lsa_codec::Checked;
use ospf_types::config::{AreaConfig, Config, Interface, Range};
use ospf_types::fault_in;
use ospf_types::key::Scope;
use ospf_types::lsa::{AS_EXTERNAL_LSA, ROUTER_LSA};
use std::marker::Model;

/// The base of a router, and the events, lookups and rolls after it.
///
/// The base has no fault, and it is in order: areas by Area ID, the ranges of an area by address
/// and length, interfaces by id, and LSAs by scope and key. The LS type in each key is one of 1 to
/// 5.
///
/// In version 1, RFC1583Compatibility is disabled. Only version 3 has a serial other than 0,
/// interfaces and LSAs in the base, range events and rolls.
#[derive(Debug)]
pub struct Recording {
    version: Version,
    base: Base,
    lines: Vec<Line>,
}

// proof: a value is dropped by one call, not part by part at each exit of a function.
impl Drop for Recording {
    fn drop(self) {
        let Recording {
            version: _,
            base: _base,
            lines: _lines,
        } = self;
    }
}

impl Model for Recording {
    ghost use Rattle.recording.specs.Recordings.{RecordingValue, IsRecording};

    ghost Value = { RecordingValue };

    ghost view = { λ r. record { version = r.version; base = r.base; lines = r.lines.items } };

    ghost invariant = { λ r. IsRecording (record { version = r.version; base = r.base; lines = r.lines.items }) };
}

impl Recording {
    /// Creates a recording of this version from a base and the lines after it.
    ///
    /// It allocates no memory.
    ///
    /// Returns `None` if a rule of `Recording` does not hold: the base has a fault or is not in
    /// order, or the LS type in a key is not one of 1 to 5. The same holds if the version is 1 and
    /// RFC1583Compatibility is enabled, or if something needs version 3 and the version is 1 or 2.
    pub fn of(version: Version, base: Base, lines: Vec<Line>) -> Option<Recording>
        ensures some { IfSome result (λ r. r ≡ recording_of version base lines.items) }
        ensures kept { IfSome result IsRecording }
        ensures none { IsNone result → ¬ IsRecording (recording_of version base lines.items) }
    {
        let tested = can_spell(version, &base)
            && has_order(&base)
            && is_sound(&base)
            && has_kinds(lines.as_slice())
            && are_lines_in(version, lines.as_slice());
        if !tested {
            return None;
        }
        Some(Recording {
            version,
            base,
            lines,
        })
    }

    // Creates a recording from parts that the caller has checked.
    pub(crate) fn of_tested(version: Version, base: Base, lines: Vec<Line>) -> Recording
        requires { IsRecording (recording_of version base lines.items) }
        ensures { result ≡ recording_of version base lines.items }
    {
        Recording {
            version,
            base,
            lines,
        }
    }

    /// Returns the version of the format.
    pub fn version(&self) -> Version
        ensures value { result ≡ self.now.version }
        ensures kept { IsRecording self.now }
    {
        self.version
    }

    /// Returns the base: the state before the first line.
    pub fn base(&self) -> &Base
        ensures value { result.now ≡ self.now.base }
        ensures kept { IsRecording self.now }
    {
        &self.base
    }

    /// Returns the configuration of the base.
    pub fn config(&self) -> &Config
        ensures value { result.now ≡ self.now.base.config }
        ensures kept { IsRecording self.now }
    {
        &self.base.config
    }

    /// Returns the lines after the base, in order.
    pub fn lines(&self) -> &[Line]
        ensures value { result.now ≡ self.now.lines }
        ensures kept { IsRecording self.now }
    {
        self.lines.as_slice()
    }

    /// Returns the version, the base, and the lines after it.
    pub fn into_parts(self) -> (Version, Base, Vec<Line>)
        ensures version { result.0 ≡ self.version }
        ensures base { result.1 ≡ self.base }
        ensures lines { result.2.items ≡ self.lines }
        ensures kept { IsRecording self }
    {
        let Recording {
            version,
            base,
            lines,
        } = self;
        (version, base, lines)
    }
}

// Returns true if the version has lines for all of the base.
fn can_spell(version: Version, base: &Base) -> bool
    ensures { IsTrue result ↔ CanSpell version base.now }
{
    match version {
        Version::One => !base.config.compat && base.has_config_only(),
        Version::Two => base.has_config_only(),
        Version::Three => true,
    }
}

// Returns true if the base is in order: areas by Area ID, the ranges of each area by address and
// length, interfaces by id, and LSAs by scope and key.
fn has_order(base: &Base) -> bool
    ensures { IsTrue result ↔ IsBaseOrdered base.now }
{
    areas_have_order(base.config.areas.as_slice())
        && interfaces_ascend(base.interfaces.as_slice())
        && lsas_ascend(base.lsas.as_slice())
}

// Returns true if the base, which is in order, has no fault.
fn is_sound(base: &Base) -> bool
    requires { IsBaseOrdered base.now }
    ensures { IsTrue result ↔ (base_fault_of standard_limits base.now ≡ None) }
{
    fault_in(&base.config).is_none() && is_fit(base)
}

fn is_fit(base: &Base) -> bool
    ensures { result ≡ is_none (unfit_of standard_limits base.now) }
{
    entry_fault_in(base, Limits::STANDARD).is_none()
}

fn interfaces_ascend(interfaces: &[(u8, Interface)]) -> bool
    ensures { IsTrue result ↔ AreByIds interfaces.now }
{
    interfaces.is_sorted_by(|a, b| a.0 < b.0)
}

fn lsas_ascend(lsas: &[(Scope, Checked)]) -> bool
    ensures { IsTrue result ↔ AreByPlaces lsas.now }
{
    lsas.is_sorted_by(|a, b| compare_places(a.0, a.1.key(), b.0, b.1.key()).is_lt())
}

fn areas_have_order(areas: &[AreaConfig]) -> bool
    ensures { IsTrue result ↔ IsConfigOrdered areas.now }
{
    areas_ascend(areas) && all_ranges_ascend(areas)
}

fn areas_ascend(areas: &[AreaConfig]) -> bool
    ensures { IsTrue result ↔ IsStrictlySortedBy nat_cmp (map (λ a. a.id) areas.now) }
{
    areas.is_sorted_by(|a, b| a.id < b.id)
}

fn all_ranges_ascend(areas: &[AreaConfig]) -> bool
    ensures { IsTrue result ↔ All (λ a. AreByNetworks a.ranges) areas.now }
{
    areas
        .iter()
        .all(|area| ranges_ascend(area.ranges.as_slice()))
}

fn ranges_ascend(ranges: &[Range]) -> bool
    ensures { IsTrue result ↔ AreByNetworks ranges.now }
{
    ranges.is_sorted_by(|a, b| a.prefix.compare(b.prefix).is_lt())
}

// Returns true if the LS type in each key is one of 1 to 5.
fn has_kinds(lines: &[Line]) -> bool
    ensures { IsTrue result ↔ All HasKind lines.now }
{
    lines.iter().all(has_kind)
}

fn has_kind(line: &Line) -> bool
    ensures { IsTrue result ↔ HasKind line.now }
{
    match line {
        Line::Event(Event::Flush { key, .. }) => is_kind(key.kind),
        Line::Event(Event::Purge { key, .. }) => is_kind(key.kind),
        _ => true,
    }
}

// Returns true if the version has each of the lines.
fn are_lines_in(version: Version, lines: &[Line]) -> bool
    ensures { IsTrue result ↔ All (IsLineIn version) lines.now }
{
    lines.iter().all(|line| is_line_in(version, line))
}

fn is_line_in(version: Version, line: &Line) -> bool
    ensures { IsTrue result ↔ IsLineIn version line.now }
{
    match line {
        Line::Event(event) => is_event_in(version, event),
        Line::Lookup(_) => true,
        Line::Roll => version == Version::Three,
    }
}

fn is_event_in(version: Version, event: &Event) -> bool
    ensures { IsTrue result ↔ IsEventIn version event.now }
{
    match event {
        Event::RangeSet { .. } => version == Version::Three,
        Event::RangeDrop { .. } => version == Version::Three,
        _ => true,
    }
}

fn is_kind(kind: u8) -> bool
    ensures { IsTrue result ↔ IsKind kind }
{
    (ROUTER_LSA..=AS_EXTERNAL_LSA).contains(&kind)
}
