//! The configuration and the serial, read from the lines of a header one by one.
ghost use Rattle.std.specs.Prelude.{◌≡◌, ◌++◌, ◌∷◌, true, [], Some, OnOk, IfOk, IfErr};
ghost use Rattle.recording.specs.Forms.{AreaLine, RangeLine};
ghost use Rattle.recording.specs.Places.{is_of_header, last_of, is_past_area, is_past_range};
ghost use Rattle.recording.specs.Places.{is_next_range};
ghost use Rattle.recording.specs.Progress.{AddsRange, AddsToHeader, IsNextIn, IsRangeRefusal};
ghost use Rattle.recording.specs.Progress.{IsRefusal, headed_base};
ghost use Rattle.recording.specs.Reading.{said_by};

use crate::fault::Fault;
use crate::form::LineForm;
use event_state::Base;
use ospf_types::config::{AreaConfig, Areas, Config, Range, Ranges, Stub};
use ospf_types::listed::Listed;
use ospf_types::memory::Memory;
use std::alloc::Global;
use std::cmp::Ordering;
use std::marker::Model;

/// The values that the first lines set.
#[derive(Clone, Copy)]
pub(crate) struct Setting {
    pub(crate) router: u32,
    pub(crate) compat: bool,
    pub(crate) serial: u64,
}

/// A base that is being read: its serial, and its configuration so far.
pub(crate) struct RecordingHeader {
    setting: Setting,
    // The areas before the last one. Lines can add ranges only to the last area.
    areas: Areas,
    last: Option<AreaConfig>,
}

// proof: a value is dropped by one call, not part by part at each exit of a function.
impl Drop for RecordingHeader {
    fn drop(self) {
        let RecordingHeader {
            setting: _setting,
            areas: _areas,
            last: _last,
        } = self;
    }
}

impl Model for RecordingHeader {
    ghost use Rattle.std.specs.Prelude.{◌≡◌, ◌++◌, None, []};
    ghost use Rattle.std.specs.Option.{option_to_list};
    ghost use Rattle.event_state.specs.declared.base.Base.{Base};
    ghost use Rattle.recording.specs.Progress.{headed_base};

    ghost Value = { Base };

    ghost view = { λ h. headed_base h.setting (h.areas ++ option_to_list h.last) };

    ghost invariant = { λ h. h.last ≡ None → h.areas ≡ [] };
}

impl RecordingHeader {
    pub(crate) fn new(alloc: Global, setting: Setting) -> RecordingHeader
        ensures { result ≡ headed_base setting [] }
    {
        RecordingHeader {
            setting,
            areas: Areas::new(alloc),
            last: None,
        }
    }

    /// Adds the line to the configuration. Returns false if it is not an area or range line.
    pub(crate) fn add(&mut self, alloc: Global, form: &LineForm<'_>) -> Result<bool, Fault>
        ensures header { IfOk result (λ added. added ≡ is_of_header (said_by form.now)) }
        ensures next { IfOk result (λ added. added ≡ true → IsNextIn self.old (said_by form.now)) }
        ensures new { OnOk result (AddsToHeader self.old self.new (said_by form.now)) }
        ensures fault { IfErr result (IsRefusal self.old.config.areas (said_by form.now)) }
        ensures refused { IfErr result (λ _. is_of_header (said_by form.now) ≡ true) }
    {
        match form {
            LineForm::Area { id, stub } => self.add_area(alloc, *id, *stub),
            LineForm::Range { area, range } => self.add_range(*area, *range),
            _ => Ok(false),
        }
    }

    fn add_area(&mut self, alloc: Global, id: u32, stub: Option<Stub>) -> Result<bool, Fault>
        ensures header { IfOk result (λ added. added ≡ true) }
        ensures next { OnOk result (IsNextIn self.old (AreaLine id stub)) }
        ensures new { OnOk result (AddsToHeader self.old self.new (AreaLine id stub)) }
        ensures fault { IfErr result (IsRefusal self.old.config.areas (AreaLine id stub)) }
    {
        if !is_past_area(&self.last, id) {
            return Err(Fault::Order);
        }
        let area = AreaConfig {
            id,
            stub,
            ranges: Ranges::new(alloc),
        };
        if let Some(last) = self.last.replace(area) {
            add_to(&mut self.areas, last)?;
        }
        Ok(true)
    }

    fn add_range(&mut self, area: u32, range: Range) -> Result<bool, Fault>
        ensures header { IfOk result (λ added. added ≡ true) }
        ensures next { OnOk result (IsNextIn self.old (RangeLine area range)) }
        ensures new { OnOk result (AddsToHeader self.old self.new (RangeLine area range)) }
        ensures fault { IfErr result (IsRefusal self.old.config.areas (RangeLine area range)) }
    {
        match &mut self.last {
            None => Err(Fault::Order),
            Some(last) => add_range_to(last, area, &range),
        }
    }

    /// Returns the base with the whole configuration and the serial, but no interfaces or LSAs yet.
    pub(crate) fn into_base(self, alloc: Global) -> Result<Base, Memory>
        ensures { IfOk result (λ base. base ≡ self) }
    {
        let RecordingHeader {
            setting,
            areas,
            last,
        } = self;
        let mut areas = areas;
        if let Some(last) = last {
            areas.push(last)?;
        }
        let config = Config {
            router: setting.router,
            compat: setting.compat,
            areas,
        };
        Ok(Base {
            config,
            serial: setting.serial,
            interfaces: Listed::new(alloc),
            lsas: Listed::new(alloc),
        })
    }
}

/// Appends an item.
pub(crate) fn add_to<T: Drop>(items: &mut Listed<T>, item: T) -> Result<(), Fault>
    ensures added { OnOk result (items.new ≡ items.old ++ item ∷ []) }
    ensures fault { IfErr result (λ f. f ≡ Fault.Memory) }
{
    match items.push(item) {
        Ok(()) => Ok(()),
        Err(Memory) => Err(Fault::Memory),
    }
}

// Appends a range to the ranges of the last area.
fn add_range_to(last: &mut AreaConfig, area: u32, range: &Range) -> Result<bool, Fault>
    ensures header { IfOk result (λ added. added ≡ true) }
    ensures next { OnOk result (is_next_range (Some last.old) area range.now ≡ true) }
    ensures new { OnOk result (AddsRange last.old last.new range.now) }
    ensures fault { IfErr result (IsRangeRefusal last.old area range.now) }
{
    if !is_next_range(last, area, *range) {
        return Err(Fault::Order);
    }
    add_to(&mut last.ranges, *range)?;
    Ok(true)
}

// Returns true if the Area ID is greater than the Area ID of the last area.
fn is_past_area(last: &Option<AreaConfig>, id: u32) -> bool
    ensures { result ≡ is_past_area last.now id }
{
    match last {
        None => true,
        Some(last) => last.id < id,
    }
}

// Returns true if the range may be the next range of the last area.
fn is_next_range(last: &AreaConfig, area: u32, range: Range) -> bool
    ensures { result ≡ is_next_range (Some last.now) area range }
{
    last.id == area && is_past_range(last.ranges.as_slice(), range)
}

fn is_past_range(ranges: &[Range], range: Range) -> bool
    ensures { result ≡ is_past_range (last_of ranges.now) range }
{
    match ranges.last() {
        None => true,
        Some(last) => last.prefix.compare(range.prefix) == Ordering::Less,
    }
}
