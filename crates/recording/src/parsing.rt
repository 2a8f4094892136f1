//! A recording read from its text.
ghost use Rattle.std.specs.Prelude.{◌≡◌, ◌≢◌, ◌≤◌, ◌+◌, [], ◌∷◌, IsNone, IfSome, OnOk, IfOk, IfErr};
ghost use Rattle.recording.specs.Recordings.{RecordingValue, IsReadAs, IsText};
ghost use Rattle.recording.specs.Faults.{IsFaultOf, IsNoVersion};
ghost use Rattle.recording.specs.Left.{IfMore, HasReadAt, HasRouterAt, HasCompatAt, HasSettingAt};
ghost use Rattle.recording.specs.Left.{HasHeaderAt, HasBaseAt, EndsHeaderAt, EndsBaseAt, IsCounted};
ghost use Rattle.recording.specs.declared.version.Version.TheVariants as version_value;
ghost use Rattle.recording.specs.Forms.{VersionLine, line_text};

use crate::base_lines::BaseLines;
use crate::body::add_line;
use crate::fault::{Fault, LineFault};
use crate::form::{LineForm, read_form};
use crate::header::{RecordingHeader, Setting};
use crate::reader::Lines;
use crate::recording::Recording;
use crate::version::Version;
use crate::words::is;
use event_state::Base;
use ospf_types::fault_in;
use ospf_types::memory::Memory;
use std::alloc::Global;

/// Reads the text of a recording.
///
/// # Errors
///
/// Returns the number of the first line with a fault, and the first fault of that line. If memory
/// runs out, that is 30 Memory, at the line that was being read.
pub fn parse(alloc: Global, bytes: &[u8]) -> Result<Recording, LineFault>
    ensures text { IfOk result (IsText bytes.now) }
    ensures fault { IfErr result (IsFaultOf bytes.now) }
    // A text of a recording is read as that recording, unless memory runs out.
    ensures only { (r : RecordingValue) → IsText bytes.now r → IsReadAs r result }
{
    parse_text(alloc, bytes)
}

fn parse_text(alloc: Global, text: &[u8]) -> Result<Recording, LineFault>
    ensures text { IfOk result (IsText text.now) }
    ensures fault { IfErr result (IsFaultOf text.now) }
{
    let (version, lines) = read_version(text)?;
    let (router, lines) = read_router(version, lines)?;
    let (setting, lines) = read_setting(version, router, lines)?;
    let (base, lines) = read_areas(alloc, version, setting, lines)?;
    if let Some(fault) = fault_in(&base.config) {
        return Err(LineFault {
            line: lines.taken,
            fault: Fault::Config(fault),
        });
    }
    let (base, lines) = read_base(alloc, version, base, lines)?;
    read_lines(alloc, version, base, lines)
}

// Reads the version in the first line, and returns the lines after it too.
fn read_version(text: &[u8]) -> Result<(Version, Lines<'_>), LineFault>
    ensures read { IfOk result (λ found. HasReadAt found.0 found.1 (VersionLine found.0 ∷ [])) }
    ensures text { IfOk result (λ found. found.1.text.now ≡ text.now) }
    ensures fault { IfErr result (IsFaultOf text.now) }
{
    let lines = Lines::of(text);
    let Some((line, after)) = lines.next() else {
        return Err(lines.fault(Fault::Truncated));
    };
    match version_in(line) {
        Some(version) => Ok((version, after)),
        None => Err(lines.fault(Fault::Version)),
    }
}

// Returns the version whose first line this is.
fn version_in(line: &[u8]) -> Option<Version>
    ensures some { IfSome result (λ version. line.now ≡ line_text (VersionLine version)) }
    ensures none { IsNone result → IsNoVersion line.now }
{
    if is(line, b"abr 1") {
        Some(Version::One)
    } else if is(line, b"abr 2") {
        Some(Version::Two)
    } else if is(line, b"abr 3") {
        Some(Version::Three)
    } else {
        None
    }
}

// Reads the Router ID in the second line, and returns the lines after it too.
fn read_router(version: Version, lines: Lines<'_>) -> Result<(u32, Lines<'_>), LineFault>
    requires { HasReadAt version lines (VersionLine version ∷ []) }
    ensures read { IfOk result (λ found. HasRouterAt version found.1 found.0) }
    ensures text { IfOk result (λ found. found.1.text.now ≡ lines.entry.text.now) }
    ensures fault { IfErr result (IsFaultOf lines.entry.text.now) }
{
    let Some((line, after)) = lines.next() else {
        return Err(lines.fault(Fault::Truncated));
    };
    let Some(form) = read_form(version, line) else {
        return Err(lines.fault(Fault::Line));
    };
    match form {
        LineForm::Router(router) => Ok((router, after)),
        _ => Err(lines.fault(Fault::Order)),
    }
}

// Reads the values that the first lines set, and returns the lines after them too.
fn read_setting(
    version: Version,
    router: u32,
    lines: Lines<'_>,
) -> Result<(Setting, Lines<'_>), LineFault>
    requires { HasRouterAt version lines router }
    ensures read { IfOk result (λ found. HasSettingAt version found.1 found.0) }
    ensures text { IfOk result (λ found. found.1.text.now ≡ lines.entry.text.now) }
    ensures fault { IfErr result (IsFaultOf lines.entry.text.now) }
{
    let setting = Setting {
        router,
        compat: false,
        serial: 0,
    };
    match version {
        Version::One => Ok((setting, lines)),
        Version::Two => read_compat(version, setting, lines),
        Version::Three => {
            let (setting, lines) = read_compat(version, setting, lines)?;
            read_serial(setting, lines)
        }
    }
}

// Reads the third line: from version 2 on it says if RFC1583Compatibility is enabled.
fn read_compat(
    version: Version,
    setting: Setting,
    lines: Lines<'_>,
) -> Result<(Setting, Lines<'_>), LineFault>
    requires read { HasRouterAt version lines setting.router }
    requires later { version ≢ version_value.One }
    ensures read { IfOk result (λ found. HasCompatAt version found.1 found.0) }
    ensures serial { IfOk result (λ found. found.0.serial ≡ setting.serial) }
    ensures text { IfOk result (λ found. found.1.text.now ≡ lines.entry.text.now) }
    ensures fault { IfErr result (IsFaultOf lines.entry.text.now) }
{
    let Some((line, after)) = lines.next() else {
        return Err(lines.fault(Fault::Truncated));
    };
    let Some(form) = read_form(version, line) else {
        return Err(lines.fault(Fault::Line));
    };
    match form {
        LineForm::Compat(compat) => Ok((Setting { compat, ..setting }, after)),
        _ => Err(lines.fault(Fault::Order)),
    }
}

// Reads the fourth line: in version 3 it says the serial.
fn read_serial(setting: Setting, lines: Lines<'_>) -> Result<(Setting, Lines<'_>), LineFault>
    requires { HasCompatAt version_value.Three lines setting }
    ensures read { IfOk result (λ found. HasSettingAt version_value.Three found.1 found.0) }
    ensures text { IfOk result (λ found. found.1.text.now ≡ lines.entry.text.now) }
    ensures fault { IfErr result (IsFaultOf lines.entry.text.now) }
{
    let Some((line, after)) = lines.next() else {
        return Err(lines.fault(Fault::Truncated));
    };
    let Some(form) = read_form(Version::Three, line) else {
        return Err(lines.fault(Fault::Line));
    };
    match form {
        LineForm::Serial(serial) => Ok((Setting { serial, ..setting }, after)),
        _ => Err(lines.fault(Fault::Order)),
    }
}

// Reads the areas and ranges of the header. Returns the base so far, and the lines after the
// header.
fn read_areas(
    alloc: Global,
    version: Version,
    setting: Setting,
    lines: Lines<'_>,
) -> Result<(Base, Lines<'_>), LineFault>
    requires { HasSettingAt version lines setting }
    ensures read { IfOk result (λ found. HasHeaderAt version found.1 found.0) }
    ensures end { IfOk result (λ found. EndsHeaderAt version found.1) }
    ensures text { IfOk result (λ found. found.1.text.now ≡ lines.entry.text.now) }
    ensures fault { IfErr result (IsFaultOf lines.entry.text.now) }
{
    let mut header = RecordingHeader::new(alloc, setting);
    let mut left = lines;
    while let Some(after) = read_header_line(alloc, version, left, &mut header)? {
        left = after;
    }
    match header.into_base(alloc) {
        Ok(base) => Ok((base, left)),
        Err(Memory) => Err(LineFault {
            line: left.taken,
            fault: Fault::Memory,
        }),
    }
}

// Reads one more line of the header, and returns the lines after it, or `None` if the header ends.
fn read_header_line<'a>(
    alloc: Global,
    version: Version,
    lines: Lines<'a>,
    header: &mut RecordingHeader,
) -> Result<Option<Lines<'a>>, LineFault>
    requires { HasHeaderAt version lines header.old }
    ensures read { IfMore result (λ after. HasHeaderAt version after header.new) }
    ensures text { IfMore result (λ after. after.text.now ≡ lines.entry.text.now) }
    ensures shorter { IfMore result (λ after. lines.entry.start + 1 ≤ after.start) }
    ensures end { IfOk result (λ next. IsNone next → EndsHeaderAt version lines.entry) }
    ensures same { IfOk result (λ next. IsNone next → header.new ≡ header.old) }
    ensures fault { IfErr result (IsFaultOf lines.entry.text.now) }
{
    let Some((line, after)) = lines.next() else {
        lines.end()?;
        return Ok(None);
    };
    let Some(form) = read_form(version, line) else {
        return Ok(None);
    };
    match header.add(alloc, &form) {
        Ok(true) => Ok(Some(after)),
        Ok(false) => Ok(None),
        Err(fault) => Err(lines.fault(fault)),
    }
}

// Reads the `has` lines. Returns the base with their interfaces and LSAs, and the lines after them.
fn read_base(
    alloc: Global,
    version: Version,
    base: Base,
    lines: Lines<'_>,
) -> Result<(Base, Lines<'_>), LineFault>
    requires read { HasBaseAt version lines base }
    requires none { base.lsas ≡ [] }
    ensures read { IfOk result (λ found. HasBaseAt version found.1 found.0) }
    ensures end { IfOk result (λ found. EndsBaseAt version found.1) }
    ensures text { IfOk result (λ found. found.1.text.now ≡ lines.entry.text.now) }
    ensures fault { IfErr result (IsFaultOf lines.entry.text.now) }
{
    let mut held = BaseLines {
        base,
        row: 0,
        room: Vec::new(alloc),
    };
    let mut left = lines;
    while let Some(after) = read_base_line(alloc, version, left, &mut held)? {
        left = after;
    }
    Ok((held.base, left))
}

// Reads one more line of the base, and returns the lines after it, or `None` if the base ends.
fn read_base_line<'a>(
    alloc: Global,
    version: Version,
    lines: Lines<'a>,
    held: &mut BaseLines,
) -> Result<Option<Lines<'a>>, LineFault>
    requires read { HasBaseAt version lines held.old.base }
    requires counted { IsCounted held.old }
    ensures read { IfMore result (λ after. HasBaseAt version after held.new.base) }
    ensures counted { OnOk result (IsCounted held.new) }
    ensures text { IfMore result (λ after. after.text.now ≡ lines.entry.text.now) }
    ensures shorter { IfMore result (λ after. lines.entry.start + 1 ≤ after.start) }
    ensures end { IfOk result (λ next. IsNone next → EndsBaseAt version lines.entry) }
    ensures same { IfOk result (λ next. IsNone next → held.new.base ≡ held.old.base) }
    ensures fault { IfErr result (IsFaultOf lines.entry.text.now) }
{
    let Some((line, after)) = lines.next() else {
        return Ok(None);
    };
    let Some(form) = read_form(version, line) else {
        return Ok(None);
    };
    match held.add(alloc, &form) {
        Ok(true) => Ok(Some(after)),
        Ok(false) => Ok(None),
        Err(fault) => Err(lines.fault(fault)),
    }
}

// Reads the lines after the base, and returns the recording.
fn read_lines(
    alloc: Global,
    version: Version,
    base: Base,
    lines: Lines<'_>,
) -> Result<Recording, LineFault>
    requires read { HasBaseAt version lines base }
    requires end { EndsBaseAt version lines }
    ensures text { IfOk result (IsText lines.entry.text.now) }
    ensures fault { IfErr result (IsFaultOf lines.entry.text.now) }
{
    let mut room = Vec::new(alloc);
    let mut found = Vec::new(alloc);
    let mut left = lines;
    while let Some((line, after)) = left.next() {
        if let Err(fault) = add_line(alloc, version, line, &mut room, &mut found) {
            return Err(left.fault(fault));
        }
        left = after;
    }
    left.end()?;
    Ok(Recording::of_tested(version, base, found))
}
