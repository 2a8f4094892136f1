//! The text of a recording.
ghost use Rattle.std.specs.Prelude.{◌≡◌, ◌++◌, All, OnOk, OnErr, Some, cond, codes, map, take};
ghost use Rattle.std.specs.Prelude.{vec_len};
ghost use Rattle.std.specs.List.{join_with_byte};
ghost use Rattle.lsa_codec.specs.Spelling.{spelling};
ghost use Rattle.recording.specs.Forms.{RouterLine, SerialLine, AreaLine, RangeLine, HasLsaLine};
ghost use Rattle.recording.specs.Forms.{BodyLine, InstallLine, FlushLine, PurgeLine, RangeDropLine};
ghost use Rattle.recording.specs.Forms.{LookupLine, IsForm, IsKind, scope_text, stub_words};
ghost use Rattle.recording.specs.Forms.{key_words};
ghost use Rattle.recording.specs.Recordings.{GainsBody, GainsLine, GainsLines, IsText, IsLsaOfBytes};
ghost use Rattle.recording.specs.Recordings.{AreLsasOfBytes, HasKind, HasWholeLsa, text_of, first_forms};
ghost use Rattle.recording.specs.Recordings.{first_of_one, first_of_two, first_of_three};
ghost use Rattle.recording.specs.Recordings.{header_forms, front_forms, area_forms, interface_form};
ghost use Rattle.recording.specs.Recordings.{lsa_form, event_form, form_of, interface_line};
ghost use Rattle.recording.specs.Recordings.{range_set_line};
ghost use Rattle.recording.specs.declared.line.Line.TheVariants as line;

use crate::line::Line;
use crate::recording::Recording;
use crate::version::Version;
use event_state::{Base, Event};
use lsa_codec::Checked;
use ospf_types::address::Address;
use ospf_types::config::{AreaConfig, Interface, Range, Stub};
use ospf_types::key::{Key, Scope};
use ospf_types::memory::Memory;
use ospf_types::prefix::Prefix;
use std::alloc::Global;
use std::fmt;

/// Appends the text of the recording. A recording has one text.
///
/// # Errors
///
/// Returns `Memory` if memory runs out. `out` is then unchanged.
pub fn print(alloc: Global, recording: &Recording, out: &mut Vec<u8>) -> Result<(), Memory>
    ensures ok { OnOk result (out.new.items ≡ out.old.items ++ text_of recording.now) }
    ensures err { OnErr result (out.new.items ≡ out.old.items) }
    // `parse` reads this text as the same recording.
    ensures text { OnOk result (IsText (text_of recording.now) recording.now) }
{
    let start = out.len();
    let appended = append_lines(alloc, recording, out);
    if appended.is_err() {
        out.truncate(start);
    }
    appended
}

// Appends all lines. If memory runs out, the lines before that one stay.
fn append_lines(alloc: Global, recording: &Recording, out: &mut Vec<u8>) -> Result<(), Memory>
    ensures ok { OnOk result (out.new.items ≡ out.old.items ++ text_of recording.now) }
    ensures kept { take (vec_len out.old) out.new.items ≡ out.old.items }
    ensures text { OnOk result (IsText (text_of recording.now) recording.now) }
{
    let mut text = String::new(alloc);
    append_preamble(alloc, recording.version(), recording.base(), &mut text)?;
    out.extend_from_slice(text.as_bytes())?;
    for line in recording.lines() {
        text.clear();
        append_line(alloc, line, &mut text)?;
        out.extend_from_slice(text.as_bytes())?;
    }
    Ok(())
}

/// Appends the preamble of a recording: the header, and a `has` line for each interface and LSA of
/// the base.
///
/// # Errors
///
/// Returns `Memory` if memory runs out. Some lines may have been appended then.
pub fn append_preamble(
    alloc: Global,
    version: Version,
    base: &Base,
    out: &mut String,
) -> Result<(), Memory>
    ensures text { OnOk result (GainsLines out.old out.new (front_forms version base.now)) }
    ensures forms { OnOk result (All IsForm (front_forms version base.now)) }
    ensures lsas { OnOk result (AreLsasOfBytes base.now.lsas) }
{
    append_header(version, base, out)?;
    append_has_interfaces(base.interfaces.as_slice(), out)?;
    append_has_lsas(alloc, base.lsas.as_slice(), out)?;
    Ok(())
}

// Appends the header: the first lines, and the areas with their ranges.
fn append_header(version: Version, base: &Base, out: &mut String) -> Result<(), Memory>
    ensures text { OnOk result (GainsLines out.old out.new (header_forms version base.now)) }
    ensures forms { OnOk result (All IsForm (header_forms version base.now)) }
{
    append_first(version, base, out)?;
    for area in base.config.areas.as_slice() {
        append_area(area, out)?;
    }
    Ok(())
}

fn append_has_interfaces(interfaces: &[(u8, Interface)], out: &mut String) -> Result<(), Memory>
    ensures text { OnOk result (GainsLines out.old out.new (map interface_form interfaces.now)) }
    ensures forms { OnOk result (All IsForm (map interface_form interfaces.now)) }
{
    for listed in interfaces {
        append_has_interface(*listed, out)?;
    }
    Ok(())
}

fn append_has_interface(listed: (u8, Interface), out: &mut String) -> Result<(), Memory>
    ensures text { OnOk result (GainsLine out.old out.new (interface_form listed)) }
    ensures form { OnOk result (IsForm (interface_form listed)) }
{
    let (id, interface) = listed;
    let (area, address, peer) = (
        Address(interface.area),
        Address(interface.address),
        Address(interface.peer),
    );
    let state = state_word(interface.up);
    write!(out, "has interface {id} {area} {address} {peer} {state}\n")?;
    Ok(())
}

fn append_has_lsas(alloc: Global, lsas: &[(Scope, Checked)], out: &mut String) -> Result<(), Memory>
    ensures text { OnOk result (GainsLines out.old out.new (map lsa_form lsas.now)) }
    ensures forms { OnOk result (All IsForm (map lsa_form lsas.now)) }
    ensures lsas { OnOk result (AreLsasOfBytes lsas.now) }
{
    for (scope, lsa) in lsas {
        append_has_lsa(alloc, *scope, lsa, out)?;
    }
    Ok(())
}

fn append_has_lsa(
    alloc: Global,
    scope: Scope,
    lsa: &Checked,
    out: &mut String,
) -> Result<(), Memory>
    ensures text { OnOk result (GainsLine out.old out.new (HasLsaLine scope (spelling lsa.now))) }
    ensures form { OnOk result (IsForm (HasLsaLine scope (spelling lsa.now))) }
    ensures lsa { OnOk result (IsLsaOfBytes lsa.now) }
{
    let mut bytes = Vec::new(alloc);
    lsa_codec::write(lsa, &mut bytes)?;
    let digits = hex::encode(alloc, bytes.as_slice())?;
    write!(out, "has lsa {} {digits}\n", ScopeField(scope))?;
    Ok(())
}

// Appends the first lines of the version.
fn append_first(version: Version, base: &Base, out: &mut String) -> Result<(), Memory>
    ensures text { OnOk result (GainsLines out.old out.new (first_forms version base.now)) }
    ensures forms { OnOk result (All IsForm (first_forms version base.now)) }
{
    let (router, compat) = (base.config.router, base.config.compat);
    match version {
        Version::One => append_first_of_one(router, out),
        Version::Two => append_first_of_two(router, compat, out),
        Version::Three => append_first_of_three(router, compat, base.serial, out),
    }
}

fn append_first_of_one(router: u32, out: &mut String) -> Result<(), Memory>
    ensures text { OnOk result (GainsLines out.old out.new (first_of_one router)) }
    ensures form { OnOk result (IsForm (RouterLine router)) }
{
    write!(out, "abr 1\nrouter {}\n", Address(router))?;
    Ok(())
}

fn append_first_of_two(router: u32, compat: bool, out: &mut String) -> Result<(), Memory>
    ensures text { OnOk result (GainsLines out.old out.new (first_of_two router compat)) }
    ensures form { OnOk result (IsForm (RouterLine router)) }
{
    let state = enabled_word(compat);
    write!(out, "abr 2\nrouter {}\ncompat {state}\n", Address(router))?;
    Ok(())
}

fn append_first_of_three(
    router: u32,
    compat: bool,
    serial: u64,
    out: &mut String,
) -> Result<(), Memory>
    ensures text { OnOk result (GainsLines out.old out.new (first_of_three router compat serial)) }
    ensures router { OnOk result (IsForm (RouterLine router)) }
    ensures serial { OnOk result (IsForm (SerialLine serial)) }
{
    let (router, state) = (Address(router), enabled_word(compat));
    write!(
        out,
        "abr 3\nrouter {router}\ncompat {state}\nserial {serial}\n"
    )?;
    Ok(())
}

fn enabled_word(compat: bool) -> &'static str
    ensures { result.now ≡ cond compat (codes "enabled") (codes "disabled") }
{
    if compat { "enabled" } else { "disabled" }
}

// Appends the line of an area, and the lines of its ranges.
fn append_area(area: &AreaConfig, out: &mut String) -> Result<(), Memory>
    ensures text { OnOk result (GainsLines out.old out.new (area_forms area.now)) }
    ensures forms { OnOk result (All IsForm (area_forms area.now)) }
{
    append_area_line(area.id, area.stub, out)?;
    for range in area.ranges.as_slice() {
        append_range(area.id, *range, out)?;
    }
    Ok(())
}

fn append_area_line(id: u32, stub: Option<Stub>, out: &mut String) -> Result<(), Memory>
    ensures text { OnOk result (GainsLine out.old out.new (AreaLine id stub)) }
    ensures form { OnOk result (IsForm (AreaLine id stub)) }
{
    write!(out, "area {} {}\n", Address(id), StubField(stub))?;
    Ok(())
}

fn append_range(area: u32, range: Range, out: &mut String) -> Result<(), Memory>
    ensures text { OnOk result (GainsLine out.old out.new (RangeLine area range)) }
    ensures form { OnOk result (IsForm (RangeLine area range)) }
{
    let (prefix, shown) = (range.prefix, advertise_word(range.advertise));
    write!(out, "range {} {prefix} {shown}\n", Address(area))?;
    Ok(())
}

fn advertise_word(advertise: bool) -> &'static str
    ensures { result.now ≡ cond advertise (codes "advertise") (codes "hide") }
{
    if advertise { "advertise" } else { "hide" }
}

/// Appends the line of an event.
///
/// # Errors
///
/// Returns `Memory` if memory runs out. A part of the line may have been appended then.
pub fn append_event(alloc: Global, event: &Event, out: &mut String) -> Result<(), Memory>
    ensures text { OnOk result (GainsLine out.old out.new (event_form event.now)) }
    ensures form { OnOk result (HasKind (line.Event event.now) → IsForm (event_form event.now)) }
    ensures lsa { OnOk result (HasWholeLsa (line.Event event.now)) }
{
    match event {
        Event::Install { scope, lsa } => append_install(alloc, *scope, lsa, out),
        Event::Flush { scope, key } => append_flush(*scope, *key, out),
        Event::Purge { scope, key } => append_purge(*scope, *key, out),
        Event::Interface {
            id,
            area,
            address,
            peer,
            up,
        } => {
            let interface = Interface {
                area: *area,
                address: *address,
                peer: *peer,
                up: *up,
            };
            append_interface(*id, interface, out)
        }
        Event::RangeSet {
            area,
            prefix,
            advertise,
        } => append_range_set(*area, *prefix, *advertise, out),
        Event::RangeDrop { area, prefix } => append_range_drop(*area, *prefix, out),
        Event::Second => Ok(out.push_str("second\n")?),
    }
}

// Appends a line after the base.
pub(crate) fn append_line(alloc: Global, line: &Line, out: &mut String) -> Result<(), Memory>
    ensures text { OnOk result (GainsLine out.old out.new (form_of line.now)) }
    ensures form { OnOk result (HasKind line.now → IsForm (form_of line.now)) }
    ensures lsa { OnOk result (HasWholeLsa line.now) }
{
    match line {
        Line::Event(event) => append_event(alloc, event, out),
        Line::Lookup(address) => append_lookup(*address, out),
        Line::Roll => Ok(out.push_str("roll\n")?),
    }
}

fn append_install(
    alloc: Global,
    scope: Scope,
    lsa: &Checked,
    out: &mut String,
) -> Result<(), Memory>
    ensures text { OnOk result (GainsBody out.old out.new (InstallLine scope (spelling lsa.now))) }
    ensures form { OnOk result (IsForm (BodyLine (InstallLine scope (spelling lsa.now)))) }
    ensures lsa { OnOk result (IsLsaOfBytes lsa.now) }
{
    let mut bytes = Vec::new(alloc);
    lsa_codec::write(lsa, &mut bytes)?;
    let digits = hex::encode(alloc, bytes.as_slice())?;
    write!(out, "install {} {digits}\n", ScopeField(scope))?;
    Ok(())
}

fn append_flush(scope: Scope, key: Key, out: &mut String) -> Result<(), Memory>
    ensures text { OnOk result (GainsBody out.old out.new (FlushLine scope key)) }
    ensures form { OnOk result (IsKind key.kind → IsForm (BodyLine (FlushLine scope key))) }
{
    write!(out, "flush {} {}\n", ScopeField(scope), KeyField(key))?;
    Ok(())
}

fn append_purge(scope: Scope, key: Key, out: &mut String) -> Result<(), Memory>
    ensures text { OnOk result (GainsBody out.old out.new (PurgeLine scope key)) }
    ensures form { OnOk result (IsKind key.kind → IsForm (BodyLine (PurgeLine scope key))) }
{
    write!(out, "purge {} {}\n", ScopeField(scope), KeyField(key))?;
    Ok(())
}

fn append_interface(id: u8, interface: Interface, out: &mut String) -> Result<(), Memory>
    ensures text { OnOk result (GainsBody out.old out.new (interface_line id interface)) }
    ensures form { OnOk result (IsForm (BodyLine (interface_line id interface))) }
{
    let (area, address) = (Address(interface.area), Address(interface.address));
    let peer = Address(interface.peer);
    let state = state_word(interface.up);
    write!(out, "interface {id} {area} {address} {peer} {state}\n")?;
    Ok(())
}

fn state_word(up: bool) -> &'static str
    ensures { result.now ≡ cond up (codes "up") (codes "down") }
{
    if up { "up" } else { "down" }
}

fn append_range_set(
    area: u32,
    prefix: Prefix,
    advertise: bool,
    out: &mut String,
) -> Result<(), Memory>
    ensures text { OnOk result (GainsBody out.old out.new (range_set_line area prefix advertise)) }
    ensures form { OnOk result (IsForm (BodyLine (range_set_line area prefix advertise))) }
{
    let shown = advertise_word(advertise);
    write!(out, "range-set {} {prefix} {shown}\n", Address(area))?;
    Ok(())
}

fn append_range_drop(area: u32, prefix: Prefix, out: &mut String) -> Result<(), Memory>
    ensures text { OnOk result (GainsBody out.old out.new (RangeDropLine area prefix)) }
    ensures form { OnOk result (IsForm (BodyLine (RangeDropLine area prefix))) }
{
    write!(out, "range-drop {} {prefix}\n", Address(area))?;
    Ok(())
}

fn append_lookup(address: u32, out: &mut String) -> Result<(), Memory>
    ensures text { OnOk result (GainsBody out.old out.new (LookupLine address)) }
    ensures form { OnOk result (IsForm (BodyLine (LookupLine address))) }
{
    write!(out, "lookup {}\n", Address(address))?;
    Ok(())
}

// An area's type: `normal`, or `stub` with its default cost and the summaries advertised into it.
#[derive(Clone, Copy)]
struct StubField(Option<Stub>);

impl fmt::Display for StubField {
    ghost output = { λ stub. Some (join_with_byte 32 (stub_words stub.0)) };

    fn fmt<W: fmt::Write>(&self, f: &mut fmt::Formatter<W>) -> fmt::Result {
        match self.0 {
            None => f.write_str("normal"),
            Some(stub) => {
                let (cost, sent) = (stub.cost, if stub.summaries { "all" } else { "default" });
                write!(f, "stub {cost} {sent}")
            }
        }
    }
}

// A scope: the Area ID, or `as`.
#[derive(Clone, Copy)]
struct ScopeField(Scope);

impl fmt::Display for ScopeField {
    ghost output = { λ scope. Some (scope_text scope.0) };

    fn fmt<W: fmt::Write>(&self, f: &mut fmt::Formatter<W>) -> fmt::Result {
        match self.0 {
            Scope::Area(id) => Address(id).fmt(f),
            Scope::As => f.write_str("as"),
        }
    }
}

// A key: LS type, Link State ID and Advertising Router.
#[derive(Clone, Copy)]
struct KeyField(Key);

impl fmt::Display for KeyField {
    ghost output = { λ key. Some (join_with_byte 32 (key_words key.0)) };

    fn fmt<W: fmt::Write>(&self, f: &mut fmt::Formatter<W>) -> fmt::Result {
        let (kind, id, router) = (self.0.kind, Address(self.0.id), Address(self.0.router));
        write!(f, "{kind} {id} {router}")
    }
}
