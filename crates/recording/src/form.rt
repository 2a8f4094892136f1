//! The forms that a line can have.
ghost use Rattle.std.specs.Prelude.{◌≡◌, ◌↔◌, ◌∷◌, Ok, codes, IsNone, IsTrue, IfSome};
ghost use Rattle.hex.specs.Hex.{decode_of};
ghost use Rattle.recording.specs.Forms.{Form, IsOfVersion, Says};
ghost use Rattle.recording.specs.Reading.{said_by, bytes_of, cut, AreRead, HasDigits};
ghost use Rattle.recording.specs.Reading.{IsInterfaceRead, IsKeyRead, IsLsaRead, IsRangeRead};

use crate::version::Version;
use crate::words::{Words, is};
use ospf_types::config::{Interface, Range, Stub};
use ospf_types::key::{Key, Scope};
use ospf_types::prefix::Prefix;

/// A line that has been read.
#[derive(Clone, Copy)]
pub(crate) enum LineForm<'a> {
    Version(Version),
    Router(u32),
    /// True if RFC1583Compatibility is enabled.
    Compat(bool),
    Serial(u64),
    Area { id: u32, stub: Option<Stub> },
    Range { area: u32, range: Range },
    HasInterface { id: u8, interface: Interface },
    /// An LSA of the base, whose bytes are still hexadecimal digits.
    HasLsa { scope: Scope, digits: &'a [u8] },
    Interface { id: u8, interface: Interface },
    /// An LSA to install, whose bytes are still hexadecimal digits.
    Install { scope: Scope, digits: &'a [u8] },
    Flush { scope: Scope, key: Key },
    Purge { scope: Scope, key: Key },
    RangeSet { area: u32, range: Range },
    RangeDrop { area: u32, prefix: Prefix },
    Second,
    Lookup(u32),
    Roll,
}

/// Reads a line, without its line feed, of a recording of this version. Returns `None` if the line
/// has no form of the version.
pub(crate) fn read_form(version: Version, line: &[u8]) -> Option<LineForm<'_>>
    ensures says { IfSome result (λ form. Says version line.now (said_by form)) }
    ensures digits { IfSome result HasDigits }
    ensures none { IsNone result → (form : Form) → ¬ Says version line.now form }
{
    let Some(form) = read_any_form(line) else {
        return None;
    };
    if is_of_version(version, &form) {
        Some(form)
    } else {
        None
    }
}

// Reads a line of a recording of any version.
fn read_any_form(line: &[u8]) -> Option<LineForm<'_>>
    ensures { AreRead (cut line.now) result }
{
    let mut words = Words::of(line);
    let verb = words.next()?;
    read_behind(verb, &mut words)
}

// Returns true if the version has the form.
//
// Each version has its own first line. From version 2 on there is a `compat` line. Only version 3
// has a serial, the lines of the base, range events and rolls.
fn is_of_version(version: Version, form: &LineForm<'_>) -> bool
    ensures { IsTrue result ↔ IsOfVersion version (said_by form.now) }
{
    match form {
        LineForm::Version(own) => *own == version,
        LineForm::Compat(_) => version != Version::One,
        LineForm::Serial(_) => version == Version::Three,
        LineForm::HasInterface { .. } => version == Version::Three,
        LineForm::HasLsa { .. } => version == Version::Three,
        LineForm::RangeSet { .. } => version == Version::Three,
        LineForm::RangeDrop { .. } => version == Version::Three,
        LineForm::Roll => version == Version::Three,
        _ => true,
    }
}

// Reads the words after the verb. The most frequent verb, `install`, is compared first.
fn read_behind<'a>(verb: &[u8], words: &mut Words<'a>) -> Option<LineForm<'a>>
    ensures { AreRead (verb.now ∷ words.old) result }
{
    if is(verb, b"install") {
        install(words)
    } else if is(verb, b"has") {
        has(words)
    } else if is(verb, b"second") {
        second(words)
    } else if is(verb, b"lookup") {
        lookup(words)
    } else if is(verb, b"interface") {
        interface(words)
    } else if is(verb, b"flush") {
        flush(words)
    } else if is(verb, b"purge") {
        purge(words)
    } else if is(verb, b"range-set") {
        range_set(words)
    } else if is(verb, b"range-drop") {
        range_drop(words)
    } else if is(verb, b"roll") {
        roll(words)
    } else if is(verb, b"abr") {
        version(words)
    } else if is(verb, b"router") {
        router(words)
    } else if is(verb, b"compat") {
        compat(words)
    } else if is(verb, b"serial") {
        serial(words)
    } else if is(verb, b"area") {
        area(words)
    } else if is(verb, b"range") {
        range(words)
    } else {
        None
    }
}

fn version<'a>(words: &mut Words<'a>) -> Option<LineForm<'a>>
    ensures { AreRead (codes "abr" ∷ words.old) result }
{
    let version = words.version()?;
    words.end()?;
    Some(LineForm::Version(version))
}

fn router<'a>(words: &mut Words<'a>) -> Option<LineForm<'a>>
    ensures { AreRead (codes "router" ∷ words.old) result }
{
    let router = words.address()?;
    words.end()?;
    Some(LineForm::Router(router))
}

fn compat<'a>(words: &mut Words<'a>) -> Option<LineForm<'a>>
    ensures { AreRead (codes "compat" ∷ words.old) result }
{
    let is_enabled = words.choice(b"enabled", b"disabled")?;
    words.end()?;
    Some(LineForm::Compat(is_enabled))
}

fn serial<'a>(words: &mut Words<'a>) -> Option<LineForm<'a>>
    ensures { AreRead (codes "serial" ∷ words.old) result }
{
    let serial = words.serial()?;
    words.end()?;
    Some(LineForm::Serial(serial))
}

fn area<'a>(words: &mut Words<'a>) -> Option<LineForm<'a>>
    ensures { AreRead (codes "area" ∷ words.old) result }
{
    let id = words.address()?;
    let stub = words.stub()?;
    words.end()?;
    Some(LineForm::Area { id, stub })
}

fn range<'a>(words: &mut Words<'a>) -> Option<LineForm<'a>>
    ensures { AreRead (codes "range" ∷ words.old) result }
{
    let fields = range_fields(words)?;
    Some(LineForm::Range {
        area: fields.0,
        range: fields.1,
    })
}

fn interface<'a>(words: &mut Words<'a>) -> Option<LineForm<'a>>
    ensures { AreRead (codes "interface" ∷ words.old) result }
{
    let fields = interface_fields(words)?;
    Some(LineForm::Interface {
        id: fields.0,
        interface: fields.1,
    })
}

fn install<'a>(words: &mut Words<'a>) -> Option<LineForm<'a>>
    ensures { AreRead (codes "install" ∷ words.old) result }
{
    let fields = lsa_fields(words)?;
    Some(LineForm::Install {
        scope: fields.0,
        digits: fields.1,
    })
}

// Reads an interface or an LSA of the base.
fn has<'a>(words: &mut Words<'a>) -> Option<LineForm<'a>>
    ensures { AreRead (codes "has" ∷ words.old) result }
{
    let is_interface = words.choice(b"interface", b"lsa")?;
    if is_interface {
        has_interface(words)
    } else {
        has_lsa(words)
    }
}

fn has_interface<'a>(words: &mut Words<'a>) -> Option<LineForm<'a>>
    ensures { AreRead (codes "has" ∷ codes "interface" ∷ words.old) result }
{
    let fields = interface_fields(words)?;
    Some(LineForm::HasInterface {
        id: fields.0,
        interface: fields.1,
    })
}

fn has_lsa<'a>(words: &mut Words<'a>) -> Option<LineForm<'a>>
    ensures { AreRead (codes "has" ∷ codes "lsa" ∷ words.old) result }
{
    let fields = lsa_fields(words)?;
    Some(LineForm::HasLsa {
        scope: fields.0,
        digits: fields.1,
    })
}

fn flush<'a>(words: &mut Words<'a>) -> Option<LineForm<'a>>
    ensures { AreRead (codes "flush" ∷ words.old) result }
{
    let (scope, key) = key_fields(words)?;
    Some(LineForm::Flush { scope, key })
}

fn purge<'a>(words: &mut Words<'a>) -> Option<LineForm<'a>>
    ensures { AreRead (codes "purge" ∷ words.old) result }
{
    let (scope, key) = key_fields(words)?;
    Some(LineForm::Purge { scope, key })
}

fn range_set<'a>(words: &mut Words<'a>) -> Option<LineForm<'a>>
    ensures { AreRead (codes "range-set" ∷ words.old) result }
{
    let fields = range_fields(words)?;
    Some(LineForm::RangeSet {
        area: fields.0,
        range: fields.1,
    })
}

fn range_drop<'a>(words: &mut Words<'a>) -> Option<LineForm<'a>>
    ensures { AreRead (codes "range-drop" ∷ words.old) result }
{
    let area = words.address()?;
    let prefix = words.prefix()?;
    words.end()?;
    Some(LineForm::RangeDrop { area, prefix })
}

fn second<'a>(words: &mut Words<'a>) -> Option<LineForm<'a>>
    ensures { AreRead (codes "second" ∷ words.old) result }
{
    words.end()?;
    Some(LineForm::Second)
}

fn lookup<'a>(words: &mut Words<'a>) -> Option<LineForm<'a>>
    ensures { AreRead (codes "lookup" ∷ words.old) result }
{
    let address = words.address()?;
    words.end()?;
    Some(LineForm::Lookup(address))
}

fn roll<'a>(words: &mut Words<'a>) -> Option<LineForm<'a>>
    ensures { AreRead (codes "roll" ∷ words.old) result }
{
    words.end()?;
    Some(LineForm::Roll)
}

// Reads a range with its area, and checks that no word is left.
fn range_fields(words: &mut Words<'_>) -> Option<(u32, Range)>
    ensures { IsRangeRead words.old result }
{
    let area = words.address()?;
    let prefix = words.prefix()?;
    let advertise = words.choice(b"advertise", b"hide")?;
    words.end()?;
    Some((area, Range { prefix, advertise }))
}

// Reads an interface with its id, and checks that no word is left.
fn interface_fields(words: &mut Words<'_>) -> Option<(u8, Interface)>
    ensures { IsInterfaceRead words.old result }
{
    let pair = words.interface()?;
    words.end()?;
    Some(pair)
}

// Reads a scope and the digits of an LSA, and checks that no word is left.
fn lsa_fields<'a>(words: &mut Words<'a>) -> Option<(Scope, &'a [u8])>
    ensures says { IsLsaRead words.old result }
    ensures digits { IfSome result (λ p. decode_of p.1.now ≡ Ok (bytes_of p.1.now)) }
{
    let scope = words.scope()?;
    let digits = words.last_digits()?;
    Some((scope, digits))
}

// Reads a scope and a key, and checks that no word is left.
fn key_fields(words: &mut Words<'_>) -> Option<(Scope, Key)>
    ensures { IsKeyRead words.old result }
{
    let scope = words.scope()?;
    let key = words.key()?;
    words.end()?;
    Some((scope, key))
}
