//! The header of an LSA in words (RFC 2328, A.4.1).
ghost use Rattle.std.specs.Prelude.{◌≡◌, ◌++◌, OnOk, string_bytes};
ghost use Rattle.output_lines.specs.Fields.{age_note as note_of_age, type_text};
ghost use Rattle.output_lines.specs.Words.{age_line, options_line, type_line, length_line};
ghost use Rattle.output_lines.specs.Words.{instance_words, header_words};

use crate::fields::{put_address, put_bit, put_bytes, put_hexadecimal};
use lsa_codec::Header;
use ospf_types::lsa::{ASBR_SUMMARY_LSA, MAX_AGE, NETWORK_LSA, ROUTER_LSA, SUMMARY_LSA};
use ospf_types::memory::Memory;

/// Appends a line for each field of the header.
pub(crate) fn put_header(header: &Header, text: &mut String) -> Result<(), Memory>
    ensures { OnOk result (string_bytes text.new ≡ string_bytes text.old
        ++ header_words header.now) }
{
    put_age(header.age, text)?;
    put_options(header.options, text)?;
    put_type(header.kind, text)?;
    put_address("Link State ID", header.id, text)?;
    put_address("Advertising Router", header.router, text)?;
    put_instance(header, text)?;
    Ok(())
}

// Appends the age in seconds, with a note if it is MaxAge.
fn put_age(age: u16, text: &mut String) -> Result<(), Memory>
    ensures { OnOk result (string_bytes text.new ≡ string_bytes text.old ++ age_line age) }
{
    let note = age_note(age);
    writeln!(text, "LS age: {age} s{note}")?;
    Ok(())
}

fn age_note(age: u16) -> &'static str
    ensures { result.now ≡ note_of_age age }
{
    if age == MAX_AGE { " (MaxAge)" } else { "" }
}

// A.2: the byte, and the names of the bits that it has.
fn put_options(options: u8, text: &mut String) -> Result<(), Memory>
    ensures { OnOk result (string_bytes text.new ≡ string_bytes text.old ++ options_line options) }
{
    text.push_str("Options: ")?;
    put_hexadecimal(&[options], text)?;
    put_bit(options, 0x20, "DC-bit", text)?;
    put_bit(options, 0x10, "EA-bit", text)?;
    put_bit(options, 0x08, "N/P-bit", text)?;
    put_bit(options, 0x04, "MC-bit", text)?;
    put_bit(options, 0x02, "E-bit", text)?;
    text.push_str("\n")?;
    Ok(())
}

fn put_type(kind: u8, text: &mut String) -> Result<(), Memory>
    ensures { OnOk result (string_bytes text.new ≡ string_bytes text.old ++ type_line kind) }
{
    let name = type_name(kind);
    writeln!(text, "LS type: {kind} ({name})")?;
    Ok(())
}

fn type_name(kind: u8) -> &'static str
    ensures { result.now ≡ type_text kind }
{
    match kind {
        ROUTER_LSA => "router-LSA",
        NETWORK_LSA => "network-LSA",
        SUMMARY_LSA => "summary-LSA for an IP network",
        ASBR_SUMMARY_LSA => "summary-LSA for an AS boundary router",
        _ => "AS-external-LSA",
    }
}

// Appends the LS sequence number, the LS checksum and the length.
fn put_instance(header: &Header, text: &mut String) -> Result<(), Memory>
    ensures { OnOk result (string_bytes text.new ≡ string_bytes text.old
        ++ instance_words header.now) }
{
    put_bytes("LS sequence number", &header.seq.to_be_bytes(), text)?;
    put_bytes("LS checksum", &header.sum.to_be_bytes(), text)?;
    put_length(header.length, text)?;
    Ok(())
}

fn put_length(length: u16, text: &mut String) -> Result<(), Memory>
    ensures { OnOk result (string_bytes text.new ≡ string_bytes text.old ++ length_line length) }
{
    writeln!(text, "Length: {length} bytes")?;
    Ok(())
}
