//! The body of an AS-external-LSA in words (RFC 2328, A.4.5).
ghost use Rattle.std.specs.Prelude.{◌≡◌, ◌≤◌, ◌++◌, OnOk, nat_le, length, drop, slice_index};
ghost use Rattle.std.specs.Prelude.{string_bytes};
ghost use Rattle.std.specs.List.{flat_map};
ghost use Rattle.lsa_codec.specs.Decoding.{external_body_of, external_at, records_met};
ghost use Rattle.output_lines.specs.Words.{external_type_text, external_type_line, first_words};
ghost use Rattle.output_lines.specs.Words.{record_line, record_end, body_words};

use crate::fields::{put_address, put_metric, put_number};
use crate::summary::put_metric_line;
use byteorder::{BigEndian, ByteOrder};
use ospf_types::address::Address;
use ospf_types::memory::Memory;

/// Appends the mask, a line for each field of the record of TOS 0, and a line for each further
/// record.
pub(crate) fn put_external(body: &[u8], text: &mut String) -> Result<(), Memory>
    requires { 16 ≤ length body.now }
    ensures { OnOk result (string_bytes text.new ≡ string_bytes text.old
        ++ body_words (external_body_of body.now)) }
{
    put_address("Network Mask", BigEndian::read_u32(body), text)?;
    put_first(&body[4..], text)?;
    put_records(&body[16..], text)?;
    Ok(())
}

// Appends a line for each field of the record of TOS 0, which is at the start of the bytes.
fn put_first(bytes: &[u8], text: &mut String) -> Result<(), Memory>
    requires { 12 ≤ length bytes.now }
    ensures { OnOk result (string_bytes text.new ≡ string_bytes text.old
        ++ first_words (external_at bytes.now)) }
{
    put_external_type(bytes[0], text)?;
    put_metric_line(BigEndian::read_u24(&bytes[1..]), text)?;
    put_address("Forwarding address", BigEndian::read_u32(&bytes[4..]), text)?;
    put_number("External Route Tag", BigEndian::read_u32(&bytes[8..]), text)?;
    Ok(())
}

// Appends a line for bit E of the byte.
fn put_external_type(byte: u8, text: &mut String) -> Result<(), Memory>
    ensures { OnOk result (string_bytes text.new ≡ string_bytes text.old
        ++ external_type_line (nat_le 128 byte)) }
{
    let kind = external_type(byte);
    writeln!(text, "Bit E: {kind}")?;
    Ok(())
}

// Returns the text of bit E of the byte. The other bits are the TOS.
fn external_type(byte: u8) -> &'static str
    ensures { result.now ≡ external_type_text (nat_le 128 byte) }
{
    if byte >= 0x80 {
        "1 (type 2 external metric)"
    } else {
        "0 (type 1 external metric)"
    }
}

fn put_records(records: &[u8], text: &mut String) -> Result<(), Memory>
    ensures { OnOk result (string_bytes text.new ≡ string_bytes text.old
        ++ flat_map record_line (records_met external_at 12 records.now)) }
{
    let mut rest = records;
    for _ in 0..records.len() / 12 {
        put_record(rest, text)?;
        rest = &rest[12..];
    }
    Ok(())
}

// Appends a line for the record of another TOS at the start of the bytes.
fn put_record(bytes: &[u8], text: &mut String) -> Result<(), Memory>
    requires { 12 ≤ length bytes.now }
    ensures { OnOk result (string_bytes text.new ≡ string_bytes text.old
        ++ record_line (external_at bytes.now)) }
{
    let (kind, tos) = (external_type(bytes[0]), bytes[0] % 128);
    write!(text, "TOS {tos}: bit E {kind}, metric ")?;
    put_metric(BigEndian::read_u24(&bytes[1..]), text)?;
    put_record_end(bytes, text)?;
    Ok(())
}

// Appends the forwarding address and the external route tag of the record.
fn put_record_end(bytes: &[u8], text: &mut String) -> Result<(), Memory>
    requires { 12 ≤ length bytes.now }
    ensures { OnOk result (string_bytes text.new ≡ string_bytes text.old
        ++ record_end (external_at bytes.now)) }
{
    let forwarding = Address(BigEndian::read_u32(&bytes[4..]));
    let tag = BigEndian::read_u32(&bytes[8..]);
    writeln!(
        text,
        ", Forwarding address {forwarding}, External Route Tag {tag}"
    )?;
    Ok(())
}
