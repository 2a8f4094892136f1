//! The body of a router-LSA in words (RFC 2328, A.4.2).
ghost use Rattle.std.specs.Prelude.{◌≡◌, ◌≤◌, ◌+◌, ◌*◌, ◌++◌, OnOk, length, map, string_bytes};
ghost use Rattle.std.specs.List.{flat_map};
ghost use Rattle.lsa_codec.specs.Faults.{raw_entries, raw_link, link_size as size_of_link, walk};
ghost use Rattle.lsa_codec.specs.Decoding.{kind_of_number, link_of, tos_of, router_body_of};
ghost use Rattle.lsa_codec.specs.Left.{AreThere};
ghost use Rattle.output_lines.specs.Bytes.{IsRouterBody, link_tos_at};
ghost use Rattle.output_lines.specs.Fields.{link_kind_text};
ghost use Rattle.output_lines.specs.Words.{bits_line, link_end, link_line, link_tos_line};
ghost use Rattle.output_lines.specs.Words.{link_words, links_words, counted_links, body_words};

use crate::fields::{put_bit, put_hexadecimal, put_number};
use byteorder::{BigEndian, ByteOrder};
use ospf_types::address::Address;
use ospf_types::memory::Memory;

/// Appends the bits V, E and B, the number of links, and the links.
pub(crate) fn put_router(body: &[u8], text: &mut String) -> Result<(), Memory>
    requires { IsRouterBody body.now }
    ensures { OnOk result (string_bytes text.new ≡ string_bytes text.old
        ++ body_words (router_body_of body.now)) }
{
    put_bits(body[0], text)?;
    let count = BigEndian::read_u16(&body[2..]);
    put_links(u32::from(count), &body[4..], text)?;
    Ok(())
}

fn put_bits(bits: u8, text: &mut String) -> Result<(), Memory>
    ensures { OnOk result (string_bytes text.new ≡ string_bytes text.old ++ bits_line bits) }
{
    text.push_str("Router bits: ")?;
    put_hexadecimal(&[bits], text)?;
    put_bit(bits, 0x04, "bit V", text)?;
    put_bit(bits, 0x02, "bit E", text)?;
    put_bit(bits, 0x01, "bit B", text)?;
    text.push_str("\n")?;
    Ok(())
}

fn put_links(count: u32, links: &[u8], text: &mut String) -> Result<(), Memory>
    requires { AreThere count links.now }
    ensures { OnOk result (string_bytes text.new ≡ string_bytes text.old
        ++ counted_links (map link_of (walk count links.now).met)) }
{
    put_number("Links", count, text)?;
    let mut rest = links;
    for place in 0..count {
        put_link(place + 1, rest, text)?;
        rest = &rest[link_size(rest)..];
    }
    Ok(())
}

// Returns the number of bytes of the first link, with its TOS entries.
fn link_size(bytes: &[u8]) -> usize
    requires { 12 ≤ length bytes.now }
    ensures { result ≡ size_of_link bytes.now }
{
    12 + 4 * usize::from(bytes[9])
}

// Appends a line for the first link, and a line for each of its TOS entries.
fn put_link(number: u32, bytes: &[u8], text: &mut String) -> Result<(), Memory>
    requires { size_of_link bytes.now ≤ length bytes.now }
    ensures { OnOk result (string_bytes text.new ≡ string_bytes text.old
        ++ link_words number (link_of (raw_link bytes.now))) }
{
    put_link_line(number, bytes, text)?;
    put_entries(number, bytes[9], &bytes[12..], text)?;
    Ok(())
}

fn put_link_line(number: u32, bytes: &[u8], text: &mut String) -> Result<(), Memory>
    requires { 12 ≤ length bytes.now }
    ensures { OnOk result (string_bytes text.new ≡ string_bytes text.old
        ++ link_line number (link_of (raw_link bytes.now))) }
{
    let kind = link_kind(bytes[8]);
    write!(text, "Link {number}: {kind}")?;
    put_link_end(bytes, text)?;
    Ok(())
}

// Appends the Link ID, the Link Data and the metric of the first link.
fn put_link_end(bytes: &[u8], text: &mut String) -> Result<(), Memory>
    requires { 12 ≤ length bytes.now }
    ensures { OnOk result (string_bytes text.new ≡ string_bytes text.old
        ++ link_end (link_of (raw_link bytes.now))) }
{
    let id = Address(BigEndian::read_u32(bytes));
    let data = Address(BigEndian::read_u32(&bytes[4..]));
    let metric = BigEndian::read_u16(&bytes[10..]);
    writeln!(text, ", Link ID {id}, Link Data {data}, metric {metric}")?;
    Ok(())
}

fn link_kind(number: u8) -> &'static str
    ensures { result.now ≡ link_kind_text (kind_of_number number) }
{
    match number {
        1 => "point-to-point connection to another router",
        2 => "connection to a transit network",
        3 => "connection to a stub network",
        _ => "virtual link",
    }
}

// Appends a line for each TOS entry of the link with this number.
fn put_entries(number: u32, count: u8, entries: &[u8], text: &mut String) -> Result<(), Memory>
    requires { 4 * count ≤ length entries.now }
    ensures { OnOk result (string_bytes text.new ≡ string_bytes text.old
        ++ flat_map (link_tos_line number) (map tos_of (raw_entries count entries.now))) }
{
    let mut rest = entries;
    for _ in 0..count {
        put_entry(number, rest, text)?;
        rest = &rest[4..];
    }
    Ok(())
}

// Appends a line for the first TOS entry.
fn put_entry(number: u32, bytes: &[u8], text: &mut String) -> Result<(), Memory>
    requires { 4 ≤ length bytes.now }
    ensures { OnOk result (string_bytes text.new ≡ string_bytes text.old
        ++ link_tos_line number (link_tos_at bytes.now)) }
{
    let tos = bytes[0];
    let metric = BigEndian::read_u16(&bytes[2..]);
    writeln!(text, "Link {number}, TOS {tos}: metric {metric}")?;
    Ok(())
}
