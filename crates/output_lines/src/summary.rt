//! The body of a summary-LSA in words (RFC 2328, A.4.4).
ghost use Rattle.std.specs.Prelude.{◌≡◌, ◌≤◌, ◌++◌, OnOk, length, drop, string_bytes};
ghost use Rattle.std.specs.List.{flat_map};
ghost use Rattle.lsa_codec.specs.Decoding.{summary_body_of, summary_tos_at, records_met};
ghost use Rattle.output_lines.specs.Words.{metric_line, summary_tos_line, body_words};

use crate::fields::{put_address, put_metric};
use byteorder::{BigEndian, ByteOrder};
use ospf_types::memory::Memory;

/// Appends the mask, the metric, and a line for each TOS entry.
pub(crate) fn put_summary(body: &[u8], text: &mut String) -> Result<(), Memory>
    requires { 8 ≤ length body.now }
    ensures { OnOk result (string_bytes text.new ≡ string_bytes text.old
        ++ body_words (summary_body_of body.now)) }
{
    put_address("Network Mask", BigEndian::read_u32(body), text)?;
    put_metric_line(BigEndian::read_u24(&body[5..]), text)?;
    put_entries(&body[8..], text)?;
    Ok(())
}

/// Appends a line for the metric.
pub(crate) fn put_metric_line(metric: u32, text: &mut String) -> Result<(), Memory>
    ensures { OnOk result (string_bytes text.new ≡ string_bytes text.old ++ metric_line metric) }
{
    text.push_str("Metric: ")?;
    put_metric(metric, text)?;
    text.push_str("\n")?;
    Ok(())
}

fn put_entries(entries: &[u8], text: &mut String) -> Result<(), Memory>
    ensures { OnOk result (string_bytes text.new ≡ string_bytes text.old
        ++ flat_map summary_tos_line (records_met summary_tos_at 4 entries.now)) }
{
    let mut rest = entries;
    for _ in 0..entries.len() / 4 {
        put_entry(rest, text)?;
        rest = &rest[4..];
    }
    Ok(())
}

// Appends a line for the first TOS entry.
fn put_entry(bytes: &[u8], text: &mut String) -> Result<(), Memory>
    requires { 4 ≤ length bytes.now }
    ensures { OnOk result (string_bytes text.new ≡ string_bytes text.old
        ++ summary_tos_line (summary_tos_at bytes.now)) }
{
    let tos = bytes[0];
    write!(text, "TOS {tos}: metric ")?;
    put_metric(BigEndian::read_u24(&bytes[1..]), text)?;
    text.push_str("\n")?;
    Ok(())
}
