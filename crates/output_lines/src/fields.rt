//! Single fields of an LSA in words, each appended to a text.
ghost use Rattle.std.specs.Prelude.{◌≡◌, ◌≤◌, ◌++◌, OnOk, length, string_bytes};
ghost use Rattle.hex.specs.Hex.{encode_lower};
ghost use Rattle.output_lines.specs.Fields.{address_line, number_line, hexadecimal_line};
ghost use Rattle.output_lines.specs.Fields.{metric_note as note_of_metric, metric_text, bit_text};

use ospf_types::address::Address;
use ospf_types::lsa::LS_INFINITY;
use ospf_types::memory::Memory;

/// Appends a line with the name and an address, a mask or a Router ID (in host order).
pub(crate) fn put_address(name: &str, address: u32, text: &mut String) -> Result<(), Memory>
    ensures { OnOk result (string_bytes text.new ≡ string_bytes text.old
        ++ address_line name.now address) }
{
    let address = Address(address);
    writeln!(text, "{name}: {address}")?;
    Ok(())
}

/// Appends a line with the name and a number in decimal.
pub(crate) fn put_number(name: &str, number: u32, text: &mut String) -> Result<(), Memory>
    ensures { OnOk result (string_bytes text.new ≡ string_bytes text.old
        ++ number_line name.now number) }
{
    writeln!(text, "{name}: {number}")?;
    Ok(())
}

/// Appends a line with the name and at most four bytes in hexadecimal.
pub(crate) fn put_bytes(name: &str, bytes: &[u8], text: &mut String) -> Result<(), Memory>
    requires { length bytes.now ≤ 4 }
    ensures { OnOk result (string_bytes text.new ≡ string_bytes text.old
        ++ hexadecimal_line name.now bytes.now) }
{
    write!(text, "{name}: ")?;
    put_hexadecimal(bytes, text)?;
    text.push_str("\n")?;
    Ok(())
}

/// Appends at most four bytes in hexadecimal, in lower case.
///
/// # Errors
///
/// Returns `Memory` if memory runs out. The text may then have a part of the digits.
pub fn put_hexadecimal(bytes: &[u8], text: &mut String) -> Result<(), Memory>
    requires { length bytes.now ≤ 4 }
    ensures { OnOk result (string_bytes text.new ≡ string_bytes text.old
        ++ encode_lower bytes.now) }
{
    let mut room = [0; 8];
    let digits = &mut room[..2 * bytes.len()];
    match hex::encode_to_slice(bytes, digits) {
        Ok(()) => {}
        Err(_) => unreachable!(),
    }
    match str::from_utf8(digits) {
        Ok(digits) => Ok(text.push_str(digits)?),
        Err(_) => unreachable!(),
    }
}

/// Appends a comma and the name of the bit, if the byte has the bit.
pub(crate) fn put_bit(byte: u8, bit: u8, name: &str, text: &mut String) -> Result<(), Memory>
    ensures { OnOk result (string_bytes text.new ≡ string_bytes text.old
        ++ bit_text byte bit name.now) }
{
    if byte & bit > 0 {
        write!(text, ", {name}")?;
    }
    Ok(())
}

/// Appends a metric of 24 bits, with a note if it is LSInfinity.
pub(crate) fn put_metric(metric: u32, text: &mut String) -> Result<(), Memory>
    ensures { OnOk result (string_bytes text.new ≡ string_bytes text.old ++ metric_text metric) }
{
    let note = metric_note(metric);
    write!(text, "{metric}{note}")?;
    Ok(())
}

fn metric_note(metric: u32) -> &'static str
    ensures { result.now ≡ note_of_metric metric }
{
    if metric == LS_INFINITY {
        " (LSInfinity)"
    } else {
        ""
    }
}
