//! Recordings that are read, and printed as the same text.

use anyhow::{Result, bail, ensure};
use recording::{Recording, Version, parse, print};

// A recording with each form of line that every version has, and with each LS type.
const TEXT: &str = "abr 1
router 10.0.0.1
area 0.0.0.0 normal
range 0.0.0.0 10.0.0.0/8 hide
range 0.0.0.0 11.0.0.0/8 advertise
area 0.0.0.1 stub 16777214 all
area 255.255.255.255 stub 0 default
interface 0 0.0.0.0 192.0.2.1 0.0.0.0 up
interface 255 0.0.0.1 198.51.100.1 198.51.100.2 down
install 0.0.0.0 000102010a0000010a00000180000001e986002400000001c0000200ffffff000300000a
install 0.0.0.0 00010202c00002020a0000028000000102700020ffffff000a0000010a000002
install 0.0.0.9 000102030a0100000a00000280000001da61001cffff00000000000a
install 0.0.0.0 000102040a0000030a000002800000019c9f001c0000000000000007
install as 00010205cb0071000a000002800000010c690024ffffff00800000140000000000000000
flush 0.0.0.0 1 10.0.0.1 10.0.0.1
purge as 5 203.0.113.0 10.0.0.2
second
lookup 255.255.255.255
";

// A recording with each form of line that only version 3 has.
const BASED: &str = "abr 3
router 10.0.0.1
compat enabled
serial 18446744073709551615
area 0.0.0.0 normal
has interface 0 0.0.0.0 192.0.2.1 0.0.0.0 up
has interface 255 0.0.0.0 198.51.100.1 198.51.100.2 down
has lsa 0.0.0.0 000102010a0000010a00000180000001e986002400000001c0000200ffffff000300000a
has lsa as 00010205cb0071000a000002800000010c690024ffffff00800000140000000000000000
range-set 0.0.0.0 10.0.0.0/8 hide
range-set 0.0.0.9 11.0.0.0/8 advertise
range-drop 0.0.0.0 10.0.0.0/8
roll
";

// Returns true if the recording prints as this text, after the text that is there already.
fn printed(rt: &impl AllocGlobal, recording: &Recording, text: &str) -> Result<bool> {
    let mut out = Vec::from_slice(rt.alloc(), b"> ")?;
    print(rt.alloc(), recording, &mut out)?;
    Ok(out.as_slice().strip_prefix(b"> ".as_slice()) == Some(text.as_bytes()))
}

pub fn run(rt: &impl AllocGlobal) -> Result<()> {
    ensure!(is_text_printed(rt)?, "a text is read and printed otherwise");
    ensure!(is_base_printed(rt)?, "a base is read and printed otherwise");
    Ok(())
}

fn is_text_printed(rt: &impl AllocGlobal) -> Result<bool> {
    let read = parse(rt.alloc(), TEXT.as_bytes())?;
    let same = printed(rt, &read, TEXT)?
        && read.lines().len() == 11
        && read.config().router == 0x0a00_0001;
    let (version, base, lines) = read.into_parts();
    match Recording::of(version, base, lines) {
        Some(again) => Ok(same && printed(rt, &again, TEXT)?),
        None => bail!("what is read makes no recording"),
    }
}

fn is_base_printed(rt: &impl AllocGlobal) -> Result<bool> {
    let read = parse(rt.alloc(), BASED.as_bytes())?;
    let same = printed(rt, &read, BASED)?
        && read.lines().len() == 4
        && read.base().serial == u64::MAX
        && read.base().lsas.len() == 2;
    let (_, base, lines) = read.into_parts();
    Ok(same && Recording::of(Version::Two, base, lines).is_none())
}
