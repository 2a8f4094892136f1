//! The text of packets, updates and their faults.

use crate::updates::samples::{HELLO, UPDATE};
use anyhow::Result;
use packets::{PacketKind, UpdateLsas, read_packet, update_lsas};
use std::alloc::Global;
use std::fmt::Write;

/// Returns the text of the packet type with this number: its name and number, or `none`.
pub(crate) fn kind_text(alloc: Global, number: u8) -> Result<String> {
    let Some(kind) = PacketKind::of_number(number) else {
        return Ok(format!(in alloc; "{number}: none")?);
    };
    Ok(format!(in alloc; "{number}: {kind:?} {}", kind.number())?)
}

/// Returns the text of the packet, or of its fault.
pub(crate) fn packet_text(alloc: Global, bytes: &[u8]) -> Result<String> {
    match read_packet(bytes) {
        Ok(packet) => Ok(format!(in alloc; "{packet:?}")?),
        Err(fault) => Ok(format!(in alloc; "{fault}")?),
    }
}

/// Returns the text of `HELLO` with a byte changed.
pub(crate) fn changed_text(alloc: Global, place: usize, byte: u8) -> Result<String> {
    let mut bytes = HELLO;
    if let Some(at) = bytes.get_mut(place) {
        *at = byte;
    }
    let text = packet_text(alloc, &bytes)?;
    Ok(format!(in alloc; "{byte} at {place}: {text}")?)
}

/// Returns the text of the LSAs of a Link State Update: their lengths and LS types, or the fault.
pub(crate) fn update_text(alloc: Global, body: &[u8]) -> Result<String> {
    match update_lsas(body) {
        Ok(lsas) => lsas_text(alloc, lsas),
        Err(fault) => Ok(format!(in alloc; "{fault}")?),
    }
}

fn lsas_text(alloc: Global, lsas: UpdateLsas<'_>) -> Result<String> {
    let mut text = format!(in alloc; "LSAs:")?;
    for lsa in lsas {
        match lsa {
            Ok(lsa) => write!(text, " {} bytes {:?};", lsa.len(), lsa.get(3))?,
            Err(fault) => write!(text, " {fault} {fault:?}")?,
        }
    }
    Ok(text)
}

/// Returns the text of the LSAs of `UPDATE` with a byte changed.
pub(crate) fn changed_update_text(alloc: Global, place: usize, byte: u8) -> Result<String> {
    let mut bytes = UPDATE;
    if let Some(at) = bytes.get_mut(place) {
        *at = byte;
    }
    let text = update_text(alloc, &bytes[24..])?;
    Ok(format!(in alloc; "{byte} at {place}: {text}")?)
}
