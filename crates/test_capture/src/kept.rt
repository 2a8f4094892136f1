//! Records a capture of many LSAs, whose packets are hours apart. The preamble is known at its end.

use crate::failures::samples::{CAPTURE, FIRST, FRONT, HEADER};
use anyhow::{Result, ensure};
use capture_recording::{Capturing, Options, Preamble, record_capture};
use lsa_codec::sum_of;
use std::alloc::Global;
use std::hash::RandomState;

/// The number of packets, each with another instance of an LSA.
const MANY: u32 = 3_000;

/// The number of packets with the same time. The first of them has an LSA at MaxAge.
const TOGETHER: u32 = 500;

/// The time from these packets to the next ones, in seconds.
const APART: u32 = 10_800;

/// The time of the first packet, in seconds.
const START: u32 = 1_700_000_000;

/// The sequence number of the first instance.
const INSTANCE: u32 = 0x8000_0001;

/// A number of bytes of lines that are written in several pieces.
const SEVERAL: usize = 262_144;

const OPTIONS: Options = Options {
    keeps_all: false,
    without_seconds: false,
};

/// Compares the lines that are written at the end with those after a given preamble.
///
/// # Errors
///
/// Returns an error if the lines differ, if the capture is not recorded, or if memory runs out.
pub fn run(rt: &HostRuntime) -> Result<()> {
    let (alloc, hashing) = (rt.alloc(), RandomState::new(rt)?);
    let capture = capture_of_many(alloc)?;
    let given = recorded(alloc, hashing, Preamble::Given(FRONT), &capture)?;
    let told = recorded(alloc, hashing, Preamble::Router(0x0a00_0001), &capture)?;
    let lines = given.get(FRONT.len()..).unwrap_or(&[]);
    ensure!(lines.len() > SEVERAL, "the lines are few");
    ensure!(told.ends_with(lines), "the lines differ");
    Ok(())
}

fn capture_of_many(alloc: Global) -> Result<Vec<u8>> {
    let mut bytes = Vec::from_slice(alloc, &CAPTURE[..HEADER])?;
    for number in 0..MANY {
        bytes.extend_from_slice(&packet(number))?;
    }
    Ok(bytes)
}

// Returns the first packet of `CAPTURE` with another time and another instance of its LSA. The
// packet's checksum is not checked, because its authentication is cryptographic.
fn packet(number: u32) -> [u8; FIRST - HEADER] {
    let mut packet = [0; FIRST - HEADER];
    packet.copy_from_slice(&CAPTURE[HEADER..FIRST]);
    let time = START.wrapping_add((number / TOGETHER).wrapping_mul(APART));
    packet[..4].copy_from_slice(&time.to_le_bytes());
    packet[64..66].copy_from_slice(&[0, 2]);
    if number % TOGETHER == 0 {
        packet[78..80].copy_from_slice(&[0x0e, 0x10]);
    }
    let instance = INSTANCE.wrapping_add(number);
    packet[90..94].copy_from_slice(&instance.to_be_bytes());
    let sum = sum_of(&packet[78..]).unwrap_or(0);
    packet[94..96].copy_from_slice(&sum.to_be_bytes());
    packet
}

// Returns the recording of the capture.
fn recorded(
    alloc: Global,
    hashing: RandomState,
    beginning: Preamble<'_>,
    capture: &[u8],
) -> Result<Vec<u8>> {
    let options = OPTIONS;
    let capturing = Capturing { options, beginning };
    let (mut input, mut out, mut said) = (capture, Vec::new(alloc), Vec::new(alloc));
    let answer = record_capture(alloc, hashing, capturing, &mut input, &mut out, &mut said);
    ensure!(answer.is_ok(), "the capture is not recorded");
    Ok(out)
}
