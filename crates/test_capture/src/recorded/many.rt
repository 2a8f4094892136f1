//! Many LSAs, each of which is heard twice.

use anyhow::{Result, ensure};
use captured_lsas::{Options, Recorded, Recorder, Taken};
use lsa_codec::sum_of;
use std::alloc::Global;
use std::hash::RandomState;

/// The number of LSAs.
const MANY: u32 = 1_000;

/// A Link State Update with a network-LSA. Its checksum is not checked, because the authentication
/// is cryptographic.
const UPDATE: [u8; 64] = [
    0x02, 0x04, 0x00, 0x40, 0x0a, 0x00, 0x00, 0x02, 0x00, 0x00, 0x00, 0x00, 0x00, 0x00, 0x00, 0x02,
    0x00, 0x00, 0x00, 0x00, 0x00, 0x00, 0x00, 0x00, 0x00, 0x00, 0x00, 0x01, 0x00, 0x01, 0x02, 0x02,
    0xc0, 0x00, 0x02, 0x02, 0x0a, 0x00, 0x00, 0x02, 0x80, 0x00, 0x00, 0x01, 0x00, 0x00, 0x00, 0x24,
    0xff, 0xff, 0xff, 0x00, 0x0a, 0x00, 0x00, 0x01, 0x0a, 0x00, 0x00, 0x02, 0x0a, 0x00, 0x00, 0x03,
];

/// Records each of many LSAs when it is first heard, and not when it is heard again.
///
/// # Errors
///
/// Returns an error if an LSA is left out or recorded again, or if memory runs out.
pub fn ensure_known_again(alloc: Global, hashing: RandomState) -> Result<()> {
    let options = Options {
        keeps_all: false,
        without_seconds: false,
    };
    let mut recorder = Recorder::new(alloc, hashing, options, None);
    for id in 0..MANY {
        ensure!(
            is_installed(alloc, &mut recorder, id)?,
            "an LSA is left out"
        );
    }
    for id in 0..MANY {
        ensure!(
            !is_installed(alloc, &mut recorder, id)?,
            "an LSA is recorded again"
        );
    }
    Ok(())
}

// Hears the LSA with this Link State ID. Returns true if it is recorded.
fn is_installed(alloc: Global, recorder: &mut Recorder, id: u32) -> Result<bool> {
    let taken = recorder.take(alloc, None, &update_with(id))?;
    Ok(has_install(&taken))
}

fn has_install(taken: &Taken) -> bool {
    match taken {
        Taken::Packet { recorded, .. } => matches!(
            recorded.first(),
            Some(Recorded::Install { .. })
        ),
        Taken::Fault(_) => false,
    }
}

// Returns the update with this Link State ID in its LSA.
fn update_with(id: u32) -> [u8; 64] {
    let mut update = UPDATE;
    update[32..36].copy_from_slice(&id.to_be_bytes());
    let sum = sum_of(&update[28..]).unwrap_or(0);
    update[44..46].copy_from_slice(&sum.to_be_bytes());
    update
}
