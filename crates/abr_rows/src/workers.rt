//! A replay with two workers.

use crate::replays::PRINTING;
use anyhow::{Result, ensure};
use std::hash::RandomState;
use std::random::RandomSource;
use std::sync::Wait;
use std::thread::Threads;
use worker_replay::{ReplayOptions, replay_many};

// The events are taken, and the flush is refused, in whatever order they are submitted.
const RECORDING: &str = "abr 1
router 10.0.0.1
area 0.0.0.0 normal
lookup 10.2.0.1
interface 1 0.0.0.0 198.51.100.1 198.51.100.2 up
install 0.0.0.0 000102010a0000010a00000180000001e6e20024000000010a000002c63364010100000a
install 0.0.0.0 000102010a0000020a00000280000001dde80024010000010a000001c63364020100000a
flush 0.0.0.1 1 10.0.0.1 10.0.0.1
lookup 10.1.2.3
install 0.0.0.0 000102030a0100000a00000280000001da61001cffff00000000000a
";

const ROUTES: &str = "4 lookup 10.2.0.1 4 none
8 refused 20 NoArea
9 lookup 10.1.2.3 4 route 10.1.0.0/16 inter 0.0.0.0 20 0 peer:1@10.0.0.2
serial 4 built 4
route 10.1.0.0/16 inter 0.0.0.0 20 0 peer:1@10.0.0.2
";

// Lookups see all events that were taken.
pub fn run<R: AllocGlobal + RandomSource + Threads + Wait + Sync>(rt: &R) -> Result<()> {
    let hashing = RandomState::new(rt)?;
    let mut input = RECORDING.as_bytes();
    let mut out = Vec::new(rt.alloc());
    let options = ReplayOptions {
        workers: 2,
        printing: PRINTING,
    };
    replay_many(rt, rt.alloc(), hashing, options, &mut input, &mut out)?;
    ensure!(
        out.as_slice() == ROUTES.as_bytes(),
        "other answers than those of all events"
    );
    Ok(())
}
