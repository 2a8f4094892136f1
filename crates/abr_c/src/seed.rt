//! The keys of the hash maps, from a seed.
ghost use Rattle.std.specs.Prelude.{◌≤◌, IsTrue, OnOk, IfOk, IfErr, length};
ghost use Rattle.abr_c.specs.Opening.{HasSipKeysOf, IsSeedRefusal};

use crate::numbers::{LENGTH, MEMORY};
use byteorder::{ByteOrder, LittleEndian};
use core::hash::keyed_hasher;
use std::hash::{BuildHasher, Hasher, RandomState};
use std::io;
use std::random::RandomSource;

/// A random source that gives the first bytes of a seed.
#[derive(Clone, Copy)]
struct Seed<'a> {
    bytes: &'a [u8],
}

impl RandomSource for Seed<'_> {
    fn fill_bytes(&self, out: &mut [u8]) -> io::Result<()> {
        for (place, byte) in out.iter_mut().zip(self.bytes) {
            *place = *byte;
        }
        Ok(())
    }
}

/// Returns the keys that the first 16 bytes of a seed give.
pub(crate) fn hashing_of(seed: &[u8]) -> Result<RandomState, u32>
    ensures long { OnOk result (16 ≤ length seed.now) }
    ensures keys { IfOk result (HasSipKeysOf seed.now) }
    ensures refused { IfErr result (IsSeedRefusal seed.now) }
{
    if seed.len() < 16 {
        return Err(LENGTH);
    }
    match RandomState::new(&Seed { bytes: seed }) {
        Ok(hashing) if has_keys_of(seed, &hashing) => Ok(hashing),
        _ => Err(MEMORY),
    }
}

// Returns true if the empty text has the same hash under these keys as under the keys of the seed.
// No clause of `RandomState` says which keys it takes from its source, but a hash does.
fn has_keys_of(seed: &[u8], hashing: &RandomState) -> bool
    requires { 16 ≤ length seed.now }
    ensures { IsTrue result → HasSipKeysOf seed.now hashing.now }
{
    let (low, high) = (
        LittleEndian::read_u64(seed),
        LittleEndian::read_u64(&seed[8..]),
    );
    hashing.build_hasher().finish() == keyed_hasher(low, high).finish()
}
