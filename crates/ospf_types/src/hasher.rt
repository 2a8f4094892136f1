//! The keys of the hash function, and the state of one hash.
//!
//! Anyone who may originate external routes chooses up to 65,536 networks, and with a fixed hash
//! function could choose networks that collide. So the keys are drawn from the `RandomState` with
//! which a core or an engine is opened. That strangers cannot predict collisions is an argument,
//! not a proof. The function is not cryptographic: a cryptographic one would take three times the
//! instructions, and exact timing of very many lookups might reveal the keys.
//!
//! Both published copies of a table share the keys. A table of another core has others.
ghost use Rattle.std.specs.Prelude.{◌≡◌};
ghost use Rattle.ospf_types.specs.Words.{folded, word_of, mixed, mixed_bytes, drawn, drawn_odd};

use std::fmt;
use std::fmt::{Debug, Formatter};
use std::hash::{BuildHasher, Hasher, RandomState};

// A mask for the low half of 128 bits.
const LOW: u128 = 0xffff_ffff_ffff_ffff;

/// The keys of the hash function: the first state of each hash, and the multiplier.
#[derive(Clone, Copy)]
pub struct WordHash {
    start: u64,
    multiplier: u64,
}

impl WordHash {
    /// Draws the keys from a random state.
    pub fn new(hashing: RandomState) -> WordHash
        ensures { result ≡ record { start = drawn hashing 0; multiplier = drawn_odd hashing 1 } }
    {
        WordHash {
            start: hashing.hash_one(0u64),
            multiplier: hashing.hash_one(1u64) | 1,
        }
    }

    /// Returns the hash of one word.
    #[inline]
    pub fn hash_word(self, word: u64) -> u64
        ensures { result ≡ mixed self.multiplier self.start word }
    {
        mix(self.multiplier, self.start, word)
    }
}

impl BuildHasher for WordHash {
    type Hasher = WordHasher;

    ghost build_hasher = { λ h. record { state = h.start; multiplier = h.multiplier } };

    #[inline]
    fn build_hasher(&self) -> WordHasher {
        WordHasher {
            state: self.start,
            multiplier: self.multiplier,
        }
    }
}

// The keys are not printed.
impl Debug for WordHash {
    fn fmt<W: fmt::Write>(&self, f: &mut Formatter<W>) -> fmt::Result {
        f.debug_struct("WordHash").finish_non_exhaustive()
    }
}

/// The state of one hash.
#[derive(Clone, Copy)]
pub struct WordHasher {
    state: u64,
    multiplier: u64,
}

impl Hasher for WordHasher {
    ghost use Rattle.ospf_types.specs.Words.{written};

    ghost write = { λ h bytes. record { state = written h.multiplier h.state bytes; multiplier = h.multiplier } };

    ghost finish = { λ h. h.state };

    #[inline]
    fn finish(&self) -> u64 {
        self.state
    }

    #[inline]
    fn write(&mut self, bytes: &[u8]) {
        self.state = match word_in(bytes) {
            Some(word) => mix(self.multiplier, self.state, word),
            None => mix_bytes(self.multiplier, self.state, bytes),
        };
    }

    #[inline]
    fn write_u32(&mut self, i: u32) {
        self.state = mix(self.multiplier, self.state, u64::from(i));
    }

    #[inline]
    fn write_u64(&mut self, i: u64) {
        self.state = mix(self.multiplier, self.state, i);
    }

    #[inline]
    fn write_usize(&mut self, i: usize) {
        self.state = mix(self.multiplier, self.state, i as u64);
    }
}

// Under some keys, one product maps words at even distances to few places. A second product does
// not.
// This was simulated with 3,000 consecutive /24s and 8,000 keys: one product cost more than three
// further slots a lookup under 2 keys of 100. Two products cost at most 0.4 on average under any
// key.
#[inline]
fn mix(multiplier: u64, state: u64, word: u64) -> u64
    ensures { result ≡ mixed multiplier state word }
{
    fold_product(fold_product(state ^ word, multiplier), multiplier)
}

#[inline]
fn fold_product(a: u64, b: u64) -> u64
    ensures { result ≡ folded a b }
{
    let product = a as u128 * b as u128;
    (product & LOW) as u64 ^ (product >> 64) as u64
}

// Returns the word of eight or four bytes, or `None` for any other number of bytes.
#[inline]
fn word_in(bytes: &[u8]) -> Option<u64>
    ensures { result ≡ word_of bytes.now }
{
    if bytes.len() == 8 {
        return Some(u64::from_le_bytes([
            bytes[0], bytes[1], bytes[2], bytes[3], bytes[4], bytes[5], bytes[6], bytes[7],
        ]));
    }
    if bytes.len() == 4 {
        return Some(u32::from_le_bytes([bytes[0], bytes[1], bytes[2], bytes[3]]) as u64);
    }
    None
}

fn mix_bytes(multiplier: u64, state: u64, bytes: &[u8]) -> u64
    ensures { result ≡ mixed_bytes multiplier state bytes.now }
{
    let mut state = mix(multiplier, state, bytes.len() as u64);
    for byte in bytes {
        state = mix(multiplier, state, u64::from(*byte));
    }
    state
}
