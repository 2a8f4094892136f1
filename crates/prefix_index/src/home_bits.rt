//! The bits of a hash that say where the search for a network begins.
ghost use Rattle.std.specs.Prelude.{◌≡◌, ◌≤◌, ◌+◌, ◌-◌, ◌*◌, ◌/◌, ◌^◌, bit_and};

use std::marker::Model;

/// The number of bits of a home, at most 31: the lowest bits of a hash.
#[derive(Clone, Copy)]
pub(crate) struct HomeBits {
    bits: u32,
    // A mask with a one for each of these bits.
    mask: u64,
}

impl Model for HomeBits {
    ghost use Rattle.std.specs.Prelude.{ℕ, ◌≡◌, ◌≤◌, ◌-◌, ◌^◌};

    ghost Value = { ℕ };

    ghost view = { λ h. h.bits };

    ghost invariant = { λ h. (h.bits ≤ 31) × (h.mask ≡ 2 ^ h.bits - 1) };

    ghost inverse = { λ n. record { bits = n; mask = 2 ^ n - 1 } };
}

impl HomeBits {
    pub(crate) fn new(bits: u32) -> HomeBits
        requires { bits ≤ 31 }
        ensures { result ≡ bits }
    {
        HomeBits {
            bits,
            mask: homes(bits) as u64 - 1,
        }
    }

    // Returns the number of homes that these bits can name.
    #[inline]
    pub(crate) fn homes(self) -> usize
        ensures value { result ≡ 2 ^ self }
        ensures bound { result ≤ 2 ^ 31 }
    {
        self.mask as usize + 1
    }

    // Returns the home of a hash: its lowest bits.
    #[inline]
    pub(crate) fn home(self, hash: u64) -> usize
        ensures { result ≡ bit_and hash (2 ^ self - 1) }
    {
        (hash & self.mask) as usize
    }

    // Returns the tag of a hash: its highest 32 bits, of which the lowest are set to zero, one for
    // each bit of a home.
    #[inline]
    pub(crate) fn tag(self, hash: u64) -> usize
        ensures value { result ≡ hash / 2 ^ 32 / 2 ^ self * 2 ^ self }
        ensures room { result + 2 ^ self ≤ 2 ^ 32 }
    {
        let high = hash >> 32;
        (high - (high & self.mask)) as usize
    }
}

// Returns the number of homes that the given number of bits can name.
pub(crate) fn homes(bits: u32) -> usize
    requires { bits ≤ 31 }
    ensures value { result ≡ 2 ^ bits }
    ensures bound { result ≤ 2 ^ 31 }
{
    1 << bits
}
