//! Sets of networks, and addresses in them.

use crate::random::Random;
use ospf_types::prefix::Prefix;
use std::alloc::{AllocError, Global};

/// A set of networks.
#[derive(Clone, Copy)]
pub enum Set {
    /// This number of networks of 16 to 24 bits anywhere, less duplicates.
    Anywhere(u32),
    /// The links of 100 areas, 95,000 external networks in 20,000 blocks of 16 bits, and a default
    /// route.
    Ospf,
    /// Host routes, each in its own /24.
    Hosts,
    /// Host routes in two blocks of 16 bits.
    Dense,
    /// Addresses with a network of each length from 1 to 32.
    Nested,
    /// Host routes that a hash without keys puts at one place of a hash map: their number, and the
    /// number of groups of entries of the map.
    OnePlace(u32, u32),
    /// This number of host routes whose words have the same 20 lowest bits.
    EqualBits(u32),
}

const SETS: [(&str, Set); 7] = [
    ("anywhere", Set::Anywhere(100_000)),
    ("thousand", Set::Anywhere(1_000)),
    ("ospf", Set::Ospf),
    ("hosts", Set::Hosts),
    ("dense", Set::Dense),
    ("nested", Set::Nested),
    ("colliding", Set::OnePlace(100_000, 16_384)),
];

// The start value of the library's hash without keys.
const START: u64 = 0x243f_6a88_85a3_08d3;
// The factor by which that hash multiplies a word of eight bytes.
const MULTIPLIER: u64 = 0x9e37_79b9_7f4a_7c05;
// The low half of 64 bits.
const LOW: u64 = 0xffff_ffff;

impl Set {
    pub fn named(word: &str) -> Option<Set> {
        for (name, set) in SETS {
            if name == word {
                return Some(set);
            }
        }
        None
    }

    /// Returns the networks of the set, in no order, without duplicates.
    ///
    /// # Errors
    ///
    /// Returns an error if memory runs out.
    pub fn networks(self, alloc: Global) -> Result<Vec<Prefix>, AllocError> {
        let mut random = Random::new(1);
        let mut networks = Vec::new(alloc);
        self.push_all(&mut networks, &mut random)?;
        networks.sort_unstable();
        networks.dedup();
        shuffle(&mut networks, &mut random);
        Ok(networks)
    }

    fn push_all(self, networks: &mut Vec<Prefix>, random: &mut Random) -> Result<(), AllocError> {
        match self {
            Set::Anywhere(count) => push_anywhere(networks, count, random),
            Set::Ospf => push_ospf(networks, random),
            Set::Hosts => push_hosts(networks, random),
            Set::Dense => push_dense(networks),
            Set::Nested => push_nested(networks, random),
            Set::OnePlace(count, groups) => push_one_place(networks, count, groups),
            Set::EqualBits(count) => push_equal_bits(networks, count),
        }
    }
}

fn push_anywhere(
    networks: &mut Vec<Prefix>,
    count: u32,
    random: &mut Random,
) -> Result<(), AllocError> {
    for _ in 0..count {
        let length = 16 + random.below(9) as u8;
        networks.push(Prefix::around(random.address(), length))?;
    }
    Ok(())
}

fn push_ospf(networks: &mut Vec<Prefix>, random: &mut Random) -> Result<(), AllocError> {
    networks.push(Prefix::around(0, 0))?;
    for link in 0..12_000 {
        // The links of an area are in 10.AREA.0.0/16.
        let address = 0x0a00_0000 + (link % 100 << 16) + random.below(65536);
        let length = [24, 25, 26, 27, 28, 29, 30, 32][random.below(8) as usize];
        networks.push(Prefix::around(address, length))?;
    }
    for _ in 0..95_000 {
        let address = (random.below(20_000) * 3 << 16) + random.below(65536);
        networks.push(Prefix::around(address, 16 + random.below(9) as u8))?;
    }
    Ok(())
}

fn push_hosts(networks: &mut Vec<Prefix>, random: &mut Random) -> Result<(), AllocError> {
    for place in 0..100_000 {
        let address = (place * 167 << 8) + random.below(256);
        networks.push(Prefix::around(address, 32))?;
    }
    Ok(())
}

fn push_dense(networks: &mut Vec<Prefix>) -> Result<(), AllocError> {
    for place in 0..100_000 {
        let address = 0x0a00_0000 + place * 21_845 % 0x2_0000;
        networks.push(Prefix::around(address, 32))?;
    }
    Ok(())
}

fn push_nested(networks: &mut Vec<Prefix>, random: &mut Random) -> Result<(), AllocError> {
    for _ in 0..3_125 {
        let address = random.address();
        for length in 1..33 {
            networks.push(Prefix::around(address, length))?;
        }
    }
    Ok(())
}

fn push_one_place(networks: &mut Vec<Prefix>, count: u32, groups: u32) -> Result<(), AllocError> {
    for address in 0..u32::MAX {
        if networks.len() >= count as usize {
            break;
        }
        let network = Prefix::around(address, 32);
        if hash_without_keys(network).checked_rem(groups) == Some(0) {
            networks.push(network)?;
        }
    }
    Ok(())
}

// Returns the part of a network's hash by which a hash map without keys finds the network.
fn hash_without_keys(network: Prefix) -> u32 {
    let folded = fold_product(START ^ network_word(network), MULTIPLIER);
    ((folded >> 32) ^ (folded & LOW)) as u32
}

fn fold_product(a: u64, b: u64) -> u64 {
    let product = a as u128 * b as u128;
    (product >> 64) as u64 ^ (product & u64::MAX as u128) as u64
}

fn push_equal_bits(networks: &mut Vec<Prefix>, count: u32) -> Result<(), AllocError> {
    for place in 0..count {
        networks.push(Prefix::around(place.wrapping_mul(4096), 32))?;
    }
    Ok(())
}

/// Returns a number that only this network has, and by which it is hashed.
pub fn network_word(network: Prefix) -> u64 {
    u64::from(network.address()) * 256 + u64::from(network.length())
}

fn shuffle(networks: &mut Vec<Prefix>, random: &mut Random) {
    for place in 1..networks.len() {
        let other = random.number() as usize % (place + 1);
        networks.swap(place, other);
    }
}

/// Returns `count` addresses (in host order), each in one of the networks. Returns an empty list if
/// `networks` is empty.
///
/// # Errors
///
/// Returns an error if memory runs out.
pub fn addresses(alloc: Global, networks: &[Prefix], count: usize) -> Result<Vec<u32>, AllocError> {
    let mut random = Random::new(2);
    let mut addresses = Vec::with_capacity(alloc, count)?;
    for _ in 0..count {
        let Some(network) = random.pick(networks) else {
            break;
        };
        let host = u32::MAX
            .checked_shr(u32::from(network.length()))
            .unwrap_or(0);
        addresses.push(network.address() | random.address() & host)?;
    }
    Ok(addresses)
}

/// Returns `count` of these addresses, in no order.
///
/// # Errors
///
/// Returns an error if memory runs out.
pub fn repeated(alloc: Global, some: &[u32], count: usize) -> Result<Vec<u32>, AllocError> {
    let mut random = Random::new(3);
    let mut addresses = Vec::with_capacity(alloc, count)?;
    for _ in 0..count {
        let Some(address) = random.pick(some) else {
            break;
        };
        addresses.push(address)?;
    }
    Ok(addresses)
}
