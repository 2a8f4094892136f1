//! Compares an index with a plain list of networks that is searched from end to end. It also looks
//! up networks whose hashes collide.

use crate::random::Random;
use crate::sets::network_word;
use ospf_types::memory::Memory;
use ospf_types::prefix::Prefix;
use prefix_index::PrefixIndex;
use std::alloc::Global;
use std::io;
use std::io::Print;

// The greatest number of networks in each run. A run begins with no networks.
const RUNS: [usize; 5] = [300, 3, 100, 10, 300];
// The number of steps of a run. Each is an update, a longest match and a value.
const STEPS: u32 = 10_000;
// The number of steps after which all networks are compared.
const WALK: u32 = 2_500;

// The addresses around which the networks are chosen, so that they nest.
const CENTRES: [u32; 8] = [
    0,
    0x0a00_0001,
    0x0a00_8001,
    0x0a01_0203,
    0x0b00_0000,
    0xc0a8_0101,
    0xc0a8_01fe,
    u32::MAX,
];

// A network with its value.
type ValuedNetwork = (Prefix, u64);

/// An index and a list with the same networks and values, and counts of the steps.
#[derive(Drop)]
pub struct Trial {
    index: PrefixIndex<u64>,
    // The networks in no order, without duplicates.
    plain: Vec<ValuedNetwork>,
    random: Random,
    insertions: u64,
    removals: u64,
    matches: u64,
    values: u64,
    walks: u64,
    // The number of results that differ.
    differ: u64,
}

impl Trial {
    /// Changes an empty index, and compares it with a list.
    ///
    /// # Errors
    ///
    /// Returns `Memory` if memory runs out.
    pub fn run(index: PrefixIndex<u64>, alloc: Global) -> Result<Trial, Memory> {
        let mut trial = Trial {
            index,
            plain: Vec::new(alloc),
            random: Random::new(1),
            insertions: 0,
            removals: 0,
            matches: 0,
            values: 0,
            walks: 0,
            differ: 0,
        };
        for most in RUNS {
            trial.index.clear();
            trial.plain.clear();
            trial.change_and_compare(most)?;
        }
        Ok(trial)
    }

    pub fn print(&self, rt: &impl Print) -> io::Result<()> {
        let (insertions, removals) = (self.insertions, self.removals);
        println!(rt; "{insertions} insertions, {removals} removals")?;
        let (matches, values, walks) = (self.matches, self.values, self.walks);
        println!(rt; "{matches} longest matches, {values} values, {walks} walks compared")?;
        let differ = self.differ;
        println!(rt; "{differ} differ")
    }

    // Runs one run, with at most `most` networks.
    fn change_and_compare(&mut self, most: usize) -> Result<(), Memory> {
        for step in 0..STEPS {
            if step % 5 < 3 {
                self.insert(most)?;
            } else {
                self.remove();
            }
            self.compare_match();
            self.compare_value();
            if step % WALK == 0 {
                self.compare_all();
            }
        }
        Ok(())
    }

    // Gives a network a value. If the number of networks is the greatest allowed, it is one of
    // them.
    fn insert(&mut self, most: usize) -> Result<(), Memory> {
        let mut network = self.network();
        if self.plain.len() >= most {
            network = self.some_network().unwrap_or(network);
        }
        let value = self.random.number();
        self.index.insert(network, value)?;
        self.plain.retain(|entry| entry.0 != network);
        self.plain.push((network, value))?;
        self.insertions = self.insertions.saturating_add(1);
        Ok(())
    }

    // Removes one of the networks, or in some steps one that the index may not have.
    fn remove(&mut self) {
        let mut network = self.network();
        if self.random.below(4) > 0 {
            network = self.some_network().unwrap_or(network);
        }
        self.index.remove(network);
        self.plain.retain(|entry| entry.0 != network);
        self.removals = self.removals.saturating_add(1);
    }

    fn compare_match(&mut self) {
        let address = self.address();
        let is_same = longest(&self.index, address) == self.longest(address);
        self.matches = self.matches.saturating_add(1);
        self.note(is_same);
    }

    // Compares the value of a network that has one, or of a network that may have no value.
    fn compare_value(&mut self) {
        let mut network = self.network();
        if self.random.below(2) > 0 {
            network = self.some_network().unwrap_or(network);
        }
        let value = self.value(network);
        let is_same = self.index.get(network).copied() == value
            && self.index.contains(network) == value.is_some();
        self.values = self.values.saturating_add(1);
        self.note(is_same);
    }

    fn compare_all(&mut self) {
        self.plain.sort_unstable();
        let mut left = self.plain.as_slice().iter();
        let mut is_same = true;
        for (network, value) in self.index.iter() {
            is_same &= left.next() == Some(&(network, *value));
        }
        is_same &= left.next().is_none();
        self.walks = self.walks.saturating_add(1);
        self.note(is_same);
    }

    fn note(&mut self, is_same: bool) {
        self.differ = self.differ.saturating_add(u64::from(!is_same));
    }

    // Returns the list's longest network that contains the address, with its value.
    fn longest(&self, address: u32) -> Option<ValuedNetwork> {
        self.plain
            .as_slice()
            .iter()
            .filter(|entry| entry.0.contains(address))
            .max_by_key(|entry| entry.0.length())
            .copied()
    }

    // Returns the network's value in the list.
    fn value(&self, network: Prefix) -> Option<u64> {
        let mut entries = self.plain.as_slice().iter();
        entries
            .find(|entry| entry.0 == network)
            .map(|entry| entry.1)
    }

    // Returns a network that has a value.
    fn some_network(&mut self) -> Option<Prefix> {
        let entry = self.random.pick(self.plain.as_slice());
        entry.map(|entry| entry.0)
    }

    fn network(&mut self) -> Prefix {
        let address = self.address();
        Prefix::around(address, self.random.below(33) as u8)
    }

    // Returns one of the `CENTRES`, or an address that differs from it in one bit.
    fn address(&mut self) -> u32 {
        let centre = self.random.pick(&CENTRES).unwrap_or(0);
        let place = self.random.below(64);
        if place < 32 {
            return centre ^ (1 << place);
        }
        centre
    }
}

/// Inserts the networks into an empty index, and then removes every second one. Prints how many
/// networks are found by their addresses, before and after.
///
/// # Errors
///
/// Returns an error if memory runs out, or if the text cannot be printed.
pub fn find_all(
    rt: &impl Print,
    index: &mut PrefixIndex<u64>,
    name: &str,
    networks: &[Prefix],
) -> anyhow::Result<()> {
    insert_all(index, networks)?;
    let (asked, before) = (networks.len(), found(index, networks));
    remove_every_second(index, networks);
    let after = found(index, networks);
    println!(rt;
        "{name}: {asked} networks, {before} found, {after} found without every second one"
    )?;
    Ok(())
}

fn insert_all(index: &mut PrefixIndex<u64>, networks: &[Prefix]) -> Result<(), Memory> {
    for network in networks {
        index.insert(*network, network_word(*network))?;
    }
    Ok(())
}

fn remove_every_second(index: &mut PrefixIndex<u64>, networks: &[Prefix]) {
    for network in networks.iter().step_by(2) {
        index.remove(*network);
    }
}

// Returns the number of networks that are the longest match of their addresses, with their values.
fn found(index: &PrefixIndex<u64>, networks: &[Prefix]) -> u64 {
    let mut found: u64 = 0;
    for network in networks {
        let wanted = Some((*network, network_word(*network)));
        let is_found = longest(index, network.address()) == wanted;
        found = found.saturating_add(u64::from(is_found));
    }
    found
}

// Returns the index's longest network that contains the address, with its value.
fn longest(index: &PrefixIndex<u64>, address: u32) -> Option<ValuedNetwork> {
    match index.longest(address) {
        Some((network, value)) => Some((network, *value)),
        None => None,
    }
}
