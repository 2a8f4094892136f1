//! The slots that give the index of a network's entry.
ghost use Rattle.std.specs.Prelude.{◌≡◌, ◌≢◌, ℕ, ◌+◌, ◌^◌, ◌<◌, ◌≤◌, false, [], None, IfSome, IfOk};
ghost use Rattle.std.specs.Prelude.{IsTrue, OnOk, OnErr, length, slice_index};
ghost use Rattle.std.specs.List.{slice_get};
ghost use Rattle.ospf_types.specs.Network.{network_word};
ghost use Rattle.prefix_index.specs.Slots.{base_of, home_of, AreBitsFor, AreHomesFew, AreSlotted};
ghost use Rattle.prefix_index.specs.Slots.{HasNetwork, IsFree, IsMissing, IsMore, IsOtherNumber};
ghost use Rattle.prefix_index.specs.Slots.{IsOutOfUse, IsSlotPlaced, HasFreeSlot, IsRenumbered, IsEntryRemoved};
ghost use Rattle.prefix_index.specs.Slots.{KeepsNumbers, KeepsOtherEntries, FindsNothing, SearchLeadsTo};

use crate::home_bits::{HomeBits, homes};
use ospf_types::WordHash;
use ospf_types::prefix::Prefix;
use std::alloc::{AllocError, Global};

// The number of a slot that never had an entry.
const EMPTY: u32 = 0;

// The number of a slot whose entry was removed.
const GONE: u32 = 1;

// The least number that is neither: the entry at index 0, with the tag 0.
const FIRST: usize = 2;

// The fewest bits of a home.
const FEWEST: u32 = 3;

// The most bits of a home.
const MOST: u32 = 31;

// The number of homes with the fewest bits.
const LEAST: usize = 8;

// The number of slots past the last home, so that the last slots are seldom full.
const TAIL: usize = 64;

/// A table of slots with a number each: 0, 1, or the sum of the network's tag, the index of its
/// entry, and 2.
///
/// The slot of an entry is the first one from its network's home on that was free when it was
/// added. A search compares the network too, so a number without an entry does no harm.
#[derive(Drop)]
pub(crate) struct Slots {
    // Empty until the first entry is added.
    pub(crate) numbers: Vec<u32>,
    // There are 2 ^ bits homes. The bits of a number above these are the tag.
    pub(crate) bits: HomeBits,
    // The number of slots that are not 0.
    pub(crate) used: usize,
}

impl Slots {
    // Creates a table without slots. It takes no memory yet.
    pub(crate) fn new(alloc: Global) -> Slots
        ensures none { result.numbers.items ≡ [] }
        ensures few { result.bits ≡ 3 }
        ensures unused { result.used ≡ 0 }
    {
        Slots {
            numbers: Vec::new(alloc),
            bits: HomeBits::new(FEWEST),
            used: 0,
        }
    }

    // Creates empty slots, at least five for each of `count` entries.
    fn with_room(alloc: Global, count: usize) -> Result<Slots, AllocError>
        ensures ready { IfOk result (λ s. HasFreeSlot s count) }
        ensures empty { IfOk result (λ s. (q : ℕ) → slice_index s.numbers.items q ≡ 0) }
        ensures length { IfOk result (λ s. length s.numbers.items ≡ 2 ^ s.bits + 64) }
        ensures unused { IfOk result (λ s. s.used ≡ 0) }
        ensures few { IfOk result (λ s. AreHomesFew s.bits count) }
    {
        let Some(bits) = bits_for(count) else {
            return Err(AllocError);
        };
        let mut numbers = Vec::new(alloc);
        numbers.resize(homes(bits) + TAIL, EMPTY)?;
        Ok(Slots {
            numbers,
            bits: HomeBits::new(bits),
            used: 0,
        })
    }

    // Creates slots for the entries, and for one more.
    pub(crate) fn of<V>(
        alloc: Global,
        hashing: WordHash,
        entries: &[(Prefix, V)],
    ) -> Result<Slots, AllocError>
        ensures slotted { IfOk result (λ s. AreSlotted hashing entries.now s) }
        ensures few { IfOk result (λ s. AreHomesFew s.bits (length entries.now)) }
        ensures ready { IfOk result (λ s. HasFreeSlot s (length entries.now)) }
    {
        let mut slots = Slots::with_room(alloc, entries.len())?;
        for place in 0..entries.len() {
            slots.add(hashing, entries[place].0, place)?;
        }
        Ok(slots)
    }

    // Returns true if the next entry needs more slots: there are none yet, two fifths of the homes
    // are used, or its index has too many bits.
    pub(crate) fn is_full(&self, count: usize) -> bool
        requires { self.now.bits ≤ 31 }
        ensures { result ≡ false → HasFreeSlot self.now count }
    {
        let homes = self.bits.homes();
        self.numbers.len() < homes || self.used >= homes / 5 * 2 || count >= homes.saturating_sub(2)
    }

    // Returns true if there are more than 20 homes for each of `count` entries, and not yet the
    // fewest.
    pub(crate) fn is_wide(&self, count: usize) -> bool {
        let homes = self.bits.homes();
        homes > LEAST && count < homes / 20
    }

    // Returns the index of the network's entry.
    #[inline]
    pub(crate) fn find<V>(
        &self,
        entries: &[(Prefix, V)],
        hashing: WordHash,
        network: Prefix,
    ) -> Option<usize>
        ensures found { IfSome result (λ i. HasNetwork entries.now i network) }
        ensures missing { result ≡ None → IsMissing hashing self.now entries.now network }
    {
        let base = base(hashing, self.bits, network);
        let home = home(hashing, self.bits, network);
        let sought = Sought {
            home,
            base,
            network,
        };
        probe(self.numbers.as_slice(), entries, sought)
    }

    // Writes the number of the network's entry, which is at index `place`, to a free slot. If
    // memory runs out, nothing changes.
    pub(crate) fn add(
        &mut self,
        hashing: WordHash,
        network: Prefix,
        place: usize,
    ) -> Result<(), AllocError>
        requires { HasFreeSlot self.old place }
        ensures placed { OnOk result (SearchLeadsTo hashing self.new network place) }
        ensures err { OnErr result (self.new.numbers.items ≡ self.old.numbers.items) }
        ensures more { IsMore self.old self.new }
    {
        let number = number(hashing, self.bits, network, place);
        let free = free_from(self.numbers.as_slice(), home(hashing, self.bits, network));
        if free < self.numbers.len() {
            self.used += usize::from(self.numbers[free] == EMPTY);
            self.numbers[free] = number;
            return Ok(());
        }
        self.numbers.push(number)?;
        self.used += 1;
        Ok(())
    }

    // Frees the slot of the entry at index `place`. The slot of the last entry gets that index.
    pub(crate) fn take<V>(&mut self, hashing: WordHash, entries: &[(Prefix, V)], place: usize)
        requires slotted { AreSlotted hashing entries.now self.old }
        requires within { place < length entries.now }
        ensures { IsEntryRemoved hashing entries.now place self.old self.new }
    {
        self.remove(hashing, entries[place].0, place);
        let last = entries.len() - 1;
        if place == last {
            return;
        }
        self.relocate(hashing, entries[last].0, last, place);
    }

    // Frees the slot of the network's entry, which is at index `place`.
    fn remove(&mut self, hashing: WordHash, network: Prefix, place: usize)
        requires room { place + 3 ≤ 2 ^ self.old.bits }
        requires placed { SearchLeadsTo hashing self.old network place }
        ensures others { KeepsOtherEntries hashing self.old self.new network place }
        ensures gone { IsOutOfUse hashing self.old self.new network place }
        ensures length { length self.new.numbers.items ≡ length self.old.numbers.items }
        ensures bits { self.new.bits ≡ self.old.bits }
        ensures used { self.new.used ≡ self.old.used }
    {
        let number = number(hashing, self.bits, network, place);
        renumber(
            &mut self.numbers,
            home(hashing, self.bits, network),
            number,
            GONE,
        );
    }

    // Changes the index of the network's entry in its slot.
    fn relocate(&mut self, hashing: WordHash, network: Prefix, from: usize, to: usize)
        requires from { from + 3 ≤ 2 ^ self.old.bits }
        requires to { to + 3 ≤ 2 ^ self.old.bits }
        requires placed { SearchLeadsTo hashing self.old network from }
        ensures placed { SearchLeadsTo hashing self.new network to }
        ensures others { KeepsOtherEntries hashing self.old self.new network from }
        ensures length { length self.new.numbers.items ≡ length self.old.numbers.items }
        ensures bits { self.new.bits ≡ self.old.bits }
        ensures used { self.new.used ≡ self.old.used }
    {
        let old = number(hashing, self.bits, network, from);
        let new = number(hashing, self.bits, network, to);
        renumber(
            &mut self.numbers,
            home(hashing, self.bits, network),
            old,
            new,
        );
    }
}

// Makes sure that there are slots for one more entry. If memory runs out, the slots are unchanged.
pub(crate) fn make_room<V>(
    slots: &mut Slots,
    entries: &[(Prefix, V)],
    hashing: WordHash,
    alloc: Global,
) -> Result<(), AllocError>
    requires { AreSlotted hashing entries.now slots.old }
    ensures slotted { AreSlotted hashing entries.now slots.new }
    ensures ready { OnOk result (HasFreeSlot slots.new (length entries.now)) }
{
    if !slots.is_full(entries.len()) {
        return Ok(());
    }
    *slots = Slots::of(alloc, hashing, entries)?;
    Ok(())
}

// Returns the number of bits of a home for `count` entries, so that at most one home in five is
// used.
fn bits_for(count: usize) -> Option<u32>
    ensures { IfSome result (AreBitsFor count) }
{
    for bits in FEWEST..MOST + 1 {
        if count <= homes(bits) / 5 {
            return Some(bits);
        }
    }
    None
}

// Returns the word by which the network is hashed.
#[inline]
fn word(network: Prefix) -> u64
    ensures { result ≡ network_word network }
{
    u64::from(network.address()) * 256 + u64::from(network.length())
}

// Returns the network's home, the slot at which the search begins: the lowest bits of its hash.
#[inline]
fn home(hashing: WordHash, bits: HomeBits, network: Prefix) -> usize
    ensures value { result ≡ home_of hashing bits network }
    ensures within { result < 2 ^ bits }
{
    bits.home(hashing.hash_word(word(network)))
}

// Returns the number of the network's entry if its index were 0. The tag is made of the highest
// bits of the hash.
#[inline]
fn base(hashing: WordHash, bits: HomeBits, network: Prefix) -> usize
    ensures value { result ≡ base_of hashing bits network }
    ensures some { 2 ≤ result }
    ensures bound { result + 2 ^ bits ≤ 2 ^ 32 + 2 }
{
    bits.tag(hashing.hash_word(word(network))) + FIRST
}

// Returns the number of the network's entry at index `place`.
#[inline]
fn number(hashing: WordHash, bits: HomeBits, network: Prefix, place: usize) -> u32
    requires { place + 3 ≤ 2 ^ bits }
    ensures value { result ≡ base_of hashing bits network + place }
    ensures some { 2 ≤ result }
{
    (base(hashing, bits, network) + place) as u32
}

// A search: its network, its first slot, and the number of the network's entry at index 0.
#[derive(Clone, Copy)]
struct Sought {
    home: usize,
    base: usize,
    network: Prefix,
}

// Searches the slots from the home on, and returns the index of the network's entry.
#[inline]
fn probe<V>(numbers: &[u32], entries: &[(Prefix, V)], sought: Sought) -> Option<usize>
    requires { 2 ≤ sought.base }
    ensures found { IfSome result (λ i. HasNetwork entries.now i sought.network) }
    ensures missing { result ≡ None
        → FindsNothing numbers.now sought.home sought.base entries.now sought.network }
{
    let mut slot = sought.home;
    while slot < numbers.len() {
        let number = numbers[slot];
        if number == EMPTY {
            return None;
        }
        if let Some(place) = named(entries, number, sought.base, sought.network) {
            return Some(place);
        }
        slot += 1;
    }
    None
}

// Returns the index that the number gives, if the network's entry is there.
#[inline]
fn named<V>(entries: &[(Prefix, V)], number: u32, base: usize, network: Prefix) -> Option<usize>
    ensures found { IfSome result (λ i. HasNetwork entries.now i network) }
    ensures missing { result ≡ None → IsOtherNumber number base entries.now network }
{
    // A number below the base gives an index past the end.
    let place = (number as usize).wrapping_sub(base);
    if place < entries.len() && entries[place].0 == network {
        return Some(place);
    }
    None
}

// Returns true if the entry at index `place` is that network's.
#[inline]
pub(crate) fn stands_at<V>(entries: &[(Prefix, V)], place: usize, network: Prefix) -> bool
    ensures { IsTrue result → HasNetwork entries.now place network }
{
    place < entries.len() && entries[place].0 == network
}

// Returns the first free slot from the home on, or the number of slots if there is none.
fn free_from(numbers: &[u32], home: usize) -> usize
    requires { home ≤ length numbers.now }
    ensures { IsFree numbers.now home result }
{
    let mut slot = home;
    while slot < numbers.len() && numbers[slot] > GONE {
        slot += 1;
    }
    slot
}

// Returns the first slot from the home on that has the number.
fn slot_of(numbers: &[u32], home: usize, number: u32) -> usize
    requires some { number ≢ 0 }
    requires placed { IsSlotPlaced numbers.now home number }
    ensures after { home ≤ result }
    ensures within { result < length numbers.now }
    ensures number { slice_index numbers.now result ≡ number }
    ensures filled { (q : ℕ) → home ≤ q → q < result → slice_index numbers.now q ≢ 0 }
{
    let mut slot = home;
    while numbers[slot] != number {
        slot += 1;
    }
    slot
}

// Replaces the number in the first slot from the home on that has it.
fn renumber(numbers: &mut Vec<u32>, home: usize, old: u32, new: u32)
    requires placed { IsSlotPlaced numbers.old.items home old }
    requires old { old ≢ 0 }
    requires new { new ≢ 0 }
    ensures placed { IsSlotPlaced numbers.new.items home new }
    ensures others { KeepsNumbers numbers.old.items numbers.new.items old }
    ensures set { IsRenumbered numbers.old.items numbers.new.items old new }
    ensures length { length numbers.new.items ≡ length numbers.old.items }
{
    let slot = slot_of(numbers.as_slice(), home, old);
    numbers[slot] = new;
}
