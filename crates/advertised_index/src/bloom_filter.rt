//! A coarse set of numbers, which shows at little cost that a number was not put in.
//!
//! It has 4,096 marks. Most networks have neither a summary-LSA nor an AS-external-LSA, and without
//! the filter the answer took three times as long on a border router, when measured. A mark stays
//! when the last number with it is removed.
ghost use Rattle.std.specs.Prelude.{◌≡◌, ◌<◌, ◌↔◌, ℕ, IsTrue, OnOk};
ghost use Rattle.advertised_index.specs.BloomFilter.{IsMarked, place_of};

use ospf_types::WordHash;
use ospf_types::memory::Memory;
use std::alloc::Global;
use std::hash::RandomState;

// The number of marks. Several numbers share a mark.
const PLACES: usize = 4096;

/// A coarse set of numbers. It has each number that was put in, and may have others. The first
/// number allocates all its memory.
pub(crate) struct BloomFilter {
    hashing: WordHash,
    marks: Vec<bool>,
}

// proof: a value is dropped by one call, not part by part at each exit of a function.
impl Drop for BloomFilter {
    fn drop(self) {
        let BloomFilter {
            hashing: _,
            marks: _marks,
        } = self;
    }
}

impl BloomFilter {
    pub(crate) fn new(alloc: Global, hashing: RandomState) -> BloomFilter {
        BloomFilter {
            hashing: WordHash::new(hashing),
            marks: Vec::new(alloc),
        }
    }

    /// Adds the number.
    pub(crate) fn put(&mut self, number: u32) -> Result<(), Memory>
        ensures kept { (n : ℕ) → IsMarked self.old n → IsMarked self.new n }
        ensures there { OnOk result (IsMarked self.new number) }
    {
        self.marks.resize(PLACES, false)?;
        let place = self.place(number);
        self.marks[place] = true;
        Ok(())
    }

    /// Returns true if the number is in the set, which may have more numbers than were put in.
    pub(crate) fn has(&self, number: u32) -> bool
        ensures { IsTrue result ↔ IsMarked self.now number }
    {
        // An empty set need not hash the number.
        if self.marks.is_empty() {
            return false;
        }
        match self.marks.get(self.place(number)) {
            Some(mark) => *mark,
            None => false,
        }
    }

    pub(crate) fn clear(&mut self) {
        self.marks.clear();
    }

    // Returns the index of the number's mark.
    fn place(&self, number: u32) -> usize
        ensures value { result ≡ place_of self.now number }
        ensures bounded { result < 4096 }
    {
        (self.hashing.hash_word(u64::from(number)) % 4096) as usize
    }
}
