//! A set of next hops.
ghost use Rattle.std.specs.Prelude.{◌≡◌, ◌≤◌, ◌+◌, ◌<◌, ◌↔◌, ◌⊎◌, [], length, IsTrue, IsOk, IfOk};
ghost use Rattle.std.specs.Prelude.{IfErr, OnOk, OnErr, Contains, insert, true};
ghost use Rattle.std.specs.List.Sorted.{IsStrictlySortedBy};
ghost use Rattle.std.specs.Set.{sorted_merge};
ghost use Rattle.ospf_types.specs.Hops.{hop_cmp};

use ospf_types::hop::NextHop;
use ospf_types::memory::Memory;
use smallvec::SmallVec;
use std::alloc::Global;
use std::cmp::Ordering;
use std::marker::Model;

/// A set of next hops, in ascending order. Up to two are stored in the value; more take memory.
pub struct HopSet {
    items: SmallVec<NextHop, 2>,
}

// proof: a value is dropped by one call, not part by part at each exit of a function.
impl Drop for HopSet {
    fn drop(self) {
        let HopSet { items: _items } = self;
    }
}

impl Model for HopSet {
    ghost use Rattle.std.specs.Prelude.{List, ◌≤◌};
    ghost use Rattle.std.specs.List.Sorted.{IsStrictlySortedBy};
    ghost use Rattle.ospf_types.specs.declared.hop.NextHop.{NextHop};
    ghost use Rattle.ospf_types.specs.Hops.{hop_cmp};

    ghost Value = { List NextHop };

    ghost view = { λ s. s.items.items };

    ghost invariant = { λ s. IsStrictlySortedBy hop_cmp s.items.items × (2 ≤ s.items.capacity) };
}

impl HopSet {
    /// Creates an empty set, which allocates no memory.
    #[tactic(auto, using(crate::proofs::Empty::empty_in_order))]
    pub fn new(alloc: Global) -> HopSet
        ensures { result ≡ [] }
    {
        HopSet {
            items: SmallVec::new(alloc),
        }
    }

    /// Returns the next hops, in the order of kind, interface and address.
    pub fn as_slice(&self) -> &[NextHop]
        ensures value { result.now ≡ self.now }
        ensures in_order { IsStrictlySortedBy hop_cmp self.now }
    {
        self.items.as_slice()
    }

    /// Returns the number of next hops.
    pub fn len(&self) -> usize
        ensures { result ≡ length self.now }
    {
        self.items.len()
    }

    /// Returns true if the set has no next hops.
    pub fn is_empty(&self) -> bool
        ensures { IsTrue result ↔ (self.now ≡ []) }
    {
        self.items.is_empty()
    }

    /// Returns true if the set has the next hop.
    pub fn contains(&self, hop: NextHop) -> bool
        ensures { IsTrue result ↔ Contains self.now hop }
    {
        place_of(self.as_slice(), hop).is_ok()
    }

    /// Returns true if both sets have the same next hops.
    pub fn is_same(&self, other: &HopSet) -> bool
        ensures { IsTrue result ↔ (self.now ≡ other.now) }
    {
        self.as_slice() == other.as_slice()
    }

    /// Adds the next hop, unless the set has it.
    ///
    /// # Errors
    ///
    /// Returns `Memory` if there is no memory for a third or later next hop. The set is then
    /// unchanged.
    pub fn put(&mut self, hop: NextHop) -> Result<(), Memory>
        ensures added { OnOk result ((h : NextHop) → Contains self.new h ↔ (Contains self.old h ⊎ (h ≡ hop))) }
        ensures unchanged { OnErr result (self.new ≡ self.old) }

        // Only a third or later next hop takes memory.
        ensures few { length self.old < 2 → IsOk result }
        ensures there { Contains self.old hop → IsOk result }
    {
        match place_of(self.as_slice(), hop) {
            Ok(_) => Ok(()),
            Err(place) => Ok(self.items.insert(place, hop)?),
        }
    }

    /// Adds the next hops of another set, in time linear in the size of both.
    ///
    /// # Errors
    ///
    /// Returns `Memory` if memory runs out. The set is then unchanged.
    pub fn unite(&mut self, other: &HopSet) -> Result<(), Memory>
        ensures united { OnOk result ((h : NextHop) → Contains self.new h ↔ (Contains self.old h ⊎ Contains other.now h)) }
        ensures unchanged { OnErr result (self.new ≡ self.old) }

        // A set of two next hops takes no memory.
        ensures few { length self.old + length other.now < 3 → IsOk result }
    {
        let alloc = *self.items.allocator();
        self.items = merged(alloc, self.as_slice(), other.as_slice())?;
        Ok(())
    }

    /// Returns a copy of the set. A copy of up to two next hops takes no memory.
    pub fn copy(&self) -> Result<HopSet, Memory>
        ensures same { IfOk result (λ set. set ≡ self.now) }
        ensures few { length self.now < 3 → IsOk result }
    {
        let mut items = SmallVec::new(*self.items.allocator());
        items.extend_from_slice(self.as_slice())?;
        Ok(HopSet { items })
    }

    /// Removes all next hops. The set keeps its memory.
    #[tactic(auto, using(crate::proofs::Empty::empty_in_order))]
    pub fn clear(&mut self)
        ensures { self.new ≡ [] }
    {
        self.items.clear();
    }
}

// Returns the index of the hop, or the index where it has to be inserted.
fn place_of(items: &[NextHop], hop: NextHop) -> Result<usize, usize>
    requires { IsStrictlySortedBy hop_cmp items.now }
    ensures found { IsOk result ↔ Contains items.now hop }
    ensures within { IfErr result (λ place. place ≤ length items.now) }
    ensures in_order { IfErr result (λ place. IsStrictlySortedBy hop_cmp (insert items.now place hop)) }
{
    items.binary_search(&hop)
}

// Returns the hops of both lists, in ascending order without duplicates.
fn merged(
    alloc: Global,
    left: &[NextHop],
    right: &[NextHop],
) -> Result<SmallVec<NextHop, 2>, Memory>
    ensures both { IfOk result (λ all. all.items ≡ sorted_merge hop_cmp true left.now right.now) }
    ensures room { IfOk result (λ all. 2 ≤ all.capacity) }
    ensures few { length left.now + length right.now < 3 → IsOk result }
{
    let mut all = SmallVec::new(alloc);
    let (mut left, mut right) = (left, right);
    while let [x, more_left @ ..] = left {
        let [y, more_right @ ..] = right else {
            break;
        };
        match x.compare(*y) {
            Ordering::Less => {
                all.push(*x)?;
                left = more_left;
            }
            Ordering::Equal => {
                all.push(*x)?;
                left = more_left;
                right = more_right;
            }
            Ordering::Greater => {
                all.push(*y)?;
                right = more_right;
            }
        }
    }
    all.extend_from_slice(left)?;
    all.extend_from_slice(right)?;
    Ok(all)
}
