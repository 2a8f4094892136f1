//! The choice between offers (RFC 2328, 16.1 to 16.4). Items are offered one by one, each at a key:
//! the least key is chosen, with all items offered at it.
ghost use Rattle.std.specs.Prelude.{◌≡◌, ◌<◌, ◌∷◌, [], None, OnOk, OnErr, IfOk};
ghost use Rattle.std.specs.List.Sorted.{IsStrictlySortedBy};
ghost use Rattle.ospf_types.specs.Hops.{path_cmp};
ghost use Rattle.route_choice.specs.Choices.{HasAlso};
ghost use Rattle.route_choice.specs.Costs.{most_cost};
ghost use Rattle.route_choice.specs.Takes.{TakesOffers, HopsOffer, OnlyOffer, path_over};

use ospf_types::hop::{NextHop, Path};
use ospf_types::memory::Memory;
use smallvec::SmallVec;
use std::alloc::Global;
use std::cmp::{Ordering, Reverse};
use std::default::MadeWith;
use std::marker::Model;

/// An order in which only equal values compare as equal.
pub trait ExactOrd: Ord {
    ghost use Rattle.std.specs.FinMap.{IsAntisymmetric};

    ghost exact: { IsAntisymmetric Self.cmp };
}

impl ExactOrd for Path {
    ghost use Rattle.ospf_types.proofs.Paths.{path_order_exact};

    ghost exact = { path_order_exact };
}

impl ExactOrd for NextHop {
    ghost use Rattle.std.proofs.Common.{sym, subst};
    ghost use Rattle.std.specs.declared.cmp.Ordering.{Ordering};
    ghost use Rattle.std.specs.FinMap.{IsAntisymmetric};
    ghost use Rattle.ospf_types.specs.declared.hop.NextHop.{NextHop as HopValue};
    ghost use Rattle.ospf_types.proofs.Orders.{hop_exact};
    ghost use Rattle.ospf_types.proofs.Paths.{hop_cmp_is};

    ghost exact = { subst (λ (R : HopValue → HopValue → Ordering). IsAntisymmetric R) (sym hop_cmp_is) hop_exact };
}

impl ExactOrd for u32 {
    ghost use Rattle.std.proofs.lemmas.Map.Lookups.{exact_unsigned};

    ghost exact = { exact_unsigned };
}

/// The key of an intra-area route: the lower cost comes first, and at equal costs the greater Area
/// ID (RFC 2328, 16.4).
#[derive(Clone, Copy, PartialEq, Eq, PartialOrd, Ord)]
pub struct AreaCost {
    cost: u32,
    area: Reverse<u32>,
}

impl Model for AreaCost {
    ghost use Rattle.std.specs.Prelude.{◌<◌};
    ghost use Rattle.ospf_types.specs.Intra.{AreaCost as CostInArea};
    ghost use Rattle.route_choice.specs.Costs.{most_cost};

    ghost Value = { CostInArea };

    ghost view = { λ k. (k.cost, k.area.0) };

    ghost invariant = { λ k. k.cost < most_cost };

    ghost inverse = { λ k. record { cost = k.0; area = record { 0 = k.1 } } };
}

impl ExactOrd for AreaCost {
    ghost use Rattle.ospf_types.proofs.Orders.{area_cost_exact};

    ghost exact = { area_cost_exact };
}

impl AreaCost {
    /// Creates the key for a cost, which is a sum of metrics, and an Area ID.
    pub fn new(cost: u32, area: u32) -> AreaCost
        requires { cost < most_cost }
        ensures { result ≡ (cost, area) }
    {
        AreaCost {
            cost,
            area: Reverse(area),
        }
    }

    /// Returns the cost.
    pub fn cost(self) -> u32
        ensures value { result ≡ self.0 }
        ensures bounded { result < most_cost }
    {
        self.cost
    }

    /// Returns the Area ID.
    pub fn area(self) -> u32
        ensures { result ≡ self.1 }
    {
        self.area.0
    }
}

/// The least key of all offers, with the items offered at it in ascending order. One item is stored
/// in the value; more take memory.
pub struct Choice<K, X> {
    key: K,
    items: SmallVec<X, 1>,
}

// proof: a value is dropped by one call, not part by part at each exit of a function.
impl<K: Drop, X: Drop> Drop for Choice<K, X> {
    fn drop(self) {
        let Choice {
            key: _key,
            items: _items,
        } = self;
    }
}

impl<K, X> Model for Choice<K, X> {
    ghost use Rattle.route_choice.specs.Choices.{Chosen};

    ghost Value = { Chosen K X };

    ghost view = { λ c. record { key = c.key; items = c.items.items } };
}

impl<K, X> Choice<K, X> {
    /// Returns the least key.
    pub fn key(&self) -> &K
        ensures { result.now ≡ self.now.key }
    {
        &self.key
    }

    /// Returns the items offered at the key.
    pub fn items(&self) -> &[X]
        ensures { result.now ≡ self.now.items }
    {
        self.items.as_slice()
    }

    /// Returns the key and the items offered at it.
    pub fn into_parts(self) -> (K, SmallVec<X, 1>)
        ensures key { result.0 ≡ self.key }
        ensures items { result.1.items ≡ self.items }
    {
        let Choice { key, items } = self;
        (key, items)
    }
}

impl<K: ExactOrd + Drop, X: ExactOrd + Drop + MadeWith<Global>> Choice<K, X> {
    // Returns the choice after the first offer.
    fn of(alloc: Global, key: K, item: X) -> Result<Choice<K, X>, Memory>
        ensures { IfOk result (λ choice. choice ≡ record { key = key; items = item ∷ [] }) }
    {
        let mut items = SmallVec::new(alloc);
        items.push(item)?;
        Ok(Choice { key, items })
    }

    // Adds an offer. A lower key replaces the choice, an equal key adds the item, and a greater key
    // changes nothing.
    fn offer(&mut self, alloc: Global, key: K, item: X) -> Result<(), Memory>
        ensures lesser { OnOk result (K.cmp key self.old.key ≡ Ordering.Less → self.new ≡ record { key = key; items = item ∷ [] }) }
        ensures tied { OnOk result (K.cmp key self.old.key ≡ Ordering.Equal → (self.new.key ≡ self.old.key) × HasAlso self.old.items item self.new.items) }
        ensures greater { OnOk result (K.cmp key self.old.key ≡ Ordering.Greater → self.new ≡ self.old) }
        ensures in_order { OnOk result (IsStrictlySortedBy X.cmp self.old.items → IsStrictlySortedBy X.cmp self.new.items) }
        ensures err { OnErr result (self.new ≡ self.old) }
    {
        match key.cmp(&self.key) {
            Ordering::Less => {
                *self = Choice::of(alloc, key, item)?;
                Ok(())
            }
            Ordering::Equal => {
                add_in_order(&mut self.items, item)?;
                Ok(())
            }
            Ordering::Greater => Ok(()),
        }
    }
}

// Inserts the item at its place in the order, unless the list has it.
fn add_in_order<X: ExactOrd + Drop + MadeWith<Global>>(
    items: &mut SmallVec<X, 1>,
    item: X,
) -> Result<(), Memory>
    ensures added { OnOk result (HasAlso items.old.items item items.new.items) }
    ensures in_order { OnOk result (IsStrictlySortedBy X.cmp items.old.items → IsStrictlySortedBy X.cmp items.new.items) }
    ensures err { OnErr result (items.new.items ≡ items.old.items) }
{
    match items.as_slice().binary_search(&item) {
        Ok(_) => Ok(()),
        Err(place) => Ok(items.insert(place, item)?),
    }
}

/// The best of the offers so far.
#[derive(Drop)]
pub struct Best<K, X> {
    alloc: Global,
    choice: Option<Choice<K, X>>,
}

impl<K, X> Model for Best<K, X> {
    ghost use Rattle.std.specs.Prelude.{Option};
    ghost use Rattle.route_choice.specs.Choices.{Chosen};

    ghost Value = { Option (Chosen K X) };

    ghost view = { λ b. b.choice };
}

impl<K: ExactOrd + Drop, X: ExactOrd + Drop + MadeWith<Global>> Best<K, X> {
    /// Creates the value for no offers.
    pub fn new(alloc: Global) -> Best<K, X>
        ensures { result ≡ None }
    {
        Best {
            alloc,
            choice: None,
        }
    }

    /// Adds an offer.
    pub fn offer(&mut self, key: K, item: X) -> Result<(), Memory>
        ensures ok { OnOk result (TakesOffers K.cmp X.cmp (OnlyOffer key item) self.old self.new) }
        ensures err { OnErr result (self.new ≡ self.old) }
    {
        match &mut self.choice {
            Some(choice) => {
                choice.offer(self.alloc, key, item)?;
                Ok(())
            }
            None => {
                self.choice = Some(Choice::of(self.alloc, key, item)?);
                Ok(())
            }
        }
    }

    /// Returns the choice, or `None` if there were no offers.
    pub fn into_choice(self) -> Option<Choice<K, X>>
        ensures { result ≡ self }
    {
        self.choice
    }
}

/// Offers a path over each of the next hops, all at the same key. `advertiser` is the border router
/// that advertised the path, if any.
///
/// # Errors
///
/// Returns `Memory` if memory runs out. Some paths are then offered and others are not.
pub fn offer_hops<K: ExactOrd + Copy + Drop>(
    best: &mut Best<K, Path>,
    key: K,
    advertiser: Option<u32>,
    hops: &[NextHop],
) -> Result<(), Memory>
    ensures { OnOk result (TakesOffers K.cmp path_cmp (HopsOffer hops.now advertiser key)
        best.old best.new) }
{
    for hop in hops {
        offer_hop(best, key, advertiser, *hop)?;
    }
    Ok(())
}

/// Offers a path over the next hop, as `offer_hops` does.
pub fn offer_hop<K: ExactOrd + Copy + Drop>(
    best: &mut Best<K, Path>,
    key: K,
    advertiser: Option<u32>,
    hop: NextHop,
) -> Result<(), Memory>
    ensures { OnOk result (TakesOffers K.cmp path_cmp (OnlyOffer key (path_over advertiser hop))
        best.old best.new) }
{
    best.offer(key, Path { hop, advertiser })
}
