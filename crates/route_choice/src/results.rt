//! A map of results that is updated key by key.
//!
//! A layer of routes keeps its results in a `ResultMap`: an entry for each network, or a preferred
//! route for each AS boundary router. The result at a key is the best of what the layers below
//! offer to it (RFC 2328, 16), or `None` if nothing is offered. When something below the layer
//! changes, the layer lists the keys that may be affected and calls `follow`:
//!
//! ```text
//!  layer below            this layer                                   layer above
//!  changed results ─────> keys that may be affected
//!                               │ follow: `Choose::choose` at each key
//!                               ▼
//!                         new results ──── keys whose result changed ────> ..
//! ```
//!
//! All other keys are offered the same as before, so their results are still right. Afterwards the
//! map has the results that a build would give. Recomputing a key whose result stays the same has
//! no effect on the layer above.
//!
//! If memory runs out, some results are recomputed and others are not. The layer is then spent: it
//! has to be built again.
//!
//! A layer itself defines only its offers, and the keys to list. Inter-area and external routes use
//! `follow`. Intra-area routes use `choose_each`, with keys that are sorted already and reported as
//! destinations.
ghost use Rattle.std.specs.Prelude.{◌≡◌, ◌≢◌, ◌++◌, [], IfOk, IfSome, IsSome, OnOk, OnErr};
ghost use Rattle.std.specs.Prelude.{option_copied};
ghost use Rattle.std.specs.List.{AllPairs};
ghost use Rattle.std.specs.List.Sorted.{IsStrictlySortedBy};
ghost use Rattle.route_choice.specs.Lists.{ListsExactly};
ghost use Rattle.std.specs.Map.{keys_of};
ghost use Rattle.std.specs.Option.{option_to_list};
ghost use Rattle.route_choice.specs.Results.{AreKeysOf, AreResults, OthersUnchanged};
ghost use Rattle.route_choice.specs.Results.{ReportsDifference, ReportsSame, result_at, result_in};
ghost use Rattle.route_choice.specs.Chosen.{AreChosen, AreRechosen, AreChosenExcept, HasChanged};
ghost use Rattle.route_choice.specs.Chosen.{IsRechosen};

use crate::choose::Choose;
use crate::entry_positions::{exchange, place_of};
use crate::keys::{ResultKey, sorted_unique};
use crate::reported_as::ReportedAs;
use crate::same::Same;
use indexmap::IndexMap;
use indexmap::map::Slice;
use ospf_types::WordHash;
use ospf_types::memory::Memory;
use std::alloc::Global;
use std::hash::{Hash, RandomState};
use std::marker::Model;

/// A map from keys to results, in which single results can be recomputed.
pub struct ResultMap<K: Eq + Hash, V> {
    entries: IndexMap<K, V, WordHash>,
    // The indices in `entries` of the results that the last change replaced, in key order. There
    // are no more of them than results. They are hints: no result of a call depends on them.
    left: Vec<usize>,
}

// proof: a value is dropped by one call, not part by part at each exit of a function.
impl<K: Eq + Hash + Drop, V: Drop> Drop for ResultMap<K, V> {
    fn drop(self) {
        let ResultMap {
            entries: _entries,
            left: _left,
        } = self;
    }
}

impl<K: Eq + Hash, V> Model for ResultMap<K, V> {
    ghost use Rattle.route_choice.specs.Results.{Results, results_code};
    ghost use Rattle.std.specs.Prelude.{◌≤◌, length};

    ghost Value = { Results K V };

    ghost coded = { results_code K.code V.code };

    ghost view = { λ r. record { entries = r.entries.entries } };

    ghost invariant = { λ r. length r.left.items ≤ length r.entries.entries };
}

impl<K: ResultKey, V: Same + Drop> ResultMap<K, V> {
    /// Creates an empty map. `hashing` supplies the keys of its hash function.
    pub fn new(alloc: Global, hashing: RandomState) -> ResultMap<K, V>
        ensures { result.entries ≡ [] }
    {
        ResultMap::with_hasher(alloc, WordHash::new(hashing))
    }

    /// Creates an empty map that uses the given hash function.
    pub fn with_hasher(alloc: Global, hashing: WordHash) -> ResultMap<K, V>
        ensures { result.entries ≡ [] }
    {
        ResultMap {
            entries: IndexMap::with_hasher(alloc, hashing),
            left: Vec::new(alloc),
        }
    }

    /// Returns the result at the key.
    pub fn get(&self, key: K) -> Option<&V>
        ensures value { option_copied result ≡ result_at K.order self.now key }
    {
        // An empty map need not hash the key.
        if self.entries.is_empty() {
            return None;
        }
        self.entries.get(&key)
    }

    /// Returns the result at the key, as `get` does, but usually without hashing it.
    ///
    /// It is for callers that look up, in ascending order, the keys that the last change returned.
    /// They pass the same `next` each time, 0 at first.
    pub fn get_with_hint(&self, key: K, next: &mut usize) -> Option<&V>
        ensures value { option_copied result ≡ result_at K.order self.now key }
    {
        match self.entries.get_index(self.left_at(*next)) {
            Some((standing, result)) if *standing == key => {
                *next = next.saturating_add(1);
                Some(result)
            }
            // The result that was here has moved, or has been removed.
            Some((standing, _)) if *standing < key => {
                *next = next.saturating_add(1);
                self.get(key)
            }
            _ => self.get(key),
        }
    }

    /// Returns a copy of the keys, in no stated order.
    ///
    /// # Errors
    ///
    /// Returns `Memory` if memory runs out.
    pub fn keys(&self, alloc: Global) -> Result<Vec<K>, Memory>
        ensures exact { IfOk result (λ keys. AreKeysOf K.order self.now keys.items) }
        ensures each_once { IfOk result (λ keys. AllPairs (λ j k. j ≢ k) keys.items) }
    {
        let keys = Vec::from_slice(alloc, self.key_slice())?;
        Ok(keys)
    }

    /// Returns the keys, in no stated order.
    pub fn key_slice(&self) -> &[K]
        ensures exact { AreKeysOf K.order self.now result.now }
        ensures each_once { AllPairs (λ j k. j ≢ k) result.now }
    {
        self.entries.keys().as_slice()
    }

    /// Returns the keys with their results, in no stated order.
    pub fn entries(&self) -> Slice<'_, K, V>
        ensures exact { AreResults K.order self.now result }
        ensures keys { AreKeysOf K.order self.now (keys_of result) }
        ensures each_once { AllPairs (λ j k. j ≢ k) (keys_of result) }
    {
        self.entries.as_slice()
    }

    /// Sets the result at the key, or removes it if `fresh` is `None`. Returns true if it differs
    /// from the previous result.
    ///
    /// # Errors
    ///
    /// Returns `Memory` if memory runs out. The results are then unchanged.
    pub fn update(&mut self, key: K, fresh: Option<V>) -> Result<bool, Memory>
        ensures here { OnOk result (result_at K.order self.new key ≡ fresh) }
        ensures others { OnOk result (OthersUnchanged (result_at K.order self.old)
            (result_at K.order self.new) key) }
        ensures differs { IfOk result (ReportsDifference (result_at K.order self.old)
            (result_at K.order self.new) key) }
        ensures stays { IfOk result (ReportsSame (result_at K.order self.old)
            (result_at K.order self.new) key) }
        ensures err { OnErr result (self.new.entries ≡ self.old.entries) }
    {
        self.left.clear();
        let place = place_of(&self.entries, key);
        exchange(&mut self.entries, place, key, fresh)
    }

    /// Recomputes the results at the keys, and returns the keys whose result changed, in ascending
    /// order without duplicates.
    ///
    /// `keys` must list every key whose result may be out of date. All results are right
    /// afterwards.
    ///
    /// # Errors
    ///
    /// Returns `Memory` if memory runs out. Some results are then recomputed and others are not, so
    /// the caller has to build the map again.
    pub fn follow<R: Choose<K, V>>(
        &mut self,
        alloc: Global,
        keys: Vec<K>,
        by: &R,
    ) -> Result<Vec<K>, Memory>
        requires { AreChosenExcept (R.IsChosen by.now) keys.items (result_at K.order self.old) }
        ensures chosen { OnOk result (AreChosen (R.IsChosen by.now) (result_at K.order self.new)) }
        ensures in_order { IfOk result (λ others. IsStrictlySortedBy K.order others.items) }
        ensures exact { IfOk result (λ others.
            ListsExactly (HasChanged (result_at K.order self.old) (result_at K.order self.new))
            others.items) }
    {
        let keys = sorted_unique(keys);
        let mut others = Vec::new(alloc);
        self.choose_each(alloc, &keys, by, &mut others)?;
        Ok(others)
    }

    /// Recomputes the results at the keys, which are in ascending order without duplicates, and
    /// appends to `told` the keys whose result changed. `told` is empty at first. A network can be
    /// appended as a destination.
    ///
    /// # Errors
    ///
    /// Returns `Memory` if memory runs out. Some results are then recomputed and others are not.
    pub fn choose_each<R: Choose<K, V>, N: ReportedAs<K> + Drop>(
        &mut self,
        alloc: Global,
        keys: &[K],
        by: &R,
        told: &mut Vec<N>,
    ) -> Result<(), Memory>
        requires in_order { IsStrictlySortedBy K.order keys.now }
        requires none { told.old.items ≡ [] }
        ensures { OnOk result (AreRechosen K.order (R.IsChosen by.now) N.reported_as
            (result_at K.order self.old) (result_at K.order self.new) keys.now told.new.items) }
    {
        self.left.truncate(0);
        for key in keys {
            let place = choose_one(&mut self.entries, alloc, *key, by, told)?;
            leave(&mut self.left, place)?;
        }
        Ok(())
    }

    /// Removes all results.
    pub fn clear(&mut self)
        ensures { self.new.entries ≡ [] }
    {
        self.left.clear();
        self.entries.clear();
    }

    // Returns the index of the result that the last change replaced as number `next`, or an index
    // past the end.
    fn left_at(&self, next: usize) -> usize {
        self.left.get(next).copied().unwrap_or(usize::MAX)
    }
}

// Recomputes the result at the key, and appends the key to `told` if its result changed. Returns
// the place of the new result, if it changed and there is one.
//
// The results at all other keys are unchanged, even if memory runs out.
fn choose_one<K: ResultKey, V: Same + Drop, R: Choose<K, V>, N: ReportedAs<K> + Drop>(
    entries: &mut IndexMap<K, V, WordHash>,
    alloc: Global,
    key: K,
    by: &R,
    told: &mut Vec<N>,
) -> Result<Option<usize>, Memory>
    ensures chosen { OnOk result (IsRechosen (R.IsChosen by.now) N.reported_as
        (result_in K.order entries.old.entries) (result_in K.order entries.new.entries)
        key told.old.items told.new.items) }
    ensures stands { IfOk result (λ place.
        IfSome place (λ _. IsSome (result_in K.order entries.new.entries key))) }
    ensures others { OthersUnchanged (result_in K.order entries.old.entries)
        (result_in K.order entries.new.entries) key }
{
    let place = place_of(entries, key);
    let at = place.unwrap_or(entries.len());
    let fresh = by.choose(alloc, key, standing(entries, at))?;
    let stands = fresh.is_some();
    if !exchange(entries, place, key, fresh)? {
        return Ok(None);
    }
    told.push(N::reported(key))?;
    Ok(stands.then_some(at))
}

// Appends the place of a result that was added or replaced, if there is one.
fn leave(left: &mut Vec<usize>, place: Option<usize>) -> Result<(), Memory>
    ensures ok { OnOk result (left.new.items ≡ left.old.items ++ option_to_list place) }
    ensures err { OnErr result (left.new.items ≡ left.old.items) }
{
    if let Some(place) = place {
        left.push(place)?;
    }
    Ok(())
}

// Returns the result at the place.
fn standing<K: Eq + Hash, V>(entries: &IndexMap<K, V, WordHash>, place: usize) -> Option<&V> {
    match entries.get_index(place) {
        Some((_, result)) => Some(result),
        None => None,
    }
}
