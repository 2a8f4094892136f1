//! The places of results among the entries, so that recomputing a result hashes its key once.
ghost use Rattle.std.specs.Prelude.{◌≡◌, ◌↔◌, None, Some, IfNone, IfOk, IfSome, IsTrue, OnErr};
ghost use Rattle.std.specs.Prelude.{OnOk};
ghost use Rattle.route_choice.specs.Results.{OthersUnchanged, StandsAt, ReportsDifference};
ghost use Rattle.route_choice.specs.Results.{ReportsSame, result_in};

use crate::keys::ResultKey;
use crate::same::Same;
use indexmap::IndexMap;
use ospf_types::WordHash;
use ospf_types::memory::Memory;

/// Returns the place of the result at the key, or `None` if it has no result.
pub(crate) fn place_of<K: ResultKey, V>(entries: &IndexMap<K, V, WordHash>, key: K) -> Option<usize>
    ensures at { IfSome result (StandsAt K.order entries.now.entries key) }
    ensures none { IfNone result (result_in K.order entries.now.entries key ≡ None) }
{
    // An empty map need not hash the key.
    if entries.is_empty() {
        return None;
    }
    match entries.get_full(&key) {
        Some((place, _, _)) => Some(place),
        None => None,
    }
}

/// Sets the result at the key, or removes it if `fresh` is `None`. `place` is the result of
/// `place_of`. Returns true if the result differs from the previous one.
///
/// If memory runs out, the entries are unchanged.
pub(crate) fn exchange<K: ResultKey, V: Same + Drop>(
    entries: &mut IndexMap<K, V, WordHash>,
    place: Option<usize>,
    key: K,
    fresh: Option<V>,
) -> Result<bool, Memory>
    requires at { IfSome place (StandsAt K.order entries.old.entries key) }
    requires none { IfNone place (result_in K.order entries.old.entries key ≡ None) }
    ensures here { OnOk result (result_in K.order entries.new.entries key ≡ fresh) }
    ensures others { OnOk result (OthersUnchanged (result_in K.order entries.old.entries)
        (result_in K.order entries.new.entries) key) }
    ensures differs { IfOk result (ReportsDifference (result_in K.order entries.old.entries)
        (result_in K.order entries.new.entries) key) }
    ensures stays { IfOk result (ReportsSame (result_in K.order entries.old.entries)
        (result_in K.order entries.new.entries) key) }
    ensures err { OnErr result (entries.new.entries ≡ entries.old.entries) }
{
    match (place, fresh) {
        (Some(place), Some(fresh)) => Ok(write(entries, place, key, fresh)),
        (Some(place), None) => {
            take_out(entries, place, key);
            Ok(true)
        }
        (None, Some(fresh)) => {
            entries.insert(key, fresh)?;
            Ok(true)
        }
        (None, None) => Ok(false),
    }
}

// Replaces the result of the key, which is at the place. Returns true if it differs from the
// previous one.
fn write<K: ResultKey, V: Same + Drop>(
    entries: &mut IndexMap<K, V, WordHash>,
    place: usize,
    key: K,
    fresh: V,
) -> bool
    requires { StandsAt K.order entries.old.entries key place }
    ensures here { result_in K.order entries.new.entries key ≡ Some fresh }
    ensures others { OthersUnchanged (result_in K.order entries.old.entries)
        (result_in K.order entries.new.entries) key }
    ensures differs { ReportsDifference (result_in K.order entries.old.entries)
        (result_in K.order entries.new.entries) key result }
    ensures stays { ReportsSame (result_in K.order entries.old.entries)
        (result_in K.order entries.new.entries) key result }
{
    let stays = stands_at(entries, place, key, &fresh);
    // proof: the map's invariant, that no key has two entries, is known by this call.
    let _ = entries.len();
    // An equal result is written too, because it may have other hints than the old one.
    entries[place] = fresh;
    !stays
}

// Returns true if the result of the key, which is at the place, is equal to `fresh`.
fn stands_at<K: ResultKey, V: Same>(
    entries: &IndexMap<K, V, WordHash>,
    place: usize,
    key: K,
    fresh: &V,
) -> bool
    requires { StandsAt K.order entries.now.entries key place }
    ensures { IsTrue result ↔ (result_in K.order entries.now.entries key ≡ Some fresh.now) }
{
    match entries.get_index(place) {
        Some((_, standing)) => standing.is_same(fresh),
        None => false,
    }
}

// Removes the result of the key, which is at the place. The last entry moves to that place.
fn take_out<K: ResultKey, V: Drop>(entries: &mut IndexMap<K, V, WordHash>, place: usize, key: K)
    requires { StandsAt K.order entries.old.entries key place }
    ensures here { result_in K.order entries.new.entries key ≡ None }
    ensures others { OthersUnchanged (result_in K.order entries.old.entries)
        (result_in K.order entries.new.entries) key }
{
    match entries.swap_remove_index(place) {
        Some(_taken) => {}
        None => {}
    }
}
