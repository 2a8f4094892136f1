//! The keys of results, and their order.
ghost use Rattle.std.specs.Prelude.{Contains};
ghost use Rattle.std.specs.List.Sorted.{IsStrictlySortedBy};
ghost use Rattle.route_choice.specs.Lists.{ListsExactly};

use ospf_types::key::{Dest, Key};
use ospf_types::prefix::Prefix;
use std::hash::Hash;

/// A type of keys. Only equal keys compare as equal in its order.
pub trait ResultKey: Hash + Ord + Copy {
    ghost use Rattle.std.specs.Prelude.{◌≡◌};
    ghost use Rattle.std.specs.declared.cmp.Ordering.{Ordering};
    ghost use Rattle.std.specs.FinMap.{IsAntisymmetric};

    // The order of the keys, under the name that the definitions use.
    ghost order: { Self → Self → Ordering };

    ghost ordered: { Self.cmp ≡ order };

    ghost exact: { IsAntisymmetric Self.cmp };
}

impl ResultKey for Prefix {
    ghost use Rattle.ospf_types.specs.Network.{network_cmp};
    ghost use Rattle.ospf_types.proofs.Orders.{network_exact};
    ghost use Rattle.ospf_types.proofs.DerivedOrders.{network_cmp_is};

    ghost order = { network_cmp };

    ghost ordered = { network_cmp_is };

    ghost exact = { network_exact };
}

impl ResultKey for Dest {
    ghost use Rattle.ospf_types.specs.Keys.{dest_cmp};
    ghost use Rattle.ospf_types.proofs.DerivedOrders.{dest_cmp_is, dest_order_exact};

    ghost order = { dest_cmp };

    ghost ordered = { dest_cmp_is };

    ghost exact = { dest_order_exact };
}

impl ResultKey for Key {
    ghost use Rattle.ospf_types.specs.Keys.{key_cmp};
    ghost use Rattle.ospf_types.proofs.Orders.{key_exact};
    ghost use Rattle.ospf_types.proofs.DerivedOrders.{key_cmp_is};

    ghost order = { key_cmp };

    ghost ordered = { key_cmp_is };

    ghost exact = { key_exact };
}

impl ResultKey for u32 {
    ghost use Rattle.std.specs.Prelude.{refl};
    ghost use Rattle.std.specs.Ordering.{nat_cmp};
    ghost use Rattle.std.proofs.lemmas.Map.Lookups.{exact_unsigned};

    ghost order = { nat_cmp };

    ghost ordered = { refl };

    ghost exact = { exact_unsigned };
}

/// Sorts the keys and removes duplicates.
pub fn sorted_unique<K: ResultKey>(mut keys: Vec<K>) -> Vec<K>
    ensures in_order { IsStrictlySortedBy K.order result.items }
    ensures same { ListsExactly (Contains keys.items) result.items }
{
    keys.sort_unstable();
    keys.dedup();
    keys
}
