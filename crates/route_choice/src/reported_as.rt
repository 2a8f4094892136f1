//! The form in which changed keys are reported.
ghost use Rattle.std.specs.Prelude.{◌≡◌};

use crate::keys::ResultKey;
use ospf_types::key::Dest;
use ospf_types::prefix::Prefix;

/// A type in which a layer reports keys whose result changed. A network can be reported as a
/// destination.
pub trait ReportedAs<K> {
    ghost reported_as: { K → Self };

    /// Returns the reported form of the key.
    fn reported(key: K) -> Self
        ensures { result ≡ reported_as key };
}

impl<K: ResultKey> ReportedAs<K> for K {
    ghost reported_as = { λ key. key };

    fn reported(key: K) -> K {
        key
    }
}

impl ReportedAs<Prefix> for Dest {
    ghost use Rattle.ospf_types.specs.declared.key.Dest.TheVariants.{Net};

    ghost reported_as = { λ network. Net network };

    fn reported(key: Prefix) -> Dest {
        Dest::Net(key)
    }
}
