//! The reason why a lookup failed.
ghost use Rattle.std.specs.Prelude.{◌≡◌};
ghost use Rattle.publication.specs.LookupError.{forwarder_in};

use crate::forwarder::Forwarder;
use crate::token::Told;

/// The reason why a lookup failed. It holds the forwarder, which is unchanged.
#[derive(Drop)]
pub enum LookupError {
    /// The published table could not be entered.
    NoEntry(Forwarder),
    /// The published history is shorter than the history that the forwarder knows. The token is for
    /// the published one.
    Shorter(Forwarder, Told),
}

impl LookupError {
    /// Returns the forwarder.
    pub fn into_forwarder(self) -> Forwarder
        ensures { result ≡ forwarder_in self }
    {
        match self {
            LookupError::NoEntry(forwarder) => forwarder,
            LookupError::Shorter(forwarder, _told) => forwarder,
        }
    }
}
