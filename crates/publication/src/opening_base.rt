//! The base that an engine was opened with, for contracts only.
ghost use Rattle.std.specs.Prelude.{◌≡◌};

use event_state::Base;
use logbook::{Opening, Rule, Seen, Start};
use std::marker::Model;

/// The rule of a log with one entry, to which nothing is added.
pub struct BaseRule;

impl Rule<Base, u64> for BaseRule {
    ghost use Rattle.std.specs.Prelude.{[]};
    ghost use base.Fml.{ftrue};

    ghost holds = { λ cells log. Unit {0} };

    ghost first = { [] };

    ghost hinted = { λ n log. Unit {0} };

    ghost shows = { λ log. [] };

    ghost keeps = { λ names log. ftrue };

    ghost moves = { λ ask before after answer. Unit {0} };
}

impl Opening<Base, Base> for BaseRule {
    ghost use Rattle.std.specs.Prelude.{[], ◌∷◌};

    ghost log = { λ n base. base ∷ [] };
}

/// The base that an engine was opened with. It has no bytes, and can be copied.
#[derive(Drop)]
pub struct OpeningBase {
    seen: Seen<Base, u64, BaseRule>,
}

impl Model for OpeningBase {
    ghost use Rattle.event_state.specs.declared.base.Base.{Base};
    ghost use Rattle.publication.specs.OpeningBases.{base_in};

    ghost Value = { Base };

    ghost view = { λ s. base_in s.seen.log };
}

impl OpeningBase {
    /// Creates the value for this base.
    pub fn of(base: &Base) -> OpeningBase
        ensures { result ≡ base.now }
    {
        let (seen, _pens) = Seen::open_row::<Base, BaseRule>(base, Start::alone(), 0);
        OpeningBase { seen }
    }

    /// Returns a copy.
    pub fn again(&self) -> OpeningBase
        ensures { result ≡ self.now }
    {
        OpeningBase {
            seen: self.seen.again(),
        }
    }
}
