//! The settings that a recording of a capture starts with.
ghost use Rattle.std.specs.Prelude.{◌≡◌, Some};

use captured_lsas::Options;
use std::hash::RandomState;
use std::marker::Model;

/// The settings that a recording starts with.
#[derive(Drop)]
pub(crate) struct Start {
    /// The key of the hash function of its maps.
    pub(crate) hashing: RandomState,
    pub(crate) options: Options,
    /// The areas of the preamble, if it is given.
    pub(crate) areas: Option<Vec<u32>>,
}

/// Contracts see the rules.
impl Model for Start {
    ghost use Rattle.std.specs.Prelude.{option_map};
    ghost use Rattle.capture_recording.specs.Rules.{Rules};

    ghost Value = { Rules };

    ghost view = { λ s. record { options = s.options; areas = option_map (λ v. v.items) s.areas } };
}

impl Start {
    /// Returns the settings with these areas of the preamble.
    pub(crate) fn with_areas(self, areas: Vec<u32>) -> Start
        ensures { result ≡ record self { areas = Some areas.items } }
    {
        let Start {
            hashing,
            options,
            ..
        } = self;
        let areas = Some(areas);
        Start {
            hashing,
            options,
            areas,
        }
    }
}
