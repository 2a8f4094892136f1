//! The results that are kept of the packets of a capture.
ghost use Rattle.std.specs.Prelude.{◌≡◌, ℕ, OnOk, IfOk, Option, option_map};
ghost use Rattle.std.specs.List.{fold};
ghost use Rattle.captured_config.specs.Facts.{AreFacts};
ghost use Rattle.captured_config.specs.Lsas.{Captured};
ghost use Rattle.captured_lsas.specs.Hearing.{IsHeard};
ghost use Rattle.capture_recording.specs.Counts.{with_heard};
ghost use Rattle.capture_recording.specs.Folds.{with_installed, with_taken_area, with_taken_lsas};
ghost use Rattle.capture_recording.specs.Gathering.{AreFactsOf, HearsOnly, NotesOnly};
ghost use Rattle.capture_recording.specs.Gathering.{first_gathered};

use crate::Counts;
use crate::start::Start;
use captured_config::{CapturedConfig, SeenAreas};
use captured_lsas::{Heard, Listener, Recorded, Recorder, Taken};
use captures::CapturedPacket;
use ospf_types::memory::Memory;
use std::alloc::Global;

/// The results that are kept of the packets so far.
pub(crate) struct Gathered {
    pub(crate) listener: Listener,
    pub(crate) recorder: Recorder,
    pub(crate) counts: Counts,
    pub(crate) areas: SeenAreas,
    /// The facts about the router so far, if the recording begins with its configuration.
    pub(crate) config: Option<CapturedConfig>,
}

// proof: a value is dropped by one call, not part by part at each exit of a function.
impl Drop for Gathered {
    fn drop(self) {
        let Gathered {
            listener: _listener,
            recorder: _recorder,
            counts: _,
            areas: _areas,
            config: _config,
        } = self;
    }
}

impl Gathered {
    /// Creates the results of no packets.
    pub(crate) fn new(alloc: Global, start: Start, router: Option<u32>) -> Gathered
        ensures { result ≡ first_gathered start router }
    {
        let Start {
            hashing,
            options,
            areas,
        } = start;
        Gathered {
            listener: Listener::new(alloc),
            recorder: Recorder::new(alloc, hashing, options, areas),
            counts: Counts::default(),
            areas: SeenAreas::new(alloc, hashing),
            config: router.map(|router| CapturedConfig::new(alloc, router)),
        }
    }

    /// Takes a captured packet, and counts its content.
    pub(crate) fn hear<'a>(
        &mut self,
        alloc: Global,
        packet: &CapturedPacket<'a>,
    ) -> Result<Heard<'a>, Memory>
        ensures heard { IfOk result (IsHeard packet.now.link packet.now.bytes.now
            self.old.listener self.new.listener) }
        ensures counted { IfOk result (λ heard.
            self.new.counts ≡ with_heard self.old.counts heard) }
        ensures others { HearsOnly self.old self.new }
    {
        let heard = self.listener.hear(alloc, packet)?;
        self.counts.count_heard(&heard);
        Ok(heard)
    }

    /// Notes the area of a packet without a fault, and its LSAs.
    pub(crate) fn note(&mut self, alloc: Global, taken: &Taken) -> Result<(), Memory>
        ensures areas { OnOk result (self.new.areas ≡ with_taken_area self.old.areas taken.now) }
        ensures config { OnOk result ((known : Option Captured)
            → AreFactsOf known self.old.config
            → AreFactsOf (option_map (λ c. with_taken_lsas c taken.now) known) self.new.config) }
        ensures others { NotesOnly self.old self.new }
    {
        match taken {
            Taken::Packet { area, recorded, .. } => {
                self.areas.note(*area)?;
                note_lsas(&mut self.config, alloc, *area, recorded.as_slice())
            }
            Taken::Fault(_) => Ok(()),
        }
    }
}

// Notes the LSAs that are installed in the area, if the configuration of a router is asked for.
fn note_lsas(
    config: &mut Option<CapturedConfig>,
    alloc: Global,
    area: u32,
    recorded: &[Recorded],
) -> Result<(), Memory>
    ensures { OnOk result ((known : Option Captured) → AreFactsOf known config.old
        → AreFactsOf (option_map (λ c. fold (with_installed area) c recorded.now) known)
        config.new) }
{
    match config {
        Some(config) => note_each(config, alloc, area, recorded),
        None => Ok(()),
    }
}

fn note_each(
    config: &mut CapturedConfig,
    alloc: Global,
    area: u32,
    recorded: &[Recorded],
) -> Result<(), Memory>
    ensures { OnOk result ((c : Captured) → AreFacts c config.old
        → AreFacts (fold (with_installed area) c recorded.now) config.new) }
{
    for one in recorded {
        note_one(config, alloc, area, one)?;
    }
    Ok(())
}

fn note_one(
    config: &mut CapturedConfig,
    alloc: Global,
    area: u32,
    recorded: &Recorded,
) -> Result<(), Memory>
    ensures { OnOk result ((c : Captured) → AreFacts c config.old
        → AreFacts (with_installed area c recorded.now) config.new) }
{
    match recorded {
        Recorded::Install { lsa, .. } => config.note(alloc, area, lsa),
        Recorded::Repeated => Ok(()),
        Recorded::OtherArea { .. } => Ok(()),
        Recorded::Fault(_) => Ok(()),
        Recorded::Cut(_) => Ok(()),
    }
}
