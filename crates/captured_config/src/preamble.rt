//! The preamble of a recording.
ghost use Rattle.std.specs.Prelude.{◌≡◌, All, IfErr, None, OnOk};
ghost use Rattle.ospf_types.specs.Configs.{config_fault_of};
ghost use Rattle.recording.specs.Forms.{IsForm};
ghost use Rattle.recording.specs.Recordings.{GainsLine, GainsLines, form_of, forms_of};
ghost use Rattle.captured_config.specs.Configs.{config_of};
ghost use Rattle.captured_config.specs.Facts.{AreFacts};
ghost use Rattle.captured_config.specs.Finding.{config_by};
ghost use Rattle.captured_config.specs.Lsas.{Captured};
ghost use Rattle.captured_config.specs.Faults.{IsPreambleRefused};
ghost use Rattle.captured_config.specs.Fronts.{HasText, captured_recording, interface_event};
ghost use Rattle.captured_config.specs.Fronts.{interface_forms, recording_by, recording_with};

use crate::areas::SeenAreas;
use crate::config::CapturedConfig;
use crate::fault::PreambleFault;
use event_state::{Base, Event};
use ospf_types::config::{Config, Interface};
use ospf_types::memory::Memory;
use recording::{Version, append_event, append_preamble};
use std::alloc::Global;

impl CapturedConfig {
    /// Appends the preamble of a recording, and an `interface` line for each interface, all of them
    /// up. The preamble is the version, the Router ID, and a line for each area. Address ranges are
    /// not in a capture, so there are none.
    ///
    /// # Errors
    ///
    /// Returns `Config` if there are no areas or too many; the text is then unchanged. Returns
    /// `Memory` if memory runs out; the text may then have some of the lines.
    pub fn put_preamble(
        &self,
        alloc: Global,
        areas: &SeenAreas,
        text: &mut String,
    ) -> Result<(), PreambleFault>
        ensures text { (c : Captured) → AreFacts c self.now → OnOk result
            (GainsLines text.old text.new (forms_of (captured_recording c areas.now))) }
        // The appended lines are the text of this recording, so they are read back as it.
        ensures recording { (c : Captured) → AreFacts c self.now → OnOk result
            (HasText (captured_recording c areas.now)) }
        ensures fault { (c : Captured) → AreFacts c self.now → IfErr result
            (IsPreambleRefused (config_of c areas.now) text.old text.new) }
    {
        let ids = areas.ascending(alloc)?;
        self.put_front_of(alloc, &ids, text)
    }

    fn put_front_of(
        &self,
        alloc: Global,
        ids: &[u32],
        text: &mut String,
    ) -> Result<(), PreambleFault>
        ensures text { OnOk result
            (GainsLines text.old text.new (forms_of (recording_by self.now ids.now))) }
        ensures forms { OnOk result (All IsForm (forms_of (recording_by self.now ids.now))) }
        ensures sound { OnOk result (config_fault_of (config_by self.now ids.now) ≡ None) }
        ensures fault { IfErr result
            (IsPreambleRefused (config_by self.now ids.now) text.old text.new) }
    {
        let config = self.config(alloc, ids)?;
        let found = self.interfaces(alloc, ids)?;
        put_lines(alloc, config, found.interfaces.as_slice(), text)?;
        Ok(())
    }
}

// Appends the preamble with a configuration, and then its interfaces.
fn put_lines(
    alloc: Global,
    config: Config,
    interfaces: &[(u8, Interface)],
    text: &mut String,
) -> Result<(), Memory>
    ensures text { OnOk result
        (GainsLines text.old text.new (forms_of (recording_with config interfaces.now))) }
    ensures forms { OnOk result (All IsForm (forms_of (recording_with config interfaces.now))) }
{
    let base = Base::bare(alloc, config);
    append_preamble(alloc, Version::One, &base, text)?;
    put_interfaces(alloc, interfaces, text)?;
    Ok(())
}

fn put_interfaces(
    alloc: Global,
    interfaces: &[(u8, Interface)],
    text: &mut String,
) -> Result<(), Memory>
    ensures text { OnOk result (GainsLines text.old text.new (interface_forms interfaces.now)) }
    ensures forms { OnOk result (All IsForm (interface_forms interfaces.now)) }
{
    for listed in interfaces {
        put_interface(alloc, *listed, text)?;
    }
    Ok(())
}

// Appends the line that sets an interface.
fn put_interface(alloc: Global, listed: (u8, Interface), text: &mut String) -> Result<(), Memory>
    ensures text { OnOk result
        (GainsLine text.old text.new (form_of (interface_event listed))) }
    ensures form { OnOk result (IsForm (form_of (interface_event listed))) }
{
    let (id, interface) = listed;
    let event = Event::Interface {
        id,
        area: interface.area,
        address: interface.address,
        peer: interface.peer,
        up: interface.up,
    };
    append_event(alloc, &event, text)
}
