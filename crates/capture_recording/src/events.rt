//! The lines of a recording.
ghost use Rattle.std.specs.Prelude.{OnOk};
ghost use Rattle.std.specs.List.{flat_map};
ghost use Rattle.recording.specs.Forms.{IsKind};
ghost use Rattle.capture_recording.specs.Events.{GainsEvents, install_events, installed, purged};
ghost use Rattle.capture_recording.specs.Events.{recorded_events, second_events, taken_events};

use crate::seconds::recorded_seconds;
use captured_lsas::{Recorded, Taken};
use event_state::Event;
use lsa_codec::Checked;
use ospf_types::key::{Key, Scope};
use ospf_types::memory::Memory;
use recording::append_event;

/// Appends the lines of a recording for the payload of a datagram. They are its seconds
/// (`recorded_seconds`), and then an `install` line for each LSA that is not left out. A `purge`
/// line follows if the LSA is at MaxAge.
///
/// # Errors
///
/// Returns `Memory` if memory runs out. The text may then have some of the lines.
pub fn put_taken(taken: Taken, text: &mut String) -> Result<(), Memory>
    ensures { OnOk result (GainsEvents text.old text.new (taken_events taken)) }
{
    match taken {
        Taken::Packet {
            seconds,
            recorded,
            ..
        } => {
            put_seconds(recorded_seconds(seconds), text)?;
            put_each(recorded, text)
        }
        Taken::Fault(_) => Ok(()),
    }
}

/// Appends `second` lines.
pub(crate) fn put_seconds(seconds: u64, text: &mut String) -> Result<(), Memory>
    ensures { OnOk result (GainsEvents text.old text.new (second_events seconds)) }
{
    for _ in 0..seconds {
        put_second(text)?;
    }
    Ok(())
}

fn put_second(text: &mut String) -> Result<(), Memory>
    ensures { OnOk result (GainsEvents text.old text.new (second_events 1)) }
{
    append_event(*text.allocator(), &Event::Second, text)?;
    Ok(())
}

fn put_each(recorded: Vec<Recorded>, text: &mut String) -> Result<(), Memory>
    ensures { OnOk result (GainsEvents text.old text.new
        (flat_map recorded_events recorded.items)) }
{
    for one in recorded {
        put_recorded(one, text)?;
    }
    Ok(())
}

// Appends the lines for one place of a Link State Update.
fn put_recorded(recorded: Recorded, text: &mut String) -> Result<(), Memory>
    ensures { OnOk result (GainsEvents text.old text.new (recorded_events recorded)) }
{
    match recorded {
        Recorded::Install { scope, lsa, purges } => put_install(scope, lsa, purges, text),
        Recorded::Repeated => Ok(()),
        Recorded::OtherArea { .. } => Ok(()),
        Recorded::Fault(_) => Ok(()),
        Recorded::Cut(_) => Ok(()),
    }
}

/// Appends the line that installs an LSA, and the line that purges it if `purges` is true.
pub(crate) fn put_install(
    scope: Scope,
    lsa: Checked,
    purges: bool,
    text: &mut String,
) -> Result<(), Memory>
    ensures { OnOk result (GainsEvents text.old text.new (install_events scope lsa purges)) }
{
    let key = lsa.key();
    put_installed(scope, lsa, text)?;
    if !purges {
        return Ok(());
    }
    put_purged(scope, key, text)?;
    Ok(())
}

fn put_installed(scope: Scope, lsa: Checked, text: &mut String) -> Result<(), Memory>
    ensures { OnOk result (GainsEvents text.old text.new (installed scope lsa)) }
{
    append_event(*text.allocator(), &Event::Install { scope, lsa }, text)?;
    Ok(())
}

fn put_purged(scope: Scope, key: Key, text: &mut String) -> Result<(), Memory>
    ensures { OnOk result (IsKind key.kind → GainsEvents text.old text.new (purged scope key)) }
{
    append_event(*text.allocator(), &Event::Purge { scope, key }, text)?;
    Ok(())
}
