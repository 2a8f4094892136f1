//! Recordings that are ready to run.
ghost use Rattle.std.specs.Prelude.{◌≡◌, ◌+◌, ◌^◌, ◌<◌, IfOk, None, length};
ghost use Rattle.event_state.specs.BaseFaults.{base_fault_of};
ghost use Rattle.event_state.specs.Steps.{standard_limits};
ghost use Rattle.replay.specs.Lines.{first_number};
ghost use Rattle.replay.specs.Runs.{IsOpened};

use event_core::{Base, Core, Limits};
use ospf_types::memory::Memory;
use recording::{Line, Recording, Version};
use std::alloc::Global;
use std::hash::RandomState;

/// A recording with an open core, and the lines that it has to run. All line numbers are below
/// 2^64.
#[derive(Drop)]
pub struct OpenedRecording {
    pub version: Version,
    pub core: Core,
    pub lines: Vec<Line>,
    ghost few: { first_number version core.base + length lines.items < 2 ^ 64 },
}

impl OpenedRecording {
    /// Opens a core from the base of the recording.
    ///
    /// # Errors
    ///
    /// Returns `Memory` if memory runs out. The recording is dropped then.
    pub fn open(
        alloc: Global,
        hashing: RandomState,
        recording: Recording,
    ) -> Result<OpenedRecording, Memory>
        requires { first_number recording.version recording.base + length recording.lines < 2 ^ 64 }
        ensures version { IfOk result (λ opened. opened.version ≡ recording.version) }
        ensures base { IfOk result (λ opened. opened.core.base ≡ recording.base) }
        ensures lines { IfOk result (λ opened. opened.lines.items ≡ recording.lines) }
        ensures opened { IfOk result (λ opened. IsOpened opened.core.base opened.core) }
    {
        let (version, base, lines) = recording.into_parts();
        let core = open_core(alloc, base, hashing)?;
        Ok(OpenedRecording {
            version,
            core,
            lines,
        })
    }
}

// Opens the core of a run. The base of a recording has no fault.
fn open_core(alloc: Global, base: Base, hashing: RandomState) -> Result<Core, Memory>
    requires { base_fault_of standard_limits base ≡ None }
    ensures { IfOk result (IsOpened base) }
{
    let core = Core::open_with_limits(alloc, base, Limits::STANDARD, hashing)?;
    Ok(core)
}
