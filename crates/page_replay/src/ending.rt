//! The replay of a recording, with the changes of its last lines.
ghost use Rattle.std.specs.Prelude.{◌≡◌, ◌<◌, ◌+◌, ◌^◌, [], IfOk, length};
ghost use Rattle.event_core.specs.Cores.{IsCore, IsCurrent};
ghost use Rattle.replay.specs.Advance.{ShowsProgress};
ghost use Rattle.replay.specs.Lines.{first_number};
ghost use Rattle.page_replay.specs.Ending.{IsRunToEnd, IsToldLast, earlier_lines, last_lines};

use change_log::{ChangeFilter, LineContext, print_line_changes};
use event_core::Core;
use ospf_types::memory::Memory;
use output_lines::Format;
use recording::Line;
use replay::{OpenedRecording, first_event_line, flush_buffer, new_buffer};
use std::alloc::Global;
use std::io;

// The number of last lines whose changes are listed.
const LAST_LINES: usize = 10;

/// The core after the last line of a recording, and the changes of the last lines as the command
/// `changes` prints them.
pub(crate) struct LastState {
    pub(crate) core: Core,
    pub(crate) told: Vec<u8>,
}

// proof: a value is dropped by one call, not part by part at each exit of a function.
impl Drop for LastState {
    fn drop(self) {
        let LastState {
            core: _core,
            told: _told,
        } = self;
    }
}

/// Runs the recording, and lists the changes of its last lines. It stops with `Memory` if memory
/// runs out over a line.
pub(crate) fn run_to_end<F: io::Write>(
    alloc: Global,
    opened: OpenedRecording,
    is_shown: bool,
    faults: &mut F,
) -> Result<LastState, Memory>
    ensures ended { IfOk result (λ ended. IsRunToEnd opened.version opened.core opened.lines.items
        ended.core ended.told.items) }
    ensures progress { ShowsProgress is_shown (F.contents faults.old) (F.contents faults.new) }
{
    let first = first_event_line(opened.version, opened.core.base());
    let parts = split_last(opened);
    let (earlier, last) = parts?;
    let number = first + earlier.lines.len();
    let core = earlier.run_silently(alloc, is_shown, faults)?;
    tell_last(alloc, core, number, last)
}

// Splits the last lines off the recording.
fn split_last(opened: OpenedRecording) -> Result<(OpenedRecording, Vec<Line>), Memory>
    ensures version { IfOk result (λ parts. parts.0.version ≡ opened.version) }
    ensures core { IfOk result (λ parts. parts.0.core ≡ opened.core) }
    ensures earlier { IfOk result (λ parts.
        parts.0.lines.items ≡ earlier_lines opened.lines.items) }
    ensures last { IfOk result (λ parts. parts.1.items ≡ last_lines opened.lines.items) }
{
    let OpenedRecording {
        version,
        core,
        mut lines,
    } = opened;
    let last = lines.split_off(lines.len().saturating_sub(LAST_LINES))?;
    let earlier = OpenedRecording {
        version,
        core,
        lines,
    };
    Ok((earlier, last))
}

// Runs the last lines, the first of which has this number, and lists their changes. Returns
// `Memory` if the core is behind.
fn tell_last(alloc: Global, core: Core, number: usize, last: Vec<Line>) -> Result<LastState, Memory>
    requires { number + length last.items < 2 ^ 64 }
    ensures { IfOk result (λ ended. IsToldLast core number last.items ended.core ended.told.items) }
{
    let mut core = core;
    if !core.is_current() {
        return Err(Memory);
    }
    let at = LineContext {
        number,
        wanted: ChangeFilter {
            only: None,
            format: Format::Text,
        },
        answers: false,
    };
    let mut told = Vec::new(alloc);
    let mut page = new_buffer(alloc)?;
    let Ok(()) = print_line_changes(&mut core, at, last, &mut told, &mut page) else {
        return Err(Memory);
    };
    let Ok(()) = flush_buffer(&mut told, &mut page) else {
        return Err(Memory);
    };
    Ok(LastState { core, told })
}
