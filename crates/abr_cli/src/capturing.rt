//! The command `capture`.
ghost use Rattle.std.specs.Prelude.{◌≡◌, IfErr, IfOk};
ghost use Rattle.abr_cli.specs.Capturing.{BeginsWith, HasRouter, IsCaptureEndSaid, IsCaptureTold};
ghost use Rattle.abr_cli.specs.Capturing.{IsRouterFault, LacksBeginning, fault_from_capture};

use crate::replaying::say_fault;
use capture_recording::{Capturing, CapturingFault, Options, Preamble, record_capture};
use cli_queries::{CommandFault, WordFault, read_address, say_unwritten};
use replay::WriteError;
use std::alloc::Global;
use std::hash::RandomState;
use std::io;

/// The command `capture`, with its words.
#[derive(Clone, Copy)]
pub struct CaptureCommand<'a> {
    /// The name of the capture.
    pub file: &'a str,
    /// The word of the Router ID, if there is one. Without a file, the beginning is made for this
    /// router from the capture.
    pub router: Option<&'a str>,
    /// The name of the file with the beginning of the recording, if there is one.
    pub begin: Option<&'a str>,
    /// The contents of that file, if it could be read.
    pub beginning: Option<&'a [u8]>,
    /// The options for what the recording leaves out.
    pub options: Options,
}

impl<'a> CaptureCommand<'a> {
    /// Reads the capture from `input`, and writes its recording to `out`.
    ///
    /// The faults of the capture, how much was found, and the reason if there is no whole recording
    /// are written to `faults`. Returns the status: 0 with a whole recording, and else 1 or 2. It
    /// is 2 only if there is neither a Router ID nor a beginning, or if the word of the Router ID
    /// cannot be read. Then nothing was read from `input`.
    pub fn run<R: io::Read, W: io::Write, F: io::Write>(
        self,
        alloc: Global,
        hashing: RandomState,
        input: &mut R,
        out: &mut W,
        faults: &mut F,
    ) -> u8
        ensures { IsCaptureTold self.entry result (R.remaining input.old) (R.remaining input.new)
            (W.contents out.old) (W.contents out.new) (F.contents faults.old)
            (F.contents faults.new) }
    {
        let beginning = match self.begins_with() {
            Ok(beginning) => beginning,
            Err(fault) => return say_fault(alloc, fault, faults),
        };
        let capturing = Capturing {
            options: self.options,
            beginning,
        };
        let ended = record_capture(alloc, hashing, capturing, input, out, faults);
        match ended {
            Ok(()) => 0,
            Err(fault) => say_capture_end(alloc, self.file, fault, faults),
        }
    }

    // Returns the beginning of the recording: the file, if one is named, or else the Router ID.
    fn begins_with(self) -> Result<Preamble<'a>, CommandFault<'a>>
        ensures beginning { IfOk result (BeginsWith self.entry) }
        ensures fault { IfErr result (LacksBeginning self.entry) }
    {
        let router = router_of(self.router)?;
        match (self.begin, self.beginning, router) {
            (Some(_), Some(bytes), _) => Ok(Preamble::Given(bytes)),
            (Some(name), None, _) => Err(CommandFault::Read(name)),
            (None, _, Some(router)) => Ok(Preamble::Router(router)),
            (None, _, None) => Err(CommandFault::Beginning),
        }
    }
}

// Parses the word of the Router ID, if there is one.
fn router_of(word: Option<&str>) -> Result<Option<u32>, WordFault>
    ensures router { IfOk result (HasRouter word.entry) }
    ensures fault { IfErr result (IsRouterFault word.entry) }
{
    match word {
        Some(word) => Ok(Some(read_address(word)?)),
        None => Ok(None),
    }
}

// Writes why there is no whole recording, unless the pipe of the output was closed. Returns the
// status.
fn say_capture_end<F: io::Write>(
    alloc: Global,
    file: &str,
    fault: CapturingFault,
    faults: &mut F,
) -> u8
    ensures { IsCaptureEndSaid file.entry fault result (F.contents faults.old) (F.contents faults.new) }
{
    match fault_from_capture(file, fault) {
        Ok(fault) => say_fault(alloc, fault, faults),
        Err(why) => say_unwritten(why, faults),
    }
}

// Returns the fault as a fault of the command, or the reason why the output was not written whole.
fn fault_from_capture(file: &str, fault: CapturingFault) -> Result<CommandFault<'_>, WriteError>
    ensures { result ≡ fault_from_capture file.entry fault }
{
    match fault {
        CapturingFault::Capture { kind, place } => Ok(CommandFault::Capture { file, place, kind }),
        CapturingFault::Read => Ok(CommandFault::Read(file)),
        CapturingFault::Line(fault) => Ok(CommandFault::Line(fault)),
        CapturingFault::Config(fault) => Ok(CommandFault::Config(fault)),
        CapturingFault::Unsaid => Err(WriteError::Failed),
        CapturingFault::Write => Err(WriteError::Failed),
        CapturingFault::Closed => Err(WriteError::Closed),
        CapturingFault::Memory => Ok(CommandFault::Memory),
    }
}
