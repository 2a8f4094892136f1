//! The lines that are printed about a capture while it is recorded.
ghost use Rattle.std.specs.Prelude.{◌≡◌, ◌++◌, ℕ, List, Option, [], Bool, false, string_bytes};
ghost use Rattle.capture_recording.specs.Ending.{unless_silent};
ghost use Rattle.capture_recording.specs.Said.{HasSaid};

use crate::fault::CapturingFault;
use replay::write_whole;
use std::alloc::Global;
use std::io;

/// The lines that are printed about a capture, such as faults.
#[derive(Drop)]
pub(crate) struct Notes {
    /// The lines that are not written yet.
    pub(crate) text: String,
    /// True if a line could not be written. No more lines are written then.
    pub(crate) is_silent: bool,
}

impl Notes {
    pub(crate) fn new(alloc: Global) -> Notes
        ensures text { string_bytes result.text ≡ [] }
        ensures silent { result.is_silent ≡ false }
    {
        Notes {
            text: String::new(alloc),
            is_silent: false,
        }
    }

    /// Writes the text, unless an earlier text could not be written, and clears it.
    pub(crate) fn say<F: io::Write>(&mut self, faults: &mut F)
        ensures none { string_bytes self.new.text ≡ [] }
        ensures said { (first : Option (List ℕ)) (text : List ℕ)
            → HasSaid first (F.contents faults.old) self.old.is_silent text
            → HasSaid first (F.contents faults.new) self.new.is_silent
            (text ++ string_bytes self.old.text) }
    {
        self.is_silent = is_silent_behind(self.is_silent, &self.text, faults);
        self.text.clear();
    }

    /// Returns the result at the end, or `Unsaid` if a text could not be written.
    pub(crate) fn unless_silent(
        &self,
        answer: Result<(), CapturingFault>,
    ) -> Result<(), CapturingFault>
        ensures { result ≡ unless_silent self.now.is_silent answer }
    {
        if self.is_silent {
            return Err(CapturingFault::Unsaid);
        }
        answer
    }
}

// Writes the text, unless an earlier text could not be written. Returns true if this text or an
// earlier one could not be written.
fn is_silent_behind<F: io::Write>(is_silent: bool, text: &str, faults: &mut F) -> bool
    ensures { (first : Option (List ℕ)) (before : List ℕ)
        → HasSaid first (F.contents faults.old) is_silent before
        → HasSaid first (F.contents faults.new) result (before ++ text.now) }
{
    if is_silent {
        return true;
    }
    match write_whole(faults, text.as_bytes()) {
        Ok(()) => false,
        Err(_) => true,
    }
}
