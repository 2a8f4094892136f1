//! The progress of a run, shown while it goes on.
ghost use Rattle.std.specs.Prelude.{◌≡◌, IfOk, string_bytes};
ghost use Rattle.replay.specs.Advance.{Shows, EndsShowing, is_all, is_due, progress_text};

use crate::buffer::new_buffer;
use crate::writing::write_whole;
use ospf_types::memory::Memory;
use std::alloc::Global;
use std::io;

/// The progress of a run: the number of lines done, on a line of standard error that is
/// overwritten.
#[derive(Clone, Copy, Debug, PartialEq, Eq)]
pub struct Progress {
    /// True if the progress is shown.
    pub is_shown: bool,
    /// The number of all lines, if known.
    pub all: Option<usize>,
}

// The number of lines after which the progress is shown each time.
const STEP: usize = 1000;

impl Progress {
    /// Shows the number of lines done, if it is a multiple of 1,000 or the number of all lines.
    ///
    /// A text for which memory runs out, or that cannot be written, is left out.
    pub fn show<F: io::Write>(self, alloc: Global, done: usize, faults: &mut F)
        ensures { Shows self done (F.contents faults.old) (F.contents faults.new) }
    {
        if !self.is_due(done) {
            return;
        }
        if let Ok(text) = self.text(alloc, done) {
            let _ = write_whole(faults, text.as_bytes());
        }
    }

    /// Ends the line that is overwritten, if the progress is shown.
    pub fn end<F: io::Write>(self, faults: &mut F)
        ensures { EndsShowing self (F.contents faults.old) (F.contents faults.new) }
    {
        if self.is_shown {
            let _ = write_whole(faults, b"\n");
        }
    }

    // Returns true if the progress is shown after this number of lines.
    fn is_due(self, done: usize) -> bool
        ensures { result ≡ is_due self done }
    {
        self.is_shown && (done % STEP == 0 || self.is_all(done))
    }

    // Returns true if this is the number of all lines.
    fn is_all(self, done: usize) -> bool
        ensures { result ≡ is_all self.all done }
    {
        match self.all {
            Some(all) => done == all,
            None => false,
        }
    }

    fn text(self, alloc: Global, done: usize) -> Result<String, Memory>
        ensures { IfOk result (λ text. string_bytes text ≡ progress_text self.all done) }
    {
        let mut text = new_buffer(alloc)?;
        match self.all {
            Some(all) => write!(text, "\r{done} of {all} lines")?,
            None => write!(text, "\r{done} lines")?,
        }
        Ok(text)
    }
}
