//! The number of lines of an input.
ghost use Rattle.std.specs.Prelude.{◌≡◌, ◌<◌, IfSome, length};
ghost use Rattle.abr.specs.Counting.{CountsLines, line_feeds};

use std::io;
use std::io::Read;

/// Returns the number of line feeds up to the end of the input, or `None` if it cannot be read. It
/// reads into `window`.
pub fn count_lines<R: Read>(input: &mut R, window: &mut [u8]) -> Option<usize>
    requires { 0 < length window.now }
    ensures { IfSome result (CountsLines (R.remaining input.old) (R.remaining input.new)) }
{
    let mut lines = 0usize;
    for _ in 0..usize::MAX {
        match input.read(window) {
            Ok(0) => return Some(lines),
            Ok(count) => lines = lines.checked_add(line_feeds(&window[..count]))?,
            Err(error) if error.kind() == io::ErrorKind::Interrupted => {}
            Err(_) => return None,
        }
    }
    None
}

fn line_feeds(bytes: &[u8]) -> usize
    ensures { result ≡ line_feeds bytes.now }
{
    bytes.iter().filter(|byte| **byte == b'\n').count()
}
