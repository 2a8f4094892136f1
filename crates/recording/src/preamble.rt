//! The preamble of a recording: the first lines, the header's areas and ranges, and the base.
ghost use Rattle.std.specs.Prelude.{◌≡◌};
ghost use Rattle.recording.specs.Forms.{Form, Says};
ghost use Rattle.recording.specs.Places.{is_preamble_line, is_front_word};
ghost use Rattle.recording.specs.Reading.{cut, first_word};
ghost use Rattle.recording.specs.declared.version.Version.{Version};

use crate::words::{Words, is};

/// Returns true if the line may belong to the preamble: its first word is one with which lines of
/// the preamble begin.
pub fn is_preamble_line(line: &[u8]) -> bool
    ensures exact { result ≡ is_front_word (first_word (cut line.now)) }
    ensures said { (v : Version) (form : Form) → Says v line.now form → result ≡ is_preamble_line form }
{
    let mut words = Words::of(line);
    match words.next() {
        Some(word) => is_front_word(word),
        None => false,
    }
}

fn is_front_word(word: &[u8]) -> bool
    ensures { result ≡ is_front_word word.now }
{
    is(word, b"abr")
        || is(word, b"router")
        || is(word, b"compat")
        || is(word, b"serial")
        || is(word, b"area")
        || is(word, b"range")
        || is(word, b"has")
}
