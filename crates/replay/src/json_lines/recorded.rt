//! A line of a recording as an object.
ghost use Rattle.std.specs.Prelude.{◌≡◌, ◌++◌, OnOk, string_bytes};
ghost use Rattle.output_lines.specs.Members.{json_line};
ghost use Rattle.replay.specs.JsonLines.{recorded_data};

use ospf_types::memory::Memory;
use output_lines::Object;

/// Appends a line `recorded`: a line of a recording, without its line feed.
///
/// # Errors
///
/// Returns `Memory` if memory runs out. The text may then have a part of the line.
pub fn put_recorded(line: &str, text: &mut String) -> Result<(), Memory>
    ensures { OnOk result (string_bytes text.new ≡ string_bytes text.old
        ++ json_line (recorded_data line.now)) }
{
    let mut object = Object::of_type(*text.allocator(), "recorded")?;
    object.put_text("text", line)?;
    object.append_to(text)
}
