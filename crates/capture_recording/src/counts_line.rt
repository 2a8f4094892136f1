//! The line with the counts of a capture.
ghost use Rattle.std.specs.Prelude.{◌≡◌, ◌++◌, Some, OnOk, codes, if◌then◌else◌, ◌==◌};
ghost use Rattle.std.specs.Prelude.{string_bytes};
ghost use Rattle.capture_recording.specs.Counts.{counted, found_text, counts_line};

use crate::counts::Counts;
use ospf_types::memory::Memory;
use std::fmt;

/// Appends a line, as `abr: 14 packets, 5 updates, 9 LSAs, 1 repeated, 1 fault, 2 areas, 2
/// seconds`. `areas` is the number of areas.
///
/// # Errors
///
/// Returns `Memory` if memory runs out. The text may then have a part of the line.
pub fn put_counts(counts: Counts, areas: usize, text: &mut String) -> Result<(), Memory>
    ensures { OnOk result (string_bytes text.new ≡ string_bytes text.old
        ++ counts_line counts areas) }
{
    text.push_str("abr: ")?;
    put_found(counts, text)?;
    let areas = Counted::new(areas as u64, "area", "areas");
    let seconds = Counted::new(counts.seconds, "second", "seconds");
    writeln!(text, ", {areas}, {seconds}")?;
    Ok(())
}

// Appends the counts of packets, updates, LSAs and faults.
fn put_found(counts: Counts, text: &mut String) -> Result<(), Memory>
    ensures { OnOk result (string_bytes text.new ≡ string_bytes text.old
        ++ found_text counts) }
{
    let packets = Counted::new(counts.packets, "packet", "packets");
    let updates = Counted::new(counts.updates, "update", "updates");
    let lsas = Counted::new(counts.lsas, "LSA", "LSAs");
    let repeated = Counted::new(counts.repeated, "repeated", "repeated");
    let faults = Counted::new(counts.faults, "fault", "faults");
    write!(text, "{packets}, {updates}, {lsas}")?;
    write!(text, ", {repeated}, {faults}")?;
    Ok(())
}

// A number with a word.
#[derive(Clone, Copy)]
struct Counted {
    number: u64,
    word: &'static str,
}

impl Counted {
    // Chooses the word: `one` if the number is 1, or else `several`.
    fn new(number: u64, one: &'static str, several: &'static str) -> Counted
        ensures number { result.number ≡ number }
        ensures word { result.word.now ≡ if number == 1 then one.entry.now else several.entry.now }
    {
        let word = if number == 1 { one } else { several };
        Counted { number, word }
    }
}

impl fmt::Display for Counted {
    ghost use Rattle.std.specs.Prelude.{decimal};

    ghost output = { λ c. Some (decimal c.number ++ codes " " ++ c.word.now) };

    fn fmt<W: fmt::Write>(&self, f: &mut fmt::Formatter<W>) -> fmt::Result {
        let (number, word) = (self.number, self.word);
        write!(f, "{number} {word}")
    }
}
