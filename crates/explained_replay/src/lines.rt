//! The lines of an explanation, each of which is appended to a text.
ghost use Rattle.std.specs.Prelude.{◌≡◌, ◌++◌, OnOk, option_copied, string_bytes};
ghost use Rattle.explained_replay.specs.Lines.{candidate_line, link_line, lookup_line};
ghost use Rattle.explained_replay.specs.Lines.{network_line, path_line};

use crate::{objects, text_lines};
use explanation::{Candidate, Step};
use ospf_types::hop::Path;
use ospf_types::memory::Memory;
use ospf_types::prefix::Prefix;
use output_lines::Format;
use route_table::{Item, Match};

/// A lookup of an address in the table with this serial.
#[derive(Clone, Copy)]
pub(crate) struct Lookup {
    pub(crate) address: u32,
    pub(crate) serial: u64,
}

/// Appends the result of the lookup: the longest match of the address (RFC 2328, 11.1).
pub(crate) fn put_lookup(
    format: Format,
    lookup: Lookup,
    found: &Match,
    text: &mut String,
) -> Result<(), Memory>
    ensures { OnOk result (string_bytes text.new ≡ string_bytes text.old
        ++ lookup_line format lookup.address lookup.serial found.now) }
{
    match format {
        Format::Text => text_lines::put_lookup(lookup, found, text),
        Format::Json => objects::put_lookup(lookup, found, text),
    }
}

/// Appends the network and the table's item for it.
pub(crate) fn put_network(
    format: Format,
    network: Prefix,
    item: Option<&Item>,
    text: &mut String,
) -> Result<(), Memory>
    ensures { OnOk result (string_bytes text.new ≡ string_bytes text.old
        ++ network_line format network (option_copied item.entry)) }
{
    match format {
        Format::Text => text_lines::put_network(network, item, text),
        Format::Json => objects::put_network(network, item, text),
    }
}

/// Appends an offer and its verdict.
pub(crate) fn put_candidate(
    format: Format,
    candidate: &Candidate,
    text: &mut String,
) -> Result<(), Memory>
    ensures { OnOk result (string_bytes text.new ≡ string_bytes text.old
        ++ candidate_line format candidate.now) }
{
    match format {
        Format::Text => text_lines::put_candidate(candidate, text),
        Format::Json => objects::put_candidate(candidate, text),
    }
}

/// Appends a path of a route.
pub(crate) fn put_path(format: Format, path: &Path, text: &mut String) -> Result<(), Memory>
    ensures { OnOk result (string_bytes text.new ≡ string_bytes text.old
        ++ path_line format path.now) }
{
    match format {
        Format::Text => text_lines::put_path(path, text),
        Format::Json => objects::put_path(path, text),
    }
}

/// Appends a step of a path.
pub(crate) fn put_link(format: Format, step: &Step, text: &mut String) -> Result<(), Memory>
    ensures { OnOk result (string_bytes text.new ≡ string_bytes text.old
        ++ link_line format step.now) }
{
    match format {
        Format::Text => text_lines::put_link(step, text),
        Format::Json => objects::put_link(step, text),
    }
}
