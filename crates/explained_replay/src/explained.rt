//! The explanation of the table's items for an address, line by line.
ghost use Rattle.std.specs.Prelude.{List, ℕ, ◌≡◌, ◌++◌, OnOk, string_bytes};
ghost use Rattle.std.specs.List.{flat_map, list_any};
ghost use Rattle.route_table.specs.declared.table.Match.{Match};
ghost use Rattle.route_table.specs.Tables.{IsMatch};
ghost use Rattle.explained_replay.specs.Lines.{link_line, lookup_line};
ghost use Rattle.explained_replay.specs.Explanations.{IsExplanation, candidate_text};
ghost use Rattle.explained_replay.specs.Explanations.{is_of as is_offer_of};
ghost use Rattle.explained_replay.specs.Explanations.{network_text};
ghost use Rattle.explained_replay.specs.Explanations.{networks_below, offers_text, text_if_of};
ghost use Rattle.explained_replay.specs.Explanations.{trace_text};

use crate::lines::{Lookup, put_candidate, put_link, put_lookup, put_network, put_path};
use crate::reasons::is_taken;
use explanation::{Candidate, Step, Trace};
use ospf_types::memory::Memory;
use ospf_types::prefix::Prefix;
use output_lines::Format;
use route_table::{Match, Table};

/// An address, and the explanation of the table's items for it.
#[derive(Clone, Copy)]
pub struct Explained<'a> {
    /// The address, in host order.
    pub address: u32,
    /// The routing table.
    pub table: &'a Table,
    /// The offers for networks that contain the address, with their verdicts.
    pub candidates: &'a [Candidate],
}

/// Appends the explanation of the table's items for the address: its longest match, and then each
/// network that contains it, the longest first, with its offers and their verdicts. Costs are
/// metrics.
///
/// # Errors
///
/// Returns `Memory` if memory runs out. The text may then have a part of the explanation.
pub fn put_explanation(
    format: Format,
    explained: Explained<'_>,
    text: &mut String,
) -> Result<(), Memory>
    ensures { OnOk result ((added : List ℕ)
        × IsExplanation format explained.entry.address explained.entry.table.now
        explained.entry.candidates.now added
        × (string_bytes text.new ≡ string_bytes text.old ++ added)) }
{
    explained.put_match(format, text)?;
    explained.put_networks(format, text)
}

// The number of prefix lengths: 0 to 32 bits.
const LENGTHS: u8 = 33;

impl Explained<'_> {
    // Appends the longest match of the address in the table.
    fn put_match(self, format: Format, text: &mut String) -> Result<(), Memory>
        ensures { OnOk result ((found : Match)
            × IsMatch self.entry.table.now.items self.entry.address found
            × (string_bytes text.new ≡ string_bytes text.old
            ++ lookup_line format self.entry.address self.entry.table.now.serial found)) }
    {
        let table = self.table;
        let lookup = Lookup {
            address: self.address,
            serial: table.serial(),
        };
        // proof: each arm makes its match again. The borrow checker does not know that a match kept
        // in a variable may borrow a route.
        match table.lookup(self.address) {
            Match::Route(network, entry) => {
                let found = Match::Route(network, entry);
                put_lookup(format, lookup, &found, text)
            }
            Match::Discard(network) => put_lookup(format, lookup, &Match::Discard(network), text),
            Match::None => put_lookup(format, lookup, &Match::None, text),
        }
    }

    // Appends each network that contains the address, the longest first.
    fn put_networks(self, format: Format, text: &mut String) -> Result<(), Memory>
        ensures { OnOk result (string_bytes text.new ≡ string_bytes text.old
            ++ flat_map (network_text format self.entry.table.now.items self.entry.candidates.now)
            (networks_below self.entry.address 33)) }
    {
        for bits in (0..LENGTHS).rev() {
            let network = Prefix::around(self.address, bits);
            self.put_network(format, network, text)?;
        }
        Ok(())
    }

    // Appends the network's item and its offers, if it has an item or an offer.
    fn put_network(self, format: Format, network: Prefix, text: &mut String) -> Result<(), Memory>
        ensures { OnOk result (string_bytes text.new ≡ string_bytes text.old
            ++ network_text format self.entry.table.now.items self.entry.candidates.now network) }
    {
        let table = self.table;
        let item = table.get(network);
        if item.is_none() && !is_offered(self.candidates, network) {
            return Ok(());
        }
        put_network(format, network, item, text)?;
        put_offers(format, network, self.candidates, text)
    }
}

// Returns true if there is an offer for the network.
fn is_offered(candidates: &[Candidate], network: Prefix) -> bool
    ensures { result ≡ list_any (is_offer_of network) candidates.now }
{
    candidates.iter().any(|candidate| is_of(network, candidate))
}

// Returns true if the candidate is an offer for the network.
fn is_of(network: Prefix, candidate: &Candidate) -> bool
    ensures { result ≡ is_offer_of network candidate.now }
{
    candidate.offer.network == network
}

// Appends the offers for the network.
fn put_offers(
    format: Format,
    network: Prefix,
    candidates: &[Candidate],
    text: &mut String,
) -> Result<(), Memory>
    ensures { OnOk result (string_bytes text.new ≡ string_bytes text.old
        ++ offers_text format network candidates.now) }
{
    for candidate in candidates {
        put_if_of(format, network, candidate, text)?;
    }
    Ok(())
}

// Appends the candidate, if it is an offer for the network.
fn put_if_of(
    format: Format,
    network: Prefix,
    candidate: &Candidate,
    text: &mut String,
) -> Result<(), Memory>
    ensures { OnOk result (string_bytes text.new ≡ string_bytes text.old
        ++ text_if_of format network candidate.now) }
{
    if !is_of(network, candidate) {
        return Ok(());
    }
    put_judged(format, candidate, text)
}

// Appends an offer, and its traces if it is taken.
fn put_judged(format: Format, candidate: &Candidate, text: &mut String) -> Result<(), Memory>
    ensures { OnOk result (string_bytes text.new ≡ string_bytes text.old
        ++ candidate_text format candidate.now) }
{
    put_candidate(format, candidate, text)?;
    if !is_taken(candidate.verdict) {
        return Ok(());
    }
    put_traces(format, candidate.traces.as_slice(), text)
}

fn put_traces(format: Format, traces: &[Trace], text: &mut String) -> Result<(), Memory>
    ensures { OnOk result (string_bytes text.new ≡ string_bytes text.old
        ++ flat_map (trace_text format) traces.now) }
{
    for trace in traces {
        put_trace(format, trace, text)?;
    }
    Ok(())
}

// Appends a path and each of its steps.
fn put_trace(format: Format, trace: &Trace, text: &mut String) -> Result<(), Memory>
    ensures { OnOk result (string_bytes text.new ≡ string_bytes text.old
        ++ trace_text format trace.now) }
{
    put_path(format, &trace.path, text)?;
    put_links(format, trace.steps.as_slice(), text)
}

fn put_links(format: Format, steps: &[Step], text: &mut String) -> Result<(), Memory>
    ensures { OnOk result (string_bytes text.new ≡ string_bytes text.old
        ++ flat_map (link_line format) steps.now) }
{
    for step in steps {
        put_link(format, step, text)?;
    }
    Ok(())
}
