//! Prints the explanation of an address, as text and as JSON. A transit network is taken, over a
//! path of three links, before a stub network that costs more. There are also a summary of an
//! active range, and an AS-external-LSA of a router that is not reached.
mod samples;

use anyhow::Result;
use explained_replay::{Explained, put_explanation};
use output_lines::Format;
use route_table::Table;
use samples::{all_candidates, fill};
use std::hash::RandomState;

/// The address 203.0.113.9.
const ADDRESS: u32 = 0xcb00_7109;

pub fn run(rt: &HostRuntime) -> Result<()> {
    let mut table = Table::new(rt.alloc(), 14, RandomState::new(rt)?);
    fill(rt.alloc(), &mut table)?;
    let candidates = all_candidates(rt.alloc())?;
    let explained = Explained {
        address: ADDRESS,
        table: &table,
        candidates: candidates.as_slice(),
    };
    let mut text = String::new(rt.alloc());
    put_explanation(Format::Text, explained, &mut text)?;
    put_explanation(Format::Json, explained, &mut text)?;
    print!(rt; "{text}")?;
    Ok(())
}
