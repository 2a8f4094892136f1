//! Explains an address whose network 2,000 AS-external-LSAs advertise with one forwarding address.
//! All of them are taken.
use crate::core_after::core_after;
use anyhow::{Result, anyhow};
use event_core::Event;
use explanation::{Candidate, Verdict, explain};
use lsa_codec::{Checked, read, sum_of};
use ospf_types::key::Scope;
use std::alloc::Global;

/// The address 10.15.0.1.
const ADDRESS: u32 = 0x0a0f_0001;

const LSAS: u16 = 2000;

pub fn run(rt: &HostRuntime) -> Result<()> {
    let mut core = core_after(rt, "fates.rec")?;
    for number in 0..LSAS {
        let lsa = external(rt.alloc(), number)?;
        let scope = Scope::As;
        core.apply(Event::Install { scope, lsa })?;
    }
    match explain(rt.alloc(), &core, ADDRESS)? {
        Some(candidates) => print_counts(rt, &candidates),
        None => Err(anyhow!("behind")),
    }
}

// Returns an AS-external-LSA of 10.0.0.2 with its own Link State ID (RFC 2328, E). It advertises
// 10.15.0.0/16 at metric 1 of type 1, with the forwarding address 10.3.0.9.
fn external(alloc: Global, number: u16) -> Result<Checked> {
    let [high, low] = number.to_be_bytes();
    let mut bytes = [
        0, 1, 2, 5, 10, 15, high, low, 10, 0, 0, 2, 0x80, 0, 0, 1, 0, 0, 0, 36, 255, 255, 0, 0, 0,
        0, 0, 1, 10, 3, 0, 9, 0, 0, 0, 0,
    ];
    [bytes[16], bytes[17]] = sum_of(&bytes).unwrap_or(0).to_be_bytes();
    Ok(read(alloc, &bytes)?)
}

fn print_counts(rt: &HostRuntime, candidates: &[Candidate]) -> Result<()> {
    let offers = candidates.len();
    let taken = candidates.iter().filter(|c| is_taken_once(c)).count();
    println!(rt; "10.15.0.1: {offers} offers, {taken} of them taken, with one trace each")?;
    Ok(())
}

fn is_taken_once(candidate: &Candidate) -> bool {
    candidate.verdict == Verdict::Taken && candidate.traces.len() == 1
}
