//! Tests of a replay and of an engine for which one request for memory is refused.
//!
//! The program runs once for each of the requests, which is refused in that run. Each run has to
//! print that both end rightly, or to end with an error of its own.
#![tactic(auto)]

mod engines;
mod page;
mod replays;

use anyhow::Result;

fn main(rt: HostRuntime) -> Result<()> {
    let (replay, engine) = (replays::is_right(&rt), engines::is_right(&rt));
    println!(rt; "a replay ends {}", word(replay))?;
    println!(rt; "an engine ends {}", word(engine))?;
    Ok(())
}

fn word(is_right: bool) -> &'static str {
    if is_right { "rightly" } else { "wrongly" }
}
