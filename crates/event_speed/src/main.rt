//! Compares cores that follow events with cores that are built, over random events in one area and
//! in three.
//!
//! It prints how many events there were and how often the two cores differ. With the name of a
//! recording it measures the recording's last events.
#![tactic(auto)]

mod area;
mod bytes;
mod choices;
mod routers;
mod speed;
mod trial;

use anyhow::Result;
use speed::measure;
use std::env;
use trial::Trial;

// The number of events that are measured by default.
const EVENTS: usize = 100;

fn main(rt: HostRuntime) -> Result<()> {
    let words: Vec<String> = env::args(&rt)?.collect(rt.alloc())?;
    match words.as_slice() {
        [] | [_] => try_events(&rt),
        [_, name] => measure(&rt, name.as_str(), EVENTS),
        [_, name, count] => match count.parse() {
            Ok(count) => measure(&rt, name.as_str(), count),
            Err(_) => usage(&rt),
        },
        _ => usage(&rt),
    }
}

fn usage(rt: &HostRuntime) -> Result<()> {
    Ok(println!(rt; "usage: event_speed [RECORDING [EVENTS]]")?)
}

fn try_events(rt: &HostRuntime) -> Result<()> {
    for areas in [1, 3] {
        let trial = Trial::run(rt, areas)?;
        trial.print(rt)?;
    }
    Ok(())
}
