//! A core at the end of a recording.
use anyhow::Result;
use event_core::Core;
use recording::{Line, parse};
use std::fs;
use std::hash::RandomState;

/// Returns the core after the recording.
pub fn core_after(rt: &HostRuntime, name: &str) -> Result<Core> {
    let text = fs::read(rt, name)?;
    let (_, base, lines) = parse(rt.alloc(), &text)?.into_parts();
    let mut core = Core::open_from(rt.alloc(), base, RandomState::new(rt)?)?;
    for line in lines {
        if let Line::Event(event) = line {
            core.apply(event)?;
        }
    }
    Ok(core)
}
