//! Measures the time that a core takes for each of the last events of a recording.

use anyhow::Result;
use event_core::Core;
use recording::{Line, parse};
use std::alloc::Global;
use std::fs;
use std::hash::RandomState;
use std::io::Print;
use std::random::RandomSource;
use std::rt::Files;
use std::time::{Clock, Instant};

/// Runs the recording, and prints in nanoseconds the times of its last events: the median, the 90th
/// and the 99th percentile, and the greatest. Reading lines is not included.
///
/// # Errors
///
/// Returns an error if the recording cannot be read or is not valid, if memory runs out, or if the
/// clock or standard output fails.
pub fn measure<R: Files + AllocGlobal + RandomSource + Clock + Print>(
    rt: &R,
    name: &str,
    count: usize,
) -> Result<()> {
    let text = fs::read(rt, name)?;
    let (_, base, lines) = parse(rt.alloc(), &text)?.into_parts();
    let mut core = Core::open_from(rt.alloc(), base, RandomState::new(rt)?)?;
    let first = lines.len().saturating_sub(count);
    let mut times = Vec::new(rt.alloc());
    for (place, line) in lines.into_iter().enumerate() {
        let start = Instant::now(rt)?;
        run(&mut core, line);
        let time = nanoseconds_since(rt, start)?;
        if place >= first {
            times.push(time)?;
        }
    }
    times.sort_unstable();
    print(rt, times.as_slice())
}

// Runs a line.
fn run(core: &mut Core, line: Line) {
    match line {
        Line::Event(event) => {
            let _ = core.apply(event);
        }
        Line::Lookup(address) => {
            let _ = core.table().lookup(address);
        }
        Line::Roll => {
            let _ = core.roll();
        }
    }
}

// Prints the percentiles of sorted times.
fn print(rt: &impl Print, times: &[u64]) -> Result<()> {
    let count = times.len();
    let (median, most) = (percentile(times, 50), percentile(times, 100));
    let (ninety, ninety_nine) = (percentile(times, 90), percentile(times, 99));
    Ok(println!(rt;
        "{count} events: median {median}, 90th {ninety}, 99th {ninety_nine}, greatest {most} ns"
    )?)
}

// Returns the least time that `hundredth` in a hundred times do not exceed.
fn percentile(times: &[u64], hundredth: usize) -> u64 {
    let rank = times.len().saturating_mul(hundredth).div_ceil(100);
    times.get(rank.saturating_sub(1)).copied().unwrap_or(0)
}

fn nanoseconds_since(rt: &impl Clock, start: Instant) -> Result<u64> {
    let elapsed = start.elapsed(rt)?;
    Ok(u64::try_from(elapsed.as_nanos()).unwrap_or(u64::MAX))
}
