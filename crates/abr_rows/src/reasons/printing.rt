//! The text of a due summary: its metric and the reason, and a line for each source.
use anyhow::Result;
use due_explanation::{DueExplained, DueReason, DueSource, DueVerdict};
use ospf_types::address::Address;

pub(crate) fn print_explained(rt: &HostRuntime, explained: &DueExplained) -> Result<()> {
    match explained.metric {
        Some(metric) => print!(rt; "  due at {metric}")?,
        None => print!(rt; "  not due")?,
    }
    match &explained.reason {
        DueReason::Sources(sources) => {
            println!(rt; ", {} sources", sources.len())?;
            for source in sources {
                print_source(rt, source)?;
            }
        }
        reason => println!(rt; ": {reason:?}")?,
    }
    Ok(())
}

fn print_source(rt: &HostRuntime, source: &DueSource) -> Result<()> {
    print!(rt; "    {:?} of {}", source.kind, Address(source.area))?;
    match source.cost {
        Some(cost) => print!(rt; " cost {cost}")?,
        None => {}
    }
    match &source.verdict {
        DueVerdict::InRange(range) => println!(rt; ": InRange {range}")?,
        verdict => println!(rt; ": {verdict:?}")?,
    }
    Ok(())
}
