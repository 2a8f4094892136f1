//! The text of recorded packets.

use anyhow::Result;
use captured_lsas::{Recorded, Taken};
use lsa_codec::{Checked, write};
use ospf_types::address::Address;
use ospf_types::key::Scope;
use std::alloc::Global;
use std::fmt::Write;

/// Appends the events of the payload of a datagram, or its fault.
///
/// # Errors
///
/// Returns an error if memory runs out.
pub fn put_taken(alloc: Global, sender: u32, taken: Taken, text: &mut String) -> Result<()> {
    match taken {
        Taken::Fault(fault) => writeln!(text, "note: {fault} from {}", Address(sender))?,
        Taken::Packet {
            seconds,
            recorded,
            ..
        } => {
            for _ in 0..seconds {
                writeln!(text, "second")?;
            }
            for one in recorded {
                put_recorded(alloc, &one, text)?;
            }
        }
    }
    Ok(())
}

fn put_recorded(alloc: Global, recorded: &Recorded, text: &mut String) -> Result<()> {
    match recorded {
        Recorded::Install { scope, lsa, purges } => {
            put_install(alloc, *scope, lsa, text)?;
            if *purges {
                put_purge(*scope, lsa, text)?;
            }
        }
        Recorded::Repeated => writeln!(text, "note: repeated")?,
        Recorded::OtherArea { area, .. } => writeln!(text, "note: of {}", Address(*area))?,
        Recorded::Fault(fault) => writeln!(text, "note: {fault}")?,
        Recorded::Cut(fault) => writeln!(text, "note: {fault}")?,
    }
    Ok(())
}

fn put_scope(scope: Scope, text: &mut String) -> Result<()> {
    match scope {
        Scope::As => write!(text, "as")?,
        Scope::Area(area) => write!(text, "{}", Address(area))?,
    }
    Ok(())
}

fn put_install(alloc: Global, scope: Scope, lsa: &Checked, text: &mut String) -> Result<()> {
    let mut bytes = Vec::new(alloc);
    write(lsa, &mut bytes)?;
    write!(text, "install ")?;
    put_scope(scope, text)?;
    writeln!(text, " {}", hex::encode(alloc, &bytes)?)?;
    Ok(())
}

fn put_purge(scope: Scope, lsa: &Checked, text: &mut String) -> Result<()> {
    let header = lsa.header();
    write!(text, "purge ")?;
    put_scope(scope, text)?;
    write!(text, " {} {} ", header.kind, Address(header.id))?;
    writeln!(text, "{}", Address(header.router))?;
    Ok(())
}
