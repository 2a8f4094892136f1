//! The lines that report changes in words, each appended to a text.
//!
//! If memory runs out, the text may have a part of the line.
ghost use Rattle.std.specs.Prelude.{◌≡◌, ◌++◌, OnOk, string_bytes};
ghost use Rattle.summary_lists.specs.Lists.{kind_of};
ghost use Rattle.change_log.specs.Lines as told;
ghost use Rattle.change_log.specs.Lines.{words_of};

use event_core::DueSummary;
use ospf_types::address::Address;
use ospf_types::memory::Memory;
use ospf_types::prefix::Prefix;
use recording::Fault;
use replay::put_dest;
use route_table::Item;

pub(crate) fn put_set(
    number: usize,
    prefix: Prefix,
    item: &Item,
    text: &mut String,
) -> Result<(), Memory>
    ensures { OnOk result (string_bytes text.new ≡ string_bytes text.old
        ++ words_of number (told.Set prefix item.now)) }
{
    match item {
        Item::Route(entry) => writeln!(text, "{number} set {prefix} {entry}")?,
        Item::Discard => writeln!(text, "{number} set {prefix} discard")?,
    }
    Ok(())
}

pub(crate) fn put_drop(number: usize, prefix: Prefix, text: &mut String) -> Result<(), Memory>
    ensures { OnOk result (string_bytes text.new ≡ string_bytes text.old
        ++ words_of number (told.Drop prefix)) }
{
    writeln!(text, "{number} drop {prefix}")?;
    Ok(())
}

pub(crate) fn put_due(
    number: usize,
    area: u32,
    due: DueSummary,
    text: &mut String,
) -> Result<(), Memory>
    requires { due.kind ≡ kind_of due.dest }
    ensures { OnOk result (string_bytes text.new ≡ string_bytes text.old
        ++ words_of number (told.Due area due.dest due.metric)) }
{
    let (area, kind, metric) = (Address(area), due.kind, due.metric);
    write!(text, "{number} due {area} {kind} ")?;
    put_dest(due.dest, text)?;
    writeln!(text, " {metric}")?;
    Ok(())
}

// The metric of `due` is not printed.
pub(crate) fn put_undue(
    number: usize,
    area: u32,
    due: DueSummary,
    text: &mut String,
) -> Result<(), Memory>
    requires { due.kind ≡ kind_of due.dest }
    ensures { OnOk result (string_bytes text.new ≡ string_bytes text.old
        ++ words_of number (told.Undue area due.dest)) }
{
    let (area, kind) = (Address(area), due.kind);
    write!(text, "{number} undue {area} {kind} ")?;
    put_dest(due.dest, text)?;
    text.push_str("\n")?;
    Ok(())
}

pub(crate) fn put_fault(number: usize, fault: Fault, text: &mut String) -> Result<(), Memory>
    ensures { OnOk result (string_bytes text.new ≡ string_bytes text.old
        ++ words_of number (told.AtFault fault)) }
{
    writeln!(text, "{number} fault {fault}")?;
    Ok(())
}
