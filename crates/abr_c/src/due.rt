//! The summary-LSAs that are due.
ghost use Rattle.std.specs.Prelude.{◌≡◌, length, option_map, slice_get};
ghost use Rattle.abr_c.specs.CTypes as c;
ghost use Rattle.abr_c.specs.Given.{IsOutputGiven};
ghost use Rattle.abr_c.specs.Slots.{core_in};
ghost use Rattle.abr_c.specs.Views.{due_at, due_in};

use crate::c_types::{CDue, CPrefix};
use crate::given::give;
use crate::slot::{Slot, with_core};
use event_core::DueSummary;
use ospf_types::key::Dest;
use std::alloc::Global;

/// Returns the number of summary-LSAs that are due in the area (in host order).
#[unsafe(no_mangle)]
pub extern "C" fn abr_dues(alloc: Global, slot: &mut Slot, area: u32) -> usize
    ensures count { result ≡ length (due_in (core_in slot.old) area) }
    ensures kept { core_in slot.new ≡ core_in slot.old }
{
    with_core!(alloc, slot, 0, |core| core.due(area).unwrap_or(&[]).len())
}

/// Writes number `n` of the summary-LSAs that are due in the area (in host order) to `out`. Returns
/// true if there is one.
#[unsafe(no_mangle)]
pub extern "C" fn abr_due_at(
    alloc: Global,
    slot: &mut Slot,
    area: u32,
    n: usize,
    out: &mut CDue,
) -> bool
    ensures given { IsOutputGiven (due_at (core_in slot.old) area n) result out.old out.new }
    ensures kept { core_in slot.new ≡ core_in slot.old }
{
    let due = with_core!(
        alloc,
        slot,
        false,
        |core| due_among(core.due(area).unwrap_or(&[]), n)
    );
    give(out, due)
}

fn due_among(list: &[DueSummary], n: usize) -> Option<CDue>
    ensures { result ≡ option_map c.due_of (slice_get list.now n) }
{
    let due = list.get(n)?;
    Some(due_of(*due))
}

pub(crate) fn due_of(due: DueSummary) -> CDue
    ensures { result ≡ c.due_of due }
{
    CDue {
        kind: due.kind,
        destination: destination_of(due.dest),
        metric: due.metric,
    }
}

fn destination_of(dest: Dest) -> CPrefix
    ensures { result ≡ c.destination_of dest }
{
    match dest {
        Dest::Net(network) => CPrefix::of(network),
        Dest::Router(id) => CPrefix {
            address: id,
            length: 32,
        },
    }
}
