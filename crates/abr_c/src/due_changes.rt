//! The changes that the last event made to the due summary-LSAs.
ghost use Rattle.std.specs.Prelude.{◌≡◌, length, slice_get};
ghost use Rattle.abr_c.specs.CTypes as c;
ghost use Rattle.abr_c.specs.Given.{IsOutputGiven};
ghost use Rattle.abr_c.specs.Slots.{core_in};
ghost use Rattle.abr_c.specs.Views.{due_changes_in};

use crate::c_types::CDueChange;
use crate::due::due_of;
use crate::given::give;
use crate::slot::{Slot, with_core};
use event_core::{DueChanges, DueSummary};
use ospf_types::key::Dest;
use std::alloc::Global;

/// Returns the number of summary-LSAs that the last event changed, over all areas.
#[unsafe(no_mangle)]
pub extern "C" fn abr_due_changes(alloc: Global, slot: &mut Slot) -> usize
    ensures count { result ≡ c.counted (length (due_changes_in (core_in slot.old))) }
    ensures kept { core_in slot.new ≡ core_in slot.old }
{
    with_core!(alloc, slot, 0, |core| count_changes(core.due_changes()))
}

/// Writes change number `n` to `out`, counted area by area. Returns true if there is one.
#[unsafe(no_mangle)]
pub extern "C" fn abr_due_change_at(
    alloc: Global,
    slot: &mut Slot,
    n: usize,
    out: &mut CDueChange,
) -> bool
    ensures given { IsOutputGiven (slice_get (due_changes_in (core_in slot.old)) n) result out.old
        out.new }
    ensures kept { core_in slot.new ≡ core_in slot.old }
{
    let change = with_core!(alloc, slot, false, |core| change_at(core.due_changes(), n));
    give(out, change)
}

fn count_changes(changes: &DueChanges) -> usize
    ensures { result ≡ c.counted (length (c.due_changes_of changes.now)) }
{
    let mut count = 0_usize;
    for place in 0..changes.areas() {
        let Some((_, metrics)) = changes.at(place) else {
            unreachable!()
        };
        count = count.saturating_add(metrics.len());
    }
    count
}

fn change_at(changes: &DueChanges, n: usize) -> Option<CDueChange>
    ensures { result ≡ slice_get (c.due_changes_of changes.now) n }
{
    let mut left = n;
    for place in 0..changes.areas() {
        let Some((area, metrics)) = changes.at(place) else {
            unreachable!()
        };
        if let Some(change) = metrics.get(left) {
            return Some(change_of(area, *change));
        }
        left -= metrics.len();
    }
    None
}

fn change_of(area: u32, change: (Dest, Option<u32>)) -> CDueChange
    ensures { result ≡ c.due_change_of area change }
{
    let (dest, metric) = change;
    CDueChange {
        area,
        is_due: metric.is_some(),
        due: due_of(DueSummary::of(dest, metric.unwrap_or(0))),
    }
}
