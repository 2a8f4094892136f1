//! The items of a table, in order.
ghost use Rattle.std.specs.Prelude.{◌≡◌, ◌<◌, ◌^◌, length, take, drop, map};
ghost use Rattle.abr_c.specs.CTypes.{item_of_entry};
ghost use Rattle.abr_c.specs.Given.{copied};

use crate::c_types::CItem;
use crate::table::item_of_entry;
use route_table::Items;

/// Writes items to the start of `out`, as many as there are and fit. Returns their number.
pub(crate) fn copy_items(mut items: Items<'_>, out: &mut [CItem]) -> usize
    ensures count { result ≡ length (take (length out.old) (map item_of_entry items.entry)) }
    ensures written { out.new ≡ copied (map item_of_entry items.entry) out.old }
{
    let mut count = 0;
    while count < out.len() {
        let Some(entry) = items.next() else {
            return count;
        };
        out[count] = item_of_entry(entry);
        count += 1;
    }
    count
}

/// Returns the items without the first `first` ones.
pub(crate) fn without_first<'a>(mut items: Items<'a>, first: usize) -> Items<'a>
    ensures { result ≡ drop first items.entry }
{
    let mut passed = 0;
    while passed < first {
        let Some(_) = items.next() else {
            return items;
        };
        passed += 1;
    }
    items
}

pub(crate) fn count_items(items: Items<'_>) -> usize
    requires { length items < 2 ^ 63 }
    ensures { result ≡ length items.entry }
{
    items.count()
}
