//! The routing table.
ghost use Rattle.std.specs.Prelude.{◌≡◌, length, take, option_copied, option_map, slice_get};
ghost use Rattle.std.specs.FinMap as map;
ghost use Rattle.abr_c.specs.CTypes as c;
ghost use Rattle.abr_c.specs.Given.{IsOutputGiven, copied};
ghost use Rattle.abr_c.specs.Slots.{core_in};
ghost use Rattle.abr_c.specs.Views.{IsMatchFound, IsLookedUp, built_in, change_at, changes_in};
ghost use Rattle.abr_c.specs.Views.{entries_in, hop_at, item_for, items_from, paths_of, serial_in};

use crate::c_types::{CHop, CItem, CPrefix};
use crate::given::give;
use crate::items::{copy_items, count_items, without_first};
use crate::slot::{Slot, with_core};
use ospf_types::entry::{Entry, PathType};
use ospf_types::hop::{NextHop, Path};
use ospf_types::prefix::Prefix;
use route_table::{Item, Match, Table};
use std::alloc::Global;

/// Returns the serial: the number of events taken.
#[unsafe(no_mangle)]
pub extern "C" fn abr_serial(alloc: Global, slot: &mut Slot) -> u64
    ensures value { result ≡ serial_in (core_in slot.old) }
    ensures kept { core_in slot.new ≡ core_in slot.old }
{
    with_core!(alloc, slot, 0, |core| core.serial())
}

/// Returns the serial of the last event that the table and the due summary-LSAs reflect.
#[unsafe(no_mangle)]
pub extern "C" fn abr_built(alloc: Global, slot: &mut Slot) -> u64
    ensures value { result ≡ built_in (core_in slot.old) }
    ensures kept { core_in slot.new ≡ core_in slot.old }
{
    with_core!(alloc, slot, 0, |core| core.built())
}

/// Writes the longest match of the address (in host order) to `out`. Its kind is 0 if there is
/// none.
#[unsafe(no_mangle)]
pub extern "C" fn abr_lookup(alloc: Global, slot: &mut Slot, address: u32, out: &mut CItem)
    ensures found { IsLookedUp (core_in slot.old) address out.new }
    ensures kept { core_in slot.new ≡ core_in slot.old }
{
    *out = NO_ITEM;
    *out = with_core!(alloc, slot, (), |core| looked_up(core.table(), address));
}

/// Writes the item of the network to `out`. Its kind is 0 if there is none.
#[unsafe(no_mangle)]
pub extern "C" fn abr_get(alloc: Global, slot: &mut Slot, prefix: CPrefix, out: &mut CItem)
    ensures found { out.new ≡ item_for (core_in slot.old) (c.network_in prefix) }
    ensures kept { core_in slot.new ≡ core_in slot.old }
{
    *out = NO_ITEM;
    let Some(network) = prefix.network() else {
        return;
    };
    *out = with_core!(
        alloc,
        slot,
        (),
        |core| item_or_none(network, core.table().get(network))
    );
}

/// Writes next hop number `n` of the network to `out`. Returns true if there is one.
#[unsafe(no_mangle)]
pub extern "C" fn abr_path(
    alloc: Global,
    slot: &mut Slot,
    prefix: CPrefix,
    n: usize,
    out: &mut CHop,
) -> bool
    ensures given { IsOutputGiven (hop_at (core_in slot.old) (c.network_in prefix) n) result out.old
        out.new }
    ensures kept { core_in slot.new ≡ core_in slot.old }
{
    let Some(network) = prefix.network() else {
        return false;
    };
    let hop = with_core!(alloc, slot, false, |core| hop_at(core.table(), network, n));
    give(out, hop)
}

/// Returns the number of networks that the last event changed.
#[unsafe(no_mangle)]
pub extern "C" fn abr_changes(alloc: Global, slot: &mut Slot) -> usize
    ensures count { result ≡ length (changes_in (core_in slot.old)) }
    ensures kept { core_in slot.new ≡ core_in slot.old }
{
    with_core!(alloc, slot, 0, |core| core.changes().len())
}

/// Writes number `n` of these networks to `out`. Returns true if there is one.
#[unsafe(no_mangle)]
pub extern "C" fn abr_change_at(alloc: Global, slot: &mut Slot, n: usize, out: &mut CPrefix) -> bool
    ensures given { IsOutputGiven (change_at (core_in slot.old) n) result out.old out.new }
    ensures kept { core_in slot.new ≡ core_in slot.old }
{
    let change = with_core!(alloc, slot, false, |core| prefix_at(core.changes(), n));
    give(out, change)
}

/// Returns the number of networks in the table.
#[unsafe(no_mangle)]
pub extern "C" fn abr_items(alloc: Global, slot: &mut Slot) -> usize
    ensures count { result ≡ length (entries_in (core_in slot.old)) }
    ensures kept { core_in slot.new ≡ core_in slot.old }
{
    with_core!(alloc, slot, 0, |core| count_items(core.table().items()))
}

/// Writes the items from number `first` on to `out`, as many as fit. Returns their number.
#[unsafe(no_mangle)]
pub extern "C" fn abr_items_from(
    alloc: Global,
    slot: &mut Slot,
    first: usize,
    out: &mut [CItem],
) -> usize
    ensures count { result ≡ length (take (length out.old)
        (items_from (core_in slot.old) first)) }
    ensures written { out.new ≡ copied (items_from (core_in slot.old) first) out.old }
    ensures kept { core_in slot.new ≡ core_in slot.old }
{
    with_core!(
        alloc,
        slot,
        0,
        |core| copy_items(without_first(core.table().items(), first), out)
    )
}

fn looked_up(table: &Table, address: u32) -> CItem
    ensures { IsMatchFound table.now.items address result }
{
    match table.lookup(address) {
        Match::Route(network, entry) => route_of(network, entry),
        Match::Discard(network) => discard_of(network),
        Match::None => NO_ITEM,
    }
}

fn prefix_at(networks: &[Prefix], n: usize) -> Option<CPrefix>
    ensures { result ≡ option_map c.prefix_of (slice_get networks.now n) }
{
    let network = networks.get(n)?;
    Some(CPrefix::of(*network))
}

fn hop_at(table: &Table, network: Prefix, n: usize) -> Option<CHop>
    ensures { result ≡ option_map c.hop_of
        (slice_get (paths_of (map.get table.now.items network)) n) }
{
    match table.get(network)? {
        Item::Route(entry) => hop_among(entry.paths.as_slice(), n),
        Item::Discard => None,
    }
}

fn hop_among(paths: &[Path], n: usize) -> Option<CHop>
    ensures { result ≡ option_map c.hop_of (slice_get paths.now n) }
{
    let path = paths.get(n)?;
    Some(hop_of(*path))
}

fn hop_of(path: Path) -> CHop
    ensures { result ≡ c.hop_of path }
{
    let (kind, interface, address) = match path.hop {
        NextHop::Direct(interface) => (0, interface, 0),
        NextHop::Peer(interface) => (1, interface, 0),
        NextHop::Router(interface, address) => (2, interface, address),
    };
    CHop {
        kind,
        interface,
        has_advertiser: path.advertiser.is_some(),
        address,
        advertiser: path.advertiser.unwrap_or(0),
    }
}

// The item of a network that is not in the table.
const NO_ITEM: CItem = CItem {
    kind: 0,
    prefix: CPrefix {
        address: 0,
        length: 0,
    },
    area: 0,
    cost: 0,
    cost2: 0,
    paths: 0,
};

fn item_or_none(network: Prefix, item: Option<&Item>) -> CItem
    ensures { result ≡ c.item_or_none network (option_copied item.entry) }
{
    match item {
        Some(item) => item_of(network, item),
        None => NO_ITEM,
    }
}

fn item_of(network: Prefix, item: &Item) -> CItem
    ensures { result ≡ c.item_of network item.now }
{
    match item {
        Item::Route(entry) => route_of(network, entry),
        Item::Discard => discard_of(network),
    }
}

// Returns the item of a table entry.
pub(crate) fn item_of_entry(entry: (Prefix, &Item)) -> CItem
    ensures { result ≡ c.item_of_entry (entry.entry.0, entry.entry.1.now) }
{
    item_of(entry.0, entry.1)
}

fn discard_of(network: Prefix) -> CItem
    ensures { result ≡ c.discard_of network }
{
    CItem {
        kind: 1,
        prefix: CPrefix::of(network),
        area: 0,
        cost: 0,
        cost2: 0,
        paths: 0,
    }
}

fn route_of(network: Prefix, entry: &Entry) -> CItem
    ensures { result ≡ c.route_of network entry.now }
{
    CItem {
        kind: kind_number(entry.kind),
        prefix: CPrefix::of(network),
        area: entry.area.unwrap_or(0),
        cost: entry.cost,
        cost2: entry.cost2,
        paths: count_of(entry.paths.as_slice()),
    }
}

fn kind_number(kind: PathType) -> u8
    ensures { result ≡ c.kind_number kind }
{
    match kind {
        PathType::Intra => 2,
        PathType::Inter => 3,
        PathType::External1 => 4,
        PathType::External2 => 5,
    }
}

// Returns the number of paths, at most 2^32 - 1.
fn count_of(paths: &[Path]) -> u32
    ensures { result ≡ c.count_of paths.now }
{
    let count = paths.len();
    if count < 4_294_967_295 {
        count as u32
    } else {
        4_294_967_295
    }
}
