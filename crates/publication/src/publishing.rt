//! The writer's side of a publication: append the whole table or its changes, and publish them in
//! one step.
ghost use Rattle.std.specs.Prelude.{◌≡◌, ◌++◌, [], ◌∷◌, map, drop, fold, Some, IsTrue, MatchBool};
ghost use Rattle.std.specs.FinMap.{get};
ghost use mathlib.Core.List.{IsPrefix};
ghost use Rattle.left_right.specs.Sides.{view};
ghost use Rattle.route_table.specs.Deltas.{Lead};
ghost use Rattle.publication.specs.Updates.{gifts, all_of, those_of, ends, whole, deltas, updated};
ghost use Rattle.publication.specs.Updates.{shown_state_of, AreUpdatesAppended, IsRightState};
ghost use Rattle.publication.specs.Published.{HasGrown, IsKnownAfter, IsPublished, IsTableFor};
ghost use Rattle.publication.specs.Published.{name_of};
ghost use Rattle.publication.specs.declared.published_table.Update.TheVariants as update;

use crate::history::{History, HistoryPrefix};
use crate::published_table::Update;
use crate::rule::{PublishStep, TableWriter};
use ospf_types::prefix::Prefix;
use route_table::{Change, Item, Table};
use std::alloc::Global;
use std::sync::Wait;

// Appends the serial of a history, and the history.
fn append_end(writer: &mut TableWriter, serial: u64, front: &HistoryPrefix) -> bool
    ensures desk { writer.new.desk ≡ writer.old.desk }
    ensures pending { IsTrue result → AreUpdatesAppended (ends serial front.now)
        (drop writer.old.behind writer.old.log.items)
        (drop writer.new.behind writer.new.log.items) }
{
    if writer
        .append(Update::Change(Change::Serial(serial)))
        .is_err()
    {
        return false;
    }
    writer.append(Update::List(front.again())).is_ok()
}

// Appends the change that gives the network this item.
fn append_item(writer: &mut TableWriter, alloc: Global, prefix: Prefix, item: &Item) -> bool
    ensures desk { writer.new.desk ≡ writer.old.desk }
    ensures pending { IsTrue result → AreUpdatesAppended (gifts ((prefix, Some item.now) ∷ []))
        (drop writer.old.behind writer.old.log.items)
        (drop writer.new.behind writer.new.log.items) }
{
    match item.change_for(alloc, prefix) {
        Ok(change) => writer.append(Update::Change(change)).is_ok(),
        Err(_) => false,
    }
}

// Appends the item of each network.
fn append_items(writer: &mut TableWriter, alloc: Global, table: &Table) -> bool
    ensures desk { writer.new.desk ≡ writer.old.desk }
    ensures pending { IsTrue result → AreUpdatesAppended (gifts (all_of table.now.items))
        (drop writer.old.behind writer.old.log.items)
        (drop writer.new.behind writer.new.log.items) }
{
    for (prefix, item) in table.items() {
        if !append_item(writer, alloc, prefix, item) {
            return false;
        }
    }
    true
}

// Appends the changes that clear the table and set all of its items, and the history that it
// reflects.
fn append_whole(
    writer: &mut TableWriter,
    alloc: Global,
    table: &Table,
    front: &HistoryPrefix,
) -> bool
    ensures desk { writer.new.desk ≡ writer.old.desk }
    ensures pending { IsTrue result → AreUpdatesAppended (whole table.now front.now)
        (drop writer.old.behind writer.old.log.items)
        (drop writer.new.behind writer.new.log.items) }
{
    if writer.append(Update::Change(Change::Clear)).is_err() {
        return false;
    }
    append_items(writer, alloc, table) && append_end(writer, table.serial(), front)
}

// Appends the item that the network has in the table, or its removal.
fn append_network(writer: &mut TableWriter, prefix: Prefix, table: &Table) -> bool
    ensures desk { writer.new.desk ≡ writer.old.desk }
    ensures pending { IsTrue result → AreUpdatesAppended
        (gifts ((prefix, get table.now.items prefix) ∷ []))
        (drop writer.old.behind writer.old.log.items)
        (drop writer.new.behind writer.new.log.items) }
{
    match table.change_for(prefix) {
        Ok(change) => writer.append(Update::Change(change)).is_ok(),
        Err(_) => false,
    }
}

// Appends the items that these networks have in the table.
fn append_networks(writer: &mut TableWriter, networks: &[Prefix], table: &Table) -> bool
    ensures desk { writer.new.desk ≡ writer.old.desk }
    ensures pending { IsTrue result → AreUpdatesAppended (gifts (those_of table.now.items networks.now))
        (drop writer.old.behind writer.old.log.items)
        (drop writer.new.behind writer.new.log.items) }
{
    for network in networks {
        if !append_network(writer, *network, table) {
            return false;
        }
    }
    true
}

// Appends one change for each of these networks, and the history that the table reflects.
fn append_changes(
    writer: &mut TableWriter,
    networks: &[Prefix],
    table: &Table,
    front: &HistoryPrefix,
) -> bool
    ensures desk { writer.new.desk ≡ writer.old.desk }
    ensures pending { IsTrue result → AreUpdatesAppended (deltas networks.now table.now front.now)
        (drop writer.old.behind writer.old.log.items)
        (drop writer.new.behind writer.new.log.items) }
{
    append_networks(writer, networks, table) && append_end(writer, table.serial(), front)
}

// Publishes the pending updates. If it returns false, they were not published, and readers see the
// same table as before.
fn publish<R: Wait>(rt: &R, writer: TableWriter, front: &HistoryPrefix) -> (TableWriter, bool)
    requires history { front.now.book ≡ writer.desk.shown.value.front.book }
    requires appended { IsRightState front.now writer.desk.shown.value.base
        (fold updated (shown_state_of writer.desk.shown.value) (drop writer.behind writer.log.items)) }
    requires grows { IsPrefix writer.desk.shown.value.front.list front.now.list }
    ensures name { name_of result.0.desk.shown.value ≡ name_of writer.desk.shown.value }
    ensures shown { IsPublished result.1 front.now writer.desk.shown.value
        result.0.desk.shown.value }
    ensures known { IsKnownAfter result.1 (name_of writer.desk.shown.value)
        (view writer.desk.place) (view result.0.desk.place) }
    ensures grows { HasGrown writer.desk.shown.value result.0.desk.shown.value }
    ensures pending { IsTrue result.1 → drop result.0.behind result.0.log.items ≡ [] }
{
    let (writer, done) = writer.publish_as::<PublishStep, R>(rt);
    (writer, done.is_ok())
}

/// Publishes the whole table, whatever updates are pending. The table must reflect the whole
/// history.
///
/// Returns the writer, and true if the table was published. If it was not, readers see the same
/// table as before.
pub fn publish_table<R: Wait>(
    rt: &R,
    alloc: Global,
    writer: TableWriter,
    table: &Table,
    history: &mut History,
) -> (TableWriter, bool)
    requires history { history.old.book ≡ writer.desk.shown.value.front.book }
    requires right { IsTableFor writer.desk.shown.value.base history.old.list table.now }
    ensures name { name_of result.0.desk.shown.value ≡ name_of writer.desk.shown.value }
    ensures shown { IsPublished result.1 history.old writer.desk.shown.value
        result.0.desk.shown.value }
    ensures known { IsKnownAfter result.1 (name_of writer.desk.shown.value)
        (view writer.desk.place) (view result.0.desk.place) }
    ensures history { history.new ≡ history.old }
    ensures grows { HasGrown writer.desk.shown.value result.0.desk.shown.value }
    ensures pending { IsTrue result.1 → drop result.0.behind result.0.log.items ≡ [] }
{
    let mut writer = writer;
    history.look(&writer.published().front);
    let front = history.front();
    if !append_whole(&mut writer, alloc, table, &front) {
        return (writer, false);
    }
    publish(rt, writer, &front)
}

/// Publishes the changes of the table: those of these networks, and no others. No updates may be
/// pending, and the table must reflect the whole history.
///
/// Returns the writer, and true if the changes were published. If they were not, readers see the
/// same table as before.
pub fn publish_table_changes<R: Wait>(
    rt: &R,
    writer: TableWriter,
    networks: &[Prefix],
    table: &Table,
    history: &mut History,
) -> (TableWriter, bool)
    requires clean { drop writer.behind writer.log.items ≡ [] }
    requires history { history.old.book ≡ writer.desk.shown.value.front.book }
    requires right { IsTableFor writer.desk.shown.value.base history.old.list table.now }
    requires changes { Lead writer.desk.shown.value.table.items table.now.items
        (those_of table.now.items networks.now) }
    ensures name { name_of result.0.desk.shown.value ≡ name_of writer.desk.shown.value }
    ensures shown { IsPublished result.1 history.old writer.desk.shown.value
        result.0.desk.shown.value }
    ensures known { IsKnownAfter result.1 (name_of writer.desk.shown.value)
        (view writer.desk.place) (view result.0.desk.place) }
    ensures history { history.new ≡ history.old }
    ensures grows { HasGrown writer.desk.shown.value result.0.desk.shown.value }
    ensures pending { IsTrue result.1 → drop result.0.behind result.0.log.items ≡ [] }
{
    let mut writer = writer;
    history.look(&writer.published().front);
    let front = history.front();
    if !append_changes(&mut writer, networks, table, &front) {
        return (writer, false);
    }
    publish(rt, writer, &front)
}
