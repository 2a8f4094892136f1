//! Events are dealt to lists in turn, and their answers are collected in order.
ghost use Rattle.std.specs.Prelude.{◌≡◌, ◌<◌, List, [], ◌∷◌, length, map, reverse, IfOk, OnOk};
ghost use Rattle.event_state.specs.declared.event.Event.{Event as EventValue};
ghost use Rattle.publication.specs.Names.{Name};
ghost use Rattle.engine.specs.Answers.{AreAnswered};
ghost use Rattle.worker_replay.specs.Dealing.{IsDealt, AreAnsweredDealt, AreAnswersTaken};

use engine::{Answer, Event, Refused};
use ospf_types::memory::Memory;
use std::alloc::Global;

/// The answers to a list of events, in the order of the events.
pub(crate) type Answers = Vec<Result<Answer, Refused>>;

/// Deals the events to `count` lists in turn. The first event is the first of the first list.
pub(crate) fn deal(
    alloc: Global,
    events: Vec<Event>,
    count: usize,
) -> Result<Vec<Vec<Event>>, Memory>
    requires { 0 < count }
    ensures dealt { IfOk result (λ lists. IsDealt events.items
        (map (λ list. list.items) lists.items)) }
    ensures count { IfOk result (λ lists. length lists.items ≡ count) }
{
    let mut events = events;
    let mut lists = empty_lists(alloc, count)?;
    while let Some(event) = events.pop() {
        deal_before(&mut lists, event)?;
    }
    each_reversed(alloc, lists)
}

fn empty_lists(alloc: Global, count: usize) -> Result<Vec<Vec<Event>>, Memory>
    ensures empty { IfOk result (λ lists. IsDealt []
        (map (λ list. reverse list.items) lists.items)) }
    ensures count { IfOk result (λ lists. length lists.items ≡ count) }
{
    let mut lists = Vec::with_capacity(alloc, count)?;
    for _ in 0..count {
        lists.push(Vec::new(alloc))?;
    }
    Ok(lists)
}

// Deals an event that comes before all dealt ones. Each list moves up by one, the last one to the
// front, and the event is added to the first. Each list is in reverse order.
fn deal_before(lists: &mut Vec<Vec<Event>>, event: Event) -> Result<(), Memory>
    requires { 0 < length lists.old.items }
    ensures dealt { (events : List EventValue)
        → IsDealt events (map (λ list. reverse list.items) lists.old.items)
        → OnOk result (IsDealt (event ∷ events)
        (map (λ list. reverse list.items) lists.new.items)) }
    ensures count { length lists.new.items ≡ length lists.old.items }
{
    lists.rotate_right(1);
    lists[0].push(event)?;
    Ok(())
}

/// Returns the answers to `count` events in the order of the events, which were dealt to the lists
/// in turn.
pub(crate) fn collect(alloc: Global, lists: Vec<Answers>, count: usize) -> Result<Answers, Memory>
    ensures { IfOk result (λ answers. (name : Name) (events : List EventValue) → length events
        ≡ count → AreAnsweredDealt name events (map (λ list. list.items) lists.items)
        → AreAnswered name events answers.items) }
{
    let mut lists = each_reversed(alloc, lists)?;
    let mut answers = Vec::with_capacity(alloc, count)?;
    for _ in 0..count {
        let Some(answer) = take_next(&mut lists) else {
            return Ok(answers);
        };
        answers.push(answer)?;
    }
    Ok(answers)
}

// Removes the first answer of the first list, which then becomes the last list. Each list is in
// reverse order.
fn take_next(lists: &mut Vec<Answers>) -> Option<Result<Answer, Refused>>
    ensures { (name : Name) (events : List EventValue)
        → AreAnsweredDealt name events (map (λ list. reverse list.items) lists.old.items)
        → AreAnswersTaken name events result (map (λ list. reverse list.items) lists.new.items) }
{
    if lists.is_empty() {
        return None;
    }
    let answer = lists[0].pop();
    lists.rotate_left(1);
    answer
}

fn each_reversed<T: Drop>(alloc: Global, lists: Vec<Vec<T>>) -> Result<Vec<Vec<T>>, Memory>
    ensures items { IfOk result (λ now. map (λ list. list.items) now.items
        ≡ map (λ list. reverse list.items) lists.items) }
    ensures backwards { IfOk result (λ now. map (λ list. reverse list.items) now.items
        ≡ map (λ list. list.items) lists.items) }
    ensures count { IfOk result (λ now. length now.items ≡ length lists.items) }
{
    let mut now = Vec::with_capacity(alloc, lists.len())?;
    for list in lists {
        now.push(reversed(list))?;
    }
    Ok(now)
}

pub(crate) fn reversed<T>(list: Vec<T>) -> Vec<T>
    ensures { result.items ≡ reverse list.items }
{
    let mut list = list;
    list.reverse();
    list
}
