//! The history of an engine's events. It only grows, and only its one owner adds to it. It exists
//! only in the proofs: the bytes stored for it are its length.
//!
//! The history is a part of a book's log. A page of the log is an event, written by a pen, and it
//! names the pen that may write the next page.
//!
//! The rule of the book is that the word of each pen that wrote is at home. A pen whose word is
//! away has written nothing, so its holder knows all of its own pages.
ghost use Rattle.std.specs.Prelude.{◌≡◌, ◌<◌, ◌≤◌, ◌^◌, ◌++◌, ◌∷◌, ◌⊎◌, [], length};
ghost use mathlib.Core.List.{IsPrefix};
ghost use Rattle.logbook.specs.Pages.{may_write};
ghost use Rattle.publication.specs.HistoryRules.{head_of};

use event_state::Event;
use logbook::{Gain, Offer, Opening, Pen, Plain, Play, Rule, Seen, Start, Word};
use std::marker::Model;

/// An event, with the key of the pen that wrote it, and of the pen that may write the next page. No
/// value of this type is created.
pub struct Page {
    pub event: Event,
    pub pen: u64,
    pub next: u64,
}

/// The rule of the book: the word of each pen that wrote is at home.
pub struct HistoryRule;

impl Rule<Page, u64> for HistoryRule {
    ghost use Rattle.std.specs.Prelude.{[]};
    ghost use base.Fml.{ftrue};
    ghost use Rattle.publication.specs.HistoryRules.{AreWordsHome};

    ghost holds = { λ cells log. AreWordsHome cells log };

    ghost first = { [] };

    ghost hinted = { λ n log. Unit {0} };

    ghost shows = { λ log. [] };

    ghost keeps = { λ names log. ftrue };

    ghost moves = { λ ask before after answer. Unit {0} };
}

/// The rule of a log with one entry, the key of an author's first pen. Nothing is added to it.
pub struct FirstPenRule;

impl Rule<u64, u64> for FirstPenRule {
    ghost use Rattle.std.specs.Prelude.{[]};
    ghost use base.Fml.{ftrue};

    ghost holds = { λ cells log. Unit {0} };

    ghost first = { [] };

    ghost hinted = { λ n log. Unit {0} };

    ghost shows = { λ log. [] };

    ghost keeps = { λ names log. ftrue };

    ghost moves = { λ ask before after answer. Unit {0} };
}

impl Opening<Pen, u64> for FirstPenRule {
    ghost use Rattle.std.specs.Prelude.{[], ◌∷◌};

    ghost log = { λ n pen. pen.nib.key ∷ [] };
}

/// The exchange of a caller that trades nothing.
pub struct NoTrade;

impl Gain<Page, u64> for NoTrade {
    ghost use base.Fml.{ftrue};

    ghost after = { λ names about answer. ftrue };
}

/// The step that adds a word, with its pen.
pub struct AddsWord;

impl Play<Page, u64> for AddsWord {
    ghost use Rattle.publication.specs.HistoryRules.{Makes};

    ghost then = { Makes };
}

/// The step that reads the log, and does not change it.
pub struct ReadsLog;

impl Play<Page, u64> for ReadsLog {
    ghost use Rattle.publication.specs.HistoryRules.{Looks};

    ghost then = { Looks };
}

/// The request of the steps that write no page: `AddsWord` and `ReadsLog`.
pub struct WritesNoPage;

impl Plain<u64, Page, u64> for WritesNoPage {
    ghost use Rattle.std.specs.Prelude.{None};
    ghost use Rattle.event_state.specs.declared.event.Event.TheVariants.{Second};

    ghost ask = { λ n. record { event = Second; pen = 0; next = 0 } };

    ghost state = { λ n. None };
}

/// The request of an author: an event, with its pen and the pen that may write the next page.
#[derive(Drop)]
pub struct NewPage<'a> {
    event: &'a Event,
    pen: &'a Pen,
    next: &'a Pen,
}

/// The step that adds a page.
pub struct AddsEvent;

impl Play<Page, u64> for AddsEvent {
    ghost use Rattle.publication.specs.HistoryRules.{AddsPage};

    ghost then = { AddsPage };
}

impl<'a> Plain<NewPage<'a>, Page, u64> for AddsEvent {
    ghost use Rattle.std.specs.Prelude.{None};

    ghost ask = { λ w. record { event = w.event.now; pen = w.pen.now.nib.key; next = w.next.now.nib.key } };

    ghost state = { λ w. None };
}

type Log = Seen<Page, u64, HistoryRule>;

type Head = Word<Page, u64, HistoryRule>;

type FirstPen = Seen<u64, u64, FirstPenRule>;

/// A prefix of a history, with its length.
pub struct HistoryPrefix {
    count: u64,
    log: Log,
    first: FirstPen,
}

// proof: a value is dropped by one call, not part by part at each exit of a function.
impl Drop for HistoryPrefix {
    fn drop(self) {
        let HistoryPrefix {
            count: _,
            log: _log,
            first: _first,
        } = self;
    }
}

impl Model for HistoryPrefix {
    ghost use Rattle.std.specs.Prelude.{◌≡◌, length};
    ghost use Rattle.publication.specs.Lines.{HistoryLine};
    ghost use Rattle.publication.specs.HistoryRules.{line_of};

    ghost Value = { HistoryLine };

    ghost view = { λ f. line_of f.log.book f.first.log f.log.log };

    ghost invariant = { λ f. f.count ≡ length (line_of f.log.book f.first.log f.log.log).list };
}

impl HistoryPrefix {
    /// Returns the number of events.
    pub fn len(&self) -> u64
        ensures { result ≡ length self.now.list }
    {
        self.count
    }

    /// Returns a copy.
    pub fn again(&self) -> HistoryPrefix
        ensures { result ≡ self.now }
    {
        HistoryPrefix {
            count: self.count,
            log: self.log.again(),
            first: self.first.again(),
        }
    }

    /// Returns the longer of two prefixes of one history. The other one is a prefix of it.
    pub fn longer(&self, other: &HistoryPrefix) -> HistoryPrefix
        requires { other.now.book ≡ self.now.book }
        ensures one { (result ≡ self.now) ⊎ (result ≡ other.now) }
        ensures same { length other.now.list ≤ length self.now.list → result ≡ self.now }
        ensures this { IsPrefix self.now.list result.list }
        ensures that { IsPrefix other.now.list result.list }
    {
        let mut both = self.log.again();
        both.learn(&other.log);
        if self.count < other.count {
            other.again()
        } else {
            self.again()
        }
    }
}

/// The owner of a history, with all of it. Its pen may write the next page.
pub struct History {
    head: Head,
    pen: Pen,
    count: u64,
    log: Log,
    first: FirstPen,
}

// proof: a value is dropped by one call, not part by part at each exit of a function.
impl Drop for History {
    fn drop(self) {
        let History {
            head: _head,
            pen: _pen,
            count: _,
            log: _log,
            first: _first,
        } = self;
    }
}

impl Model for History {
    ghost use Rattle.std.specs.Prelude.{◌≡◌, length};
    ghost use Rattle.logbook.specs.Pages.{may_write};
    ghost use Rattle.publication.specs.Lines.{HistoryLine};
    ghost use Rattle.publication.specs.HistoryRules.{line_of, head_of, IsHistory};

    ghost Value = { HistoryLine };

    ghost view = { λ a. line_of a.log.book a.first.log a.log.log };

    ghost invariant = { λ a. (a.head ≡ head_of a.log.book) × (a.count ≡ length (line_of a.log.book a.first.log a.log.log).list) × IsHistory a.pen.book a.pen.nib a.log.book a.first.log a.log.log };
}

// Returns a pen that has written nothing, with a new word.
fn new_pen(head: &Head, log: &Log) -> Pen
    requires { head.now ≡ head_of log.now.book }
    ensures { (result.book ≡ log.now.book) × (result.nib.right ≡ may_write) }
{
    let mut log = log.again();
    let mut offer: Offer<Page, u64, HistoryRule, NoTrade> = log.plain::<NoTrade, u64, WritesNoPage>(
        &0,
    );
    let mut pen = log.no_pen();
    head.compare_exchange::<AddsWord, NoTrade>(0, 0, &mut log, &mut offer, &mut pen);
    let _word: Head = Word::tracked(0, &mut pen);
    pen
}

impl History {
    /// Opens a new, empty history.
    pub fn open() -> History
        ensures { result.list ≡ [] }
    {
        let (log, mut first, _second) = Seen::open(Start::alone(), 0, 0);
        let head = Word::tracked(0, &mut first);
        let pen = new_pen(&head, &log);
        let (first, _pens) = Seen::open_row::<Pen, FirstPenRule>(&pen, Start::alone(), 0);
        History {
            head,
            pen,
            count: 0,
            log,
            first,
        }
    }

    /// Returns the number of events.
    pub fn len(&self) -> u64
        ensures { result ≡ length self.now.list }
    {
        self.count
    }

    /// Returns the whole history as a prefix.
    pub fn front(&self) -> HistoryPrefix
        ensures { result ≡ self.now }
    {
        HistoryPrefix {
            count: self.count,
            log: self.log.again(),
            first: self.first.again(),
        }
    }

    /// Proves that a prefix of the history is a prefix of the events that its owner has.
    pub(crate) fn look(&mut self, front: &HistoryPrefix)
        requires { front.now.book ≡ self.old.book }
        ensures same { self.new ≡ self.old }
        ensures begun { IsPrefix front.now.list self.old.list }
    {
        // proof: the pen has written nothing in this longer log.
        self.log.learn(&front.log);
        let mut offer: Offer<Page, u64, HistoryRule, NoTrade> = self
            .log
            .plain::<NoTrade, u64, WritesNoPage>(&0);
        self.head
            .compare_exchange::<ReadsLog, NoTrade>(0, 0, &mut self.log, &mut offer, &mut self.pen);
    }

    /// Appends an event.
    pub fn add(&mut self, event: &Event)
        requires { length self.old.list < 2 ^ 62 }
        ensures { (self.new.book ≡ self.old.book)
            × (self.new.list ≡ self.old.list ++ event.now ∷ []) }
    {
        let next = new_pen(&self.head, &self.log);
        let writing = NewPage {
            event,
            pen: &self.pen,
            next: &next,
        };
        let mut offer: Offer<Page, u64, HistoryRule, NoTrade> = self
            .log
            .plain::<NoTrade, NewPage<'_>, AddsEvent>(&writing);
        self.head
            .compare_exchange::<AddsEvent, NoTrade>(0, 0, &mut self.log, &mut offer, &mut self.pen);
        self.pen = next;
        self.count += 1;
    }
}
