//! The lines of a run, printed in order.
ghost use Rattle.std.specs.Prelude.{◌≡◌, ◌++◌, ◌+◌, ◌<◌, ◌^◌, [], ◌∷◌, length, OnOk, IfOk};
ghost use Rattle.std.specs.Prelude.{string_bytes};
ghost use Rattle.route_table.specs.declared.table.Match.{Match};
ghost use Rattle.route_table.specs.Tables.{IsMatch};
ghost use Rattle.replay.specs.Lines.{lookup_line};
ghost use Rattle.worker_replay.specs.Runs.{rolled_line};
ghost use Rattle.worker_replay.specs.Parts.{HasAllReplies, AppendsAll, AppendsLine};

use crate::asking::Ask;
use engine::{Refusal, Reply, Seen};
use ospf_types::memory::Memory;
use output_lines::Format;
use replay::json_lines::Lookup;
use replay::{put_answer, put_found, put_roll};
use route_table::Match;

/// The answer to a roll: the serial, or its refusal. `None` if there was no roll.
pub(crate) type Rolled = Option<Result<u64, Refusal>>;

/// The outcome of a run, except for its replies: the answer to the roll, and the published table.
#[derive(Clone, Copy)]
pub(crate) struct Outcome<'a> {
    pub(crate) rolled: Rolled,
    pub(crate) seen: &'a Seen,
    /// The form of the lines.
    pub(crate) format: Format,
}

impl Outcome<'_> {
    /// Appends the output of each line. The lines are numbered from `first` on.
    ///
    /// A lookup prints its match in the table that is seen. The last roll prints the answer to the
    /// roll, and an event prints the next of the replies.
    pub(crate) fn put_lines(
        self,
        first: usize,
        asks: Vec<Ask>,
        replies: &[Result<Reply, Refusal>],
        text: &mut String,
    ) -> Result<(), Memory>
        requires replies { HasAllReplies asks.items replies.now }
        requires few { first + length asks.items < 2 ^ 64 }
        ensures { OnOk result (AppendsAll self.entry.format self.entry.seen.now.table
            self.entry.seen.now.table.serial first asks.items replies.now self.entry.rolled
            (string_bytes text.old) (string_bytes text.new)) }
    {
        let mut number = first;
        let mut left = replies;
        for ask in asks {
            left = self.put_line(number, ask, left, text)?;
            number += 1;
        }
        Ok(())
    }

    // Appends the output of one line. Returns the replies that are left.
    fn put_line<'a>(
        self,
        number: usize,
        ask: Ask,
        replies: &'a [Result<Reply, Refusal>],
        text: &mut String,
    ) -> Result<&'a [Result<Reply, Refusal>], Memory>
        requires { HasAllReplies (ask ∷ []) replies.now }
        ensures { IfOk result (λ rest. AppendsLine self.entry.format self.entry.seen.now.table
            self.entry.seen.now.table.serial number ask replies.now rest.now self.entry.rolled
            (string_bytes text.old) (string_bytes text.new)) }
    {
        match ask {
            Ask::Event => {
                let [reply, rest @ ..] = replies else {
                    unreachable!()
                };
                put_answer(self.format, number, *reply, text)?;
                Ok(rest)
            }
            Ask::Lookup(address) => {
                put_lookup(self.format, number, address, self.seen, text)?;
                Ok(replies)
            }
            Ask::Roll { is_last } => {
                put_rolled(self.format, number, is_last, self.rolled, text)?;
                Ok(replies)
            }
        }
    }
}

// Appends the line of a lookup in the table that is seen.
fn put_lookup(
    format: Format,
    number: usize,
    address: u32,
    seen: &Seen,
    text: &mut String,
) -> Result<(), Memory>
    ensures { OnOk result ((found : Match) × IsMatch seen.now.table.items address found
        × (string_bytes text.new ≡ string_bytes text.old
        ++ lookup_line format number address seen.now.table.serial found)) }
{
    let lookup = Lookup {
        line: number,
        address,
        serial: seen.serial(),
    };
    // proof: the borrow checker would not see that a match kept in a variable may borrow a route.
    match seen.find(address) {
        Match::Route(network, entry) => {
            let found = Match::Route(network, entry);
            put_found(format, lookup, &found, text)
        }
        Match::Discard(network) => put_found(format, lookup, &Match::Discard(network), text),
        Match::None => put_found(format, lookup, &Match::None, text),
    }
}

// Appends the answer to the roll, at the last line that asks for it.
fn put_rolled(
    format: Format,
    number: usize,
    is_last: bool,
    rolled: Rolled,
    text: &mut String,
) -> Result<(), Memory>
    ensures { OnOk result (string_bytes text.new ≡ string_bytes text.old
        ++ rolled_line format is_last number rolled) }
{
    if !is_last {
        return Ok(());
    }
    match rolled {
        Some(answer) => put_roll(format, number, answer, text),
        None => Ok(()),
    }
}
