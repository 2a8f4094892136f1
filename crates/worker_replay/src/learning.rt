//! The tokens of answers, which a forwarder learns.
ghost use Rattle.std.specs.Prelude.{◌≡◌, All, IfOk, IfSome, map};
ghost use mathlib.Core.List.{IsPrefix};
ghost use Rattle.worker_replay.specs.Runs.{IsAfter, reply_of, told_of};
ghost use Rattle.worker_replay.specs.Parts.{IsTokenOf};

use crate::dealing::Answers;
use engine::{Answer, Forwarder, Refusal, Refused, Reply, Told};
use ospf_types::memory::Memory;
use std::alloc::Global;

/// The reply or the refusal of each answer.
pub(crate) type Replies = Vec<Result<Reply, Refusal>>;

/// Learns the tokens of the answers. Returns the forwarder, and the replies and refusals.
pub(crate) fn learn_all(
    alloc: Global,
    mut forwarder: Forwarder,
    answers: Answers,
) -> Result<(Forwarder, Replies), Memory>
    requires { All (IsTokenOf forwarder.name) answers.items }
    ensures name { IfOk result (λ r. r.0.name ≡ forwarder.name) }
    ensures learned { IfOk result (λ r. All (IsAfter r.0.known) answers.items) }
    ensures replies { IfOk result (λ r. r.1.items ≡ map reply_of answers.items) }
{
    let mut replies = Vec::with_capacity(alloc, answers.len())?;
    for answer in answers {
        let (told, reply) = parts(answer);
        replies.push(reply)?;
        forwarder = learn(forwarder, told);
    }
    Ok((forwarder, replies))
}

// Returns the token, and the reply or the refusal.
fn parts(answer: Result<Answer, Refused>) -> (Option<Told>, Result<Reply, Refusal>)
    ensures told { result.0 ≡ told_of answer }
    ensures reply { result.1 ≡ reply_of answer }
{
    match answer {
        Ok(Answer { reply, told }) => (told, Ok(reply)),
        Err(Refused { refusal, told }) => (told, Err(refusal)),
    }
}

// Learns a token, if there is one.
fn learn(forwarder: Forwarder, told: Option<Told>) -> Forwarder
    requires { IfSome told (λ t. t.name ≡ forwarder.name) }
    ensures name { result.name ≡ forwarder.name }
    ensures before { IsPrefix forwarder.known result.known }
    ensures told { IfSome told (λ t. IsPrefix t.list result.known) }
{
    match told {
        Some(told) => forwarder.learn(told),
        None => forwarder,
    }
}
