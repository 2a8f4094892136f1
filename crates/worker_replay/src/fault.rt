//! The reasons why a replay over several workers ended early, and their printed text.
ghost use Rattle.std.specs.Prelude.{Some};
ghost use Rattle.worker_replay.specs.Texts.{many_fault_text};

use ospf_types::memory::Memory;
use replay::ReplayFault;
use std::fmt;
use thiserror::Error;

/// The reason why a replay over several workers ended early.
#[derive(Clone, Copy, Debug, PartialEq, Eq, Error)]
pub enum WorkerReplayFault {
    /// A reason that ends a replay on one thread too.
    Replay(ReplayFault),
    /// A worker's thread that could not be started.
    Spawn,
    /// A reader for which there was no slot at the published table.
    Place,
    /// A lookup that could not enter the published table.
    NoEntry,
}

impl fmt::Display for WorkerReplayFault {
    ghost output = { λ fault. Some (many_fault_text fault) };

    fn fmt<W: fmt::Write>(&self, f: &mut fmt::Formatter<W>) -> fmt::Result {
        match self {
            WorkerReplayFault::Replay(fault) => fault.fmt(f),
            WorkerReplayFault::Spawn => f.write_str("31 Spawn"),
            WorkerReplayFault::Place => f.write_str("46 Place"),
            WorkerReplayFault::NoEntry => f.write_str("no entry"),
        }
    }
}

impl From<Memory> for WorkerReplayFault {
    ghost use Rattle.std.specs.Prelude.{◌≡◌};
    ghost use Rattle.replay.specs.declared.fault.ReplayFault.TheVariants as replay_fault;
    ghost use Rattle.worker_replay.specs.declared.fault.WorkerReplayFault.TheVariants.{Replay};

    ghost from_gives = { λ _ given. given ≡ Replay replay_fault.Memory };

    fn from(_e: Memory) -> WorkerReplayFault {
        WorkerReplayFault::Replay(ReplayFault::Memory)
    }
}
