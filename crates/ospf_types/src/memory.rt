//! The error that memory ran out, 30 Memory.
ghost use Rattle.std.specs.Prelude.{Some};
ghost use Rattle.ospf_types.specs.Text.{memory_text};

use std::alloc::{AllocError, AllocFailed};
use std::fmt;
use thiserror::Error;

/// The error that memory ran out.
#[derive(Clone, Copy, Debug, PartialEq, Eq, Error)]
pub struct Memory;

/// Prints the number and the name, `30 Memory`.
impl fmt::Display for Memory {
    ghost output = { λ _. Some memory_text };

    fn fmt<W: fmt::Write>(&self, f: &mut fmt::Formatter<W>) -> fmt::Result {
        f.write_str("30 Memory")
    }
}

impl From<AllocError> for Memory {
    fn from(_e: AllocError) -> Memory {
        Memory
    }
}

impl<T: Drop> From<AllocFailed<T>> for Memory {
    fn from(_e: AllocFailed<T>) -> Memory {
        Memory
    }
}
