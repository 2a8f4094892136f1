//! An LSA of a Link State Update, read from its bytes (RFC 2328, A.4).
ghost use Rattle.std.specs.Prelude.{◌≡◌, ◌≤◌, length, IfOk, IfErr, Some, None};
ghost use Rattle.lsa_codec.specs.Faults.{fault_of};
ghost use Rattle.captured_lsas.specs.Reading.{IsReading};

use lsa_codec::{Checked, WireFault, read};
use ospf_types::memory::Memory;
use std::alloc::Global;

/// The LSA in some bytes, or the reason why they are not a valid LSA.
pub(crate) type LsaReading = Result<Checked, WireFault>;

/// Reads an LSA.
pub(crate) fn read_lsa(alloc: Global, bytes: &[u8]) -> Result<LsaReading, Memory>
    ensures { IfOk result (IsReading bytes.now) }
{
    match read(alloc, bytes) {
        Err(WireFault::Memory) => Err(Memory),
        reading => Ok(reading),
    }
}
