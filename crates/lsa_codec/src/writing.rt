//! The writing of an LSA as bytes.
ghost use Rattle.std.specs.Prelude.{◌≡◌, ◌++◌, ℕ, List, None, OnOk, OnErr};
ghost use Rattle.lsa_codec.specs.Spelling.{spelling, Spells};
ghost use Rattle.lsa_codec.specs.Checksum.{IsSound};
ghost use Rattle.lsa_codec.specs.Faults.{fault_of};

use crate::checked::Checked;
use ospf_types::memory::Memory;

/// Appends the bytes of the LSA, which are its only spelling.
///
/// # Errors
///
/// Returns `Memory` if memory runs out. Nothing is appended then.
pub fn write(lsa: &Checked, out: &mut Vec<u8>) -> Result<(), Memory>
    ensures ok { OnOk result (out.new.items ≡ out.old.items ++ spelling lsa.now) }
    ensures err { OnErr result (out.new.items ≡ out.old.items) }
    // No other bytes spell the LSA.
    ensures one { (bytes : List ℕ) → Spells bytes lsa.now → bytes ≡ spelling lsa.now }
    // The appended bytes are sound, spell the LSA and have no fault, so `read` returns the same
    // LSA.
    ensures sound { IsSound (spelling lsa.now) }
    ensures spells { Spells (spelling lsa.now) lsa.now }
    ensures read { fault_of (spelling lsa.now) ≡ None }
{
    out.extend_from_slice(&lsa.bytes)?;
    Ok(())
}
