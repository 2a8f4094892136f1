//! The reading of an LSA from bytes, with the order of its checks (RFC 2328, A.4).
ghost use Rattle.std.specs.Prelude.{◌≡◌, ◌≤◌, length, IfOk, MatchResult, IsOkUnless, drop};
ghost use Rattle.ospf_types.specs.Lsa.{Lsa};
ghost use Rattle.lsa_codec.specs.Spelling.{Spells};
ghost use Rattle.lsa_codec.specs.Checksum.{IsSound};
ghost use Rattle.lsa_codec.specs.Faults.{fault_of, body_fault_of};
ghost use Rattle.lsa_codec.specs.Faults.{is_unknown_kind as is_unknown_kind_test};
ghost use Rattle.lsa_codec.specs.Faults.{is_other_router as is_other_router_test};

use crate::body_checks::body_findings;
use crate::checked::Checked;
use crate::checksum::is_sound;
use crate::fault::WireFault;
use crate::header::{HEADER, header_in, is_wrong_length};
use ospf_types::lsa::{AS_EXTERNAL_LSA, Header, MAX_AGE, ROUTER_LSA};
use std::alloc::Global;

/// The LS sequence number that no instance has (RFC 2328, 12.1.6).
const RESERVED_SEQUENCE: u32 = 0x8000_0000;

/// Returns true if the LS type is not 1 to 5 (RFC 2328, A.4.1).
fn is_unknown_kind(kind: u8) -> bool
    ensures { result ≡ is_unknown_kind_test kind }
{
    kind < ROUTER_LSA || kind > AS_EXTERNAL_LSA
}

/// Returns true if the Link State ID of a router-LSA is not its Advertising Router (RFC 2328,
/// 12.1.4).
fn is_other_router(header: &Header) -> bool
    ensures { result ≡ is_other_router_test header.now.kind header.now.id header.now.router }
{
    header.kind == ROUTER_LSA && header.id != header.router
}

/// Returns the first fault that comes after `Kind` in the order of `WireFault`.
fn body_fault(bytes: &[u8]) -> Option<WireFault>
    requires { 20 ≤ length bytes.now }
    ensures { result ≡ body_fault_of bytes.now }
{
    let header = header_in(bytes);
    let found = body_findings(header.kind, &bytes[HEADER..]);
    if found.reserved {
        return Some(WireFault::Reserved);
    }
    if found.mask {
        return Some(WireFault::Mask);
    }
    if is_other_router(&header) {
        return Some(WireFault::RouterId);
    }
    if found.link_type {
        return Some(WireFault::LinkType);
    }
    if found.shape {
        return Some(WireFault::Shape);
    }
    None
}

/// Returns the first fault of the bytes.
fn fault(bytes: &[u8]) -> Option<WireFault>
    ensures { result ≡ fault_of bytes.now }
{
    if is_wrong_length(bytes) {
        return Some(WireFault::Length);
    }
    if !is_sound(bytes) {
        return Some(WireFault::Checksum);
    }
    let header = header_in(bytes);
    if header.age > MAX_AGE {
        return Some(WireFault::Age);
    }
    if header.seq == RESERVED_SEQUENCE {
        return Some(WireFault::Sequence);
    }
    if is_unknown_kind(header.kind) {
        return Some(WireFault::Kind);
    }
    body_fault(bytes)
}

/// Reads one LSA, and copies its bytes. It has to be all of the bytes.
///
/// # Errors
///
/// Returns the first fault of the bytes, in the order of `WireFault`, or 30 Memory if they have no
/// fault and memory runs out.
pub fn read(alloc: Global, bytes: &[u8]) -> Result<Checked, WireFault>
    // Bytes with a fault are refused for their first fault.
    ensures fault { (f : WireFault) → fault_of bytes.now ≡ Some f → result ≡ Err f }
    // All other bytes are read, unless memory runs out.
    ensures accepted { fault_of bytes.now ≡ None → IsOkUnless result WireFault.Memory }
    // The bytes read are sound, and spell the LSA.
    ensures sound { IfOk result (λ lsa. IsSound bytes.now) }
    ensures found { IfOk result (λ lsa. Spells bytes.now lsa) }
    // Sound bytes that spell an LSA are read as that LSA, unless memory runs out.
    ensures only { (l : Lsa) → IsSound bytes.now → Spells bytes.now l → MatchResult result (λ lsa. lsa ≡ l) (λ e. e ≡ WireFault.Memory) }
    // No two LSAs have the same spelling.
    ensures unshared { (l m : Lsa) → Spells bytes.now l → Spells bytes.now m → l ≡ m }
{
    match fault(bytes) {
        Some(fault) => Err(fault),
        None => Ok(Checked {
            bytes: Vec::from_slice(alloc, bytes)?,
        }),
    }
}
