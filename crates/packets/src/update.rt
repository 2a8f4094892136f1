//! The LSAs of a Link State Update (RFC 2328, A.3.5).

ghost use Rattle.std.specs.Prelude.{◌≡◌, ◌≤◌, ◌<◌, List, IfOk, IfErr, length, true};
ghost use Rattle.packets.specs.declared.fault.UpdateFault.TheVariants.{Count as CountFault};
ghost use Rattle.packets.specs.Updates.{UpdatePiece, ArePiecesOf, pieces_of, has_lsa as has_lsa_test};
ghost use Rattle.packets.specs.Updates.{lsa_length as length_of_lsa};

use crate::fault::UpdateFault;
use byteorder::{BigEndian, ByteOrder};
use std::marker::Model;

/// The length of an LSA header in bytes (RFC 2328, A.4.1).
const LSA_HEADER: usize = 20;

/// An iterator over the LSAs of a Link State Update, in order. An LSA is returned as its bytes,
/// with the header first.
///
/// If the next LSA is not whole, the iterator returns a fault with its place, and ends.
#[derive(Drop)]
pub struct UpdateLsas<'a> {
    /// The number of LSAs to come.
    left: u32,
    body: &'a [u8],
    /// The number of bytes of the body before the next LSA.
    place: usize,
}

impl<'a> Model for UpdateLsas<'a> {
    ghost use Rattle.std.specs.Prelude.{List, drop, ◌≤◌, length};
    ghost use Rattle.packets.specs.Updates.{UpdatePiece, pieces_from};

    ghost Value = { List UpdatePiece };

    ghost view = { λ u. pieces_from u.left u.place (drop u.place u.body.now) };

    ghost invariant = { λ u. u.place ≤ length u.body.now };
}

impl<'a> Iterator for UpdateLsas<'a> {
    ghost use Rattle.std.specs.Iterator.{YieldsFirstBy, item_count};
    ghost use Rattle.packets.specs.Updates.{lent};

    type Item = Result<&'a [u8], UpdateFault>;

    ghost next_gives = { YieldsFirstBy lent (λ s. s) };

    ghost remaining = { item_count (λ s. s) };

    fn next(&mut self) -> Option<Result<&'a [u8], UpdateFault>> {
        if self.left == 0 {
            return None;
        }
        let rest = &self.body[self.place..];
        if !has_lsa(rest) {
            self.left = 0;
            return Some(Err(UpdateFault::LsaLength { place: self.place }));
        }
        let length = lsa_length(rest);
        self.left -= 1;
        self.place += length;
        Some(Ok(&rest[..length]))
    }
}

/// Returns an iterator over the LSAs in the body of a Link State Update.
///
/// Bytes after the last LSA are ignored. Only the length in the header of each LSA is read (RFC
/// 2328, A.4.1).
///
/// # Errors
///
/// Returns `UpdateFault::Count` if the body has fewer than four bytes.
pub fn update_lsas(body: &[u8]) -> Result<UpdateLsas<'_>, UpdateFault>
    ensures fault { IfErr result (λ fault. (fault ≡ CountFault) × (length body.now < 4)) }
    ensures accepted { IfOk result (λ lsas. 4 ≤ length body.now) }
    ensures value { IfOk result (λ lsas. lsas ≡ pieces_of body.now) }
    // The LSAs follow one another, each as long as its header says. There are as many as the body
    // counts, or only the LSAs before the first that is not whole, and then a fault with its place.
    ensures pieces { IfOk result (λ lsas. ArePiecesOf body.now lsas) }
    // No other pieces have this property.
    ensures only { IfOk result (λ lsas. (others : List UpdatePiece) → ArePiecesOf body.now others → others ≡ lsas) }
{
    if body.len() < 4 {
        return Err(UpdateFault::Count);
    }
    Ok(UpdateLsas {
        left: BigEndian::read_u32(body),
        body,
        place: 4,
    })
}

/// Returns true if the bytes begin with a whole LSA.
fn has_lsa(bytes: &[u8]) -> bool
    ensures value { result ≡ has_lsa_test bytes.now }
    ensures header { result ≡ true → 20 ≤ length bytes.now }
    ensures whole { result ≡ true → length_of_lsa bytes.now ≤ length bytes.now }
{
    if bytes.len() < LSA_HEADER {
        return false;
    }
    let length = lsa_length(bytes);
    length >= LSA_HEADER && length <= bytes.len()
}

/// Returns the length in the header of the LSA, in bytes.
fn lsa_length(bytes: &[u8]) -> usize
    requires { 20 ≤ length bytes.now }
    ensures { result ≡ length_of_lsa bytes.now }
{
    usize::from(BigEndian::read_u16(&bytes[18..]))
}
