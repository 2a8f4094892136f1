//! The Internet checksum (RFC 1071).
//!
//! Words of 64 bits are added in one's complement. Folded to 16 bits, this sum equals the sum of
//! their words of 16 bits.

ghost use Rattle.std.specs.Prelude.{◌≡◌, ◌<◌, ◌+◌, ◌*◌, ◌/◌, ◌%◌, ℕ, List, ◌∷◌, ◌++◌, length, drop};
ghost use Rattle.packets.specs.Checksum.{words, ones_sum, checksum_of, IsLikeWord};
ghost use Rattle.packets.specs.Folding.{folded as the_folded, word_sum, zeros};

use byteorder::{BigEndian, ByteOrder};

/// Returns the Internet checksum of the bytes: the complement of the one's complement sum of their
/// words of 16 bits.
///
/// The high byte of each word comes first. An odd last byte is the high byte of a word.
pub fn internet_checksum(bytes: &[u8]) -> u16
    ensures value { result ≡ checksum_of bytes.now }
    // If the checksum replaces two zero bytes after whole words, the sum is all ones.
    ensures right { (front back : List ℕ) → length front % 2 ≡ 0 → bytes.now ≡ front ++ 0 ∷ 0 ∷ back
        → ones_sum (words (front ++ (result / 256) ∷ (result % 256) ∷ back)) ≡ 65535 }
    // No other word gives this sum, except all ones if the checksum is 0.
    ensures only { (front back : List ℕ) (high low : ℕ) → length front % 2 ≡ 0 → bytes.now ≡ front ++ 0 ∷ 0 ∷ back
        → high < 256 → low < 256 → ones_sum (words (front ++ high ∷ low ∷ back)) ≡ 65535
        → IsLikeWord (256 * high + low) result }
{
    u16::MAX - folded(added(0, bytes))
}

/// Folds a sum of 64 bits to one of 16 bits. Only a sum of 0 gives 0.
pub(crate) fn folded(sum: u64) -> u16
    ensures { result ≡ the_folded sum }
{
    if sum == 0 {
        return 0;
    }
    ((sum - 1) % 65_535 + 1) as u16
}

/// Adds the words of the bytes to the sum `before`.
pub(crate) fn added(before: u64, bytes: &[u8]) -> u64
    ensures { (more : ℕ) → the_folded (result + more) ≡ the_folded (before + word_sum bytes.now + more) }
{
    let mut sum = before;
    let mut rest = bytes;
    while rest.len() >= 8 {
        sum = with_carry(sum, BigEndian::read_u64(rest));
        rest = &rest[8..];
    }
    with_carry(sum, last_words(rest))
}

// Returns the one's complement sum: a carry out of the highest bit is added at the lowest.
fn with_carry(sum: u64, words: u64) -> u64
    ensures { (more : ℕ) → the_folded (result + more) ≡ the_folded (sum + words + more) }
{
    let (low, has_carry) = sum.overflowing_add(words);
    low + u64::from(has_carry)
}

// Returns the words of fewer than eight bytes.
fn last_words(bytes: &[u8]) -> u64
    requires { length bytes.now < 8 }
    ensures { (more : ℕ) → the_folded (result + more) ≡ the_folded (word_sum bytes.now + more) }
{
    BigEndian::read_u64(&padded(bytes))
}

// Returns the bytes with zeros after them.
fn padded(bytes: &[u8]) -> [u8; 8]
    requires { length bytes.now < 8 }
    ensures { result ≡ bytes.now ++ drop (length bytes.now) zeros }
{
    let mut padded = [0; 8];
    padded[..bytes.len()].copy_from_slice(bytes);
    padded
}
