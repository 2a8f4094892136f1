//! The LS checksum, a Fletcher checksum (RFC 2328, 12.1.7), in one pass over the bytes. The sums
//! are reduced once for each chunk.

ghost use Rattle.std.specs.Prelude.{◌≡◌, ◌≤◌, ◌<◌, ◌+◌, ◌*◌, ◌/◌, ◌%◌, ◌^◌, length, sum, IfSome};
ghost use Rattle.lsa_codec.specs.Checksum.{weighted_sum, is_sound as is_sound_test, checksum_of};
ghost use Rattle.lsa_codec.specs.Checksum.{with_sum, IsSound, IsOnlySum, IsSumUpToZeros, covered};
ghost use Rattle.lsa_codec.specs.Checksum.{residue as the_residue};

use byteorder::{BigEndian, ByteOrder};

/// The number of bytes that are summed before the sums are reduced. The sums then stay below 2 ^
/// 32.
const CHUNK: usize = 4096;

/// The two sums over some bytes: the sum of the bytes, and the sum of each byte times its place
/// from the end.
#[derive(Clone, Copy)]
struct Sums {
    plain: u32,
    weighted: u32,
}

const NOTHING: Sums = Sums {
    plain: 0,
    weighted: 0,
};

/// Returns the sums over the bytes of `before` and these bytes after them.
fn added(before: Sums, bytes: &[u8]) -> Sums
    requires plain { before.plain < 255 }
    requires weighted { before.weighted < 255 }
    requires chunk { length bytes.now ≤ 4096 }
    ensures plain { result.plain ≡ before.plain + sum bytes.now }
    ensures weighted { result.weighted ≡ before.weighted + length bytes.now * before.plain + weighted_sum bytes.now }
{
    let mut plain = before.plain;
    let mut weighted = before.weighted;
    for byte in bytes {
        plain += u32::from(*byte);
        weighted += plain;
    }
    Sums { plain, weighted }
}

fn reduced(sums: Sums) -> Sums
    ensures plain { result.plain ≡ sums.plain % 255 }
    ensures weighted { result.weighted ≡ sums.weighted % 255 }
{
    Sums {
        plain: sums.plain % 255,
        weighted: sums.weighted % 255,
    }
}

/// Returns the sums over the bytes of `before` and these bytes after them, modulo 255.
fn summed(before: Sums, bytes: &[u8]) -> Sums
    requires plain { before.plain < 255 }
    requires weighted { before.weighted < 255 }
    ensures plain { result.plain ≡ (before.plain + sum bytes.now) % 255 }
    ensures weighted { result.weighted ≡ (before.weighted + length bytes.now * before.plain + weighted_sum bytes.now) % 255 }
{
    let mut sums = before;
    let mut rest = bytes;
    while !rest.is_empty() {
        let (chunk, after) = rest.split_at(rest.len().min(CHUNK));
        sums = reduced(added(sums, chunk));
        rest = after;
    }
    sums
}

/// Returns true if the checksum fits the bytes and is not zero.
pub(crate) fn is_sound(bytes: &[u8]) -> bool
    requires { 20 ≤ length bytes.now }
    ensures { result ≡ is_sound_test bytes.now }
{
    let sums = summed(NOTHING, &bytes[2..]);
    sums.plain == 0 && sums.weighted == 0 && BigEndian::read_u16(&bytes[16..]) != 0
}

/// Returns the sums over all bytes that the checksum covers, with its own two bytes taken as zero.
fn sums_without_field(bytes: &[u8]) -> Sums
    requires { 20 ≤ length bytes.now }
    ensures plain { result.plain ≡ sum (covered (with_sum bytes.now 0 0)) % 255 }
    ensures weighted { result.weighted ≡ weighted_sum (covered (with_sum bytes.now 0 0)) % 255 }
{
    let front = summed(NOTHING, &bytes[2..16]);
    let field = summed(front, &[0, 0]);
    summed(field, &bytes[18..])
}

/// Returns the number from 1 to 255 that equals `n` modulo 255.
fn residue(n: u32) -> u32
    requires { n < 2 ^ 31 }
    ensures value { result ≡ the_residue n }
    ensures bounds { (0 < result) × (result < 256) }
{
    (n + 254) % 255 + 1
}

/// Returns the LS checksum of an LSA's bytes (RFC 2328, 12.1.7), or `None` if there are fewer than
/// 20. The checksum field of the bytes is taken as zero.
pub fn sum_of(bytes: &[u8]) -> Option<u16>
    // The checksum as a number.
    ensures value { result ≡ checksum_of bytes.now }
    // The bytes with this checksum are sound.
    ensures sound { IfSome result (λ sum. IsSound (with_sum bytes.now (sum / 256) (sum % 256))) }
    // Neither of its two bytes is zero,
    ensures not_zero { IfSome result (λ sum. (0 < sum / 256) × (0 < sum % 256)) }
    // and no other two bytes without a zero make the LSA sound.
    ensures only { IfSome result (λ sum. IsOnlySum bytes.now sum) }
    // With zeros, only these bytes do so: a zero replaces a 255, unless both bytes are then zero.
    ensures zeros { IfSome result (λ sum. IsSumUpToZeros bytes.now sum) }
{
    if bytes.len() < 20 {
        return None;
    }
    let sums = sums_without_field(bytes);
    let places = ((bytes.len() - 17) % 255) as u32;
    let first = residue(places * sums.plain + 254 * sums.weighted);
    let second = residue(254 * (sums.plain + first));
    Some((256 * first + second) as u16)
}
