//! The numbers and networks that words write. Each has one spelling, and no other word writes it.
ghost use Rattle.std.specs.Prelude.{ℕ, ◌≡◌, ◌↔◌, IfSome, IsNone, IsTrue};
ghost use Rattle.ospf_types.specs.declared.prefix.Prefix.{Prefix};
ghost use Rattle.cli_queries.specs.Writing.{IsNetworkWord, IsNetworkOf, IsUnpadded, WritesNetwork};
ghost use Rattle.cli_queries.specs.Writing.{WritesNumber, network_at};

use ospf_types::address::Address;
use ospf_types::prefix::Prefix;

/// Returns the number that the word writes: decimal digits without a sign or leading zeros, at most
/// 4294967295. Returns `None` for any other word.
pub fn number_of(word: &str) -> Option<u32>
    ensures some { IfSome result (WritesNumber word.now) }
    ensures none { IsNone result → (n : ℕ) → ¬ WritesNumber word.now n }
{
    if !is_unpadded(word.as_bytes()) {
        return None;
    }
    word.parse().ok()
}

/// Returns the network that the word writes: an address, `/` and a length of 0 to 32, with no bit
/// set past the length, as in `203.0.113.0/25`. Returns `None` for any other word.
pub fn network_of(word: &str) -> Option<Prefix>
    ensures some { IfSome result (WritesNetwork word.now) }
    ensures none { IsNone result → (p : Prefix) → ¬ WritesNetwork word.now p }
{
    let (address, length) = word.split_once('/')?;
    let address = Address::parse(address)?;
    let length = number_of(length)?;
    prefix_of(address.0, length)
}

// Returns the network with this address and length, or `None` if there is no such network.
fn prefix_of(address: u32, length: u32) -> Option<Prefix>
    ensures some { IfSome result (IsNetworkOf address length) }
    ensures none { IsNone result → ¬ IsNetworkWord (network_at address length) }
{
    if length > 32 {
        return None;
    }
    let prefix = Prefix::new(address, length as u8)?;
    if prefix.address() == address {
        Some(prefix)
    } else {
        None
    }
}

// Returns true if the word is not empty and has no plus sign or zero before its other digits.
fn is_unpadded(word: &[u8]) -> bool
    ensures { IsTrue result ↔ IsUnpadded word.now }
{
    match word {
        [] => false,
        [b'+', ..] => false,
        [b'0', _, ..] => false,
        _ => true,
    }
}
