//! Words of a command, parsed.
ghost use Rattle.std.specs.Prelude.{◌≡◌, Ok, Some, IfOk, IfErr, OnErr};
ghost use Rattle.hex.specs.Hex.{decode_of};
ghost use Rattle.cli_args.specs.Command.{texts_of};
ghost use Rattle.cli_queries.specs.Writing.{WritesNetwork};
ghost use Rattle.cli_queries.specs.Words.{IsAddress, IsBytesFault, IsFirstFault, IsNoNetwork};
ghost use Rattle.cli_queries.specs.Words.{WritesAddress, fault_text};

use crate::network_of;
use cli_args::OneWords;
use hex::FromHexError;
use ospf_types::address::Address;
use ospf_types::prefix::Prefix;
use std::alloc::Global;
use std::fmt;
use thiserror::Error;

/// The words of `abr one`, parsed. Addresses are in host order.
#[derive(Debug, Drop)]
pub struct OneInput {
    /// The Router ID.
    pub router: u32,
    /// The Area ID.
    pub area: u32,
    /// The address of the interface.
    pub address: u32,
    /// The bytes of an LSA.
    pub lsa: Vec<u8>,
    /// The address that is looked up.
    pub lookup: u32,
}

/// The reason why a word was not parsed: its fault, or a lack of memory.
#[derive(Clone, Copy, Debug, PartialEq, Eq, Error)]
pub enum WordFault {
    NotAnAddress,
    NotHexadecimal,
    NotANumber,
    NotANetwork,
    Memory,
}

impl fmt::Display for WordFault {
    ghost output = { λ fault. Some (fault_text fault) };

    fn fmt<W: fmt::Write>(&self, f: &mut fmt::Formatter<W>) -> fmt::Result {
        f.write_str(match self {
            WordFault::NotAnAddress => "not an address",
            WordFault::NotHexadecimal => "not hexadecimal",
            WordFault::NotANumber => "not a number of a fault",
            WordFault::NotANetwork => "not a network",
            WordFault::Memory => "30 Memory",
        })
    }
}

/// Parses the words in order.
///
/// # Errors
///
/// Returns the fault of the first word that cannot be parsed, or `Memory` if memory runs out.
pub fn read_one(alloc: Global, words: &OneWords<'_>) -> Result<OneInput, WordFault>
    ensures router { IfOk result (λ i. WritesAddress words.now.router.now i.router) }
    ensures area { IfOk result (λ i. WritesAddress words.now.area.now i.area) }
    ensures address { IfOk result (λ i. WritesAddress words.now.address.now i.address) }
    ensures lsa { IfOk result (λ i. decode_of words.now.lsa.now ≡ Ok i.lsa.items) }
    ensures lookup { IfOk result (λ i. WritesAddress words.now.lookup.now i.lookup) }
    ensures fault { IfErr result (IsFirstFault (texts_of words.now)) }
{
    Ok(OneInput {
        router: read_address(words.router)?,
        area: read_address(words.area)?,
        address: read_address(words.address)?,
        lsa: bytes(alloc, words.lsa)?,
        lookup: read_address(words.lookup)?,
    })
}

/// Parses an address, as `192.0.2.1`. It is returned in host order.
///
/// # Errors
///
/// Returns `NotAnAddress` if the word is not an address.
pub fn read_address(word: &str) -> Result<u32, WordFault>
    ensures ok { IfOk result (WritesAddress word.now) }
    ensures fault { OnErr result (¬ IsAddress word.now) }
    ensures err { OnErr result (result ≡ Err WordFault.NotAnAddress) }
{
    match Address::parse(word) {
        Some(Address(address)) => Ok(address),
        None => Err(WordFault::NotAnAddress),
    }
}

/// Decodes a word in hexadecimal, in either case.
///
/// # Errors
///
/// Returns `NotHexadecimal` if the word is not an even number of hexadecimal digits, or `Memory` if
/// memory runs out.
pub fn bytes(alloc: Global, word: &str) -> Result<Vec<u8>, WordFault>
    ensures ok { IfOk result (λ bytes. decode_of word.now ≡ Ok bytes.items) }
    ensures fault { IfErr result (IsBytesFault word.now) }
{
    match hex::decode(alloc, word) {
        Ok(bytes) => Ok(bytes),
        Err(FromHexError::OutOfMemory) => Err(WordFault::Memory),
        Err(_) => Err(WordFault::NotHexadecimal),
    }
}

/// Parses a network, as `203.0.113.0/25`.
///
/// # Errors
///
/// Returns `NotANetwork` if the word is not a network.
pub fn read_network(word: &str) -> Result<Prefix, WordFault>
    ensures ok { IfOk result (WritesNetwork word.now) }
    ensures fault { OnErr result (IsNoNetwork word.now) }
    ensures err { OnErr result (result ≡ Err WordFault.NotANetwork) }
{
    match network_of(word) {
        Some(network) => Ok(network),
        None => Err(WordFault::NotANetwork),
    }
}
