//! The words of a line, and the values that they spell.
ghost use Rattle.std.specs.Prelude.{◌≡◌, ◌≢◌, ◌≤◌, ◌↔◌, [], MatchOption, IsTrue, All, decimal};
ghost use Rattle.ospf_types.specs.Text.{address_text, prefix_text};
ghost use Rattle.recording.specs.Forms.{IsAddress, IsKey, IsPrefix, IsScope, IsSerial, IsStub};
ghost use Rattle.recording.specs.Forms.{key_words, scope_text, stub_words, version_word};
ghost use Rattle.recording.specs.Reading.{cut, either_word, IsRead, TakesWords, TakesWord, AreHexDigits};
ghost use Rattle.recording.specs.Reading.{AreLastDigits, IsDecimalValue, IsFirstWord, IsLowerDigit};
ghost use Rattle.recording.specs.Reading.{IsPair, IsUnpadded, pair_words};

use crate::version::Version;
use memchr::memchr;
use ospf_types::config::{Interface, Stub};
use ospf_types::key::{Key, Scope};
use ospf_types::prefix::Prefix;
use std::marker::Model;
use std::net::Ipv4Addr;

/// The words of a line that are left. They are separated by one space each, so there is an empty
/// word between two spaces.
#[derive(Drop)]
pub(crate) struct Words<'a> {
    left: Option<&'a [u8]>,
}

impl<'a> Model for Words<'a> {
    ghost use Rattle.std.specs.Prelude.{ℕ, List};
    ghost use Rattle.recording.specs.Reading.{words_left};

    ghost Value = { List (List ℕ) };

    ghost view = { λ words. words_left words.left };
}

impl<'a> Words<'a> {
    /// Creates the words of a line.
    pub fn of(line: &'a [u8]) -> Words<'a>
        ensures { result ≡ cut line.now }
    {
        Words { left: Some(line) }
    }

    /// Removes and returns the next word.
    pub fn next(&mut self) -> Option<&'a [u8]>
        ensures { IsFirstWord self.old self.new result }
    {
        let left = self.left?;
        match memchr(b' ', left) {
            Some(end) => {
                self.left = Some(&left[end + 1..]);
                Some(&left[..end])
            }
            None => {
                self.left = None;
                Some(left)
            }
        }
    }

    /// Checks that no word is left.
    pub fn end(&self) -> Option<()>
        ensures { MatchOption result (self.now ≢ []) (λ _. self.now ≡ []) }
    {
        if self.left.is_some() { None } else { Some(()) }
    }

    /// Reads a decimal number without leading zeros, at most `most`.
    pub fn number(&mut self, most: u32) -> Option<u32>
        ensures { TakesWord decimal (λ n. n ≤ most) self.old self.new result }
    {
        read_number(self.next()?, most)
    }

    /// Reads a serial: a decimal number without leading zeros.
    pub fn serial(&mut self) -> Option<u64>
        ensures { TakesWord decimal IsSerial self.old self.new result }
    {
        read_serial(self.next()?)
    }

    /// Reads the number of a version.
    pub fn version(&mut self) -> Option<Version>
        ensures { TakesWord version_word (λ _. Unit {0}) self.old self.new result }
    {
        read_version(self.next()?)
    }

    /// Reads an interface with its id.
    pub fn interface(&mut self) -> Option<(u8, Interface)>
        ensures { TakesWords pair_words IsPair self.old self.new result }
    {
        let id = self.number(255)?;
        let area = self.address()?;
        let address = self.address()?;
        let peer = self.address()?;
        let up = self.choice(b"up", b"down")?;
        let interface = Interface {
            area,
            address,
            peer,
            up,
        };
        Some((id as u8, interface))
    }

    /// Returns the last word, which has two hexadecimal digits for each byte. `None` is also
    /// returned if more than one word is left.
    pub fn last_digits(&self) -> Option<&'a [u8]>
        ensures { AreLastDigits self.now result }
    {
        // A space is not a digit, so a second word is refused.
        let left = self.left?;
        if are_digits(left) { Some(left) } else { None }
    }

    /// Reads an address, a Router ID or an Area ID, in host order.
    pub fn address(&mut self) -> Option<u32>
        ensures { TakesWord address_text IsAddress self.old self.new result }
    {
        read_address(self.next()?)
    }

    /// Reads an Area ID, or `as`.
    pub fn scope(&mut self) -> Option<Scope>
        ensures { TakesWord scope_text IsScope self.old self.new result }
    {
        read_scope(self.next()?)
    }

    /// Reads a network whose bits after the length are zero.
    pub fn prefix(&mut self) -> Option<Prefix>
        ensures { TakesWord prefix_text IsPrefix self.old self.new result }
    {
        read_prefix(self.next()?)
    }

    /// Returns true if the word is `first`, false if it is `second`, and `None` if it is neither.
    pub fn choice(&mut self, first: &[u8], second: &[u8]) -> Option<bool>
        ensures { TakesWord (either_word first.now second.now) (λ _. Unit {0}) self.old self.new result }
    {
        read_choice(self.next()?, first, second)
    }

    /// Reads LS type, Link State ID and Advertising Router (RFC 2328, 12.1).
    pub fn key(&mut self) -> Option<Key>
        ensures { TakesWords key_words IsKey self.old self.new result }
    {
        let kind = self.number(5)?;
        if kind == 0 {
            return None;
        }
        let id = self.address()?;
        let router = self.address()?;
        Some(Key {
            kind: kind as u8,
            id,
            router,
        })
    }

    /// Reads `normal`, or `stub` with its default cost and the summaries that are advertised into
    /// it.
    pub fn stub(&mut self) -> Option<Option<Stub>>
        ensures { TakesWords stub_words IsStub self.old self.new result }
    {
        if self.choice(b"normal", b"stub")? {
            return Some(None);
        }
        let cost = self.number(u32::MAX)?;
        let summaries = self.choice(b"all", b"default")?;
        Some(Some(Stub { cost, summaries }))
    }
}

fn read_address(word: &[u8]) -> Option<u32>
    ensures { IsRead address_text IsAddress word.now result }
{
    let address = Ipv4Addr::parse_ascii(word).ok()?;
    Some(address.to_bits())
}

fn read_scope(word: &[u8]) -> Option<Scope>
    ensures { IsRead scope_text IsScope word.now result }
{
    if is(word, b"as") {
        return Some(Scope::As);
    }
    Some(Scope::Area(read_address(word)?))
}

fn read_prefix(word: &[u8]) -> Option<Prefix>
    ensures { IsRead prefix_text IsPrefix word.now result }
{
    let slash = memchr(b'/', word)?;
    let address = read_address(&word[..slash])?;
    let length = read_number(&word[slash + 1..], 32)?;
    let prefix = Prefix::new(address, length as u8)?;
    if prefix.address() == address {
        Some(prefix)
    } else {
        None
    }
}

fn read_choice(word: &[u8], first: &[u8], second: &[u8]) -> Option<bool>
    ensures { IsRead (either_word first.now second.now) (λ _. Unit {0}) word.now result }
{
    if is(word, first) {
        Some(true)
    } else if is(word, second) {
        Some(false)
    } else {
        None
    }
}

fn read_version(word: &[u8]) -> Option<Version>
    ensures { IsRead version_word (λ _. Unit {0}) word.now result }
{
    if is(word, b"1") {
        Some(Version::One)
    } else if is(word, b"2") {
        Some(Version::Two)
    } else if is(word, b"3") {
        Some(Version::Three)
    } else {
        None
    }
}

fn read_number(word: &[u8], most: u32) -> Option<u32>
    ensures { IsRead decimal (λ n. n ≤ most) word.now result }
{
    let value = read_serial(word)?;
    if value <= u64::from(most) {
        Some(value as u32)
    } else {
        None
    }
}

// Reads a number without leading zeros that fits into 64 bits.
fn read_serial(word: &[u8]) -> Option<u64>
    ensures { IsRead decimal IsSerial word.now result }
{
    if is_unpadded(word) {
        decimal_value(word)
    } else {
        None
    }
}

fn is_unpadded(word: &[u8]) -> bool
    ensures { IsTrue result ↔ IsUnpadded word.now }
{
    match word {
        [] => false,
        [b'0', _, ..] => false,
        _ => true,
    }
}

// Returns the number that the digits spell, if it fits into 64 bits.
fn decimal_value(word: &[u8]) -> Option<u64>
    ensures { IsDecimalValue word.now result }
{
    let mut value: u64 = 0;
    for digit in word {
        if !digit.is_ascii_digit() {
            return None;
        }
        let tens = value.checked_mul(10)?;
        value = tens.checked_add(u64::from(*digit - b'0'))?;
    }
    Some(value)
}

// Returns true if the word has two hexadecimal digits for each byte.
fn are_digits(word: &[u8]) -> bool
    ensures { IsTrue result ↔ AreHexDigits word.now }
{
    word.len() % 2 == 0 && all_digits(word)
}

// Tests every byte, even after one that is not a digit, so that many are tested at once.
fn all_digits(word: &[u8]) -> bool
    ensures { IsTrue result ↔ All IsLowerDigit word.now }
{
    let mut are_all = true;
    for digit in word {
        are_all &= is_lower_digit(*digit);
    }
    are_all
}

fn is_lower_digit(digit: u8) -> bool
    ensures { IsTrue result ↔ IsLowerDigit digit }
{
    digit.is_ascii_digit() | matches!(digit, b'a'..=b'f')
}

/// Returns true if the word equals the text.
pub(crate) fn is(word: &[u8], text: &[u8]) -> bool
    ensures { IsTrue result ↔ (word.now ≡ text.now) }
{
    word == text
}
