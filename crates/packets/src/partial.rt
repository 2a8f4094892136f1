//! The received part of a datagram.
ghost use Rattle.packets.specs.Kept.{count_missing};
ghost use Rattle.std.specs.Prelude.{◌≡◌, ◌≤◌, ◌+◌, ◌++◌, ◌&&◌, nat_lt, OnOk, OnErr, length, take};
ghost use Rattle.std.specs.Prelude.{drop, replicate, true};

use crate::datagram::Datagram;
use crate::key::FragmentKey;
use ospf_types::memory::Memory;
use std::alloc::Global;
use std::marker::Model;

/// The received bytes of a datagram's payload.
#[derive(Drop)]
pub(crate) struct Partial {
    key: FragmentKey,
    /// True if the last fragment was received. The payload then ends with the last place.
    has_end: bool,
    /// For each place, true if its byte was received.
    came: Vec<bool>,
    /// The number of places whose byte was not received.
    missing: usize,
    /// The bytes at the places. There may be more bytes than places after memory ran out.
    bytes: Vec<u8>,
}

impl Model for Partial {
    ghost use Rattle.std.specs.Prelude.{◌≡◌, ◌≤◌, vec_len};
    ghost use Rattle.packets.specs.Kept.{Kept, cells, count_missing};

    ghost Value = { Kept };

    ghost view = { λ p. record { key = p.key; has_end = p.has_end; bytes = cells p.came.items p.bytes.items } };

    ghost invariant = { λ p. (vec_len p.came ≤ vec_len p.bytes) × (vec_len p.came ≤ 65535) × (p.missing ≡ count_missing p.came.items) };
}

impl Partial {
    ghost use Rattle.packets.specs.Parts.{part_of};
    ghost use Rattle.packets.specs.Kept.{nothing_of, same_key, contradicts, grown, written};
    ghost use Rattle.packets.specs.Kept.{with_part, is_whole as is_whole_test, payload_of};

    /// Creates the part of a datagram of which nothing was received.
    pub(crate) fn new(alloc: Global, key: FragmentKey) -> Partial
        ensures { result ≡ nothing_of key }
    {
        Partial {
            key,
            has_end: false,
            came: Vec::new(alloc),
            missing: 0,
            bytes: Vec::new(alloc),
        }
    }

    pub(crate) fn has_key(&self, key: &FragmentKey) -> bool
        ensures { result ≡ same_key self.now.key key.now }
    {
        self.key.is_same(key)
    }

    // Returns the number of places.
    fn size(&self) -> usize
        ensures value { result ≡ length self.now.bytes }
        ensures small { result ≤ 65535 }
    {
        self.came.len()
    }

    // Returns true if a fragment with this end ends past the known end.
    fn is_past(&self, end: usize) -> bool
        ensures { result ≡ (self.now.has_end && nat_lt (length self.now.bytes) end) }
    {
        self.has_end && self.size() < end
    }

    // Returns true if the last fragment, with this end, ends before another one.
    fn is_before(&self, end: usize) -> bool
        ensures { result ≡ nat_lt end (length self.now.bytes) }
    {
        end < self.size()
    }

    /// Returns true if the fragment ends past the known end, or is the last one and ends before
    /// another.
    pub(crate) fn is_contradicted_by(&self, fragment: &Datagram<'_>) -> bool
        ensures { result ≡ contradicts (part_of fragment.now) self.now }
    {
        let end = fragment.end();
        self.is_past(end) || fragment.is_last && self.is_before(end)
    }

    /// Adds the bytes of a fragment. They replace bytes received before.
    pub(crate) fn add(&mut self, fragment: &Datagram<'_>) -> Result<(), Memory>
        ensures added { OnOk result (self.new ≡ with_part (part_of fragment.now) self.old) }
        ensures unchanged { OnErr result (self.new ≡ self.old) }
    {
        self.grow(fragment.end())?;
        self.write(fragment.offset, fragment.payload);
        self.has_end = fragment.is_last || self.has_end;
        Ok(())
    }

    // Adds places until there are at least `size`.
    fn grow(&mut self, size: usize) -> Result<(), Memory>
        requires { size ≤ 65535 }
        ensures grown { OnOk result (self.new ≡ record self.old { bytes = grown size self.old.bytes }) }
        ensures unchanged { OnErr result (self.new ≡ self.old) }
    {
        let places = self.came.len();
        if places < size {
            self.bytes.resize(size, 0)?;
            self.came.resize(size, false)?;
            self.missing += size - places;
        }
        Ok(())
    }

    // Writes bytes at the offset.
    fn write(&mut self, offset: usize, payload: &[u8])
        requires { offset + length payload.now ≤ length self.old.bytes }
        ensures { self.new ≡ record self.old { bytes = written offset payload.now self.old.bytes } }
    {
        put(&mut self.bytes, offset, payload);
        self.missing -= missing_in(&self.came, offset, payload.len());
        mark(&mut self.came, offset, payload.len());
    }

    /// Returns true if the end is known and all bytes before it were received.
    pub(crate) fn is_whole(&self) -> bool
        ensures { result ≡ is_whole_test self.now }
    {
        self.has_end && self.missing == 0
    }

    /// Returns the payload.
    pub(crate) fn into_payload(self) -> Vec<u8>
        requires { is_whole_test self ≡ true }
        ensures { result.items ≡ payload_of self }
    {
        let Partial {
            came,
            mut bytes,
            ..
        } = self;
        bytes.truncate(came.len());
        bytes
    }
}

// Writes the payload at the offset.
fn put(bytes: &mut [u8], offset: usize, payload: &[u8])
    requires { offset + length payload.now ≤ length bytes.old }
    ensures { bytes.new ≡ take offset bytes.old ++ payload.now ++ drop (offset + length payload.now) bytes.old }
{
    bytes[offset..offset + payload.len()].copy_from_slice(payload);
}

// Returns the number of missing bytes in the `count` places at the offset.
fn missing_in(came: &[bool], offset: usize, count: usize) -> usize
    requires { offset + count ≤ length came.now }
    ensures { result ≡ count_missing (take count (drop offset came.now)) }
{
    missing(&came[offset..offset + count])
}

fn missing(came: &[bool]) -> usize
    ensures { result ≡ count_missing came.now }
{
    came.iter().filter(|came| !**came).count()
}

// Marks the `count` places at the offset as received.
fn mark(came: &mut [bool], offset: usize, count: usize)
    requires { offset + count ≤ length came.old }
    ensures { came.new ≡ take offset came.old ++ replicate count true ++ drop (offset + count) came.old }
{
    came[offset..offset + count].fill(true);
}
