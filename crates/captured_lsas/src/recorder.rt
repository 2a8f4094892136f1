//! The events that the packets of a capture become, packet by packet.

ghost use Rattle.std.specs.Prelude.{◌≡◌, ◌≤◌, length, IfOk, OnOk, OnErr, option_map};
ghost use Rattle.captured_lsas.specs.Seconds.{passed as passed_test};
ghost use Rattle.captured_lsas.specs.Seconds.{is_without_seconds as is_without_seconds_test};
ghost use Rattle.captured_lsas.specs.Seconds.{seconds_back, seconds_due, waiting_at, with_time};
ghost use Rattle.captured_lsas.specs.Progress.{start};
ghost use Rattle.captured_lsas.specs.Reading.{IsLsaInBytes};
ghost use Rattle.captured_lsas.specs.Recording.{has_scope as has_scope_test, is_repeated};
ghost use Rattle.captured_lsas.specs.Recording.{instance_in, scope_of as scope_of_test, IsLsaGiven};
ghost use Rattle.captured_lsas.specs.Recording.{IsInstalled, IsRecorded, IsStrange, with_lsa};
ghost use Rattle.captured_lsas.specs.Recording.{with_noted, with_read_lsa, with_strange};
ghost use Rattle.packets.specs.Updates.{lent};
ghost use Rattle.captured_lsas.specs.Updates.{pieces_in, pieces_for, with_piece, with_pieces};
ghost use Rattle.captured_lsas.specs.Updates.{StopsInUpdate, IsPieceRecorded, AreRecorded};
ghost use Rattle.captured_lsas.specs.History.{HasHistory};
ghost use Rattle.captured_lsas.specs.Packets.{IsPacketTaken, IsOfPacket, with_packet, StopsWithin};

use crate::name::LsaName;
use crate::newest::{NewestLsas, is_max_age};
use crate::options::Options;
use crate::reading::read_lsa;
use crate::recorded::Recorded;
use crate::taken::Taken;
use indexmap::IndexSet;
use lsa_codec::Checked;
use ospf_types::key::Scope;
use ospf_types::lsa::{AS_EXTERNAL_LSA, Header};
use ospf_types::memory::Memory;
use packets::{Packet, PacketKind, UpdateFault, UpdateLsas, read_packet, update_lsas};
use std::alloc::Global;
use std::hash::RandomState;
use std::marker::Model;

/// A second in nanoseconds.
const SECOND: u64 = 1_000_000_000;

/// The state of a recording: what was recorded of the packets so far.
pub struct Recorder {
    options: Options,
    /// The areas of the recording, if LSAs of other areas are left out.
    areas: Option<Vec<u32>>,
    /// The time of the last packet that has one, in nanoseconds since the beginning of 1970, UTC.
    last_time: Option<u64>,
    /// The number of nanoseconds that passed and were not recorded as seconds.
    waiting: u64,
    /// True if an LSA was recorded.
    has_begun: bool,
    newest: NewestLsas,
    /// The other areas of which LSAs were left out.
    strange: IndexSet<u32, RandomState>,
}

// proof: a value is dropped by one call, not part by part at each exit of a function.
impl Drop for Recorder {
    fn drop(self) {
        let Recorder {
            options: _,
            areas: _areas,
            last_time: _,
            waiting: _,
            has_begun: _,
            newest: _newest,
            strange: _strange,
        } = self;
    }
}

/// Contracts see these fields.
impl Model for Recorder {
    ghost use Rattle.std.specs.Prelude.{option_map};
    ghost use Rattle.captured_lsas.specs.Progress.{CaptureProgress};

    ghost Value = { CaptureProgress };

    ghost view = { λ r. record { options = r.options; areas = option_map (λ v. v.items) r.areas; last_time = r.last_time; waiting = r.waiting; has_begun = r.has_begun; newest = r.newest; strange = r.strange.keys } };
}

impl Recorder {
    /// Creates a recorder that has recorded nothing. If `areas` is given, it lists the areas of the
    /// recording, and LSAs of other areas are left out.
    pub fn new(
        alloc: Global,
        hashing: RandomState,
        options: Options,
        areas: Option<Vec<u32>>,
    ) -> Recorder
        ensures start { result ≡ start options (option_map (λ v. v.items) areas) }
        // Unless all LSAs are kept, the newest instance of each LSA depends only on its own
        // instances in the packets, whatever the packets are.
        ensures history { HasHistory options (option_map (λ v. v.items) areas) result }
    {
        Recorder {
            options,
            areas,
            last_time: None,
            waiting: 0,
            has_begun: false,
            newest: NewestLsas::new(alloc, hashing),
            strange: IndexSet::with_hasher(alloc, hashing),
        }
    }

    /// Takes the payload of a datagram, and returns what is recorded of it. `time` is the time of
    /// its capture, in nanoseconds since the beginning of 1970, UTC.
    ///
    /// Once an LSA was recorded, seconds are recorded before the LSAs of a packet. They are the
    /// whole seconds that passed from packet to packet and were not yet recorded. If the time of a
    /// packet is before the time of the last one, no time passes, and time is counted on from the
    /// earlier time.
    ///
    /// An LSA is installed, and then purged if it is at MaxAge. It is left out if it is not valid,
    /// if the recording does not have its area, or if it is repeated. It is *repeated* if a router
    /// that has the recorded LSAs would discard it. That is so if it is not newer (RFC 2328, 13.1)
    /// than the newest recorded instance of it (13 (7) and (8)). An instance at MaxAge was purged.
    /// One below MaxAge is then recorded whatever its sequence number, as its router originates the
    /// LSA again (12.1.6).
    ///
    /// # Errors
    ///
    /// Returns `Memory` if memory runs out. The time and some LSAs of the packet may then have been
    /// taken.
    pub fn take(
        &mut self,
        alloc: Global,
        time: Option<u64>,
        payload: &[u8],
    ) -> Result<Taken, Memory>
        ensures taken { IfOk result (IsPacketTaken self.old time payload.now) }
        ensures noted { OnOk result (self.new ≡ with_packet self.old time payload.now) }
        // If memory runs out, the time and some of the LSAs were taken.
        ensures stopped { OnErr result (StopsWithin self.old self.new time payload.now) }
    {
        match read_packet(payload) {
            Ok(packet) => self.take_packet(alloc, time, &packet),
            Err(fault) => Ok(Taken::Fault(fault)),
        }
    }

    // Takes a packet.
    fn take_packet(
        &mut self,
        alloc: Global,
        time: Option<u64>,
        packet: &Packet<'_>,
    ) -> Result<Taken, Memory>
        ensures taken { IfOk result (IsOfPacket self.old time packet.now) }
        ensures noted { OnOk result (self.new ≡ with_pieces (with_time self.old time) packet.now.area (pieces_for packet.now.kind packet.now.body.now)) }
        ensures stopped { OnErr result (StopsInUpdate (with_time self.old time) self.new packet.now.area (pieces_for packet.now.kind packet.now.body.now)) }
    {
        let back = self.seconds_back(time);
        let seconds = self.take_time(time);
        let recorded = self.take_body(alloc, packet)?;
        Ok(Taken::Packet {
            kind: packet.kind,
            router: packet.router,
            area: packet.area,
            back,
            seconds,
            recorded,
        })
    }

    // Takes the LSAs of a packet.
    fn take_body(&mut self, alloc: Global, packet: &Packet<'_>) -> Result<Vec<Recorded>, Memory>
        ensures recorded { IfOk result (λ all. AreRecorded self.old packet.now.area (pieces_for packet.now.kind packet.now.body.now) all.items) }
        ensures noted { OnOk result (self.new ≡ with_pieces self.old packet.now.area (pieces_for packet.now.kind packet.now.body.now)) }
        ensures stopped { OnErr result (StopsInUpdate self.old self.new packet.now.area (pieces_for packet.now.kind packet.now.body.now)) }
    {
        match packet.kind {
            PacketKind::LinkStateUpdate => self.take_update(alloc, packet.area, packet.body),
            _ => Ok(Vec::new(alloc)),
        }
    }

    // Takes the body of a Link State Update.
    fn take_update(
        &mut self,
        alloc: Global,
        area: u32,
        body: &[u8],
    ) -> Result<Vec<Recorded>, Memory>
        ensures recorded { IfOk result (λ all. AreRecorded self.old area (pieces_in body.now) all.items) }
        ensures noted { OnOk result (self.new ≡ with_pieces self.old area (pieces_in body.now)) }
        ensures stopped { OnErr result (StopsInUpdate self.old self.new area (pieces_in body.now)) }
    {
        match update_lsas(body) {
            Ok(lsas) => self.take_pieces(alloc, area, lsas),
            Err(fault) => Ok(vec![in alloc; Recorded::Cut(fault)]?),
        }
    }

    // Takes the LSAs of an update.
    fn take_pieces(
        &mut self,
        alloc: Global,
        area: u32,
        lsas: UpdateLsas<'_>,
    ) -> Result<Vec<Recorded>, Memory>
        ensures recorded { IfOk result (λ all. AreRecorded self.old area lsas.entry all.items) }
        ensures noted { OnOk result (self.new ≡ with_pieces self.old area lsas.entry) }
        ensures stopped { OnErr result (StopsInUpdate self.old self.new area lsas.entry) }
    {
        let mut all = Vec::new(alloc);
        for piece in lsas {
            let recorded = self.take_piece(alloc, area, piece)?;
            all.push(recorded)?;
        }
        Ok(all)
    }

    // Takes an LSA of an update, or the fault that is found in its place.
    fn take_piece(
        &mut self,
        alloc: Global,
        area: u32,
        piece: Result<&[u8], UpdateFault>,
    ) -> Result<Recorded, Memory>
        ensures recorded { IfOk result (IsPieceRecorded self.old area (lent piece.entry)) }
        ensures noted { OnOk result (self.new ≡ with_piece self.old area (lent piece.entry)) }
        ensures unchanged { OnErr result (self.new ≡ self.old) }
    {
        match piece {
            Ok(bytes) => self.take_lsa(alloc, area, bytes),
            Err(fault) => Ok(Recorded::Cut(fault)),
        }
    }

    // Returns by how many whole seconds the time is before the last one, or 0 if no seconds are
    // recorded.
    fn seconds_back(&self, time: Option<u64>) -> u64
        ensures { result ≡ seconds_back self.now time }
    {
        if self.options.without_seconds {
            return 0;
        }
        passed(time, self.last_time) / SECOND
    }

    // Takes the time of a packet. Returns the number of seconds to record before it.
    fn take_time(&mut self, time: Option<u64>) -> u64
        ensures seconds { result ≡ seconds_due self.old time }
        ensures noted { self.new ≡ with_time self.old time }
    {
        let waiting = self.waiting_at(time);
        self.last_time = time.or(self.last_time);
        if self.is_without_seconds() {
            self.waiting = waiting;
            return 0;
        }
        self.waiting = waiting % SECOND;
        waiting / SECOND
    }

    // Returns the nanoseconds that passed and were not recorded, at a packet with this time.
    fn waiting_at(&self, time: Option<u64>) -> u64
        ensures { result ≡ waiting_at self.now time }
    {
        self.waiting.saturating_add(passed(self.last_time, time))
    }

    // Returns true if seconds are not recorded, or not yet.
    fn is_without_seconds(&self) -> bool
        ensures { result ≡ is_without_seconds_test self.now }
    {
        self.options.without_seconds || !self.has_begun
    }

    // Takes the bytes of an LSA in a Link State Update of the area.
    fn take_lsa(&mut self, alloc: Global, area: u32, bytes: &[u8]) -> Result<Recorded, Memory>
        ensures recorded { IfOk result (IsRecorded self.old area bytes.now) }
        ensures noted { OnOk result (self.new ≡ with_lsa self.old area bytes.now) }
        ensures unchanged { OnErr result (self.new ≡ self.old) }
    {
        match read_lsa(alloc, bytes)? {
            Ok(lsa) => self.take_read(area, bytes, lsa),
            Err(fault) => Ok(Recorded::Fault(fault)),
        }
    }

    // Takes an LSA that was read from the bytes.
    fn take_read(&mut self, area: u32, bytes: &[u8], lsa: Checked) -> Result<Recorded, Memory>
        requires { IsLsaInBytes bytes.now lsa }
        ensures recorded { IfOk result (IsInstalled self.old area bytes.now lsa) }
        ensures noted { OnOk result (self.new ≡ with_read_lsa self.old area bytes.now) }
        ensures unchanged { OnErr result (self.new ≡ self.old) }
    {
        if self.has_scope(scope_of(area, bytes)) {
            self.take_known(area, bytes, lsa)
        } else {
            self.leave_out(area)
        }
    }

    // Takes an LSA whose database the recording has.
    fn take_known(&mut self, area: u32, bytes: &[u8], lsa: Checked) -> Result<Recorded, Memory>
        requires { IsLsaInBytes bytes.now lsa }
        ensures recorded { IfOk result (IsLsaGiven self.old area bytes.now lsa) }
        ensures noted { OnOk result (self.new ≡ with_noted self.old (instance_in area bytes.now)) }
        ensures unchanged { OnErr result (self.new ≡ self.old) }
    {
        let scope = scope_of(area, bytes);
        let (key, header) = (lsa.key(), lsa.header());
        if self.note(LsaName { scope, key }, header)? {
            return Ok(Recorded::Repeated);
        }
        let purges = is_max_age(&header);
        Ok(Recorded::Install { scope, lsa, purges })
    }

    // Leaves out an LSA of an area that the recording does not have.
    fn leave_out(&mut self, area: u32) -> Result<Recorded, Memory>
        ensures recorded { IfOk result (IsStrange self.old area) }
        ensures noted { OnOk result (self.new ≡ with_strange self.old area) }
        ensures unchanged { OnErr result (self.new ≡ self.old) }
    {
        let (_, is_first) = self.strange.insert_full(area)?;
        Ok(Recorded::OtherArea { area, is_first })
    }

    // Returns true if the recording has the database of the scope.
    fn has_scope(&self, scope: Scope) -> bool
        ensures { result ≡ has_scope_test self.now.areas scope }
    {
        match (&self.areas, scope) {
            (Some(areas), Scope::Area(area)) => areas.contains(&area),
            _ => true,
        }
    }

    // Notes that an instance is recorded. Returns true if it is left out because it is repeated.
    fn note(&mut self, name: LsaName, header: Header) -> Result<bool, Memory>
        ensures answer { IfOk result (λ b.
            b ≡ is_repeated self.old (record { name = name; header = header })) }
        ensures noted { OnOk result
            (self.new ≡ with_noted self.old (record { name = name; header = header })) }
        ensures unchanged { OnErr result (self.new ≡ self.old) }
    {
        let is_repeated = !self.options.keeps_all && self.newest.note(name, header)?;
        self.has_begun = true;
        Ok(is_repeated)
    }
}

// Returns the nanoseconds from one time to the next: 0 if the next is earlier, or if either is
// `None`.
fn passed(last: Option<u64>, time: Option<u64>) -> u64
    ensures { result ≡ passed_test last time }
{
    match (last, time) {
        (Some(last), Some(time)) => time.saturating_sub(last),
        _ => 0,
    }
}

// Returns the scope of an LSA in a packet of the area (RFC 2328, 13).
fn scope_of(area: u32, lsa: &[u8]) -> Scope
    requires { 20 ≤ length lsa.now }
    ensures { result ≡ scope_of_test area lsa.now }
{
    if lsa[3] == AS_EXTERNAL_LSA {
        Scope::As
    } else {
        Scope::Area(area)
    }
}
