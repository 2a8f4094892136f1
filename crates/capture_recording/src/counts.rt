//! The counts of a capture.
ghost use Rattle.std.specs.Prelude.{◌≡◌, count_by};
ghost use Rattle.capture_recording.specs.Counts.{with_heard, with_taken, with_recorded};
ghost use Rattle.capture_recording.specs.Counts.{with_packet, with_fault};
ghost use Rattle.capture_recording.specs.Counts.{is_installed as is_installed_test};
ghost use Rattle.capture_recording.specs.Counts.{is_repeated as is_repeated_test};
ghost use Rattle.capture_recording.specs.Counts.{is_fault as is_fault_test};
ghost use Rattle.capture_recording.specs.Counts.{updates_of as updates_of_kind};

use crate::seconds::recorded_seconds;
use captured_lsas::{Heard, Recorded, Taken};
use packets::PacketKind;

/// The numbers of what was found in a capture. A number that exceeds 64 bits stays at its greatest
/// value.
#[derive(Clone, Copy, Debug, Default, PartialEq, Eq)]
pub struct Counts {
    /// Captured packets of OSPF. Fragments and faulty packets are counted too.
    pub packets: u64,
    /// Link State Updates: packets of type 4 (RFC 2328, A.3.5), with or without LSAs.
    pub updates: u64,
    /// LSAs that are installed.
    pub lsas: u64,
    /// LSAs that are left out, as they are not newer than the instance that was recorded.
    pub repeated: u64,
    /// Faults of datagrams, packets, updates and LSAs.
    pub faults: u64,
    /// Seconds in the recording: the `recorded_seconds` of each packet.
    pub seconds: u64,
}

impl Counts {
    /// Counts the content of a captured packet: a packet of OSPF, and the fault of a datagram.
    pub fn count_heard(&mut self, heard: &Heard<'_>)
        ensures { self.new ≡ with_heard self.old heard.now }
    {
        match heard {
            Heard::Other => {}
            Heard::Fault(_) => {
                self.count_packet();
                self.count_fault();
            }
            Heard::Part => self.count_packet(),
            Heard::Whole { .. } => self.count_packet(),
        }
    }

    /// Counts what is recorded of the payload of a datagram: its seconds, its LSAs and its faults.
    pub fn count_taken(&mut self, taken: &Taken)
        ensures { self.new ≡ with_taken self.old taken.now }
    {
        match taken {
            Taken::Packet {
                kind,
                seconds,
                recorded,
                ..
            } => {
                self.updates = self.updates.saturating_add(updates_of(*kind));
                self.count_recorded(recorded.as_slice());
                self.seconds = self.seconds.saturating_add(recorded_seconds(*seconds));
            }
            Taken::Fault(_) => self.count_fault(),
        }
    }

    fn count_packet(&mut self)
        ensures { self.new ≡ with_packet self.old }
    {
        self.packets = self.packets.saturating_add(1);
    }

    fn count_fault(&mut self)
        ensures { self.new ≡ with_fault self.old }
    {
        self.faults = self.faults.saturating_add(1);
    }

    // Counts the LSAs of an update.
    fn count_recorded(&mut self, recorded: &[Recorded])
        ensures { self.new ≡ with_recorded self.old recorded.now }
    {
        self.lsas = self.lsas.saturating_add(installed_in(recorded));
        self.repeated = self.repeated.saturating_add(repeated_in(recorded));
        self.faults = self.faults.saturating_add(faults_in(recorded));
    }
}

// Returns 1 for a Link State Update, and 0 for other packets.
fn updates_of(kind: PacketKind) -> u64
    ensures { result ≡ updates_of_kind kind }
{
    match kind {
        PacketKind::LinkStateUpdate => 1,
        _ => 0,
    }
}

fn installed_in(recorded: &[Recorded]) -> u64
    ensures { result ≡ count_by is_installed_test recorded.now }
{
    recorded.iter().filter(|one| is_installed(one)).count() as u64
}

fn repeated_in(recorded: &[Recorded]) -> u64
    ensures { result ≡ count_by is_repeated_test recorded.now }
{
    recorded.iter().filter(|one| is_repeated(one)).count() as u64
}

fn faults_in(recorded: &[Recorded]) -> u64
    ensures { result ≡ count_by is_fault_test recorded.now }
{
    recorded.iter().filter(|one| is_fault(one)).count() as u64
}

fn is_installed(recorded: &Recorded) -> bool
    ensures { result ≡ is_installed_test recorded.now }
{
    matches!(recorded, Recorded::Install { .. })
}

fn is_repeated(recorded: &Recorded) -> bool
    ensures { result ≡ is_repeated_test recorded.now }
{
    matches!(recorded, Recorded::Repeated)
}

fn is_fault(recorded: &Recorded) -> bool
    ensures { result ≡ is_fault_test recorded.now }
{
    matches!(recorded, Recorded::Fault(_) | Recorded::Cut(_))
}
