//! The numbers of faults and refusals.
ghost use Rattle.std.specs.Prelude.{◌≡◌};
ghost use Rattle.abr_c.specs.Numbers as numbers;

use event_core::{Refusal, Status};
use event_state::EntryFault;
use lsa_codec::WireFault;
use ospf_types::ConfigFault;
use recording::Fault;

/// 1 Length: a seed with fewer than 16 bytes.
pub(crate) const LENGTH: u32 = 1;
/// 30 Memory: memory ran out.
pub(crate) const MEMORY: u32 = 30;
/// 53 Order: a line out of order.
pub(crate) const ORDER: u32 = 53;
/// 60 NoCore: no core is open.
pub(crate) const NO_CORE: u32 = 60;
/// 61 NoPrefix: an address and a length that are not a valid network.
pub(crate) const NO_PREFIX: u32 = 61;

pub(crate) fn status_number(status: Status) -> u32
    ensures { result ≡ numbers.status_number status }
{
    match status {
        Status::Current => 0,
        Status::Behind => 11,
    }
}

pub(crate) fn refusal_number(refusal: Refusal) -> u32
    ensures { result ≡ numbers.refusal_number refusal }
{
    match refusal {
        Refusal::NoArea => 20,
        Refusal::Scope => 21,
        Refusal::Older => 22,
        Refusal::Same => 23,
        Refusal::NoLsa => 24,
        Refusal::NotOwn => 25,
        Refusal::NotMaxAge => 26,
        Refusal::Full => 27,
        Refusal::JournalFull => 28,
        Refusal::AddressTaken => 29,
        Refusal::RangeOverlaps => 34,
        Refusal::NoRange => 35,
        Refusal::RangeFull => 36,
        Refusal::Memory => 30,
        Refusal::Spawn => 31,
        Refusal::Workers => 32,
        Refusal::NotCurrent => 37,
    }
}

pub(crate) fn wire_number(fault: WireFault) -> u32
    ensures { result ≡ numbers.wire_number fault }
{
    match fault {
        WireFault::Length => 1,
        WireFault::Checksum => 2,
        WireFault::Age => 3,
        WireFault::Sequence => 4,
        WireFault::Kind => 5,
        WireFault::Reserved => 6,
        WireFault::Mask => 7,
        WireFault::RouterId => 8,
        WireFault::LinkType => 9,
        WireFault::Shape => 10,
        WireFault::Memory => 30,
    }
}

fn config_number(fault: ConfigFault) -> u32
    ensures { result ≡ numbers.config_number fault }
{
    match fault {
        ConfigFault::Areas => 40,
        ConfigFault::RangesOverlap => 41,
        ConfigFault::BackboneStub => 42,
        ConfigFault::Cost => 43,
        ConfigFault::RangeCount => 44,
        ConfigFault::Memory => 30,
    }
}

fn unfit_number(unfit: EntryFault) -> u32
    ensures { result ≡ numbers.unfit_number unfit }
{
    match unfit {
        EntryFault::NoArea => 20,
        EntryFault::Scope => 21,
        EntryFault::Full => 27,
        EntryFault::AddressTaken => 29,
    }
}

/// Returns the number of the fault. The fault of an LSA, a configuration or a base has its own
/// number.
pub(crate) fn fault_number(fault: Fault) -> u32
    ensures { result ≡ numbers.fault_number fault }
{
    match fault {
        Fault::Truncated => 50,
        Fault::Version => 51,
        Fault::Line => 52,
        Fault::Order => 53,
        Fault::Wire(fault) => wire_number(fault),
        Fault::Config(fault) => config_number(fault),
        Fault::Base(unfit) => unfit_number(unfit),
        Fault::Memory => 30,
    }
}
