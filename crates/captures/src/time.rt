//! The times of packets.

ghost use Rattle.std.specs.Prelude.{◌≡◌, ◌*◌, ◌/◌, ◌^◌, ◌<◌};
ghost use Rattle.std.specs.Option.{SomeIff};
ghost use Rattle.captures.specs.Times.{units_of, moved_by, held, time_of, resolution_of, offset_of};

/// The number of nanoseconds in a second.
const SECOND: u128 = 1_000_000_000;

/// The number of units in a second, in which an interface counts time.
#[derive(Clone, Copy)]
pub(crate) enum Resolution {
    /// 10 to this power.
    Decimal(u8),
    /// 2 to this power.
    Binary(u8),
}

/// The number of seconds to add to the times of an interface.
#[derive(Clone, Copy)]
pub(crate) enum Offset {
    /// This number of seconds is added.
    Later(u64),
    /// This number of seconds is subtracted.
    Earlier(u64),
}

/// The resolution and the offset of the times of an interface.
#[derive(Clone, Copy)]
pub(crate) struct Timing {
    pub(crate) resolution: Resolution,
    pub(crate) offset: Offset,
}

/// The timing of an interface that states none: microseconds since 1970.
pub(crate) const USUAL_TIMING: Timing = Timing {
    resolution: Resolution::Decimal(6),
    offset: Offset::Later(0),
};

/// Returns the resolution for the byte of its option. The highest bit is set for a power of 2.
pub(crate) fn resolution_in(byte: u8) -> Resolution
    ensures { result ≡ resolution_of byte }
{
    if byte < 128 {
        Resolution::Decimal(byte)
    } else {
        Resolution::Binary(byte - 128)
    }
}

/// Returns the offset for the number of its option, which is in two's complement.
pub(crate) fn offset_in(number: u64) -> Offset
    ensures { result ≡ offset_of number }
{
    if number < 1 << 63 {
        Offset::Later(number)
    } else {
        Offset::Earlier(u64::MAX - number + 1)
    }
}

impl Resolution {
    // Returns the number of units in a second, or `None` if it is 2^128 or more.
    fn units(self) -> Option<u128>
        ensures { SomeIff result (units_of self < 2 ^ 128) (units_of self) }
    {
        match self {
            Resolution::Decimal(power) => 10_u128.checked_pow(u32::from(power)),
            Resolution::Binary(power) => 2_u128.checked_pow(u32::from(power)),
        }
    }

    // Converts units to whole nanoseconds, rounded down.
    fn nanoseconds(self, units: u64) -> u128
        ensures value { result ≡ units * 1000000000 / units_of self }
        ensures bound { result < 2 ^ 94 }
    {
        match self.units() {
            Some(second) => u128::from(units) * SECOND / second,
            // With 2^128 units or more in a second, the quotient is below 1.
            None => 0,
        }
    }
}

impl Offset {
    // Adds the offset to a time. Returns `None` if the result is before 1970.
    fn moved(self, nanoseconds: u128) -> Option<u128>
        requires { nanoseconds < 2 ^ 94 }
        ensures { result ≡ moved_by self nanoseconds }
    {
        match self {
            Offset::Later(seconds) => Some(nanoseconds + u128::from(seconds) * SECOND),
            Offset::Earlier(seconds) => nanoseconds.checked_sub(u128::from(seconds) * SECOND),
        }
    }
}

impl Timing {
    /// Returns the time of `units` in nanoseconds since 1970, or `None` if it is negative or is
    /// 2^64 or more.
    pub(crate) fn time(self, units: u64) -> Option<u64>
        ensures { result ≡ time_of self units }
    {
        match self.offset.moved(self.resolution.nanoseconds(units)) {
            Some(nanoseconds) => held_in(nanoseconds),
            None => None,
        }
    }
}

// Returns the number if it fits into 64 bits.
fn held_in(number: u128) -> Option<u64>
    ensures { result ≡ held number }
{
    u64::try_from(number).ok()
}
