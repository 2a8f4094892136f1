//! The number of seconds between two packets that are recorded.
ghost use Rattle.std.specs.Prelude.{◌≡◌};
ghost use Rattle.capture_recording.specs.Seconds.{recorded_of};

use ospf_types::lsa::MAX_AGE;

/// Returns the number of `second` lines that are recorded if `seconds` pass: at most 3600. After
/// 3600 seconds all LSAs are at MaxAge (RFC 2328, 14), and age no further.
pub fn recorded_seconds(seconds: u64) -> u64
    ensures { result ≡ recorded_of seconds }
{
    seconds.min(u64::from(MAX_AGE))
}
