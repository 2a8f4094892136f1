//! The versions of the format of recordings.

/// A version of the format.
///
/// In version 1, RFC1583Compatibility is disabled. From version 2 on, the third line says if it is
/// enabled.
///
/// A recording of version 3 begins with a base. Its fourth line is the serial, and `has` lines
/// after the header list the interfaces and LSAs of the base. Only this version has range events
/// and rolls.
#[derive(Clone, Copy, Debug, PartialEq, Eq)]
pub enum Version {
    One,
    Two,
    Three,
}
