//! The results for the places in a Link State Update: an LSA that is recorded or left out, or a
//! fault.
use lsa_codec::{Checked, WireFault};
use ospf_types::key::Scope;
use packets::UpdateFault;

/// The result for one place in a Link State Update.
#[derive(Debug, Drop)]
pub enum Recorded {
    /// The LSA is installed in the database of its scope.
    Install {
        scope: Scope,
        lsa: Checked,
        /// True if the LSA is at MaxAge: it is purged right after that.
        purges: bool,
    },
    /// The LSA is not newer than the newest instance of it that was recorded, and is left out (RFC
    /// 2328, 13 (7) and (8)).
    Repeated,
    /// The LSA is of an area that the recording does not have, and is left out.
    OtherArea {
        /// Area ID, in host order.
        area: u32,
        /// True if no LSA of this area was left out before.
        is_first: bool,
    },
    /// The bytes are not a valid LSA, and are left out.
    Fault(WireFault),
    /// There is no whole LSA at this place, which is the last one.
    Cut(UpdateFault),
}
