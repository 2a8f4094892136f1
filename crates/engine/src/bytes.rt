//! Installation of LSAs from their bytes, which are read before the lock is taken.
ghost use Rattle.std.specs.Prelude.{MatchResult};
ghost use Rattle.engine.specs.Bytes.{AreInstalled, AreRefused};

use crate::Answer;
use crate::bytes_fault::BytesFault;
use crate::engine::Engine;
use event_core::Event;
use lsa_codec::read;
use ospf_types::key::Scope;
use std::sync::Wait;

impl Engine {
    /// Reads the bytes of one LSA (RFC 2328, A.4), and submits its installation in the scope.
    ///
    /// # Errors
    ///
    /// Returns the fault of the bytes if they are not a valid LSA, and no event is submitted.
    /// Otherwise it returns the refusal of the event.
    pub fn submit_bytes<R: Wait>(
        &self,
        rt: &R,
        scope: Scope,
        bytes: &[u8],
    ) -> Result<Answer, BytesFault>
        ensures { MatchResult result (AreInstalled self.now scope bytes.now)
            (AreRefused self.now scope bytes.now) }
    {
        let lsa = match read(self.alloc(), bytes) {
            Ok(lsa) => lsa,
            Err(fault) => return Err(BytesFault::Wire(fault)),
        };
        match self.submit(rt, Event::Install { scope, lsa }) {
            Ok(answer) => Ok(answer),
            Err(refused) => Err(BytesFault::Refused(refused)),
        }
    }
}
