//! Destinations, and the databases of LSAs, as members.
ghost use Rattle.std.specs.Prelude.{◌≡◌, OnOk, codes};
ghost use Rattle.output_lines.specs.Members.{PutsMember};
ghost use Rattle.output_lines.specs.Keys.{dest_data, scope_data};

use crate::object::Object;
use ospf_types::key::{Dest, Scope};
use ospf_types::memory::Memory;

impl Object {
    /// Puts a network, or the Router ID of an AS boundary router, under `destination`.
    pub fn put_dest(&mut self, dest: Dest) -> Result<(), Memory>
        ensures { OnOk result (PutsMember (codes "destination") (dest_data dest)
            self.old self.new) }
    {
        match dest {
            Dest::Net(network) => self.put_network("destination", network),
            Dest::Router(router) => self.put_address("destination", router),
        }
    }

    /// Puts a database under `scope`: its Area ID, or `"as"` for the database of AS-external-LSAs.
    pub fn put_scope(&mut self, scope: Scope) -> Result<(), Memory>
        ensures { OnOk result (PutsMember (codes "scope") (scope_data scope) self.old self.new) }
    {
        match scope {
            Scope::Area(area) => self.put_address("scope", area),
            Scope::As => self.put_text("scope", "as"),
        }
    }
}
