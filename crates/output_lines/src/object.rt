//! A JSON object that is built member by member.
ghost use Rattle.std.specs.Prelude.{◌≡◌, ◌++◌, [], ◌∷◌, IfOk, OnOk, codes, false, string_bytes};
ghost use Rattle.serde_json.specs.Data.{object, string};
ghost use Rattle.serde_json.specs.View.{view, members_view};
ghost use Rattle.serde_json.specs.Written.{has_float, members_have_float};
ghost use Rattle.output_lines.specs.Members.{json_line, members_in, number_data, address_data};
ghost use Rattle.output_lines.specs.Members.{network_data, hex_data, PutsMember};

use ospf_types::address::Address;
use ospf_types::memory::Memory;
use ospf_types::prefix::Prefix;
use serde_json::{Map, Value};
use std::alloc::Global;
use std::marker::Model;

/// A JSON object, with its members in ascending order of their names.
///
/// No number in it has a fraction, because the digits of a fraction are not known. A `put` that
/// runs out of memory changes nothing. Contracts see the list of members.
#[derive(Drop)]
pub struct Object {
    alloc: Global,
    members: Map<String, Value>,
}

impl Model for Object {
    ghost use Rattle.std.specs.Prelude.{◌≡◌, List, String, false};
    ghost use Rattle.std.specs.declared.alloc.Global.{Global};
    ghost use Rattle.serde_json.specs.View.{members_view};
    ghost use Rattle.serde_json.specs.Written.{members_have_float};
    ghost use Rattle.serde_json.specs.declared.value.Value as json;
    ghost use Rattle.serde_json.specs.contracts.value.Value as json_value;
    ghost use Rattle.std.specs.Coded.{codes};

    ghost Value = { List (String Global × json.Value) };

    ghost coded = { Prim.hlevel (codes, json_value.the_row.coded) };

    ghost view = { λ o. o.members.entries };

    ghost invariant = { λ o. members_have_float (members_view o.members.entries) ≡ false };
}

impl Object {
    /// Creates an object without members.
    pub fn new(alloc: Global) -> Object
        ensures { result ≡ [] }
    {
        Object {
            alloc,
            members: Map::new(alloc),
        }
    }

    /// Creates an object with the member `type`.
    pub fn of_type(alloc: Global, kind: &str) -> Result<Object, Memory>
        ensures { IfOk result (λ o. members_view o
            ≡ members_in ((codes "type", string kind.now) ∷ [])) }
    {
        let mut object = Object::new(alloc);
        object.put_text("type", kind)?;
        Ok(object)
    }

    /// Creates an object with the members `type` and `line`, the number of a line of a recording.
    /// Lines are numbered from 1.
    pub fn of_line(alloc: Global, line: usize, kind: &str) -> Result<Object, Memory>
        ensures { IfOk result (λ o. members_view o
            ≡ members_in ((codes "line", number_data line) ∷ (codes "type", string kind.now) ∷ [])) }
    {
        let mut object = Object::of_type(alloc, kind)?;
        object.put("line", Value::from(line))?;
        Ok(object)
    }

    /// Returns the allocator of the object.
    pub fn alloc(&self) -> Global {
        self.alloc
    }

    /// Puts a value without a fraction under the name. It replaces an earlier value under that
    /// name.
    pub fn put(&mut self, name: &str, value: Value) -> Result<(), Memory>
        requires { has_float (view value) ≡ false }
        ensures { OnOk result (PutsMember name.now (view value)
            self.old self.new) }
    {
        serde_json::put(&mut self.members, self.alloc, name, value)?;
        Ok(())
    }

    /// Puts a number under the name.
    pub fn put_number(&mut self, name: &str, value: u64) -> Result<(), Memory>
        ensures { OnOk result (PutsMember name.now (number_data value)
            self.old self.new) }
    {
        self.put(name, Value::from(value))
    }

    /// Puts a copy of a text under the name.
    pub fn put_text(&mut self, name: &str, value: &str) -> Result<(), Memory>
        ensures { OnOk result (PutsMember name.now (string value.now)
            self.old self.new) }
    {
        self.put(name, Value::try_from_str(self.alloc, value)?)
    }

    /// Puts a text under the name.
    pub fn put_string(&mut self, name: &str, value: String) -> Result<(), Memory>
        ensures { OnOk result (PutsMember name.now (string (string_bytes value))
            self.old self.new) }
    {
        self.put(name, Value::String(value))
    }

    /// Puts an address, a Router ID or an Area ID (in host order) under the name, as `"192.0.2.1"`.
    pub fn put_address(&mut self, name: &str, value: u32) -> Result<(), Memory>
        ensures { OnOk result (PutsMember name.now (address_data value)
            self.old self.new) }
    {
        self.put_string(name, Address(value).to_string(self.alloc)?)
    }

    /// Puts a network under the name, as `"192.0.2.0/24"`.
    pub fn put_network(&mut self, name: &str, value: Prefix) -> Result<(), Memory>
        ensures { OnOk result (PutsMember name.now (network_data value)
            self.old self.new) }
    {
        self.put_string(name, value.to_string(self.alloc)?)
    }

    /// Puts bytes in hexadecimal under the name, two digits for each, in lower case.
    pub fn put_hexadecimal(&mut self, name: &str, value: &[u8]) -> Result<(), Memory>
        ensures { OnOk result (PutsMember name.now (hex_data value.now)
            self.old self.new) }
    {
        self.put_string(name, hex::encode(self.alloc, value)?)
    }

    /// Returns the object as a value.
    pub fn into_value(self) -> Value
        ensures value { view result ≡ object (members_view self) }
        ensures without_fractions { has_float (view result) ≡ false }
    {
        Value::Object(self.members)
    }

    /// Appends the object without spaces, and a line feed.
    ///
    /// # Errors
    ///
    /// Returns `Memory` if memory runs out. The text may then have a part of the line.
    pub fn append_to(self, text: &mut String) -> Result<(), Memory>
        ensures { OnOk result (string_bytes text.new ≡ string_bytes text.old
            ++ json_line (object (members_view self))) }
    {
        let line = Value::Object(self.members).to_string(self.alloc)?;
        text.push_str(line.as_str())?;
        text.push_str("\n")?;
        Ok(())
    }
}
