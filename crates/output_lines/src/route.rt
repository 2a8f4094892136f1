//! Routes with their next hops as members (RFC 2328, 11).
ghost use Rattle.std.specs.Prelude.{◌≡◌, IfOk, OnOk, codes, false};
ghost use Rattle.serde_json.specs.View.{view, members_view};
ghost use Rattle.serde_json.specs.Written.{has_float};
ghost use Rattle.output_lines.specs.Members.{members_in, PutsMember};
ghost use Rattle.output_lines.specs.Routes.{route_data, paths_data, path_data, area_data};
ghost use Rattle.output_lines.specs.Routes.{hop_members, interface_members};

use crate::object::Object;
use ospf_types::entry::Entry;
use ospf_types::hop::{NextHop, Path};
use ospf_types::memory::Memory;
use serde_json::Value;
use std::alloc::Global;

impl Object {
    /// Puts a route under `route`.
    pub fn put_route(&mut self, entry: &Entry) -> Result<(), Memory>
        ensures { OnOk result (PutsMember (codes "route") (route_data entry.now)
            self.old self.new) }
    {
        let route = route_value(self.alloc(), entry)?;
        self.put("route", route)
    }

    /// Puts a path under `path`.
    pub fn put_path(&mut self, path: &Path) -> Result<(), Memory>
        ensures { OnOk result (PutsMember (codes "path") (path_data path.now)
            self.old self.new) }
    {
        let path = path_value(self.alloc(), path)?;
        self.put("path", path)
    }

    // Puts the Area ID under `area`, or null for an external route.
    fn put_area(&mut self, area: Option<u32>) -> Result<(), Memory>
        ensures { OnOk result (PutsMember (codes "area") (area_data area)
            self.old self.new) }
    {
        match area {
            Some(area) => self.put_address("area", area),
            None => self.put("area", Value::Null),
        }
    }
}

// Returns the route as an object. `cost2` is the type 2 metric.
fn route_value(alloc: Global, entry: &Entry) -> Result<Value, Memory>
    ensures value { IfOk result (λ v. view v ≡ route_data entry.now) }
    ensures without_fractions { IfOk result (λ v. has_float (view v) ≡ false) }
{
    let mut object = Object::new(alloc);
    object.put_string("kind", entry.kind.to_string(alloc)?)?;
    object.put_area(entry.area)?;
    object.put_number("cost", u64::from(entry.cost))?;
    object.put_number("cost2", u64::from(entry.cost2))?;
    object.put("hops", paths_value(alloc, entry.paths.as_slice())?)?;
    Ok(object.into_value())
}

// Returns the equal-cost paths as an array, in their order.
fn paths_value(alloc: Global, paths: &[Path]) -> Result<Value, Memory>
    ensures { IfOk result (λ v. view v ≡ paths_data paths.now) }
{
    let mut values = Vec::new(alloc);
    for path in paths {
        values.push(path_value(alloc, path)?)?;
    }
    Ok(Value::Array(values))
}

// Returns the path as an object: its next hop, and the border router that advertised it, if any.
fn path_value(alloc: Global, path: &Path) -> Result<Value, Memory>
    ensures value { IfOk result (λ v. view v ≡ path_data path.now) }
    ensures without_fractions { IfOk result (λ v. has_float (view v) ≡ false) }
{
    let mut object = hop_object(alloc, path.hop)?;
    if let Some(router) = path.advertiser {
        object.put_address("through", router)?;
    }
    Ok(object.into_value())
}

fn hop_object(alloc: Global, hop: NextHop) -> Result<Object, Memory>
    ensures { IfOk result (λ o. members_view o ≡ members_in (hop_members hop)) }
{
    match hop {
        NextHop::Direct(interface) => interface_object(alloc, "direct", interface),
        NextHop::Peer(interface) => interface_object(alloc, "peer", interface),
        NextHop::Router(interface, address) => {
            let mut object = interface_object(alloc, "router", interface)?;
            object.put_address("address", address)?;
            Ok(object)
        }
    }
}

fn interface_object(alloc: Global, hop: &str, interface: u8) -> Result<Object, Memory>
    ensures { IfOk result (λ o. members_view o
        ≡ members_in (interface_members hop.now interface)) }
{
    let mut object = Object::new(alloc);
    object.put_text("hop", hop)?;
    object.put_number("interface", u64::from(interface))?;
    Ok(object)
}
