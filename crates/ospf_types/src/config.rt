//! Interfaces, areas and address ranges, and the configuration of a router (RFC 2328, C).
ghost use Rattle.std.specs.Prelude.{◌≡◌, IfOk};

use crate::listed::Listed;
use crate::memory::Memory;
use crate::prefix::Prefix;
use std::alloc::Global;

/// An interface of the root (RFC 2328, 9). It is on a point-to-point link if it has a peer.
#[derive(Clone, Copy, Debug, PartialEq, Eq, Hash)]
pub struct Interface {
    /// The Area ID.
    pub area: u32,
    /// The address of the interface, in host order.
    pub address: u32,
    /// The address of the neighbour at the other end, in host order, or 0 if there is none.
    pub peer: u32,
    /// True if the interface is up.
    pub up: bool,
}

/// The routes that are advertised into a stub area (RFC 2328, 3.6).
#[derive(Clone, Copy, Debug, PartialEq, Eq, Hash)]
pub struct Stub {
    /// The metric of the default route that is advertised into the area (C.2).
    pub cost: u32,
    /// True if the summaries of networks are advertised into the area too.
    pub summaries: bool,
}

/// An address range of an area (RFC 2328, 3.5).
#[derive(Clone, Copy, Debug, PartialEq, Eq, Hash)]
pub struct Range {
    /// The prefix of the range.
    pub prefix: Prefix,
    /// True if the range is advertised, and false if it is hidden (C.2).
    pub advertise: bool,
}

/// The address ranges of an area.
pub type Ranges = Listed<Range>;

impl Listed<Range> {
    /// Returns a copy of the list.
    pub fn copy(&self, alloc: Global) -> Result<Ranges, Memory>
        ensures { IfOk result (λ ranges. ranges ≡ self.now) }
    {
        Ranges::from_slice(alloc, self.as_slice())
    }
}

/// The configuration of an area (RFC 2328, 6 and C.2).
#[derive(Debug)]
pub struct AreaConfig {
    /// The Area ID.
    pub id: u32,
    /// The routes that are advertised into the area if it is a stub area, or else `None`.
    pub stub: Option<Stub>,
    /// The address ranges of the area.
    pub ranges: Ranges,
}

// proof: a value is dropped by one call, not part by part at each exit of a function.
impl Drop for AreaConfig {
    fn drop(self) {
        let AreaConfig {
            id: _,
            stub: _stub,
            ranges: _ranges,
        } = self;
    }
}

impl AreaConfig {
    /// Returns a copy of the area's configuration.
    pub fn copy(&self, alloc: Global) -> Result<AreaConfig, Memory>
        ensures { IfOk result (λ area. area ≡ self.now) }
    {
        Ok(AreaConfig {
            id: self.id,
            stub: self.stub,
            ranges: self.ranges.copy(alloc)?,
        })
    }
}

/// The areas of a router.
pub type Areas = Listed<AreaConfig>;

impl Listed<AreaConfig> {
    /// Returns a copy of the list.
    pub fn copy(&self, alloc: Global) -> Result<Areas, Memory>
        ensures { IfOk result (λ areas. areas ≡ self.now) }
    {
        let mut areas = Areas::new(alloc);
        for area in self.as_slice() {
            areas.push(area.copy(alloc)?)?;
        }
        Ok(areas)
    }
}

/// The configuration of a router.
#[derive(Debug)]
pub struct Config {
    /// The Router ID.
    pub router: u32,
    /// True if RFC1583Compatibility is enabled (RFC 2328, 16.4.1 and C.1).
    pub compat: bool,
    /// The configured areas.
    pub areas: Areas,
}

// proof: a value is dropped by one call, not part by part at each exit of a function.
impl Drop for Config {
    fn drop(self) {
        let Config {
            router: _,
            compat: _,
            areas: _areas,
        } = self;
    }
}

impl Config {
    /// Returns a copy of the configuration.
    pub fn copy(&self, alloc: Global) -> Result<Config, Memory>
        ensures { IfOk result (λ config. config ≡ self.now) }
    {
        Ok(Config {
            router: self.router,
            compat: self.compat,
            areas: self.areas.copy(alloc)?,
        })
    }
}
