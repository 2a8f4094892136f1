//! The parts of a configuration that a capture does not show.
ghost use Rattle.std.specs.Prelude.{◌≡◌, ◌++◌, OnOk, string_bytes};
ghost use Rattle.std.specs.List.{flat_map};
ghost use Rattle.captured_config.specs.Facts.{AreFacts};
ghost use Rattle.captured_config.specs.Lsas.{Captured};
ghost use Rattle.captured_config.specs.Unknown.{area_lines_by, line_if, no_interface_line};
ghost use Rattle.captured_config.specs.Unknown.{router_lines, unknown_by, unknown_cost_line};
ghost use Rattle.captured_config.specs.Unknown.{unknown_text};

use crate::areas::SeenAreas;
use crate::config::CapturedConfig;
use crate::found::Found;
use ospf_types::address::Address;
use ospf_types::memory::Memory;

impl CapturedConfig {
    /// Appends the lines for standard error about what the capture does not show. These are areas
    /// in which the router has no router-LSA, stub areas without a default cost, address ranges,
    /// and interfaces without a number in a recording.
    ///
    /// # Errors
    ///
    /// Returns `Memory` if memory runs out. The text may then have some of the lines.
    pub fn put_unknown(&self, areas: &SeenAreas, text: &mut String) -> Result<(), Memory>
        ensures { (c : Captured) → AreFacts c self.now → OnOk result
            (string_bytes text.new ≡ string_bytes text.old ++ unknown_text c areas.now) }
    {
        let ids = areas.ascending(*text.allocator())?;
        self.put_unknown_of(&ids, text)
    }

    fn put_unknown_of(&self, ids: &[u32], text: &mut String) -> Result<(), Memory>
        ensures { OnOk result (string_bytes text.new ≡ string_bytes text.old
            ++ unknown_by self.now ids.now) }
    {
        let found = self.interfaces(*text.allocator(), ids)?;
        self.put_areas(ids, text)?;
        put_router(ids, &found, text)
    }

    fn put_areas(&self, ids: &[u32], text: &mut String) -> Result<(), Memory>
        ensures { OnOk result (string_bytes text.new ≡ string_bytes text.old
            ++ flat_map (area_lines_by self.now) ids.now) }
    {
        for id in ids {
            self.put_area(*id, text)?;
        }
        Ok(())
    }

    fn put_area(&self, area: u32, text: &mut String) -> Result<(), Memory>
        ensures { OnOk result (string_bytes text.new ≡ string_bytes text.old
            ++ area_lines_by self.now area) }
    {
        let facts = self.in_area(area);
        put_no_interface_if(!facts.has_router_lsa(), self.router(), area, text)?;
        put_unknown_cost_if(facts.is_cost_unknown(), area, text)
    }
}

// Appends the lines about the router as a whole. Only a router with several areas has address
// ranges (RFC 2328, 3.5).
fn put_router(ids: &[u32], found: &Found, text: &mut String) -> Result<(), Memory>
    ensures { OnOk result (string_bytes text.new ≡ string_bytes text.old
        ++ router_lines ids.now found.now) }
{
    put_if(ids.len() > 1, NO_RANGES, text)?;
    put_if(found.left_out, LEFT_OUT, text)
}

const NO_RANGES: &str =
    "abr: address ranges are not in a capture: there are none in the recording\n";

const LEFT_OUT: &str = "abr: more than 255 interfaces: the others are left out\n";

// Appends the line if `told` is true.
fn put_if(told: bool, line: &str, text: &mut String) -> Result<(), Memory>
    ensures { OnOk result (string_bytes text.new ≡ string_bytes text.old
        ++ line_if told line.now) }
{
    if !told {
        return Ok(());
    }
    text.push_str(line)?;
    Ok(())
}

fn put_no_interface_if(told: bool, router: u32, area: u32, text: &mut String) -> Result<(), Memory>
    ensures { OnOk result (string_bytes text.new ≡ string_bytes text.old
        ++ line_if told (no_interface_line router area)) }
{
    if !told {
        return Ok(());
    }
    let (area, router) = (Address(area), Address(router));
    writeln!(
        text,
        "abr: area {area}: no router-LSA of {router}, so it has no interface there"
    )?;
    Ok(())
}

fn put_unknown_cost_if(told: bool, area: u32, text: &mut String) -> Result<(), Memory>
    ensures { OnOk result (string_bytes text.new ≡ string_bytes text.old
        ++ line_if told (unknown_cost_line area)) }
{
    if !told {
        return Ok(());
    }
    let area = Address(area);
    writeln!(
        text,
        "abr: area {area}: a stub area whose default cost is not in the capture, taken to be 1"
    )?;
    Ok(())
}
