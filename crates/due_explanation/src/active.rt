//! The area that a summary would be originated into, and if it is active.
ghost use Rattle.std.specs.Prelude.{◌≡◌, ◌↔◌, Contains, IsTrue, option_copied};
ghost use Rattle.due_explanation.specs.Reasons.{AreSeveral, area_with};

use ospf_types::config::AreaConfig;
use summaries::has_other_active_area;

/// Returns the first area with this Area ID.
pub(crate) fn find_area(areas: &[AreaConfig], id: u32) -> Option<&AreaConfig>
    ensures { option_copied result ≡ area_with areas.now id }
{
    for area in areas {
        if area.id == id {
            return Some(area);
        }
    }
    None
}

/// Returns true if two or more areas are active: then this router is an area border router.
pub(crate) fn are_several(active: &[u32]) -> bool
    ensures { IsTrue result ↔ AreSeveral active.now }
{
    match active.first() {
        Some(first) => has_other_active_area(active, *first),
        None => false,
    }
}

/// Returns true if the area is active.
pub(crate) fn is_active(active: &[u32], area: u32) -> bool
    ensures { IsTrue result ↔ Contains active.now area }
{
    active.contains(&area)
}
