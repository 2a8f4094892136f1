//! The steps that add a fragment to a datagram.
ghost use Rattle.std.specs.Prelude.{◌≡◌, ◌≤◌, ◌<◌, Some, length, OnOk, OnErr, slice_get};
ghost use Rattle.packets.specs.Parts.{part_of};
ghost use Rattle.packets.specs.Kept.{Kept, with_part};
ghost use Rattle.packets.specs.Keeping.{IsPayloadAnswer, changed, begun, whole_with, whole_at_once};

use crate::datagram::Datagram;
use crate::fragments::MOST;
use crate::partial::Partial;
use ospf_types::memory::Memory;

/// Adds a fragment to the datagram at index `place`. Returns the payload if the datagram is then
/// whole.
pub(crate) fn go_on(
    partials: &mut Vec<Partial>,
    place: usize,
    fragment: &Datagram<'_>,
) -> Result<Option<Vec<u8>>, Memory>
    requires { place < length partials.old.items }
    ensures kept { (before : Kept) → slice_get partials.old.items place ≡ Some before
        → OnOk result (partials.new.items
        ≡ changed (part_of fragment.now) before partials.old.items place) }
    ensures answer { (before : Kept) → slice_get partials.old.items place ≡ Some before
        → IsPayloadAnswer result (whole_with (part_of fragment.now) before) }
    ensures unchanged { OnErr result (partials.new.items ≡ partials.old.items) }
{
    let partial = &mut partials[place];
    if partial.is_contradicted_by(fragment) {
        partials.remove(place);
        return Ok(None);
    }
    partial.add(fragment)?;
    if !partial.is_whole() {
        return Ok(None);
    }
    Ok(Some(partials.remove(place).into_payload()))
}

/// Adds the first fragment to a datagram. Returns the payload if the datagram is then whole.
pub(crate) fn begin(
    partials: &mut Vec<Partial>,
    mut partial: Partial,
    fragment: &Datagram<'_>,
) -> Result<Option<Vec<u8>>, Memory>
    requires { length partials.old.items ≤ MOST }
    ensures kept { OnOk result (partials.new.items
        ≡ begun (with_part (part_of fragment.now) partial) partials.old.items) }
    ensures answer { IsPayloadAnswer result (whole_at_once (with_part (part_of fragment.now) partial)) }
    ensures unchanged { OnErr result (partials.new.items ≡ partials.old.items) }
{
    partial.add(fragment)?;
    if partial.is_whole() {
        return Ok(Some(partial.into_payload()));
    }
    partials.push(partial)?;
    if partials.len() > MOST {
        partials.remove(0);
    }
    Ok(None)
}
