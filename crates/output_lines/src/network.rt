//! The body of a network-LSA in words (RFC 2328, A.4.3).
ghost use Rattle.std.specs.Prelude.{◌≡◌, ◌≤◌, ◌++◌, OnOk, length, string_bytes};
ghost use Rattle.std.specs.List.{flat_map};
ghost use Rattle.lsa_codec.specs.Decoding.{network_body_of};
ghost use Rattle.lsa_codec.specs.Left.{routers_left};
ghost use Rattle.output_lines.specs.Words.{attached_line, body_words};

use crate::fields::put_address;
use byteorder::{BigEndian, ByteOrder};
use ospf_types::memory::Memory;

/// Appends the mask, and a line for each attached router.
pub(crate) fn put_network(body: &[u8], text: &mut String) -> Result<(), Memory>
    requires { 4 ≤ length body.now }
    ensures { OnOk result (string_bytes text.new ≡ string_bytes text.old
        ++ body_words (network_body_of body.now)) }
{
    put_address("Network Mask", BigEndian::read_u32(body), text)?;
    put_routers(&body[4..], text)?;
    Ok(())
}

fn put_routers(routers: &[u8], text: &mut String) -> Result<(), Memory>
    ensures { OnOk result (string_bytes text.new ≡ string_bytes text.old
        ++ flat_map attached_line (routers_left routers.now)) }
{
    let mut rest = routers;
    for _ in 0..routers.len() / 4 {
        put_address("Attached Router", BigEndian::read_u32(rest), text)?;
        rest = &rest[4..];
    }
    Ok(())
}
