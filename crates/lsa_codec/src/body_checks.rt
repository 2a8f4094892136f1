//! The faults of a body, by LS type (RFC 2328, A.4.2 to A.4.5). Each body is read once.

ghost use Rattle.std.specs.Prelude.{◌≡◌};
ghost use Rattle.lsa_codec.specs.Faults.{router_findings as findings_of_router};
ghost use Rattle.lsa_codec.specs.Faults.{network_findings as findings_of_network};
ghost use Rattle.lsa_codec.specs.Faults.{summary_findings as findings_of_summary};
ghost use Rattle.lsa_codec.specs.Faults.{boundary_findings as findings_of_boundary};
ghost use Rattle.lsa_codec.specs.Faults.{external_findings as findings_of_external, findings_of};

use crate::findings::{CUT, Findings};
use crate::links::links_findings;
use crate::mask::is_mask;
use byteorder::{BigEndian, ByteOrder};
use ospf_types::lsa::{ASBR_SUMMARY_LSA, NETWORK_LSA, ROUTER_LSA, SUMMARY_LSA};

/// Returns the faults of the body of an LSA with LS type 1 to 5.
pub(crate) fn body_findings(kind: u8, body: &[u8]) -> Findings
    ensures { result ≡ findings_of kind body.now }
{
    match kind {
        ROUTER_LSA => router_findings(body),
        NETWORK_LSA => network_findings(body),
        SUMMARY_LSA => summary_findings(body),
        ASBR_SUMMARY_LSA => boundary_findings(body),
        _ => external_findings(body),
    }
}

fn router_findings(body: &[u8]) -> Findings
    ensures { result ≡ findings_of_router body.now }
{
    if body.len() < 4 {
        return CUT;
    }
    let links = links_findings(BigEndian::read_u16(&body[2..]), &body[4..]);
    Findings {
        reserved: body[1] != 0 || links.reserved,
        ..links
    }
}

fn network_findings(body: &[u8]) -> Findings
    ensures { result ≡ findings_of_network body.now }
{
    if body.len() < 4 {
        return CUT;
    }
    Findings {
        reserved: false,
        mask: !is_mask(BigEndian::read_u32(body)),
        link_type: false,
        shape: (body.len() - 4) % 4 != 0,
    }
}

fn summary_findings(body: &[u8]) -> Findings
    ensures { result ≡ findings_of_summary body.now }
{
    if body.len() < 8 {
        return CUT;
    }
    Findings {
        reserved: body[4] != 0,
        mask: !is_mask(BigEndian::read_u32(body)),
        link_type: false,
        shape: (body.len() - 8) % 4 != 0,
    }
}

fn boundary_findings(body: &[u8]) -> Findings
    ensures { result ≡ findings_of_boundary body.now }
{
    if body.len() < 8 {
        return CUT;
    }
    Findings {
        reserved: body[4] != 0,
        mask: BigEndian::read_u32(body) != 0,
        link_type: false,
        shape: (body.len() - 8) % 4 != 0,
    }
}

fn external_findings(body: &[u8]) -> Findings
    ensures { result ≡ findings_of_external body.now }
{
    if body.len() < 4 {
        return CUT;
    }
    Findings {
        reserved: body.len() >= 16 && body[4] % 128 != 0,
        mask: !is_mask(BigEndian::read_u32(body)),
        link_type: false,
        shape: body.len() < 16 || (body.len() - 4) % 12 != 0,
    }
}
