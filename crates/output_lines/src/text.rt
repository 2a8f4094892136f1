//! A whole LSA in words: the header, and the body by its LS type.
ghost use Rattle.std.specs.Prelude.{◌≡◌, ◌++◌, OnOk, string_bytes};
ghost use Rattle.output_lines.specs.Words.{body_words, words_of};

use crate::external::put_external;
use crate::header::put_header;
use crate::network::put_network;
use crate::router::put_router;
use crate::summary::put_summary;
use lsa_codec::Checked;
use ospf_types::lsa::{ASBR_SUMMARY_LSA, NETWORK_LSA, ROUTER_LSA, SUMMARY_LSA};
use ospf_types::memory::Memory;

/// Appends the LSA in words (RFC 2328, A.4), line by line in the order of its bytes.
///
/// Each link, attached router, TOS entry and further TOS record has one line, and so has each other
/// field. Ages are in seconds, and the length is in bytes. Options, router bits, sequence number
/// and checksum are in hexadecimal.
///
/// # Errors
///
/// Returns `Memory` if memory runs out. The text may then have a part of the words.
pub fn put_lsa_text(lsa: &Checked, text: &mut String) -> Result<(), Memory>
    ensures { OnOk result (string_bytes text.new ≡ string_bytes text.old ++ words_of lsa.now) }
{
    put_header(&lsa.header(), text)?;
    put_body(lsa, text)?;
    Ok(())
}

fn put_body(lsa: &Checked, text: &mut String) -> Result<(), Memory>
    ensures { OnOk result (string_bytes text.new ≡ string_bytes text.old
        ++ body_words lsa.now.body) }
{
    let (header, body) = (lsa.header(), lsa.body());
    match header.kind {
        ROUTER_LSA => put_router(body, text),
        NETWORK_LSA => put_network(body, text),
        SUMMARY_LSA => put_summary(body, text),
        // A.4.4: the mask of a type 4 summary-LSA is zero.
        ASBR_SUMMARY_LSA => put_summary(body, text),
        _ => put_external(body, text),
    }
}
