//! Single LSAs, without a core.
ghost use Rattle.std.specs.Prelude.{◌≡◌, ◌≤◌, ◌++◌, length, drop};
ghost use Rattle.lsa_codec.specs.Checksum.{checksum_of};
ghost use Rattle.lsa_codec.specs.Spelling.{header_bytes, spelling};
ghost use Rattle.abr_c.specs.Given.{IsOutputGiven, written};
ghost use Rattle.abr_c.specs.Told.{IsLsaNumber};

use crate::given::give;
use crate::numbers::wire_number;
use byteorder::{BigEndian, ByteOrder};
use lsa_codec::{Checked, Header, read, sum_of};
use std::alloc::Global;

/// Returns the number of the first fault of the bytes, or 0 if they are a valid LSA. It is 30 if
/// memory runs out.
#[unsafe(no_mangle)]
pub extern "C" fn abr_lsa_fault_bytes(alloc: Global, lsa: &[u8]) -> u32
    ensures { IsLsaNumber lsa.now result }
{
    let Err(fault) = read(alloc, lsa) else {
        return 0;
    };
    wire_number(fault)
}

/// Writes the checksum that the LSA has to have to `out`. Returns true if it has one.
#[unsafe(no_mangle)]
pub extern "C" fn abr_lsa_sum_bytes(lsa: &[u8], out: &mut u16) -> bool
    ensures { IsOutputGiven (checksum_of lsa.now) result out.old out.new }
{
    give(out, sum_of(lsa))
}

/// Writes the LSA to the start of `out`, if there is room for all of it. Returns its length. It
/// allocates nothing.
#[tactic(auto, unfolding(lsa_codec::specs::Spelling::spelling))]
pub(crate) fn write_lsa(lsa: &Checked, out: &mut [u8]) -> usize
    ensures length { result ≡ length (spelling lsa.now) }
    ensures written { out.new ≡ written (spelling lsa.now) out.old }
{
    let (header, body) = (lsa.header(), lsa.body());
    let length = 20 + body.len();
    if length <= out.len() {
        write_header(header, out);
        out[20..length].copy_from_slice(body);
    }
    length
}

fn write_header(header: Header, out: &mut [u8])
    requires { 20 ≤ length out.old }
    ensures { out.new ≡ header_bytes header ++ drop 20 out.old }
{
    BigEndian::write_u16(out, header.age);
    out[2] = header.options;
    out[3] = header.kind;
    BigEndian::write_u32(&mut out[4..], header.id);
    BigEndian::write_u32(&mut out[8..], header.router);
    BigEndian::write_u32(&mut out[12..], header.seq);
    BigEndian::write_u16(&mut out[16..], header.sum);
    BigEndian::write_u16(&mut out[18..], header.length);
}
