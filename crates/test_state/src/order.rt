//! Which of two instances is newer (RFC 2328, 13.1), and if their contents differ (13.2).
use crate::bytes::{STUB, put, seal};
use lsa_codec::read;
use lsa_order::{Header, Newer, contents_differ, newer};
use std::alloc::Global;
use std::test::Fail;

// Returns a header with this age, sequence number and checksum.
fn instance((age, seq, sum): (u16, u32, u16)) -> Header {
    Header {
        age,
        options: 2,
        kind: 1,
        id: 0x0a00_0001,
        router: 0x0a00_0001,
        seq,
        sum,
        length: 36,
    }
}

#[test]
fn newer_ones(rt: HostRuntime) {
    for (first, second, answer) in [
        ((0, 0x8000_0001, 7), (900, 0x8000_0001, 7), Newer::Same),
        ((0, 0x8000_0001, 7), (901, 0x8000_0001, 7), Newer::First),
        (
            (3599, 0x8000_0001, 7),
            (3600, 0x8000_0001, 7),
            Newer::Second,
        ),
        // The only instance at MaxAge is the newer, although the other is younger.
        ((3600, 0x8000_0001, 7), (0, 0x8000_0001, 7), Newer::First),
        ((3600, 0x8000_0001, 7), (3600, 0x8000_0001, 7), Newer::Same),
        ((1000, 0x8000_0001, 8), (0, 0x8000_0001, 7), Newer::First),
        ((0, 0x7fff_ffff, 1), (3600, 0x8000_0001, 2), Newer::First),
    ] {
        assert!(rt; newer(&instance(first), &instance(second)) == answer);
    }
}

// Returns true if the contents of the stub's LSA differ from its own with one byte changed and a
// matching checksum, at these ages.
fn differs(alloc: Global, ages: (u16, u16), place: usize, byte: u8) -> Result<bool, Fail> {
    let mut bytes = Vec::from_slice(alloc, &STUB)?;
    put(&mut bytes, place, &[byte])?;
    seal(&mut bytes)?;
    let (first, second) = (read(alloc, &STUB)?, read(alloc, &bytes)?);
    Ok(contents_differ(&first, ages.0, &second, ages.1))
}

// Options, metric and MaxAge count. The sequence number and an age below MaxAge do not.
#[test]
fn contents(rt: HostRuntime) -> Result<(), Fail> {
    let options = differs(rt.alloc(), (1, 1), 2, 0)?;
    let metric = differs(rt.alloc(), (1, 1), 35, 11)?;
    let at_end = differs(rt.alloc(), (3600, 3599), 15, 2)?;
    let refreshed = differs(rt.alloc(), (0, 3599), 15, 2)?;
    assert!(rt; options && metric && at_end && !refreshed);
    Ok(())
}
