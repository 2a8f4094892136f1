//! Fragments, and the datagrams that they complete.

use anyhow::{Result, ensure};
use packets::{Datagram, Fragments, MOST, Memory};
use std::alloc::Global;

/// A fragment: its offset in bytes, if it is the last one, and its bytes.
#[derive(Clone, Copy)]
struct FragmentBytes<'a> {
    offset: u8,
    is_last: bool,
    payload: &'a [u8],
}

const A: FragmentBytes<'static> = FragmentBytes {
    offset: 0,
    is_last: false,
    payload: &[1, 2, 3, 4, 5, 6, 7, 8],
};

const B: FragmentBytes<'static> = FragmentBytes {
    offset: 8,
    is_last: false,
    payload: &[9, 10, 11, 12, 13, 14, 15, 16],
};

const C: FragmentBytes<'static> = FragmentBytes {
    offset: 16,
    is_last: true,
    payload: &[17, 18],
};

/// A fragment that covers the second half of `A` and the first half of `B`.
const OVER: FragmentBytes<'static> = FragmentBytes {
    offset: 4,
    is_last: false,
    payload: &[50, 60, 70, 80, 90, 100, 110, 120],
};

/// A last fragment whose end is not that of `C`.
const OTHER_END: FragmentBytes<'static> = FragmentBytes {
    offset: 16,
    is_last: true,
    payload: &[17],
};

/// A fragment that extends past the end of `C`.
const PAST: FragmentBytes<'static> = FragmentBytes {
    offset: 16,
    is_last: false,
    payload: &[17, 18, 19, 20, 21, 22, 23, 24],
};

const WHOLE: FragmentBytes<'static> = FragmentBytes {
    offset: 0,
    is_last: true,
    payload: &[1, 2, 3],
};

/// A last fragment right after `A`.
const END: FragmentBytes<'static> = FragmentBytes {
    offset: 8,
    is_last: true,
    payload: &[17, 18],
};

const SHORT: [u8; 10] = [1, 2, 3, 4, 5, 6, 7, 8, 17, 18];

const ALL: [u8; 18] = [
    1, 2, 3, 4, 5, 6, 7, 8, 9, 10, 11, 12, 13, 14, 15, 16, 17, 18,
];

/// Fragments of one datagram, the payload that the last of them completes, and the number of
/// incomplete datagrams afterwards.
#[derive(Clone, Copy)]
pub struct PartsTrial<'a> {
    pub name: &'a str,
    parts: &'a [FragmentBytes<'a>],
    wanted: Option<&'a [u8]>,
    kept: usize,
}

/// The fragments to test.
pub const PARTS: [PartsTrial<'static>; 9] = [
    PartsTrial {
        name: "fragments in order",
        parts: &[A, B, C],
        wanted: Some(&ALL),
        kept: 0,
    },
    PartsTrial {
        name: "fragments from the last to the first",
        parts: &[C, B, A],
        wanted: Some(&ALL),
        kept: 0,
    },
    PartsTrial {
        name: "fragments twice",
        parts: &[B, B, C, C, A],
        wanted: Some(&ALL),
        kept: 0,
    },
    PartsTrial {
        name: "a fragment over others",
        parts: &[A, B, OVER, C],
        wanted: Some(&[
            1, 2, 3, 4, 50, 60, 70, 80, 90, 100, 110, 120, 13, 14, 15, 16, 17, 18,
        ]),
        kept: 0,
    },
    PartsTrial {
        name: "others over a fragment",
        parts: &[OVER, C, B, A],
        wanted: Some(&ALL),
        kept: 0,
    },
    PartsTrial {
        name: "a gap",
        parts: &[A, C],
        wanted: None,
        kept: 1,
    },
    PartsTrial {
        name: "two ends",
        parts: &[A, C, OTHER_END],
        wanted: None,
        kept: 0,
    },
    PartsTrial {
        name: "a fragment past the end",
        parts: &[C, PAST],
        wanted: None,
        kept: 0,
    },
    PartsTrial {
        name: "a whole datagram",
        parts: &[WHOLE],
        wanted: Some(&[1, 2, 3]),
        kept: 0,
    },
];

impl PartsTrial<'_> {
    pub fn run(&self, alloc: Global) -> Result<()> {
        let is_right = self.comes(alloc, &mut Fragments::new(alloc))?;
        let name = self.name;
        ensure!(is_right, "{name}: something else comes, or is kept");
        Ok(())
    }

    fn comes(&self, alloc: Global, fragments: &mut Fragments) -> Result<bool, Memory> {
        let mut is_right = true;
        for (place, part) in self.parts.iter().enumerate() {
            let wanted = if place + 1 == self.parts.len() {
                self.wanted
            } else {
                None
            };
            is_right &= makes(alloc, fragments, 7, part, wanted)?;
        }
        Ok(is_right && fragments.count() == self.kept)
    }
}

// Returns true if the fragment of the datagram with this identification completes exactly this
// payload, or completes nothing if it is `None`.
fn makes(
    alloc: Global,
    fragments: &mut Fragments,
    identification: u16,
    part: &FragmentBytes<'_>,
    wanted: Option<&[u8]>,
) -> Result<bool, Memory> {
    let answer = fragments.take(alloc, &datagram(identification, part))?;
    Ok(match (answer, wanted) {
        (Some(found), Some(bytes)) => found.as_slice() == bytes,
        (None, None) => true,
        _ => false,
    })
}

// Returns a fragment of the datagram with this identification, of at most 64 bytes.
fn datagram<'a>(identification: u16, part: &FragmentBytes<'a>) -> Datagram<'a> {
    Datagram {
        source: 0x0a00_0001,
        destination: 0xe000_0005,
        identification,
        protocol: 89,
        offset: usize::from(part.offset),
        is_last: part.is_last,
        payload: &part.payload[..part.payload.len().min(64)],
    }
}

/// Returns true if the first of 65 incomplete datagrams is dropped, and the last one is kept.
pub fn first_is_forgotten(alloc: Global) -> Result<bool, Memory> {
    are_forgotten(alloc, &mut Fragments::new(alloc))
}

fn are_forgotten(alloc: Global, fragments: &mut Fragments) -> Result<bool, Memory> {
    let mut is_right = true;
    for identification in 0..65 {
        is_right &= makes(alloc, fragments, identification, &A, None)?;
    }
    is_right &= fragments.count() == MOST;
    is_right &= makes(alloc, fragments, 0, &END, None)?;
    is_right &= makes(alloc, fragments, 64, &END, Some(&SHORT))?;
    Ok(is_right && fragments.count() == MOST - 1)
}
