//! IPv4 headers, and the datagrams or faults that are read from them.

use anyhow::{Result, ensure};
use packets::{DatagramFault, read_datagram};
use std::alloc::Global;

/// A datagram of 24 bytes from 10.0.0.1 to 224.0.0.5, and four bytes of padding.
const PACKET: [u8; 28] = [
    0x45, 0xc0, 0, 24, 0x12, 0x34, 0, 0, 1, 89, 0, 0, 10, 0, 0, 1, 224, 0, 0, 5, 1, 2, 3, 4, 0, 0,
    0, 0,
];

/// A fragment at offset 16 that is not the last one, with one word of options.
const OPTIONS: [u8; 32] = [
    0x46, 0xc0, 0, 32, 0xff, 0xfe, 0x20, 2, 1, 89, 0, 0, 192, 0, 2, 1, 224, 0, 0, 6, 0x94, 4, 0, 0,
    1, 2, 3, 4, 5, 6, 7, 8,
];

/// A test of `PACKET` with some bytes changed, cut to a length, and the fault that it has to have.
#[derive(Clone, Copy)]
pub struct HeaderTrial<'a> {
    pub name: &'a str,
    length: usize,
    changes: &'a [(usize, u8)],
    fault: Option<DatagramFault>,
}

/// The headers to test.
pub const HEADERS: [HeaderTrial<'static>; 10] = [
    HeaderTrial {
        name: "19 bytes",
        length: 19,
        changes: &[],
        fault: Some(DatagramFault::Header),
    },
    HeaderTrial {
        name: "version 6",
        length: 24,
        changes: &[(0, 0x65)],
        fault: Some(DatagramFault::Header),
    },
    HeaderTrial {
        name: "a header of 16 bytes",
        length: 24,
        changes: &[(0, 0x44)],
        fault: Some(DatagramFault::Header),
    },
    HeaderTrial {
        name: "a header that goes past the bytes",
        length: 24,
        changes: &[(0, 0x47)],
        fault: Some(DatagramFault::Header),
    },
    HeaderTrial {
        name: "a total length of 19",
        length: 24,
        changes: &[(3, 19)],
        fault: Some(DatagramFault::Length),
    },
    HeaderTrial {
        name: "a packet that is cut off",
        length: 23,
        changes: &[],
        fault: Some(DatagramFault::Length),
    },
    HeaderTrial {
        name: "four bytes, and more fragments",
        length: 24,
        changes: &[(6, 0x20)],
        fault: Some(DatagramFault::Fragment),
    },
    HeaderTrial {
        name: "a fragment that ends at 65536",
        length: 28,
        changes: &[(3, 28), (6, 0x1f), (7, 0xff)],
        fault: Some(DatagramFault::Fragment),
    },
    HeaderTrial {
        name: "a fragment that ends at 65532",
        length: 28,
        changes: &[(6, 0x1f), (7, 0xff)],
        fault: None,
    },
    HeaderTrial {
        name: "no payload",
        length: 20,
        changes: &[(3, 20)],
        fault: None,
    },
];

impl HeaderTrial<'_> {
    pub fn run(&self, alloc: Global) -> Result<()> {
        let name = self.name;
        let mut bytes = Vec::from_slice(alloc, &PACKET)?;
        for (place, byte) in self.changes {
            if let Some(changed) = bytes.get_mut(*place) {
                *changed = *byte;
            }
        }
        bytes.truncate(self.length);
        ensure!(
            read_datagram(&bytes).err() == self.fault,
            "{name}: something else is told"
        );
        Ok(())
    }
}

/// Returns true if the packet is read without its padding.
pub fn is_read() -> bool {
    match read_datagram(&PACKET) {
        Ok(d) => {
            d.source == 0x0a00_0001
                && d.destination == 0xe000_0005
                && d.identification == 0x1234
                && d.protocol == 89
                && d.is_whole()
                && d.end() == 4
                && d.payload == [1, 2, 3, 4].as_slice()
        }
        Err(_) => false,
    }
}

/// Returns true if the fragment with options is read.
pub fn is_read_behind_options() -> bool {
    match read_datagram(&OPTIONS) {
        Ok(d) => {
            d.source == 0xc000_0201
                && d.destination == 0xe000_0006
                && d.identification == 0xfffe
                && d.offset == 16
                && !d.is_last
                && !d.is_whole()
                && d.end() == 24
                && d.payload == [1, 2, 3, 4, 5, 6, 7, 8].as_slice()
        }
        Err(_) => false,
    }
}
