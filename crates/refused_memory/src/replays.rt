//! A replay for which one request for memory may be refused.

use crate::page::OutputPage;
use output_lines::Format;
use recording::Fault;
use replay::{PrintOptions, ReplayFault, Show, replay_one};
use std::hash::RandomState;
use std::random::RandomSource;

// A recording in which the border router 10.0.0.2 at 10 advertises a summary at 10. It then becomes
// an AS boundary router with an external route of type 2.
const RECORDING: &str = "abr 1\n\
router 10.0.0.1\n\
area 0.0.0.0 normal\n\
interface 1 0.0.0.0 198.51.100.1 198.51.100.2 up\n\
install 0.0.0.0 000102010a0000010a00000180000001e6e20024000000010a000002c63364010100000a\n\
install 0.0.0.0 000102010a0000020a00000280000001dde80024010000010a000001c63364020100000a\n\
install 0.0.0.0 000102030a0100000a00000280000001da61001cffff00000000000a\n\
lookup 10.1.2.3\n\
lookup 10.2.0.1\n\
install 0.0.0.0 000102030a0100000a00000280000001da61001cffff00000000000a\n\
install 0.0.0.0 000102010a0000020a00000280000002e1e10024030000010a000001c63364020100000a\n\
install as 00010205cb0071000a000002800000010c690024ffffff00800000140000000000000000\n\
lookup 203.0.113.9\n";

// The output if nothing is refused.
const WHOLE: &str = "8 lookup 10.1.2.3 4 route 10.1.0.0/16 inter 0.0.0.0 20 0 peer:1@10.0.0.2\n\
9 lookup 10.2.0.1 4 none\n\
10 refused 23 Same\n\
13 lookup 203.0.113.9 6 route 203.0.113.0/24 ext2 - 10 20 peer:1@10.0.0.2\n\
serial 6 built 6\n\
route 10.1.0.0/16 inter 0.0.0.0 20 0 peer:1@10.0.0.2\n\
route 203.0.113.0/24 ext2 - 10 20 peer:1@10.0.0.2\n";

// The outputs if the event of a line is refused, in the order of the lines. They were found by
// hand.
const REFUSED: [&str; 7] = [
    // No interface is up, so no router is reached.
    "4 refused 30 Memory\n\
8 lookup 10.1.2.3 3 none\n\
9 lookup 10.2.0.1 3 none\n\
10 refused 23 Same\n\
13 lookup 203.0.113.9 5 none\n\
serial 5 built 5\n",
    // The root has no router-LSA.
    "5 refused 30 Memory\n\
8 lookup 10.1.2.3 3 none\n\
9 lookup 10.2.0.1 3 none\n\
10 refused 23 Same\n\
13 lookup 203.0.113.9 5 none\n\
serial 5 built 5\n",
    // The border router has no router-LSA until line 11.
    "6 refused 30 Memory\n\
8 lookup 10.1.2.3 3 none\n\
9 lookup 10.2.0.1 3 none\n\
10 refused 23 Same\n\
13 lookup 203.0.113.9 5 route 203.0.113.0/24 ext2 - 10 20 peer:1@10.0.0.2\n\
serial 5 built 5\n\
route 10.1.0.0/16 inter 0.0.0.0 20 0 peer:1@10.0.0.2\n\
route 203.0.113.0/24 ext2 - 10 20 peer:1@10.0.0.2\n",
    // The summary-LSA is installed by line 10.
    "7 refused 30 Memory\n\
8 lookup 10.1.2.3 3 none\n\
9 lookup 10.2.0.1 3 none\n\
13 lookup 203.0.113.9 6 route 203.0.113.0/24 ext2 - 10 20 peer:1@10.0.0.2\n\
serial 6 built 6\n\
route 10.1.0.0/16 inter 0.0.0.0 20 0 peer:1@10.0.0.2\n\
route 203.0.113.0/24 ext2 - 10 20 peer:1@10.0.0.2\n",
    // Line 10 is refused in any case.
    WHOLE,
    // The border router is not an AS boundary router.
    "8 lookup 10.1.2.3 4 route 10.1.0.0/16 inter 0.0.0.0 20 0 peer:1@10.0.0.2\n\
9 lookup 10.2.0.1 4 none\n\
10 refused 23 Same\n\
11 refused 30 Memory\n\
13 lookup 203.0.113.9 5 none\n\
serial 5 built 5\n\
route 10.1.0.0/16 inter 0.0.0.0 20 0 peer:1@10.0.0.2\n",
    // There is no external route.
    "8 lookup 10.1.2.3 4 route 10.1.0.0/16 inter 0.0.0.0 20 0 peer:1@10.0.0.2\n\
9 lookup 10.2.0.1 4 none\n\
10 refused 23 Same\n\
12 refused 30 Memory\n\
13 lookup 203.0.113.9 5 none\n\
serial 5 built 5\n\
route 10.1.0.0/16 inter 0.0.0.0 20 0 peer:1@10.0.0.2\n",
];

// The outputs if the event of a line leaves the table behind, in the order of the lines. The next
// event rebuilds the table.
const BEHIND: [&str; 6] = [
    "4 behind\n\
8 lookup 10.1.2.3 4 route 10.1.0.0/16 inter 0.0.0.0 20 0 peer:1@10.0.0.2\n\
9 lookup 10.2.0.1 4 none\n\
10 refused 23 Same\n\
13 lookup 203.0.113.9 6 route 203.0.113.0/24 ext2 - 10 20 peer:1@10.0.0.2\n\
serial 6 built 6\n\
route 10.1.0.0/16 inter 0.0.0.0 20 0 peer:1@10.0.0.2\n\
route 203.0.113.0/24 ext2 - 10 20 peer:1@10.0.0.2\n",
    "5 behind\n\
8 lookup 10.1.2.3 4 route 10.1.0.0/16 inter 0.0.0.0 20 0 peer:1@10.0.0.2\n\
9 lookup 10.2.0.1 4 none\n\
10 refused 23 Same\n\
13 lookup 203.0.113.9 6 route 203.0.113.0/24 ext2 - 10 20 peer:1@10.0.0.2\n\
serial 6 built 6\n\
route 10.1.0.0/16 inter 0.0.0.0 20 0 peer:1@10.0.0.2\n\
route 203.0.113.0/24 ext2 - 10 20 peer:1@10.0.0.2\n",
    "6 behind\n\
8 lookup 10.1.2.3 4 route 10.1.0.0/16 inter 0.0.0.0 20 0 peer:1@10.0.0.2\n\
9 lookup 10.2.0.1 4 none\n\
10 refused 23 Same\n\
13 lookup 203.0.113.9 6 route 203.0.113.0/24 ext2 - 10 20 peer:1@10.0.0.2\n\
serial 6 built 6\n\
route 10.1.0.0/16 inter 0.0.0.0 20 0 peer:1@10.0.0.2\n\
route 203.0.113.0/24 ext2 - 10 20 peer:1@10.0.0.2\n",
    // Both lookups find the table of three events. The refused install does not rebuild it.
    "7 behind\n\
8 lookup 10.1.2.3 3 none\n\
9 lookup 10.2.0.1 3 none\n\
10 refused 23 Same\n\
13 lookup 203.0.113.9 6 route 203.0.113.0/24 ext2 - 10 20 peer:1@10.0.0.2\n\
serial 6 built 6\n\
route 10.1.0.0/16 inter 0.0.0.0 20 0 peer:1@10.0.0.2\n\
route 203.0.113.0/24 ext2 - 10 20 peer:1@10.0.0.2\n",
    "8 lookup 10.1.2.3 4 route 10.1.0.0/16 inter 0.0.0.0 20 0 peer:1@10.0.0.2\n\
9 lookup 10.2.0.1 4 none\n\
10 refused 23 Same\n\
11 behind\n\
13 lookup 203.0.113.9 6 route 203.0.113.0/24 ext2 - 10 20 peer:1@10.0.0.2\n\
serial 6 built 6\n\
route 10.1.0.0/16 inter 0.0.0.0 20 0 peer:1@10.0.0.2\n\
route 203.0.113.0/24 ext2 - 10 20 peer:1@10.0.0.2\n",
    // The table at the end is the table of five events.
    "8 lookup 10.1.2.3 4 route 10.1.0.0/16 inter 0.0.0.0 20 0 peer:1@10.0.0.2\n\
9 lookup 10.2.0.1 4 none\n\
10 refused 23 Same\n\
12 behind\n\
13 lookup 203.0.113.9 5 none\n\
serial 6 built 5\n\
route 10.1.0.0/16 inter 0.0.0.0 20 0 peer:1@10.0.0.2\n",
];

const PRINTING: PrintOptions = PrintOptions {
    show: Show::Routes,
    format: Format::Text,
    progress: false,
};

/// Returns true if the replay prints one of the outputs, or whole lines at the start of one if
/// memory runs out.
pub fn is_right<R: AllocGlobal + RandomSource>(rt: &R) -> bool {
    let Ok(hashing) = RandomState::new(rt) else {
        return true;
    };
    let (mut input, mut out, mut faults) = (
        RECORDING.as_bytes(),
        OutputPage::empty(),
        OutputPage::empty(),
    );
    let ended = replay_one(
        rt.alloc(),
        hashing,
        PRINTING,
        &mut input,
        &mut out,
        &mut faults,
    );
    match ended {
        Ok(()) => is_whole(out.written()),
        Err(ReplayFault::Line(found)) => {
            found.fault == Fault::Memory && out.written().is_empty()
        }
        Err(ReplayFault::Memory) => is_beginning(out.written()),
        Err(_) => false,
    }
}

// Returns true if the text is one of the outputs.
fn is_whole(written: &[u8]) -> bool {
    let mut is_found = written == WHOLE.as_bytes();
    for output in REFUSED {
        is_found |= written == output.as_bytes();
    }
    for output in BEHIND {
        is_found |= written == output.as_bytes();
    }
    is_found
}

// Returns true if the text is the start of one of the outputs, and its last line is whole.
fn is_beginning(written: &[u8]) -> bool {
    let mut is_found = WHOLE.as_bytes().starts_with(written);
    for output in REFUSED {
        is_found |= output.as_bytes().starts_with(written);
    }
    for output in BEHIND {
        is_found |= output.as_bytes().starts_with(written);
    }
    is_found && (written.is_empty() || written.ends_with(b"\n"))
}
