//! The advice for each number, with one function for each table.
ghost use Rattle.std.specs.Prelude.{◌≡◌, option_map};
ghost use Rattle.cli_queries.specs.Advice.{advice_of, advice_in, lsa_faults, refusals};
ghost use Rattle.cli_queries.specs.Advice.{later_refusals, config_faults, line_faults};
ghost use Rattle.cli_queries.specs.Advice.{call_faults, capture_faults, packet_faults};
ghost use Rattle.cli_queries.specs.Advice.{datagram_faults};

/// Returns the advice for the number of a fault or a refusal, or `None` for any other number.
///
/// The advice is one line. It has the number and the name, a sentence about its meaning, and a
/// sentence about what to do. 11 is not a refusal: it reports to C that an event was taken and that
/// the table and the due summaries are older.
pub fn advice(number: u32) -> Option<&'static str>
    ensures { option_map (λ t. t.now) result ≡ advice_of number }
{
    lsa_fault(number)
        .or(refusal(number))
        .or(later_refusal(number))
        .or(config_fault(number))
        .or(line_fault(number))
        .or(call_fault(number))
        .or(capture_fault(number))
        .or(packet_fault(number))
        .or(datagram_fault(number))
}

// Returns the advice for a fault of the bytes of an LSA.
fn lsa_fault(number: u32) -> Option<&'static str>
    ensures { option_map (λ t. t.now) result ≡ advice_in lsa_faults number }
{
    let text = match number {
        1 => "1 Length: There are fewer than 20 bytes, or the length field is not their number \
              (RFC 2328, A.4.1). Hand in the whole LSA, header and body, and nothing behind it: \
              a packet may have several.\n",
        2 => "2 Checksum: The checksum does not fit the bytes, or is zero (RFC 2328, 12.1.7). \
              Drop the LSA; if you made it, take the checksum from sum_of, which leaves the LS \
              age out.\n",
        3 => "3 Age: The LS age is above MaxAge, 3600 seconds (RFC 2328, 12.1.1). Drop the LSA; \
              an age with the bit DoNotAge (RFC 1793) is above it too.\n",
        4 => "4 Sequence: The sequence number is the reserved 0x80000000 (RFC 2328, 12.1.6). \
              Drop the LSA; the first number that a router uses is 0x80000001.\n",
        5 => "5 Kind: The LS type is not 1 to 5 (RFC 2328, A.4.1). Drop the LSA, or keep it \
              elsewhere: opaque LSAs (RFC 5250) say nothing of these routes.\n",
        6 => "6 Reserved: A reserved byte is not zero, or the first record of an AS-external-LSA \
              has a TOS (RFC 2328, A.4). Drop the LSA, and look at the router that made it.\n",
        7 => "7 Mask: A mask is not ones and then zeros, or the mask of a summary-LSA for an AS \
              boundary router is not zero. Drop the LSA, and look at the router that made it.\n",
        8 => "8 RouterId: The Link State ID of a router-LSA is not its Advertising Router (RFC \
              2328, 12.1.4). Drop the LSA, and look at the router that made it.\n",
        9 => "9 LinkType: The type of a link is not 1 to 4 (RFC 2328, A.4.2). Drop the LSA, and \
              look at the router that made it.\n",
        10 => "10 Shape: The body is cut off, has fewer links than it counts or no external \
               record, or has bytes left over. Drop the LSA, and look at how its bytes were cut.\n",
        _ => return None,
    };
    Some(text)
}

// Returns the advice for a refusal of an event.
fn refusal(number: u32) -> Option<&'static str>
    ensures { option_map (λ t. t.now) result ≡ advice_in refusals number }
{
    let text = match number {
        20 => "20 NoArea: The area of the scope, of the interface or of the range is not \
               configured. Name an area of the configuration; another one needs a new core.\n",
        21 => "21 Scope: An AS-external-LSA names an area, or another LSA names the AS. Take the \
               database by the LS type: the AS for type 5, else the area of the interface.\n",
        22 => "22 Older: The database has a newer instance of the LSA (RFC 2328, 13.1). Do \
               nothing; a daemon sends its neighbour the newer one (RFC 2328, 13 (8)).\n",
        23 => "23 Same: The database has this instance of the LSA already. Do nothing; a daemon \
               acknowledges it (RFC 2328, 13.5).\n",
        24 => "24 NoLsa: The database has no such LSA. Do nothing; it has left already.\n",
        25 => "25 NotOwn: The LSA to flush is not the router's own (RFC 2328, 14.1). Leave it to \
               its router.\n",
        26 => "26 NotMaxAge: The LSA to purge is not at MaxAge (RFC 2328, 14). Flush it first, or \
               wait until it is 3600 seconds old.\n",
        27 => "27 Full: The LSA is new, and the database is at its limit. See who floods so many; \
               a network of this size needs more areas.\n",
        28 => "28 JournalFull: As many events were taken since the base as the journal holds, or \
               the last serial was given. Roll, and hand the event in again.\n",
        29 => "29 AddressTaken: The interface is up, and another one that is up has its address. \
               Take the other one down first.\n",
        _ => return None,
    };
    Some(text)
}

// Returns the advice for a refusal of an event or a roll.
fn later_refusal(number: u32) -> Option<&'static str>
    ensures { option_map (λ t. t.now) result ≡ advice_in later_refusals number }
{
    let text = match number {
        11 => "11 Behind: The event was taken, but memory ran out over what follows from it, and \
               the table and due summaries are older. Free some memory, and call catch_up; the \
               next event tries too.\n",
        30 => "30 Memory: Memory ran out before the event was taken, or the command done. Free \
               some memory, and try again.\n",
        31 => "31 Spawn: A thread could not be started for a list of events. Hand in fewer lists, \
               of more events each, or ask for fewer workers.\n",
        32 => "32 Workers: More than 16 lists of events were handed in at once. Hand in fewer \
               lists, of more events each.\n",
        34 => "34 RangeOverlaps: Another range of the area covers the range to be set, or is \
               covered by it. Drop the other one first.\n",
        35 => "35 NoRange: The area has no range with the prefix to be dropped. Do nothing, or \
               give the prefix as it was set.\n",
        36 => "36 RangeFull: The range is new, and the area has 32 ranges. Drop one, or set one \
               that covers several.\n",
        37 => "37 NotCurrent: The table, the due summaries or what is published follow fewer \
               events than were taken, so there is no roll. Call catch_up, then roll.\n",
        _ => return None,
    };
    Some(text)
}

// Returns the advice for a fault of a configuration or a base, or in opening an engine.
fn config_fault(number: u32) -> Option<&'static str>
    ensures { option_map (λ t. t.now) result ≡ advice_in config_faults number }
{
    let text = match number {
        40 => "40 Areas: There is no area, or there are more than 16, or two have one Area ID. \
               Configure 1 to 16 areas.\n",
        41 => "41 RangesOverlap: Of two ranges of an area one covers the other. Leave one of them \
               out.\n",
        42 => "42 BackboneStub: The backbone is a stub area. Make it a normal area (RFC 2328, \
               3.6).\n",
        43 => "43 Cost: The default cost of a stub area is 16777215, LSInfinity, or more. Give a \
               lower one.\n",
        44 => "44 RangeCount: An area has more than 32 ranges. Leave some out, or take one that \
               covers several.\n",
        45 => "45 Readers: No forwarder is asked for, or more than 64 are. Ask for 1 to 64.\n",
        46 => "46 Place: There was no place for a forwarder. Ask for fewer.\n",
        47 => "47 Doubled: An interface ID, or a key in a scope, is twice in a base. Take the \
               base of a core, or leave the older one out.\n",
        _ => return None,
    };
    Some(text)
}

// Returns the advice for a fault of a line of a recording.
fn line_fault(number: u32) -> Option<&'static str>
    ensures { option_map (λ t. t.now) result ≡ advice_in line_faults number }
{
    let text = match number {
        50 => "50 Truncated: The line has no line feed, or it is one of the first lines and is \
               missing. The file was cut off: write it again, or drop its last line.\n",
        51 => "51 Version: The first line is none of \"abr 1\", \"abr 2\" and \"abr 3\". See \
               whether the file is a recording.\n",
        52 => "52 Line: The line has none of the forms of a recording of its version. Compare it \
               with the lines in docs/FORMATS.md: one space between words, no leading zeros, no \
               bit past a prefix, lower case.\n",
        53 => "53 Order: The line may not stand where it stands. Put it where the lines in \
               docs/FORMATS.md say.\n",
        54 => "54 Wire: The bytes to install are no LSA; the number of their fault follows. See \
               that number.\n",
        55 => "55 Config: The configuration, of which the line is the last, has a fault; its \
               number follows. See that number.\n",
        56 => "56 Base: The interface or the LSA of the base has a fault: 20, 21, 27 or 29 \
               follows. See that number.\n",
        _ => return None,
    };
    Some(text)
}

// Returns the advice for a fault of a call from C.
fn call_fault(number: u32) -> Option<&'static str>
    ensures { option_map (λ t. t.now) result ≡ advice_in call_faults number }
{
    let text = match number {
        60 => "60 NoCore: No core is open there. Open one with abr_open or abr_open_base.\n",
        61 => "61 NoPrefix: The length is above 32, or a bit behind it is 1. Give a length of 0 \
               to 32, and an address whose bits behind it are 0.\n",
        _ => return None,
    };
    Some(text)
}

// Returns the advice for a fault of a capture, a pcap or pcapng file.
fn capture_fault(number: u32) -> Option<&'static str>
    ensures { option_map (λ t. t.now) result ≡ advice_in capture_faults number }
{
    let text = match number {
        62 => "62 NoCapture: The first bytes are the magic number of neither a pcap nor a pcapng, \
               or a section of a pcapng has no byte-order magic. See whether the file is a \
               capture, and unpack it if it is compressed.\n",
        63 => "63 Version: The major version is not 2 in a pcap, or not 1 in a section of a \
               pcapng. Convert the capture to one of these, with a program that reads it.\n",
        64 => "64 BlockLength: The length of a block is no multiple of 4, below the least of its \
               type, not repeated at its end, or above 1 MiB in a block that is read. The file is \
               damaged: copy it again, or look at the program that wrote it.\n",
        65 => "65 PacketLength: A packet has more captured bytes than its block, or more than \
               262144. The file is damaged, or its snapshot length is too large: copy it again, \
               or capture with one of at most 262144.\n",
        66 => "66 NoInterface: A packet is of an interface that the section has not declared. The \
               file is damaged, or blocks were left out: copy it again, or look at the program \
               that wrote it.\n",
        67 => "67 Options: An option of an interface goes past the end of its block, or is of a \
               wrong length. The file is damaged: copy it again, or look at the program that \
               wrote it.\n",
        68 => "68 Resolution: The time of a packet is before 1970, or 2^64 nanoseconds or more \
               after it. Look at the clock of the machine that captured it, and at the resolution \
               and the offset of the interface.\n",
        69 => "69 CutOff: The capture ends within a header, a block or a packet, or before the \
               first header. The file was cut off: copy it again, or wait until it is written to \
               its end.\n",
        _ => return None,
    };
    Some(text)
}

// Returns the advice for a fault of an OSPF packet, or of the LSAs of a Link State Update.
fn packet_fault(number: u32) -> Option<&'static str>
    ensures { option_map (λ t. t.now) result ≡ advice_in packet_faults number }
{
    let text = match number {
        70 => "70 Short: There are fewer than 24 bytes, which is a packet's header (RFC 2328, \
               A.3.1). Drop the packet, and look at how its bytes were cut.\n",
        71 => "71 Version: The version of the packet is not 2 (RFC 2328, A.3.1). Drop the packet; \
               version 3 (RFC 5340) is a protocol of its own.\n",
        72 => "72 Kind: The packet's type is not 1 to 5 (RFC 2328, A.3.1). Drop the packet, and \
               look at the router that sent it.\n",
        73 => "73 Length: The packet's length is below 24, or more than the bytes that are there \
               (RFC 2328, A.3.1). Drop the packet, and look at how its bytes were cut.\n",
        74 => "74 Checksum: The checksum does not fit the packet (RFC 2328, D.4.1, D.4.2). Drop \
               the packet; its bytes were changed after they were sent, or its router is at \
               fault.\n",
        75 => "75 Count: The body of a Link State Update has fewer than 4 bytes, which is the \
               number of its LSAs (RFC 2328, A.3.5). Drop the packet, and look at the router that \
               sent it.\n",
        76 => "76 LsaLength: Where an LSA of a Link State Update is to stand, the length in its \
               header is below 20, or the body ends before the LSA (RFC 2328, A.3.5). Keep the \
               LSAs before it, and look at the router that sent the packet.\n",
        _ => return None,
    };
    Some(text)
}

// Returns the advice for a fault of an IPv4 datagram.
fn datagram_fault(number: u32) -> Option<&'static str>
    ensures { option_map (λ t. t.now) result ≡ advice_in datagram_faults number }
{
    let text = match number {
        80 => "80 Header: There are fewer than 20 bytes, the version is not 4, or the header's \
               length is below 20 bytes or goes past the bytes (RFC 791, 3.1). Drop the datagram, \
               and look at how its bytes were cut.\n",
        81 => "81 Length: The total length is below the header's, or goes past the bytes (RFC \
               791, 3.1). Drop the datagram; if the capture cut it, capture with a larger \
               snapshot length.\n",
        82 => "82 Fragment: A fragment that is not the last has a payload of no whole blocks of 8 \
               bytes, or a fragment ends past 65535 (RFC 791, 3.1). Drop the fragment, and look \
               at the host that sent it.\n",
        _ => return None,
    };
    Some(text)
}
