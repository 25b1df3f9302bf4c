//! `dump`: the data file is read back, or what is first wrong with it is told.

use crate::calls::ONE_INSERT;
use crate::calls::Script::{Inserts, Text};
use crate::steps::Step::{Dump, DumpOf, Make, Moment, Play, Run, SetLen, Write};
use crate::steps::{Case, Step, hold};

const ONE: Step = Play(Text(ONE_INSERT), 0, b"1 ok 1\n");

/// Three inserts of small documents, whose records lie at 8368, 8400 and 8432.
const THREE: Step = Play(
    Text(
        b"1 test insert c hex:0e000000105f6964000100000000\n1 test insert c {\"_id\": 7}\n1 test insert c hex:0E000000105F6964000200000000\n",
    ),
    0,
    b"1 ok 1\n2 ok 1\n3 ok 1\n",
);

const BAD_FILE: Step = Dump(8, b"bad file test.0 0 file\n");

const BAD_EXTENT: Step = Dump(8, b"bad file test.0 8192 extent\n");

const BAD_CHAIN_AT_8192: Step = Dump(8, b"bad file test.0 8192 chain\n");

const BAD_CHAIN_AT_8368: Step = Dump(8, b"bad file test.0 8368 chain\n");

const BAD_CHAIN_AT_8400: Step = Dump(8, b"bad file test.0 8400 chain\n");

/// The documents are those that were stored, in their order, whatever the digits' case was, with their `_id` in front or a made one.
const PRINTED: &[Case] = &[
    &[Play(Text(b""), 0, b""), Moment(3), Dump(0, b""), Moment(3)],
    &[ONE, Moment(3), Dump(0, b"test.c {\"_id\": 1}\n"), Moment(3)],
    &[
        THREE,
        Moment(3),
        Dump(
            0,
            b"test.c {\"_id\": 1}\ntest.c {\"_id\": 7}\ntest.c {\"_id\": 2}\n",
        ),
    ],
    &[
        Play(
            Text(
                b"1 test insert a.b_C {\"a\": [MinKey], \"_id\": \"x\"}\n\n# a comment\n2 test insert a.b_C {}\n",
            ),
            0,
            b"1 ok 1\n4 ok 1\n",
        ),
        Moment(3),
        Dump(
            0,
            b"test.a.b_C {\"_id\": \"x\", \"a\": [MinKey]}\ntest.a.b_C {\"_id\": ObjectId(\"53724e000000000002000004\")}\n",
        ),
    ],
    // a document that found no space isn't printed; a record that keeps the last bytes of the extent is
    &[
        Play(
            Inserts(&[524_272, 524_272, 262_128]),
            0,
            b"1 ok 1\n2 NoSpace\n3 ok 1\n",
        ),
        DumpOf(524_272 + 262_128 + 2 * 4),
    ],
    // the sink fails at its first write
    &[ONE, Run(&["dump", "F"], (0, 1), 6, b"")],
];

/// A disk without files has nothing to print. The first name that isn't the data file's is told, behind the data file too.
const STRAY: &[Case] = &[
    &[Dump(0, b""), Moment(0)],
    &[
        Make("test.0"),
        Make("zeta"),
        Dump(8, b"bad file zeta 0 present\n"),
        Moment(2),
    ],
    &[
        Make("alpha"),
        Make("test.0"),
        Dump(8, b"bad file alpha 0 present\n"),
        Moment(2),
    ],
    &[
        Make("test.1"),
        Make("test.ns"),
        Dump(8, b"bad file test.1 0 present\n"),
        Moment(2),
    ],
];

/// A data file that is too short or too long, one of them by a byte.
const OF_ANOTHER_LENGTH: &[Case] = &[
    &[ONE, SetLen(0), BAD_FILE],
    &[ONE, SetLen(8192), BAD_FILE],
    &[ONE, SetLen(1_048_575), BAD_FILE],
    &[ONE, SetLen(1_048_577), BAD_FILE],
    &[ONE, SetLen(2_097_152), BAD_FILE],
];

const FORGED_HEADERS: &[Case] = &[
    // the file's header: its version, its length, where the rest begins, a byte behind its fields
    &[THREE, Write(4, &[6]), BAD_FILE],
    &[THREE, Write(8, &[1]), BAD_FILE],
    &[THREE, Write(16, &[32]), BAD_FILE],
    &[THREE, Write(8191, &[1]), BAD_FILE],
    // the extent's header: its magic, its place, its name, its length
    &[THREE, Write(8192, &[0]), BAD_EXTENT],
    &[THREE, Write(8200, &[1]), BAD_EXTENT],
    &[THREE, Write(8220, b"tess.c"), BAD_EXTENT],
    &[THREE, Write(8225, b"system.c"), BAD_EXTENT],
    &[THREE, Write(8225, b"c d"), BAD_EXTENT],
    &[THREE, Write(8225, b"c\0d"), BAD_EXTENT],
    &[THREE, Write(8348, &[1]), BAD_EXTENT],
];

const FORGED_CHAINS: &[Case] = &[
    // where the chain begins and ends
    &[THREE, Write(8352, &[255; 4]), BAD_CHAIN_AT_8192],
    &[THREE, Write(8352, &[1]), BAD_CHAIN_AT_8192],
    &[THREE, Write(8356, &[255; 4]), BAD_CHAIN_AT_8192],
    &[THREE, Write(8364, &[0xd0, 0x20]), BAD_CHAIN_AT_8192],
    // a link behind the extent's end, or to the place of no whole header
    &[THREE, Write(8376, &[0, 0, 16, 0]), BAD_CHAIN_AT_8368],
    &[THREE, Write(8376, &[254, 255, 255, 255]), BAD_CHAIN_AT_8368],
    &[
        THREE,
        Write(8376, &[0xf8, 0xff, 15, 0]),
        Dump(8, b"bad file test.0 1048568 chain\n"),
    ],
    &[
        THREE,
        Write(8376, &[0, 1, 0, 0]),
        Dump(8, b"bad file test.0 256 chain\n"),
    ],
    // cycles: to itself, to the first, to the one before
    &[THREE, Write(8376, &[0xb0, 0x20]), BAD_CHAIN_AT_8368],
    &[THREE, Write(8440, &[0xb0, 0x20, 0, 0]), BAD_CHAIN_AT_8368],
    &[THREE, Write(8440, &[0xd0, 0x20, 0, 0]), BAD_CHAIN_AT_8400],
    // a record's own header: the one before it, its extent, lengths of 0, 31 and a negative one
    &[THREE, Write(8380, &[0; 4]), BAD_CHAIN_AT_8368],
    &[THREE, Write(8412, &[0xff; 4]), BAD_CHAIN_AT_8400],
    &[THREE, Write(8404, &[0, 0]), BAD_CHAIN_AT_8400],
    &[THREE, Write(8400, &[0]), BAD_CHAIN_AT_8400],
    &[THREE, Write(8368, &[31]), BAD_CHAIN_AT_8368],
    &[
        THREE,
        Write(8435, &[255]),
        Dump(8, b"bad file test.0 8432 chain\n"),
    ],
];

/// The layout, and the documents.
const FORGED_RECORDS: &[Case] = &[
    // a huge record, one that is passed over, the rest
    &[
        THREE,
        Write(8432, &[255, 255, 255, 127]),
        Dump(8, b"bad file test.0 8432 tiling\n"),
    ],
    &[
        THREE,
        Write(8376, &[0xf0, 0x20]),
        Write(8444, &[0xb0, 0x20]),
        Dump(8, b"bad file test.0 8400 tiling\n"),
    ],
    &[
        THREE,
        Write(8464, &[0]),
        Dump(8, b"bad file test.0 8464 tiling\n"),
    ],
    // a document: its length, its end, its type
    &[
        THREE,
        Write(8416, &[4]),
        Dump(8, b"bad file test.0 8400 document\n"),
    ],
    &[
        THREE,
        Write(8429, &[1]),
        Dump(8, b"bad file test.0 8400 document\n"),
    ],
    &[
        THREE,
        Write(8388, &[0x7e]),
        Dump(8, b"bad file test.0 8368 document\n"),
    ],
];

#[test]
fn what_was_played_is_printed(rt: HostRuntime) {
    hold(&rt, rt.alloc(), PRINTED);
}

#[test]
fn files_are_judged(rt: HostRuntime) {
    hold(&rt, rt.alloc(), STRAY);
    hold(&rt, rt.alloc(), OF_ANOTHER_LENGTH);
}

#[test]
fn forged_headers_are_told(rt: HostRuntime) {
    hold(&rt, rt.alloc(), FORGED_HEADERS);
}

#[test]
fn forged_chains_are_told(rt: HostRuntime) {
    hold(&rt, rt.alloc(), FORGED_CHAINS);
}

#[test]
fn forged_records_are_told(rt: HostRuntime) {
    hold(&rt, rt.alloc(), FORGED_RECORDS);
}
